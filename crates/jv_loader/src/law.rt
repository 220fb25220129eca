//! Laws of the system classes.

ghost use Rattle.jv_meaning_world.specs.FileContent.{AreContents};
ghost use Rattle.jv_meaning_world.specs.System.Classes.{system_bytes, system_contents};
ghost use Rattle.jv_loader.specs.LibraryFault.{FaultsRefuse};

use jv_asm::written_reads_back;
use jv_code::code_is_supported;
use jv_meaning_world::one_content;
use jv_text::types_agree;

/// Each system file holds the class at its place.
pub(crate) fn system_holds()
    ensures { AreContents system_bytes system_contents }
{
    types_agree();
    code_is_supported();
    written_reads_back();
}

/// Files with a fault are no library, but for want of memory.
pub fn faults_refuse()
    ensures { FaultsRefuse }
{
    one_content();
}
