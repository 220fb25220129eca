//! Laws of what is beyond the profile.

ghost use Rattle.jv_beyond.specs.Beyond.{SomeIsBeyond};
ghost use Rattle.jv_beyond.specs.Rows.{WorkedRows};

use jv_class::is_some_class;
use jv_meaning_world::one_content;

/// A class file with more than the profile has a part that is beyond it.
pub fn some_is_beyond()
    ensures { SomeIsBeyond }
{
    is_some_class();
    one_content();
}

/// Worked rows, computed: of the order of parts, of what is said of instructions, flags and constants, and of what instructions name.
pub fn worked_rows()
    ensures { WorkedRows }
{}
