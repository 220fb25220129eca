//! Files of descriptions that are known to fit.

ghost use Rattle.std.specs.Prelude.{◌≡◌, IfOk};
ghost use Rattle.jv_class_structure.specs.Structure.{class_bytes};
ghost use Rattle.jv_asm.specs.Description.{described_class};
ghost use Rattle.jv_asm.specs.Fits.{IsFit};

use crate::out_of_memory::OutOfMemory;
use jv_asm::{AsmFault, Description, write_class};
use std::alloc::Global;

/// The file of a description whose counts and lengths fit their fields.
pub(crate) fn written(alloc: Global, description: &Description<'_>) -> Result<Vec<u8>, OutOfMemory>
    requires { IsFit (described_class description.now) }
    ensures { IfOk result (λ file. file.items ≡ class_bytes (described_class description.now)) }
{
    match write_class(alloc, description) {
        Ok(file) => Ok(file),
        Err(AsmFault::OutOfMemory) => Err(OutOfMemory),
        Err(AsmFault::TooLarge) => unreachable!(),
    }
}
