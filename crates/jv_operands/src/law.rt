//! Laws about the definitions.

ghost use Rattle.jv_operands.specs.Rows.{WorkedRows};
ghost use Rattle.jv_operands.specs.Unmet.{UnmetIsUnsafe};

/// A law: where a want of an instruction is not met, the instruction is not type safe in the frame before it (JVMS 4.10.1.9).
pub fn unmet_is_unsafe()
    ensures { UnmetIsUnsafe }
{}

/// Worked rows of wants that are not met, computed.
pub fn worked_rows()
    ensures { WorkedRows }
{}
