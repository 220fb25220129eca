//! The law.

ghost use Rattle.jv_asm.specs.Law.{WrittenReadsBack};

/// What is written of a well-formed structure of version 50.0, 51.0 or 52.0 is the class file with
/// that structure, and no other is read there.
pub fn written_reads_back()
    ensures { WrittenReadsBack }
{}
