//! Laws of a guest alone that goes forward: what can't be taken back.

ghost use Rattle.jv_meaning_machine.specs.Laws.Forward.{ConstructedStays, ErroneousStays, InitializedStays, ThrowsNeverFall};

/// A class that is initialized stays so.
pub fn initialized_stays()
    ensures { InitializedStays }
{}

/// A class that is erroneous stays so.
pub fn erroneous_stays()
    ensures { ErroneousStays }
{}

/// Throws are never fewer, and their count stays within 64 bits.
pub fn throws_never_fall()
    ensures { ThrowsNeverFall }
{}

/// An object that is constructed stays so, over any number of steps.
pub fn constructed_stays()
    ensures { ConstructedStays }
{}
