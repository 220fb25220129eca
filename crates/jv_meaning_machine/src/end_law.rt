//! Laws of ends: a guest that has ended stays as it is.

ghost use Rattle.jv_meaning_machine.specs.Laws.Ends.{EndedGuestStays, EndedStays, EndedStaysOver, EndFitsAlone, EndFitsBehind};

/// A state that has ended stays.
pub fn ended_stays()
    ensures { EndedStays }
{}

/// It stays for any number of steps.
pub fn ended_stays_over()
    ensures { EndedStaysOver }
{}

/// A step leads from a state that has no frame exactly where the guest has ended to another such state.
pub fn end_fits_behind()
    ensures { EndFitsBehind }
{}

/// A guest alone has no frame exactly where it has ended.
pub fn end_fits_alone()
    ensures { EndFitsAlone }
{}

/// A guest that has ended stays as it is, over any number of its own steps, but for the input that joins.
pub fn ended_guest_stays()
    ensures { EndedGuestStays }
{}
