//! What is written on standard output, and beside it.
ghost use Rattle.std.specs.Prelude.{◌≡◌, ◌++◌, ℕ, IfErr, IfOk, IsOk, IsTrue, List, None, OnErr, OnOk, Option};
ghost use Rattle.std.specs.Io.KnownBytes.{Appends};
ghost use Rattle.jv_program_base.specs.Escape.{escaped_text};
ghost use Rattle.jv_program.specs.Written.{IsWritten, WritesCut, WritesFront, beside_of, shown_of};
ghost use Rattle.jv_program.specs.declared.stop.Stop.TheVariants.{Output};

use crate::sink::{Lost, Sink};
use crate::stop::Stop;
use jv_program_base::{Outcome, escape_of};

/// Writes bytes, or fails where a write fails or takes none of them; what was written is then a front of them, and not all.
pub(crate) fn write_bytes<O: Sink>(to: &mut O, bytes: &[u8]) -> Result<(), Lost>
    ensures whole { OnOk result (Appends (O.contents to.old) (O.contents to.new) bytes.now) }
    ensures cut { OnErr result (WritesCut (O.contents to.old) (O.contents to.new) bytes.now) }
    ensures sure { IsTrue O.SURE → IsOk result }
{
    let mut rest = bytes;
    while !rest.is_empty() {
        let count = to.write(rest)?;
        if count == 0 {
            return Err(Lost);
        }
        rest = &rest[count..];
    }
    Ok(())
}

/// Writes bytes behind others, where those were written.
pub(crate) fn write_next<O: Sink>(
    to: &mut O,
    so_far: Result<(), Lost>,
    bytes: &[u8],
) -> Result<(), Lost>
    ensures written { (start : Option (List ℕ)) (done : List ℕ) → IsWritten so_far start (O.contents to.old) done
        → IsWritten result start (O.contents to.new) (done ++ bytes.now) }
    ensures sure { IsTrue O.SURE → IsOk so_far → IsOk result }
{
    match so_far {
        Ok(()) => write_bytes(to, bytes),
        Err(Lost) => Err(Lost),
    }
}

/// Writes bytes as they are printed behind others, where those were written.
pub(crate) fn write_escaped<O: Sink>(
    to: &mut O,
    so_far: Result<(), Lost>,
    bytes: &[u8],
) -> Result<(), Lost>
    ensures written { (start : Option (List ℕ)) (done : List ℕ) → IsWritten so_far start (O.contents to.old) done
        → IsWritten result start (O.contents to.new) (done ++ escaped_text bytes.now) }
    ensures sure { IsTrue O.SURE → IsOk so_far → IsOk result }
{
    let mut written = so_far;
    for byte in bytes {
        let (piece, len) = escape_of(*byte);
        written = write_next(to, written, &piece[..len]);
    }
    written
}

/// What goes to the output: what a guest wrote, where that goes there in the report's place, and else the report.
fn shown_of(outcome: &Outcome) -> &[u8]
    ensures { result.now ≡ shown_of outcome.now }
{
    match &outcome.raw {
        Some(bytes) => bytes.as_slice(),
        None => outcome.report.as_bytes(),
    }
}

/// Tells the report with the errors, where what a guest wrote goes to the output in its place.
pub(crate) fn tell_beside<E: Sink>(err: &mut E, outcome: &Outcome)
    ensures told { IsTrue E.SURE → Appends (E.contents err.old) (E.contents err.new) (beside_of outcome.now) }
    ensures front { WritesFront (E.contents err.old) (E.contents err.new) (beside_of outcome.now) }
    ensures quiet { outcome.now.raw ≡ None → err.new ≡ err.old }
{
    if outcome.raw.is_some() {
        let _ = write_bytes(err, outcome.report.as_bytes());
    }
}

/// Writes what goes to the output: the report, or what a guest wrote in its place. Gives the outcome back.
///
/// # Errors
///
/// `Output` where a write fails; what was written is then a front of it, and not all.
pub fn write_report<O: Sink>(to: &mut O, outcome: Outcome) -> Result<Outcome, Stop>
    ensures whole { OnOk result (Appends (O.contents to.old) (O.contents to.new) (shown_of outcome)) }
    ensures same { IfOk result (λ written. written ≡ outcome) }
    ensures cut { OnErr result (WritesCut (O.contents to.old) (O.contents to.new) (shown_of outcome)) }
    ensures lost { IfErr result (λ stop. stop ≡ Output) }
    ensures sure { IsTrue O.SURE → IsOk result }
{
    match write_bytes(to, shown_of(&outcome)) {
        Ok(()) => Ok(outcome),
        Err(Lost) => Err(Stop::Output),
    }
}
