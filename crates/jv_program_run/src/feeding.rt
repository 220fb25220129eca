//! Rounds of turns, before each of which a guest is fed what is read.
ghost use Rattle.std.specs.Prelude.{IfErr, IfOk, IsSome, slice_get};
ghost use Rattle.jv_program_run.specs.Inside.Turns.{AreAtStart, IsFedNext, IsFedRun, IsFeedFailure, IsNextFailure};

use crate::rounds::run_round;
use crate::settings::RunSettings;
use jv_host::{GuestId, Host, Watch};
use jv_meaning_machine::{feed_shows_later, shows_one_thing};
use jv_program_base::Failure;
use jv_store::Cells;
use std::io::Read;

/// The most bytes that are read at a time.
const PIECE: usize = 4096;

/// Reads once, and feeds what was read to a guest; says whether there is more to read.
///
/// # Errors
///
/// `StandardInput` where the read fails; else the refusals of `Host::feed`.
fn feed_next<I: Read>(
    host: &mut Host<'_, Cells>,
    id: GuestId,
    input: &mut I,
) -> Result<bool, Failure>
    requires { IsSome (slice_get host.old id.0) }
    ensures ok { IfOk result (IsFedNext id.0 host.old host.new (I.remaining input.old) (I.remaining input.new)) }
    ensures err { IfErr result (IsNextFailure id.0 host.old (I.remaining input.old) (I.remaining input.new)) }
{
    let mut piece = [0u8; PIECE];
    let Ok(count) = input.read(&mut piece) else {
        return Err(Failure::StandardInput);
    };
    host.feed(id, &piece[..count])?;
    Ok(count > 0)
}

/// Gives the guests of a host, each of which is at its start, their turns, round by round, as long as one takes
/// steps. Before each round, until the input ends, what one read of it gives is fed to a guest. Answers how many rounds there were. A watch
/// sees them.
///
/// # Errors
///
/// `StandardInput` where a read fails, `FeedTooLong` where the guest would have more than 16,777,216 bytes of input, and `HostMemory`
/// where the host had no memory for them.
pub(crate) fn run_fed<I: Read, W: Watch>(
    host: &mut Host<'_, Cells>,
    id: GuestId,
    settings: RunSettings,
    input: &mut I,
    watch: &mut W,
) -> Result<u32, Failure>
    requires there { IsSome (slice_get host.old id.0) }
    requires start { AreAtStart host.old }
    ensures ok { IfOk result (IsFedRun settings.quantum settings.rounds id.0 host.old host.new
        (I.remaining input.old) (I.remaining input.new)) }
    ensures err { IfErr result (IsFeedFailure settings.quantum settings.rounds id.0 host.old
        (I.remaining input.old) (I.remaining input.new)) }
{
    shows_one_thing();
    feed_shows_later();
    let mut more = true;
    for round in 0..settings.rounds {
        if !host.any_runs() {
            return Ok(round);
        }
        if more {
            more = feed_next(host, id, input)?;
        }
        run_round(host, settings.quantum);
        host.tell(round + 1, watch);
    }
    Ok(settings.rounds)
}
