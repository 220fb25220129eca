//! Rounds of turns over a store that has memory for each step.
ghost use Rattle.std.specs.Prelude.{ℕ};
ghost use Rattle.jv_host.specs.Calls.{IsRun};

use crate::settings::RunSettings;
use jv_host::{Host, Watch};
use jv_store::Cells;

/// Gives each guest of a host one turn, in order of admission.
pub(crate) fn run_round(host: &mut Host<'_, Cells>, quantum: u32)
    ensures { (m : ℕ) × IsRun quantum 1 host.old host.new m }
{
    let Ok(_) = host.run(quantum, 1) else {
        unreachable!()
    };
}

/// Takes at most as many rounds of the guests of a host as the settings say, and answers how many: fewer only where no guest takes steps
/// any more. A watch sees them.
pub(crate) fn run_rounds<W: Watch>(
    host: &mut Host<'_, Cells>,
    settings: RunSettings,
    watch: &mut W,
) -> u32
    ensures { IsRun settings.quantum settings.rounds host.old host.new result }
{
    let Ok(rounds) = host.run_watched(settings.quantum, settings.rounds, watch) else {
        unreachable!()
    };
    rounds
}
