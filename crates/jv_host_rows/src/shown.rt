//! What a guest shows, as text.

use jv_host::{GuestEnd, GuestId, Host, Observation};
use jv_program_base::{Escaped, ShownVerdict};
use jv_store::Store;
use std::alloc::AllocError;

fn write_end(out: &mut String, end: GuestEnd<'_>) -> Result<(), AllocError> {
    match end {
        GuestEnd::Running => out.push_str("Running"),
        GuestEnd::Returned => out.push_str("Returned"),
        GuestEnd::NoMain => out.push_str("NoMain"),
        GuestEnd::Threw(name) => {
            let name = Escaped(name);
            write!(out, "Threw {name}")
        }
    }
}

/// Writes steps, throws, output and end.
pub(crate) fn write_seen(out: &mut String, seen: &Observation<'_>) -> Result<(), AllocError> {
    let output = Escaped(seen.output);
    write!(out, "steps {}, throws {}", seen.steps, seen.throws)?;
    if let Some(last) = seen.last {
        let last = Escaped(last);
        write!(out, " last {last}")?;
    }
    write!(out, ", output `{output}`, end ")?;
    write_end(out, seen.end)
}

/// Writes what a guest shows.
pub(crate) fn write_guest<S: Store>(
    out: &mut String,
    host: &Host<'_, S>,
    id: u32,
) -> Result<(), AllocError> {
    match host.observe(GuestId(id)) {
        Ok(seen) => write_seen(out, &seen),
        Err(_) => out.push_str("NoGuest"),
    }
}

/// Writes the verdicts on a guest's files, with how many alike follow one another.
pub(crate) fn write_verdicts<S: Store>(
    out: &mut String,
    host: &Host<'_, S>,
    id: u32,
) -> Result<(), AllocError> {
    let alloc = *out.allocator();
    let Ok(verdicts) = host.verdicts(GuestId(id)) else {
        return out.push_str("NoGuest");
    };
    let mut last = String::new(alloc);
    let mut count: u64 = 0;
    for verdict in verdicts {
        let shown = ShownVerdict(*verdict);
        let now = format!(in alloc; "{shown}")?;
        if count > 0 && now.as_str() != last.as_str() {
            write!(out, "{count} {last}, ")?;
            count = 0;
        }
        count = count.saturating_add(1);
        last = now;
    }
    write!(out, "{count} {last}")
}
