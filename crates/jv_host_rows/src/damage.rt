//! Damaged files, each beside a guest that isn't.

use crate::Prepared;
use crate::brought::Lent;
use crate::calls::write_admission;
use crate::shown::{write_guest, write_verdicts};
use jv_host::{GuestId, Host};
use jv_store::Cells;
use std::alloc::{AllocError, Global};

/// How many damaged files there were, and how many of them came out so.
#[derive(Clone, Copy)]
struct Counts {
    files: u64,
    version: u64,
    format: u64,
    format_without_main: u64,
    neighbour: u64,
}

/// What a host shows of a damaged guest after 1,000 steps and of the whole one beside it after its own: the verdicts and the end of the
/// first, and what the second shows.
fn shown_of<'a>(
    alloc: Global,
    prepared: &'a Prepared,
    damaged: &'a Lent<'a>,
    whole: &'a Lent<'a>,
) -> Result<(String, String, String), AllocError> {
    let mut host: Host<'a, Cells> = Host::new(alloc, prepared.state);
    let mut out = String::new(alloc);
    write_admission(&mut out, &mut host, damaged)?;
    write_admission(&mut out, &mut host, whole)?;
    let mut verdicts = String::new(alloc);
    let mut first = String::new(alloc);
    let mut second = String::new(alloc);
    if host.turn(GuestId(0), 1000).is_ok() && host.turn(GuestId(1), 1000).is_ok() {
        write_verdicts(&mut verdicts, &host, 0)?;
        write_guest(&mut first, &host, 0)?;
        write_guest(&mut second, &host, 1)?;
    }
    Ok((verdicts, first, second))
}

/// Counts a damaged file.
fn count<'a>(
    alloc: Global,
    prepared: &'a Prepared,
    file: &'a [u8],
    whole: &'a Lent<'a>,
    so_far: Counts,
) -> Result<Counts, AllocError> {
    let mut files: Vec<&'a [u8]> = Vec::new(alloc);
    files.push(file)?;
    let damaged = Lent {
        system: whole.system,
        main: whole.main,
        input: whole.input,
        files,
        budget: whole.budget,
    };
    let (verdicts, first, second) = shown_of(alloc, prepared, &damaged, whole)?;
    let is_format = verdicts.as_str() == "1 Format";
    let is_mainless = is_format && first.as_str() == "steps 0, throws 0, output ``, end NoMain";
    let is_whole = second.as_str() == "steps 6, throws 0, output `Hi`, end Returned";
    Ok(Counts {
        files: so_far.files.saturating_add(1),
        version: so_far
            .version
            .saturating_add(u64::from(verdicts.as_str() == "1 Version")),
        format: so_far.format.saturating_add(u64::from(is_format)),
        format_without_main: so_far
            .format_without_main
            .saturating_add(u64::from(is_mainless)),
        neighbour: so_far.neighbour.saturating_add(u64::from(is_whole)),
    })
}

const NONE: Counts = Counts {
    files: 0,
    version: 0,
    format: 0,
    format_without_main: 0,
    neighbour: 0,
};

fn write_counts(out: &mut String, name: &str, counts: Counts) -> Result<(), AllocError> {
    write!(
        out,
        "  {name}: {} files, Version {}, Format {}, without main {}, the other guest as alone {}\n",
        counts.files, counts.version, counts.format, counts.format_without_main, counts.neighbour
    )
}

/// Counts the fronts of the file.
fn count_fronts<'a>(
    alloc: Global,
    prepared: &'a Prepared,
    file: &'a [u8],
    whole: &'a Lent<'a>,
) -> Result<Counts, AllocError> {
    let mut counts = NONE;
    for length in 0..file.len() {
        counts = count(alloc, prepared, &file[..length], whole, counts)?;
    }
    Ok(counts)
}

/// Counts the files with another byte at a place, if it is another one.
fn count_change(
    alloc: Global,
    prepared: &Prepared,
    file: &mut [u8],
    whole: &Lent<'_>,
    place: usize,
    byte: u8,
    counts: Counts,
) -> Result<Counts, AllocError> {
    if place >= file.len() || file[place] == byte {
        return Ok(counts);
    }
    let before = file[place];
    file[place] = byte;
    let counts = count(alloc, &*prepared, &*file, &*whole, counts)?;
    file[place] = before;
    Ok(counts)
}

/// Counts the files with 0, with 255, and with each one bit flipped, at each place of a range.
fn count_changes(
    alloc: Global,
    prepared: &Prepared,
    file: &mut [u8],
    whole: &Lent<'_>,
    from: usize,
    to: usize,
) -> Result<Counts, AllocError> {
    let mut counts = NONE;
    for place in from..to {
        let byte = match file.get(place) {
            Some(byte) => *byte,
            None => 0,
        };
        counts = count_change(alloc, prepared, file, whole, place, 0, counts)?;
        counts = count_change(alloc, prepared, file, whole, place, 255, counts)?;
        for bit in 0..8u8 {
            counts = count_change(
                alloc,
                prepared,
                file,
                whole,
                place,
                byte ^ (1 << bit),
                counts,
            )?;
        }
    }
    Ok(counts)
}

/// Damages the first guest's file in each way, and shows how many came out how.
pub(crate) fn write_damage(
    out: &mut String,
    prepared: &Prepared,
    lent: &[Lent<'_>],
) -> Result<(), AllocError> {
    let alloc = *out.allocator();
    let Some(whole) = lent.first() else {
        return out.push_str("nobody");
    };
    let Some(file) = whole.files.first() else {
        return out.push_str("no file");
    };
    write_counts(out, "cut", count_fronts(alloc, &*prepared, file, &*whole)?)?;
    let mut own = Vec::new(alloc);
    own.extend_from_slice(file)?;
    let magic = count_changes(alloc, prepared, &mut own, whole, 0, 4)?;
    write_counts(out, "bytes 0 to 3", magic)?;
    let version = count_changes(alloc, prepared, &mut own, whole, 4, 8)?;
    write_counts(out, "bytes 4 to 7", version)?;
    let rest = count_changes(alloc, prepared, &mut own, whole, 8, file.len())?;
    write!(
        out,
        "  the others: {} files, the other guest as alone {}\n",
        rest.files, rest.neighbour
    )
}
