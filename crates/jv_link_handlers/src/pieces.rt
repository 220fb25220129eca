//! Functions from offsets to places, piece by piece.

ghost use Rattle.std.specs.Prelude.{◌≡◌, ℕ, ◌+◌, ◌<◌, ◌≤◌, ◌∷◌, [], IfOk, OnOk, length, min, nat_le, take, if◌then◌else◌};
ghost use Rattle.jv_link_handlers.specs.Inside.Finding.{least, holds_offset};
ghost use Rattle.jv_link_handlers.specs.Inside.Pieces.{place_in, start_of, Rise, RiseTo, Stands};

use crate::placed::Placed;
use std::alloc::{AllocError, Global};

/// From an offset on, up to where the next piece starts, a place.
#[derive(Clone, Copy)]
pub(crate) struct Piece {
    pub(crate) start: u16,
    pub(crate) place: u16,
}

/// No place.
pub(crate) const NONE: u16 = 65_535;

/// Where the piece with a number starts; behind the last one, at the last offset.
fn start_at(pieces: &[Piece], number: usize) -> u16
    ensures there { number < length pieces.now → result ≡ start_of pieces.now number }
    ensures past { length pieces.now ≤ number → result ≡ 65535 }
{
    if number < pieces.len() {
        pieces[number].start
    } else {
        65_535
    }
}

/// So many pieces, and the place behind them, with the next one where it starts at an offset.
fn past(pieces: &[Piece], count: usize, place: u16, start: u16) -> (usize, u16)
    requires rise { Rise pieces.now }
    requires stands { Stands pieces.now count place start }
    ensures stands { Stands pieces.now result.0 result.1 start }
    ensures before { (x : ℕ) → x < start → place_in (take result.0 pieces.now) x ≡ place_in (take count pieces.now) x }
    ensures fewer { count ≤ result.0 }
    ensures further { count < length pieces.now → start_of pieces.now count ≡ start → count < result.0 }
{
    if count < pieces.len() && pieces[count].start <= start {
        (count + 1, pieces[count].place)
    } else {
        (count, place)
    }
}

/// From an offset on, another place.
fn push_changed(made: &mut Vec<Piece>, start: u16, before: u16, now: u16) -> Result<(), AllocError>
    requires rise { RiseTo made.old.items start }
    requires before { (x : ℕ) → start ≤ x → place_in made.old.items x ≡ before }
    ensures place { OnOk result ((x : ℕ) → place_in made.new.items x ≡ (if nat_le start x then now else place_in made.old.items x)) }
    ensures rise { OnOk result (RiseTo made.new.items start) }
{
    if before != now {
        made.push(Piece { start, place: now })?;
    }
    Ok(())
}

/// The lesser place of two functions.
pub(crate) fn merged(
    alloc: Global,
    one: &[Piece],
    other: &[Piece],
) -> Result<Vec<Piece>, AllocError>
    requires one { Rise one.now }
    requires other { Rise other.now }
    ensures place { IfOk result (λ made. (x : ℕ) → place_in made.items x ≡ min (place_in one.now x) (place_in other.now x)) }
    ensures rise { IfOk result (λ made. Rise made.items) }
{
    let mut made = Vec::new(alloc);
    let mut start = 0;
    let mut left = (0, NONE);
    let mut right = (0, NONE);
    while left.0 < one.len() || right.0 < other.len() {
        start = start_at(one, left.0).min(start_at(other, right.0));
        let before = left.1.min(right.1);
        left = past(one, left.0, left.1, start);
        right = past(other, right.0, right.1, start);
        push_changed(&mut made, start, before, left.1.min(right.1))?;
    }
    Ok(made)
}

/// The place of one reach, at the offsets that it holds.
fn single(alloc: Global, placed: Placed) -> Result<Vec<Piece>, AllocError>
    ensures place { IfOk result (λ made. (x : ℕ) → place_in made.items x ≡ least (holds_offset x) (placed ∷ [])) }
    ensures rise { IfOk result (λ made. Rise made.items) }
{
    let mut made = Vec::new(alloc);
    if placed.reach.start < placed.reach.end {
        made.push(Piece {
            start: placed.reach.start,
            place: placed.place,
        })?;
        made.push(Piece {
            start: placed.reach.end,
            place: NONE,
        })?;
    }
    Ok(made)
}

/// The least place of those that hold an offset, for each.
pub(crate) fn pieces_of(alloc: Global, placed: &[Placed]) -> Result<Vec<Piece>, AllocError>
    ensures place { IfOk result (λ made. (x : ℕ) → place_in made.items x ≡ least (holds_offset x) placed.now) }
    ensures rise { IfOk result (λ made. Rise made.items) }
{
    if placed.is_empty() {
        return Ok(Vec::new(alloc));
    }
    if placed.len() == 1 {
        return single(alloc, placed[0]);
    }
    let (front, back) = placed.split_at(placed.len() / 2);
    let one = pieces_of(alloc, front)?;
    let other = pieces_of(alloc, back)?;
    merged(alloc, &one, &other)
}

/// How many pieces start at an offset or before it.
fn count_to(pieces: &[Piece], offset: u16) -> usize
    ensures within { result ≤ length pieces.now }
    ensures to { Rise pieces.now → (k : ℕ) → k < result → start_of pieces.now k ≤ offset }
    ensures behind { Rise pieces.now → (k : ℕ) → result ≤ k → k < length pieces.now → offset < start_of pieces.now k }
{
    let mut low = 0;
    let mut high = pieces.len();
    while low < high {
        let middle = low + (high - low) / 2;
        if pieces[middle].start <= offset {
            low = middle + 1;
        } else {
            high = middle;
        }
    }
    low
}

/// The place of an offset.
pub(crate) fn place_at(pieces: &[Piece], offset: u16) -> u16
    ensures { Rise pieces.now → result ≡ place_in pieces.now offset }
{
    let count = count_to(pieces, offset);
    if count == 0 {
        NONE
    } else {
        pieces[count - 1].place
    }
}
