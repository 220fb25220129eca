//! The texts of String constants, by number.

ghost use Rattle.std.specs.Prelude.{◌≡◌, ◌<◌, ◌≤◌, List, ℕ, IsSome, Some, OnOk, IfOk, IfSome, length, slice_get};
ghost use Rattle.std.specs.List.{All};
ghost use Rattle.jv_pool.specs.Constants.{Entry, pool_count, utf8_at, string_at};
ghost use Rattle.jv_meaning_world.specs.World.{World, Loaded};
ghost use Rattle.jv_interp_objects.specs.Inside.Numbering.{Numbers, IsKnown, IsNumberAt, AreBefore};
ghost use Rattle.jv_interp_objects.specs.Texts.{HasText, AreShort, AreDifferent, AreCounts, AreTextsOf, AreTexts};
ghost use Rattle.jv_interp_objects.specs.Units.{HasUnits};

use crate::units::count_units;
use jv_classes::Names;
use jv_link::class_at;
use jv_loader::{ClassTable, Classes, LoadedClass};
use jv_pool::{Constant, Pool, Utf8Index};
use std::alloc::{AllocError, Global};
use std::hash::RandomState;

/// The number of the text of each String constant of a class, by the constant's index.
#[derive(Drop)]
pub struct ClassTexts {
    pub numbers: Vec<u32>,
}

/// The texts that a guest's String constants name, each once, with how many units each has, and those of each class by number.
#[derive(Drop)]
pub struct Texts<'a> {
    pub names: Names<'a>,
    pub counts: Vec<u32>,
    pub classes: Vec<ClassTexts>,
}

/// The number of a text, which joins the others where it isn't among them.
fn number_of<'a>(names: &mut Names<'a>, text: &'a [u8]) -> Result<u32, AllocError>
    ensures numbers { OnOk result (Numbers names.old names.new) }
    ensures text { IfOk result (HasText names.new text.now) }
{
    if text.len() >= 2_147_483_648 {
        return Err(AllocError);
    }
    names.add(text)?;
    match names.place_of(text) {
        Some(place) if place <= 4_294_967_295 => Ok(place as u32),
        _ => Err(AllocError),
    }
}

/// The number of the text at an index, where it is known.
fn known(entries: &[Option<(u16, u32)>], text: u16) -> Option<u32>
    ensures { (texts : List (List ℕ)) (pool : List Entry) → All (IsKnown texts pool) entries.now
        → IfSome result (λ number. IsKnown texts pool (Some (text, number))) }
{
    let at = usize::from(text);
    if at < entries.len()
        && let Some(entry) = entries[at]
        && entry.0 == text
    {
        return Some(entry.1);
    }
    None
}

/// Keeps the number of the text at an index.
fn keep(entries: &mut [Option<(u16, u32)>], text: u16, number: u32)
    ensures known { (texts : List (List ℕ)) (pool : List Entry) → All (IsKnown texts pool) entries.old
        → IsKnown texts pool (Some (text, number)) → All (IsKnown texts pool) entries.new }
    ensures count { length entries.new ≡ length entries.old }
{
    let at = usize::from(text);
    if at < entries.len() {
        entries[at] = Some((text, number));
    }
}

/// The number of the text at an index of a pool, which is looked for once.
fn number_at<'a>(
    names: &mut Names<'a>,
    entries: &mut [Option<(u16, u32)>],
    pool: &Pool<'a>,
    text: Utf8Index,
) -> Result<u32, AllocError>
    requires text { IsSome (utf8_at pool.now text.0) }
    requires known { All (IsKnown names.old pool.now) entries.old }
    ensures numbers { OnOk result (Numbers names.old names.new) }
    ensures number { IfOk result (λ number. IsKnown names.new pool.now (Some (text.0, number))) }
    ensures known { OnOk result (All (IsKnown names.new pool.now) entries.new) }
    ensures count { length entries.new ≡ length entries.old }
{
    if let Some(number) = known(entries, text.0) {
        return Ok(number);
    }
    let number = number_of(names, pool.utf8(text))?;
    keep(entries, text.0, number);
    Ok(number)
}

/// The number of the text of the String constant at an index, and any where there is none.
fn number_of_string<'a>(
    names: &mut Names<'a>,
    entries: &mut [Option<(u16, u32)>],
    pool: &Pool<'a>,
    index: u16,
) -> Result<u32, AllocError>
    requires known { All (IsKnown names.old pool.now) entries.old }
    ensures numbers { OnOk result (Numbers names.old names.new) }
    ensures number { IfOk result (IsNumberAt names.new pool.now index) }
    ensures known { OnOk result (All (IsKnown names.new pool.now) entries.new) }
    ensures count { length entries.new ≡ length entries.old }
{
    if let Some(Constant::String(text)) = pool.constant(index)
        && let Some(text) = pool.utf8_index(text)
    {
        return number_at(names, entries, pool, text);
    }
    Ok(0)
}

/// As many entries, of which none is known.
fn unknown(alloc: Global, count: u16) -> Result<Vec<Option<(u16, u32)>>, AllocError>
    ensures { IfOk result (λ entries. (texts : List (List ℕ)) (pool : List Entry) → All (IsKnown texts pool) entries.items) }
{
    let mut entries = Vec::with_capacity(alloc, usize::from(count))?;
    for _ in 0..count {
        entries.push(None)?;
    }
    Ok(entries)
}

/// The numbers of the texts of a pool's String constants.
fn numbers_in<'a>(
    alloc: Global,
    names: &mut Names<'a>,
    pool: &Pool<'a>,
) -> Result<Vec<u32>, AllocError>
    ensures numbers { OnOk result (Numbers names.old names.new) }
    ensures before { IfOk result (λ numbers. AreBefore names.new pool.now numbers.items) }
    ensures count { IfOk result (λ numbers. length numbers.items ≡ pool_count pool.now) }
{
    let count = pool.count();
    let mut entries = unknown(alloc, count)?;
    let mut numbers = Vec::with_capacity(alloc, usize::from(count))?;
    for index in 0..count {
        numbers.push(number_of_string(names, &mut entries, pool, index)?)?;
    }
    Ok(numbers)
}

/// The numbers of the texts of a class's String constants.
fn texts_of<'a>(
    alloc: Global,
    names: &mut Names<'a>,
    class: &LoadedClass<'a>,
) -> Result<ClassTexts, AllocError>
    ensures numbers { OnOk result (Numbers names.old names.new) }
    ensures texts { IfOk result (AreTextsOf names.new class.now) }
{
    match class.file() {
        Some(file) => {
            let numbers = numbers_in(alloc, names, file.pool())?;
            Ok(ClassTexts { numbers })
        }
        None => Ok(ClassTexts {
            numbers: Vec::new(alloc),
        }),
    }
}

/// How many units the text with a number has.
fn count_of(names: &Names<'_>, number: usize) -> u32
    requires there { number < length names.now }
    requires short { AreShort names.now }
    ensures { (text : List ℕ) → HasText names.now text number → HasUnits text result }
{
    count_units(names.name(number)) as u32
}

/// How many units each text has.
fn counts_of(alloc: Global, names: &Names<'_>) -> Result<Vec<u32>, AllocError>
    requires { AreShort names.now }
    ensures { IfOk result (λ counts. AreCounts names.now counts.items) }
{
    let mut counts = Vec::with_capacity(alloc, names.count())?;
    for number in 0..names.count() {
        counts.push(count_of(names, number))?;
    }
    Ok(counts)
}

/// The texts of all classes.
fn all_texts<'a>(
    alloc: Global,
    state: RandomState,
    table: &ClassTable<'a>,
) -> Result<Texts<'a>, AllocError>
    ensures { IfOk result (AreTexts table.now) }
{
    let mut names = Names::new(alloc, state);
    let mut classes = Vec::with_capacity(alloc, table.count())?;
    for class in 0..table.count() {
        classes.push(texts_of(alloc, &mut names, class_at(table, class))?)?;
    }
    let counts = counts_of(alloc, &names)?;
    Ok(Texts {
        names,
        counts,
        classes,
    })
}

impl<'a> Texts<'a> {
    /// Those of a guest's classes; they are hashed with the state.
    ///
    /// # Errors
    ///
    /// Where the host had no memory for them, or a text has 2^31 bytes or more (own).
    pub fn of(
        alloc: Global,
        state: RandomState,
        classes: &Classes<'a>,
    ) -> Result<Texts<'a>, AllocError>
        ensures { IfOk result (AreTexts classes.now.world) }
    {
        all_texts(alloc, state, classes.table())
    }

    /// The number of the text of the String constant at an index of a class.
    pub fn number(&self, class: usize, index: u16) -> u32
        ensures { (world : World) (l : Loaded) (text : List ℕ) → AreTexts world self.now → slice_get world class ≡ Some l
            → string_at l.class.constant_pool index ≡ Some text → HasText self.now.names text result }
    {
        if class < self.classes.len() {
            let numbers = &self.classes[class].numbers;
            let index = usize::from(index);
            if index < numbers.len() {
                return numbers[index];
            }
        }
        0
    }

    /// How many units the text with a number has.
    pub fn count(&self, number: u32) -> u32
        ensures { (world : World) (text : List ℕ) → AreTexts world self.now → HasText self.now.names text number → HasUnits text result }
    {
        let place = number as usize;
        if place < self.counts.len() {
            self.counts[place]
        } else {
            0
        }
    }
}
