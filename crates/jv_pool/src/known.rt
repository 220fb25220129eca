//! The table of constants, with what is known of each text.

ghost use Rattle.std.specs.Prelude.{◌≡◌, ◌<◌, length, IfOk, IfErr, IsTrue};
ghost use Rattle.std.specs.Option.{option_map};
ghost use Rattle.jv_pool.specs.declared.fault.PoolFault.TheVariants.{OutOfMemory};
ghost use Rattle.jv_pool.specs.Constants.{utf8_at};
ghost use Rattle.jv_pool.specs.Seen.{seen_text};
ghost use Rattle.jv_pool.specs.Inside.Alike.{IsInOrder};
ghost use Rattle.jv_pool.specs.Inside.Known.{IsKnown, AllKnown, IsAdded, IsNewText, AreTexts, known_in, place_alike};

use crate::facts::TextFacts;
use crate::fault::PoolFault;
use crate::table::Table;
use crate::texts::facts_of;
use std::alloc::Global;
use std::marker::Model;

/// A table of constants, which may break their rules, with what is known of its texts: facts for each text once, however many Utf8
/// constants have it, and for each index where its facts stand, one more than the number of those before, or 0; and whether all of them
/// are known to be texts (4.4.7).
#[derive(Drop)]
pub struct Known<'a> {
    table: Table<'a>,
    facts: Vec<TextFacts>,
    places: Vec<u16>,
    are_texts: bool,
}

impl<'a> Model for Known<'a> {
    ghost use Rattle.std.specs.Prelude.{List, IsTrue};
    ghost use Rattle.jv_pool.specs.Constants.{Entry};
    ghost use Rattle.jv_pool.specs.Inside.Known.{AllKnown, AreTexts};

    ghost Value = { List Entry };

    ghost view = { λ k. k.table };

    ghost invariant = { λ k. AllKnown k.table k.facts.items k.places.items × (IsTrue k.are_texts → AreTexts k.table) };
}

/// The place of the facts of the first text alike, where that stands at a lower index, which has its place already.
fn place_alike(alike: &[u16], places: &[u16], index: u16) -> Option<u16>
    ensures { result ≡ place_alike alike.now places.now index }
{
    match alike.get(usize::from(index)) {
        Some(first) => places.get(usize::from(*first)).copied(),
        None => None,
    }
}

/// The place of the facts of a text: the one that facts of the same text have, or else one behind all others, where its own are put;
/// 0 where there is no text. Beside it, whether those before are texts (4.4.7), and one that joined is.
fn add_facts(
    facts: &mut Vec<TextFacts>,
    are_texts: bool,
    text: Option<&[u8]>,
    before: Option<u16>,
) -> Result<(u16, bool), PoolFault>
    requires { length facts.now.items < 65535 }
    ensures ok { IfOk result (λ x. IsAdded (option_map seen_text text.entry) before facts.old.items facts.new.items x.0) }
    ensures texts { IfOk result (λ x. IsTrue x.1 → IsTrue are_texts × IsNewText (option_map seen_text text.entry) before) }
    ensures err { IfErr result (λ e. e ≡ OutOfMemory) }
{
    let Some(text) = text else {
        return Ok((0, are_texts));
    };
    if let Some(place) = before {
        return Ok((place, are_texts));
    }
    let count = facts.len();
    let (own, is_text) = facts_of(text);
    facts.push(own)?;
    Ok((count as u16 + 1, are_texts && is_text))
}

/// What is known of the text at each index, and where it stands, by the least index of the text at each, and whether all are known to be
/// texts. Each text is examined once.
fn all_known(
    alloc: Global,
    table: &Table<'_>,
    alike: &[u16],
) -> Result<(Vec<TextFacts>, Vec<u16>, bool), PoolFault>
    requires { IsInOrder table.now alike.now }
    ensures ok { IfOk result (λ x. AllKnown table.now x.0.items x.1.items) }
    ensures texts { IfOk result (λ x. IsTrue x.2 → AreTexts table.now) }
    ensures err { IfErr result (λ e. e ≡ OutOfMemory) }
{
    let mut facts = Vec::new(alloc);
    let mut places = Vec::with_capacity(alloc, usize::from(table.count()))?;
    let mut are_texts = true;
    for index in 0..table.count() {
        let before = place_alike(alike, &places, index);
        let (place, more) = add_facts(&mut facts, are_texts, table.utf8(index), before)?;
        places.push(place)?;
        are_texts = more;
    }
    facts.shrink_to_fit();
    Ok((facts, places, are_texts))
}

/// The facts at a place.
fn known_in(facts: &[TextFacts], place: u16) -> Option<TextFacts>
    ensures { result ≡ known_in facts.now place }
{
    if place == 0 {
        return None;
    }
    match facts.get(usize::from(place) - 1) {
        Some(facts) => Some(*facts),
        None => None,
    }
}

impl<'a> Known<'a> {
    /// The table, with what is known of its texts, by the least index of the text at each index.
    pub fn new(alloc: Global, table: Table<'a>, alike: &[u16]) -> Result<Known<'a>, PoolFault>
        requires { IsInOrder table alike.now }
        ensures ok { IfOk result (λ known. known ≡ table.entry) }
        ensures err { IfErr result (λ e. e ≡ OutOfMemory) }
    {
        match all_known(alloc, &table, alike) {
            Ok((facts, places, are_texts)) => Ok(Known {
                table,
                facts,
                places,
                are_texts,
            }),
            Err(fault) => Err(fault),
        }
    }

    /// The table.
    pub fn table(&self) -> &Table<'a>
        ensures { result.now ≡ self.now }
    {
        &self.table
    }

    /// Whether all texts are known to be modified UTF-8 (4.4.7).
    pub(crate) fn are_texts(&self) -> bool
        ensures { IsTrue result → AreTexts self.now }
    {
        self.are_texts
    }

    /// What is known of the text of the Utf8 constant at an index.
    pub(crate) fn facts(&self, index: u16) -> Option<TextFacts>
        ensures { IsKnown (utf8_at self.now index) result }
    {
        match self.places.get(usize::from(index)) {
            Some(place) => known_in(&self.facts, *place),
            None => None,
        }
    }
}
