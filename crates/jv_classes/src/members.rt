//! The fields or the methods of a class.

ghost use Rattle.std.specs.Prelude.{◌≡◌, ◌<◌, ◌+◌, IfOk, OnOk, Some, cond, length, map, position, slice_get, get_or, set};
ghost use Rattle.std.specs.List.{All};
ghost use Rattle.std.specs.Option.{IsSomeAnd};
ghost use Rattle.jv_classes.specs.Inside.Seen.{kept_seen, kept_text, text_at, member_seen, declares, IsHashed, IsWithin};
ghost use Rattle.jv_classes.specs.Texts.{key_of};
ghost use Rattle.jv_classes.specs.Inside.Seen.{nothing_gathered, with_text, with_member};
ghost use Rattle.jv_classes.specs.Inside.Linked.{AreKept};
ghost use Rattle.jv_classes.specs.Marks.{slot_of};

use crate::member::Member;
use crate::text::{Text, seed_of, text_hash};
use std::alloc::{AllocError, Global};
use std::hash::RandomState;
use std::marker::Model;

/// As many members as a class file can declare of a kind (JVMS 4.1).
const MOST: usize = 65_535;

/// A text with its hash under the seed of all of them.
pub(crate) struct KeptText<'a> {
    bytes: &'a [u8],
    hash: u64,
}

impl Drop for KeptText<'_> {
    fn drop(self) {
        let KeptText { bytes: _, hash: _ } = self;
    }
}

/// A field or a method by the places of its texts. Members whose keys fall into one slot of the table are linked: each has the end
/// of those up to the last one before it, 0 where there is none.
pub(crate) struct KeptMember {
    access_flags: u16,
    name: u16,
    descriptor: u16,
    end_before: u16,
}

impl Drop for KeptMember {
    fn drop(self) {
        let KeptMember {
            access_flags: _,
            name: _,
            descriptor: _,
            end_before: _,
        } = self;
    }
}

/// The fields or the methods of a class in the order of its file, eight bytes each beside the texts, of which that of a constant is
/// kept once, in 24 bytes, however many members have it. A look-up hashes no text that knows its hash, and goes from a slot of the
/// table through the members whose keys fall into it, fewer than one on average; texts are compared with those of a member with the
/// same key alone. For each slot the table has the end of the members up to the last one in it. What falls where is up to hashes
/// that a stranger cannot know.
pub(crate) struct Members<'a> {
    seed: u64,
    texts: Vec<KeptText<'a>>,
    members: Vec<KeptMember>,
    ends: Vec<u16>,
}

impl<'a> Model for Members<'a> {
    ghost use Rattle.std.specs.Prelude.{List, map};
    ghost use Rattle.jv_classes.specs.Inside.Seen.{MemberSeen, kept_seen, kept_text};
    ghost use Rattle.jv_classes.specs.Inside.Linked.{AreKept};

    ghost Value = { List MemberSeen };

    ghost view = { λ m. map (kept_seen (map kept_text m.texts.items)) m.members.items };

    ghost invariant = { λ m. AreKept m.seed m.texts.items m.members.items m.ends.items };
}

impl Drop for Members<'_> {
    fn drop(self) {
        let Members {
            seed: _,
            texts: _,
            members: _,
            ends: _,
        } = self;
    }
}

/// The fields or the methods of a class while they are gathered: texts first, and members by the places of theirs.
pub(crate) struct Gathered<'a> {
    seed: u64,
    texts: Vec<KeptText<'a>>,
    members: Vec<KeptMember>,
    ends: Vec<u16>,
}

impl<'a> Model for Gathered<'a> {
    ghost use Rattle.std.specs.Prelude.{List, map};
    ghost use Rattle.jv_classes.specs.Inside.Seen.{GatheredSeen, gathered_seen};
    ghost use Rattle.jv_classes.specs.Inside.Linked.{AreKept};

    ghost Value = { GatheredSeen };

    ghost view = { λ g. gathered_seen g.texts.items g.members.items };

    ghost invariant = { λ g. AreKept g.seed g.texts.items g.members.items g.ends.items };
}

impl Drop for Gathered<'_> {
    fn drop(self) {
        let Gathered {
            seed: _,
            texts: _,
            members: _,
            ends: _,
        } = self;
    }
}

/// The key under which a member is found, by the hashes of its name and of its descriptor under a seed. Members of other texts that
/// have the same are as rare as texts of one hash: what is in a name is not in a descriptor.
pub fn member_key(seed: u64, name: &Text<'_>, descriptor: &Text<'_>) -> u64
    ensures { result ≡ key_of seed name.now descriptor.now }
{
    name.hash_under(seed)
        .wrapping_add(descriptor.hash_under(seed))
}

/// How many slots a table for so many members has, a power of two: one to two for each.
fn slots_for(count: usize) -> usize
    ensures { 0 < result }
{
    count.clamp(1, MOST).next_power_of_two()
}

/// The slot into which a key falls.
#[inline]
pub(crate) fn slot_of(size: usize, key: u64) -> usize
    requires { 0 < size }
    ensures slot { result ≡ slot_of size key }
    ensures within { result < size }
{
    (key as usize) & (size - 1)
}

/// The end of so many members and one more.
fn end_behind(count: usize) -> Result<u16, AllocError>
    ensures { IfOk result (λ end. end ≡ count + 1) }
{
    if count < MOST {
        Ok((count + 1) as u16)
    } else {
        Err(AllocError)
    }
}

/// Puts an end into the slot of a key, and answers the one that was there.
fn put_end(ends: &mut Vec<u16>, key: u64, end: u16) -> u16
    requires { 0 < length ends.now.items }
    ensures before { result ≡ get_or ends.old.items (slot_of (length ends.old.items) key) 0 }
    ensures put { ends.new.items ≡ set ends.old.items (slot_of (length ends.old.items) key) end }
{
    let slot = slot_of(ends.len(), key);
    let before = ends[slot];
    ends[slot] = end;
    before
}

/// What is kept of a text.
fn kept<'a>(seed: u64, bytes: &'a [u8]) -> KeptText<'a>
    ensures seen { kept_text result ≡ bytes.now }
    ensures hashed { IsHashed seed result }
{
    KeptText {
        bytes,
        hash: text_hash(seed, bytes),
    }
}

/// The text at a place.
fn text_at<'a>(seed: u64, texts: &[KeptText<'a>], place: u16) -> Text<'a>
    requires hashed { All (IsHashed seed) texts.now }
    requires within { place < length texts.now }
    ensures { result ≡ text_at (map kept_text texts.now) place }
{
    let text = &texts[usize::from(place)];
    Text::known(seed, text.hash, text.bytes)
}

/// The key of a member by the places of its texts.
fn key_at(seed: u64, texts: &[KeptText<'_>], name: u16, descriptor: u16) -> u64
    requires hashed { All (IsHashed seed) texts.now }
    requires name { name < length texts.now }
    requires descriptor { descriptor < length texts.now }
    ensures { result ≡ key_of seed (text_at (map kept_text texts.now) name) (text_at (map kept_text texts.now) descriptor) }
{
    member_key(
        seed,
        &text_at(seed, texts, name),
        &text_at(seed, texts, descriptor),
    )
}

/// Whether a member has a name and a descriptor, of which a key is known.
fn declares(
    seed: u64,
    texts: &[KeptText<'_>],
    member: &KeptMember,
    key: u64,
    name: &Text<'_>,
    descriptor: &Text<'_>,
) -> bool
    requires hashed { All (IsHashed seed) texts.now }
    requires within { IsWithin (length texts.now) member.now }
    requires key { key ≡ key_of seed name.now descriptor.now }
    ensures { result ≡ declares name.now descriptor.now (kept_seen (map kept_text texts.now) member.now) }
{
    let own_name = text_at(seed, texts, member.name);
    let own_descriptor = text_at(seed, texts, member.descriptor);
    member_key(seed, &own_name, &own_descriptor) == key
        && own_name.bytes() == name.bytes()
        && own_descriptor.bytes() == descriptor.bytes()
}

/// A place where it passes, and else what was found before.
fn found_at(passes: bool, place: usize, found: Option<usize>) -> Option<usize>
    ensures { result ≡ cond passes (Some place) found }
{
    if passes { Some(place) } else { found }
}

/// The place of the first member with a name and a descriptor, by the table's ends.
fn first_of(
    seed: u64,
    texts: &[KeptText<'_>],
    members: &[KeptMember],
    ends: &[u16],
    name: &Text<'_>,
    descriptor: &Text<'_>,
) -> Option<usize>
    requires { AreKept seed texts.now members.now ends.now }
    ensures { result ≡ position (declares name.now descriptor.now) (map (kept_seen (map kept_text texts.now)) members.now) }
{
    let key = member_key(seed, name, descriptor);
    let slot = slot_of(ends.len(), key);
    let mut end = usize::from(ends[slot]);
    let mut found = None;
    while end > 0 {
        let member = &members[end - 1];
        let passes = declares(seed, texts, member, key, name, descriptor);
        found = found_at(passes, end - 1, found);
        end = usize::from(member.end_before);
    }
    found
}

impl<'a> Gathered<'a> {
    /// Nothing yet, with room for so many members; texts are hashed with the state.
    pub(crate) fn with_capacity(
        alloc: Global,
        state: RandomState,
        count: usize,
    ) -> Result<Gathered<'a>, AllocError>
        ensures { IfOk result (λ g. g ≡ nothing_gathered) }
    {
        let seed = seed_of(state);
        let texts = Vec::new(alloc);
        let members = Vec::with_capacity(alloc, count)?;
        let ends = vec![in alloc; 0u16; slots_for(count)]?;
        Ok(Gathered {
            seed,
            texts,
            members,
            ends,
        })
    }

    /// Adds a text behind the others, and answers its place. There is no memory for more of them than a class file can have.
    pub(crate) fn add_text(&mut self, text: &'a [u8]) -> Result<u16, AllocError>
        ensures place { IfOk result (λ place. place ≡ length self.old.texts) }
        ensures added { OnOk result (self.new ≡ with_text self.old text.now) }
    {
        let end = end_behind(self.texts.len())?;
        self.texts.push(kept(self.seed, text))?;
        Ok(end - 1)
    }

    /// Adds a member behind the others, by the places of its texts. There is no memory for more of them than a class file can
    /// declare.
    pub(crate) fn add(
        &mut self,
        access_flags: u16,
        name: u16,
        descriptor: u16,
    ) -> Result<(), AllocError>
        requires name { name < length self.now.texts }
        requires descriptor { descriptor < length self.now.texts }
        ensures { OnOk result (self.new ≡ with_member self.old access_flags name descriptor) }
    {
        let key = key_at(self.seed, &self.texts, name, descriptor);
        let end = end_behind(self.members.len())?;
        self.members.reserve(1)?;
        let end_before = put_end(&mut self.ends, key, end);
        self.members.push_reserved(KeptMember {
            access_flags,
            name,
            descriptor,
            end_before,
        });
        Ok(())
    }

    /// The members, once all of them are gathered, with no more room for texts than there are.
    pub(crate) fn members(self) -> Members<'a>
        ensures { result ≡ self.entry.members }
    {
        let Gathered {
            seed,
            mut texts,
            members,
            ends,
        } = self;
        texts.shrink_to_fit();
        Members {
            seed,
            texts,
            members,
            ends,
        }
    }
}

impl<'a> Members<'a> {
    /// The seed under which texts are hashed.
    pub(crate) fn seed(&self) -> u64 {
        self.seed
    }

    /// How many members there are.
    pub(crate) fn count(&self) -> usize
        ensures { result ≡ length self.now }
    {
        self.members.len()
    }

    /// The member at a place.
    pub(crate) fn at(&self, place: usize) -> Member<'a>
        requires { place < length self.now }
        ensures { slice_get self.now place ≡ Some (member_seen result) }
    {
        let member = &self.members[place];
        let name = text_at(self.seed, &self.texts, member.name);
        let descriptor = text_at(self.seed, &self.texts, member.descriptor);
        Member {
            access_flags: member.access_flags,
            name: name.bytes(),
            descriptor: descriptor.bytes(),
        }
    }

    /// The name of the member at a place.
    pub(crate) fn name_at(&self, place: usize) -> Text<'a>
        requires { place < length self.now }
        ensures { IsSomeAnd (slice_get self.now place) (λ m. m.name ≡ result) }
    {
        let member = &self.members[place];
        text_at(self.seed, &self.texts, member.name)
    }

    /// The descriptor of the member at a place.
    pub(crate) fn descriptor_at(&self, place: usize) -> Text<'a>
        requires { place < length self.now }
        ensures { IsSomeAnd (slice_get self.now place) (λ m. m.descriptor ≡ result) }
    {
        let member = &self.members[place];
        text_at(self.seed, &self.texts, member.descriptor)
    }

    /// The place of the first member with a name and a descriptor.
    pub(crate) fn place_of(&self, name: &Text<'_>, descriptor: &Text<'_>) -> Option<usize>
        ensures { result ≡ position (declares name.now descriptor.now) self.now }
    {
        first_of(
            self.seed,
            &self.texts,
            &self.members,
            &self.ends,
            name,
            descriptor,
        )
    }
}
