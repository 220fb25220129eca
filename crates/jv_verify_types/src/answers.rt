//! Where classes declare members whose texts are long, kept while the constants of a class file are gone through: a class is looked into
//! once for two such texts.

ghost use Rattle.std.specs.Prelude.{◌≡◌, ℕ, List, true, IfSome, OnOk, Some};
ghost use Rattle.jv_pool.specs.Constants.{Entry, utf8_at};
ghost use Rattle.jv_pool.specs.Seen.{seen_member};
ghost use Rattle.jv_meaning_world.specs.World.{World};
ghost use Rattle.jv_verify_types.specs.Inside.Answered.{AreTextsOf, IsAnswer, IsEntry, AreEntries, AreAnswers};

use crate::indices::MemberIndices;
use jv_pool::{MemberName, Pool};
use std::alloc::{AllocError, Global};

/// A name or a descriptor of more bytes is long.
const LONG: usize = 256;

/// Which member is asked for: a method or a field that the class with a number declares, and the indices of the Utf8 constants that are its
/// name and its descriptor.
#[derive(Clone, Copy)]
pub(crate) struct Question {
    pub(crate) of_method: bool,
    pub(crate) class: u16,
    pub(crate) name: u16,
    pub(crate) descriptor: u16,
}

/// The class declares it, at this place among its methods or its fields. Ten bytes.
#[derive(Clone, Copy)]
pub(crate) struct Answer {
    pub(crate) question: Question,
    pub(crate) place: u16,
}

/// What is kept while the constants of a class file are gone through: answers about members, each at the place of its question, and for
/// each class, by its number, whether it is in the run-time package of the current one (JVMS 5.3).
pub(crate) struct Answers {
    pub(crate) members: Vec<Option<Answer>>,
    pub(crate) packages: Vec<Option<bool>>,
}

impl Drop for Answers {
    fn drop(self) {
        let Answers {
            members: _,
            packages: _,
        } = self;
    }
}

/// Nothing yet.
pub(crate) fn no_answers(alloc: Global) -> Answers
    ensures { (world : World) (current : ℕ) (pool : List Entry) → AreAnswers world current pool result }
{
    Answers {
        members: Vec::new(alloc),
        packages: Vec::new(alloc),
    }
}

/// Whether two questions are one.
fn same_question(one: Question, other: Question) -> bool
    ensures { result ≡ true → one ≡ other }
{
    one.of_method == other.of_method
        && one.class == other.class
        && one.name == other.name
        && one.descriptor == other.descriptor
}

/// Whether a text of a member is so long that answers are kept.
fn is_long(member: &MemberName<'_>) -> bool {
    member.name.len() > LONG || member.descriptor.len() > LONG
}

/// The least index of a Utf8 constant with the text of the one at an index.
fn first_alike(pool: &Pool<'_>, index: u16) -> u16
    ensures { utf8_at pool.now result ≡ utf8_at pool.now index }
{
    match pool.utf8_index(index) {
        Some(text) => pool.first_alike(text),
        None => index,
    }
}

/// The indices of a member's texts, where these are long: of constants with one text the first, so that copies of a text ask nothing new.
pub(crate) fn long_texts(
    pool: &Pool<'_>,
    indices: Option<MemberIndices>,
    member: &MemberName<'_>,
) -> Option<MemberIndices>
    ensures { IfSome indices (λ i. AreTextsOf pool.now i.name i.descriptor (seen_member member.now))
        → IfSome result (λ i. AreTextsOf pool.now i.name i.descriptor (seen_member member.now)) }
{
    if !is_long(member) {
        return None;
    }
    match indices {
        Some(indices) => Some(MemberIndices {
            class: indices.class,
            name: first_alike(pool, indices.name),
            descriptor: first_alike(pool, indices.descriptor),
        }),
        None => None,
    }
}

/// A number in 16 bits, where it has room there.
pub(crate) fn in_16_bits(number: usize) -> Option<u16>
    ensures { IfSome result (λ n. n ≡ number) }
{
    match u16::try_from(number) {
        Ok(short) => Some(short),
        Err(_) => None,
    }
}

/// The place of a question's answer among so many, which a stranger cannot foretell: the highest bits of its product with an odd number.
pub(crate) fn place_of(seed: u64, places: u16, question: Question) -> usize {
    let texts = (u64::from(question.name) << 16) | u64::from(question.descriptor);
    let class = (u64::from(question.class) << 1) | u64::from(question.of_method);
    let product = (texts ^ class.rotate_left(32)).wrapping_mul(seed | 1);
    ((product >> 32).wrapping_mul(u64::from(places)) >> 32) as usize
}

/// The answer to a question, where it is kept.
pub(crate) fn known(entries: &[Option<Answer>], at: usize, question: Question) -> Option<usize>
    ensures { (world : World) (pool : List Entry) → AreEntries world pool entries.now
        → IfSome result (IsAnswer world pool question) }
{
    if at < entries.len()
        && let Some(entry) = &entries[at]
        && same_question(entry.question, question)
    {
        return Some(usize::from(entry.place));
    }
    None
}

/// Room for so many answers, where there is none yet.
fn make_room(entries: &mut Vec<Option<Answer>>, places: u16) -> Result<(), AllocError>
    ensures { (world : World) (pool : List Entry) → AreEntries world pool entries.old.items
        → OnOk result (AreEntries world pool entries.new.items) }
{
    if entries.is_empty() {
        entries.reserve(usize::from(places))?;
        for _ in 0..places {
            entries.push(None)?;
        }
    }
    Ok(())
}

/// Keeps an answer, and forgets the one that stood at its place. The first one takes the memory for all: a place for each constant of the
/// class file, since each asks for one member, and what a file takes is then in proportion to its bytes.
pub(crate) fn keep(
    entries: &mut Vec<Option<Answer>>,
    places: u16,
    at: usize,
    answer: Answer,
) -> Result<(), AllocError>
    ensures { (world : World) (pool : List Entry) → AreEntries world pool entries.old.items
        → IsEntry world pool (Some answer) → OnOk result (AreEntries world pool entries.new.items) }
{
    make_room(entries, places)?;
    if at < entries.len() {
        entries[at] = Some(answer);
    }
    Ok(())
}
