//! Instructions on local variables (JVMS 4.10.1.9): iload to aload, istore to astore, iinc.

ghost use Rattle.std.specs.Prelude.{◌≡◌, ℕ, List, length, None, Some};
ghost use Rattle.jv_stackmap.specs.Types.{FrameType};
ghost use Rattle.jv_meaning_typing.specs.FrameChanges.{is_reference, is_of_kind, taken_of_kind};
ghost use Rattle.jv_meaning_typing.specs.ValueRules.{has_room, load, store, increment};
ghost use Rattle.jv_verify_types.specs.Typed.{typed, typed_all};
ghost use Rattle.jv_verify_types.specs.Numbered.{frame_of};
ghost use Rattle.jv_verify_types.specs.Outcomes.{IsOutcome};
ghost use Rattle.jv_verify_rules.specs.Inside.Popping.{IsPopped};

use jv_code::ValueKind;
use jv_stackmap::VerificationTypeOf;
use jv_verify_frame::TypeFrame;
use jv_verify_types::{Item, Outcome};

/// Whether a type is an object's, an array's or null's, also one that is not initialized (JVMS 4.10.1.2).
pub fn is_reference(item: Item) -> bool
    ensures { (names : List (List ℕ)) → result ≡ is_reference (typed names item) }
{
    match item {
        VerificationTypeOf::Top => false,
        VerificationTypeOf::Int => false,
        VerificationTypeOf::Long => false,
        VerificationTypeOf::Null => true,
        VerificationTypeOf::UninitializedThis => true,
        VerificationTypeOf::Class(_) => true,
        VerificationTypeOf::Array(_) => true,
        VerificationTypeOf::Uninitialized(_) => true,
    }
}

/// Whether a type is one of a kind.
pub fn is_of_kind(kind: ValueKind, item: Item) -> bool
    ensures { (names : List (List ℕ)) → result ≡ is_of_kind kind (typed names item) }
{
    match kind {
        ValueKind::Int => matches!(item, VerificationTypeOf::Int),
        ValueKind::Long => matches!(item, VerificationTypeOf::Long),
        ValueKind::Reference => is_reference(item),
    }
}

/// Takes an item of a kind; `None` where none is on top.
pub fn pop_of_kind(frame: &mut TypeFrame, kind: ValueKind) -> Option<Item>
    ensures { (names : List (List ℕ)) → IsPopped names (taken_of_kind kind (typed_all names frame.old.stack)) frame.old frame.new result }
{
    let item = frame.pop()?;
    if is_of_kind(kind, item) {
        Some(item)
    } else {
        None
    }
}

/// Whether a local variable that holds a value of a kind has its second word, if that is a long.
fn has_room(kind: ValueKind, index: u16, count: usize) -> bool
    ensures { (locals : List FrameType) → length locals ≡ count → result ≡ has_room kind index locals }
{
    match kind {
        ValueKind::Long => usize::from(index) + 1 < count,
        _ => true,
    }
}

/// Loads a local variable of a kind.
pub fn load(frame: &TypeFrame, kind: ValueKind, index: u16) -> Outcome
    ensures { (names : List (List ℕ)) → IsOutcome names (load kind index (frame_of names frame.now)) frame.now result }
{
    match frame.local(index) {
        Some(item) if is_of_kind(kind, item) && has_room(kind, index, frame.local_count()) => {
            Outcome::Gives(item)
        }
        _ => Outcome::Fails,
    }
}

/// Stores the item on top, of a kind, in a local variable.
pub fn store(frame: &mut TypeFrame, kind: ValueKind, index: u16) -> Outcome
    ensures { (names : List (List ℕ)) → IsOutcome names (store kind index (frame_of names frame.old)) frame.new result }
{
    match pop_of_kind(frame, kind) {
        Some(item) if frame.store(index, item) => Outcome::Leaves,
        _ => Outcome::Fails,
    }
}

/// Adds to a local variable that is an int.
pub fn increment(frame: &TypeFrame, index: u16) -> Outcome
    ensures { (names : List (List ℕ)) → IsOutcome names (increment index (frame_of names frame.now)) frame.now result }
{
    match frame.local(index) {
        Some(VerificationTypeOf::Int) => Outcome::Leaves,
        _ => Outcome::Fails,
    }
}
