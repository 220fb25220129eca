//! Instructions that call methods other than `<init>` (JVMS 4.10.1.8, 4.10.1.9).

ghost use Rattle.std.specs.Prelude.{◌≡◌, ◌+◌, ◌==◌, ◌&&◌, ℕ, List, not};
ghost use Rattle.jv_stackmap.specs.Types.{words};
ghost use Rattle.jv_meaning_typing.specs.MemberRules.{invoke_virtual, invoke_static, invoke_interface, invoke_super};
ghost use Rattle.jv_verify_types.specs.Typed.{typed_all};
ghost use Rattle.jv_verify_types.specs.Outcomes.{outcome_of, Applies};
ghost use Rattle.jv_verify_rules.specs.Operands.{FollowsMethod, FollowsNear, counts_words, calls_guarded};

use crate::receivers::take_receiver;
use crate::stack::{exchange_arguments, take_arguments};
use jv_stackmap::VerificationTypeOf;
use jv_verify_frame::TypeFrame;
use jv_verify_types::{Argument, Item, Outcome, TypeNames, words_of};

/// A method as an instruction names it: the class that is named, the types of the arguments, the first first, and of the
/// result, if it has one.
#[derive(Clone, Copy)]
pub struct MethodOperand<'m> {
    /// Whether it is named as a method of a class, and not of an interface (JVMS 4.4.2).
    pub of_class: bool,
    /// Whether its name is neither `<init>` nor `<clinit>`.
    pub plain_name: bool,
    pub owner: Item,
    /// The current class, to which the object has to flow too, if the method is guarded (JVMS 4.10.1.8).
    pub guard: Option<Item>,
    pub arguments: &'m [Argument],
    pub result: Option<Item>,
}

fn outcome_of(item: Option<Item>) -> Outcome
    ensures { result ≡ outcome_of item }
{
    match item {
        None => Outcome::Leaves,
        Some(item) => Outcome::Gives(item),
    }
}

/// Takes the arguments and below them an object that flows to a class, and gives the result.
fn call_on(
    types: &TypeNames<'_, '_>,
    frame: &mut TypeFrame,
    method: MethodOperand<'_>,
    receiver: Item,
    guard: Option<Item>,
) -> Outcome
    ensures { Applies types.now.names (calls_guarded types.now method.entry receiver guard) frame.old frame.new result }
{
    if take_arguments(types, frame, method.arguments)
        && take_receiver(types, frame, receiver, guard)
    {
        outcome_of(method.result)
    } else {
        Outcome::Fails
    }
}

/// Calls a method of a class, chosen by the object.
pub fn invoke_virtual(
    types: &TypeNames<'_, '_>,
    frame: &mut TypeFrame,
    method: MethodOperand<'_>,
) -> Outcome
    ensures { FollowsMethod types.now method.entry (λ env named. invoke_virtual env named) frame.old frame.new result }
{
    if method.of_class && method.plain_name {
        call_on(types, frame, method, method.owner, method.guard)
    } else {
        Outcome::Fails
    }
}

/// Calls a static method.
pub fn invoke_static(
    types: &TypeNames<'_, '_>,
    frame: &mut TypeFrame,
    method: MethodOperand<'_>,
) -> Outcome
    ensures { FollowsMethod types.now method.entry (λ env named. invoke_static env named) frame.old frame.new result }
{
    if method.plain_name {
        exchange_arguments(types, frame, method.arguments, method.result)
    } else {
        Outcome::Fails
    }
}

/// Whether a number is that of the arguments' words and of the receiver's.
fn counts_arguments(arguments: &[Argument], count: u8) -> bool
    ensures { (names : List (List ℕ)) → result ≡ (count == words (typed_all names arguments.now) + 1) }
{
    let mut left = arguments;
    let mut rest = u16::from(count);
    while let Some((argument, more)) = left.split_first() {
        let width = words_of(argument.item());
        if rest < width {
            return false;
        }
        rest -= width;
        left = more;
    }
    rest == 1
}

/// Whether a method is named as one of an interface that can be called by its name.
fn is_of_interface(method: MethodOperand<'_>) -> bool
    ensures { result ≡ (not method.entry.of_class && method.entry.plain_name) }
{
    !method.of_class && method.plain_name
}

/// Whether it is called as one of an interface, with such a number behind the index.
fn is_interface_call(method: MethodOperand<'_>, count: u8) -> bool
    ensures { (names : List (List ℕ)) → result ≡ counts_words names method.entry count }
{
    is_of_interface(method) && counts_arguments(method.arguments, count)
}

/// Calls a method of an interface, where the number behind the index counts its arguments' words and the receiver's.
pub fn invoke_interface(
    types: &TypeNames<'_, '_>,
    frame: &mut TypeFrame,
    method: MethodOperand<'_>,
    count: u8,
) -> Outcome
    ensures { FollowsMethod types.now method.entry (λ env named. invoke_interface env count named) frame.old frame.new result }
{
    if is_interface_call(method, count) {
        call_on(types, frame, method, method.owner, None)
    } else {
        Outcome::Fails
    }
}

/// Calls a method of the current class or of one above it, of an interface only where that is near: the current class
/// itself or among its direct superinterfaces.
pub fn invoke_super(
    types: &TypeNames<'_, '_>,
    frame: &mut TypeFrame,
    method: MethodOperand<'_>,
    current: Item,
    near: bool,
) -> Outcome
    ensures { FollowsNear types.now method.entry current near frame.old frame.new result }
{
    if method.plain_name && types.flows(current, method.owner) && near {
        call_on(types, frame, method, current, None)
    } else {
        Outcome::Fails
    }
}
