//! The local entries with which a method begins (JVMS 4.10.1.6).

ghost use Rattle.std.specs.Prelude.{◌≡◌, ◌≤◌, ◌<◌, ◌++◌, ℕ, List, codes, IfOk, OnOk, IfSome, IfNone};
ghost use Rattle.std.specs.Str.{bytes_eq};
ghost use Rattle.jv_stackmap.specs.Types.{words};
ghost use Rattle.jv_verify_types.specs.Typed.{typed, typed_all};
ghost use Rattle.jv_verify.specs.Inside.Known.{IsReceiver, AreReceivers, AreFirstEntries};

use jv_stackmap::VerificationTypeOf;
use jv_verify_types::{Argument, CurrentClass, Item, words_of};
use std::alloc::{AllocError, Global};

/// Whether the class is java/lang/Object.
fn is_object(class: &CurrentClass<'_, '_, '_>) -> bool
    ensures { result ≡ bytes_eq class.now.by.class.name (codes "java/lang/Object") }
{
    class.is_current(class.constants().names().object())
}

/// The type of the receiver: that of `<init>` is not initialized, but in java/lang/Object.
fn receiver(class: &CurrentClass<'_, '_, '_>, is_init: bool) -> Item
    ensures { IsReceiver class.now is_init result }
{
    if is_init && !is_object(class) {
        VerificationTypeOf::UninitializedThis
    } else {
        class.current()
    }
}

/// The receiver's type alone; nothing for a static method.
fn receiver_items(
    alloc: Global,
    class: &CurrentClass<'_, '_, '_>,
    is_static: bool,
    is_init: bool,
) -> Result<Vec<Item>, AllocError>
    ensures { IfOk result (λ items. AreReceivers class.now is_static is_init items.items) }
{
    let mut items = Vec::new(alloc);
    if !is_static {
        items.push(receiver(class, is_init))?;
    }
    Ok(items)
}

/// The types of arguments join others.
fn push_items(items: &mut Vec<Item>, arguments: &[Argument]) -> Result<(), AllocError>
    ensures { OnOk result (items.new.items ≡ items.old.items ++ arguments.now) }
{
    items.reserve(arguments.len())?;
    for argument in arguments {
        items.push(argument.item())?;
    }
    Ok(())
}

/// The types of the initial local entries: the receiver's, where there is one, and the arguments'.
pub(crate) fn initial_items(
    alloc: Global,
    class: &CurrentClass<'_, '_, '_>,
    is_static: bool,
    is_init: bool,
    arguments: &[Argument],
) -> Result<Vec<Item>, AllocError>
    ensures { IfOk result (λ items. AreFirstEntries class.now is_static is_init arguments.now items.items) }
{
    let mut items = receiver_items(alloc, class, is_static, is_init)?;
    push_items(&mut items, arguments)?;
    Ok(items)
}

/// The words of entries, where there are no more than a number.
pub(crate) fn words_within(items: &[Item], most: u16) -> Option<u16>
    ensures words { IfSome result (λ count. (names : List (List ℕ)) → count ≡ words (typed_all names items.now)) }
    ensures within { IfSome result (λ count. count ≤ most) }
    ensures more { IfNone result ((names : List (List ℕ)) → most < words (typed_all names items.now)) }
{
    let mut count = 0;
    for item in items {
        let more = words_of(*item);
        if most - count < more {
            return None;
        }
        count += more;
    }
    Some(count)
}
