//! Whether two constants name one class, without a look at its name (JVMS 4.4.1, 4.4.2).

ghost use Rattle.std.specs.Prelude.{◌≡◌, ℕ, List, Some, None, IsSome, IfSome, IfNone};
ghost use Rattle.jv_pool.specs.Constants.{class_name_at, utf8_at};
ghost use Rattle.jv_meaning_typing.specs.Operands.{MethodReference};
ghost use Rattle.jv_link.specs.Inside.References.{method_operand_in};
ghost use Rattle.jv_meaning_typing.specs.MemberRules.{is_that_name};
ghost use Rattle.jv_verify_rules.specs.Inside.Constructed.{class_by, IsFirst, NamesMemberOf};

use jv_pool::{Constant, Pool, Utf8Index};

/// The text that a Class constant names.
fn name_of(pool: &Pool<'_>, class: u16) -> Option<Utf8Index>
    ensures names { IfSome result (λ name. IsSome (utf8_at pool.now name.0)) }
    ensures same { IfSome result (λ name. utf8_at pool.now name.0 ≡ class_name_at pool.now class) }
    ensures none { IfNone result (class_name_at pool.now class ≡ None) }
{
    match pool.constant(class) {
        Some(Constant::Class(name)) => pool.utf8_index(name),
        _ => None,
    }
}

/// The least index of the text that a Class constant names.
fn first_of(pool: &Pool<'_>, class: u16) -> Option<u16>
    ensures { IsFirst pool.now (class_name_at pool.now class) result }
{
    let name = name_of(pool, class)?;
    Some(pool.first_alike(name))
}

/// Whether two Class constants name the same text.
fn same_text(pool: &Pool<'_>, one: u16, other: u16) -> bool
    ensures { (text : List ℕ) → class_name_at pool.now one ≡ Some text → is_that_name text (class_name_at pool.now other) ≡ result }
{
    let Some(first) = first_of(pool, one) else {
        return false;
    };
    match first_of(pool, other) {
        Some(second) => first == second,
        None => false,
    }
}

/// The index of the class that a method is named with.
fn class_of_method(pool: &Pool<'_>, index: u16) -> Option<u16>
    ensures { (m : MethodReference) → method_operand_in pool.now index ≡ Some m → class_by pool.now result ≡ Some m.member.class }
{
    match pool.constant(index) {
        Some(Constant::Methodref(class, _)) => Some(class),
        Some(Constant::InterfaceMethodref(class, _)) => Some(class),
        _ => None,
    }
}

/// Whether the method that an index names is named with the class that a Class constant names.
pub(crate) fn is_named_with(pool: &Pool<'_>, index: u16, class: u16) -> bool
    ensures { NamesMemberOf pool.now index class result }
{
    match class_of_method(pool, index) {
        Some(owner) => same_text(pool, owner, class),
        None => false,
    }
}
