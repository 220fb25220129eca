//! What constants of members refer to (JVMS 4.4.2, 4.4.6).

ghost use Rattle.std.specs.Prelude.{◌≡◌};
ghost use Rattle.std.specs.Option.{option_copied, option_map};
ghost use Rattle.jv_pool.specs.Constants.{at_index, utf8_at};
ghost use Rattle.jv_verify_types.specs.Inside.Parts.{member_indices, field_indices, method_indices};

use jv_pool::{Constant, Pool};

/// The indices of a member's class, name and descriptor.
#[derive(Clone, Copy)]
pub(crate) struct MemberIndices {
    pub class: u16,
    pub name: u16,
    pub descriptor: u16,
}

/// A method's, and whether it is named as one of a class, and not of an interface.
#[derive(Clone, Copy)]
pub(crate) struct MethodIndices {
    pub of_class: bool,
    pub member: MemberIndices,
}

fn member_indices(pool: &Pool<'_>, class: u16, name_and_type: u16) -> Option<MemberIndices>
    ensures { result ≡ member_indices class (at_index pool.now name_and_type) }
{
    match pool.constant(name_and_type) {
        Some(Constant::NameAndType(name, descriptor)) => Some(MemberIndices {
            class,
            name,
            descriptor,
        }),
        _ => None,
    }
}

pub(crate) fn field_indices(pool: &Pool<'_>, index: u16) -> Option<MemberIndices>
    ensures { result ≡ field_indices pool.now (at_index pool.now index) }
{
    match pool.constant(index) {
        Some(Constant::Fieldref(class, member)) => member_indices(pool, class, member),
        _ => None,
    }
}

fn method_with(of_class: bool, member: Option<MemberIndices>) -> Option<MethodIndices>
    ensures { result ≡ option_map (λ m. record { of_class = of_class; member = m }) member }
{
    Some(MethodIndices {
        of_class,
        member: member?,
    })
}

pub(crate) fn method_indices(pool: &Pool<'_>, index: u16) -> Option<MethodIndices>
    ensures { result ≡ method_indices pool.now (at_index pool.now index) }
{
    match pool.constant(index) {
        Some(Constant::Methodref(class, member)) => {
            method_with(true, member_indices(pool, class, member))
        }
        Some(Constant::InterfaceMethodref(class, member)) => {
            method_with(false, member_indices(pool, class, member))
        }
        _ => None,
    }
}

/// The text of a Utf8 constant.
pub(crate) fn text_at<'a>(pool: &Pool<'a>, index: u16) -> Option<&'a [u8]>
    ensures { option_copied result ≡ utf8_at pool.now index }
{
    match pool.constant(index) {
        Some(Constant::Utf8(text)) => Some(text),
        _ => None,
    }
}
