//! Frames with the names of classes, for those who don't know the numbers.

ghost use Rattle.std.specs.Prelude.{◌≡◌, length, map, IfOk, OnOk};
ghost use Rattle.std.specs.Option.{option_map};
ghost use Rattle.jv_text.specs.Seen.{seen_element};
ghost use Rattle.jv_verify_types.specs.Numbered.{frame_of};
ghost use Rattle.jv_verify_types.specs.Typed.{typed, typed_all, typed_element};
ghost use Rattle.jv_stackmap.specs.Seen.{seen_type};
ghost use Rattle.jv_verify_pass.specs.Before.{seen_frame};

use jv_stackmap::VerificationTypeOf;
use jv_text::{Element, FieldTypeOf};
use jv_verify_frame::TypeFrame;
use jv_verify_types::{Item, TypeNames};
use std::alloc::{AllocError, Global};

/// The type of a local variable or of a stack item (JVMS 4.10.1.2), with the name of its class.
pub type NamedType<'a> = VerificationTypeOf<&'a [u8]>;

/// A frame (JVMS 4.10.1.4): the local variables, the first first, a long as long and top; the stack's items, the top first, where a
/// long is one item; and whether `this` may not be initialized.
pub struct NamedFrame<'a> {
    /// The types of the local variables.
    pub locals: Vec<NamedType<'a>>,
    /// The types of the stack's items.
    pub stack: Vec<NamedType<'a>>,
    /// Whether `this` may not be initialized.
    pub flag_this_uninit: bool,
}

impl Drop for NamedFrame<'_> {
    fn drop(self) {
        let NamedFrame {
            locals: _,
            stack: _,
            flag_this_uninit: _,
        } = self;
    }
}

/// The element with the name of its class.
fn named_element<'a>(names: &TypeNames<'_, 'a>, element: Element<u32>) -> Element<&'a [u8]>
    ensures { seen_element result ≡ typed_element names.now.names element }
{
    match element {
        Element::Base(base) => Element::Base(base),
        Element::Class(number) => Element::Class(names.name(number)),
    }
}

/// The type with the name of its class.
fn named_type<'a>(names: &TypeNames<'_, 'a>, item: Item) -> NamedType<'a>
    ensures { seen_type result ≡ typed names.now.names item }
{
    match item {
        VerificationTypeOf::Top => VerificationTypeOf::Top,
        VerificationTypeOf::Int => VerificationTypeOf::Int,
        VerificationTypeOf::Long => VerificationTypeOf::Long,
        VerificationTypeOf::Null => VerificationTypeOf::Null,
        VerificationTypeOf::UninitializedThis => VerificationTypeOf::UninitializedThis,
        VerificationTypeOf::Class(number) => VerificationTypeOf::Class(names.name(number)),
        VerificationTypeOf::Array(components) => VerificationTypeOf::Array(FieldTypeOf {
            dimensions: components.dimensions,
            element: named_element(names, components.element),
        }),
        VerificationTypeOf::Uninitialized(offset) => VerificationTypeOf::Uninitialized(offset),
    }
}

/// The types of the local variables of a frame, of which there are so many.
fn named_locals<'a>(
    alloc: Global,
    names: &TypeNames<'_, 'a>,
    frame: &TypeFrame,
    count: u16,
) -> Result<Vec<NamedType<'a>>, AllocError>
    requires { length frame.now.locals ≡ count }
    ensures { IfOk result (λ types. map seen_type types.items ≡ typed_all names.now.names frame.now.locals) }
{
    let mut types = Vec::with_capacity(alloc, usize::from(count))?;
    for index in 0..count {
        let Some(item) = frame.local(index) else {
            unreachable!();
        };
        types.push(named_type(names, item))?;
    }
    Ok(types)
}

/// The types of the items of a frame's stack.
fn named_stack<'a>(
    alloc: Global,
    names: &TypeNames<'_, 'a>,
    frame: &TypeFrame,
) -> Result<Vec<NamedType<'a>>, AllocError>
    ensures { IfOk result (λ types. map seen_type types.items ≡ typed_all names.now.names frame.now.stack) }
{
    let height = frame.height();
    let mut types = Vec::with_capacity(alloc, height)?;
    for depth in 0..height {
        let Some(item) = frame.item(depth) else {
            unreachable!();
        };
        types.push(named_type(names, item))?;
    }
    Ok(types)
}

/// A frame with so many local variables, with names for numbers.
///
/// # Errors
///
/// Where the host had no memory for it.
pub(crate) fn named_frame<'a>(
    alloc: Global,
    names: &TypeNames<'_, 'a>,
    frame: &TypeFrame,
    count: u16,
) -> Result<NamedFrame<'a>, AllocError>
    requires { length frame.now.locals ≡ count }
    ensures { IfOk result (λ named. seen_frame named ≡ frame_of names.now.names frame.now) }
{
    let locals = named_locals(alloc, names, frame, count)?;
    let stack = named_stack(alloc, names, frame)?;
    Ok(NamedFrame {
        locals,
        stack,
        flag_this_uninit: frame.flag_this_uninit(),
    })
}
