//! What flows to what, by numbers of names (JVMS 4.10.1.2).

ghost use Rattle.std.specs.Prelude.{◌≡◌, IsTrue, codes};
ghost use Rattle.jv_stackmap.specs.declared.verification.VerificationTypeOf.TheVariants as variants;
ghost use Rattle.jv_text.specs.Descriptor.{base_letter};
ghost use Rattle.jv_text.specs.Seen.{seen_field_type};
ghost use Rattle.jv_meaning_world.specs.Flow.{class_flows, flows, same_base};
ghost use Rattle.jv_meaning_world.specs.FrameFlow.{item_flows};
ghost use Rattle.jv_stackmap.specs.Seen.{seen_type};
ghost use Rattle.jv_verify_types.specs.Typed.{name_at, typed_field, typed};
ghost use Rattle.jv_verify_types.specs.Inside.Made.{is_object_of};

use crate::names::{Item, TypeNames};
use jv_assign::{flows, other_class_flows};
use jv_stackmap::VerificationTypeOf;
use jv_text::{Base, Element, FieldType, FieldTypeOf};

/// The letter of a primitive type (JVMS table 4.3-A).
fn letter(base: Base) -> u8
    ensures { result ≡ base_letter base }
{
    match base {
        Base::Byte => b'B',
        Base::Char => b'C',
        Base::Double => b'D',
        Base::Float => b'F',
        Base::Int => b'I',
        Base::Long => b'J',
        Base::Short => b'S',
        Base::Boolean => b'Z',
    }
}

/// Whether two primitive types are one.
fn same_base(one: Base, other: Base) -> bool
    ensures { result ≡ same_base one other }
{
    letter(one) == letter(other)
}

/// Whether a type is an object that is not initialized, made by the `new` at an offset.
fn is_object_of(item: Item, offset: u16) -> bool
    ensures { result ≡ is_object_of item offset }
{
    match item {
        VerificationTypeOf::Uninitialized(other) => other == offset,
        _ => false,
    }
}

impl<'t, 'a> TypeNames<'t, 'a> {
    /// Whether a class flows to another.
    fn class_flows(&self, from: u32, to: u32) -> bool
        ensures { result ≡ class_flows self.now.world (name_at self.now.names from) (name_at self.now.names to) }
    {
        self.same_name(from, to)
            || other_class_flows(self.table(), self.class_of(from), self.class_of(to))
    }

    /// The type of a field with its class by its name.
    fn field_by_name(&self, type_of: FieldTypeOf<u32>) -> FieldType<'a>
        ensures { seen_field_type result ≡ typed_field self.now.names type_of }
    {
        let element = match type_of.element {
            Element::Base(base) => Element::Base(base),
            Element::Class(number) => Element::Class(self.name(number)),
        };
        FieldTypeOf {
            dimensions: type_of.dimensions,
            element,
        }
    }

    /// The type with its class by its name.
    pub fn by_name(&self, item: Item) -> VerificationTypeOf<&'a [u8]>
        ensures { seen_type result ≡ typed self.now.names item }
    {
        match item {
            VerificationTypeOf::Top => VerificationTypeOf::Top,
            VerificationTypeOf::Int => VerificationTypeOf::Int,
            VerificationTypeOf::Long => VerificationTypeOf::Long,
            VerificationTypeOf::Null => VerificationTypeOf::Null,
            VerificationTypeOf::UninitializedThis => VerificationTypeOf::UninitializedThis,
            VerificationTypeOf::Class(number) => VerificationTypeOf::Class(self.name(number)),
            VerificationTypeOf::Array(components) => {
                VerificationTypeOf::Array(self.field_by_name(components))
            }
            VerificationTypeOf::Uninitialized(offset) => VerificationTypeOf::Uninitialized(offset),
        }
    }

    /// Whether a type flows to another, where not both are classes.
    fn other_flows(&self, from: Item, to: Item) -> bool
        ensures { result ≡ flows self.now.world (typed self.now.names from) (typed self.now.names to) }
    {
        flows(self.table(), &self.by_name(from), &self.by_name(to))
    }

    /// Whether an array flows to another by the elements of their components, where these have as many dimensions.
    fn components_flow(&self, from: FieldTypeOf<u32>, to: FieldTypeOf<u32>) -> bool
        ensures { result ≡ flows self.now.world (typed self.now.names (variants.Array from)) (typed self.now.names (variants.Array to)) }
    {
        match (from.element, to.element) {
            (Element::Class(x), Element::Class(y)) if from.dimensions == to.dimensions => {
                self.class_flows(x, y)
            }
            (Element::Base(x), Element::Base(y)) if from.dimensions == to.dimensions => {
                same_base(x, y)
            }
            _ => self.other_flows(
                VerificationTypeOf::Array(from),
                VerificationTypeOf::Array(to),
            ),
        }
    }

    /// Whether a number is that of the name java/lang/Object.
    #[inline]
    fn is_object(&self, number: u32) -> bool
        ensures { IsTrue result → name_at self.now.names number ≡ codes "java/lang/Object" }
    {
        self.same_name(number, self.object())
    }

    /// Whether an array flows to a class: each does to java/lang/Object, without a look at the name.
    fn array_flows_to_class(&self, from: FieldTypeOf<u32>, to: u32) -> bool
        ensures { result ≡ flows self.now.world (typed self.now.names (variants.Array from)) (typed self.now.names (variants.Class to)) }
    {
        if self.is_object(to) {
            return true;
        }
        self.other_flows(
            VerificationTypeOf::Array(from),
            VerificationTypeOf::Class(to),
        )
    }

    /// Whether a type flows to a class.
    #[inline]
    fn flows_to_class(&self, from: Item, to: u32) -> bool
        ensures { result ≡ flows self.now.world (typed self.now.names from) (typed self.now.names (variants.Class to)) }
    {
        match from {
            VerificationTypeOf::Class(name) => self.class_flows(name, to),
            VerificationTypeOf::Null => true,
            VerificationTypeOf::Array(components) => self.array_flows_to_class(components, to),
            _ => false,
        }
    }

    /// Whether a type flows to an array.
    #[inline]
    fn flows_to_array(&self, from: Item, to: FieldTypeOf<u32>) -> bool
        ensures { result ≡ flows self.now.world (typed self.now.names from) (typed self.now.names (variants.Array to)) }
    {
        match from {
            VerificationTypeOf::Array(components) => self.components_flow(components, to),
            VerificationTypeOf::Null => true,
            _ => false,
        }
    }

    /// Whether a type can stand where another is expected (JVMS 4.10.1.2). No name of a class is looked
    /// at but where an array flows to a class other than java/lang/Object, or to an array of other dimensions.
    #[inline]
    pub fn flows(&self, from: Item, to: Item) -> bool
        ensures { result ≡ flows self.now.world (typed self.now.names from) (typed self.now.names to) }
    {
        match to {
            VerificationTypeOf::Top => true,
            VerificationTypeOf::Int => matches!(from, VerificationTypeOf::Int),
            VerificationTypeOf::Long => matches!(from, VerificationTypeOf::Long),
            VerificationTypeOf::Null => matches!(from, VerificationTypeOf::Null),
            VerificationTypeOf::UninitializedThis => {
                matches!(from, VerificationTypeOf::UninitializedThis)
            }
            VerificationTypeOf::Uninitialized(offset) => is_object_of(from, offset),
            VerificationTypeOf::Class(name) => self.flows_to_class(from, name),
            VerificationTypeOf::Array(components) => self.flows_to_array(from, components),
        }
    }

    /// Whether an item of the stack can stand where another is expected: a long flows to a long alone.
    pub fn item_flows(&self, from: Item, to: Item) -> bool
        ensures { result ≡ item_flows self.now.world (typed self.now.names from) (typed self.now.names to) }
    {
        match from {
            VerificationTypeOf::Long => matches!(to, VerificationTypeOf::Long),
            _ => self.flows(from, to),
        }
    }
}
