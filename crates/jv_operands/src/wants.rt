//! What an instruction wants of the stack's items.

ghost use Rattle.std.specs.Prelude.{◌≡◌, ◌∷◌, [], Some, codes, map, IfOk};
ghost use Rattle.jv_code.specs.Insns.{instruction_of};
ghost use Rattle.jv_meaning_typing.specs.Environment.{Environment};
ghost use Rattle.jv_meaning_typing.specs.Named.{array_with, class_components, class_type, field_named_by, method_named_by, object_class_type, throwable_type};
ghost use Rattle.jv_meaning_typing.specs.ValueRules.{value_kind};
ghost use Rattle.jv_stackmap.specs.declared.verification.VerificationTypeOf.TheVariants as types;
ghost use Rattle.jv_meaning_typing.specs.NumberRules.{array_of_base, computation, conversion, element_number, number_type};
ghost use Rattle.jv_stackmap.specs.Seen.{seen_type};
ghost use Rattle.jv_text.specs.Seen.{seen_result};
ghost use Rattle.jv_operands.specs.Seen.{IsMethodOf, seen_want};
ghost use Rattle.jv_operands.specs.Inside.Listed.{as_list, branch_wants, receiver_by};
ghost use Rattle.jv_operands.specs.Inside.Named.{seen_field};
ghost use Rattle.jv_operands.specs.Wants.{field_wants, form_wants, interface_wants, invoke_wants, item_wants, number_array, of_kind, of_type, of_types, return_wants, stored_to};

use crate::listed::{ints, listed, with_receiver};
use crate::method::MethodParts;
use crate::named::{FieldNamed, field_named, method_named};
use crate::types::value_type;
use crate::want::Want;
use jv_code::{
    Computation, Conversion, FieldAccess, Insn, Invocation, NumberElement, NumberKind, StackForm,
    Test, ValueKind, WordKind,
};
use jv_stackmap::VerificationTypeOf;
use jv_text::{Base, Element, FieldType, FieldTypeOf, is_init};
use std::alloc::{AllocError, Global};

/// An int.
fn int<'a>() -> Want<&'a [u8]>
    ensures { seen_want result ≡ of_type types.Int }
{
    Want::Type(VerificationTypeOf::Int)
}

/// A long.
fn long<'a>() -> Want<&'a [u8]>
    ensures { seen_want result ≡ of_type types.Long }
{
    Want::Type(VerificationTypeOf::Long)
}

/// A class.
fn class<'a>(name: &'a [u8]) -> Want<&'a [u8]>
    ensures { seen_want result ≡ of_type (class_type name.now) }
{
    Want::Type(VerificationTypeOf::Class(name))
}

/// An object of any class, or an array.
fn object<'a>() -> Want<&'a [u8]>
    ensures { seen_want result ≡ of_type object_class_type }
{
    class(b"java/lang/Object".as_slice())
}

/// What is thrown.
fn throwable<'a>() -> Want<&'a [u8]>
    ensures { seen_want result ≡ of_type throwable_type }
{
    class(b"java/lang/Throwable".as_slice())
}

/// An array of objects.
fn object_array<'a>() -> Want<&'a [u8]>
    ensures { seen_want result ≡ of_type (array_with (class_components (codes "java/lang/Object"))) }
{
    Want::Type(VerificationTypeOf::Array(FieldTypeOf {
        dimensions: 0,
        element: Element::Class(b"java/lang/Object".as_slice()),
    }))
}

/// A type that is wanted.
fn of_type<'a>(of: VerificationTypeOf<&'a [u8]>) -> Want<&'a [u8]>
    ensures { seen_want result ≡ of_type (seen_type of.entry) }
{
    Want::Type(of)
}

/// A number of a kind.
fn number<'a>(kind: NumberKind) -> Want<&'a [u8]>
    ensures { seen_want result ≡ of_type (number_type kind) }
{
    match kind {
        NumberKind::Int => Want::Type(VerificationTypeOf::Int),
        NumberKind::Long => Want::Type(VerificationTypeOf::Long),
    }
}

/// A value of a kind.
pub(crate) fn of_kind<'a>(kind: ValueKind) -> Want<&'a [u8]>
    ensures { seen_want result ≡ of_kind kind }
{
    match kind {
        ValueKind::Int => Want::Type(VerificationTypeOf::Int),
        ValueKind::Long => Want::Type(VerificationTypeOf::Long),
        ValueKind::Reference => Want::Reference,
    }
}

/// A value of one word of a kind.
fn of_word_kind<'a>(kind: WordKind) -> Want<&'a [u8]>
    ensures { seen_want result ≡ of_kind (value_kind kind) }
{
    match kind {
        WordKind::Int => Want::Type(VerificationTypeOf::Int),
        WordKind::Reference => Want::Reference,
    }
}

/// An array of a primitive type.
fn array_of_base<'a>(base: Base) -> VerificationTypeOf<&'a [u8]>
    ensures { seen_type result ≡ array_of_base base }
{
    VerificationTypeOf::Array(FieldTypeOf {
        dimensions: 0,
        element: Element::Base(base),
    })
}

/// The array that an instruction loads numbers of a kind from, or stores them in.
fn number_array<'a>(element: NumberElement) -> Want<&'a [u8]>
    ensures { seen_want result ≡ number_array element }
{
    match element {
        NumberElement::Int => Want::Type(array_of_base(Base::Int)),
        NumberElement::Long => Want::Type(array_of_base(Base::Long)),
        NumberElement::ByteOrBoolean => {
            Want::Either(array_of_base(Base::Byte), array_of_base(Base::Boolean))
        }
        NumberElement::Char => Want::Type(array_of_base(Base::Char)),
        NumberElement::Short => Want::Type(array_of_base(Base::Short)),
    }
}

/// A number that an array holds.
fn element_number<'a>(element: NumberElement) -> Want<&'a [u8]>
    ensures { seen_want result ≡ of_type (element_number element) }
{
    match element {
        NumberElement::Long => Want::Type(VerificationTypeOf::Long),
        _ => Want::Type(VerificationTypeOf::Int),
    }
}

/// What a conversion wants.
fn conversion_want<'a>(to: Conversion) -> Want<&'a [u8]>
    ensures { seen_want result ∷ [] ≡ of_types (conversion to).takes }
{
    match to {
        Conversion::LongToInt => Want::Type(VerificationTypeOf::Long),
        _ => Want::Type(VerificationTypeOf::Int),
    }
}

/// What a computation wants.
fn computation_wants<'a>(
    alloc: Global,
    what: Computation,
) -> Result<Vec<Want<&'a [u8]>>, AllocError>
    ensures { IfOk result (λ wants. map seen_want wants.items ≡ of_types (computation what).takes) }
{
    match what {
        Computation::IntConstant(_, _) => Ok(Vec::new(alloc)),
        Computation::LongConstant(_) => Ok(Vec::new(alloc)),
        Computation::Arithmetic(kind, _) => listed(alloc, &[number(kind), number(kind)]),
        Computation::Negate(kind) => listed(alloc, &[number(kind)]),
        Computation::Shift(kind, _) => listed(alloc, &[int(), number(kind)]),
        Computation::Convert(to) => listed(alloc, &[conversion_want(to)]),
        Computation::CompareLongs => listed(alloc, &[long(), long()]),
    }
}

/// What a form of the stack wants.
fn form_wants<'a>(alloc: Global, form: StackForm) -> Result<Vec<Want<&'a [u8]>>, AllocError>
    ensures { IfOk result (λ wants. map seen_want wants.items ≡ form_wants form) }
{
    match form {
        StackForm::Pop => listed(alloc, &[Want::Word]),
        StackForm::Dup => listed(alloc, &[Want::Word]),
        StackForm::DupX1 => listed(alloc, &[Want::Word, Want::Word]),
        StackForm::DupX2 => listed(alloc, &[Want::Word]),
        StackForm::Swap => listed(alloc, &[Want::Word, Want::Word]),
        _ => Ok(Vec::new(alloc)),
    }
}

/// What a branch wants.
fn branch_wants<'a>(alloc: Global, test: Test) -> Result<Vec<Want<&'a [u8]>>, AllocError>
    ensures { IfOk result (λ wants. map seen_want wants.items ≡ branch_wants test) }
{
    match test {
        Test::IfInt(_) => listed(alloc, &[int()]),
        Test::IfInts(_) => listed(alloc, &[int(), int()]),
        Test::IfReferences(_) => listed(alloc, &[Want::Reference, Want::Reference]),
        Test::IfNull(_) => listed(alloc, &[Want::Reference]),
    }
}

/// What is wanted for the value that a method with this result returns.
fn return_wants<'a>(
    alloc: Global,
    result_type: Option<FieldType<'a>>,
) -> Result<Vec<Want<&'a [u8]>>, AllocError>
    ensures { IfOk result (λ wants. map seen_want wants.items ≡ return_wants (seen_result result_type.entry)) }
{
    match result_type {
        Some(of) => listed(alloc, &[of_type(value_type(of))]),
        None => Ok(Vec::new(alloc)),
    }
}

/// What a field is stored in.
fn stored_to<'a>(method: &MethodParts<'_, 'a>, field: &FieldNamed<'a>) -> Want<&'a [u8]>
    ensures { (env : Environment) → IsMethodOf method.now env → seen_want result ≡ stored_to env (seen_field field.now) }
{
    if is_init(method.name) && field.reference.class == method.class {
        Want::Either(field.owner, VerificationTypeOf::UninitializedThis)
    } else {
        Want::Type(field.owner)
    }
}

/// What an access to a field wants.
fn access_wants<'a>(
    alloc: Global,
    method: &MethodParts<'_, 'a>,
    access: FieldAccess,
    field: &FieldNamed<'a>,
) -> Result<Vec<Want<&'a [u8]>>, AllocError>
    ensures { (env : Environment) → IsMethodOf method.now env
        → IfOk result (λ wants. map seen_want wants.items ≡ field_wants env access (Some (seen_field field.now))) }
{
    match access {
        FieldAccess::GetStatic => Ok(Vec::new(alloc)),
        FieldAccess::PutStatic => listed(alloc, &[of_type(field.value)]),
        FieldAccess::GetField => listed(alloc, &[of_type(field.owner)]),
        FieldAccess::PutField => listed(alloc, &[of_type(field.value), stored_to(method, field)]),
    }
}

/// What an access to the field that the constant at an index names wants.
fn field_wants<'a>(
    alloc: Global,
    method: &MethodParts<'_, 'a>,
    access: FieldAccess,
    index: u16,
) -> Result<Vec<Want<&'a [u8]>>, AllocError>
    ensures { (env : Environment) → IsMethodOf method.now env
        → IfOk result (λ wants. map seen_want wants.items ≡ field_wants env access (field_named_by env index)) }
{
    match field_named(method.pool, index) {
        Some(field) => access_wants(alloc, method, access, &field),
        None => Ok(Vec::new(alloc)),
    }
}

/// The object that a method of this name and owner is called on.
fn receiver_of<'a>(
    method: &MethodParts<'_, 'a>,
    how: Invocation,
    name: &[u8],
    owner: VerificationTypeOf<&'a [u8]>,
) -> Option<Want<&'a [u8]>>
    ensures { (env : Environment) → IsMethodOf method.now env
        → map seen_want (as_list result) ≡ receiver_by env how name.now (seen_type owner.entry) }
{
    match how {
        Invocation::Virtual => Some(Want::Type(owner)),
        Invocation::Special => {
            if is_init(name) {
                Some(Want::Uninitialized)
            } else {
                Some(class(method.class))
            }
        }
        Invocation::Static => None,
    }
}

/// What a call of the method that the constant at an index names wants.
fn invoke_wants<'a>(
    alloc: Global,
    method: &MethodParts<'_, 'a>,
    how: Invocation,
    index: u16,
) -> Result<Vec<Want<&'a [u8]>>, AllocError>
    ensures { (env : Environment) → IsMethodOf method.now env
        → IfOk result (λ wants. map seen_want wants.items ≡ invoke_wants env how (method_named_by env index)) }
{
    match method_named(alloc, method.pool, index)? {
        Some(named) => {
            let receiver = receiver_of(method, how, named.name, named.owner);
            with_receiver(named.wants, receiver)
        }
        None => Ok(Vec::new(alloc)),
    }
}

/// What a call of the method of an interface that the constant at an index names wants.
fn interface_wants<'a>(
    alloc: Global,
    method: &MethodParts<'_, 'a>,
    index: u16,
) -> Result<Vec<Want<&'a [u8]>>, AllocError>
    ensures { (env : Environment) → IsMethodOf method.now env
        → IfOk result (λ wants. map seen_want wants.items ≡ interface_wants (method_named_by env index)) }
{
    match method_named(alloc, method.pool, index)? {
        Some(named) => with_receiver(named.wants, Some(of_type(named.owner))),
        None => Ok(Vec::new(alloc)),
    }
}

/// What an instruction wants of the stack's items, from the top down (JVMS 4.10.1.9).
pub(crate) fn item_wants<'a>(
    alloc: Global,
    method: &MethodParts<'_, 'a>,
    insn: &Insn<&[u8]>,
) -> Result<Vec<Want<&'a [u8]>>, AllocError>
    ensures { (env : Environment) → IsMethodOf method.now env
        → IfOk result (λ wants. map seen_want wants.items ≡ item_wants env (instruction_of insn.now)) }
{
    match *insn {
        Insn::Nop => Ok(Vec::new(alloc)),
        Insn::NullConstant => Ok(Vec::new(alloc)),
        Insn::Compute(what) => computation_wants(alloc, what),
        Insn::PoolConstant(_, _) => Ok(Vec::new(alloc)),
        Insn::PoolLongConstant(_) => Ok(Vec::new(alloc)),
        Insn::Load(_, _, _) => Ok(Vec::new(alloc)),
        Insn::Store(kind, _, _) => listed(alloc, &[of_word_kind(kind)]),
        Insn::StoreLong(_, _) => listed(alloc, &[long()]),
        Insn::ArrayLoad(element) => listed(alloc, &[int(), number_array(element)]),
        Insn::ReferenceArrayLoad => listed(alloc, &[int(), Want::ReferenceArray]),
        Insn::ArrayStore(element) => listed(
            alloc,
            &[element_number(element), int(), number_array(element)],
        ),
        Insn::ReferenceArrayStore => listed(alloc, &[object(), int(), object_array()]),
        Insn::Stack(form) => form_wants(alloc, form),
        Insn::Division(kind, _) => listed(alloc, &[number(kind), number(kind)]),
        Insn::Increment(_, _, _) => Ok(Vec::new(alloc)),
        Insn::Branch(test, _) => branch_wants(alloc, test),
        Insn::Goto(_, _) => Ok(Vec::new(alloc)),
        Insn::TableSwitch(_, _, _, _, _) => listed(alloc, &[int()]),
        Insn::LookupSwitch(_, _, _) => listed(alloc, &[int()]),
        Insn::ReturnValue(_) => return_wants(alloc, method.result),
        Insn::Return => Ok(Vec::new(alloc)),
        Insn::Field(access, index) => field_wants(alloc, method, access, index),
        Insn::Invoke(how, index) => invoke_wants(alloc, method, how, index),
        Insn::InvokeInterface(index, _) => interface_wants(alloc, method, index),
        Insn::New(_) => Ok(Vec::new(alloc)),
        Insn::NewArray(_) => listed(alloc, &[int()]),
        Insn::NewReferenceArray(_) => listed(alloc, &[int()]),
        Insn::NewMultiArray(_, dimensions) => ints(alloc, dimensions),
        Insn::ArrayLength => listed(alloc, &[Want::Array]),
        Insn::Throw => listed(alloc, &[throwable()]),
        Insn::CheckCast(_) => listed(alloc, &[object()]),
        Insn::InstanceOf(_) => listed(alloc, &[object()]),
    }
}
