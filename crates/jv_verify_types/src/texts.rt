//! What the texts of a pool say as types (JVMS 4.3, 4.4.1), each text read once.

ghost use Rattle.std.specs.Prelude.{◌≡◌, ◌≤◌, false, length, get_or, IfOk, OnOk, slice_range};
ghost use Rattle.jv_text.specs.Seen.{seen_method_type};
ghost use Rattle.jv_text.specs.Types.{field_type_of};
ghost use Rattle.jv_pool.specs.Constants.{utf8_at};
ghost use Rattle.jv_pool.specs.Facts.{AreFacts};
ghost use Rattle.jv_verify_types.specs.Typed.{GoesOn};
ghost use Rattle.jv_verify_types.specs.PoolTypes.{typed_result};
ghost use Rattle.jv_verify_types.specs.Inside.Lasting.{Lasts, IsFront};
ghost use Rattle.jv_verify_types.specs.Inside.KeptTexts.{IsMethodEntry, field_in, IsDescribed, IsNamed, IsKept, kept_at, AreKept};

use crate::argument::Argument;
use crate::marks::named_by_classes;
use crate::names::TypeNames;
use crate::numbers::{field_by_number, push_arguments, result_by_number};
use jv_pool::{Pool, TextFacts, Utf8Index};
use jv_text::{
    DescFault, Element, FieldTypeOf, MethodType, is_array_name, known_field_type, method_type,
    types_agree,
};
use std::alloc::{AllocError, Global};

/// What a method's descriptor says of a call (JVMS 4.3.3): the types of its parameters' values in their order, without the
/// receiver, and the type of its result, `None` for void.
#[derive(Clone, Copy)]
pub struct MethodTypes<'c> {
    pub arguments: &'c [Argument],
    pub result: Option<FieldTypeOf<u32>>,
}

/// A method's descriptor: where its arguments stand among those of all texts, from `start` on and before `end`, and its
/// result.
#[derive(Clone, Copy)]
pub(crate) struct MethodEntry {
    pub start: u32,
    pub end: u32,
    pub result: Option<FieldTypeOf<u32>>,
}

/// What a text is the descriptor of.
#[derive(Clone, Copy)]
pub(crate) enum Described {
    Nothing,
    Field(FieldTypeOf<u32>),
    Method(MethodEntry),
}

/// What a text says as a descriptor, and as the name of a class or an array type.
#[derive(Clone, Copy)]
pub(crate) struct TextTypes {
    pub described: Described,
    pub named: Option<FieldTypeOf<u32>>,
}

/// What the texts of a pool say, by their indices, with the arguments of all.
#[derive(Drop)]
pub(crate) struct TypeTable {
    pub texts: Vec<TextTypes>,
    pub arguments: Vec<Argument>,
}

/// A place as a number of 32 bits; want of memory where it has none.
fn as_number(place: usize) -> Result<u32, AllocError>
    ensures { IfOk result (λ n. n ≡ place) }
{
    match u32::try_from(place) {
        Ok(number) => Ok(number),
        Err(_) => Err(AllocError),
    }
}

/// The arguments of a method's descriptor join the others.
fn method_entry<'b, 'a: 'b>(
    names: &mut TypeNames<'_, 'a>,
    arguments: &mut Vec<Argument>,
    method: &'b MethodType<'a>,
) -> Result<MethodEntry, AllocError>
    ensures entry { IfOk result (λ e. IsMethodEntry names.new.names arguments.new.items e (seen_method_type method.now)) }
    ensures front { OnOk result (IsFront arguments.old.items arguments.new.items) }
    ensures goes_on { GoesOn names.old.names names.new.names }
    ensures world { names.new.world ≡ names.old.world }
{
    let start = as_number(arguments.len())?;
    push_arguments(names, arguments, &method.parameters)?;
    let end = as_number(arguments.len())?;
    let result = result_by_number(names, method.result)?;
    Ok(MethodEntry { start, end, result })
}

/// What a text is, which is the descriptor of a method if of anything.
fn described_method<'a>(
    alloc: Global,
    names: &mut TypeNames<'_, 'a>,
    arguments: &mut Vec<Argument>,
    text: &'a [u8],
) -> Result<Described, AllocError>
    requires { field_type_of text.now ≡ None }
    ensures described { IfOk result (λ d. IsDescribed names.new.names arguments.new.items (Some text.now) d) }
    ensures front { OnOk result (IsFront arguments.old.items arguments.new.items) }
    ensures goes_on { GoesOn names.old.names names.new.names }
    ensures world { names.new.world ≡ names.old.world }
{
    types_agree();
    match method_type(alloc, text) {
        Ok(method) => {
            let entry = method_entry(names, arguments, &method)?;
            Ok(Described::Method(entry))
        }
        Err(DescFault::BadDescriptor) => Ok(Described::Nothing),
        Err(DescFault::OutOfMemory) => Err(AllocError),
    }
}

/// What a text is the descriptor of.
fn described_by<'a>(
    alloc: Global,
    names: &mut TypeNames<'_, 'a>,
    arguments: &mut Vec<Argument>,
    text: &'a [u8],
    facts: TextFacts,
) -> Result<Described, AllocError>
    requires { AreFacts text.now facts }
    ensures described { IfOk result (λ d. IsDescribed names.new.names arguments.new.items (Some text.now) d) }
    ensures front { OnOk result (IsFront arguments.old.items arguments.new.items) }
    ensures goes_on { GoesOn names.old.names names.new.names }
    ensures world { names.new.world ≡ names.old.world }
{
    types_agree();
    if facts.field.is_some() {
        let type_of = field_by_number(names, known_field_type(text))?;
        Ok(Described::Field(type_of))
    } else if facts.method.is_some() {
        described_method(alloc, names, arguments, text)
    } else {
        Ok(Described::Nothing)
    }
}

/// What a text says as the name of a class or an array type, where its type as a descriptor is known.
fn named_by<'a>(
    names: &mut TypeNames<'_, 'a>,
    text: &'a [u8],
    facts: TextFacts,
    field: Option<FieldTypeOf<u32>>,
) -> Result<Option<FieldTypeOf<u32>>, AllocError>
    requires facts { AreFacts text.now facts }
    requires field { Lasts typed_result names.old.names field (field_type_of text.now) }
    ensures named { IfOk result (λ t. IsNamed names.new.names (Some text.now) t) }
    ensures goes_on { GoesOn names.old.names names.new.names }
    ensures world { names.new.world ≡ names.old.world }
{
    if is_array_name(text) {
        Ok(field)
    } else if facts.names_class {
        let number = names.number_of(text)?;
        Ok(Some(FieldTypeOf {
            dimensions: 0,
            element: Element::Class(number),
        }))
    } else {
        Ok(None)
    }
}

impl Described {
    /// The type whose descriptor the text is.
    pub(crate) fn field(self) -> Option<FieldTypeOf<u32>>
        ensures { result ≡ field_in self }
    {
        match self {
            Described::Field(type_of) => Some(type_of),
            _ => None,
        }
    }
}

/// What a text says; as a name only where it is asked for.
fn text_types<'a>(
    alloc: Global,
    names: &mut TypeNames<'_, 'a>,
    arguments: &mut Vec<Argument>,
    text: &'a [u8],
    facts: TextFacts,
    is_name: bool,
) -> Result<TextTypes, AllocError>
    requires { AreFacts text.now facts }
    ensures kept { IfOk result (λ e. IsKept names.new.names arguments.new.items (Some text.now) is_name e) }
    ensures front { OnOk result (IsFront arguments.old.items arguments.new.items) }
    ensures goes_on { GoesOn names.old.names names.new.names }
    ensures world { names.new.world ≡ names.old.world }
{
    let described = described_by(alloc, names, arguments, text, facts)?;
    let named = if is_name {
        named_by(names, text, facts, described.field())?
    } else {
        None
    };
    Ok(TextTypes { described, named })
}

const NOTHING: TextTypes = TextTypes {
    described: Described::Nothing,
    named: None,
};

/// What the constant at an index says, where it is a text.
fn types_at<'a>(
    alloc: Global,
    names: &mut TypeNames<'_, 'a>,
    arguments: &mut Vec<Argument>,
    pool: &Pool<'a>,
    index: u16,
    is_name: bool,
) -> Result<TextTypes, AllocError>
    ensures kept { IfOk result (λ e. IsKept names.new.names arguments.new.items (utf8_at pool.now index) is_name e) }
    ensures front { OnOk result (IsFront arguments.old.items arguments.new.items) }
    ensures goes_on { GoesOn names.old.names names.new.names }
    ensures world { names.new.world ≡ names.old.world }
{
    match pool.utf8_index(index) {
        Some(index) => {
            text_types(
                alloc,
                names,
                arguments,
                pool.utf8(index),
                pool.facts(index),
                is_name,
            )
        }
        None => Ok(NOTHING),
    }
}

/// What the texts of a pool say.
pub(crate) fn type_table<'a>(
    alloc: Global,
    names: &mut TypeNames<'_, 'a>,
    pool: &Pool<'a>,
) -> Result<TypeTable, AllocError>
    ensures kept { IfOk result (λ t. AreKept names.new.names t.arguments.items pool.now t.texts.items) }
    ensures goes_on { GoesOn names.old.names names.new.names }
    ensures world { names.new.world ≡ names.old.world }
{
    let marks = named_by_classes(alloc, pool)?;
    let mut texts = Vec::with_capacity(alloc, usize::from(pool.count()))?;
    let mut arguments = Vec::new(alloc);
    for index in 0..pool.count() {
        let is_name = is_marked(&marks, index);
        texts.push(types_at(alloc, names, &mut arguments, pool, index, is_name)?)?;
    }
    Ok(TypeTable { texts, arguments })
}

/// Whether an index is marked.
fn is_marked(marks: &[bool], index: u16) -> bool
    ensures { result ≡ get_or marks.now index false }
{
    match marks.get(usize::from(index)) {
        Some(mark) => *mark,
        None => false,
    }
}

/// What is kept at an index.
pub(crate) fn kept_at(texts: &[TextTypes], index: u16) -> TextTypes
    ensures { result ≡ kept_at texts.now index }
{
    match texts.get(usize::from(index)) {
        Some(entry) => *entry,
        None => NOTHING,
    }
}

/// The arguments of a method's descriptor.
pub(crate) fn arguments_of(arguments: &[Argument], method: MethodEntry) -> &[Argument]
    requires rising { method.start ≤ method.end }
    requires within { method.end ≤ length arguments.now }
    ensures { result.now ≡ slice_range arguments.now method.start method.end }
{
    &arguments[method.start as usize..method.end as usize]
}
