//! What a class of a library with the name of one of the system's has to have as that.

ghost use Rattle.std.specs.Prelude.{◌≡◌, ◌↔◌, ◌++◌, IfOk, IsTrue, OnOk, map};
ghost use Rattle.std.specs.Option.{option_copied};
ghost use Rattle.jv_classes.specs.Inside.KeptNames.{texts_of};
ghost use Rattle.jv_meaning_world.specs.System.Throwables.{throwable_class};
ghost use Rattle.jv_loader.specs.Inside.Given.{all_borrowers};
ghost use Rattle.jv_loader.specs.Inside.Headers.{field_in, field_of, header_in, header_of, headers_in, member_of};
ghost use Rattle.jv_loader.specs.Inside.Table.{row_of};

use crate::flag::{CLASS, FINAL_CLASS, INTERFACE, PRIVATE, PRIVATE_FINAL};
use crate::throwables::{TABLE, ThrowableClass};
use jv_classes::{LoadedClass, Member};
use std::alloc::{AllocError, Global};

/// A field of one of the system's classes.
#[derive(Clone, Copy)]
pub(crate) struct FieldHeader {
    access_flags: u16,
    name: &'static [u8],
    descriptor: &'static [u8],
}

/// What one of the system's classes has besides its version, its methods and its constants.
#[derive(Clone, Copy)]
pub(crate) struct Header {
    pub(crate) access_flags: u16,
    pub(crate) name: &'static [u8],
    pub(crate) super_name: Option<&'static [u8]>,
    pub(crate) interfaces: &'static [&'static [u8]],
    pub(crate) fields: &'static [FieldHeader],
}

/// Those before the classes below java/lang/Throwable.
static FIRST: [Header; 5] = [
    Header {
        access_flags: INTERFACE,
        name: b"java/lang/Cloneable",
        super_name: Some(b"java/lang/Object"),
        interfaces: &[],
        fields: &[],
    },
    Header {
        access_flags: INTERFACE,
        name: b"java/io/Serializable",
        super_name: Some(b"java/lang/Object"),
        interfaces: &[],
        fields: &[],
    },
    Header {
        access_flags: CLASS,
        name: b"java/lang/Object",
        super_name: None,
        interfaces: &[],
        fields: &[],
    },
    Header {
        access_flags: FINAL_CLASS,
        name: b"java/lang/String",
        super_name: Some(b"java/lang/Object"),
        interfaces: &[
            b"java/io/Serializable",
            b"java/lang/Comparable",
            b"java/lang/CharSequence",
        ],
        fields: &[FieldHeader {
            access_flags: PRIVATE_FINAL,
            name: b"value",
            descriptor: b"[C",
        }],
    },
    Header {
        access_flags: CLASS,
        name: b"java/lang/Throwable",
        super_name: Some(b"java/lang/Object"),
        interfaces: &[b"java/io/Serializable"],
        fields: &[FieldHeader {
            access_flags: PRIVATE,
            name: b"message",
            descriptor: b"Ljava/lang/String;",
        }],
    },
];

/// The interfaces of java/lang/String that are there with a library alone.
static LAST: [Header; 2] = [
    Header {
        access_flags: INTERFACE,
        name: b"java/lang/Comparable",
        super_name: Some(b"java/lang/Object"),
        interfaces: &[],
        fields: &[],
    },
    Header {
        access_flags: INTERFACE,
        name: b"java/lang/CharSequence",
        super_name: Some(b"java/lang/Object"),
        interfaces: &[],
        fields: &[],
    },
];

/// That of a class below java/lang/Throwable.
fn throwable_header(class: &ThrowableClass) -> Header
    ensures { header_in result ≡ header_of (throwable_class (row_of class.now)) }
{
    Header {
        access_flags: class.access_flags,
        name: class.name,
        super_name: Some(class.super_name),
        interfaces: &[],
        fields: &[],
    }
}

/// Those of the classes below java/lang/Throwable, behind others.
fn put_throwable_headers(
    headers: &mut Vec<Header>,
    classes: &[ThrowableClass],
) -> Result<(), AllocError>
    ensures { OnOk result (headers_in headers.new.items
        ≡ headers_in headers.old.items ++ map header_of (map throwable_class (map row_of classes.now))) }
{
    for class in classes {
        headers.push(throwable_header(class))?;
    }
    Ok(())
}

/// Those of all classes of the system's that are lent methods, in their order.
pub(crate) fn headers(alloc: Global) -> Result<Vec<Header>, AllocError>
    ensures { IfOk result (λ headers. headers_in headers.items ≡ map header_of all_borrowers) }
{
    let mut headers = Vec::from_slice(alloc, &FIRST)?;
    put_throwable_headers(&mut headers, &TABLE)?;
    headers.extend_from_slice(&LAST)?;
    Ok(headers)
}

/// Whether the superclass is the same.
fn is_same_super(one: Option<&[u8]>, other: Option<&[u8]>) -> bool
    ensures { IsTrue result ↔ (option_copied one.entry ≡ option_copied other.entry) }
{
    match (one, other) {
        (Some(one), Some(other)) => one == other,
        (None, None) => true,
        _ => false,
    }
}

/// Whether the class has these direct superinterfaces, in this order.
fn has_interfaces(class: &LoadedClass<'_>, interfaces: &[&[u8]]) -> bool
    ensures { IsTrue result ↔ (class.now.class.interfaces ≡ texts_of interfaces.now) }
{
    if class.interface_count() != interfaces.len() {
        return false;
    }
    for (place, name) in interfaces.iter().enumerate() {
        if class.interface_name(place) != *name {
            return false;
        }
    }
    true
}

/// Whether it is this field.
fn is_field(member: Member<'_>, field: &FieldHeader) -> bool
    ensures { IsTrue result ↔ (member_of member.entry ≡ field_in field.now) }
{
    member.access_flags == field.access_flags
        && member.name == field.name
        && member.descriptor == field.descriptor
}

/// Whether the class has these fields, in this order.
fn has_fields(class: &LoadedClass<'_>, fields: &[FieldHeader]) -> bool
    ensures { IsTrue result ↔ (map field_of class.now.class.fields ≡ map field_in fields.now) }
{
    if class.field_count() != fields.len() {
        return false;
    }
    for (place, field) in fields.iter().enumerate() {
        if !is_field(class.field(place), field) {
            return false;
        }
    }
    true
}

/// Whether the class has the flags and the name.
fn has_name(class: &LoadedClass<'_>, header: &Header) -> bool
    ensures { IsTrue result ↔ ((class.now.class.access_flags ≡ header.now.access_flags) × (class.now.class.name ≡ header.now.name.now)) }
{
    class.access_flags() == header.access_flags && class.name() == header.name
}

/// Whether the class has the header.
pub(crate) fn has_header(class: &LoadedClass<'_>, header: &Header) -> bool
    ensures { IsTrue result ↔ (header_of class.now.class ≡ header_in header.now) }
{
    has_name(class, header)
        && is_same_super(class.super_name(), header.super_name)
        && has_interfaces(class, header.interfaces)
        && has_fields(class, header.fields)
}
