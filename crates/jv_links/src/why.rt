//! Why an error is thrown, where a sentence says it.

ghost use Rattle.std.specs.Prelude.{◌≡◌, Some};
ghost use Rattle.jv_link.specs.Seen.{error_of};
ghost use Rattle.jv_links.specs.Inside.Shown.{why_shown};
ghost use Rattle.jv_links.specs.Text.{abstract_text, class_missing, method_referred, missing_text, no_field_text, no_method_text, why_text};
ghost use Rattle.jv_pool.specs.Constants.{class_name_at, field_reference_at};
ghost use Rattle.jv_pool.specs.Seen.{seen_member};

use crate::referred::{class_missing, class_named, field_named, method_named};
use jv_link::LinkError;
use jv_loader::Classes;
use jv_pool::{MemberName, Pool};
use jv_program_base::Escaped;
use std::fmt;

/// Why an error is thrown, as it is printed behind the error's name.
#[derive(Clone, Copy)]
pub(crate) enum Why<'a> {
    /// It isn't said.
    Unsaid,
    /// There is no class of this name.
    NoClass(&'a [u8]),
    /// There is no such field.
    NoField(MemberName<'a>),
    /// There is no such method.
    NoMethod(MemberName<'a>),
    /// No objects are made of this class.
    Abstract(&'a [u8]),
}

/// That a field is not there, as it is printed.
#[derive(Clone, Copy)]
struct NoField<'a>(MemberName<'a>);

/// That a method is not there, as it is printed.
#[derive(Clone, Copy)]
struct NoMethod<'a>(MemberName<'a>);

/// Why a class is not there.
fn why_no_class<'a>(classes: &Classes<'_>, pool: &Pool<'a>, index: u16) -> Why<'a>
    ensures { why_shown result ≡ missing_text (class_missing classes.now.world pool.now index) }
{
    match class_missing(classes, pool, index) {
        Some(name) => Why::NoClass(name),
        None => Why::Unsaid,
    }
}

/// Why a field is not there.
fn why_no_field<'a>(pool: &Pool<'a>, index: u16) -> Why<'a>
    ensures { why_shown result ≡ no_field_text (field_reference_at pool.now index) }
{
    match field_named(pool, index) {
        Some(field) => Why::NoField(field),
        None => Why::Unsaid,
    }
}

/// Why a method is not there.
fn why_no_method<'a>(pool: &Pool<'a>, index: u16) -> Why<'a>
    ensures { why_shown result ≡ no_method_text (method_referred pool.now index) }
{
    match method_named(pool, index) {
        Some(method) => Why::NoMethod(method),
        None => Why::Unsaid,
    }
}

/// Why no object is made.
fn why_abstract<'a>(pool: &Pool<'a>, index: u16) -> Why<'a>
    ensures { why_shown result ≡ abstract_text (class_name_at pool.now index) }
{
    match class_named(pool, index) {
        Some(name) => Why::Abstract(name),
        None => Why::Unsaid,
    }
}

/// Why the reference of the constant at an index ends in an error.
pub(crate) fn why_of<'a>(
    classes: &Classes<'_>,
    pool: &Pool<'a>,
    index: u16,
    error: LinkError,
) -> Why<'a>
    ensures { why_shown result ≡ why_text classes.now.world pool.now index (error_of error) }
{
    match error {
        LinkError::NoClassDefFoundError => why_no_class(classes, pool, index),
        LinkError::NoSuchFieldError => why_no_field(pool, index),
        LinkError::NoSuchMethodError => why_no_method(pool, index),
        LinkError::InstantiationError => why_abstract(pool, index),
        _ => Why::Unsaid,
    }
}

impl fmt::Display for NoField<'_> {
    ghost output = { λ shown. Some (no_field_text (Some (seen_member shown.0))) };

    fn fmt<W: fmt::Write>(&self, f: &mut fmt::Formatter<W>) -> fmt::Result {
        let class = Escaped(self.0.class);
        let name = Escaped(self.0.name);
        let descriptor = Escaped(self.0.descriptor);
        write!(f, ": {class} has no field {name}:{descriptor}")
    }
}

impl fmt::Display for NoMethod<'_> {
    ghost output = { λ shown. Some (no_method_text (Some (seen_member shown.0))) };

    fn fmt<W: fmt::Write>(&self, f: &mut fmt::Formatter<W>) -> fmt::Result {
        let class = Escaped(self.0.class);
        let name = Escaped(self.0.name);
        let descriptor = Escaped(self.0.descriptor);
        write!(f, ": {class} has no method {name}{descriptor}")
    }
}

impl fmt::Display for Why<'_> {
    ghost output = { λ why. Some (why_shown why) };

    fn fmt<W: fmt::Write>(&self, f: &mut fmt::Formatter<W>) -> fmt::Result {
        match *self {
            Why::Unsaid => Ok(()),
            Why::NoClass(name) => {
                let name = Escaped(name);
                write!(
                    f,
                    ": {name} is neither among the guest's classes nor the system's"
                )
            }
            Why::NoField(field) => {
                let shown = NoField(field);
                write!(f, "{shown}")
            }
            Why::NoMethod(method) => {
                let shown = NoMethod(method);
                write!(f, "{shown}")
            }
            Why::Abstract(name) => {
                let name = Escaped(name);
                write!(f, ": {name} is an interface or abstract")
            }
        }
    }
}
