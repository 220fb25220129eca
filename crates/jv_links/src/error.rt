//! Why the reference of an instruction doesn't resolve.

ghost use Rattle.std.specs.Prelude.{◌≡◌};
ghost use Rattle.std.specs.Option.{option_map};
ghost use Rattle.jv_code.specs.Insns.{instruction_of};
ghost use Rattle.jv_link.specs.Answers.{HoldsAtSite};
ghost use Rattle.jv_link.specs.Seen.{IsSite, error_of, seen_use};
ghost use Rattle.jv_links.specs.Inside.Shown.{names_method};
ghost use Rattle.jv_links.specs.References.{class_error, field_error, field_use, invoke_use, link_error, method_error};

use jv_code::{FieldAccess, Insn, Invocation};
use jv_link::{LinkError, Site, Use, resolve_class, resolve_field, resolve_method};
use jv_loader::Classes;
use jv_pool::Pool;

/// Why the class that the constant at an index names doesn't resolve, where it doesn't.
fn class_error(
    classes: &Classes<'_>,
    pool: &Pool<'_>,
    site: Site,
    how: Option<Use>,
    index: u16,
) -> Option<LinkError>
    requires site { IsSite classes.now.world site }
    requires pool { HoldsAtSite classes.now.world site (λ s. pool.now ≡ s.by.class.constant_pool) }
    ensures { HoldsAtSite classes.now.world site (λ s.
        option_map error_of result ≡ class_error classes.now.world s (option_map seen_use how) index) }
{
    let Some(named) = pool.class_index(index) else {
        return None;
    };
    match resolve_class(classes, site, how, pool.class_name(named)) {
        Ok(_) => None,
        Err(error) => Some(error),
    }
}

/// Why the field that the constant at an index names doesn't resolve, where it doesn't.
fn field_error(
    classes: &Classes<'_>,
    pool: &Pool<'_>,
    site: Site,
    how: Use,
    index: u16,
) -> Option<LinkError>
    requires site { IsSite classes.now.world site }
    requires pool { HoldsAtSite classes.now.world site (λ s. pool.now ≡ s.by.class.constant_pool) }
    ensures { HoldsAtSite classes.now.world site (λ s.
        option_map error_of result ≡ field_error classes.now.world s (seen_use how) index) }
{
    let Some(_) = pool.fieldref_index(index) else {
        return None;
    };
    match resolve_field(classes, site, how, index) {
        Ok(_) => None,
        Err(error) => Some(error),
    }
}

/// Whether the constant at an index names a method.
fn names_method(pool: &Pool<'_>, index: u16) -> bool
    ensures { result ≡ names_method pool.now index }
{
    pool.methodref_index(index).is_some() || pool.interface_methodref_index(index).is_some()
}

/// Why the method that the constant at an index names doesn't resolve, where it doesn't.
fn method_error(
    classes: &Classes<'_>,
    pool: &Pool<'_>,
    site: Site,
    how: Use,
    index: u16,
) -> Option<LinkError>
    requires site { IsSite classes.now.world site }
    requires pool { HoldsAtSite classes.now.world site (λ s. pool.now ≡ s.by.class.constant_pool) }
    ensures { HoldsAtSite classes.now.world site (λ s.
        option_map error_of result ≡ method_error classes.now.world s (seen_use how) index) }
{
    if !names_method(pool, index) {
        return None;
    }
    match resolve_method(classes, site, how, index) {
        Ok(_) => None,
        Err(error) => Some(error),
    }
}

/// How an instruction uses its field.
fn field_use(how: FieldAccess) -> Use
    ensures { seen_use result ≡ field_use how }
{
    match how {
        FieldAccess::GetStatic => Use::Getstatic,
        FieldAccess::PutStatic => Use::Putstatic,
        FieldAccess::GetField => Use::Getfield,
        FieldAccess::PutField => Use::Putfield,
    }
}

/// How an instruction calls its method.
fn invoke_use(how: Invocation) -> Use
    ensures { seen_use result ≡ invoke_use how }
{
    match how {
        Invocation::Virtual => Use::Invokevirtual,
        Invocation::Special => Use::Invokespecial,
        Invocation::Static => Use::Invokestatic,
    }
}

/// Why the reference of an instruction at a site doesn't resolve, where it has one that doesn't (JVMS 5.4.3, 6.5). The pool is that of the
/// site's class.
pub(crate) fn link_error(
    classes: &Classes<'_>,
    pool: &Pool<'_>,
    site: Site,
    insn: &Insn<&[u8]>,
) -> Option<LinkError>
    requires site { IsSite classes.now.world site }
    requires pool { HoldsAtSite classes.now.world site (λ s. pool.now ≡ s.by.class.constant_pool) }
    ensures { HoldsAtSite classes.now.world site (λ s.
        option_map error_of result ≡ link_error classes.now.world s (instruction_of insn.now)) }
{
    match *insn {
        Insn::Field(how, index) => field_error(classes, pool, site, field_use(how), index),
        Insn::Invoke(how, index) => method_error(classes, pool, site, invoke_use(how), index),
        Insn::InvokeInterface(index, _) => {
            method_error(classes, pool, site, Use::Invokeinterface, index)
        }
        Insn::New(index) => class_error(classes, pool, site, Some(Use::New), index),
        Insn::NewReferenceArray(index) => class_error(classes, pool, site, None, index),
        Insn::NewMultiArray(index, _) => class_error(classes, pool, site, None, index),
        Insn::CheckCast(index) => class_error(classes, pool, site, None, index),
        Insn::InstanceOf(index) => class_error(classes, pool, site, None, index),
        _ => None,
    }
}
