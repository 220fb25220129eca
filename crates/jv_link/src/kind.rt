//! Which fields and methods an instruction can use (JVMS 6.5).

ghost use Rattle.std.specs.Prelude.{◌≡◌, ◌<◌, Some, IfOk, length};
ghost use Rattle.jv_text.specs.Name.{is_init as is_init_name};
ghost use Rattle.jv_class.specs.Class.{Field, Method};
ghost use Rattle.jv_meaning_world.specs.Overriding.{Declared};
ghost use Rattle.jv_meaning_world.specs.LookUps.{DeclaredField};
ghost use Rattle.jv_lookups.specs.Places.{field_at, method_at, IsFieldPlace};
ghost use Rattle.jv_meaning_typing.specs.Uses.{Site as SiteOfNames};
ghost use Rattle.jv_meaning_typing.specs.Kind.{has_field_kind, can_set_final, can_use_final, has_method_kind};
ghost use Rattle.jv_meaning_typing.specs.MethodResolution.{is_own_init};
ghost use Rattle.jv_link.specs.Seen.{seen_use, seen_site, IsSite, IsMethodTarget};
ghost use Rattle.jv_link.specs.UseRules.{AnswersUsable, AnswersCallable};
ghost use Rattle.jv_link.specs.Inside.Steps.{CanSetFinal, CanUseFinal, IsOwnInit};

use crate::class::same_class;
use crate::error::LinkError;
use crate::member::{field_at, method_at};
use crate::site::{Site, Use};
use crate::target::MethodTarget;
use bitflags::Flags;
use jv_class::is_clinit;
use jv_class_structure::{FieldFlags, MethodFlags};
use jv_loader::{ClassTable, Place};
use jv_text::is_init;

const STATIC_OR_PRIVATE: MethodFlags = MethodFlags(0x000a);

/// Whether an instruction uses a field of this kind, static or not.
#[inline(always)]
fn has_field_kind(how: Use, flags: u16) -> bool
    ensures { (f : Field) → flags ≡ f.access_flags → result ≡ has_field_kind (seen_use how) f }
{
    match how {
        Use::Getstatic | Use::Putstatic => FieldFlags(flags).intersects(FieldFlags::STATIC),
        Use::Getfield | Use::Putfield => !FieldFlags(flags).intersects(FieldFlags::STATIC),
        _ => true,
    }
}

/// Whether an instruction calls a method of this kind.
#[inline(always)]
fn has_method_kind(how: Use, flags: u16) -> bool
    ensures { (m : Method) → flags ≡ m.access_flags → result ≡ has_method_kind (seen_use how) m }
{
    match how {
        Use::Invokestatic => MethodFlags(flags).intersects(MethodFlags::STATIC),
        Use::Invokevirtual | Use::Invokespecial => !MethodFlags(flags).intersects(
            MethodFlags::STATIC,
        ),
        Use::Invokeinterface => !MethodFlags(flags).intersects(STATIC_OR_PRIVATE),
        _ => true,
    }
}

/// The name of the method at a site.
fn name_at<'a>(table: &ClassTable<'a>, site: Site) -> &'a [u8]
    requires { IsSite table.now site }
    ensures { (s : SiteOfNames) → seen_site table.now site ≡ Some s → result.now ≡ s.method.name }
{
    let place = Place {
        class: site.class,
        member: site.method,
    };
    method_at(table, place).name
}

/// Whether an instruction can set a final field that a class declares: putfield in `<init>` of that class,
/// and putstatic in its `<clinit>`.
fn can_set_final(table: &ClassTable<'_>, how: Use, site: Site, by: usize) -> bool
    requires site { IsSite table.now site }
    requires by { by < length table.now }
    ensures { CanSetFinal table.now site how by result }
{
    match how {
        Use::Putfield => is_init(name_at(table, site)) && same_class(table, site.class, by),
        Use::Putstatic => is_clinit(name_at(table, site)) && same_class(table, site.class, by),
        _ => true,
    }
}

/// Whether an instruction can use a field: one that is not final, or that it can set, or that it only reads.
#[inline(always)]
fn can_use_final(table: &ClassTable<'_>, how: Use, site: Site, by: usize, flags: u16) -> bool
    requires site { IsSite table.now site }
    requires by { by < length table.now }
    ensures { CanUseFinal table.now site how by flags result }
{
    !FieldFlags(flags).intersects(FieldFlags::FINAL) || can_set_final(table, how, site, by)
}

/// A field with these access flags, where it is of the instruction's kind, and not final where the instruction can't set it
/// (JVMS 6.5).
///
/// # Errors
///
/// `IncompatibleClassChangeError`, and then `IllegalAccessError`.
#[inline(always)]
pub fn usable_with(
    table: &ClassTable<'_>,
    site: Site,
    how: Use,
    place: Place,
    flags: u16,
) -> Result<Place, LinkError>
    requires site { IsSite table.now site }
    requires place { IsFieldPlace table.now place }
    requires flags { (d : DeclaredField) → field_at table.now place ≡ Some d → flags ≡ d.field.access_flags }
    ensures found { AnswersUsable table.now site how place result }
    ensures place { IfOk result (λ found. found ≡ place) }
{
    if !has_field_kind(how, flags) {
        return Err(LinkError::IncompatibleClassChangeError);
    }
    if !can_use_final(table, how, site, place.class, flags) {
        return Err(LinkError::IllegalAccessError);
    }
    Ok(place)
}

/// A field, where it is of the instruction's kind, and not final where the instruction can't set it.
pub(crate) fn usable_field(
    table: &ClassTable<'_>,
    site: Site,
    how: Use,
    place: Place,
) -> Result<Place, LinkError>
    requires site { IsSite table.now site }
    requires place { IsFieldPlace table.now place }
    ensures found { AnswersUsable table.now site how place result }
    ensures place { IfOk result (IsFieldPlace table.now) }
{
    let field = field_at(table, place);
    usable_with(table, site, how, place, field.access_flags)
}

/// Whether the named class declares an `<init>` itself that invokespecial calls.
#[inline(always)]
fn is_own_init(table: &ClassTable<'_>, how: Use, target: MethodTarget, is_init: bool) -> bool
    requires { IsMethodTarget table.now target }
    ensures { IsOwnInit table.now target how is_init result }
{
    match how {
        Use::Invokespecial => { !is_init || same_class(table, target.named, target.declared.class) }
        _ => true,
    }
}

/// A method with these access flags, where an `<init>`, if it is one, is that of the named class, and the method is of the
/// instruction's kind (JVMS 6.5).
///
/// # Errors
///
/// `NoSuchMethodError`, and then `IncompatibleClassChangeError`.
#[inline(always)]
pub fn callable_with(
    table: &ClassTable<'_>,
    how: Use,
    target: MethodTarget,
    flags: u16,
    is_init: bool,
) -> Result<MethodTarget, LinkError>
    requires target { IsMethodTarget table.now target }
    requires flags { (d : Declared) → method_at table.now target.declared ≡ Some d → flags ≡ d.method.access_flags }
    requires init { (d : Declared) → method_at table.now target.declared ≡ Some d → is_init ≡ is_init_name d.method.name }
    ensures found { AnswersCallable table.now target how result }
    ensures target { IfOk result (λ found. found ≡ target) }
{
    if !is_own_init(table, how, target, is_init) {
        return Err(LinkError::NoSuchMethodError);
    }
    if !has_method_kind(how, flags) {
        return Err(LinkError::IncompatibleClassChangeError);
    }
    Ok(target)
}

/// A method, where an `<init>` is that of the named class, and the method is of the instruction's kind.
pub(crate) fn callable_method(
    table: &ClassTable<'_>,
    how: Use,
    target: MethodTarget,
) -> Result<MethodTarget, LinkError>
    requires { IsMethodTarget table.now target }
    ensures found { AnswersCallable table.now target how result }
    ensures target { IfOk result (IsMethodTarget table.now) }
{
    let method = method_at(table, target.declared);
    callable_with(
        table,
        how,
        target,
        method.access_flags,
        is_init(method.name),
    )
}
