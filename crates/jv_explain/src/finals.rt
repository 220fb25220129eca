//! Which final method of a superclass a class overrides.

ghost use Rattle.std.specs.Prelude.{◌≡◌, ◌<◌, Some, IfOk, IfSome, length, slice_get, string_bytes};
ghost use Rattle.std.specs.Option.{IsSomeAnd, option_and_then};
ghost use Rattle.jv_meaning_world.specs.Above.{superclasses};
ghost use Rattle.jv_meaning_world.specs.Numbers.{HoldsAtNumber};
ghost use Rattle.jv_meaning_world.specs.Overriding.{overrides_itself};
ghost use Rattle.jv_meaning_world.specs.Verdicts.{declared_by};
ghost use Rattle.jv_explain.specs.Finals.{breaks_itself, broken_among, broken_in, broken_text, finals_text};
ghost use Rattle.jv_explain.specs.Inside.Overridden.{overridden_line, overridden_text};
ghost use Rattle.jv_lookups.specs.Inside.Steps.{as_method};

use bitflags::Flags;
use jv_class_structure::MethodFlags;
use jv_classes::{LoadedClass, Member};
use jv_loader::{ClassTable, LoadVerdict};
use jv_lookups::{is_final_instance, is_instance, is_overridden};
use jv_program_base::Escaped;
use std::alloc::{AllocError, Global};
use std::fmt;

/// A final method of a superclass that is overridden, with the name of that class.
#[derive(Clone, Copy)]
pub(crate) struct Overridden<'a> {
    method: Member<'a>,
    class: &'a [u8],
}

impl fmt::Display for Overridden<'_> {
    ghost output = { λ shown. Some (overridden_line shown) };

    fn fmt<W: fmt::Write>(&self, f: &mut fmt::Formatter<W>) -> fmt::Result {
        let name = Escaped(self.method.name);
        let descriptor = Escaped(self.method.descriptor);
        let class = Escaped(self.class);
        write!(
            f,
            "  method {name}{descriptor} overrides a final one of {class}\n"
        )
    }
}

/// Whether a method of a class overrides one of a superclass itself, which has its name and descriptor.
fn overrides_itself(
    own: &LoadedClass<'_>,
    method: &Member<'_>,
    of: &LoadedClass<'_>,
    other: &Member<'_>,
) -> bool
    ensures { result ≡ overrides_itself (declared_by own.now (as_method method.now)) (declared_by of.now (as_method other.now)) }
{
    !MethodFlags(method.access_flags).intersects(MethodFlags::PRIVATE)
        && is_overridden(own.same_package(of), other.access_flags)
}

/// Whether the method at a place of a superclass is final, and the class overrides it itself.
fn breaks_at(own: &LoadedClass<'_>, of: &LoadedClass<'_>, place: usize) -> bool
    requires { place < length of.now.class.methods }
    ensures { IsSomeAnd (slice_get of.now.class.methods place) (λ m. result ≡ breaks_itself own.now of.now m) }
{
    let other = of.method(place);
    if !is_final_instance(&other) {
        return false;
    }
    let Some(at) = own.method_named(other.name, other.descriptor) else {
        return false;
    };
    let method = own.method(at);
    if !is_instance(&method) {
        return false;
    }
    overrides_itself(own, &method, of, &other)
}

/// The place of the first final method of a superclass that the class overrides itself.
fn broken_in(own: &LoadedClass<'_>, of: &LoadedClass<'_>) -> Option<usize>
    ensures found { option_and_then (slice_get of.now.class.methods) result ≡ broken_in own.now of.now }
    ensures within { IfSome result (λ place. place < length of.now.class.methods) }
{
    for place in 0..of.method_count() {
        if breaks_at(own, of, place) {
            return Some(place);
        }
    }
    None
}

/// The first final method of a superclass that a class overrides itself, where there is one.
fn first_broken<'t>(table: &'t ClassTable<'_>, class: usize) -> Option<Overridden<'t>>
    requires { class < length table.now }
    ensures { HoldsAtNumber table.now class (λ l. overridden_text result
        ≡ broken_text (broken_among l (superclasses table.now l.class))) }
{
    let all = table.classes();
    let own = &all[class];
    let above = table.superclasses(class);
    for k in 0..above.len() {
        let number = usize::from(above[k]);
        let of = &all[number];
        if let Some(place) = broken_in(own, of) {
            return Some(Overridden {
                method: of.method(place),
                class: of.name(),
            });
        }
    }
    None
}

/// What is said of the final method that a class overrides, where a verdict on it is about one.
pub(crate) fn finals_told(
    alloc: Global,
    table: &ClassTable<'_>,
    class: usize,
    why: LoadVerdict,
) -> Result<String, AllocError>
    requires { class < length table.now }
    ensures { IfOk result (λ text. HoldsAtNumber table.now class (λ l. string_bytes text ≡ finals_text table.now why l)) }
{
    let LoadVerdict::FinalBroken = why else {
        return Ok(String::new(alloc));
    };
    match first_broken(table, class) {
        Some(shown) => shown.to_string(alloc),
        None => Ok(String::new(alloc)),
    }
}
