//! Classes that break a final method of a superclass.

ghost use Rattle.std.specs.Prelude.{◌≡◌, ◌*◌, ◌<◌, ◌≤◌, IfOk, length, map};
ghost use Rattle.std.specs.List.{list_any};
ghost use Rattle.jv_class.specs.Class.{EachIsNamed};
ghost use Rattle.jv_meaning_world.specs.Numbers.{classes_at, AreNumbers};
ghost use Rattle.jv_lookups.specs.Packages.{AreNumbered};
ghost use Rattle.jv_lookups.specs.Finals.{declares_final, AreUnlike, breaks_final_at, PassesWith};
ghost use Rattle.jv_lookups.specs.FinalKeys.{TellsFinals};
ghost use Rattle.jv_lookups.specs.Inside.Fronts.{AreNamed};
ghost use Rattle.jv_lookups.specs.Inside.Overridden.{breaks_final_by};

use crate::above::{breaks_final_by, up_to_marked};
use crate::keys::FinalKeys;
use crate::marks::Marks;
use crate::member::{NamedMethod, is_final_instance};
use jv_class::one_of_each_name;
use jv_classes::LoadedClass;
use std::alloc::{AllocError, Global};

/// Whether the class declares a final instance method.
fn declares_final(class: &LoadedClass<'_>) -> bool
    ensures { result ≡ declares_final class.now }
{
    for place in 0..class.method_count() {
        if is_final_instance(&class.method(place)) {
            return true;
        }
    }
    false
}

/// For each class, whether it declares a final instance method (JVMS 4.6).
///
/// # Errors
///
/// Where the host had no memory for them.
pub fn final_declarers(alloc: Global, classes: &[LoadedClass<'_>]) -> Result<Vec<bool>, AllocError>
    ensures { IfOk result (λ finals. finals.items ≡ map declares_final classes.now) }
{
    classes
        .iter()
        .map(|class| declares_final(class))
        .collect(alloc)
}

/// The class has one method of a name and a descriptor at most (JVMS 4.6). The call does nothing.
fn is_named(class: &LoadedClass<'_>)
    ensures { EachIsNamed class.now.class }
{
    one_of_each_name();
    if let Some(file) = class.file() {
        file.is_well_formed();
    }
}

/// So have the classes with these numbers.
fn are_named(classes: &[LoadedClass<'_>], chain: &[u16])
    requires { AreNumbers classes.now chain.now }
    ensures { AreNamed (classes_at classes.now chain.now) }
{
    for place in chain {
        is_named(&classes[*place as usize]);
    }
}

/// Whether a method of the class overrides a final one of these superclasses.
fn some_overrides_final(
    classes: &[LoadedClass<'_>],
    keys: &FinalKeys,
    packages: &[usize],
    marks: &mut Marks,
    asked: &mut Marks,
    of: usize,
    chain: &[u16],
) -> bool
    requires of { of < length classes.now }
    requires chain { AreNumbers classes.now chain.now }
    requires keys { TellsFinals classes.now keys.now }
    requires packages { AreNumbered classes.now packages.now }
    requires marks { 2 * length classes.now ≤ length marks.old }
    requires asked { 2 * length classes.now ≤ length asked.old }
    ensures broken { PassesWith classes.now of chain.now (λ l up. list_any (breaks_final_by l up) l.class.methods) result }
    ensures marks { length marks.new ≡ length marks.old }
    ensures asked { length asked.new ≡ length asked.old }
{
    let class = &classes[of];
    for place in 0..class.method_count() {
        if breaks_final_by(
            classes,
            keys,
            packages,
            marks,
            asked,
            of,
            chain,
            &NamedMethod {
                method: &class.method(place),
                name: &class.method_name(place),
                descriptor: &class.method_descriptor(place),
            },
        ) {
            return true;
        }
    }
    false
}

/// Whether the class overrides a final method of a superclass (JVMS 4.10, 5.4.5); the superclasses are
/// those of the chain, the direct one first. `finals` says which classes declare a final instance
/// method, `keys` which of them may declare which method that others can override, `packages` has the
/// number of each class's package, and `marks` and `asked` are room for such numbers.
///
/// Where no superclass declares a final method it looks at no method. Else, for each method of the class that can override, it goes down
/// the chain by numbers alone to the first superclass that declares it final, and looks it up in those that may, in a few at most: behind
/// these, it goes to the first that may. Where it comes to one, it goes twice over the superclasses up to there by numbers alone, and looks
/// the method up only in one that is in one package with one, itself or further up, that may declare it final: where the method overrides
/// another one in that package so far, in each that may declare it final, and else in each that may declare it public or protected.
pub fn breaks_final(
    classes: &[LoadedClass<'_>],
    finals: &[bool],
    keys: &FinalKeys,
    packages: &[usize],
    marks: &mut Marks,
    asked: &mut Marks,
    of: usize,
    chain: &[u16],
) -> bool
    requires of { of < length classes.now }
    requires chain { AreNumbers classes.now chain.now }
    requires unlike { AreUnlike classes.now of chain.now }
    requires finals { finals.now ≡ map declares_final classes.now }
    requires keys { TellsFinals classes.now keys.now }
    requires packages { AreNumbered classes.now packages.now }
    requires marks { 2 * length classes.now ≤ length marks.old }
    requires asked { 2 * length classes.now ≤ length asked.old }
    ensures broken { result ≡ breaks_final_at classes.now of chain.now }
    ensures marks { length marks.new ≡ length marks.old }
    ensures asked { length asked.new ≡ length asked.old }
{
    let chain = up_to_marked(finals, chain);
    if chain.is_empty() {
        return false;
    }
    is_named(&classes[of]);
    are_named(classes, chain);
    some_overrides_final(classes, keys, packages, marks, asked, of, chain)
}
