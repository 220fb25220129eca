//! What is at fault among the rules on names, types and flags (JVMS 4.1, 4.5, 4.6, 4.7.2).

ghost use Rattle.std.specs.Prelude.{◌≡◌, ◌↔◌, IfSome, IsTrue, slice_get};
ghost use Rattle.std.specs.Option.{option_map};
ghost use Rattle.jv_class_structure.specs.Parts.{fields_of, methods_of};
ghost use Rattle.jv_class_structure.specs.Seen.{seen_field};
ghost use Rattle.jv_class.specs.Rules.{KeepsClassRules};
ghost use Rattle.jv_class.specs.Inside.Shown.{KeepsFieldShown, KeepsMethodShown};
ghost use Rattle.jv_malformed.specs.Part.{IsFaultyRules};
ghost use Rattle.jv_malformed.specs.Inside.Behind.{IsFoundAmong};

use jv_class::{field_rules, itself_keeps_rules, method_rules};
use jv_class_structure::{Field, Parts};

/// What breaks a rule on names, types or flags. Fields and methods go by their places in the file, the first at 0.
#[derive(Clone, Copy)]
pub enum FaultyRules {
    /// The class itself: its flags, its name, its superclass or its interfaces (4.1).
    Class,
    /// The field at a place: its name, its descriptor, its flags or its constant (4.5, 4.7.2).
    Field(usize),
    /// The method at a place: its name, its descriptor, its flags, or whether it has code (4.6, 4.7.3).
    Method(usize),
    /// Two fields or two methods, which have the same name and descriptor (4.5, 4.6).
    Alike,
}

/// The field at a place.
fn field_at(parts: &Parts<'_>, place: usize) -> Option<Field>
    ensures { option_map seen_field result ≡ slice_get (fields_of parts.now) place }
{
    match parts.fields().get(place) {
        Some(field) => Some(*field),
        None => None,
    }
}

/// Whether the field at a place keeps its rules; also where there is none.
fn field_keeps_rules(parts: &Parts<'_>, place: usize) -> bool
    ensures { IsTrue result ↔ IfSome (slice_get (fields_of parts.now) place)
        (KeepsFieldShown parts.now.constant_pool parts.now.access_flags) }
{
    match field_at(parts, place) {
        Some(field) => field_rules::keeps_rules(parts.pool(), parts.access_flags(), field),
        None => true,
    }
}

/// The place of the first field that breaks a rule.
fn first_field(parts: &Parts<'_>) -> Option<usize>
    ensures { IsFoundAmong (KeepsFieldShown parts.now.constant_pool parts.now.access_flags) (fields_of parts.now) result }
{
    for place in 0..parts.fields().len() {
        if !field_keeps_rules(parts, place) {
            return Some(place);
        }
    }
    None
}

/// The place of the first method that breaks a rule.
fn first_method(parts: &Parts<'_>) -> Option<usize>
    ensures { IsFoundAmong (KeepsMethodShown parts.now.constant_pool parts.now.major_version parts.now.access_flags)
        (methods_of parts.now) result }
{
    for place in 0..parts.method_count() {
        if !method_rules::keeps_rules_at(parts, place) {
            return Some(place);
        }
    }
    None
}

/// What breaks a rule of a structure that does not keep them all. Each field and each method is looked at once.
pub(crate) fn fault_of_rules(parts: &Parts<'_>) -> FaultyRules
    ensures { (KeepsClassRules parts.now → ⊥) → IsFaultyRules parts.now result }
{
    if !itself_keeps_rules(parts) {
        return FaultyRules::Class;
    }
    if let Some(place) = first_field(parts) {
        return FaultyRules::Field(place);
    }
    if let Some(place) = first_method(parts) {
        return FaultyRules::Method(place);
    }
    FaultyRules::Alike
}
