//! The rules that a field keeps (JVMS 4.5, 4.7.2).

ghost use Rattle.std.specs.Prelude.{◌≡◌, ◌↔◌, ◌&&◌, IsTrue, map};
ghost use Rattle.std.specs.List.{All};
ghost use Rattle.jv_pool.specs.Constants.{NameAndDescriptor};
ghost use Rattle.jv_pool.specs.Facts.{AreFacts};
ghost use Rattle.jv_class_structure.specs.Flags.{has, acc_interface};
ghost use Rattle.jv_class_structure.specs.Seen.{seen_field};
ghost use Rattle.jv_class.specs.Rules.{interface_field_flags_keep_rules, field_flags_keep_rules, takes, value_keeps_rules, KeepsRulesAsField};
ghost use Rattle.jv_class.specs.Inside.Shown.{KeepsFieldShown};

use crate::flags::{are_not_final_and_volatile, are_of_interface_field, have_one_visibility};
use bitflags::Flags;
use jv_class_structure::{ClassFlags, Field, FieldFlags};
use jv_pool::{ConstantValueKind, FieldFacts, Kind, Pool, TextFacts};

fn flags_keep_rules_in(in_interface: bool, flags: FieldFlags) -> bool
    ensures { result ≡ interface_field_flags_keep_rules in_interface flags.0 }
{
    if in_interface {
        are_of_interface_field(flags)
    } else {
        true
    }
}

fn flags_keep_rules(in_interface: bool, flags: FieldFlags) -> bool
    ensures { result ≡ field_flags_keep_rules in_interface flags.0 }
{
    have_one_visibility(flags.0)
        && are_not_final_and_volatile(flags)
        && flags_keep_rules_in(in_interface, flags)
}

/// Whether a static field whose type asks for such a value may have a constant of that kind.
fn takes(value: ConstantValueKind, constant: Option<Kind>) -> bool
    ensures { result ≡ takes value constant }
{
    match value {
        ConstantValueKind::Integer => matches!(constant, Some(Kind::Integer)),
        ConstantValueKind::Long => matches!(constant, Some(Kind::Long)),
        ConstantValueKind::String => matches!(constant, Some(Kind::String)),
        ConstantValueKind::Floating => true,
        ConstantValueKind::Nothing => false,
    }
}

fn value_keeps_rules(pool: &Pool<'_>, value: ConstantValueKind, constant: Option<u16>) -> bool
    ensures { result ≡ value_keeps_rules pool.now value constant }
{
    match constant {
        Some(index) => takes(value, pool.kind(index)),
        None => true,
    }
}

/// Whether a field with a name and a type of which this is known keeps the rules.
fn keeps_rules_by_facts(
    pool: &Pool<'_>,
    class_flags: ClassFlags,
    field: Field,
    name: TextFacts,
    facts: FieldFacts,
) -> bool
    ensures { result ≡ (name.unqualified && field_flags_keep_rules (has class_flags.0 acc_interface) field.access_flags.0
        && value_keeps_rules pool.now facts.value field.constant_value) }
{
    name.unqualified
        && flags_keep_rules(
            class_flags.intersects(ClassFlags::INTERFACE),
            field.access_flags,
        )
        && value_keeps_rules(pool, facts.value, field.constant_value)
}

/// Whether a field with texts of which this is known keeps the rules.
fn field_keeps_rules(
    pool: &Pool<'_>,
    class_flags: ClassFlags,
    field: Field,
    name: TextFacts,
    descriptor: TextFacts,
) -> bool
    ensures { (texts : NameAndDescriptor) → AreFacts texts.name name → AreFacts texts.descriptor descriptor
        → (IsTrue result ↔ KeepsRulesAsField pool.now class_flags.0 field.access_flags.0 field.constant_value texts) }
{
    match descriptor.field {
        Some(facts) => keeps_rules_by_facts(pool, class_flags, field, name, facts),
        None => false,
    }
}

/// Whether a field keeps the rules, in a class with these flags.
pub fn keeps_rules(pool: &Pool<'_>, class_flags: ClassFlags, field: Field) -> bool
    ensures { IsTrue result ↔ KeepsFieldShown pool.now class_flags.0 (seen_field field) }
{
    let Some(name) = pool.utf8_index(field.name.0) else {
        return false;
    };
    let Some(descriptor) = pool.utf8_index(field.descriptor.0) else {
        return false;
    };
    field_keeps_rules(
        pool,
        class_flags,
        field,
        pool.facts(name),
        pool.facts(descriptor),
    )
}

/// Whether each field keeps the rules.
pub(crate) fn keep_rules(pool: &Pool<'_>, class_flags: ClassFlags, fields: &[Field]) -> bool
    ensures { IsTrue result ↔ All (KeepsFieldShown pool.now class_flags.0) (map seen_field fields.now) }
{
    each_keeps_rules(pool, class_flags, fields)
}

/// The same of each as it was read.
fn each_keeps_rules(pool: &Pool<'_>, class_flags: ClassFlags, fields: &[Field]) -> bool
    ensures { IsTrue result ↔ All (λ x. KeepsFieldShown pool.now class_flags.0 (seen_field x)) fields.now }
{
    fields
        .iter()
        .all(|field| keeps_rules(pool, class_flags, *field))
}
