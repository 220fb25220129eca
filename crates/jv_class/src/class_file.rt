//! A class file that was read.

ghost use Rattle.std.specs.Prelude.{◌≡◌, ◌≢◌, ◌↔◌, Some, IsSome, IfSome, IsTrue, IfOk, Err, length, map, slice_get};
ghost use Rattle.std.specs.Option.{option_map};
ghost use Rattle.std.specs.List.{All};
ghost use Rattle.jv_pool.specs.Constants.{class_name_at, pool_bytes, utf8_at};
ghost use Rattle.jv_pool.specs.Rules.{IsPool};
ghost use Rattle.jv_class_structure.specs.Attributes.{attributes_keep_rules};
ghost use Rattle.jv_class_structure.specs.Structure.{body_fits};
ghost use Rattle.jv_class_structure.specs.Seen.{seen_index, seen_field, seen_method};
ghost use Rattle.jv_class.specs.ClassFile.{class_name, IsWellFormed};
ghost use Rattle.jv_class.specs.ClassFile.{super_index};
ghost use Rattle.jv_class.specs.Rules.{MembersKeepRules, KeepsClassRules};
ghost use Rattle.jv_class.specs.Inside.Shown.{ShownKeepRules, AreShownSupported};
ghost use Rattle.jv_class_structure.specs.Parts.{fields_of, methods_of};
ghost use Rattle.jv_class.specs.Supported.{IsSupported};
ghost use Rattle.jv_class.specs.Value.{value_number, IsValueNamed, value_of_field};
ghost use Rattle.jv_class.specs.declared.fault.ClassFault.TheVariants.{Version, Format, Unsupported};

use crate::alike::members_are_unlike;
use crate::class_rules::itself_keeps_rules;
use crate::constant_value::{ConstantValue, value_at};
use crate::fault::ClassFault;
use crate::supported::{are_supported_constants, are_supported_fields, are_supported_methods};
use crate::{field_rules, method_rules};
use jv_class_structure::{ClassFlags, Field, Method, Parts};
use jv_pool::{ClassIndex, Pool};
use std::alloc::Global;
use std::marker::Model;

/// A class file that was read (JVMS 4.1). Its texts, code and tables are parts of the file's bytes.
#[derive(Drop)]
pub struct ClassFile<'a> {
    parts: Parts<'a>,
}

impl<'a> Model for ClassFile<'a> {
    ghost use Rattle.jv_class_structure.specs.Structure.{ClassStructure};
    ghost use Rattle.jv_class.specs.ClassFile.{IsWellFormed};
    ghost use Rattle.jv_class.specs.Supported.{IsSupported};

    ghost Value = { ClassStructure };

    ghost view = { λ c. c.parts };

    ghost invariant = { λ c. IsWellFormed c.parts × IsSupported c.parts };
}

/// Whether fields and methods, as they were read, keep the rules of their own.
fn shown_keep_rules(parts: &Parts<'_>) -> bool
    ensures { IsTrue result ↔ ShownKeepRules parts.now }
{
    field_rules::keep_rules(parts.pool(), parts.access_flags(), parts.fields())
        && method_rules::keep_rules(parts)
}

/// Whether fields and methods keep the rules of their own.
fn members_keep_rules(parts: &Parts<'_>) -> bool
    ensures { IsTrue result ↔ MembersKeepRules parts.now }
{
    shown_keep_rules(parts)
}

fn shown_are_supported(parts: &Parts<'_>) -> bool
    ensures { IsTrue result ↔ AreShownSupported parts.now }
{
    are_supported_constants(parts.pool())
        && are_supported_fields(parts.pool(), parts.fields())
        && are_supported_methods(parts)
}

fn is_supported(parts: &Parts<'_>) -> bool
    ensures { IsTrue result ↔ IsSupported parts.now }
{
    shown_are_supported(parts)
}

/// Whether these parts keep the rules and the profile supports them; why not, where they don't.
fn judged(alloc: Global, parts: &Parts<'_>) -> Result<(), ClassFault>
    ensures right { IfOk result (λ _. KeepsClassRules parts.now × IsSupported parts.now) }
    ensures format { result ≡ Err Format → KeepsClassRules parts.now → ⊥ }
    ensures unsupported { result ≡ Err Unsupported → KeepsClassRules parts.now × (IsSupported parts.now → ⊥) }
    ensures version { result ≢ Err Version }
{
    if !itself_keeps_rules(parts) || !members_keep_rules(parts) {
        return Err(ClassFault::Format);
    }
    if !members_are_unlike(alloc, parts)? {
        return Err(ClassFault::Format);
    }
    if !is_supported(parts) {
        return Err(ClassFault::Unsupported);
    }
    Ok(())
}

/// The class of these parts, where they keep the rules and the profile supports them.
pub(crate) fn class_of(alloc: Global, parts: Parts<'_>) -> Result<ClassFile<'_>, ClassFault>
    requires pool { IsPool (pool_bytes parts.constant_pool) parts.constant_pool }
    requires fits { IsTrue (body_fits parts) }
    requires attributes { IsTrue (attributes_keep_rules parts) }
    ensures found { IfOk result (λ c. c ≡ parts.entry) }
    ensures right { IfOk result (λ c. KeepsClassRules c × IsSupported c) }
    ensures format { result ≡ Err Format → KeepsClassRules parts.entry → ⊥ }
    ensures unsupported { result ≡ Err Unsupported → KeepsClassRules parts.entry × (IsSupported parts.entry → ⊥) }
    ensures version { result ≢ Err Version }
{
    match judged(alloc, &parts) {
        Ok(()) => Ok(ClassFile { parts }),
        Err(fault) => Err(fault),
    }
}

/// The field at a place.
fn field_at(parts: &Parts<'_>, place: usize) -> Option<Field>
    ensures { option_map seen_field result ≡ slice_get (fields_of parts.now) place }
{
    match parts.fields().get(place) {
        Some(field) => Some(*field),
        None => None,
    }
}

impl<'a> ClassFile<'a> {
    /// The class is well formed (JVMS 4.1 to 4.7). The call does nothing: a holder of a read class
    /// learns what holds of every one.
    pub fn is_well_formed(&self)
        ensures { IsWellFormed self.now }
    {
        let _parts = &self.parts;
    }

    /// The host's profile supports the class, its code aside. The call does nothing: a holder of a
    /// read class learns what holds of every one.
    pub fn is_supported(&self)
        ensures { IsSupported self.now }
    {
        let _parts = &self.parts;
    }

    /// The major version: 50, 51 or 52; the minor version is 0 (JVMS 4.1).
    pub fn major(&self) -> u16
        ensures { result ≡ self.now.major_version }
    {
        self.parts.major()
    }

    /// The constant pool (JVMS 4.4).
    pub fn pool(&self) -> &Pool<'a>
        ensures { result.now ≡ self.now.constant_pool }
    {
        self.parts.pool()
    }

    /// The access flags (JVMS 4.1, table 4.1-A).
    pub fn access_flags(&self) -> ClassFlags
        ensures { result.0 ≡ self.now.access_flags }
    {
        self.parts.access_flags()
    }

    /// The class itself.
    pub fn this_class(&self) -> ClassIndex
        ensures same { result.0 ≡ self.now.this_class }
        ensures named { IsSome (class_name_at self.now.constant_pool result.0) }
    {
        ClassIndex(self.parts.this_class())
    }

    /// The name of the class, in internal form (JVMS 4.2.1).
    pub fn name(&self) -> &'a [u8]
        ensures { class_name self.now ≡ Some result.now }
    {
        self.parts.pool().class_name(self.this_class())
    }

    /// The superclass; `None` for java/lang/Object alone.
    pub fn super_class(&self) -> Option<ClassIndex>
        ensures same { option_map seen_index result ≡ super_index self.now }
        ensures named { IfSome result (λ index. IsSome (class_name_at self.now.constant_pool index.0)) }
    {
        let index = self.parts.super_class();
        if index == 0 {
            return None;
        }
        Some(ClassIndex(index))
    }

    /// The direct superinterfaces, in the order of the file.
    pub fn interfaces(&self) -> &[ClassIndex]
        ensures same { map seen_index result.now ≡ self.now.interfaces }
        ensures named { All (λ index. IsSome (class_name_at self.now.constant_pool index.0)) result.now }
    {
        self.parts.interfaces()
    }

    /// The fields, in the order of the file (JVMS 4.5).
    pub fn fields(&self) -> &[Field]
        ensures shown { map seen_field result.now ≡ fields_of self.now }
        ensures named { All (λ field. IsSome (utf8_at self.now.constant_pool field.name.0)) result.now }
        ensures described { All (λ field. IsSome (utf8_at self.now.constant_pool field.descriptor.0)) result.now }
    {
        self.parts.fields()
    }

    /// How many methods there are (JVMS 4.6).
    pub fn method_count(&self) -> usize
        ensures { result ≡ length (methods_of self.now) }
    {
        self.parts.method_count()
    }

    /// The field at a place, the first at 0; `None` behind the last.
    pub fn field(&self, place: usize) -> Option<Field>
        ensures shown { option_map seen_field result ≡ slice_get (fields_of self.now) place }
        ensures named { IfSome result (λ field. IsSome (utf8_at self.now.constant_pool field.name.0)) }
        ensures described { IfSome result (λ field. IsSome (utf8_at self.now.constant_pool field.descriptor.0)) }
    {
        field_at(&self.parts, place)
    }

    /// The method at a place, in the order of the file, the first at 0; `None` behind the last.
    pub fn method(&self, place: usize) -> Option<Method<'a>>
        ensures shown { option_map seen_method result ≡ slice_get (methods_of self.now) place }
        ensures named { IfSome result (λ method. IsSome (utf8_at self.now.constant_pool method.name.0)) }
        ensures described { IfSome result (λ method. IsSome (utf8_at self.now.constant_pool method.descriptor.0)) }
    {
        self.parts.method(place)
    }

    /// The constant that the static field at a place has as its value (JVMS 4.7.2); `None` where it
    /// has none, where the field isn't static, and behind the last field.
    pub fn constant_value(&self, place: usize) -> Option<ConstantValue>
        ensures same { option_map value_number result ≡ value_of_field self.now place }
        ensures named { IfSome result (λ value. IsValueNamed self.now.constant_pool value) }
    {
        let Some(field) = field_at(&self.parts, place) else {
            return None;
        };
        let Some(index) = field.constant_value else {
            return None;
        };
        value_at(self.parts.pool(), index)
    }
}
