//! The fields of a class's objects, one by one.

ghost use Rattle.std.specs.Prelude.{◌≡◌, ◌≤◌, ◌<◌, ◌*◌, IfOk, OnOk, IsTrue, codes, length, vec_len};
ghost use Rattle.std.specs.Str.{bytes_eq};
ghost use Rattle.jv_meaning_world.specs.Verdicts.{is_loadable};
ghost use Rattle.jv_meaning_world.specs.Numbers.{HoldsAtNumber};
ghost use Rattle.jv_lookups.specs.Places.{field_at, IsFieldPlace};
ghost use Rattle.jv_meaning_typing.specs.Layout.{instance_fields};
ghost use Rattle.jv_link.specs.Layouts.{IsLaid, LaysField, LaysFields, IsLayoutOf};

use crate::layout::{Layout, add_field};
use crate::member::{class_at, field_at};
use bitflags::Flags;
use jv_class_structure::FieldFlags;
use jv_loader::{ClassTable, Classes, OutOfMemory, Place};
use std::alloc::{AllocError, Global};

/// Whether a field of this type takes two words.
fn is_long(descriptor: &[u8]) -> bool
    ensures { result ≡ bytes_eq descriptor.now (codes "J") }
{
    descriptor == b"J".as_slice()
}

/// Adds a field of a class, where it is an instance field.
fn add_own_field(
    table: &ClassTable<'_>,
    place: Place,
    layout: &mut Layout,
) -> Result<(), AllocError>
    requires place { IsFieldPlace table.now place }
    requires bound { layout.old.words ≤ 2 * vec_len layout.old.fields }
    ensures laid { OnOk result (LaysField table.now place layout.old layout.new) }
    ensures bound { layout.new.words ≤ 2 * vec_len layout.new.fields }
{
    let field = field_at(table, place);
    if FieldFlags(field.access_flags).intersects(FieldFlags::STATIC) {
        return Ok(());
    }
    add_field(layout, place, is_long(field.descriptor))?;
    Ok(())
}

/// Adds the instance fields of a class, in the order of its file.
fn add_class(table: &ClassTable<'_>, class: usize, layout: &mut Layout) -> Result<(), AllocError>
    requires class { class < length table.now }
    requires bound { layout.old.words ≤ 2 * vec_len layout.old.fields }
    ensures laid { OnOk result (LaysFields table.now class layout.old layout.new) }
    ensures bound { layout.new.words ≤ 2 * vec_len layout.new.fields }
{
    for member in 0..class_at(table, class).field_count() {
        add_own_field(table, Place { class, member }, layout)?;
    }
    Ok(())
}

/// The layout of a class of a table.
fn layout_in(alloc: Global, table: &ClassTable<'_>, class: usize) -> Result<Layout, AllocError>
    requires { class < length table.now }
    ensures { IfOk result (λ layout. HoldsAtNumber table.now class (λ l. IsLaid table.now layout (instance_fields table.now l))) }
{
    let numbers = table.superclasses(class);
    let mut layout = Layout {
        fields: Vec::new(alloc),
        words: 0,
    };
    for step in 0..numbers.len() {
        add_class(
            table,
            numbers[numbers.len() - 1 - step] as usize,
            &mut layout,
        )?;
    }
    add_class(table, class, &mut layout)?;
    Ok(layout)
}

/// Where the objects of a class that can be loaded keep their fields (JVMS 2.7, own).
///
/// # Errors
///
/// Where the host had no memory for the list.
pub fn layout_of(alloc: Global, classes: &Classes<'_>, class: usize) -> Result<Layout, OutOfMemory>
    requires class { class < length classes.now.world }
    requires loadable { HoldsAtNumber classes.now.world class (λ l. IsTrue (is_loadable classes.now.world l)) }
    ensures { IfOk result (IsLayoutOf classes.now.world class) }
{
    Ok(layout_in(alloc, classes.table(), class)?)
}
