//! Sites, uses and constants of rows.

ghost use Rattle.std.specs.Prelude.{◌≡◌, ◌<◌, IsSome, IfSome, length};
ghost use Rattle.jv_class.specs.Class.{Class};
ghost use Rattle.jv_meaning_world.specs.Numbers.{HoldsAtNumber};
ghost use Rattle.jv_meaning_typing.specs.Operands.{class_operand, field_operand, method_operand};
ghost use Rattle.jv_link.specs.Seen.{IsSite};

use crate::row::Row;
use jv_link::{Site, Use};
use jv_loader::Classes;
use jv_pool::{MemberName, Pool};

static USES: [(&str, Use); 9] = [
    ("getstatic", Use::Getstatic),
    ("putstatic", Use::Putstatic),
    ("getfield", Use::Getfield),
    ("putfield", Use::Putfield),
    ("invokevirtual", Use::Invokevirtual),
    ("invokespecial", Use::Invokespecial),
    ("invokestatic", Use::Invokestatic),
    ("invokeinterface", Use::Invokeinterface),
    ("new", Use::New),
];

/// The use of an instruction, where it has rules of its own.
pub(crate) fn use_of(name: &str) -> Option<Use> {
    for row in &USES {
        if row.0 == name {
            return Some(row.1);
        }
    }
    None
}

/// The site of a row; its method takes nothing and gives nothing.
pub(crate) fn site_of(classes: &Classes<'_>, row: &Row<'_>) -> Option<Site>
    ensures { IfSome result (IsSite classes.now.world) }
{
    let table = classes.table();
    let class = table.find(row.class.as_bytes())?;
    let method = table
        .classes()
        .get(class)?
        .method_named(row.method.as_bytes(), b"()V".as_slice())?;
    Some(Site { class, method })
}

/// Whether a constant names what a row does.
fn is_named(member: &MemberName<'_>, row: &Row<'_>) -> bool {
    member.class == row.named.as_bytes()
        && member.name == row.name.as_bytes()
        && member.descriptor == row.descriptor.as_bytes()
}

/// The field's constant that a row names.
fn field_in(pool: &Pool<'_>, row: &Row<'_>) -> Option<u16>
    ensures { IfSome result (λ index. (class : Class) → class.constant_pool ≡ pool.now → IsSome (field_operand class index)) }
{
    for index in 0..pool.count() {
        if let Some(field) = pool.fieldref_index(index)
            && is_named(&pool.field_reference(field), row)
        {
            return Some(field.0);
        }
    }
    None
}

/// The constant of a method of a class that a row names.
fn class_method_in(pool: &Pool<'_>, row: &Row<'_>) -> Option<u16>
    ensures { IfSome result (λ index. (class : Class) → class.constant_pool ≡ pool.now → IsSome (method_operand class index)) }
{
    for index in 0..pool.count() {
        if let Some(method) = pool.methodref_index(index)
            && is_named(&pool.method_reference(method), row)
        {
            return Some(method.0);
        }
    }
    None
}

/// The constant of a method of an interface that a row names.
fn interface_method_in(pool: &Pool<'_>, row: &Row<'_>) -> Option<u16>
    ensures { IfSome result (λ index. (class : Class) → class.constant_pool ≡ pool.now → IsSome (method_operand class index)) }
{
    for index in 0..pool.count() {
        if let Some(method) = pool.interface_methodref_index(index)
            && is_named(&pool.interface_method_reference(method), row)
        {
            return Some(method.0);
        }
    }
    None
}

/// The class's constant that a row names.
fn class_in(pool: &Pool<'_>, row: &Row<'_>) -> Option<u16>
    ensures { IfSome result (λ index. (class : Class) → class.constant_pool ≡ pool.now → IsSome (class_operand class index)) }
{
    for index in 0..pool.count() {
        if let Some(class) = pool.class_index(index)
            && pool.class_name(class) == row.named.as_bytes()
        {
            return Some(class.0);
        }
    }
    None
}

/// The method's constant that a row names.
fn method_in(pool: &Pool<'_>, row: &Row<'_>) -> Option<u16>
    ensures { IfSome result (λ index. (class : Class) → class.constant_pool ≡ pool.now → IsSome (method_operand class index)) }
{
    if row.constant == "Methodref" {
        class_method_in(pool, row)
    } else {
        interface_method_in(pool, row)
    }
}

/// The constants of a class of the guest.
fn pool_of<'c, 'a>(classes: &'c Classes<'a>, class: usize) -> Option<&'c Pool<'a>>
    ensures { IfSome result (λ pool. HoldsAtNumber classes.now.world class (λ l. l.class.constant_pool ≡ pool.now)) }
{
    let file = classes.table().classes().get(class)?.file()?;
    Some(file.pool())
}

/// The index of the class's constant that a row names.
pub(crate) fn class_index(classes: &Classes<'_>, class: usize, row: &Row<'_>) -> Option<u16>
    ensures { IfSome result (λ index. HoldsAtNumber classes.now.world class (λ l. IsSome (class_operand l.class index))) }
{
    class_in(pool_of(classes, class)?, row)
}

/// The index of the field's constant that a row names.
pub(crate) fn field_index(classes: &Classes<'_>, class: usize, row: &Row<'_>) -> Option<u16>
    ensures { IfSome result (λ index. HoldsAtNumber classes.now.world class (λ l. IsSome (field_operand l.class index))) }
{
    field_in(pool_of(classes, class)?, row)
}

/// The index of the method's constant that a row names.
pub(crate) fn method_index(classes: &Classes<'_>, class: usize, row: &Row<'_>) -> Option<u16>
    ensures { IfSome result (λ index. HoldsAtNumber classes.now.world class (λ l. IsSome (method_operand l.class index))) }
{
    method_in(pool_of(classes, class)?, row)
}
