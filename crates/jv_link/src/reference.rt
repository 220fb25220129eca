//! What constants name (JVMS 4.4.2, 5.1).

ghost use Rattle.std.specs.Prelude.{◌≡◌, ◌<◌, [], Some, IsSome, IfSome, IfNone, length};
ghost use Rattle.jv_pool.specs.Seen.{seen_member};
ghost use Rattle.jv_meaning_world.specs.Numbers.{HoldsAtNumber};
ghost use Rattle.jv_meaning_typing.specs.Operands.{class_operand, field_operand, method_operand};
ghost use Rattle.jv_link.specs.Inside.References.{method_operand_in, reference_of};

use crate::member::class_at;
use jv_loader::ClassTable;
use jv_pool::{ClassIndex, FieldrefIndex, InterfaceMethodrefIndex, MemberName, Pool};

/// A method as a constant names it: a Methodref, or an InterfaceMethodref.
#[derive(Clone, Copy)]
pub(crate) struct MethodName<'a> {
    pub(crate) of_interface: bool,
    pub(crate) member: MemberName<'a>,
}

/// The constants of a class; `None` where it has no file.
fn pool_of<'t, 'a>(table: &'t ClassTable<'a>, class: usize) -> Option<&'t Pool<'a>>
    requires { class < length table.now }
    ensures pool { IfSome result (λ pool. HoldsAtNumber table.now class (λ l. pool.now ≡ l.class.constant_pool)) }
    ensures none { IfNone result (HoldsAtNumber table.now class (λ l. l.class.constant_pool ≡ [])) }
{
    match class_at(table, class).file() {
        Some(file) => Some(file.pool()),
        None => None,
    }
}

/// The text of a Class constant of a class.
pub(crate) fn class_text<'a>(table: &ClassTable<'a>, class: usize, index: u16) -> &'a [u8]
    requires class { class < length table.now }
    requires operand { HoldsAtNumber table.now class (λ l. IsSome (class_operand l.class index)) }
    ensures { HoldsAtNumber table.now class (λ l. class_operand l.class index ≡ Some result.now) }
{
    match pool_of(table, class) {
        Some(pool) => pool.class_name(ClassIndex(index)),
        None => unreachable!(),
    }
}

/// The field that a Fieldref constant of a class names.
pub(crate) fn field_name<'a>(table: &ClassTable<'a>, class: usize, index: u16) -> MemberName<'a>
    requires class { class < length table.now }
    requires operand { HoldsAtNumber table.now class (λ l. IsSome (field_operand l.class index)) }
    ensures { HoldsAtNumber table.now class (λ l. field_operand l.class index ≡ Some (seen_member result)) }
{
    match pool_of(table, class) {
        Some(pool) => pool.field_reference(FieldrefIndex(index)),
        None => unreachable!(),
    }
}

/// The method that a constant of a pool names.
fn method_name_in<'a>(pool: &Pool<'a>, index: u16) -> MethodName<'a>
    requires { IsSome (method_operand_in pool.now index) }
    ensures { method_operand_in pool.now index ≡ Some (reference_of result) }
{
    match pool.methodref_index(index) {
        Some(index) => MethodName {
            of_interface: false,
            member: pool.method_reference(index),
        },
        None => MethodName {
            of_interface: true,
            member: pool.interface_method_reference(InterfaceMethodrefIndex(index)),
        },
    }
}

/// The method that a Methodref or an InterfaceMethodref constant of a class names.
pub(crate) fn method_name<'a>(table: &ClassTable<'a>, class: usize, index: u16) -> MethodName<'a>
    requires class { class < length table.now }
    requires operand { HoldsAtNumber table.now class (λ l. IsSome (method_operand l.class index)) }
    ensures { HoldsAtNumber table.now class (λ l. method_operand l.class index ≡ Some (reference_of result)) }
{
    match pool_of(table, class) {
        Some(pool) => method_name_in(pool, index),
        None => unreachable!(),
    }
}
