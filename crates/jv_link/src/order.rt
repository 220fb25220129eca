//! What is initialized before a class (JVMS 5.5, step 7).

ghost use Rattle.std.specs.Prelude.{◌≡◌, ◌<◌, Some, IfOk, OnOk, IsTrue, length};
ghost use Rattle.jv_meaning_world.specs.Overriding.{Declared};
ghost use Rattle.jv_meaning_world.specs.Verdicts.{is_loadable};
ghost use Rattle.jv_meaning_world.specs.Numbers.{HoldsAtNumber};
ghost use Rattle.jv_meaning_world.specs.Numbers.{AreNumbers};
ghost use Rattle.jv_lookups.specs.Places.{method_at, IsMethodPlace};
ghost use Rattle.jv_meaning_typing.specs.InitializationOrder.{is_default, declares_default};
ghost use Rattle.jv_link.specs.Orders.{IsOrder};
ghost use Rattle.jv_link.specs.Inside.Enumerating.{superclass_first, OrdersOne, OrdersAll, BeginsOrder};

use crate::giving::enumerated;
use crate::member::{class_at, method_at};
use bitflags::Flags;
use jv_class_structure::MethodFlags;
use jv_loader::{ClassTable, Classes, OutOfMemory, Place};
use std::alloc::{AllocError, Global};

const STATIC_OR_ABSTRACT: MethodFlags = MethodFlags(0x0408);

/// Whether a method is neither static nor abstract.
fn is_default(table: &ClassTable<'_>, place: Place) -> bool
    requires { IsMethodPlace table.now place }
    ensures { (d : Declared) → method_at table.now place ≡ Some d → result ≡ is_default d.method }
{
    !MethodFlags(method_at(table, place).access_flags).intersects(STATIC_OR_ABSTRACT)
}

/// Whether a class declares a method that is neither static nor abstract; a private one counts.
fn declares_default(table: &ClassTable<'_>, class: usize) -> bool
    requires { class < length table.now }
    ensures { HoldsAtNumber table.now class (λ l. result ≡ declares_default l) }
{
    for member in 0..class_at(table, class).method_count() {
        if is_default(table, Place { class, member }) {
            return true;
        }
    }
    false
}

/// Puts an interface with such a method behind others.
fn add_if_default(
    table: &ClassTable<'_>,
    interface: usize,
    order: &mut Vec<usize>,
) -> Result<(), AllocError>
    requires interface { interface < length table.now }
    requires order { AreNumbers table.now order.old.items }
    ensures those { OnOk result (OrdersOne table.now interface order.old.items order.new.items) }
    ensures numbers { AreNumbers table.now order.new.items }
{
    if !declares_default(table, interface) {
        return Ok(());
    }
    order.push(interface)?;
    Ok(())
}

/// Puts those with such a method behind others.
fn add_defaults(
    table: &ClassTable<'_>,
    interfaces: &[u16],
    order: &mut Vec<usize>,
) -> Result<(), AllocError>
    requires interfaces { AreNumbers table.now interfaces.now }
    requires order { AreNumbers table.now order.old.items }
    ensures those { OnOk result (OrdersAll table.now interfaces.now order.old.items order.new.items) }
    ensures numbers { AreNumbers table.now order.new.items }
{
    for interface in interfaces {
        add_if_default(table, *interface as usize, order)?;
    }
    Ok(())
}

/// The superclass of a class, where there is one.
fn superclass_first(
    alloc: Global,
    table: &ClassTable<'_>,
    class: usize,
) -> Result<Vec<usize>, AllocError>
    requires { class < length table.now }
    ensures those { IfOk result (λ order. BeginsOrder table.now class order.items) }
    ensures numbers { IfOk result (λ order. AreNumbers table.now order.items) }
{
    let mut order = Vec::new(alloc);
    let Some(superclass) = table.super_of(class) else {
        return Ok(order);
    };
    order.push(superclass)?;
    Ok(order)
}

/// What is initialized before a class of a table.
fn order_in(alloc: Global, table: &ClassTable<'_>, class: usize) -> Result<Vec<usize>, AllocError>
    requires { class < length table.now }
    ensures { IfOk result (λ order. HoldsAtNumber table.now class (IsOrder table.now order.items)) }
{
    if class_at(table, class).is_interface() {
        return Ok(Vec::new(alloc));
    }
    let mut order = superclass_first(alloc, table, class)?;
    let interfaces = enumerated(alloc, table, class)?;
    add_defaults(table, &interfaces, &mut order)?;
    Ok(order)
}

/// The numbers of the classes and interfaces that are initialized before a class that can be loaded (JVMS
/// 5.5): for a class its superclass, and then each superinterface with a method that is neither abstract
/// nor static behind its own superinterfaces; for an interface none.
///
/// # Errors
///
/// Where the host had no memory for the list.
pub fn init_order(
    alloc: Global,
    classes: &Classes<'_>,
    class: usize,
) -> Result<Vec<usize>, OutOfMemory>
    requires class { class < length classes.now.world }
    requires loadable { HoldsAtNumber classes.now.world class (λ l. IsTrue (is_loadable classes.now.world l)) }
    ensures { IfOk result (λ order. HoldsAtNumber classes.now.world class (IsOrder classes.now.world order.items)) }
{
    Ok(order_in(alloc, classes.table(), class)?)
}
