//! What is initialized before each class (JVMS 5.5).

ghost use Rattle.std.specs.Prelude.{◌≡◌, ◌<◌, IfOk, IsTrue, length};
ghost use Rattle.jv_meaning_world.specs.World.{World};
ghost use Rattle.jv_meaning_world.specs.Numbers.{HoldsAtNumber};
ghost use Rattle.jv_meaning_world.specs.Verdicts.{is_loadable};
ghost use Rattle.jv_link.specs.Orders.{IsOrder};
ghost use Rattle.jv_link_cache.specs.Inside.Orders.{AreOrders};
ghost use Rattle.jv_link_cache.specs.Tasks.{IsOrderOf};

use jv_link::init_order;
use jv_loader::{ClassTable, Classes, OutOfMemory};
use std::alloc::Global;

/// The numbers of what is initialized before a class that can be loaded, in its order; of another class none.
#[derive(Drop)]
pub(crate) struct ClassOrder {
    pub(crate) numbers: Vec<usize>,
}

/// What is initialized before a class.
fn order_of(
    alloc: Global,
    table: &ClassTable<'_>,
    classes: &Classes<'_>,
    class: usize,
) -> Result<Vec<usize>, OutOfMemory>
    requires same { classes.now.world ≡ table.now }
    requires class { class < length table.now }
    ensures { IfOk result (λ order. IsOrderOf table.now class order.items) }
{
    if table.is_loadable(class) {
        Ok(init_order(alloc, classes, class)?)
    } else {
        Ok(Vec::new(alloc))
    }
}

/// What is initialized before each class.
pub(crate) fn all_orders(
    alloc: Global,
    table: &ClassTable<'_>,
    classes: &Classes<'_>,
) -> Result<Vec<ClassOrder>, OutOfMemory>
    requires { classes.now.world ≡ table.now }
    ensures { IfOk result (λ orders. AreOrders table.now (length table.now) orders.items) }
{
    let mut orders = Vec::with_capacity(alloc, table.count())?;
    for class in 0..table.count() {
        let numbers = order_of(alloc, table, classes, class)?;
        orders.push(ClassOrder { numbers })?;
    }
    Ok(orders)
}

/// What is initialized before a class, of those of each.
pub(crate) fn order_in(orders: &[ClassOrder], class: usize) -> &[usize]
    ensures { (world : World) → AreOrders world (length world) orders.now → IsOrderOf world class result.now }
{
    if class < orders.len() {
        &orders[class].numbers
    } else {
        &[]
    }
}
