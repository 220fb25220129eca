//! Members that are guarded (JVMS 4.10.1.8).

ghost use Rattle.std.specs.Prelude.{Some};
ghost use Rattle.jv_meaning_world.specs.Flow.{flows};
ghost use Rattle.jv_verify_rules.specs.Inside.Used.{GuardsField, GuardsMethod, FlowsToGuard};

use crate::context::MethodContext;
use jv_verify_types::Item;

/// The current class, to which an object has to flow too, where the member that an index names is guarded.
pub(crate) fn guard_at(context: &MethodContext<'_, '_, '_, '_>, index: u16) -> Option<Item>
    ensures field { GuardsField context.now index result }
    ensures method { GuardsMethod context.now index result }
{
    if context.class().is_guarded(index) {
        Some(context.class().current())
    } else {
        None
    }
}

/// Whether the class that a method is named with flows to the current class, if the method is guarded.
pub(crate) fn flows_to_guard(
    context: &MethodContext<'_, '_, '_, '_>,
    index: u16,
    owner: Item,
) -> bool
    ensures { FlowsToGuard context.now index owner result }
{
    match guard_at(context, index) {
        Some(class) => context.types().flows(owner, class),
        None => true,
    }
}
