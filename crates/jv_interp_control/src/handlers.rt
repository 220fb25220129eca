//! Handlers of exceptions (JVMS 2.10): the first in a method's table whose range holds the offset of its instruction, and which catches
//! objects of the class.

ghost use Rattle.jv_link_cache.specs.Linked.{IsLinked};
ghost use Rattle.jv_interp_members.specs.Methods.{AreMethods};
ghost use Rattle.jv_interp_control.specs.Inside.Handling.{CanHandle, IsHandled};

use crate::code::place_of;
use jv_interp_members::Methods;
use jv_interp_words::MethodRecord;
use jv_link_cache::Linked;
use jv_loader::Classes;

/// Where the handler begins that takes an object of the class with a number, thrown in a method that stands in a frame.
pub(crate) fn handler_of(
    classes: &Classes<'_>,
    linked: &Linked<'_>,
    methods: &Methods<'_>,
    own: MethodRecord,
    class: u32,
) -> Option<u16>
    requires can { CanHandle classes.now.world own class }
    requires linked { IsLinked classes.now.world linked.now }
    requires methods { AreMethods classes.now.world methods.now }
    ensures { IsHandled classes.now.world own class result }
{
    let place = place_of(methods, own.method);
    linked.handler_at(classes.table(), place, own.pc, class as usize)
}
