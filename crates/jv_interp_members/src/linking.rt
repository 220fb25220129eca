//! What instructions ask of the classes.

ghost use Rattle.std.specs.Prelude.{◌≡◌, IsSome, IfOk, Some, slice_get};
ghost use Rattle.jv_meaning_machine.specs.State.{ClassState as StateOfNames, ClassStates, class_state, is_ready};
ghost use Rattle.jv_meaning_world.specs.World.{World, Loaded};
ghost use Rattle.jv_meaning_world.specs.Numbers.{HoldsAtNumber};
ghost use Rattle.jv_meaning_typing.specs.Operands.{field_operand, method_operand};
ghost use Rattle.jv_link.specs.Seen.{IsSite, IsMethodTarget};
ghost use Rattle.jv_link.specs.Objects.{IsObject};
ghost use Rattle.jv_link_cache.specs.Linked.{IsLinked};
ghost use Rattle.jv_link_cache.specs.FieldUses.{IsFieldUse};
ghost use Rattle.jv_link_cache.specs.MethodUses.{IsMethodUse};
ghost use Rattle.jv_interp_held.specs.ClassStates.{kept_state, AreClassStates};
ghost use Rattle.jv_interp_heap.specs.SystemNumbers.{IsGuestsWorld};
ghost use Rattle.jv_interp_members.specs.Methods.{AreMethods};
ghost use Rattle.jv_interp_members.specs.Resolved.{IsUsedField, IsResolved, class_number, IsRun};

use crate::errors::number_of_error;
use crate::methods::Methods;
use jv_interp_held::ClassState;
use jv_link::{MethodTarget, Site, Use};
use jv_link_cache::{FieldUse, Linked, MethodUse};
use jv_loader::Classes;

/// Whether a state is that of a class that is initialized or being initialized.
#[inline(always)]
fn is_state_ready(state: ClassState) -> bool
    ensures { (known : StateOfNames) → kept_state known ≡ state → result ≡ is_ready known }
{
    match state {
        ClassState::Untouched => false,
        ClassState::Begun => true,
        ClassState::Initialized => true,
        ClassState::Erroneous => false,
    }
}

/// Whether the class with a number is initialized or being initialized (JVMS 5.5).
#[inline(always)]
pub fn is_ready(states: &[ClassState], class: usize) -> bool
    ensures { (world : World) (known : ClassStates) (l : Loaded) → AreClassStates world known states.now → slice_get world class ≡ Some l
        → result ≡ is_ready (class_state known l) }
{
    class < states.len() && is_state_ready(states[class])
}

/// The method that the constant at an index names at a site, for an instruction, or the number of the error's class.
#[inline(always)]
pub(crate) fn resolved<'a>(
    classes: &Classes<'a>,
    linked: &mut Linked<'a>,
    site: Site,
    how: Use,
    index: u16,
) -> Result<MethodUse, u32>
    requires guests { IsGuestsWorld classes.now.world }
    requires linked { IsLinked classes.now.world linked.old }
    requires site { IsSite classes.now.world site }
    requires index { HoldsAtNumber classes.now.world site.class (λ l. IsSome (method_operand l.class index)) }
    ensures found { IsResolved classes.now.world site how index result }
    ensures called { IfOk result (IsMethodUse classes.now.world) }
    ensures linked { IsLinked classes.now.world linked.new }
{
    match linked.method_use(classes, site, how, index) {
        Ok(called) => Ok(called),
        Err(error) => Err(number_of_error(error)),
    }
}

/// The field that the constant at an index names at a site, for an instruction, or the number of the error's class.
#[inline(always)]
pub(crate) fn used<'a>(
    classes: &Classes<'a>,
    linked: &mut Linked<'a>,
    site: Site,
    how: Use,
    index: u16,
) -> Result<FieldUse, u32>
    requires guests { IsGuestsWorld classes.now.world }
    requires linked { IsLinked classes.now.world linked.old }
    requires site { IsSite classes.now.world site }
    requires index { HoldsAtNumber classes.now.world site.class (λ l. IsSome (field_operand l.class index)) }
    ensures found { IsUsedField classes.now.world site how index result }
    ensures used { IfOk result (IsFieldUse classes.now.world) }
    ensures linked { IsLinked classes.now.world linked.new }
{
    match linked.field_use(classes, site, how, index) {
        Ok(used) => Ok(used),
        Err(error) => Err(number_of_error(error)),
    }
}

/// The number of an object's class by the first word of its block, none for an array.
#[inline(always)]
fn class_number(word: u32) -> Option<usize>
    ensures { result ≡ class_number word }
{
    if word < 0x8000_0000 {
        Some(word as usize)
    } else {
        None
    }
}

/// The number of the method that a call of a target runs on an object whose block has this first word, or of the error's class.
#[inline(always)]
pub(crate) fn run<'a>(
    classes: &Classes<'a>,
    linked: &mut Linked<'a>,
    methods: &Methods<'a>,
    site: Site,
    how: Use,
    target: &MethodTarget,
    word: u32,
) -> Result<u32, u32>
    requires guests { IsGuestsWorld classes.now.world }
    requires linked { IsLinked classes.now.world linked.old }
    requires methods { AreMethods classes.now.world methods.now }
    requires site { IsSite classes.now.world site }
    requires target { IsMethodTarget classes.now.world target.now }
    requires object { IsObject classes.now.world (class_number word) }
    ensures run { IsRun classes.now.world site how target.now word result }
    ensures linked { IsLinked classes.now.world linked.new }
{
    match linked.select_at(classes, site, how, target, class_number(word)) {
        Ok(selected) => Ok(methods.number_of(selected.declared)),
        Err(error) => Err(number_of_error(error)),
    }
}
