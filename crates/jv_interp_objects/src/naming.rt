//! What constants name, by numbers.

ghost use Rattle.std.specs.Prelude.{◌≡◌, ◌+◌, ◌<◌, Some, IfOk, length};
ghost use Rattle.jv_text.specs.Seen.{seen_element};
ghost use Rattle.jv_meaning_typing.specs.ClassResolution.{ResolvedClass};
ghost use Rattle.jv_meaning_machine.specs.Effects.{resolved_type};
ghost use Rattle.jv_link.specs.Seen.{class_ref_at};
ghost use Rattle.jv_link_cache.specs.ClassUses.{class_of_element, IsClassUse};
ghost use Rattle.jv_link_cache.specs.Linked.{IsLinked};
ghost use Rattle.jv_interp_heap.specs.ObjectsInBlocks.{base_number, IsElement};
ghost use Rattle.jv_interp_heap.specs.SystemNumbers.{IsGuestsWorld};
ghost use Rattle.jv_interp_objects.specs.Types.{IsOfType};
ghost use Rattle.jv_interp_objects.specs.Named.{NamesClass, IsNamed, IsNewClass};
ghost use Rattle.jv_interp_objects.specs.Inside.Refs.{IsThere, HasElement, AreFew};

use crate::types::NumberedType;
use jv_interp_members::number_of_error;
use jv_link::{ClassRef, Site, Use};
use jv_link_cache::{ClassUse, Linked};
use jv_loader::{ClassTable, Classes};
use jv_text::{Base, Element};

/// The number of a base type as an element.
fn base_number(base: Base) -> u32
    ensures { result ≡ base_number base }
{
    match base {
        Base::Byte => 0,
        Base::Char => 1,
        Base::Double => 2,
        Base::Float => 3,
        Base::Int => 4,
        Base::Long => 5,
        Base::Short => 6,
        Base::Boolean => 7,
    }
}

/// That of an element, whose class has this number.
fn element_number(table: &ClassTable<'_>, element: Element<&[u8]>, class: Option<usize>) -> u32
    requires few { length table.now < 2147483648 }
    requires class { class ≡ class_of_element table.now (seen_element element) }
    ensures number { IsThere table.now (seen_element element.entry) → IsElement table.now (seen_element element.entry) result }
    ensures few { result < 8 + length table.now }
{
    // It brings in that classes are few.
    let _few = table;
    match element {
        Element::Base(base) => base_number(base),
        Element::Class(_) => match class {
            Some(number) => number as u32 + 8,
            None => 0,
        },
    }
}

/// The type that a constant was resolved to.
fn numbers_of(table: &ClassTable<'_>, used: ClassUse<'_>) -> NumberedType
    requires few { length table.now < 2147483648 }
    requires used { IsClassUse table.now used }
    ensures of_type { (r : ResolvedClass) → class_ref_at table.now used.entry.found ≡ Some r → HasElement table.now r
        → IsOfType table.now (resolved_type r) result }
    ensures few { AreFew table.now result }
{
    table.is_numbered();
    match used.found {
        ClassRef::Class(number) => NumberedType {
            dimensions: 0,
            element: number as u32 + 8,
        },
        ClassRef::Array(array) => NumberedType {
            dimensions: u32::from(array.dimensions),
            element: element_number(table, array.element, used.element),
        },
    }
}

/// The class or the array that the constant at an index names at a site, or the number of the error's class.
#[inline(always)]
pub(crate) fn named<'a>(
    classes: &Classes<'a>,
    linked: &mut Linked<'a>,
    site: Site,
    index: u16,
) -> Result<NumberedType, u32>
    requires guests { IsGuestsWorld classes.now.world }
    requires few { length classes.now.world < 2147483648 }
    requires linked { IsLinked classes.now.world linked.old }
    requires names { NamesClass classes.now.world site index }
    ensures found { IsNamed classes.now.world site index result }
    ensures few { IfOk result (AreFew classes.now.world) }
    ensures linked { IsLinked classes.now.world linked.new }
{
    match linked.class_use(classes, site, index) {
        Ok(used) => Ok(numbers_of(classes.table(), used)),
        Err(error) => Err(number_of_error(error)),
    }
}

/// The number of the class that the constant at an index names at a site, for `new`, or of the error's class.
#[inline(always)]
pub(crate) fn class_named_new<'a>(
    classes: &Classes<'a>,
    linked: &mut Linked<'a>,
    site: Site,
    index: u16,
) -> Result<usize, u32>
    requires guests { IsGuestsWorld classes.now.world }
    requires linked { IsLinked classes.now.world linked.old }
    requires names { NamesClass classes.now.world site index }
    ensures found { IsNewClass classes.now.world site index result }
    ensures linked { IsLinked classes.now.world linked.new }
{
    classes.table().is_numbered();
    match linked.class_at(classes, site, Some(Use::New), index) {
        Ok(ClassRef::Class(class)) => Ok(class),
        Ok(ClassRef::Array(_)) => unreachable!(),
        Err(error) => Err(number_of_error(error)),
    }
}
