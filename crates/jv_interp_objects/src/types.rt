//! Types by numbers, and which of them is another one or below it.

ghost use Rattle.std.specs.Prelude.{◌≡◌, ◌+◌, ◌<◌, ◌≤◌, ℕ, List, length};
ghost use Rattle.jv_text.specs.declared.descriptor.FieldTypeOf.{FieldTypeOf};
ghost use Rattle.jv_meaning_world.specs.World.{World};
ghost use Rattle.jv_meaning_world.specs.Numbers.{HoldsAtBoth};
ghost use Rattle.jv_meaning_machine.specs.Objects.{Object, type_of_object, is_at_or_below, is_subtype, is_instance_of};
ghost use Rattle.jv_interp_heap.specs.ObjectsInBlocks.{IsArrayWord};
ghost use Rattle.jv_interp_heap.specs.SystemNumbers.{IsGuestsWorld};
ghost use Rattle.jv_interp_objects.specs.Types.{IsOfType, HasWord};
ghost use Rattle.jv_interp_objects.specs.Inside.Elements.{TellsElements, TellsAboveArrays};

use jv_loader::{ClassTable, Classes};

/// The least first word of an array.
const ARRAYS: u32 = 0x8000_0000;

/// How many elements have numbers of their own in an array's word.
const ELEMENTS: u32 = 65536;

/// The number of the first class as an element: those below are base types.
const FIRST_CLASS: u32 = 8;

/// That of java/lang/Object: before it stand java/lang/Cloneable and java/io/Serializable alone.
const OBJECT: u32 = 10;

/// A type (JVMS 2.4, 4.3.2) by numbers, as an array's first word has those of its components: how many dimensions there are, and
/// their element, which is a base type, or eight and the number of a class.
#[derive(Clone, Copy)]
pub struct NumberedType {
    pub dimensions: u32,
    pub element: u32,
}

/// The type of an array's components, by the array's first word.
#[inline(always)]
pub(crate) fn component_type(word: u32) -> NumberedType
    requires { ARRAYS ≤ word }
    ensures of_type { (world : World) (components : FieldTypeOf (List ℕ)) → IsArrayWord world components word
        → IsOfType world components result }
    ensures few { result.dimensions < 32768 }
{
    let parts = word - ARRAYS;
    NumberedType {
        dimensions: parts / ELEMENTS,
        element: parts % ELEMENTS,
    }
}

/// The first word of an array of components of a type.
#[inline(always)]
pub(crate) fn array_word(components: NumberedType) -> u32
    requires dimensions { components.dimensions < 32768 }
    requires element { components.element < ELEMENTS }
    ensures { (world : World) (type : FieldTypeOf (List ℕ)) → IsOfType world type components → IsArrayWord world type result }
{
    ARRAYS + (components.dimensions * ELEMENTS + components.element)
}

/// The type of an object, by the first word of its block.
#[inline(always)]
fn object_type(word: u32) -> NumberedType
    ensures { (world : World) (object : Object) → HasWord world object word → IsOfType world (type_of_object object) result }
{
    if word < ARRAYS {
        return NumberedType {
            dimensions: 0,
            element: word + FIRST_CLASS,
        };
    }
    let components = component_type(word);
    NumberedType {
        dimensions: components.dimensions + 1,
        element: components.element,
    }
}

/// Whether the class with a number is another one, or below it.
#[inline(always)]
fn is_at_or_below(table: &ClassTable<'_>, class: usize, other: usize) -> bool
    requires class { class < length table.now }
    requires other { other < length table.now }
    ensures { HoldsAtBoth table.now class other (λ l to. result ≡ is_at_or_below table.now l.class.name to.class.name) }
{
    table.is_numbered();
    class == other || table.is_above(other, class)
}

/// Whether an element is another one: the same base type, or a class that is another one or below it.
#[inline(always)]
fn element_is(table: &ClassTable<'_>, from: u32, to: u32) -> bool
    requires from { from < 8 + length table.now }
    requires to { to < 8 + length table.now }
    ensures { TellsElements table.now from to result }
{
    if from < FIRST_CLASS {
        return from == to;
    }
    if to < FIRST_CLASS {
        return false;
    }
    is_at_or_below(
        table,
        (from - FIRST_CLASS) as usize,
        (to - FIRST_CLASS) as usize,
    )
}

/// Whether an element is a class that every array is below (JVMS 4.10.1.2).
#[inline(always)]
fn is_above_arrays(element: u32) -> bool
    ensures { TellsAboveArrays element result }
{
    FIRST_CLASS <= element && element <= OBJECT
}

/// Whether a type is another one, or below it (JVMS 6.5, instanceof).
#[inline(always)]
fn is_subtype(table: &ClassTable<'_>, from: NumberedType, to: NumberedType) -> bool
    requires guests { IsGuestsWorld table.now }
    requires from { (type : FieldTypeOf (List ℕ)) × IsOfType table.now type from }
    requires to { (type : FieldTypeOf (List ℕ)) × IsOfType table.now type to }
    ensures { (a b : FieldTypeOf (List ℕ)) → IsOfType table.now a from → IsOfType table.now b to → result ≡ is_subtype table.now a b }
{
    table.is_numbered();
    if from.dimensions == to.dimensions {
        return element_is(table, from.element, to.element);
    }
    if from.dimensions < to.dimensions {
        return false;
    }
    is_above_arrays(to.element)
}

/// Whether the object whose block has this first word is an instance of a type.
#[inline(always)]
pub fn is_instance(classes: &Classes<'_>, word: u32, named: NumberedType) -> bool
    requires guests { IsGuestsWorld classes.now.world }
    requires object { (object : Object) × HasWord classes.now.world object word }
    requires named { (type : FieldTypeOf (List ℕ)) × IsOfType classes.now.world type named }
    ensures { (object : Object) (type : FieldTypeOf (List ℕ)) → HasWord classes.now.world object word
        → IsOfType classes.now.world type named → result ≡ is_instance_of classes.now.world object type }
{
    is_subtype(classes.table(), object_type(word), named)
}
