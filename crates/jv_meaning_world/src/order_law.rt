//! Laws of the order of verification types with interfaces erased (JVMS 4.10.1.2).

ghost use Rattle.jv_meaning_world.specs.Laws.OrderLaws.{FlowsIsReflexive, ComponentsAreBelow, BelowIsReference, BelowIsTransitive, FlowsToObject, FlowsIsBelow, BelowIsKept, AboveIsBelow, BelowIsAbove, ArrayBelowClass, FilesAreRooted};
ghost use Rattle.jv_meaning_world.specs.Rows.Order.{WorkedOrderRows};

/// A type flows to itself.
pub fn flows_is_reflexive()
    ensures { FlowsIsReflexive }
{}

/// Where arrays of one type are below arrays of another, so are the values that they contain.
pub fn components_are_below()
    ensures { ComponentsAreBelow }
{}

/// Only a class, an array or null is below one of these.
pub fn below_is_reference()
    ensures { BelowIsReference }
{}

/// To be below is transitive.
pub fn below_is_transitive()
    ensures { BelowIsTransitive }
{}

/// A loadable class, an array and null flow to java/lang/Object.
pub fn flows_to_object()
    ensures { FlowsToObject }
{}

/// A loadable type that flows to another is below it.
pub fn flows_is_below()
    ensures { FlowsIsBelow }
{}

/// A loadable type that is below one is below each type to which that one flows.
pub fn below_is_kept()
    ensures { BelowIsKept }
{}

/// A loadable class is below each class and interface above it.
pub fn above_is_below()
    ensures { AboveIsBelow }
{}

/// Of the classes of a world only it and those that it is above are below a class that is no interface.
pub fn below_is_above()
    ensures { BelowIsAbove }
{}

/// An array is below no class but java/lang/Object and interfaces.
pub fn array_below_class()
    ensures { ArrayBelowClass }
{}

/// The world of a library and of a guest's files has java/lang/Object at its top.
pub fn files_are_rooted()
    ensures { FilesAreRooted }
{}

/// Worked rows of the order, and of what breaks it in other worlds, computed.
pub fn order_rows()
    ensures { WorkedOrderRows }
{}
