//! Laws of linking.

ghost use Rattle.jv_meaning_typing.specs.LinkingLaws.{LoadableResolves, FieldIsUsed, MethodIsCalled, SelectedIsRun, SpecialIsRun, InitIsRun, PrivateIsRun, FinalIsRun, NamedIsRun, NeverVerifyError, LayoutIsByRule, LayoutExtends, InitOrderIsAbove, InitOrderIsByRule};
ghost use Rattle.jv_meaning_typing.specs.OverridingRule.{OverridingIsByRule};
ghost use Rattle.jv_meaning_typing.specs.Inside.OneWalk.{OverridingInOneWalk};
ghost use Rattle.jv_meaning_typing.specs.Inside.Upward.{OverridingUpward};
ghost use Rattle.jv_meaning_typing.specs.Rows.WorkedLinking.{WorkedRows};

use jv_meaning_world::{above_by_ways, above_is_transitive, loadable_by_all};

/// Worked rows of linking, computed.
pub fn linking_rows()
    ensures { WorkedRows }
{}

/// The classes that can be resolved are those that are loadable (JVMS 5.3.5, 5.4.3.1).
pub fn loadable_resolves()
    ensures { LoadableResolves }
{
    above_by_ways();
    above_is_transitive();
    loadable_by_all();
}

/// The field that an instruction uses is the one that its constant names, and it can use it (JVMS 5.4.3.2, 5.4.4, 6.5).
pub fn field_is_used()
    ensures { FieldIsUsed }
{
    above_by_ways();
    above_is_transitive();
}

/// The method that an instruction calls is the one that its constant names, and it can call it (JVMS 5.4.3.3, 5.4.3.4,
/// 5.4.4, 6.5).
pub fn method_is_called()
    ensures { MethodIsCalled }
{
    above_by_ways();
    above_is_transitive();
}

/// What invokevirtual and invokeinterface run is an instance method of the target's name and type, not abstract, at or above
/// the object's class (JVMS 6.5).
pub fn selected_is_run()
    ensures { SelectedIsRun }
{
    above_by_ways();
    above_is_transitive();
}

/// What invokespecial runs, `<init>` aside, is such a method at or above the class where it starts (JVMS 6.5).
pub fn special_is_run()
    ensures { SpecialIsRun }
{
    above_by_ways();
    above_is_transitive();
}

/// An `<init>` that was resolved is run itself (JVMS 6.5).
pub fn init_is_run()
    ensures { InitIsRun }
{}

/// Neither resolution nor selection answers VerifyError (JVMS 5.4, own).
pub fn never_verify_error()
    ensures { NeverVerifyError }
{}

/// What is found to override a method along a chain of classes is what overrides it by the rule (JVMS 5.4.5).
pub fn overriding_is_by_rule()
    ensures { OverridingIsByRule }
{}

/// What overrides a method along a chain of classes is known in one walk down, which keeps one bit (JVMS 5.4.5): for the
/// code that selects methods.
pub fn overriding_in_one_walk()
    ensures { OverridingInOneWalk }
{}

/// Whether a method below a chain of classes overrides one above it is known from the chain's classes one by one, upward
/// (JVMS 5.4.5): for the code that selects methods.
pub fn overriding_upward()
    ensures { OverridingUpward }
{}

/// invokevirtual of a private method runs it (JVMS 5.4.5, 6.5).
pub fn private_is_run()
    ensures { PrivateIsRun }
{}

/// invokevirtual of a final method runs it, where no final method is broken (JVMS 5.3.5, 5.4.5, 6.5).
pub fn final_is_run()
    ensures { FinalIsRun }
{
    above_by_ways();
    above_is_transitive();
}

/// invokespecial of a method of the named class itself runs it, unless a superclass is named (JVMS 6.5).
pub fn named_is_run()
    ensures { NamedIsRun }
{}

/// Each field of an object has words of its own, and the object has no others (own).
pub fn layout_is_by_rule()
    ensures { LayoutIsByRule }
{}

/// An object has the fields of its class's superclass where an object of that has them (own).
pub fn layout_extends()
    ensures { LayoutExtends }
{
    above_by_ways();
    above_is_transitive();
}

/// What is initialized before a class is above it (JVMS 5.5).
pub fn init_order_is_above()
    ensures { InitOrderIsAbove }
{
    above_by_ways();
    above_is_transitive();
}

/// Before a class its superclass is initialized, and then exactly the superinterfaces with a method that is neither abstract
/// nor static, each once and behind its own superinterfaces (JVMS 5.5).
pub fn init_order_is_by_rule()
    ensures { InitOrderIsByRule }
{
    above_by_ways();
    above_is_transitive();
}
