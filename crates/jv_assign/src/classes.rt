//! Classes, by their names.

ghost use Rattle.std.specs.Prelude.{◌≡◌, ◌<◌, ◌&&◌, ◌||◌, ℕ, List, false, length};
ghost use Rattle.std.specs.Option.{ForSome};
ghost use Rattle.std.specs.Str.{bytes_eq};
ghost use Rattle.jv_meaning_world.specs.World.{class_named};
ghost use Rattle.jv_meaning_world.specs.LookUps.{is_subclass};
ghost use Rattle.jv_meaning_world.specs.Verdicts.{is_interface, is_loadable};
ghost use Rattle.jv_meaning_world.specs.Numbers.{number_named, HoldsAtBoth};
ghost use Rattle.jv_meaning_world.specs.Numbers.{HoldsAtNumber};
ghost use Rattle.jv_meaning_world.specs.Flow.{is_loadable_interface, is_loadable_below, class_flows};
ghost use Rattle.jv_assign.specs.Inside.Classes.{flows_to_other, IsFlowOfOthers};

use jv_classes::ClassTable;

/// Whether a class is an interface that can be loaded (JVMS 5.3.5).
fn is_loadable_interface(table: &ClassTable<'_>, number: usize) -> bool
    requires { number < length table.now }
    ensures { HoldsAtNumber table.now number (λ l. result ≡ is_loadable table.now l && is_interface l) }
{
    table.is_loadable(number) && table.classes()[number].is_interface()
}

/// Whether a class can be loaded (JVMS 5.3.5) and is another or below it on the chain of superclasses.
fn is_loadable_subclass(table: &ClassTable<'_>, number: usize, of: usize) -> bool
    requires number { number < length table.now }
    requires of { of < length table.now }
    ensures { HoldsAtBoth table.now number of (λ l to. result ≡ is_loadable table.now l && is_subclass table.now l to) }
{
    table.is_loadable(number) && table.is_subclass(number, of)
}

/// Whether the class of a name, by its number where there is one, can be loaded (JVMS 5.3.5) and is another or
/// below it on the chain of superclasses.
fn named_is_loadable_subclass(table: &ClassTable<'_>, from: Option<usize>, of: usize) -> bool
    requires from { ForSome from (λ n. n < length table.now) }
    requires of { of < length table.now }
    ensures { (name : List ℕ) → from ≡ number_named table.now name
        → HoldsAtNumber table.now of
        (λ to. bytes_eq name to.class.name ≡ false → result ≡ is_loadable_below table.now to.class.name (class_named table.now name)) }
{
    let Some(number) = from else {
        return false;
    };
    is_loadable_subclass(table, number, of)
}

/// Whether a class flows to another of another name: a loadable interface, or, where it is loadable, one of
/// its superclasses (JVMS 4.10.1.2).
fn flows_to_other(table: &ClassTable<'_>, from: &[u8], to: &[u8]) -> bool
    requires { bytes_eq from.now to.now ≡ false }
    ensures { result ≡ flows_to_other table.now from.now to.now }
{
    table.is_numbered();
    let Some(number) = table.find(to) else {
        return false;
    };
    is_loadable_interface(table, number)
        || named_is_loadable_subclass(table, table.find(from), number)
}

/// Whether a class flows to another, by their names (JVMS 4.10.1.2). Where the names are equal, nothing is
/// looked up.
pub(crate) fn class_flows(table: &ClassTable<'_>, from: &[u8], to: &[u8]) -> bool
    ensures { result ≡ class_flows table.now from.now to.now }
{
    from == to || flows_to_other(table, from, to)
}

/// Whether a class flows to another of another name, by the numbers of the classes of these names, where there
/// are such classes: a loadable interface, or, where it is loadable, one of its superclasses (JVMS 4.10.1.2).
pub fn other_class_flows(table: &ClassTable<'_>, from: Option<usize>, to: Option<usize>) -> bool
    requires from { ForSome from (λ n. n < length table.now) }
    requires to { ForSome to (λ n. n < length table.now) }
    ensures { IsFlowOfOthers table.now from to result }
{
    table.is_numbered();
    let Some(number) = to else {
        return false;
    };
    is_loadable_interface(table, number) || named_is_loadable_subclass(table, from, number)
}
