//! The main method of a guest (JVMS 5.2).

ghost use Rattle.std.specs.Prelude.{◌≡◌, ◌<◌, codes, length, slice_get, IsSomeAnd, IfSome};
ghost use Rattle.std.specs.Option.{option_and_then};
ghost use Rattle.jv_meaning_world.specs.World.{World};
ghost use Rattle.jv_meaning_world.specs.LookUps.{method_if, method_in};
ghost use Rattle.jv_meaning_world.specs.Verdicts.{declared_by};
ghost use Rattle.jv_meaning_world.specs.Numbers.{HoldsAtNumber};
ghost use Rattle.jv_meaning_machine.specs.Initialization.{is_main, main_in, main_method};
ghost use Rattle.jv_lookups.specs.Places.{method_at, method_of, IsMethodPlace, IsMethodFound};
ghost use Rattle.jv_interp_words.specs.FramesInWords.{methods_of};
ghost use Rattle.jv_interp_members.specs.Methods.{AreMethods};

use bitflags::Flags;
use jv_class_structure::MethodFlags;
use jv_interp_members::Methods;
use jv_link::class_at;
use jv_loader::{ClassTable, Classes, LoadedClass, Place};

/// Whether the method at a place of a class is public and static.
fn is_main(class: &LoadedClass<'_>, member: usize) -> bool
    requires { member < length class.now.class.methods }
    ensures { IsSomeAnd (slice_get class.now.class.methods member) (λ m. result ≡ is_main (declared_by class.now m)) }
{
    let flags = class.method(member).access_flags;
    MethodFlags(flags).intersects(MethodFlags::PUBLIC)
        && MethodFlags(flags).intersects(MethodFlags::STATIC)
}

/// The place of main among the methods of a class, where it is public and static.
fn main_of(class: &LoadedClass<'_>) -> Option<usize>
    ensures found { option_and_then (λ member. method_of member class.now) result
        ≡ method_if is_main (method_in (codes "main") (codes "([Ljava/lang/String;)V") class.now) }
    ensures within { IfSome result (λ member. member < length class.now.class.methods) }
{
    let Some(member) = class.method_named(b"main", b"([Ljava/lang/String;)V") else {
        return None;
    };
    if is_main(class, member) {
        Some(member)
    } else {
        None
    }
}

/// The place of the main method that a class has, if it can be loaded.
fn main_at(table: &ClassTable<'_>, class: usize) -> Option<Place>
    requires { class < length table.now }
    ensures found { HoldsAtNumber table.now class (λ l. IsMethodFound table.now result (main_in table.now l)) }
    ensures place { IfSome result (IsMethodPlace table.now) }
{
    if !table.is_loadable(class) {
        return None;
    }
    let Some(member) = main_of(class_at(table, class)) else {
        return None;
    };
    Some(Place { class, member })
}

/// The place of the main method, by the table.
fn main_by(table: &ClassTable<'_>, main: &[u8]) -> Option<Place>
    ensures found { IsMethodFound table.now result (main_method table.now main.now) }
    ensures place { IfSome result (IsMethodPlace table.now) }
{
    let Some(class) = table.find(main) else {
        return None;
    };
    main_at(table, class)
}

/// The place of the main method of the class of a name: it is public and static, and of that class itself, which can be loaded (own).
pub(crate) fn main_place(classes: &Classes<'_>, main: &[u8]) -> Option<Place>
    ensures found { IsMethodFound classes.now.world result (main_method classes.now.world main.now) }
    ensures place { IfSome result (IsMethodPlace classes.now.world) }
{
    main_by(classes.table(), main)
}

/// The number of the method at a place among the methods of all classes, if there is one.
pub(crate) fn number_of(methods: &Methods<'_>, place: Option<Place>) -> Option<u32>
    ensures { (world : World) → AreMethods world methods.now → IfSome place (IsMethodPlace world)
        → option_and_then (slice_get (methods_of world)) result ≡ option_and_then (method_at world) place }
{
    let Some(place) = place else {
        return None;
    };
    Some(methods.number_of(place))
}

/// The number of the main method of the class of a name among the methods of all classes. It costs a hash of the name, and one of main's
/// name and descriptor.
pub fn main_number(classes: &Classes<'_>, methods: &Methods<'_>, main: &[u8]) -> Option<u32>
    requires { AreMethods classes.now.world methods.now }
    ensures { option_and_then (slice_get (methods_of classes.now.world)) result ≡ main_method classes.now.world main.now }
{
    number_of(methods, main_place(classes, main))
}
