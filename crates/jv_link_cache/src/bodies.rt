//! Methods with code (JVMS 4.6, 4.7.3).

ghost use Rattle.std.specs.Prelude.{◌≡◌, ◌<◌, Some, length, slice_get};
ghost use Rattle.std.specs.Option.{option_map};
ghost use Rattle.jv_class.specs.Class.{Method};
ghost use Rattle.jv_class_structure.specs.Seen.{seen_code};
ghost use Rattle.jv_classes.specs.Members.{IsMethod};
ghost use Rattle.jv_meaning_world.specs.Overriding.{Declared};
ghost use Rattle.jv_lookups.specs.Places.{method_at};
ghost use Rattle.jv_link_cache.specs.Bodies.{IsArgumentCount, IsBody};

use bitflags::Flags;
use jv_class::MethodCode;
use jv_class_structure::MethodFlags;
use jv_link::class_at;
use jv_loader::{ClassTable, LoadedClass, Member, Place};
use jv_text::{method_shape, types_agree};

/// The code of a method, and what a call of it passes.
#[derive(Clone, Copy)]
pub struct Body<'a> {
    /// Its code attribute: bytes, limits and handlers.
    pub code: MethodCode<'a>,
    /// How many words its arguments have, the receiver's among them: two for a long.
    pub argument_words: usize,
    /// Whether it is an instance method, which is called on an object.
    pub has_receiver: bool,
}

/// The code of the method at a place.
pub(crate) fn code_of<'a>(class: &LoadedClass<'a>, member: usize) -> Option<MethodCode<'a>>
    ensures { (m : Method) → slice_get class.now.class.methods member ≡ Some m → option_map seen_code result ≡ m.code }
{
    let Some(file) = class.file() else {
        return None;
    };
    let Some(method) = file.method(member) else {
        return None;
    };
    method.code()
}

/// How many words the arguments of a method have.
pub(crate) fn argument_words(method: &Member<'_>) -> usize
    ensures { (m : Method) → IsMethod method.now m → IsArgumentCount m result }
{
    types_agree();
    let receiver = if !MethodFlags(method.access_flags).intersects(MethodFlags::STATIC) {
        1
    } else {
        0
    };
    match method_shape(method.descriptor) {
        Ok(shape) => receiver + usize::from(shape.slots),
        Err(_) => receiver,
    }
}

/// The method at a place of a class, where it has code.
fn body_of<'a>(class: &LoadedClass<'a>, member: usize) -> Option<Body<'a>>
    requires { member < length class.now.class.methods }
    ensures { (m : Method) → slice_get class.now.class.methods member ≡ Some m → IsBody m result }
{
    let method = class.method(member);
    let Some(code) = code_of(class, member) else {
        return None;
    };
    Some(Body {
        code,
        argument_words: argument_words(&method),
        has_receiver: !MethodFlags(method.access_flags).intersects(MethodFlags::STATIC),
    })
}

/// The method at a place with its code (JVMS 4.6, 4.7.3), where it has code.
pub fn body_at<'a>(table: &ClassTable<'a>, place: Place) -> Option<Body<'a>>
    ensures { (d : Declared) → method_at table.now place ≡ Some d → IsBody d.method result }
{
    if place.class >= table.count() {
        return None;
    }
    let class = class_at(table, place.class);
    if place.member >= class.method_count() {
        return None;
    }
    body_of(class, place.member)
}

/// The code of the method at a place, where it has code.
pub(crate) fn code_at<'a>(table: &ClassTable<'a>, place: Place) -> Option<MethodCode<'a>>
    ensures { (d : Declared) → method_at table.now place ≡ Some d → option_map seen_code result ≡ d.method.code }
{
    if place.class < table.count() {
        code_of(class_at(table, place.class), place.member)
    } else {
        None
    }
}
