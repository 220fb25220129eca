//! Constants of static fields (JVMS 4.7.2, 5.5).

ghost use Rattle.std.specs.Prelude.{◌≡◌, ◌+◌, ◌<◌, ◌≤◌, List, ℕ, Some, IfSome, IsOk, IsTrue, OnOk, OnErr, length, slice_get};
ghost use Rattle.std.specs.Option.{option_map};
ghost use Rattle.jv_text.specs.declared.descriptor.FieldTypeOf.{FieldTypeOf};
ghost use Rattle.jv_text.specs.Seen.{seen_element};
ghost use Rattle.jv_text.specs.Types.{field_type_of};
ghost use Rattle.jv_class.specs.Class.{Field};
ghost use Rattle.jv_class.specs.Value.{IsValueNamed, value_number};
ghost use Rattle.jv_meaning_world.specs.World.{Loaded, World};
ghost use Rattle.jv_meaning_world.specs.Numbers.{HoldsAtNumber};
ghost use Rattle.jv_link_cache.specs.Linked.{IsLinked};
ghost use Rattle.jv_link_cache.specs.Tasks.{value_at};
ghost use Rattle.jv_interp_heap.specs.Narrowing.{narrowing_at, narrowing_of};
ghost use Rattle.jv_interp_members.specs.Methods.{AreMethods};
ghost use Rattle.jv_interp_objects.specs.Texts.{AreTexts};
ghost use Rattle.jv_interp_control.specs.Standing.{kept};
ghost use Rattle.jv_interp_control.specs.Initializing.{CanMoveWith, MovedWith};
ghost use Rattle.jv_interp_control.specs.Inside.DoingTasks.{Setting};
ghost use Rattle.jv_interp_control.specs.Inside.Constants.{seen_constant, HasItsText};

use crate::control::Control;
use crate::frames::Frames;
use crate::program::Program;
use crate::statics::{put_int, put_long, put_reference};
use crate::throws::throw;
use jv_class::ConstantValue;
use jv_interp_heap::Narrowing;
use jv_interp_held::Held;
use jv_interp_objects::{Texts, literal};
use jv_link::{class_at, field_at};
use jv_link_cache::Linked;
use jv_loader::{ClassTable, Place};
use jv_pool::Pool;
use jv_store::{OutOfMemory, Store};
use jv_text::{Base, Element, field_type, types_agree};

/// What a store into a field of an element's type keeps.
fn narrowing_of_element(element: Element<&[u8]>) -> Narrowing
    ensures { result ≡ narrowing_at 0 (seen_element element.entry) }
{
    match element {
        Element::Base(Base::Boolean) => Narrowing::Boolean,
        Element::Base(Base::Byte) => Narrowing::Byte,
        Element::Base(Base::Char) => Narrowing::Char,
        Element::Base(Base::Short) => Narrowing::Short,
        _ => Narrowing::Whole,
    }
}

/// What a store into a field of a descriptor keeps.
fn narrowing_in(descriptor: &[u8]) -> Narrowing
    ensures { (type : FieldTypeOf (List ℕ)) → field_type_of descriptor.now ≡ Some type → narrowing_of type ≡ result }
{
    types_agree();
    match field_type(descriptor) {
        Ok(field) => {
            if field.dimensions == 0 {
                narrowing_of_element(field.element)
            } else {
                Narrowing::Whole
            }
        }
        Err(_) => Narrowing::Whole,
    }
}

/// The value with which a static field begins: an int, a long, or the text of a string with its number.
#[derive(Clone, Copy)]
pub(crate) enum Constant<'a> {
    Int(i32),
    Long(i64),
    Text(u32, &'a [u8]),
}

/// What a constant of a class is.
fn constant_at<'a>(
    texts: &Texts<'a>,
    class: usize,
    pool: &Pool<'a>,
    value: ConstantValue,
) -> Constant<'a>
    requires { IsValueNamed pool.now value }
    ensures value { value_at pool.now (value_number value) ≡ Some (seen_constant result) }
    ensures text { (world : World) (l : Loaded) → AreTexts world texts.now → slice_get world class ≡ Some l
        → pool.now ≡ l.class.constant_pool → HasItsText texts.now.names result }
{
    match value {
        ConstantValue::Integer(index) => Constant::Int(pool.integer(index)),
        ConstantValue::Long(index) => Constant::Long(pool.long(index)),
        ConstantValue::String(index) => {
            Constant::Text(texts.number(class, index.0), pool.string(index))
        }
    }
}

/// The value with which the field at a place of the class with a number begins, where it has a constant (JVMS 4.7.2).
fn constant_of<'a>(
    texts: &Texts<'a>,
    table: &ClassTable<'a>,
    class: usize,
    member: usize,
) -> Option<Constant<'a>>
    requires class { class < length table.now }
    requires texts { AreTexts table.now texts.now }
    ensures value { HoldsAtNumber table.now class
        (λ l. (f : Field) → slice_get l.class.fields member ≡ Some f → option_map seen_constant result ≡ f.initial) }
    ensures text { IfSome result (HasItsText texts.now.names) }
{
    let Some(file) = class_at(table, class).file() else {
        return None;
    };
    let Some(value) = file.constant_value(member) else {
        return None;
    };
    Some(constant_at(texts, class, file.pool(), value))
}

/// The static field at a place of a class gets its constant. Where the cells of a string are not left, the OutOfMemoryError object of the
/// start is thrown (own).
///
/// # Errors
///
/// Where the host had no memory for it; all is then as it was.
pub(crate) fn set_constant<'a, S: Store>(
    program: &Program<'_, 'a>,
    linked: &Linked<'a>,
    frames: &mut Frames,
    control: &mut Control,
    held: &mut Held,
    store: &mut S,
    class: u32,
    member: usize,
) -> Result<(), OutOfMemory>
    requires can { CanMoveWith program.now.classes.now.world program.now.texts.now.names (Setting class member)
        (kept frames.old control.old held.old (S.content store.old)) }
    requires linked { IsLinked program.now.classes.now.world linked.now }
    requires methods { AreMethods program.now.classes.now.world program.now.methods.now }
    requires texts { AreTexts program.now.classes.now.world program.now.texts.now }
    requires few { held.old.cells < 2147483648 }
    requires room { held.old.cells ≤ S.room_left store.old }
    ensures set { OnOk result (MovedWith program.now.classes.now.world program.now.texts.now.names (Setting class member)
        (kept frames.old control.old held.old (S.content store.old))
        (kept frames.new control.new held.new (S.content store.new))) }
    ensures room { OnOk result (S.room_left store.old + held.new.cells ≡ S.room_left store.new + held.old.cells) }
    ensures refused_frames { OnErr result (frames.new ≡ frames.old) }
    ensures refused_control { OnErr result (control.new ≡ control.old) }
    ensures refused { OnErr result (held.new ≡ held.old) }
    ensures refused_content { OnErr result (S.content store.new ≡ S.content store.old) }
    ensures refused_room { OnErr result (S.room_left store.new ≡ S.room_left store.old) }
    ensures sure { IsTrue S.SURE → IsOk result }
{
    let table = program.classes.table();
    let place = Place {
        class: class as usize,
        member,
    };
    let word = linked.word_of(place);
    match constant_of(program.texts, table, class as usize, member) {
        Some(Constant::Int(number)) => {
            let how = narrowing_in(field_at(table, place).descriptor);
            put_int(held, word, number, how);
            Ok(())
        }
        Some(Constant::Long(number)) => {
            put_long(held, word, number);
            Ok(())
        }
        Some(Constant::Text(number, text)) => {
            let count = program.texts.count(number);
            match literal(store, held, number as usize, text, count)? {
                Some(address) => {
                    put_reference(held, word, address);
                    Ok(())
                }
                None => {
                    let error = held.out_of_memory;
                    throw(
                        program.classes,
                        linked,
                        program.methods,
                        frames,
                        control,
                        held,
                        store,
                        error,
                    )
                }
            }
        }
        None => unreachable!(),
    }
}
