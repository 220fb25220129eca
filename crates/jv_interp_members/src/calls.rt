//! Calls.

ghost use Rattle.std.specs.Prelude.{◌≡◌};
ghost use Rattle.jv_link.specs.declared.site.Use.TheVariants.{Invokespecial};
ghost use Rattle.jv_link_cache.specs.Linked.{IsLinked};
ghost use Rattle.jv_interp_words.specs.Going.{StaysIn};
ghost use Rattle.jv_interp_heap.specs.ObjectsInBlocks.{Blocks};
ghost use Rattle.jv_interp_held.specs.Executing.{place};
ghost use Rattle.jv_interp_members.specs.Methods.{AreMethods};
ghost use Rattle.jv_interp_members.specs.Known.{known_at};
ghost use Rattle.jv_interp_members.specs.Calling.{IsVirtual, CanCall, Calls, CanCallStatic, CallsStatic, IsUnmovedBy};

use crate::current::Current;
use crate::linking::{is_ready, resolved, run};
use jv_interp_heap::NULL_POINTER;
use jv_interp_held::{ARRAY_LIKE, CLASS_NAME, Effect, HOST_IO, Held, WRITE, read, write};
use jv_interp_words::Registers;
use jv_link::Use;
use jv_link_cache::Linked;
use jv_meaning_typing::method_is_called;
use jv_store::Store;

/// What a call of a static method comes to.
pub enum StaticCall {
    /// It has this effect.
    Has(Effect),
    /// `className` of host/Io is run, whose arguments are on top.
    ClassName,
    /// `arrayLike` of host/Io is run, whose arguments are on top.
    ArrayLike,
}

/// invokestatic: the method that the constant at an index names is entered, once its class is initialized or being initialized. Of
/// host/Io, `read` and `write` are done at once; what asks for objects is left to the caller.
#[inline(always)]
pub fn call_static<'a, 'l>(
    current: Current<'_, 'a>,
    linked: &mut Linked<'a>,
    held: &mut Held,
    words: &mut [u32],
    at: &mut Registers<'l>,
    index: u16,
) -> StaticCall
    requires methods { AreMethods current.classes.now.world current.methods.now }
    requires can { CanCallStatic index current.next (known_at current linked.old) current.states.now at.old words.old held.old }
    ensures calls { CallsStatic index current.entry.next (known_at current.entry linked.old) current.entry.states.now at.old words.old
        held.old
        at.new words.new held.new result }
    ensures stays { StaysIn at.old at.new words.new }
    ensures unmoved { (blocks : Blocks) → IsUnmovedBy result (place at.old words.old held.old blocks)
        (place at.new words.new held.new blocks) }
    ensures same { held.new ≡ record held.old { output = held.new.output; output_left = held.new.output_left; read = held.new.read } }
    ensures linked { IsLinked current.entry.classes.now.world linked.new }
{
    method_is_called();
    let called = match resolved(
        current.classes,
        linked,
        current.site,
        Use::Invokestatic,
        index,
    ) {
        Ok(called) => called,
        Err(class) => return StaticCall::Has(Effect::Raises { class }),
    };
    let place = called.target.declared;
    if !is_ready(current.states, place.class) {
        return StaticCall::Has(Effect::Begins {
            class: place.class as u32,
        });
    }
    if place.class == HOST_IO {
        if place.member == WRITE {
            return StaticCall::Has(write(held, words, at, current.next));
        }
        if place.member == CLASS_NAME {
            return StaticCall::ClassName;
        }
        if place.member == ARRAY_LIKE {
            return StaticCall::ArrayLike;
        }
        return StaticCall::Has(read(held, words, at, current.next));
    }
    StaticCall::Has(Effect::Enters {
        method: current.methods.number_of(place),
        words: called.argument_words as u32,
    })
}

/// invokevirtual and invokeinterface: the method that the object's class has for the one that the constant at an index names is
/// entered on the object below the arguments.
#[inline(always)]
pub fn call_virtual<'a, 'l, S: Store>(
    current: Current<'_, 'a>,
    linked: &mut Linked<'a>,
    store: &S,
    held: &Held,
    words: &[u32],
    at: &Registers<'l>,
    how: Use,
    index: u16,
) -> Effect
    requires kind { IsVirtual how }
    requires methods { AreMethods current.classes.now.world current.methods.now }
    requires can { CanCall how index (known_at current linked.old) at.now words.now held.now (S.content store.now) }
    ensures calls { Calls how index (known_at current.entry linked.old) at.now words.now held.now (S.content store.now) result }
    ensures linked { IsLinked current.entry.classes.now.world linked.new }
{
    // Only the clauses speak of it.
    let _held = held;
    method_is_called();
    let called = match resolved(current.classes, linked, current.site, how, index) {
        Ok(called) => called,
        Err(class) => return Effect::Raises { class },
    };
    let object = words[at.top - called.argument_words];
    if object == 0 {
        return Effect::Raises {
            class: NULL_POINTER,
        };
    }
    let word = store.get(object, 0);
    match run(
        current.classes,
        linked,
        current.methods,
        current.site,
        how,
        &called.target,
        word,
    ) {
        Ok(method) => Effect::Enters {
            method,
            words: called.argument_words as u32,
        },
        Err(class) => Effect::Raises { class },
    }
}

/// invokespecial: the `<init>` that the constant at an index names is entered on the object below the arguments, or another method, as
/// the current class has it above itself.
#[inline(always)]
pub fn call_special<'a, 'l, S: Store>(
    current: Current<'_, 'a>,
    linked: &mut Linked<'a>,
    store: &S,
    held: &Held,
    words: &[u32],
    at: &Registers<'l>,
    index: u16,
) -> Effect
    requires methods { AreMethods current.classes.now.world current.methods.now }
    requires can { CanCall Invokespecial index (known_at current linked.old) at.now words.now held.now (S.content store.now) }
    ensures calls { Calls Invokespecial index (known_at current.entry linked.old) at.now words.now held.now
        (S.content store.now) result }
    ensures linked { IsLinked current.entry.classes.now.world linked.new }
{
    // Only the clauses speak of it.
    let _held = held;
    method_is_called();
    let called = match resolved(
        current.classes,
        linked,
        current.site,
        Use::Invokespecial,
        index,
    ) {
        Ok(called) => called,
        Err(class) => return Effect::Raises { class },
    };
    let object = words[at.top - called.argument_words];
    if object == 0 {
        return Effect::Raises {
            class: NULL_POINTER,
        };
    }
    if called.is_init {
        return Effect::Enters {
            method: current.methods.number_of(called.target.declared),
            words: called.argument_words as u32,
        };
    }
    let word = store.get(object, 0);
    match run(
        current.classes,
        linked,
        current.methods,
        current.site,
        Use::Invokespecial,
        &called.target,
        word,
    ) {
        Ok(method) => Effect::Enters {
            method,
            words: called.argument_words as u32,
        },
        Err(class) => Effect::Raises { class },
    }
}
