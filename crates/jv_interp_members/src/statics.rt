//! Static fields, of classes that are initialized or being initialized (JVMS 5.5).

ghost use Rattle.std.specs.Prelude.{◌≡◌, ◌<◌, length};
ghost use Rattle.jv_interp_words.specs.Going.{StaysIn};
ghost use Rattle.jv_interp_heap.specs.ObjectsInBlocks.{Blocks};
ghost use Rattle.jv_interp_held.specs.Executing.{IsUnmoved, place};
ghost use Rattle.jv_interp_members.specs.Statics.{CanGetStatic, GetsStatic, CanPutStatic, PutsStatic};

use jv_interp_heap::{Narrowing, narrowed};
use jv_interp_held::{Effect, Held};
use jv_interp_words::Registers;

/// The value of a static field comes to stand on top: it has one word, and stands at this word of all static fields.
#[inline(always)]
pub fn get_static<'l>(
    held: &Held,
    words: &mut [u32],
    at: &mut Registers<'l>,
    next: u32,
    word: usize,
) -> Effect
    requires { CanGetStatic word 1 next at.old words.old held.now }
    ensures gets { GetsStatic word 1 next at.old words.old held.now at.new words.new result }
    ensures stays { StaysIn at.old at.new words.new }
    ensures unmoved { (blocks : Blocks) → IsUnmoved result (place at.old words.old held.now blocks)
        (place at.new words.new held.now blocks) }
{
    words[at.top] = held.statics[word];
    at.pc = next;
    at.top = at.top + 1;
    Effect::Goes
}

/// The same of a long, which has two words.
#[inline(always)]
pub fn get_long_static<'l>(
    held: &Held,
    words: &mut [u32],
    at: &mut Registers<'l>,
    next: u32,
    word: usize,
) -> Effect
    requires { CanGetStatic word 2 next at.old words.old held.now }
    ensures gets { GetsStatic word 2 next at.old words.old held.now at.new words.new result }
    ensures stays { StaysIn at.old at.new words.new }
    ensures unmoved { (blocks : Blocks) → IsUnmoved result (place at.old words.old held.now blocks)
        (place at.new words.new held.now blocks) }
{
    words[at.top] = held.statics[word];
    words[at.top + 1] = held.statics[word + 1];
    at.pc = next;
    at.top = at.top + 2;
    Effect::Goes
}

/// The value on top is stored in a static field, as the field's type narrows it: it has one word, and stands at this word of all
/// static fields.
#[inline(always)]
pub fn put_static<'l>(
    held: &mut Held,
    words: &[u32],
    at: &mut Registers<'l>,
    next: u32,
    word: usize,
    how: Narrowing,
) -> Effect
    requires { CanPutStatic word 1 how next at.old words.now held.old }
    ensures puts { PutsStatic word 1 how next words.now at.old held.old at.new held.new result }
    ensures stays { StaysIn at.old at.new words.now }
    ensures same { held.new ≡ record held.old { statics = held.new.statics } }
    ensures unmoved { (blocks : Blocks) → IsUnmoved result (place at.old words.now held.old blocks)
        (place at.new words.now held.new blocks) }
{
    held.statics[word] = narrowed(how, words[at.top - 1]);
    at.pc = next;
    at.top = at.top - 1;
    Effect::Goes
}

/// The same of a long, which has two words.
#[inline(always)]
pub fn put_long_static<'l>(
    held: &mut Held,
    words: &[u32],
    at: &mut Registers<'l>,
    next: u32,
    word: usize,
) -> Effect
    requires { CanPutStatic word 2 Narrowing.Whole next at.old words.now held.old }
    ensures puts { PutsStatic word 2 Narrowing.Whole next words.now at.old held.old at.new held.new result }
    ensures stays { StaysIn at.old at.new words.now }
    ensures same { held.new ≡ record held.old { statics = held.new.statics } }
    ensures unmoved { (blocks : Blocks) → IsUnmoved result (place at.old words.now held.old blocks)
        (place at.new words.now held.new blocks) }
{
    held.statics[word] = words[at.top - 2];
    held.statics[word + 1] = words[at.top - 1];
    at.pc = next;
    at.top = at.top - 2;
    Effect::Goes
}
