//! Objects that are thrown.

ghost use Rattle.jv_interp_objects.specs.Throwing.{CanThrow, Throws};

use jv_interp_heap::NULL_POINTER;
use jv_interp_held::Effect;
use jv_interp_words::Registers;

/// athrow: the object on top is thrown.
#[inline(always)]
pub fn athrow<'l>(words: &[u32], at: &Registers<'l>) -> Effect
    requires { CanThrow at.now words.now }
    ensures { Throws at.now words.now result }
{
    let object = words[at.top - 1];
    if object == 0 {
        return Effect::Raises {
            class: NULL_POINTER,
        };
    }
    Effect::Throws { address: object }
}
