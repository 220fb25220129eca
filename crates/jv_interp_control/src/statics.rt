//! Static fields whose constants are stored (JVMS 5.5).

ghost use Rattle.std.specs.Prelude.{◌≡◌};
ghost use Rattle.jv_interp_control.specs.Inside.Constants.{CanPut, PutsInt, PutsLong, PutsReference};

use jv_interp_heap::{Narrowing, narrowed};
use jv_interp_held::Held;

/// An int is stored in a static field that has one word, this one, as the field's type narrows it.
pub(crate) fn put_int(held: &mut Held, word: usize, number: i32, how: Narrowing)
    requires { CanPut word 1 held.old }
    ensures puts { PutsInt word number how held.old held.new }
    ensures same { held.new ≡ record held.old { statics = held.new.statics } }
{
    held.statics[word] = narrowed(how, number.cast_unsigned());
}

/// A long is stored in one that has two words, the first of which is this one.
pub(crate) fn put_long(held: &mut Held, word: usize, number: i64)
    requires { CanPut word 2 held.old }
    ensures puts { PutsLong word number held.old held.new }
    ensures same { held.new ≡ record held.old { statics = held.new.statics } }
{
    let bits = number.cast_unsigned();
    held.statics[word] = (bits % 4_294_967_296) as u32;
    held.statics[word + 1] = (bits / 4_294_967_296) as u32;
}

/// The reference to the object at an address is stored in one that has one word, this one.
pub(crate) fn put_reference(held: &mut Held, word: usize, address: u32)
    requires { CanPut word 1 held.old }
    ensures puts { PutsReference word address held.old held.new }
    ensures same { held.new ≡ record held.old { statics = held.new.statics } }
{
    held.statics[word] = address;
}
