//! Methods that return (JVMS 2.6.4).

ghost use Rattle.jv_interp_control.specs.Inside.Returning.{CanReturn, Returned};

use crate::code::{code_of, words_of};
use crate::control::Control;
use crate::frames::Frames;
use crate::leaving::leave;
use jv_interp_members::Methods;
use jv_interp_words::Registers;

/// The method that the registers tell is left, with so many words of a result.
pub(crate) fn return_from<'l>(
    methods: &Methods<'_>,
    frames: &mut Frames,
    control: &mut Control,
    at: Registers<'l>,
    words: u32,
)
    requires can { CanReturn methods.now at words frames.old control.old }
    ensures { Returned methods.now at.entry words frames.old control.old frames.new control.new }
{
    let given = words_of(&code_of(methods, at.method));
    frames.top = at.base;
    leave(methods, frames, control, given, at.top, words as usize);
}
