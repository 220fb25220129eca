//! The method of the newest frame, in registers (JVMS 2.5.1).

ghost use Rattle.std.specs.Prelude.{IfSome};
ghost use Rattle.jv_interp_control.specs.Resuming.{CanResume, Resumes, IsTakenOut};

use crate::code::code_of;
use crate::frames::{Frames, push_record};
use jv_interp_members::Methods;
use jv_interp_words::{FrameRecord, Registers};

/// The method of the newest frame goes on in registers, and its record is gone; none where the newest frame is an initialization, or there
/// is no frame. Where the constants of its class begin nobody asks yet, so that is 0.
pub fn resume<'a>(methods: &Methods<'a>, frames: &mut Frames) -> Option<Registers<'a>>
    requires { CanResume methods.now frames.old }
    ensures resumes { Resumes methods.now frames.old frames.new result }
    ensures taken_out { IfSome result (λ at. IsTakenOut frames.old frames.new at) }
{
    match frames.records.pop() {
        Some(FrameRecord::Runs(own)) => Some(Registers {
            code: code_of(methods, own.method).code,
            pc: own.pc,
            base: own.base as usize,
            top: frames.top,
            first: 0,
            method: own.method,
        }),
        Some(FrameRecord::Initializes(own)) => {
            push_record(&mut frames.records, FrameRecord::Initializes(own));
            None
        }
        None => None,
    }
}
