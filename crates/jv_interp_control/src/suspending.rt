//! The method that runs, and the frames that wait (JVMS 2.6).

ghost use Rattle.std.specs.Prelude.{◌≡◌, List, [], ◌∷◌, ◌++◌, vec_capacity};
ghost use Rattle.jv_interp_words.specs.declared.records.FrameRecord.{FrameRecord as FrameRecordOfNames};
ghost use Rattle.jv_interp_words.specs.declared.records.FrameRecord.TheVariants.{Runs};
ghost use Rattle.jv_interp_words.specs.StatesInWords.{record_of};
ghost use Rattle.jv_interp_control.specs.Suspending.{CanSuspend, Suspends};

use crate::frames::{Frames, push_record};
use jv_interp_words::{FrameRecord, MethodRecord, Registers};

/// The method that the registers tell comes to stand among the others, the newest of them, with so many words in use.
#[inline(always)]
pub fn suspend<'l>(frames: &mut Frames, at: Registers<'l>, top: usize)
    requires { CanSuspend at top frames.old }
    ensures suspends { Suspends at.entry top frames.old frames.new }
    ensures records { frames.new.records.items ≡ frames.old.records.items ++ Runs (record_of at.entry) ∷ [] }
    ensures capacity { vec_capacity frames.new.records ≡ vec_capacity frames.old.records }
    ensures others { frames.new ≡ record frames.old { records = frames.new.records; top = top } }
{
    frames.top = top;
    push_record(
        &mut frames.records,
        FrameRecord::Runs(MethodRecord {
            method: at.method,
            pc: at.pc,
            base: at.base as u32,
        }),
    );
}

/// The newest frame, which came to stand among the others, is taken out again, and so many words are in use, as before it came.
pub fn take_out(frames: &mut Frames, top: usize)
    ensures records { (rest : List FrameRecordOfNames) (own : FrameRecordOfNames) → frames.old.records.items ≡ rest ++ own ∷ []
        → frames.new.records.items ≡ rest }
    ensures capacity { vec_capacity frames.new.records ≡ vec_capacity frames.old.records }
    ensures others { frames.new ≡ record frames.old { records = frames.new.records; top = top } }
{
    let _own = frames.records.pop();
    frames.top = top;
}
