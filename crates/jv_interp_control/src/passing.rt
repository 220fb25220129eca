//! Frames that a throw passes (JVMS 2.10, 5.5).

ghost use Rattle.jv_interp_members.specs.Methods.{AreMethods};
ghost use Rattle.jv_interp_control.specs.Inside.Passing.{CanPass, Passes, CanPassAll, PassesAll, CanCatch, Catches};

use crate::code::{code_of, words_of};
use crate::control::Control;
use crate::frames::{Frames, push_record};
use crate::states::set_state;
use jv_interp_held::ClassState;
use jv_interp_members::Methods;
use jv_interp_words::{FrameRecord, MethodRecord, push_word};
use jv_link::class_at;
use jv_loader::Classes;

/// A throw passes the newest frame: its words are given back, and where it is the initialization of a class, that becomes erroneous.
pub(crate) fn pass_frame(
    classes: &Classes<'_>,
    methods: &Methods<'_>,
    frames: &mut Frames,
    control: &mut Control,
)
    requires can { CanPass classes.now.world frames.old control.old }
    requires methods { AreMethods classes.now.world methods.now }
    ensures { Passes classes.now.world frames.old control.old frames.new control.new }
{
    let table = classes.table();
    table.is_numbered();
    match frames.records.pop() {
        Some(FrameRecord::Runs(own)) => {
            frames.top = own.base as usize;
            frames.left = frames.left + words_of(&code_of(methods, own.method));
        }
        Some(FrameRecord::Initializes(own)) => {
            let by_system = class_at(table, own.class as usize).by_system();
            frames.left = frames.left + 4;
            set_state(
                &mut control.states,
                own.class,
                by_system,
                ClassState::Erroneous,
            );
        }
        None => unreachable!(),
    }
}

/// A throw passes so many frames, the newest first.
pub(crate) fn pass_frames(
    classes: &Classes<'_>,
    methods: &Methods<'_>,
    frames: &mut Frames,
    control: &mut Control,
    count: usize,
)
    requires can { CanPassAll classes.now.world count frames.old control.old }
    requires methods { AreMethods classes.now.world methods.now }
    ensures { PassesAll classes.now.world count frames.old control.old frames.new control.new }
{
    for step in 0..count {
        // Only the clauses speak of it.
        let _step = step;
        pass_frame(classes, methods, frames, control);
    }
}

/// The handler that begins at an offset of the newest frame's code takes what is thrown: it stands alone on the stack (JVMS 2.10).
pub(crate) fn catch_thrown(methods: &Methods<'_>, frames: &mut Frames, pc: u16, address: u32)
    requires { CanCatch methods.now frames.old address }
    ensures { Catches methods.now frames.old pc address frames.new }
{
    let Some(FrameRecord::Runs(own)) = frames.records.pop() else {
        unreachable!();
    };
    let code = code_of(methods, own.method);
    let top = own.base as usize + usize::from(code.max_locals);
    frames.top = push_word(&mut frames.words, top, address);
    push_record(
        &mut frames.records,
        FrameRecord::Runs(MethodRecord {
            method: own.method,
            pc: u32::from(pc),
            base: own.base,
        }),
    );
}
