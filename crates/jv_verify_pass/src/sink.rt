//! The instructions of a method with the frames before them, for those who want to know what the rules saw there (JVMS 4.10.1.6).

ghost use Rattle.std.specs.Prelude.{◌≡◌, Bool, OnOk};
ghost use Rattle.jv_verify_pass.specs.declared.sink.FramedInsn.{FramedInsn};

use crate::named::NamedFrame;
use jv_code::Insn;
use std::alloc::{AllocError, Global};

/// An instruction, and the frames before it: the one that falls into it, where one does, and that of the stack map, where it has one
/// there. The latter is then the frame before the instruction.
pub struct FramedInsn<'a> {
    /// Its offset in the code, in bytes.
    pub offset: u32,
    /// The instruction.
    pub insn: Insn<&'a [u8]>,
    /// What falls into it.
    pub falling: Option<NamedFrame<'a>>,
    /// The frame of the stack map.
    pub map: Option<NamedFrame<'a>>,
}

impl Drop for FramedInsn<'_> {
    fn drop(self) {
        let FramedInsn {
            offset: _,
            insn: _,
            falling: _,
            map: _,
        } = self;
    }
}

/// Takes the instructions of a method, the first first, each with the frames before it, as long as it wants more.
pub trait FrameSink<'a> {
    /// What it is before it took an instruction, and behind.
    ghost takes: { Self → FramedInsn → Self → Type 0 };

    /// Whether it wants no more.
    ghost full: { Self → Bool };

    /// Whether it wants no more.
    fn is_full(&self) -> bool
        ensures { result ≡ full self.now };

    /// Takes an instruction.
    ///
    /// # Errors
    ///
    /// Where the host had no memory for it.
    fn take(&mut self, alloc: Global, framed: &FramedInsn<'a>) -> Result<(), AllocError>
        ensures { OnOk result (takes self.old framed.now self.new) };
}
