//! Builds code, with labels for branches, switches and handlers, and frames.

ghost use Rattle.std.specs.Prelude.{◌≡◌, IfOk, OnErr, OnOk, is_ok, map, length, if◌then◌else◌};
ghost use Rattle.jv_asm_builder.specs.Faults.{IsAnswer};
ghost use Rattle.jv_asm_builder.specs.Assembly.{Assembly, TableSwitch, LookupSwitch, no_steps, with_label, with_place, with_frame, steps_end, code_size, place_in, assembled_bytes, exception_table, stack_map_table, assembled_code, IsStepAdded, IsItemAdded, with_handler_at};
ghost use Rattle.jv_asm_builder.specs.Inside.Kept.{step_kept, frame_kept, contents_kept, parts_kept};

use crate::fault::BuilderFault;
use crate::frame::{BuiltFrame, VerificationType, stack_map_contents};
use crate::step::{BuilderStep, HandlerLabels, Label, size_at};
use crate::targets::{code, handlers};
use jv_asm::{AsmFault, Handler, Item};
use std::alloc::{AllocError, Global};
use std::marker::Model;

/// Instructions in their order, the labels among them, and the frames of a StackMapTable.
///
/// A label is a number: one of another builder stands for this builder's label of that number, and
/// without one for a label that is not placed. Where a call is refused, nothing changes. An
/// instruction is refused as `TooLarge` where the code would have more than 65,535 bytes.
#[derive(Drop)]
pub struct CodeBuilder<'a> {
    alloc: Global,
    steps: Vec<BuilderStep<'a>>,
    size: u16,
    places: Vec<Option<u16>>,
    handlers: Vec<HandlerLabels>,
    frames: Vec<BuiltFrame>,
}

impl<'a> Model for CodeBuilder<'a> {
    ghost Value = { Assembly };

    ghost view = { λ b. record {
      steps = map step_kept b.steps.items;
      places = b.places.items;
      handlers = b.handlers.items;
      frames = map frame_kept b.frames.items;
    } };

    ghost invariant = { λ b. b.size ≡ steps_end 0 (map step_kept b.steps.items) };
}

/// What a Code attribute holds of code that was built.
#[derive(Drop)]
pub(crate) struct BuiltParts {
    pub(crate) code: Vec<u8>,
    pub(crate) exception_table: Vec<Handler>,
    pub(crate) stack_map_table: Option<Vec<u8>>,
}

impl<'a> CodeBuilder<'a> {
    /// No instructions.
    pub fn new(alloc: Global) -> CodeBuilder<'a>
        ensures { result ≡ no_steps }
    {
        CodeBuilder {
            alloc,
            steps: Vec::new(alloc),
            size: 0,
            places: Vec::new(alloc),
            handlers: Vec::new(alloc),
            frames: Vec::new(alloc),
        }
    }

    pub(crate) fn step(&mut self, step: BuilderStep<'a>) -> Result<(), AsmFault>
        ensures { IsStepAdded self.old (step_kept step.entry) result self.new }
    {
        let size = u64::from(self.size);
        let size = size + size_at(size, &step);
        if size > 65535 {
            return Err(AsmFault::TooLarge);
        }
        self.steps.push(step)?;
        self.size = size as u16;
        Ok(())
    }

    /// Any instruction, as it is spelled.
    pub fn item(&mut self, item: Item<'a>) -> Result<(), AsmFault>
        ensures { IsItemAdded self.old item.entry result self.new }
    {
        self.step(BuilderStep::Unlabelled(item))
    }

    /// `tableswitch`: the default label, the lowest and the highest number with a label of its own,
    /// and these labels.
    pub fn tableswitch(
        &mut self,
        default: Label,
        low: i32,
        high: i32,
        targets: &[Label],
    ) -> Result<(), AsmFault>
        ensures { IsStepAdded self.old (TableSwitch default low high targets.now) result self.new }
    {
        let mut kept = Vec::new(self.alloc);
        kept.extend_from_slice(targets)?;
        self.step(BuilderStep::Tableswitch(default, low, high, kept))
    }

    /// `lookupswitch`: the default label, and the pairs of a key and its label.
    pub fn lookupswitch(&mut self, default: Label, cases: &[(i32, Label)]) -> Result<(), AsmFault>
        ensures { IsStepAdded self.old (LookupSwitch default cases.now) result self.new }
    {
        let mut kept = Vec::new(self.alloc);
        kept.extend_from_slice(cases)?;
        self.step(BuilderStep::Lookupswitch(default, kept))
    }

    /// Where the next instruction will stand.
    pub fn offset(&self) -> u16
        ensures { result ≡ code_size self.now }
    {
        self.size
    }

    /// A new label, not placed yet.
    pub fn label(&mut self) -> Result<Label, AllocError>
        ensures label { IfOk result (λ label. label.number ≡ length self.old.places) }
        ensures added { self.new ≡ (if is_ok result then with_label self.old else self.old) }
    {
        let number = self.places.len();
        self.places.push(None)?;
        Ok(Label { number })
    }

    /// Places a label of this builder before the next instruction.
    pub fn place(&mut self, label: Label)
        ensures { self.new ≡ with_place self.old label.number }
    {
        if label.number < self.places.len() {
            self.places[label.number] = Some(self.size);
        }
    }

    /// A new label before the next instruction.
    pub fn here(&mut self) -> Result<Label, AllocError>
        ensures label { IfOk result (λ label. label.number ≡ length self.old.places) }
        ensures placed { OnOk result (self.new ≡ with_place (with_label self.old) (length self.old.places)) }
        ensures refused { OnErr result (self.new ≡ self.old) }
    {
        let label = self.label()?;
        self.place(label);
        Ok(label)
    }

    /// The offset of a label, once it is placed.
    pub fn offset_of(&self, label: Label) -> Option<u16>
        ensures { result ≡ place_in self.now.places label }
    {
        match self.places.get(label.number) {
            Some(place) => *place,
            None => None,
        }
    }

    /// Places a label of this builder before the next instruction, with a frame there: its local
    /// entries and its stack entries (JVMS 4.7.4). Frames stand in the StackMapTable in the order
    /// of these calls, each as a full frame.
    pub fn frame(
        &mut self,
        label: Label,
        locals: &[VerificationType],
        stack: &[VerificationType],
    ) -> Result<(), AllocError>
        ensures { self.new ≡ (if is_ok result then with_place (with_frame self.old locals.now stack.now) label.number else self.old) }
    {
        let mut kept_locals = Vec::new(self.alloc);
        kept_locals.extend_from_slice(locals)?;
        let mut kept_stack = Vec::new(self.alloc);
        kept_stack.extend_from_slice(stack)?;
        self.frames.push(BuiltFrame {
            offset: self.size,
            locals: kept_locals,
            stack: kept_stack,
        })?;
        self.place(label);
        Ok(())
    }

    /// A handler from one label up to another; `catch_type` 0 catches everything.
    pub fn handler(
        &mut self,
        start: Label,
        end: Label,
        handler: Label,
        catch_type: u16,
    ) -> Result<(), AllocError>
        ensures { self.new ≡ (if is_ok result then with_handler_at self.old start end handler catch_type else self.old) }
    {
        self.handlers.push(HandlerLabels {
            start,
            end,
            handler,
            catch_type,
        })?;
        Ok(())
    }

    /// The bytes of the code.
    ///
    /// # Errors
    ///
    /// `Unplaced` for a label of an instruction that was not placed, `TooLarge` where the distance of
    /// a branch does not fit two bytes, whichever comes first; `OutOfMemory` where the host's memory was
    /// refused.
    pub fn code(&self) -> Result<Vec<u8>, BuilderFault>
        ensures { IsAnswer (assembled_bytes self.now) (λ code. code.items) result }
    {
        let _size = self.size;
        code(self.alloc, &self.places, &self.steps)
    }

    /// The exception table.
    ///
    /// # Errors
    ///
    /// `Unplaced` for a label that was not placed; `OutOfMemory` where the host's memory was refused.
    pub fn exception_table(&self) -> Result<Vec<Handler>, BuilderFault>
        ensures { IsAnswer (exception_table self.now) (λ table. table.items) result }
    {
        handlers(self.alloc, &self.places, &self.handlers)
    }

    /// What the StackMapTable holds, if there are frames.
    ///
    /// # Errors
    ///
    /// `TwoFrames` where two frames stand at one place, `TooLarge` where a number of frames or
    /// entries does not fit two bytes; `OutOfMemory` where the host's memory was refused.
    pub fn stack_map_table(&self) -> Result<Option<Vec<u8>>, BuilderFault>
        ensures { IsAnswer (stack_map_table self.now.frames) contents_kept result }
    {
        stack_map_contents(self.alloc, &self.frames)
    }

    /// All of it.
    pub(crate) fn parts(&self) -> Result<BuiltParts, BuilderFault>
        ensures { IsAnswer (assembled_code self.now) parts_kept result }
    {
        let code = self.code()?;
        let exception_table = self.exception_table()?;
        let stack_map_table = self.stack_map_table()?;
        Ok(BuiltParts {
            code,
            exception_table,
            stack_map_table,
        })
    }
}
