//! Steps of code: instructions, with labels in place of distances.

ghost use Rattle.std.specs.Prelude.{◌<◌};
ghost use Rattle.jv_asm.specs.Items.{IsCapped};
ghost use Rattle.jv_asm_builder.specs.Assembly.{step_size};
ghost use Rattle.jv_asm_builder.specs.Inside.Kept.{step_kept};

use jv_asm::{Item, item_size, lookupswitch_size, tableswitch_size};

/// A place in code, by its number among the labels of its builder.
#[derive(Clone, Copy)]
pub struct Label {
    pub(crate) number: usize,
}

/// An instruction as it is spelled, or one with labels in place of its distances.
#[derive(Drop)]
pub(crate) enum BuilderStep<'a> {
    Unlabelled(Item<'a>),
    /// An opcode, and a distance of two bytes.
    Branch(u8, Label),
    /// As `Item::Tableswitch`.
    Tableswitch(Label, i32, i32, Vec<Label>),
    /// As `Item::Lookupswitch`.
    Lookupswitch(Label, Vec<(i32, Label)>),
}

/// An entry of an exception table (JVMS 4.7.3), by labels.
#[derive(Clone, Copy)]
pub(crate) struct HandlerLabels {
    pub(crate) start: Label,
    pub(crate) end: Label,
    pub(crate) handler: Label,
    pub(crate) catch_type: u16,
}

/// The size of a step at an offset; 65,536 or more stands for any size from there.
pub(crate) fn size_at(at: u64, step: &BuilderStep<'_>) -> u64
    ensures size { IsCapped (step_size at (step_kept step.now)) result }
    ensures small { result < 1000000 }
{
    match step {
        BuilderStep::Unlabelled(item) => item_size(at, item),
        BuilderStep::Branch(_, _) => 3,
        BuilderStep::Tableswitch(_, _, _, targets) => tableswitch_size(at, targets.len()),
        BuilderStep::Lookupswitch(_, cases) => lookupswitch_size(at, cases.len()),
    }
}
