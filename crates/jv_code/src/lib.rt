//! Code as a list of instructions (JVMS 4.7.3, 4.9.1, 6.5).
#![tactic(auto)]

mod code;
mod insn;
mod kinds;
mod law;
mod numbers;
mod profile;
mod reading;
mod shapes;
mod skipping;
mod starts;
mod successors;
mod switches;
mod target;

pub use code::{BadCode, Code};
pub use insn::Insn;
pub use kinds::{
    ArithmeticOperator, Computation, Condition, Conversion, DivisionOperator, ElementType,
    Equality, FieldAccess, IncrementForm, IndexForm, IntForm, Invocation, JumpForm, LocalForm,
    LongValue, NumberElement, NumberKind, ShiftOperator, StackForm, Test, ValueKind, WordKind,
};
pub use law::{
    bytes_join, code_is_supported, distances_stand, each_has_distance, fits_there, keys_rise,
    next_starts, one_at_offset, one_list, pairs_stand, stands_as_spelled, stands_in_list,
    starts_apart,
};
pub use profile::{unsupported, unsupported_at};
pub use starts::Starts;
pub use successors::{falls_through, jump_distance};
pub use switches::{distance_at, distance_for, first_distance, first_pair, pair_at};
pub use target::target_of;
