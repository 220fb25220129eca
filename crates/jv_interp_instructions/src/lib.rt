//! What each instruction does in a frame that stands in words, as an effect by numbers (JVMS 6.5). A room of `jv_interp`.
#![tactic(auto)]

mod array_loads;
mod array_stores;
mod calls;
mod executing;
mod families;
mod fields;
mod long_constants;
mod new_arrays;
mod on_words;
mod pool_constants;

pub use executing::execute;
pub use families::{
    AnyInstruction, Arrays, ConstantLoads, Divisions, Execution, FieldGets, FieldPuts,
    InterfaceCalls, Objects, Returns, SpecialCalls, StaticCalls, VirtualCalls,
};
