//! What is said of bytes that hold no class, for people: in which part they break the rules of a class file, or which version they are of
//! (JVMS 4.1).
#![tactic(auto)]

mod part;
mod pool;
mod pool_text;
mod rules;
mod rules_text;
mod structure;
mod structure_text;
mod text;
mod version;

pub use part::{FaultyPart, faulty_part};
pub use pool::FaultyPool;
pub use rules::FaultyRules;
pub use structure::FaultyStructure;
pub use text::explain_malformed;
pub use version::explain_version;
