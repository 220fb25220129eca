//! What a guest's files hold and the world of its classes (JVMS 4.1, 5.3): the system's classes by their names, what is above a
//! class, look-ups of members, which verification type and which frame flows to which (JVMS 4.10.1.2), and what is wrong with
//! a file before its methods are looked at. Definitions, worked rows and laws; no code that runs.
#![tactic(auto)]

mod content;
mod content_law;
mod flow_law;
mod law;
mod library_law;
mod order_law;
mod system_law;
mod verdict;

pub use content::{Content, FileClass};
pub use content_law::one_content;
pub use flow_law::flow_rows;
pub use law::{above_by_ways, above_is_transitive, file_rows, loadable_by_all};
pub use library_law::no_library_is_one;
pub use order_law::{
    above_is_below, array_below_class, below_is_above, below_is_kept, below_is_reference,
    below_is_transitive, components_are_below, files_are_rooted, flows_is_below,
    flows_is_reflexive, flows_to_object, order_rows,
};
pub use system_law::{library_rows, system_rows};
pub use verdict::LoadVerdict;
