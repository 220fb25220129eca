//! The class table of a guest (JVMS 5.3): each class of its world as it was read, with its members at hand by name, who is above whom,
//! whose superclass is whose, and which can be loaded, answered without a search. Below it, tables that number a guest's classes: names in
//! the order in which they came, and relations on the numbers below some number, with what they reach in one step or more (5.3.5); and
//! texts that know their hashes.
#![tactic(auto)]

mod class_table;
mod declared_marks;
mod hashing;
mod host_io;
mod kept;
mod key_marks;
mod key_row;
mod law;
mod list;
mod loaded_class;
mod member;
mod members;
mod names;
mod once;
mod package;
mod reading;
mod relation;
mod short;
mod supers;
mod table;
mod text;

pub use class_table::ClassTable;
pub use hashing::{pool_hashes, text_in};
pub use key_marks::KeyMarks;
pub use key_row::KeyRow;
pub use law::short_ways;
pub use list::ClassList;
pub use loaded_class::LoadedClass;
pub use member::Member;
pub use members::member_key;
pub use names::Names;
pub use short::short_number;
pub use text::Text;
