//! Searches over a guest's class table: where a field and a method are found (JVMS 5.4.3), and which classes break a final
//! method (JVMS 4.10).
#![tactic(auto)]

mod above;
mod begun;
mod declared;
mod defaults;
mod field;
mod finals;
mod keys;
mod marks;
mod member;
mod method;
mod packages;
mod place;
mod searching;
mod superinterface;

pub use begun::Begun;
pub use defaults::Defaults;
pub use field::lookup_field;
pub use finals::{breaks_final, final_declarers};
pub use keys::{FinalKeys, final_keys};
pub use marks::Marks;
pub use member::{is_final_instance, is_instance, is_overridden};
pub use method::{class_method, lookup_method, method_of_object};
pub use packages::package_numbers;
pub use place::Place;
pub use searching::{interfaces_of, searched_from};
pub use superinterface::superinterface_defaults;
