//! A guest's objects in the blocks of a store (JVMS 2.4, 2.5.3, 2.7): how they stand there, how they are made, and how what they hold is
//! read and written; what narrowing and storing do (2.11.4, aastore); and the numbers of the system's classes. A room of `jv_interp`,
//! and a door: the host names its definitions too.
#![tactic(auto)]

mod array_stores;
mod blocks;
mod narrowing;
mod numbers;

pub use array_stores::store_reference;
pub use blocks::{make_array, make_object};
pub use narrowing::{Narrowing, narrowed};
pub use numbers::{
    ABSTRACT_METHOD, ARITHMETIC, ARRAY_INDEX, ARRAY_STORE, CIRCULARITY, CLASS_CAST, CLASS_CHANGE,
    ERROR, ILLEGAL_ACCESS, IN_INITIALIZER, INSTANTIATION, NEGATIVE_SIZE, NO_CLASS, NO_FIELD,
    NO_METHOD, NULL_POINTER, OUT_OF_MEMORY, STACK_OVERFLOW, STRING, VERIFY, system_has_numbers,
};
