//! The constant pool of a class file (JVMS 4.4).
//!
//! [`read_pool`] reads the pool at the front of bytes, exactly where one stands there; the
//! definition is `specs/Rules.antt`. A [`Pool`] answers what an index names. Its texts are parts
//! of the file, so only the table of constants and what is known of its texts take memory. Each
//! text is examined once, when the pool is read. Who tells what is wrong with a pool takes the steps of
//! [`read_pool`] one by one: [`table_at`], [`all_alike`], [`Known::new`] and [`keeps_rules_at`].
#![tactic(auto)]

mod alike;
mod constant;
mod facts;
mod fault;
mod index;
mod known;
mod law;
mod pool;
mod reading;
mod rules;
mod shape;
mod table;
mod texts;

pub use alike::all_alike;
pub use constant::{Constant, Kind, MemberName, NameAndTypeTexts};
pub use facts::{ConstantValueKind, FieldFacts, MethodFacts, TextFacts};
pub use fault::PoolFault;
pub use index::{
    ClassIndex, FieldrefIndex, IntegerIndex, InterfaceMethodrefIndex, LongIndex, MethodrefIndex,
    NameAndTypeIndex, StringIndex, Utf8Index,
};
pub use known::Known;
pub use law::{holds_at_index, kinds_name, one_pool};
pub use pool::{Pool, read_pool};
pub use reading::{constant_at, table_at};
pub use rules::keeps_rules_at;
pub use table::Table;
