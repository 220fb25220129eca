//! Linking (JVMS 5.4): what references to classes, fields and methods resolve to at a site, or the named error; which method a
//! call runs; what is initialized before a class (JVMS 5.5), and where its objects keep their fields.
#![tactic(auto)]

mod access;
mod alike;
mod chain;
mod class;
mod climbing;
mod ending;
mod error;
mod field;
mod giving;
mod kind;
mod laying;
mod layout;
mod meeting;
mod member;
mod method;
mod order;
mod reference;
mod selection;
mod site;
mod special;
mod target;

pub use access::same_package;
pub use class::{constants_class, created, resolve_class, same_class};
pub use error::LinkError;
pub use field::{constants_field, resolve_field};
pub use kind::{callable_with, usable_with};
pub use laying::layout_of;
pub use layout::{Layout, PlacedField};
pub use member::{class_at, field_at, method_at};
pub use method::{constants_method, resolve_method};
pub use order::init_order;
pub use selection::select;
pub use site::{Site, Use};
pub use target::{ClassRef, MethodTarget};
