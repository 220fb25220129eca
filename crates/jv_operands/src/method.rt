//! What is known of a method.

use jv_pool::Pool;
use jv_text::FieldType;

/// What the wants of a method's instructions depend on, beside the classes.
#[derive(Clone, Copy)]
pub struct MethodParts<'m, 'a> {
    /// The constants of its class.
    pub pool: &'m Pool<'a>,
    /// The name of its class.
    pub class: &'a [u8],
    /// Its own name.
    pub name: &'a [u8],
    /// The type of its result; `None` for void.
    pub result: Option<FieldType<'a>>,
}
