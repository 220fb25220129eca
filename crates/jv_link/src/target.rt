//! What references resolve to.

use jv_loader::Place;
use jv_text::FieldType;

/// What a reference to a class resolves to (JVMS 5.4.3.1): a class or an interface by its number, or an
/// array by its type.
#[derive(Clone, Copy)]
pub enum ClassRef<'n> {
    Class(usize),
    Array(FieldType<'n>),
}

/// What a reference to a method resolves to (JVMS 5.4.3.3, 5.4.3.4): the number of the class that the
/// constant names, of java/lang/Object for an array, and the method's place.
#[derive(Clone, Copy)]
pub struct MethodTarget {
    pub named: usize,
    pub declared: Place,
}
