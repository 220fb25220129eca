//! The errors of linking.

/// What linking ends in where it finds no target (JVMS 5.4): the class of java/lang whose object is
/// thrown.
#[derive(Clone, Copy)]
pub enum LinkError {
    /// A class is not there, or a super of it is not there or can't be loaded.
    NoClassDefFoundError,
    /// A class is above itself.
    ClassCircularityError,
    /// A class, a field or a method is of another kind than its use.
    IncompatibleClassChangeError,
    /// The current class can't access a class, a field or a method, or can't set a final field.
    IllegalAccessError,
    /// No answer of linking: a class is to be initialized that was not accepted.
    VerifyError,
    /// No such field.
    NoSuchFieldError,
    /// No such method.
    NoSuchMethodError,
    /// No method to run, or one that is abstract.
    AbstractMethodError,
    /// `new` of an interface or an abstract class.
    InstantiationError,
}
