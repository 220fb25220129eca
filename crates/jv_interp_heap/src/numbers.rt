//! The numbers of the system's classes that the machine itself names.

ghost use Rattle.jv_interp_heap.specs.SystemNumbers.{SystemHasNumbers};

/// java/lang/String.
pub const STRING: u32 = 3;

/// java/lang/Error.
pub const ERROR: u32 = 6;

/// java/lang/ArithmeticException.
pub const ARITHMETIC: u32 = 8;

/// java/lang/ArrayStoreException.
pub const ARRAY_STORE: u32 = 9;

/// java/lang/ClassCastException.
pub const CLASS_CAST: u32 = 10;

/// java/lang/NegativeArraySizeException.
pub const NEGATIVE_SIZE: u32 = 14;

/// java/lang/NullPointerException.
pub const NULL_POINTER: u32 = 15;

/// java/lang/ArrayIndexOutOfBoundsException.
pub const ARRAY_INDEX: u32 = 17;

/// java/lang/OutOfMemoryError.
pub const OUT_OF_MEMORY: u32 = 20;

/// java/lang/StackOverflowError.
pub const STACK_OVERFLOW: u32 = 21;

/// java/lang/ClassCircularityError.
pub const CIRCULARITY: u32 = 22;

/// java/lang/ExceptionInInitializerError.
pub const IN_INITIALIZER: u32 = 23;

/// java/lang/IncompatibleClassChangeError.
pub const CLASS_CHANGE: u32 = 24;

/// java/lang/NoClassDefFoundError.
pub const NO_CLASS: u32 = 25;

/// java/lang/VerifyError.
pub const VERIFY: u32 = 26;

/// java/lang/AbstractMethodError.
pub const ABSTRACT_METHOD: u32 = 27;

/// java/lang/IllegalAccessError.
pub const ILLEGAL_ACCESS: u32 = 28;

/// java/lang/InstantiationError.
pub const INSTANTIATION: u32 = 29;

/// java/lang/NoSuchFieldError.
pub const NO_FIELD: u32 = 30;

/// java/lang/NoSuchMethodError.
pub const NO_METHOD: u32 = 31;

/// In the world of each guest these are the classes' numbers. The call does nothing.
pub fn system_has_numbers()
    ensures { SystemHasNumbers }
{}
