//! What is known of each text of a pool, found once.

/// Which constant a static field of a type may have as its value (JVMS 4.7.2, table 4.7.2-A).
#[derive(Clone, Copy)]
pub enum ConstantValueKind {
    /// int, short, char, byte and boolean: an Integer constant.
    Integer,
    /// long: a Long constant.
    Long,
    /// float and double.
    Floating,
    /// java/lang/String: a String constant.
    String,
    /// Any other type: none.
    Nothing,
}

/// What is known of a field descriptor (4.3.2).
#[derive(Clone, Copy)]
pub struct FieldFacts {
    /// Which constant a static field of this type may have as its value.
    pub value: ConstantValueKind,
    /// Whether the type is float or double, or an array of one of these.
    pub floating: bool,
}

/// What is known of a method descriptor (4.3.3).
#[derive(Clone, Copy)]
pub struct MethodFacts {
    /// The local variables that the parameters fill: 2 for a long and a double, 1 for every other.
    pub slots: u8,
    /// Whether the result is void.
    pub void: bool,
    /// Whether a parameter or the result is float or double, or an array of one of these.
    pub floating: bool,
}

/// What a text can be, as far as constants, fields and methods ask.
#[derive(Clone, Copy)]
pub struct TextFacts {
    /// Whether a Class constant can name it: a class name, or an array's field descriptor (4.4.1).
    pub names_class: bool,
    /// Whether it is an unqualified name (4.2.2).
    pub unqualified: bool,
    /// Whether it is a method name (4.2.2).
    pub method_name: bool,
    /// Where it is a field descriptor (4.3.2).
    pub field: Option<FieldFacts>,
    /// Where it is a method descriptor (4.3.3).
    pub method: Option<MethodFacts>,
}
