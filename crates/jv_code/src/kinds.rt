//! What the instructions of one shape differ in (JVMS 6.5).

/// What a local or a method's result holds.
#[derive(Clone, Copy)]
pub enum ValueKind {
    Int,
    Long,
    /// An object, an array or null.
    Reference,
}

/// What a local of one word holds.
#[derive(Clone, Copy)]
pub enum WordKind {
    Int,
    /// An object, an array or null.
    Reference,
}

/// Which numbers an operation takes.
#[derive(Clone, Copy)]
pub enum NumberKind {
    Int,
    Long,
}

/// Where an instruction holds the number of a local.
#[derive(Clone, Copy)]
pub enum LocalForm {
    /// In its opcode: 0 to 3, as `iload_0`.
    Opcode,
    /// In one byte, as `iload`.
    Byte,
    /// In two bytes, behind `wide`.
    Wide,
}

/// Where an instruction holds the number that it adds to a local.
#[derive(Clone, Copy)]
pub enum IncrementForm {
    /// Local and number in one byte each, `iinc`.
    Byte,
    /// Both in two bytes, behind `wide`.
    Wide,
}

/// Where an instruction holds the int that it pushes.
#[derive(Clone, Copy)]
pub enum IntForm {
    /// In its opcode: -1 to 5, as `iconst_m1`.
    Opcode,
    /// In one byte, `bipush`.
    Byte,
    /// In two bytes, `sipush`.
    Half,
}

/// The long that an instruction pushes.
#[derive(Clone, Copy)]
pub enum LongValue {
    /// `lconst_0`.
    Zero,
    /// `lconst_1`.
    One,
}

/// Where an instruction holds the index of the constant that it pushes.
#[derive(Clone, Copy)]
pub enum IndexForm {
    /// In one byte, `ldc`.
    Byte,
    /// In two bytes, `ldc_w`.
    Half,
}

/// Where a jump holds its distance.
#[derive(Clone, Copy)]
pub enum JumpForm {
    /// In two bytes, `goto`.
    Half,
    /// In four bytes, `goto_w`.
    Quad,
}

/// What the numbers of an array are that an instruction loads or stores.
#[derive(Clone, Copy)]
pub enum NumberElement {
    Int,
    Long,
    /// `baload` and `bastore` serve arrays of byte and of boolean.
    ByteOrBoolean,
    Char,
    Short,
}

/// What the elements of a new array of `newarray` are.
#[derive(Clone, Copy)]
pub enum ElementType {
    /// 4.
    Boolean,
    /// 5.
    Char,
    /// 8.
    Byte,
    /// 9.
    Short,
    /// 10.
    Int,
    /// 11.
    Long,
}

/// What an instruction does with the words on top of the stack.
#[derive(Clone, Copy)]
pub enum StackForm {
    Pop,
    Pop2,
    Dup,
    DupX1,
    DupX2,
    Dup2,
    Dup2X1,
    Dup2X2,
    Swap,
}

/// An operation on two numbers of one kind, which never throws.
#[derive(Clone, Copy)]
pub enum ArithmeticOperator {
    Add,
    Subtract,
    Multiply,
    And,
    Or,
    Xor,
}

/// An operation on two numbers of one kind, which throws where the second is 0.
#[derive(Clone, Copy)]
pub enum DivisionOperator {
    Divide,
    Remainder,
}

/// An operation on a number and an int, the number of places.
#[derive(Clone, Copy)]
pub enum ShiftOperator {
    Left,
    /// With copies of the sign.
    Right,
    /// With zeros.
    UnsignedRight,
}

/// From one kind of number to another.
#[derive(Clone, Copy)]
pub enum Conversion {
    IntToLong,
    LongToInt,
    IntToByte,
    IntToChar,
    IntToShort,
}

/// An instruction that takes numbers from the stack and gives one, and does nothing else: it
/// never throws, and looks nothing up.
#[derive(Clone, Copy)]
pub enum Computation {
    /// Gives an int that it holds: `iconst_<i>`, `bipush`, `sipush`.
    IntConstant(i16, IntForm),
    /// Gives a long that it holds: `lconst_<l>`.
    LongConstant(LongValue),
    /// `iadd`, `ladd` and their kin.
    Arithmetic(NumberKind, ArithmeticOperator),
    /// `ineg`, `lneg`.
    Negate(NumberKind),
    /// `ishl`, `lshl` and their kin.
    Shift(NumberKind, ShiftOperator),
    /// `i2l` and its kin.
    Convert(Conversion),
    /// `lcmp`.
    CompareLongs,
}

/// When a branch is taken.
#[derive(Clone, Copy)]
pub enum Test {
    /// Where an int is so to 0: `ifeq` and its kin.
    IfInt(Condition),
    /// Where two ints are so: `if_icmpeq` and its kin.
    IfInts(Condition),
    /// Where two references are so: `if_acmpeq`, `if_acmpne`.
    IfReferences(Equality),
    /// Where a reference is so to null: `ifnull`, `ifnonnull`.
    IfNull(Equality),
}

/// What two ints are compared by, or one int and 0.
#[derive(Clone, Copy)]
pub enum Condition {
    Equal,
    NotEqual,
    Less,
    GreaterOrEqual,
    Greater,
    LessOrEqual,
}

/// What two references are compared by, or one and null.
#[derive(Clone, Copy)]
pub enum Equality {
    Same,
    Different,
}

/// What an instruction does with a field.
#[derive(Clone, Copy)]
pub enum FieldAccess {
    GetStatic,
    PutStatic,
    GetField,
    PutField,
}

/// How an instruction calls a method; `invokeinterface` is apart.
#[derive(Clone, Copy)]
pub enum Invocation {
    Virtual,
    Special,
    Static,
}
