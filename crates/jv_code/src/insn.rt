//! Instructions (JVMS 6.5).

ghost use Rattle.std.specs.Prelude.{◌≡◌};

use crate::kinds::{
    Computation, DivisionOperator, ElementType, FieldAccess, IncrementForm, IndexForm, Invocation,
    JumpForm, LocalForm, NumberElement, NumberKind, StackForm, Test, ValueKind, WordKind,
};
use std::alloc::AllocError;

/// An instruction of the profile (JVMS 6.5), as it stands in code.
///
/// A `T` is bytes: a part of the code, or a list of numbers in definitions. An instruction that
/// has several spellings holds the one that stands there in a field of its own, the last: so
/// the bytes are a function of the value, and a rule that does not ask for the spelling leaves
/// that field alone. An index is that of a constant of the class, and a local has a number. A
/// distance is a number of bytes from the instruction's own offset.
pub enum Insn<T> {
    /// `nop`.
    Nop,
    /// Pushes null: `aconst_null`.
    NullConstant,
    /// Takes numbers and gives one: constants that it holds, arithmetic, shifts, conversions.
    Compute(Computation),
    /// Pushes the constant of one word at the index: `ldc`, `ldc_w`.
    PoolConstant(u16, IndexForm),
    /// Pushes the constant of two words at the index: `ldc2_w`.
    PoolLongConstant(u16),
    /// Pushes a local: `iload`, `lload`, `aload`.
    Load(ValueKind, u16, LocalForm),
    /// Pops one word into a local: `istore`, `astore`.
    Store(WordKind, u16, LocalForm),
    /// Pops a long into a local and the one after it: `lstore`.
    StoreLong(u16, LocalForm),
    /// Pushes a number of an array: `iaload` and its kin.
    ArrayLoad(NumberElement),
    /// Pushes a reference of an array: `aaload`.
    ReferenceArrayLoad,
    /// Pops a number into an array: `iastore` and its kin.
    ArrayStore(NumberElement),
    /// Pops a reference into an array: `aastore`.
    ReferenceArrayStore,
    /// Moves words of the stack: `pop` to `swap`.
    Stack(StackForm),
    /// `idiv`, `ldiv`, `irem`, `lrem`.
    Division(NumberKind, DivisionOperator),
    /// Adds a number to an int local: `iinc`.
    Increment(u16, i16, IncrementForm),
    /// Jumps the distance where the test holds: `ifeq` to `if_acmpne`, `ifnull`, `ifnonnull`.
    Branch(Test, i16),
    /// Jumps the distance: `goto`, `goto_w`.
    Goto(i32, JumpForm),
    /// `tableswitch`: the padding, the default distance, the lowest and the highest number that
    /// has a distance of its own, and these distances, four bytes each.
    TableSwitch(T, i32, i32, i32, T),
    /// `lookupswitch`: the padding, the default distance, and the pairs of a key and its
    /// distance, eight bytes each.
    LookupSwitch(T, i32, T),
    /// Leaves the method with a value: `ireturn`, `lreturn`, `areturn`.
    ReturnValue(ValueKind),
    /// Leaves the method without a value: `return`.
    Return,
    /// `getstatic`, `putstatic`, `getfield`, `putfield`, with the field's index.
    Field(FieldAccess, u16),
    /// `invokevirtual`, `invokespecial`, `invokestatic`, with the method's index.
    Invoke(Invocation, u16),
    /// `invokeinterface`, with the method's index and the count that stands behind it.
    InvokeInterface(u16, u8),
    /// `new`, with the class's index.
    New(u16),
    /// `newarray`.
    NewArray(ElementType),
    /// `anewarray`, with the index of the elements' class.
    NewReferenceArray(u16),
    /// `multianewarray`, with the index of the array's class and the number of dimensions.
    NewMultiArray(u16, u8),
    /// `arraylength`.
    ArrayLength,
    /// `athrow`.
    Throw,
    /// `checkcast`, with the class's index.
    CheckCast(u16),
    /// `instanceof`, with the class's index.
    InstanceOf(u16),
}

impl<T: Copy> Clone for Insn<T> {
    ghost is_clone = { λ x y. y ≡ x };

    ghost is_infallible = { λ _. Unit {0} };

    fn clone(&self) -> Result<Self, AllocError> {
        Ok(*self)
    }
}

impl<T: Copy> Copy for Insn<T> {}
