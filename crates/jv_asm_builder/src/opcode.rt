//! Opcodes without operands, with an index and with a label, and the codes of array types (JVMS 6.5).

/// An instruction without operands, by its name.
#[derive(Clone, Copy)]
pub struct Op {
    pub(crate) opcode: u8,
}

impl Op {
    pub const NOP: Op = Op { opcode: 0 };

    pub const ACONST_NULL: Op = Op { opcode: 1 };

    pub const LCONST_0: Op = Op { opcode: 9 };

    pub const LCONST_1: Op = Op { opcode: 10 };

    pub const IALOAD: Op = Op { opcode: 46 };

    pub const LALOAD: Op = Op { opcode: 47 };

    pub const AALOAD: Op = Op { opcode: 50 };

    pub const BALOAD: Op = Op { opcode: 51 };

    pub const CALOAD: Op = Op { opcode: 52 };

    pub const SALOAD: Op = Op { opcode: 53 };

    pub const IASTORE: Op = Op { opcode: 79 };

    pub const LASTORE: Op = Op { opcode: 80 };

    pub const AASTORE: Op = Op { opcode: 83 };

    pub const BASTORE: Op = Op { opcode: 84 };

    pub const CASTORE: Op = Op { opcode: 85 };

    pub const SASTORE: Op = Op { opcode: 86 };

    pub const POP: Op = Op { opcode: 87 };

    pub const POP2: Op = Op { opcode: 88 };

    pub const DUP: Op = Op { opcode: 89 };

    pub const DUP_X1: Op = Op { opcode: 90 };

    pub const DUP_X2: Op = Op { opcode: 91 };

    pub const DUP2: Op = Op { opcode: 92 };

    pub const DUP2_X1: Op = Op { opcode: 93 };

    pub const DUP2_X2: Op = Op { opcode: 94 };

    pub const SWAP: Op = Op { opcode: 95 };

    pub const IADD: Op = Op { opcode: 96 };

    pub const LADD: Op = Op { opcode: 97 };

    pub const ISUB: Op = Op { opcode: 100 };

    pub const LSUB: Op = Op { opcode: 101 };

    pub const IMUL: Op = Op { opcode: 104 };

    pub const LMUL: Op = Op { opcode: 105 };

    pub const IDIV: Op = Op { opcode: 108 };

    pub const LDIV: Op = Op { opcode: 109 };

    pub const IREM: Op = Op { opcode: 112 };

    pub const LREM: Op = Op { opcode: 113 };

    pub const INEG: Op = Op { opcode: 116 };

    pub const LNEG: Op = Op { opcode: 117 };

    pub const ISHL: Op = Op { opcode: 120 };

    pub const LSHL: Op = Op { opcode: 121 };

    pub const ISHR: Op = Op { opcode: 122 };

    pub const LSHR: Op = Op { opcode: 123 };

    pub const IUSHR: Op = Op { opcode: 124 };

    pub const LUSHR: Op = Op { opcode: 125 };

    pub const IAND: Op = Op { opcode: 126 };

    pub const LAND: Op = Op { opcode: 127 };

    pub const IOR: Op = Op { opcode: 128 };

    pub const LOR: Op = Op { opcode: 129 };

    pub const IXOR: Op = Op { opcode: 130 };

    pub const LXOR: Op = Op { opcode: 131 };

    pub const I2L: Op = Op { opcode: 133 };

    pub const L2I: Op = Op { opcode: 136 };

    pub const I2B: Op = Op { opcode: 145 };

    pub const I2C: Op = Op { opcode: 146 };

    pub const I2S: Op = Op { opcode: 147 };

    pub const LCMP: Op = Op { opcode: 148 };

    pub const IRETURN: Op = Op { opcode: 172 };

    pub const LRETURN: Op = Op { opcode: 173 };

    pub const ARETURN: Op = Op { opcode: 176 };

    pub const RETURN: Op = Op { opcode: 177 };

    pub const ARRAYLENGTH: Op = Op { opcode: 190 };

    pub const ATHROW: Op = Op { opcode: 191 };
}

/// An instruction with the index of a constant in two bytes, by its name: of a long, a field, a method, or a class or array type.
#[derive(Clone, Copy)]
pub struct IndexOp {
    pub(crate) opcode: u8,
}

impl IndexOp {
    pub const LDC2_W: IndexOp = IndexOp { opcode: 20 };

    pub const GETSTATIC: IndexOp = IndexOp { opcode: 178 };

    pub const PUTSTATIC: IndexOp = IndexOp { opcode: 179 };

    pub const GETFIELD: IndexOp = IndexOp { opcode: 180 };

    pub const PUTFIELD: IndexOp = IndexOp { opcode: 181 };

    pub const INVOKEVIRTUAL: IndexOp = IndexOp { opcode: 182 };

    pub const INVOKESPECIAL: IndexOp = IndexOp { opcode: 183 };

    pub const INVOKESTATIC: IndexOp = IndexOp { opcode: 184 };

    pub const NEW: IndexOp = IndexOp { opcode: 187 };

    pub const ANEWARRAY: IndexOp = IndexOp { opcode: 189 };

    pub const CHECKCAST: IndexOp = IndexOp { opcode: 192 };

    pub const INSTANCEOF: IndexOp = IndexOp { opcode: 193 };
}

/// A branch of two bytes, by its name.
#[derive(Clone, Copy)]
pub struct BranchOp {
    pub(crate) opcode: u8,
}

impl BranchOp {
    pub const IFEQ: BranchOp = BranchOp { opcode: 153 };

    pub const IFNE: BranchOp = BranchOp { opcode: 154 };

    pub const IFLT: BranchOp = BranchOp { opcode: 155 };

    pub const IFGE: BranchOp = BranchOp { opcode: 156 };

    pub const IFGT: BranchOp = BranchOp { opcode: 157 };

    pub const IFLE: BranchOp = BranchOp { opcode: 158 };

    pub const IF_ICMPEQ: BranchOp = BranchOp { opcode: 159 };

    pub const IF_ICMPNE: BranchOp = BranchOp { opcode: 160 };

    pub const IF_ICMPLT: BranchOp = BranchOp { opcode: 161 };

    pub const IF_ICMPGE: BranchOp = BranchOp { opcode: 162 };

    pub const IF_ICMPGT: BranchOp = BranchOp { opcode: 163 };

    pub const IF_ICMPLE: BranchOp = BranchOp { opcode: 164 };

    pub const IF_ACMPEQ: BranchOp = BranchOp { opcode: 165 };

    pub const IF_ACMPNE: BranchOp = BranchOp { opcode: 166 };

    pub const GOTO: BranchOp = BranchOp { opcode: 167 };

    pub const IFNULL: BranchOp = BranchOp { opcode: 198 };

    pub const IFNONNULL: BranchOp = BranchOp { opcode: 199 };
}

/// The elements of an array that `newarray` makes (table 6.5.newarray-A).
#[derive(Clone, Copy)]
pub struct ArrayType {
    pub(crate) code: u8,
}

impl ArrayType {
    pub const BOOLEAN: ArrayType = ArrayType { code: 4 };

    pub const CHAR: ArrayType = ArrayType { code: 5 };

    pub const BYTE: ArrayType = ArrayType { code: 8 };

    pub const SHORT: ArrayType = ArrayType { code: 9 };

    pub const INT: ArrayType = ArrayType { code: 10 };

    pub const LONG: ArrayType = ArrayType { code: 11 };
}
