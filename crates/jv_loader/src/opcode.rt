//! The opcodes of the system classes' code (JVMS 6.5).

pub(crate) const ICONST_0: u8 = 3;

pub(crate) const ICONST_1: u8 = 4;

pub(crate) const BIPUSH: u8 = 16;

pub(crate) const ILOAD_1: u8 = 27;

pub(crate) const ILOAD_2: u8 = 28;

pub(crate) const ILOAD_3: u8 = 29;

pub(crate) const ALOAD_0: u8 = 42;

pub(crate) const ALOAD_1: u8 = 43;

pub(crate) const ALOAD_2: u8 = 44;

pub(crate) const CALOAD: u8 = 52;

pub(crate) const ISTORE_1: u8 = 60;

pub(crate) const ISTORE_2: u8 = 61;

pub(crate) const ISTORE_3: u8 = 62;

pub(crate) const ASTORE_2: u8 = 77;

pub(crate) const IADD: u8 = 96;

pub(crate) const IMUL: u8 = 104;

pub(crate) const IINC: u8 = 132;

pub(crate) const IFNE: u8 = 154;

pub(crate) const IF_ICMPEQ: u8 = 159;

pub(crate) const IF_ICMPGE: u8 = 162;

pub(crate) const IF_ACMPNE: u8 = 166;

pub(crate) const GOTO: u8 = 167;

pub(crate) const IRETURN: u8 = 172;

pub(crate) const ARETURN: u8 = 176;

pub(crate) const RETURN: u8 = 177;

pub(crate) const GETFIELD: u8 = 180;

pub(crate) const PUTFIELD: u8 = 181;

pub(crate) const INVOKESPECIAL: u8 = 183;

pub(crate) const ARRAYLENGTH: u8 = 190;

pub(crate) const CHECKCAST: u8 = 192;

pub(crate) const INSTANCEOF: u8 = 193;
