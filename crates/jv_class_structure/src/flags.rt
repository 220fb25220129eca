//! Access flags (JVMS tables 4.1-A, 4.5-A and 4.6-A). A value keeps every bit of the file, also
//! those without a name.

ghost use Rattle.std.specs.Prelude.{⊤, [], ◌∷◌, codes};

use bitflags::{Flag, Flags, bitflag_items};

/// The access flags of a class or an interface (JVMS 4.1, table 4.1-A).
#[derive(Clone, Copy)]
pub struct ClassFlags(pub u16);

bitflag_items! {
    impl ClassFlags: u16 {
        const PUBLIC = 0x0001;
        const FINAL = 0x0010;
        const SUPER = 0x0020;
        const INTERFACE = 0x0200;
        const ABSTRACT = 0x0400;
        const SYNTHETIC = 0x1000;
        const ANNOTATION = 0x2000;
        const ENUM = 0x4000;
    }
}

impl Flags for ClassFlags {
    type Bits = u16;

    ghost exact = { ⊤ };

    ghost table = { (codes "PUBLIC", 1) ∷ (codes "FINAL", 16) ∷ (codes "SUPER", 32) ∷ (codes "INTERFACE", 512)
        ∷ (codes "ABSTRACT", 1024) ∷ (codes "SYNTHETIC", 4096) ∷ (codes "ANNOTATION", 8192) ∷ (codes "ENUM", 16384) ∷ [] };

    ghost set_of = { λ f. f.0 };

    fn flags<'a>() -> &'a [Flag<ClassFlags>] {
        ClassFlags::FLAGS
    }

    fn bits(&self) -> u16 {
        self.0
    }

    fn from_bits_retain(bits: u16) -> ClassFlags {
        ClassFlags(bits)
    }
}

/// The access flags of a field (JVMS 4.5, table 4.5-A).
#[derive(Clone, Copy)]
pub struct FieldFlags(pub u16);

bitflag_items! {
    impl FieldFlags: u16 {
        const PUBLIC = 0x0001;
        const PRIVATE = 0x0002;
        const PROTECTED = 0x0004;
        const STATIC = 0x0008;
        const FINAL = 0x0010;
        const VOLATILE = 0x0040;
        const TRANSIENT = 0x0080;
        const SYNTHETIC = 0x1000;
        const ENUM = 0x4000;
    }
}

impl Flags for FieldFlags {
    type Bits = u16;

    ghost exact = { ⊤ };

    ghost table = { (codes "PUBLIC", 1) ∷ (codes "PRIVATE", 2) ∷ (codes "PROTECTED", 4) ∷ (codes "STATIC", 8) ∷ (codes "FINAL", 16)
        ∷ (codes "VOLATILE", 64) ∷ (codes "TRANSIENT", 128) ∷ (codes "SYNTHETIC", 4096) ∷ (codes "ENUM", 16384) ∷ [] };

    ghost set_of = { λ f. f.0 };

    fn flags<'a>() -> &'a [Flag<FieldFlags>] {
        FieldFlags::FLAGS
    }

    fn bits(&self) -> u16 {
        self.0
    }

    fn from_bits_retain(bits: u16) -> FieldFlags {
        FieldFlags(bits)
    }
}

/// The access flags of a method (JVMS 4.6, table 4.6-A).
#[derive(Clone, Copy)]
pub struct MethodFlags(pub u16);

bitflag_items! {
    impl MethodFlags: u16 {
        const PUBLIC = 0x0001;
        const PRIVATE = 0x0002;
        const PROTECTED = 0x0004;
        const STATIC = 0x0008;
        const FINAL = 0x0010;
        const SYNCHRONIZED = 0x0020;
        const BRIDGE = 0x0040;
        const VARARGS = 0x0080;
        const NATIVE = 0x0100;
        const ABSTRACT = 0x0400;
        const STRICT = 0x0800;
        const SYNTHETIC = 0x1000;
    }
}

impl Flags for MethodFlags {
    type Bits = u16;

    ghost exact = { ⊤ };

    ghost table = { (codes "PUBLIC", 1) ∷ (codes "PRIVATE", 2) ∷ (codes "PROTECTED", 4) ∷ (codes "STATIC", 8) ∷ (codes "FINAL", 16)
        ∷ (codes "SYNCHRONIZED", 32) ∷ (codes "BRIDGE", 64) ∷ (codes "VARARGS", 128) ∷ (codes "NATIVE", 256)
        ∷ (codes "ABSTRACT", 1024) ∷ (codes "STRICT", 2048) ∷ (codes "SYNTHETIC", 4096) ∷ [] };

    ghost set_of = { λ f. f.0 };

    fn flags<'a>() -> &'a [Flag<MethodFlags>] {
        MethodFlags::FLAGS
    }

    fn bits(&self) -> u16 {
        self.0
    }

    fn from_bits_retain(bits: u16) -> MethodFlags {
        MethodFlags(bits)
    }
}
