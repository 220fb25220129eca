//! Where an instruction stands, and which it is.

/// A method that holds an instruction: the number of its class, the current class (JVMS 2.6), and its
/// place among the methods there.
#[derive(Clone, Copy)]
pub struct Site {
    pub class: usize,
    pub method: usize,
}

/// An instruction that names a field, a method or a class to be linked (JVMS 6.5).
#[derive(Clone, Copy)]
pub enum Use {
    Getstatic,
    Putstatic,
    Getfield,
    Putfield,
    Invokevirtual,
    Invokespecial,
    Invokestatic,
    Invokeinterface,
    New,
}
