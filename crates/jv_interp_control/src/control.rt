//! What is kept of a guest beside its frames and its memory.

use jv_interp_held::ClassState;

/// How a guest ended, if it did: main returned, an object of the class with a number was thrown and not caught, or there was no main
/// method.
#[derive(Clone, Copy)]
pub enum End {
    Running,
    Returned,
    Threw(u32),
    NoMain,
}

/// Where an object was thrown: the number of a method among the methods of all classes, and the offset of an instruction in it.
#[derive(Clone, Copy)]
pub struct PlaceRecord {
    pub method: u32,
    pub pc: u32,
}

/// The states of classes, throws, the main method and the end.
#[derive(Drop)]
pub struct Control {
    /// How far the initialization of each class is, by the class's number.
    pub states: Vec<ClassState>,
    /// How many throws there were, up to 2^64 - 1 (own).
    pub throws: u64,
    /// The number of the class of the last object that was thrown (own).
    pub last: Option<u32>,
    /// Where it was thrown, where that was in a method.
    pub place: Option<PlaceRecord>,
    /// The number of the main method among the methods of all classes, where there is one.
    pub main: Option<u32>,
    /// How the guest ended, if it did.
    pub end: End,
}
