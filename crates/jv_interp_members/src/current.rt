//! What an instruction is executed at.

use crate::methods::Methods;
use jv_interp_held::ClassState;
use jv_link::Site;
use jv_loader::Classes;

/// What an instruction is executed at, and changes nothing of: the classes and methods of its program, how far each class's initialization
/// is (JVMS 5.5), the current class and method (2.6), and the offset of the next instruction.
#[derive(Clone, Copy)]
pub struct Current<'c, 'a> {
    /// The classes of the program.
    pub classes: &'c Classes<'a>,
    /// The methods of these classes.
    pub methods: &'c Methods<'a>,
    /// How far the initialization of each class is, by the class's number.
    pub states: &'c [ClassState],
    /// The current class and method.
    pub site: Site,
    /// The offset in the method's code at which the next instruction stands.
    pub next: u32,
}
