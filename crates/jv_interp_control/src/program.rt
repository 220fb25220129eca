//! A guest's program.

use jv_interp_members::Methods;
use jv_interp_objects::Texts;
use jv_loader::Classes;

/// A guest's program, which stays as it is while the guest runs: its classes, their methods, the texts of their string literals (JVMS 5.1),
/// and which of the classes were verified (5.4.1). What its classes link to goes beside it, since steps find more of that.
#[derive(Clone, Copy)]
pub struct Program<'p, 'a> {
    /// The classes of the guest.
    pub classes: &'p Classes<'a>,
    /// The methods of these classes.
    pub methods: &'p Methods<'a>,
    /// The texts of their string literals.
    pub texts: &'p Texts<'a>,
    /// Of each class, by its number, whether it and all above it were accepted.
    pub verified: &'p [bool],
}
