//! What is kept of a guest.

use jv_interp_control::{Control, Frames};
use jv_interp_held::Held;
use jv_interp_members::Methods;
use jv_interp_objects::Texts;
use jv_link_cache::Linked;
use jv_verify::Verified;

/// A guest: its classes with the verdicts on its files, what is known of them, and its state. Its objects are blocks of a store that it
/// may share with other guests.
pub struct Guest<'a> {
    /// Its classes, with the verdicts on its files.
    pub(crate) judged: Verified<'a>,
    /// What its classes link to.
    pub(crate) linked: Linked<'a>,
    /// The methods of its classes.
    pub(crate) methods: Methods<'a>,
    /// The texts of its string literals.
    pub(crate) texts: Texts<'a>,
    /// Of each class whether it was verified with all above it.
    pub(crate) verified: Vec<bool>,
    /// Its frames.
    pub(crate) frames: Frames,
    /// The states of its classes, its throws and its end.
    pub(crate) control: Control,
    /// What it holds beside frames and objects.
    pub(crate) held: Held,
    /// How many steps it has taken.
    pub(crate) steps: u64,
}

// By hand, so that a drop of a guest is one call for those who hold one.
impl Drop for Guest<'_> {
    fn drop(self) {
        let Guest {
            judged: _,
            linked: _,
            methods: _,
            texts: _,
            verified: _,
            frames: _,
            control: _,
            held: _,
            steps: _,
        } = self;
    }
}
