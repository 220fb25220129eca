//! What a guest holds beside the words of frames (JVMS 2.5): its objects, the states of its classes (5.5), its literals, what came in and
//! what was written (host/Io), and the memory that it has paid for; and what instructions change of all that, and what they do beside it
//! (2.11), in words: how both stand for the machine's. A room of `jv_interp`, and a door: the host names its definitions too.
#![tactic(auto)]

mod class_state;
mod counting;
mod effect;
mod held;
mod host;
mod paying;

pub use class_state::{ClassState, mark_begun};
pub use counting::steps_behind;
pub use effect::Effect;
pub use held::{Held, keep_literal};
pub use host::{ARRAY_LIKE, CLASS_NAME, HOST_IO, WRITE, read, write};
pub use paying::pay_if_made;
