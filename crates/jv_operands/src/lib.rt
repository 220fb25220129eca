//! What an instruction wants of the frame before it that isn't there (JVMS 4.10.1.9), for those who want to know why it is not type safe.
#![tactic(auto)]

mod first;
mod frame;
mod law;
mod listed;
mod local;
mod met;
mod method;
mod named;
mod text;
mod types;
mod unmet;
mod want;
mod wants;

pub use first::first_unmet;
pub use frame::FrameTypes;
pub use law::{unmet_is_unsafe, worked_rows};
pub use method::MethodParts;
pub use text::ShownUnmet;
pub use unmet::{Place, UnmetWant};
pub use want::Want;
