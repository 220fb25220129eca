//! Soundness of type checking (JVMS 4.10): a guest whose files were judged meets no fault on the machine. Its lemmas are on instructions
//! at a frame of their types (6.5), on calls, `new` and `<init>` (2.9), on frames that run, wait and catch (2.6, 2.10), and on steps of
//! the machine (2.11, 5.5). Below them, when values, objects, frames and whole states of a guest are of their types (2.4, 4.10, 5.1): the
//! invariant, as definitions; what of it stays while the heap changes, and what objects, static fields and string literals hold. And the
//! classes of a judged guest's world (4.1, 5.3): what a class by its names keeps of its file's rules (4.4 to 4.9), and what the verdicts on
//! the files leave to know.
#![tactic(auto)]

mod law;

pub use law::{
    initializations_are_loadable, never_faults, no_library_stands, objects_are_loadable,
};
