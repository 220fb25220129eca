//! A guest's classes (JVMS 5.3), and the files of the system's (2.12, own selection).
//!
//! [`Classes::load`] reads the files of a guest, and answers exactly the world of its classes behind the system's, what is
//! wrong with each file before its methods are looked at, and where a field or a method of a class is found.
#![tactic(auto)]

mod classes;
mod entry;
mod files;
mod flag;
mod given;
mod header;
mod host;
mod host_classes;
mod interface;
mod law;
mod lending;
mod library;
mod library_fault;
mod object;
mod opcode;
mod out_of_memory;
mod reading;
mod searches;
mod string;
mod system;
mod throwable;
mod throwables;
mod verdicts;
mod written;

pub use classes::Classes;
pub use files::{SystemFiles, system_files, system_with_library};
pub use host_classes::HostClasses;
pub use jv_classes::{ClassTable, LoadedClass, Member};
pub use jv_lookups::{Defaults, Place, class_method};
pub use jv_meaning_world::LoadVerdict;
pub use law::faults_refuse;
pub use library_fault::LibraryFault;
pub use out_of_memory::OutOfMemory;
pub use reading::read_content;
