//! Access flags of the system classes and their members (JVMS tables 4.1-A, 4.5-A, 4.6-A).

pub(crate) const PUBLIC: u16 = 0x0001;

pub(crate) const PRIVATE: u16 = 0x0002;

pub(crate) const PRIVATE_FINAL: u16 = 0x0012;
/// `PUBLIC` and `SUPER`.
pub(crate) const CLASS: u16 = 0x0021;
/// `PUBLIC`, `FINAL` and `SUPER`.
pub(crate) const FINAL_CLASS: u16 = 0x0031;
/// `PUBLIC`, `SUPER` and `ABSTRACT`.
pub(crate) const ABSTRACT_CLASS: u16 = 0x0421;
/// `PUBLIC`, `INTERFACE` and `ABSTRACT`.
pub(crate) const INTERFACE: u16 = 0x0601;
