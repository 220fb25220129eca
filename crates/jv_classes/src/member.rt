//! A field or a method as its class declares it.

/// A field or a method as its class declares it (JVMS 4.5, 4.6). Its texts are parts of the class's file.
#[derive(Clone, Copy)]
pub struct Member<'a> {
    pub access_flags: u16,
    pub name: &'a [u8],
    pub descriptor: &'a [u8],
}
