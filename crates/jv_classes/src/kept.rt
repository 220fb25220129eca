//! What is kept of a class, by its names.

use crate::members::Members;

/// What is kept of a class beside its file.
#[derive(Drop)]
pub(crate) struct Kept<'a> {
    pub(crate) major: u16,
    pub(crate) access_flags: u16,
    pub(crate) name: &'a [u8],
    pub(crate) package_name: &'a [u8],
    pub(crate) super_name: Option<&'a [u8]>,
    pub(crate) fields: Members<'a>,
    pub(crate) methods: Members<'a>,
}
