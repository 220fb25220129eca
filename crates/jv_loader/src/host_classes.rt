//! The classes that a host gives, once they are read.

ghost use Rattle.std.specs.Prelude.{◌≡◌, IfOk};
ghost use Rattle.jv_loader.specs.Inside.Library.{IsHostList};

use crate::files::SystemFiles;
use crate::out_of_memory::OutOfMemory;
use jv_classes::ClassList;
use std::alloc::{AllocError, Global};
use std::hash::RandomState;
use std::marker::Model;

/// The classes that a host gives, as they were read, for many guests. In contracts it is the list of the library's files.
pub struct HostClasses<'a> {
    system: &'a SystemFiles,
    list: ClassList<'a>,
}

impl<'a> Model for HostClasses<'a> {
    ghost use Rattle.std.specs.Prelude.{ℕ, List};
    ghost use Rattle.jv_loader.specs.Inside.Library.{IsHostList};

    ghost Value = { List (List ℕ) };

    ghost view = { λ h. h.system.now };

    ghost invariant = { λ h. IsHostList h.system.now h.list };
}

impl Drop for HostClasses<'_> {
    fn drop(self) {
        let HostClasses { system: _, list: _ } = self;
    }
}

impl<'a> HostClasses<'a> {
    /// Reads the files of the classes that a host gives; names are hashed with the state.
    ///
    /// # Errors
    ///
    /// Where the host had no memory for them.
    pub fn read(
        alloc: Global,
        state: RandomState,
        system: &'a SystemFiles,
    ) -> Result<HostClasses<'a>, OutOfMemory>
        ensures { IfOk result (λ classes. classes ≡ system.now) }
    {
        let list = system.list(alloc, state)?;
        Ok(HostClasses { system, list })
    }

    /// The files that they were read from.
    pub fn system(&self) -> &'a SystemFiles
        ensures { result.now ≡ self.now }
    {
        self.system
    }

    /// The classes in a list of their own, whose names are hashed with the state; what was read of them is shared.
    pub(crate) fn list(
        &self,
        alloc: Global,
        state: RandomState,
    ) -> Result<ClassList<'a>, AllocError>
        ensures { IfOk result (IsHostList self.now) }
    {
        self.list.shared(alloc, state)
    }
}
