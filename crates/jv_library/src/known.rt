//! What a host knows of its library.

ghost use Rattle.std.specs.Prelude.{◌≡◌, ◌↔◌, ℕ, List, [], None, Ok, true, IfOk, IfSome, IsTrue, map};
ghost use Rattle.jv_meaning_machine.specs.Alone.{Stands};
ghost use Rattle.jv_meaning_world.specs.Library.{with_library};
ghost use Rattle.jv_verify.specs.Files.{AreFilesOf};
ghost use Rattle.jv_library.specs.Inside.Known.{IsFoundOf, StandsBesideOne};

use crate::same::are_same;
use jv_closed::is_closed;
use jv_loader::{HostClasses, OutOfMemory, SystemFiles};
use jv_meaning_library::closed_stands_once;
use jv_meaning_world::one_content;
use jv_verify::{Verified, verify_files_beside};
use std::alloc::{AllocError, Global};
use std::hash::RandomState;
use std::marker::Model;

/// What was found of a library.
#[derive(Clone, Copy)]
pub(crate) enum Found {
    /// It isn't closed, and is judged beside each guest's files.
    Open,
    /// It stood beside a guest's files; whether it is closed wasn't asked.
    Once,
    /// It is closed, and stands beside each guest's files.
    Always,
}

/// A library, and what was found of it.
#[derive(Clone, Copy)]
pub(crate) struct Asked<'a> {
    pub(crate) system: &'a SystemFiles,
    pub(crate) found: Found,
}

/// What was found of the library that was asked of last, and the classes that were read last, with those of the system. In contracts it is
/// the files of the library that was asked of, where one was.
#[derive(Drop)]
pub struct KnownLibrary<'a> {
    asked: Option<Asked<'a>>,
    read: Option<HostClasses<'a>>,
}

impl<'a> Model for KnownLibrary<'a> {
    ghost use Rattle.std.specs.Prelude.{ℕ, List, Option};
    ghost use Rattle.jv_library.specs.Inside.Known.{IsKnown, files_of};

    ghost Value = { Option (List (List ℕ)) };

    ghost view = { λ k. files_of k.asked };

    ghost invariant = { λ k. IsKnown k.asked };
}

impl<'a> KnownLibrary<'a> {
    /// Nothing is known of any.
    pub fn new() -> KnownLibrary<'a>
        ensures { result ≡ None }
    {
        KnownLibrary {
            asked: None,
            read: None,
        }
    }

    /// What was found of the library of these files, where it is the one that was asked of last.
    fn found(&self, system: &SystemFiles) -> Option<Found>
        ensures { IfSome result (IsFoundOf system.now) }
    {
        match &self.asked {
            Some(asked) if are_same(asked.system, system) => Some(asked.found),
            _ => None,
        }
    }

    /// The classes that were read last, where a host with these files gives them.
    fn classes(&self, system: &SystemFiles) -> Option<&HostClasses<'a>>
        ensures { IfSome result (λ classes. classes.now ≡ system.now) }
    {
        match &self.read {
            Some(classes) if are_same(classes.system(), system) => Some(classes),
            _ => None,
        }
    }

    /// What is known of the library of these files, but for the classes that were read.
    pub fn about<'b>(&self, system: &'b SystemFiles) -> KnownLibrary<'b>
        ensures { IfSome result (λ files. files ≡ system.now) }
    {
        match self.found(system) {
            Some(found) => KnownLibrary {
                asked: Some(Asked { system, found }),
                read: None,
            },
            None => KnownLibrary::new(),
        }
    }

    /// Reads the files of a guest, and finds the verdict on each beside the classes that its host gives (JVMS 4.10, 5.3), which are read
    /// where those that were read last are others. Names are hashed with the state.
    ///
    /// # Errors
    ///
    /// Where the host had no memory for the classes, or for what is known of them.
    pub fn verify_files(
        &mut self,
        alloc: Global,
        state: RandomState,
        system: &'a SystemFiles,
        files: &'a [&'a [u8]],
    ) -> Result<Verified<'a>, OutOfMemory>
        ensures verdicts { IfOk result (AreFilesOf system.now (map (λ file. file.now) files.now)) }
        ensures same { self.new ≡ self.old }
    {
        if let Some(classes) = self.classes(system) {
            return verify_files_beside(alloc, state, classes, files);
        }
        let classes = HostClasses::read(alloc, state, system)?;
        let verified = verify_files_beside(alloc, state, &classes, files)?;
        self.read = Some(classes);
        Ok(verified)
    }

    /// Judges a library beside a guest's files, of which this was found, and keeps that it stands there, if it does.
    fn judge(
        &mut self,
        alloc: Global,
        state: RandomState,
        system: &'a SystemFiles,
        verified: &Verified<'_>,
    ) -> Result<bool, AllocError>
        requires { (files : List (List ℕ)) × AreFilesOf system.now files verified.now }
        ensures { IfOk result (λ stands. (files : List (List ℕ)) (are : AreFilesOf system.now files verified.now)
            → (IsTrue stands ↔ Stands verified.now.world (with_library are.given))) }
    {
        let stands = verified.host_stands(alloc, state)?;
        if stands {
            self.asked = Some(Asked {
                system,
                found: Found::Once,
            });
        }
        Ok(stands)
    }

    /// Asks whether a library is closed that stood beside another guest's files, and judges it beside these where it isn't.
    fn ask(
        &mut self,
        alloc: Global,
        state: RandomState,
        system: &'a SystemFiles,
        verified: &Verified<'_>,
    ) -> Result<bool, AllocError>
        requires files { (files : List (List ℕ)) × AreFilesOf system.now files verified.now }
        requires once { StandsBesideOne system.now }
        ensures { IfOk result (λ stands. (files : List (List ℕ)) (are : AreFilesOf system.now files verified.now)
            → (IsTrue stands ↔ Stands verified.now.world (with_library are.given))) }
    {
        one_content();
        closed_stands_once();
        if is_closed(alloc, verified.classes().table(), verified.host_count())? {
            self.asked = Some(Asked {
                system,
                found: Found::Always,
            });
            return Ok(true);
        }
        self.asked = Some(Asked {
            system,
            found: Found::Open,
        });
        verified.host_stands(alloc, state)
    }

    /// Whether each class that a host with this library gives is accepted beside a guest's files (JVMS 4.10), of which this was found. It
    /// is judged beside the first ones; beside the next it is asked whether the library is closed, and one that is isn't judged again while
    /// no other library is asked of. Names are hashed with the state.
    ///
    /// # Errors
    ///
    /// Where the host had no memory for what is known of a class, or for the frames of a method; never without a library.
    pub fn stands(
        &mut self,
        alloc: Global,
        state: RandomState,
        system: &'a SystemFiles,
        verified: &Verified<'_>,
    ) -> Result<bool, AllocError>
        requires { (files : List (List ℕ)) × AreFilesOf system.now files verified.now }
        ensures stands { IfOk result (λ stands. (files : List (List ℕ)) (are : AreFilesOf system.now files verified.now)
            → (IsTrue stands ↔ Stands verified.now.world (with_library are.given))) }
        ensures alone { system.now ≡ [] → result ≡ Ok true }
    {
        if system.library_count() == 0 {
            return verified.host_stands(alloc, state);
        }
        match self.found(system) {
            Some(Found::Always) => Ok(true),
            Some(Found::Once) => self.ask(alloc, state, system, verified),
            Some(Found::Open) => verified.host_stands(alloc, state),
            None => self.judge(alloc, state, system, verified),
        }
    }
}
