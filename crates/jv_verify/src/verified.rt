//! A guest's classes, with the verdict on each of its files.

ghost use Rattle.std.specs.Prelude.{◌≡◌, ◌↔◌, ◌<◌, ◌≤◌, ℕ, List, [], None, Some, Ok, IfOk, IsTrue, length, map, slice_get, true};
ghost use Rattle.jv_class.specs.Class.{Class};
ghost use Rattle.jv_loader.specs.Loading.{AreLoaded};
ghost use Rattle.jv_meaning_machine.specs.Alone.{Stands};
ghost use Rattle.jv_meaning_world.specs.FileContent.{FileContent};
ghost use Rattle.jv_meaning_world.specs.Library.{with_library};
ghost use Rattle.jv_meaning_typing.specs.declared.verdict.Verdict.TheVariants.{Accepted};
ghost use Rattle.jv_verify.specs.Files.{AreFilesOf, AreVerified, AcceptedAreTyped, IsFirstBroken, IsOfFiles};
ghost use Rattle.jv_verify.specs.Files.{IsSystemAccepted, StandingAreTyped};
ghost use Rattle.jv_verify.specs.Inside.Numbered.{AreOfLibrary};

use crate::files::{verdict_of, verdicts_of};
use jv_loader::{Classes, HostClasses, OutOfMemory, SystemFiles};
use jv_meaning_typing::{Verdict, one_judgement};
use jv_sound_system::system_is_accepted;
use std::alloc::{AllocError, Global};
use std::hash::RandomState;
use std::marker::Model;

// How many classes a host gives where there is no library, all of the system's; with one it gives more.
const WITHOUT_LIBRARY: usize = 33;

/// A guest's classes (JVMS 5.3), with the verdict on each of its files (JVMS 4.10).
pub struct Verified<'a> {
    classes: Classes<'a>,
    verdicts: Vec<Verdict>,
}

impl<'a> Model for Verified<'a> {
    ghost use Rattle.jv_verify.specs.Files.{Verified, IsOfFiles};

    ghost Value = { Verified };

    ghost view = { λ v. record { world = v.classes.world; host = v.classes.host; verdicts = v.verdicts.items } };

    ghost invariant = { λ v. IsOfFiles (record { world = v.classes.world; host = v.classes.host; verdicts = v.verdicts.items }) };
}

impl Drop for Verified<'_> {
    fn drop(self) {
        let Verified {
            classes: _,
            verdicts: _,
        } = self;
    }
}

/// Whether a class is accepted.
fn is_accepted(verdict: Verdict) -> bool
    ensures { IsTrue result ↔ (verdict ≡ Accepted) }
{
    matches!(verdict, Verdict::Accepted)
}

/// Finds the verdict on each file of a guest (JVMS 4.10). Names are hashed with the state.
///
/// # Errors
///
/// Where the host had no memory for it; the classes are then gone.
pub fn verify<'a>(
    alloc: Global,
    state: RandomState,
    classes: Classes<'a>,
) -> Result<Verified<'a>, AllocError>
    requires { AreOfLibrary classes }
    ensures { IfOk result (λ v. (library files : List (List ℕ)) (are : AreLoaded library files classes.entry)
        → AreVerified are.given are.contents v) }
{
    let verdicts = verdicts_of(alloc, state, &classes)?;
    Ok(Verified { classes, verdicts })
}

/// Reads the files of a guest, and finds the verdict on each beside the classes that its host gives (JVMS 4.10, 5.3). Names are hashed
/// with the state.
///
/// # Errors
///
/// Where the host had no memory for the classes, or for what is known of them.
pub fn verify_files<'a>(
    alloc: Global,
    state: RandomState,
    system: &'a SystemFiles,
    files: &'a [&'a [u8]],
) -> Result<Verified<'a>, OutOfMemory>
    ensures { IfOk result (AreFilesOf system.now (map (λ file. file.now) files.now)) }
{
    let classes = Classes::load(alloc, state, system, files)?;
    Ok(verify(alloc, state, classes)?)
}

/// The same beside classes that were read once, for guests of one library.
///
/// # Errors
///
/// As of `verify_files`.
pub fn verify_files_beside<'a>(
    alloc: Global,
    state: RandomState,
    host: &HostClasses<'a>,
    files: &'a [&'a [u8]],
) -> Result<Verified<'a>, OutOfMemory>
    ensures { IfOk result (AreFilesOf host.now (map (λ file. file.now) files.now)) }
{
    let classes = Classes::load_beside(alloc, state, host, files)?;
    Ok(verify(alloc, state, classes)?)
}

impl<'a> Verified<'a> {
    /// The classes that the guest can name.
    pub fn classes(&self) -> &Classes<'a>
        ensures { result.now.world ≡ self.now.world }
    {
        &self.classes
    }

    /// How many files there are.
    pub fn file_count(&self) -> usize
        ensures { result ≡ length self.now.verdicts }
    {
        self.verdicts.len()
    }

    /// The verdicts on the files, in their order.
    pub fn verdicts(&self) -> &[Verdict]
        ensures { result.now ≡ self.now.verdicts }
    {
        &self.verdicts
    }

    /// The verdict on the file at a place, the first at 0.
    pub fn verdict(&self, file: usize) -> Verdict
        requires { file < length self.now.verdicts }
        ensures { slice_get self.now.verdicts file ≡ Some result }
    {
        self.verdicts[file]
    }

    /// How many of the classes the host gives: they have the numbers below.
    pub fn host_count(&self) -> usize
        ensures count { result ≡ self.now.host }
        ensures within { result ≤ length self.now.world }
    {
        // Reads a field, so that the invariant is known.
        let _verdicts = &self.verdicts;
        self.classes.host_count()
    }

    /// The first class that the host gives that isn't accepted (JVMS 4.10), by its number, with its verdict: `None` where each is
    /// accepted, as all are where there is no library. Names are hashed with the state.
    ///
    /// # Errors
    ///
    /// Where the host had no memory for what is known of a class, or for the frames of a method; never without a library.
    pub fn first_broken(
        &self,
        alloc: Global,
        state: RandomState,
    ) -> Result<Option<(usize, Verdict)>, AllocError>
        ensures broken { IfOk result (IsFirstBroken self.now) }
        ensures alone { (contents : List FileContent) → AreVerified [] contents self.now → result ≡ Ok None }
    {
        let host = self.host_count();
        if host == WITHOUT_LIBRARY {
            system_is_accepted();
            return Ok(None);
        }
        let verdicts = self.classes.first_verdicts(alloc, state, host)?;
        for class in 0..host {
            let verdict = verdict_of(alloc, state, &self.classes, class, verdicts[class])?;
            if !is_accepted(verdict) {
                return Ok(Some((class, verdict)));
            }
        }
        Ok(None)
    }

    /// Whether each class that the host gives is accepted (JVMS 4.10), as all are where there is no library. Names are hashed with the
    /// state.
    ///
    /// # Errors
    ///
    /// Where the host had no memory for what is known of a class, or for the frames of a method; never without a library.
    pub fn host_stands(&self, alloc: Global, state: RandomState) -> Result<bool, AllocError>
        ensures stands { IfOk result (λ stands. (library files : List (List ℕ)) (are : AreFilesOf library files self.now)
            → (IsTrue stands ↔ Stands self.now.world (with_library are.given))) }
        ensures alone { (files : List (List ℕ)) → AreFilesOf [] files self.now → result ≡ Ok true }
    {
        one_judgement();
        let broken = self.first_broken(alloc, state)?;
        Ok(broken.is_none())
    }

    /// Where there is no library, each class that the host gives is accepted (JVMS 4.10), whatever the guest's files are. The call
    /// does nothing.
    pub fn system_stands(&self)
        ensures stands { (contents : List FileContent) → AreVerified [] contents self.now → Stands self.now.world (with_library []) }
        ensures accepted { (contents : List FileContent) → AreVerified [] contents self.now → IsSystemAccepted self.now.world }
    {
        // Reads a field, so that the invariant is known.
        let _verdicts = &self.verdicts;
        system_is_accepted();
    }

    /// There are files that these are the verdicts on; each method with code of a class whose file is accepted has a typing
    /// (JVMS 4.10.1), and so has each one of the classes that the host gives, where these are accepted. The call does nothing.
    pub fn are_typed(&self)
        ensures files { IsOfFiles self.now }
        ensures accepted { (given : List Class) (contents : List FileContent) → AreVerified given contents self.now
            → AcceptedAreTyped contents self.now }
        ensures host { StandingAreTyped self.now }
    {
        // Reads a field, so that the invariant is known.
        let _verdicts = &self.verdicts;
    }
}
