//! A guest's classes, loaded.

ghost use Rattle.std.specs.Prelude.{◌≡◌, ◌<◌, ◌≤◌, ℕ, List, Some, IfOk, IfSome, length, slice_get};
ghost use Rattle.jv_meaning_world.specs.LookUps.{lookup_field, lookup_method, is_subclass};
ghost use Rattle.jv_meaning_world.specs.Numbers.{HoldsAtBoth, HoldsAtNumber, number_named, superclass_number};
ghost use Rattle.jv_lookups.specs.Places.{IsFieldPlace, IsMethodPlace, IsFieldLookedUp, IsMethodLookedUp};
ghost use Rattle.jv_lookups.specs.Defaults.{IsDefaultPlace, AreDefaultsOf};
ghost use Rattle.jv_meaning_world.specs.Verdicts.{verdict_of_class};
ghost use Rattle.jv_loader.specs.FirstVerdicts.{AreVerdictsOnFirst};
ghost use Rattle.jv_loader.specs.Loading.{AreLoaded};
ghost use Rattle.jv_loader.specs.Straight.{AreStraight};
ghost use Rattle.jv_classes.specs.Inside.KeptNames.{texts_of};
ghost use Rattle.jv_loader.specs.Inside.Files.{IsOfFiles};
ghost use Rattle.jv_loader.specs.Inside.Library.{IsHostList};
ghost use Rattle.jv_loader.specs.Inside.Searches.{IsSearch};

use crate::entry::put_files;
use crate::files::SystemFiles;
use crate::host_classes::HostClasses;
use crate::out_of_memory::OutOfMemory;
use crate::searches::searches_of;
use crate::verdicts::{first_verdicts, verdict_on, verdicts_of};
use jv_classes::{ClassList, ClassTable, Text};
use jv_lookups::{Defaults, Place, lookup_field, lookup_method, superinterface_defaults};
use jv_meaning_world::{LoadVerdict, above_by_ways, loadable_by_all};
use std::alloc::{AllocError, Global};
use std::hash::RandomState;
use std::marker::Model;

/// A guest's classes (JVMS 5.3), and what is wrong with each of its files before its methods are looked
/// at.
pub struct Classes<'a> {
    table: ClassTable<'a>,
    host: usize,
    verdicts: Vec<Option<LoadVerdict>>,
    searches: Vec<Vec<u16>>,
}

impl<'a> Model for Classes<'a> {
    ghost use Rattle.jv_loader.specs.Loading.{Loading};

    ghost Value = { Loading };

    ghost use Rattle.jv_loader.specs.Inside.Searches.{AreSearches, lists_of};

    ghost view = { λ c. record { world = c.table; host = c.host; verdicts = c.verdicts.items } };

    ghost use Rattle.jv_loader.specs.Straight.{AreStraight};

    ghost invariant = { λ c. AreSearches c.table (lists_of c.searches.items) × AreStraight c.table };
}

impl Drop for Classes<'_> {
    fn drop(self) {
        let Classes {
            table: _,
            host: _,
            verdicts: _,
            searches: _,
        } = self;
    }
}

/// No class of a guest's world that can be loaded is above itself, and java/lang/Object can be loaded
/// (JVMS 5.3.5). The call does nothing.
fn are_straight(table: &ClassTable<'_>)
    requires { IsOfFiles table.now }
    ensures { AreStraight table.now }
{
    above_by_ways();
    loadable_by_all();
    // Only the clauses speak of it.
    let _table = table;
}

/// The classes of a guest's files behind those in a list, which a host gives.
fn classes_behind<'a>(
    alloc: Global,
    state: RandomState,
    list: ClassList<'a>,
    files: &'a [&'a [u8]],
) -> Result<Classes<'a>, OutOfMemory>
    requires { (library : List (List ℕ)) × IsHostList library list }
    ensures { (library : List (List ℕ)) → IsHostList library list.entry
        → IfOk result (λ classes. AreLoaded library (texts_of files.now) classes) }
{
    let mut list = list;
    let host = list.count();
    let entries = put_files(alloc, state, &mut list, files)?;
    let table = ClassTable::of(alloc, list)?;
    let verdicts = verdicts_of(alloc, state, &table, &entries)?;
    let searches = searches_of(alloc, &table)?;
    are_straight(&table);
    Ok(Classes {
        table,
        host,
        verdicts,
        searches,
    })
}

impl<'a> Classes<'a> {
    /// Reads the files of a guest, and makes the table of their classes behind those that its host gives: the system's, and those of a
    /// library that stand in front; names are hashed with the state.
    ///
    /// # Errors
    ///
    /// Where the host had no memory for them, as there is none for a class whose number has no room in two bytes; nothing is then kept.
    pub fn load(
        alloc: Global,
        state: RandomState,
        system: &'a SystemFiles,
        files: &'a [&'a [u8]],
    ) -> Result<Classes<'a>, OutOfMemory>
        ensures { IfOk result (λ classes. AreLoaded system.now (texts_of files.now) classes) }
    {
        let list = system.list(alloc, state)?;
        classes_behind(alloc, state, list, files)
    }

    /// The same behind classes that were read once, for guests of one library; what was read of them is shared.
    ///
    /// # Errors
    ///
    /// As of `load`.
    pub fn load_beside(
        alloc: Global,
        state: RandomState,
        host: &HostClasses<'a>,
        files: &'a [&'a [u8]],
    ) -> Result<Classes<'a>, OutOfMemory>
        ensures { IfOk result (λ classes. AreLoaded host.now (texts_of files.now) classes) }
    {
        let list = host.list(alloc, state)?;
        classes_behind(alloc, state, list, files)
    }

    /// The classes by number: those of the system, and those of the files in their order.
    pub fn table(&self) -> &ClassTable<'a>
        ensures { result.now ≡ self.now.world }
    {
        &self.table
    }

    /// The number of the class of a name, where it is there.
    pub fn find(&self, name: &[u8]) -> Option<usize>
        ensures { result ≡ number_named self.now.world name.now }
    {
        self.table.find(name)
    }

    /// The number of the superclass of a class, where it has one and that is there.
    pub fn super_of(&self, number: usize) -> Option<usize>
        requires { number < length self.now.world }
        ensures { HoldsAtNumber self.now.world number (λ l. result ≡ superclass_number self.now.world l.class) }
    {
        self.table.super_of(number)
    }

    /// Whether a class is another, or below it on the chain of superclasses.
    pub fn is_subclass(&self, number: usize, of: usize) -> bool
        requires number { number < length self.now.world }
        requires of { of < length self.now.world }
        ensures { HoldsAtBoth self.now.world number of (λ l to. result ≡ is_subclass self.now.world l to) }
    {
        self.table.is_subclass(number, of)
    }

    /// No class that can be loaded is above itself, and java/lang/Object can be loaded (JVMS 5.3.5). The
    /// call does nothing.
    pub fn are_straight(&self)
        ensures { AreStraight self.now.world }
    {
        // Reads a field, so that the invariant is known.
        let _table = &self.table;
    }

    /// How many classes the host gives: they have the numbers below.
    pub fn host_count(&self) -> usize
        ensures { result ≡ self.now.host }
    {
        self.host
    }

    /// How many files there are.
    pub fn file_count(&self) -> usize
        ensures { result ≡ length self.now.verdicts }
    {
        self.verdicts.len()
    }

    /// What is wrong with the file at a place, the first at 0, before its methods are looked at; `None`
    /// where these decide.
    pub fn load_verdict(&self, file: usize) -> Option<LoadVerdict>
        requires { file < length self.now.verdicts }
        ensures { slice_get self.now.verdicts file ≡ Some result }
    {
        self.verdicts[file]
    }

    /// What is wrong with the class with a number before its methods are looked at; `None` where these decide. Names are hashed with the
    /// state.
    ///
    /// # Errors
    ///
    /// Where the host had no memory for what is known of finals and packages.
    pub fn class_verdict(
        &self,
        alloc: Global,
        state: RandomState,
        number: usize,
    ) -> Result<Option<LoadVerdict>, AllocError>
        requires { number < length self.now.world }
        ensures { IfOk result (λ why. HoldsAtNumber self.now.world number (λ l. why ≡ verdict_of_class self.now.world l)) }
    {
        verdict_on(alloc, state, &self.table, number)
    }

    /// The same of each of the first classes, so many, in time linear in all.
    ///
    /// # Errors
    ///
    /// Where the host had no memory for the verdicts, or for what is known of finals and packages.
    pub fn first_verdicts(
        &self,
        alloc: Global,
        state: RandomState,
        count: usize,
    ) -> Result<Vec<Option<LoadVerdict>>, AllocError>
        requires { count ≤ length self.now.world }
        ensures { IfOk result (λ verdicts. AreVerdictsOnFirst self.now.world count verdicts.items) }
    {
        first_verdicts(alloc, state, &self.table, count)
    }

    /// The classes that a search for a member from a class meets, in its order (JVMS 5.4.3.2); each number is kept in two bytes.
    pub fn searched(&self, class: usize) -> &[u16]
        requires { class < length self.now.world }
        ensures { IsSearch self.now.world class result.now }
    {
        &self.searches[class]
    }

    /// A text with its hash, by which members are found.
    pub fn text<'n>(&self, bytes: &'n [u8]) -> Text<'n>
        ensures { result ≡ bytes.now }
    {
        Text::new(self.table.seed(), bytes)
    }

    /// The field of a name and a descriptor that a search from a class finds first, without access (JVMS
    /// 5.4.3.2). It costs a look at each class that the search meets, and one hash of each text.
    pub fn lookup_field(&self, class: usize, name: &[u8], descriptor: &[u8]) -> Option<Place>
        requires { class < length self.now.world }
        ensures found { IsFieldLookedUp self.now.world class name.now descriptor.now result }
        ensures place { IfSome result (IsFieldPlace self.now.world) }
    {
        self.find_field(class, &self.text(name), &self.text(descriptor))
    }

    /// The same by texts that know their hashes, so that none is hashed.
    pub fn find_field(&self, class: usize, name: &Text<'_>, descriptor: &Text<'_>) -> Option<Place>
        requires { class < length self.now.world }
        ensures found { IsFieldLookedUp self.now.world class name.now descriptor.now result }
        ensures place { IfSome result (IsFieldPlace self.now.world) }
    {
        lookup_field(self.table(), self.searched(class), name, descriptor)
    }

    /// The method of a name and a descriptor that a class or an interface has or inherits, without access
    /// (JVMS 5.4.3.3, 5.4.3.4).
    pub fn lookup_method(&self, class: usize, name: &[u8], descriptor: &[u8]) -> Option<Place>
        requires { class < length self.now.world }
        ensures found { IsMethodLookedUp self.now.world class name.now descriptor.now result }
        ensures place { IfSome result (IsMethodPlace self.now.world) }
    {
        self.find_method(class, &self.text(name), &self.text(descriptor))
    }

    /// The same by texts that know their hashes, so that none is hashed.
    pub fn find_method(&self, class: usize, name: &Text<'_>, descriptor: &Text<'_>) -> Option<Place>
        requires { class < length self.now.world }
        ensures found { IsMethodLookedUp self.now.world class name.now descriptor.now result }
        ensures place { IfSome result (IsMethodPlace self.now.world) }
    {
        lookup_method(self.table(), class, self.searched(class), name, descriptor)
    }

    /// The maximally specific methods of a name and a descriptor that the superinterfaces of a class
    /// declare and that are not abstract (JVMS 5.4.3.3, 6.5).
    pub fn superinterface_defaults(&self, class: usize, name: &[u8], descriptor: &[u8]) -> Defaults
        requires { class < length self.now.world }
        ensures found { AreDefaultsOf self.now.world class name.now descriptor.now result }
        ensures place { IsDefaultPlace self.now.world result }
    {
        self.find_defaults(class, &self.text(name), &self.text(descriptor))
    }

    /// The same by texts that know their hashes.
    fn find_defaults(&self, class: usize, name: &Text<'_>, descriptor: &Text<'_>) -> Defaults
        requires { class < length self.now.world }
        ensures found { AreDefaultsOf self.now.world class name.now descriptor.now result }
        ensures place { IsDefaultPlace self.now.world result }
    {
        superinterface_defaults(self.table(), class, self.searched(class), name, descriptor)
    }
}
