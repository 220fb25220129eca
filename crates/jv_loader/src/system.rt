//! The classes that a host gives, in a list.

ghost use Rattle.std.specs.Prelude.{◌≡◌, ◌++◌, [], ◌∷◌, List, None, IfOk, OnOk, map};
ghost use Rattle.jv_class.specs.Class.{Class};
ghost use Rattle.jv_meaning_world.specs.FileContent.{AreContents, IsContent};
ghost use Rattle.jv_meaning_world.specs.declared.content.Content.TheVariants.{Holds};
ghost use Rattle.jv_meaning_world.specs.World.{loaded};
ghost use Rattle.jv_meaning_world.specs.Numbers.{number_named};
ghost use Rattle.jv_classes.specs.Inside.KeptNames.{texts_of};
ghost use Rattle.jv_loader.specs.Inside.Library.{AreHostFiles, Joins};
ghost use Rattle.jv_loader.specs.Inside.System.{host_world};

use crate::out_of_memory::OutOfMemory;
use crate::reading::read_content;
use jv_classes::{ClassList, LoadedClass};
use jv_meaning_world::{Content, one_content};
use std::alloc::Global;
use std::hash::RandomState;

// How many of the system's classes stand before host/Io.
const BEFORE_IO: usize = 32;

/// Adds the class of a file that is known to hold one of a new name.
fn add_known_file<'a>(
    alloc: Global,
    state: RandomState,
    list: &mut ClassList<'a>,
    by_system: bool,
    bytes: &'a [u8],
) -> Result<(), OutOfMemory>
    requires { (class : Class) × IsContent bytes.now (Holds class) × (number_named list.now class.name ≡ None) }
    ensures { (class : Class) → IsContent bytes.now (Holds class) → OnOk result (list.new ≡ list.old ++ loaded by_system class ∷ []) }
{
    one_content();
    match read_content(alloc, bytes)? {
        Content::Holds(file) => {
            let class = LoadedClass::from_file(alloc, state, by_system, file)?;
            list.add(class)?;
            Ok(())
        }
        _ => unreachable!(),
    }
}

/// Adds the classes of files that are known to hold some, no two of one name.
fn add_known_files<'a>(
    alloc: Global,
    state: RandomState,
    list: &mut ClassList<'a>,
    by_system: bool,
    files: &[&'a [u8]],
) -> Result<(), OutOfMemory>
    requires { (classes : List Class) × AreContents (texts_of files.now) (map Holds classes) × Joins list.now by_system classes }
    ensures { (classes : List Class) → AreContents (texts_of files.now) (map Holds classes) → Joins list.old by_system classes
        → OnOk result (list.new ≡ list.old ++ map (loaded by_system) classes) }
{
    for file in files {
        add_known_file(alloc, state, list, by_system, file)?;
    }
    Ok(())
}

/// The classes of a host: those of the system's files, with host/Io in its place, and those in front of a guest's.
pub(crate) fn host_list<'a>(
    alloc: Global,
    state: RandomState,
    lent: &[&'a [u8]],
    front: &[&'a [u8]],
) -> Result<ClassList<'a>, OutOfMemory>
    requires { (given : List Class) × AreHostFiles (texts_of lent.now) (texts_of front.now) given }
    ensures { (given : List Class) → AreHostFiles (texts_of lent.now) (texts_of front.now) given
        → IfOk result (λ list. list ≡ host_world given) }
{
    let mut list = ClassList::new(alloc, state);
    let before = BEFORE_IO.min(lent.len());
    add_known_files(alloc, state, &mut list, true, &lent[..before])?;
    list.add(LoadedClass::host_io(alloc, state)?)?;
    add_known_files(alloc, state, &mut list, true, &lent[before..])?;
    add_known_files(alloc, state, &mut list, false, front)?;
    Ok(list)
}
