//! Classes in the order in which they came.

ghost use Rattle.std.specs.Prelude.{◌≡◌, ◌<◌, ◌++◌, [], ◌∷◌, None, IfOk, OnOk, OnErr, length};
ghost use Rattle.jv_meaning_world.specs.Numbers.{number_named, IsNumbered, AreNoArrays};

use crate::loaded_class::LoadedClass;
use crate::text::seed_of;
use indexmap::IndexSet;
use std::alloc::{AllocError, Global};
use std::hash::RandomState;
use std::marker::Model;

/// Classes, no two of one name; each has the number of those that came before it. In contracts it is
/// the world of these classes (JVMS 5.3).
pub struct ClassList<'a> {
    seed: u64,
    names: IndexSet<&'a [u8], RandomState>,
    classes: Vec<LoadedClass<'a>>,
}

impl<'a> Model for ClassList<'a> {
    ghost use Rattle.std.specs.Prelude.{◌≡◌};
    ghost use Rattle.jv_meaning_world.specs.World.{World};
    ghost use Rattle.jv_meaning_world.specs.Numbers.{IsNumbered, AreNoArrays};
    ghost use Rattle.jv_classes.specs.Inside.KeptNames.{texts_of};
    ghost use Rattle.jv_classes.specs.Inside.Listed.{names_of};

    ghost Value = { World };

    ghost view = { λ l. l.classes.items };

    ghost invariant = { λ l.
        (texts_of l.names.keys ≡ names_of l.classes.items) × IsNumbered l.classes.items × AreNoArrays l.classes.items };
}

impl Drop for ClassList<'_> {
    fn drop(self) {
        let ClassList {
            seed: _,
            names: _,
            classes: _,
        } = self;
    }
}

impl<'a> ClassList<'a> {
    /// No classes; their names are hashed with the state.
    pub fn new(alloc: Global, state: RandomState) -> ClassList<'a>
        ensures { result ≡ [] }
    {
        ClassList {
            seed: seed_of(state),
            names: IndexSet::with_hasher(alloc, state),
            classes: Vec::new(alloc),
        }
    }

    /// The same classes in a list of their own, whose names are hashed with the state; what was read of each is shared.
    ///
    /// # Errors
    ///
    /// Where the host had no memory for the list.
    pub fn shared(&self, alloc: Global, state: RandomState) -> Result<ClassList<'a>, AllocError>
        ensures { IfOk result (λ list. list ≡ self.now) }
    {
        let mut list = ClassList::new(alloc, state);
        for class in &self.classes {
            list.add(class.clone()?)?;
        }
        Ok(list)
    }

    /// Each class is the one of its name. The call does nothing.
    pub fn is_numbered(&self)
        ensures { IsNumbered self.now }
    {
        // Reads a field, so that the invariant is known.
        let _names = &self.names;
    }

    /// No class has the name of an array (JVMS 4.1). The call does nothing.
    pub fn are_no_arrays(&self)
        ensures { AreNoArrays self.now }
    {
        // Reads a field, so that the invariant is known.
        let _names = &self.names;
    }

    /// The seed under which texts are hashed.
    pub fn seed(&self) -> u64 {
        self.seed
    }

    /// How many classes there are.
    pub fn count(&self) -> usize
        ensures { result ≡ length self.now }
    {
        self.classes.len()
    }

    /// The number of the class of a name, where it is there.
    pub fn find(&self, name: &[u8]) -> Option<usize>
        ensures { result ≡ number_named self.now name.now }
    {
        self.names.get_index_of(name)
    }

    /// The classes, each at its number.
    pub fn classes(&self) -> &[LoadedClass<'a>]
        ensures { result.now ≡ self.now }
    {
        &self.classes
    }

    /// Adds a class of a new name.
    ///
    /// # Errors
    ///
    /// Where the host had no memory for it; nothing has then changed.
    pub fn add(&mut self, class: LoadedClass<'a>) -> Result<(), AllocError>
        requires { number_named self.now class.class.name ≡ None }
        ensures ok { OnOk result (self.new ≡ self.old ++ class.entry ∷ []) }
        ensures refused { OnErr result (self.new ≡ self.old) }
    {
        class.is_no_array();
        self.classes.reserve(1)?;
        self.names.insert(class.name())?;
        self.classes.push_reserved(class);
        Ok(())
    }
}
