//! Names of classes by number.

ghost use Rattle.std.specs.Prelude.{◌≡◌, ◌<◌, ◌++◌, [], ◌∷◌, codes, length, get_or, IfOk, OnErr, ◌≤◌, IfSome, Some, None, slice_get, position};
ghost use Rattle.std.specs.Str.{bytes_eq};
ghost use Rattle.jv_meaning_world.specs.Numbers.{number_named};
ghost use Rattle.jv_verify_types.specs.Typed.{name_at, GoesOn};
ghost use Rattle.jv_verify_types.specs.Inside.Kept.{AreDistinct, AreNames};

use crate::kept_number::{KeptNumber, kept_number};
use jv_classes::{ClassTable, Names};
use jv_stackmap::VerificationTypeOf;
use std::alloc::{AllocError, Global};
use std::hash::RandomState;
use std::marker::Model;

/// A place as a number of 32 bits; want of memory where it has none.
fn as_number(place: usize) -> Result<u32, AllocError>
    ensures number { IfOk result (λ n. n ≡ place) }
    ensures refused { OnErr result (4294967296 ≤ place) }
{
    match u32::try_from(place) {
        Ok(number) => Ok(number),
        Err(_) => Err(AllocError),
    }
}

/// A type of a local variable or of a stack item, with the number of a class's name.
pub type Item = VerificationTypeOf<u32>;

/// Names, each with a number, and with the class of that name where a guest has one.
pub struct TypeNames<'t, 'a> {
    table: &'t ClassTable<'a>,
    names: Names<'a>,
    classes: Vec<KeptNumber>,
}

impl<'t, 'a> Model for TypeNames<'t, 'a> {
    ghost use Rattle.jv_verify_types.specs.Typed.{TypeWorld};
    ghost use Rattle.jv_verify_types.specs.Inside.Kept.{AreNames};

    ghost Value = { TypeWorld };

    ghost view = { λ t. record { world = t.table.now; names = t.names } };

    ghost invariant = { λ t. AreNames t.table.now t.names t.classes.items };
}

impl Drop for TypeNames<'_, '_> {
    fn drop(self) {
        let TypeNames {
            table: _,
            names: _,
            classes: _,
        } = self;
    }
}

impl<'t, 'a> TypeNames<'t, 'a> {
    /// java/lang/Object alone; names are hashed with the state.
    ///
    /// # Errors
    ///
    /// Where the host had no memory for it.
    pub fn new(
        alloc: Global,
        state: RandomState,
        table: &'t ClassTable<'a>,
    ) -> Result<TypeNames<'t, 'a>, AllocError>
        ensures { IfOk result (λ names. names.world ≡ table.now) }
    {
        let object = b"java/lang/Object".as_slice();
        let mut names = Names::new(alloc, state);
        let mut classes = Vec::new(alloc);
        names.add(object)?;
        classes.push(kept_number(table.find(object))?)?;
        Ok(TypeNames {
            table,
            names,
            classes,
        })
    }

    /// The classes that the names may be those of.
    pub fn table(&self) -> &'t ClassTable<'a>
        ensures { result.now ≡ self.now.world }
    {
        self.table
    }

    /// How many names there are.
    pub fn count(&self) -> usize
        ensures { result ≡ length self.now.names }
    {
        self.names.count()
    }

    /// No name has two numbers. The call does nothing.
    pub fn are_distinct(&self)
        ensures { AreDistinct self.now.names }
    {
        // Reads a field, so that the invariant is known.
        let _classes = &self.classes;
    }

    /// The place of the name with a number: that of java/lang/Object where none has the number.
    #[inline]
    pub fn place(&self, number: u32) -> usize
        ensures within { result < length self.now.names }
        ensures same { get_or self.now.names result (codes "java/lang/Object") ≡ name_at self.now.names number }
    {
        let place = number as usize;
        if place < self.names.count() { place } else { 0 }
    }

    /// The name with a number.
    pub fn name(&self, number: u32) -> &'a [u8]
        ensures { result.now ≡ name_at self.now.names number }
    {
        self.names.name(self.place(number))
    }

    /// Whether two numbers are those of one name.
    #[inline]
    pub fn same_name(&self, one: u32, other: u32) -> bool
        ensures { result ≡ bytes_eq (name_at self.now.names one) (name_at self.now.names other) }
    {
        // Reads a field, so that the invariant is known.
        let _classes = &self.classes;
        self.place(one) == self.place(other)
    }

    /// The number of the name java/lang/Object.
    pub fn object(&self) -> u32
        ensures { name_at self.now.names result ≡ codes "java/lang/Object" }
    {
        // Reads a field, so that the invariant is known.
        let _names = &self.names;
        0
    }

    /// The number of the class of a name, where there is one.
    pub fn class_of(&self, number: u32) -> Option<usize>
        ensures number { result ≡ number_named self.now.world (name_at self.now.names number) }
        ensures within { IfSome result (λ n. n < length self.now.world) }
    {
        self.classes[self.place(number)].number()
    }

    /// A name more, with the class of that name.
    fn add(&mut self, name: &'a [u8]) -> Result<u32, AllocError>
        requires { position (bytes_eq name.now) self.now.names ≡ None }
        ensures number { IfOk result (λ n. slice_get self.new.names n ≡ Some name.now) }
        ensures goes_on { GoesOn self.old.names self.new.names }
        ensures refused { OnErr result (self.new.names ≡ self.old.names) }
        ensures world { self.new.world ≡ self.old.world }
    {
        let number = as_number(self.names.count())?;
        self.classes.reserve(1)?;
        let class = kept_number(self.table.find(name))?;
        self.names.add(name)?;
        self.classes.push_reserved(class);
        Ok(number)
    }

    /// The number of a name, which joins the others where it isn't there yet.
    ///
    /// # Errors
    ///
    /// Where the host had no memory for it, there are 4,294,967,296 others, or the class of that name is the 65,536th or one behind it.
    pub fn number_of(&mut self, name: &'a [u8]) -> Result<u32, AllocError>
        ensures number { IfOk result (λ n. slice_get self.new.names n ≡ Some name.now) }
        ensures goes_on { GoesOn self.old.names self.new.names }
        ensures refused { OnErr result (self.new.names ≡ self.old.names) }
        ensures world { self.new.world ≡ self.old.world }
    {
        match self.names.place_of(name) {
            Some(place) => as_number(place),
            None => self.add(name),
        }
    }
}
