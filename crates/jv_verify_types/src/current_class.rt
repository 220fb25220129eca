//! The current class.

ghost use Rattle.std.specs.Prelude.{◌≡◌, ◌<◌, ℕ, List, length, true, false, Some, IfOk};
ghost use Rattle.std.specs.Str.{bytes_eq};
ghost use Rattle.jv_text.specs.Name.{is_array_name};
ghost use Rattle.jv_class.specs.Class.{class_of};
ghost use Rattle.jv_meaning_world.specs.Numbers.{HoldsAtNumber};
ghost use Rattle.jv_meaning_typing.specs.Environment.{Environment};
ghost use Rattle.jv_meaning_typing.specs.Named.{current_type};
ghost use Rattle.jv_meaning_typing.specs.MemberRules.{is_that_name, is_near, is_direct_interface};
ghost use Rattle.jv_verify_types.specs.Typed.{typed, name_at};
ghost use Rattle.jv_verify_types.specs.Current.{IsOfClass, NamesInterface, GuardsFieldAt, GuardsMethodAt};

use crate::constant_names::{known_number, number_by};
use crate::constants::ConstantTypes;
use crate::guards::guards_of;
use crate::name_marks::{is_marked, marks_of};
use crate::names::Item;
use jv_class::ClassFile;
use jv_link::class_at;
use jv_loader::{Classes, LoadedClass};
use jv_pool::kinds_name;
use jv_stackmap::VerificationTypeOf;
use std::alloc::{AllocError, Global};
use std::marker::Model;

/// What is known of the class whose methods are type checked (JVMS 4.10.1.6), with numbers for names. In contracts it is
/// that class. Each answer costs a look at a table or two.
pub struct CurrentClass<'e, 't, 'a> {
    constants: &'e ConstantTypes<'t, 'a>,
    class: &'e LoadedClass<'a>,
    name: u32,
    superclass: Option<u32>,
    direct: Vec<bool>,
    guarded: Vec<bool>,
}

impl<'e, 't, 'a> Model for CurrentClass<'e, 't, 'a> {
    ghost use Rattle.jv_verify_types.specs.Current.{CurrentClass};
    ghost use Rattle.jv_verify_types.specs.Inside.KeptClass.{IsKept};

    ghost Value = { CurrentClass };

    ghost view = { λ c. record { types = c.constants.now.types; by = c.class.now } };

    ghost invariant = { λ c. IsKept c.constants.now c.class.now c.name c.superclass c.direct.items c.guarded.items };
}

impl Drop for CurrentClass<'_, '_, '_> {
    fn drop(self) {
        let CurrentClass {
            constants: _,
            class: _,
            name: _,
            superclass: _,
            direct: _,
            guarded: _,
        } = self;
    }
}

impl<'e, 't, 'a> CurrentClass<'e, 't, 'a> {
    /// What is known of the class with a number, whose file has these constants. Takes a step for each class and each
    /// constant, and a look-up of a member for each constant that names one by way of a superclass: a method's goes by the
    /// superclasses alone.
    ///
    /// # Errors
    ///
    /// Where the host had no memory for it.
    pub fn new(
        alloc: Global,
        classes: &'e Classes<'a>,
        class: usize,
        file: &ClassFile<'a>,
        constants: &'e ConstantTypes<'t, 'a>,
    ) -> Result<CurrentClass<'e, 't, 'a>, AllocError>
        requires class { class < length classes.now.world }
        requires file { HoldsAtNumber classes.now.world class (λ l. class_of file.now ≡ Some l.class) }
        requires world { constants.now.types.world ≡ classes.now.world }
        requires pool { constants.now.pool ≡ file.now.constant_pool }
        ensures types { IfOk result (λ c. c.types ≡ constants.now.types) }
        ensures class { IfOk result (λ c. HoldsAtNumber classes.now.world class (λ l. c.by ≡ l)) }
    {
        kinds_name();
        constants.pool().keeps_rules();
        file.is_well_formed();
        let name = known_number(constants, file.this_class());
        let superclass = number_by(constants, file.super_class());
        let direct = marks_of(alloc, constants, file.interfaces())?;
        let guarded = guards_of(alloc, classes, constants, class)?;
        Ok(CurrentClass {
            constants,
            class: class_at(classes.table(), class),
            name,
            superclass,
            direct,
            guarded,
        })
    }

    /// What the constants of the class say as types.
    pub fn constants(&self) -> &'e ConstantTypes<'t, 'a>
        ensures types { result.now.types ≡ self.now.types }
        ensures pool { result.now.pool ≡ self.now.by.class.constant_pool }
    {
        // Reads a field, so that the invariant is known.
        let _class = &self.class;
        self.constants
    }

    /// The major version of its file (JVMS 4.1).
    pub fn major(&self) -> u16
        ensures { result ≡ self.now.by.class.major_version }
    {
        self.class.major()
    }

    /// The type of objects of the class.
    pub fn current(&self) -> Item
        ensures { (env : Environment) → IsOfClass self.now env → current_type env ≡ typed self.now.types.names result }
    {
        VerificationTypeOf::Class(self.name)
    }

    /// Whether a name is that of the class.
    pub fn is_current(&self, name: u32) -> bool
        ensures { bytes_eq (name_at self.now.types.names name) self.now.by.class.name ≡ result }
    {
        let names = self.constants.names();
        names.same_name(name, self.name)
    }

    /// Whether a name is that of the superclass.
    pub fn is_superclass(&self, name: u32) -> bool
        ensures { is_that_name (name_at self.now.types.names name) self.now.by.class.super_class ≡ result }
    {
        match self.superclass {
            Some(superclass) => self.constants.names().same_name(name, superclass),
            None => false,
        }
    }

    /// Neither the class nor its superclass has the name of an array. The call does nothing.
    pub fn has_no_array_name(&self)
        ensures itself { (text : List ℕ) → is_array_name text ≡ true → bytes_eq text self.now.by.class.name ≡ false }
        ensures superclass { (text : List ℕ) → is_array_name text ≡ true → is_that_name text self.now.by.class.super_class ≡ false }
    {
        // Reads a field, so that the invariant is known.
        let _class = &self.class;
    }

    /// Whether a name is that of an interface.
    fn is_interface(&self, name: u32) -> bool
        ensures { NamesInterface self.now name result }
    {
        let names = self.constants.names();
        match names.class_of(name) {
            Some(number) => class_at(names.table(), number).is_interface(),
            None => false,
        }
    }

    /// Whether a name is that of a direct superinterface.
    fn is_direct(&self, name: u32) -> bool
        ensures { (env : Environment) → IsOfClass self.now env → is_direct_interface env (name_at self.now.types.names name) ≡ result }
    {
        self.direct[self.constants.names().place(name)]
    }

    /// Whether a method of the class with a name can be called by `invokespecial`, as far as interfaces go (JVMS 4.9.2,
    /// 4.10.1.9): the name is that of no interface, of the class itself, or of a direct superinterface.
    pub fn is_near(&self, name: u32) -> bool
        ensures { (env : Environment) → IsOfClass self.now env → is_near env (name_at self.now.types.names name) ≡ result }
    {
        !self.is_interface(name) || (self.is_current(name) || self.is_direct(name))
    }

    /// Whether the field or the method that the constant at an index names is guarded (JVMS 4.10.1.8): its class is a proper
    /// superclass of this one, and what is found from there is protected, not static, and of another run-time package.
    pub fn is_guarded(&self, index: u16) -> bool
        ensures field { GuardsFieldAt self.now index result }
        ensures method { GuardsMethodAt self.now index result }
    {
        is_marked(&self.guarded, index)
    }
}
