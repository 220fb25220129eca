//! A class of a guest's world.

ghost use Rattle.std.specs.Prelude.{◌≡◌, ◌&&◌, ◌<◌, length, position, slice_get, Some, IfOk, IfSome, IfNone, IsTrue, true};
ghost use Rattle.std.specs.Option.{IsSomeAnd, option_and_then, option_copied};
ghost use Rattle.std.specs.Str.{bytes_eq};
ghost use Rattle.jv_class_structure.specs.Flags.{has, acc_final};
ghost use Rattle.jv_class.specs.Class.{class_of, field_named, method_named};
ghost use Rattle.jv_class.specs.Rules.{is_no_array_name};
ghost use Rattle.jv_meaning_world.specs.System.Io.{io};
ghost use Rattle.jv_meaning_world.specs.World.{package_of, loaded, same_package, can_name};
ghost use Rattle.jv_meaning_world.specs.Verdicts.{is_interface};
ghost use Rattle.jv_classes.specs.Members.{IsField, IsMethod};

use crate::host_io::kept_of_io;
use crate::kept::Kept;
use crate::member::Member;
use crate::package::is_same_loader;
use crate::reading::{interface_in, kept_of_file};
use crate::text::Text;
use bitflags::Flags;
use jv_class::{ClassFile, is_some_class};
use jv_class_structure::ClassFlags;
use std::alloc::{AllocError, Global};
use std::hash::RandomState;
use std::marker::Model;
use std::sync::Arc;

/// What was read of a class: its file, and what is kept beside it.
#[derive(Drop)]
pub(crate) struct ReadClass<'a> {
    pub(crate) file: Option<ClassFile<'a>>,
    pub(crate) kept: Kept<'a>,
}

/// A class of a guest's world (JVMS 5.3) with its file, except for host/Io, which has none. In
/// contracts it is the class by its names, with its loader. Its names are parts of the file. What was read is shared with its clones, as
/// in the worlds of guests that stand on one library.
pub struct LoadedClass<'a> {
    by_system: bool,
    read: Arc<ReadClass<'a>, Global>,
}

impl<'a> Model for LoadedClass<'a> {
    ghost use Rattle.jv_meaning_world.specs.World.{Loaded, loaded};
    ghost use Rattle.std.specs.Arc.{arc_value};
    ghost use Rattle.jv_classes.specs.Inside.Kept.{class_of_file, IsLoaded};

    ghost Value = { Loaded };

    ghost view = { λ l. loaded l.by_system (class_of_file (arc_value l.read).file) };

    ghost invariant = { λ l. IsLoaded l.by_system (arc_value l.read).file (arc_value l.read).kept };
}

impl Drop for LoadedClass<'_> {
    fn drop(self) {
        let LoadedClass {
            by_system: _,
            read: _,
        } = self;
    }
}

impl<'a> Clone for LoadedClass<'a> {
    ghost use Rattle.std.specs.Prelude.{◌≡◌};

    ghost is_clone = { λ l copy. copy ≡ l };

    fn clone(&self) -> Result<LoadedClass<'a>, AllocError> {
        Ok(LoadedClass {
            by_system: self.by_system,
            read: self.read.clone()?,
        })
    }
}

impl<'a> LoadedClass<'a> {
    /// The class of a file, whose members are hashed with the state.
    ///
    /// # Errors
    ///
    /// Where the host had no memory for its members.
    pub fn from_file(
        alloc: Global,
        state: RandomState,
        by_system: bool,
        file: ClassFile<'a>,
    ) -> Result<LoadedClass<'a>, AllocError>
        ensures class { IfOk result (λ l. class_of file.entry ≡ Some l.class) }
        ensures loader { IfOk result (λ l. l.by_system ≡ by_system) }
    {
        is_some_class();
        file.is_well_formed();
        let kept = kept_of_file(alloc, state, &file)?;
        let read = Arc::new(
            alloc,
            ReadClass {
                file: Some(file),
                kept,
            },
        )?;
        Ok(LoadedClass { by_system, read })
    }

    /// host/Io, the one class without a file, whose members are hashed with the state.
    ///
    /// # Errors
    ///
    /// Where the host had no memory for its members.
    pub fn host_io(alloc: Global, state: RandomState) -> Result<LoadedClass<'a>, AllocError>
        ensures { IfOk result (λ l. l ≡ loaded true io) }
    {
        let kept = kept_of_io(alloc, state)?;
        let read = Arc::new(alloc, ReadClass { file: None, kept })?;
        Ok(LoadedClass {
            by_system: true,
            read,
        })
    }

    /// The file of the class; `None` for host/Io alone.
    pub fn file(&self) -> Option<&ClassFile<'a>>
        ensures file { IfSome result (λ file. class_of file.now ≡ Some self.now.class) }
        ensures none { IfNone result (self.now ≡ loaded true io) }
    {
        self.read.file.as_ref()
    }

    /// The name of the class is none of an array (JVMS 4.1). The call does nothing.
    pub fn is_no_array(&self)
        ensures { IsTrue (is_no_array_name self.now.class.name) }
    {
        if let Some(file) = &self.read.file {
            file.is_well_formed();
        }
    }

    /// Whether the system's loader has defined the class, and not the guest's (JVMS 5.3).
    pub fn by_system(&self) -> bool
        ensures { result ≡ self.now.by_system }
    {
        self.by_system
    }

    /// The major version of its file, 52 for host/Io; the minor is 0 (JVMS 4.1).
    pub fn major(&self) -> u16
        ensures { result ≡ self.now.class.major_version }
    {
        self.read.kept.major
    }

    /// The access flags (JVMS 4.1, table 4.1-A).
    pub fn access_flags(&self) -> u16
        ensures { result ≡ self.now.class.access_flags }
    {
        self.read.kept.access_flags
    }

    /// The name of the class, in internal form (JVMS 4.2.1).
    pub fn name(&self) -> &'a [u8]
        ensures { result.now ≡ self.now.class.name }
    {
        self.read.kept.name
    }

    /// The name of the superclass; `None` for java/lang/Object alone.
    pub fn super_name(&self) -> Option<&'a [u8]>
        ensures { option_copied result ≡ self.now.class.super_class }
    {
        self.read.kept.super_name
    }

    /// How many direct superinterfaces there are.
    pub fn interface_count(&self) -> usize
        ensures { result ≡ length self.now.class.interfaces }
    {
        match &self.read.file {
            Some(file) => file.interfaces().len(),
            None => 0,
        }
    }

    /// The name of the direct superinterface at a place, the first at 0.
    pub fn interface_name(&self, place: usize) -> &'a [u8]
        requires { place < length self.now.class.interfaces }
        ensures { slice_get self.now.class.interfaces place ≡ Some result.now }
    {
        match &self.read.file {
            Some(file) => interface_in(file, place),
            None => b"".as_slice(),
        }
    }

    /// How many fields there are.
    pub fn field_count(&self) -> usize
        ensures { result ≡ length self.now.class.fields }
    {
        self.read.kept.fields.count()
    }

    /// The field at a place, the first at 0 (JVMS 4.5).
    pub fn field(&self, place: usize) -> Member<'a>
        requires { place < length self.now.class.fields }
        ensures { IsSomeAnd (slice_get self.now.class.fields place) (IsField result) }
    {
        self.read.kept.fields.at(place)
    }

    /// The place of the field with a name and a descriptor; `None` where there is none. No text that knows its hash is
    /// hashed.
    pub fn field_of(&self, name: &Text<'_>, descriptor: &Text<'_>) -> Option<usize>
        ensures place { result ≡ position (λ f. bytes_eq f.name name.now && bytes_eq f.descriptor descriptor.now) self.now.class.fields }
        ensures found { option_and_then (slice_get self.now.class.fields) result ≡ field_named self.now.class name.now descriptor.now }
        ensures within { IfSome result (λ place. place < length self.now.class.fields) }
    {
        self.read.kept.fields.place_of(name, descriptor)
    }

    /// The place of the field with a name and a descriptor; `None` where there is none. It costs one
    /// hash of both texts.
    pub fn field_named(&self, name: &[u8], descriptor: &[u8]) -> Option<usize>
        ensures place { result ≡ position (λ f. bytes_eq f.name name.now && bytes_eq f.descriptor descriptor.now) self.now.class.fields }
        ensures found { option_and_then (slice_get self.now.class.fields) result ≡ field_named self.now.class name.now descriptor.now }
        ensures within { IfSome result (λ place. place < length self.now.class.fields) }
    {
        let seed = self.read.kept.fields.seed();
        self.field_of(&Text::new(seed, name), &Text::new(seed, descriptor))
    }

    /// The name of the field at a place, with its hash.
    pub fn field_name(&self, place: usize) -> Text<'a>
        requires { place < length self.now.class.fields }
        ensures { IsSomeAnd (slice_get self.now.class.fields place) (λ f. f.name ≡ result) }
    {
        self.read.kept.fields.name_at(place)
    }

    /// The descriptor of the field at a place, with its hash.
    pub fn field_descriptor(&self, place: usize) -> Text<'a>
        requires { place < length self.now.class.fields }
        ensures { IsSomeAnd (slice_get self.now.class.fields place) (λ f. f.descriptor ≡ result) }
    {
        self.read.kept.fields.descriptor_at(place)
    }

    /// How many methods there are.
    pub fn method_count(&self) -> usize
        ensures { result ≡ length self.now.class.methods }
    {
        self.read.kept.methods.count()
    }

    /// The method at a place, the first at 0 (JVMS 4.6).
    pub fn method(&self, place: usize) -> Member<'a>
        requires { place < length self.now.class.methods }
        ensures { IsSomeAnd (slice_get self.now.class.methods place) (IsMethod result) }
    {
        self.read.kept.methods.at(place)
    }

    /// The place of the method with a name and a descriptor; `None` where there is none. No text that knows its hash is
    /// hashed.
    pub fn method_of(&self, name: &Text<'_>, descriptor: &Text<'_>) -> Option<usize>
        ensures place { result ≡ position (λ m. bytes_eq m.name name.now && bytes_eq m.descriptor descriptor.now) self.now.class.methods }
        ensures found { option_and_then (slice_get self.now.class.methods) result ≡ method_named self.now.class name.now descriptor.now }
        ensures within { IfSome result (λ place. place < length self.now.class.methods) }
    {
        self.read.kept.methods.place_of(name, descriptor)
    }

    /// The place of the method with a name and a descriptor; `None` where there is none. It costs one
    /// hash of both texts.
    pub fn method_named(&self, name: &[u8], descriptor: &[u8]) -> Option<usize>
        ensures place { result ≡ position (λ m. bytes_eq m.name name.now && bytes_eq m.descriptor descriptor.now) self.now.class.methods }
        ensures found { option_and_then (slice_get self.now.class.methods) result ≡ method_named self.now.class name.now descriptor.now }
        ensures within { IfSome result (λ place. place < length self.now.class.methods) }
    {
        let seed = self.read.kept.methods.seed();
        self.method_of(&Text::new(seed, name), &Text::new(seed, descriptor))
    }

    /// The name of the method at a place, with its hash.
    pub fn method_name(&self, place: usize) -> Text<'a>
        requires { place < length self.now.class.methods }
        ensures { IsSomeAnd (slice_get self.now.class.methods place) (λ m. m.name ≡ result) }
    {
        self.read.kept.methods.name_at(place)
    }

    /// The descriptor of the method at a place, with its hash.
    pub fn method_descriptor(&self, place: usize) -> Text<'a>
        requires { place < length self.now.class.methods }
        ensures { IsSomeAnd (slice_get self.now.class.methods place) (λ m. m.descriptor ≡ result) }
    {
        self.read.kept.methods.descriptor_at(place)
    }

    /// Whether the class is an interface.
    pub fn is_interface(&self) -> bool
        ensures { result ≡ is_interface self.now }
    {
        ClassFlags(self.access_flags()).intersects(ClassFlags::INTERFACE)
    }

    /// Whether the class is final.
    pub fn is_final(&self) -> bool
        ensures { result ≡ has self.now.class.access_flags acc_final }
    {
        ClassFlags(self.access_flags()).intersects(ClassFlags::FINAL)
    }

    /// The name of the class's package, nothing where it has none (JVMS 4.2.1).
    pub fn package(&self) -> &'a [u8]
        ensures { result.now ≡ package_of self.now.class.name }
    {
        self.read.kept.package_name
    }

    /// Whether two classes are in one run-time package (JVMS 5.3).
    pub fn same_package(&self, other: &LoadedClass<'_>) -> bool
        ensures { result ≡ same_package self.now other.now }
    {
        is_same_loader(self.by_system(), other.by_system()) && self.package() == other.package()
    }

    /// Whether the class can name another, which is public or in its run-time package (JVMS 5.4.4).
    pub fn can_name(&self, to: &LoadedClass<'_>) -> bool
        ensures { result ≡ can_name self.now to.now }
    {
        ClassFlags(to.access_flags()).intersects(ClassFlags::PUBLIC) || self.same_package(to)
    }
}
