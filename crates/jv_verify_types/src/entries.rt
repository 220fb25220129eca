//! Types of the entries of frames (JVMS 4.7.4).

ghost use Rattle.std.specs.Prelude.{◌≡◌, slice_index_or};
ghost use Rattle.jv_stackmap.specs.declared.verification.VerificationTypeOf.TheVariants as variants;
ghost use Rattle.jv_verify_types.specs.Typed.{typed};
ghost use Rattle.jv_verify_types.specs.Mapped.{names_of_types, type_of_entry};

use crate::constants::ConstantTypes;
use crate::names::{Item, TypeNames};
use jv_stackmap::{FrameEntry, VerificationTypeOf};
use std::marker::Model;

/// What says which types the entries of a method's frames stand for: the constants of its class, and the types of the
/// initial local entries.
pub struct EntryTypes<'e, 't, 'a> {
    constants: &'e ConstantTypes<'t, 'a>,
    initial: &'e [Item],
}

impl<'e, 't, 'a> Model for EntryTypes<'e, 't, 'a> {
    ghost use Rattle.jv_verify_types.specs.Mapped.{EntryTypes};

    ghost Value = { EntryTypes };

    ghost view = { λ t. record { constants = t.constants.now; initial = t.initial.now } };
}

impl Drop for EntryTypes<'_, '_, '_> {
    fn drop(self) {
        let EntryTypes {
            constants: _,
            initial: _,
        } = self;
    }
}

/// The type of the initial local entry at a place; top behind the last.
fn initial_item(initial: &[Item], place: u16) -> Item
    ensures { result ≡ slice_index_or initial.now place variants.Top }
{
    match initial.get(usize::from(place)) {
        Some(item) => *item,
        None => VerificationTypeOf::Top,
    }
}

impl<'e, 't, 'a> EntryTypes<'e, 't, 'a> {
    /// Over the constants of a class, and the types of the receiver, where there is one, and of the parameters, the first
    /// first.
    pub fn new(constants: &'e ConstantTypes<'t, 'a>, initial: &'e [Item]) -> EntryTypes<'e, 't, 'a>
        ensures constants { result.constants ≡ constants.now }
        ensures initial { result.initial ≡ initial.now }
    {
        EntryTypes { constants, initial }
    }

    /// The names whose numbers the types have.
    #[inline(always)]
    pub fn names(&self) -> &'e TypeNames<'t, 'a>
        ensures { result.now ≡ self.now.constants.types }
    {
        // Reads a field, so that the invariant is known.
        let _initial = &self.initial;
        self.constants.names()
    }

    /// The type that an entry stands for.
    #[inline(always)]
    pub fn item(&self, entry: FrameEntry) -> Item
        ensures { typed (names_of_types self.now) result ≡ type_of_entry self.now entry }
    {
        match entry {
            FrameEntry::Top => VerificationTypeOf::Top,
            FrameEntry::Int => VerificationTypeOf::Int,
            FrameEntry::Long => VerificationTypeOf::Long,
            FrameEntry::Null => VerificationTypeOf::Null,
            FrameEntry::UninitializedThis => VerificationTypeOf::UninitializedThis,
            FrameEntry::Object(class) => match self.constants.class_type(class) {
                Some(item) => item,
                None => VerificationTypeOf::Top,
            },
            FrameEntry::Uninitialized(offset) => VerificationTypeOf::Uninitialized(offset),
            FrameEntry::Initial(place) => initial_item(self.initial, place),
        }
    }
}
