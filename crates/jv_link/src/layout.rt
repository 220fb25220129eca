//! Where an object keeps its fields.

ghost use Rattle.std.specs.Prelude.{◌≡◌, ◌≤◌, ◌+◌, ◌*◌, ◌++◌, ◌∷◌, [], OnOk, vec_len, if◌then◌else◌};
ghost use Rattle.jv_link.specs.Layouts.{placed_field};

use jv_loader::Place;
use std::alloc::AllocError;

/// An instance field, by its place in its class, and its first word in an object.
#[derive(Clone, Copy)]
pub struct PlacedField {
    pub field: Place,
    pub word: usize,
}

/// The instance fields of a class's objects, those of the highest superclass first, and how many words
/// they have: two for a long, one for another.
#[derive(Drop)]
pub struct Layout {
    pub fields: Vec<PlacedField>,
    pub words: usize,
}

/// Adds a field behind the others.
pub(crate) fn add_field(layout: &mut Layout, field: Place, wide: bool) -> Result<(), AllocError>
    requires { layout.old.words ≤ 2 * vec_len layout.old.fields }
    ensures fields { OnOk result (layout.new.fields.items ≡ layout.old.fields.items ++ placed_field field layout.old.words ∷ []) }
    ensures words { OnOk result (layout.new.words ≡ layout.old.words + (if wide then 2 else 1)) }
    ensures bound { layout.new.words ≤ 2 * vec_len layout.new.fields }
{
    let word = layout.words;
    layout.fields.push(PlacedField { field, word })?;
    layout.words += if wide { 2 } else { 1 };
    Ok(())
}
