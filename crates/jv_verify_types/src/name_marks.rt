//! Marks on the names of the direct superinterfaces of a class.

ghost use Rattle.std.specs.Prelude.{◌≡◌, ◌<◌, false, length, map, get_or, IfOk};
ghost use Rattle.jv_class_structure.specs.Seen.{seen_index};
ghost use Rattle.jv_verify_types.specs.Inside.Marked.{AreMarkedAt, IsNameMarked};

use crate::classes::names_class;
use crate::constants::ConstantTypes;
use jv_pool::ClassIndex;
use std::alloc::{AllocError, Global};

/// Marks the name of the class that a constant names.
fn mark(marks: &mut [bool], constants: &ConstantTypes<'_, '_>, index: u16)
    requires { length marks.old ≡ length constants.now.types.names }
    ensures size { length marks.new ≡ length marks.old }
    ensures marked { IsNameMarked constants.now index marks.old marks.new }
{
    let names = constants.names();
    names.are_distinct();
    if let Some(number) = names_class(constants, index) {
        marks[names.place(number)] = true;
    }
}

/// For each name by its number, whether one of these constants names the class of the name.
pub(crate) fn marks_of(
    alloc: Global,
    constants: &ConstantTypes<'_, '_>,
    indices: &[ClassIndex],
) -> Result<Vec<bool>, AllocError>
    ensures { IfOk result (λ marks. AreMarkedAt constants.now.types.names constants.now.pool (map seen_index indices.now) marks.items) }
{
    let mut marks = vec![in alloc; false; constants.names().count()]?;
    for index in indices {
        mark(&mut marks, constants, index.0);
    }
    Ok(marks)
}

/// Whether a number is marked.
pub(crate) fn is_marked(marks: &[bool], number: u16) -> bool
    ensures { result ≡ get_or marks.now number false }
{
    match marks.get(usize::from(number)) {
        Some(mark) => *mark,
        None => false,
    }
}
