//! Objects that are not initialized on the stack of a frame of the stack map (JVMS 4.7.4).

ghost use Rattle.std.specs.Prelude.{◌≡◌, ℕ, List, IfOk};
ghost use Rattle.jv_verify_types.specs.Mapped.{types_of_entries};
ghost use Rattle.jv_verify_types.specs.Typed.{typed};
ghost use Rattle.jv_verify_pass.specs.Inside.Objects.{is_object, objects_downward, objects_of};

use jv_stackmap::{MapFrame, VerificationTypeOf};
use jv_verify_types::{EntryTypes, Item};
use std::alloc::{AllocError, Global};

/// Whether a type is an object that is not initialized: `this`, or what a `new` made.
fn is_object(item: Item) -> bool
    ensures { (names : List (List ℕ)) → result ≡ is_object (typed names item) }
{
    match item {
        VerificationTypeOf::UninitializedThis => true,
        VerificationTypeOf::Uninitialized(_) => true,
        _ => false,
    }
}

/// Whether each item is such an object, from the top on.
fn objects_downward(
    alloc: Global,
    types: &EntryTypes<'_, '_, '_>,
    map: &MapFrame<'_>,
) -> Result<Vec<bool>, AllocError>
    ensures { IfOk result (λ objects. objects.items ≡ objects_downward (types_of_entries types.now map.now.stack)) }
{
    let mut objects = Vec::new(alloc);
    let mut entries = map.stack();
    while let Some(entry) = entries.next() {
        objects.push(is_object(types.item(entry)))?;
    }
    Ok(objects)
}

/// Whether each item of the stack of a frame of the map is such an object, from the lowest on.
pub(crate) fn objects_of(
    alloc: Global,
    types: &EntryTypes<'_, '_, '_>,
    map: &MapFrame<'_>,
) -> Result<Vec<bool>, AllocError>
    ensures { IfOk result (λ objects. objects.items ≡ objects_of (types_of_entries types.now map.now.stack)) }
{
    let mut objects = objects_downward(alloc, types, map)?;
    objects.reverse();
    Ok(objects)
}
