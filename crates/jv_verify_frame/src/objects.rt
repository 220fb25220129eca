//! Objects that are not initialized (JVMS 4.10.1.2).

ghost use Rattle.std.specs.Prelude.{◌≡◌, ◌==◌, ℕ, false, length, map, slice_get, IfSome};
ghost use Rattle.std.specs.List.{list_any};
ghost use Rattle.std.specs.Option.{option_map};
ghost use Rattle.jv_verify_frame.specs.Inside.Noted.{Holds, has_at};
ghost use Rattle.jv_verify_frame.specs.Inside.Swapped.{same_object, swapped};

use jv_stackmap::VerificationTypeOf;
use jv_verify_types::Item;

/// Whether both are one object that is not initialized.
fn same_object(one: Item, other: Item) -> bool
    ensures { result ≡ same_object one other }
{
    match (one, other) {
        (VerificationTypeOf::UninitializedThis, VerificationTypeOf::UninitializedThis) => true,
        (VerificationTypeOf::Uninitialized(o), VerificationTypeOf::Uninitialized(p)) => o == p,
        _ => false,
    }
}

fn swapped(object: Item, by: Item, item: Item) -> Item
    ensures { result ≡ swapped object by item }
{
    if same_object(object, item) { by } else { item }
}

/// Puts a type in the place of each copy of an object.
pub(crate) fn replace_all(items: &mut [Item], object: Item, by: Item)
    ensures { items.new ≡ map (swapped object by) items.old }
{
    for item in items.iter_mut() {
        *item = swapped(object, by, *item);
    }
}

/// Whether an object is among the types.
pub(crate) fn has_object(items: &[Item], object: Item) -> bool
    ensures { result ≡ list_any (same_object object) items.now }
{
    items.iter().any(|item| same_object(object, *item))
}

/// Whether a copy of an object stands at a place.
pub(crate) fn is_at(items: &[Item], place: u16, object: Item) -> bool
    ensures { result ≡ has_at object items.now place }
{
    match items.get(usize::from(place)) {
        Some(item) => same_object(object, *item),
        None => false,
    }
}

/// Whether a copy of an object stands at one of some places.
pub(crate) fn is_at_any(items: &[Item], places: &[u16], object: Item) -> bool
    ensures { result ≡ list_any (has_at object items.now) places.now }
{
    places.iter().any(|place| is_at(items, *place, object))
}

/// Puts a type in the place of a copy of an object, if one stands at a place.
fn replace_at(items: &mut [Item], place: u16, object: Item, by: Item)
    ensures at { slice_get items.new place ≡ option_map (swapped object by) (slice_get items.old place) }
    ensures others { (k : ℕ) → (place == k) ≡ false → slice_get items.new k ≡ slice_get items.old k }
    ensures same { length items.new ≡ length items.old }
{
    let place = usize::from(place);
    if place < items.len() {
        items[place] = swapped(object, by, items[place]);
    }
}

/// Puts a type in the place of each copy of an object, all of which stand at some places.
fn replace_at_all(items: &mut [Item], places: &[u16], object: Item, by: Item)
    requires { Holds places.now object items.old }
    ensures all { items.new ≡ map (swapped object by) items.old }
    ensures same { length items.new ≡ length items.old }
{
    for k in 0..places.len() {
        replace_at(items, places[k], object, by);
    }
}

/// Puts a type in the place of each copy of an object, where it may be known at which places they stand.
pub(crate) fn replace_copies(items: &mut [Item], places: Option<&[u16]>, object: Item, by: Item)
    requires { IfSome places (λ p. Holds p.now object items.old) }
    ensures all { items.new ≡ map (swapped object by) items.old }
{
    match places {
        Some(places) => replace_at_all(items, places, object, by),
        None => replace_all(items, object, by),
    }
}
