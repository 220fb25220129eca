//! Which classes of a guest declare which final methods, by keys.

ghost use Rattle.std.specs.Prelude.{◌≡◌, ◌+◌, ◌*◌, ◌<◌, ◌∷◌, [], true, List, IfOk, length};
ghost use Rattle.jv_meaning_world.specs.World.{Loaded};
ghost use Rattle.jv_lookups.specs.FinalKeys.{TellsFinals};
ghost use Rattle.jv_classes.specs.Marks.{AreKept, is_marked};
ghost use Rattle.jv_lookups.specs.Inside.Keys.{AreMarkedBelow, AreMarkedMore, TellsFinalsOf, is_final_open, is_open};
ghost use Rattle.jv_lookups.specs.Inside.Steps.{as_method};

use crate::member::{NamedMethod, is_final_instance, is_instance, is_overridden};
use jv_classes::{KeyMarks, KeyRow, LoadedClass, Member, Text, member_key};
use std::alloc::{AllocError, Global};
use std::hash::{BuildHasher, Hasher, RandomState};

/// The methods of a guest's classes that others can override, by keys: a key has a row of two marks for each class, one for a final
/// method, and behind these one for a public or protected method. Which keys share a row is up to hashes that a stranger cannot know.
pub struct FinalKeys {
    seed: u64,
    marks: KeyMarks,
}

impl Drop for FinalKeys {
    fn drop(self) {
        let FinalKeys { seed: _, marks: _ } = self;
    }
}

/// A number for the hashes of texts that a stranger cannot know, by the state.
fn seed_of(state: RandomState) -> u64 {
    let hasher = state.build_hasher();
    hasher.finish()
}

/// Whether it is a final instance method that a method of another class can override (JVMS 5.4.5).
fn is_final_open(method: &Member<'_>) -> bool
    ensures { result ≡ is_final_open (as_method method.now) }
{
    is_final_instance(method) && is_overridden(true, method.access_flags)
}

/// Whether it is an instance method that a method of any other class can override: a public or protected one (JVMS 5.4.5).
fn is_open(method: &Member<'_>) -> bool
    ensures { result ≡ is_open (as_method method.now) }
{
    is_instance(method) && is_overridden(false, method.access_flags)
}

/// Marks a key in a column, where it is wanted.
fn mark_if(is_wanted: bool, marks: &mut KeyMarks, key: u64, column: usize)
    requires { column < marks.old.width }
    ensures marked { is_wanted ≡ true → is_marked marks.new key column ≡ true }
    ensures kept { AreKept marks.old marks.new }
{
    if is_wanted {
        marks.mark(key, column);
    }
}

/// Marks the key of a method in the two columns of its class.
fn mark_method(
    marks: &mut KeyMarks,
    seed: u64,
    finals: usize,
    opens: usize,
    method: &Member<'_>,
    name: &Text<'_>,
    descriptor: &Text<'_>,
)
    requires finals { finals < marks.old.width }
    requires opens { opens < marks.old.width }
    requires name { name.now ≡ method.now.name.now }
    requires descriptor { descriptor.now ≡ method.now.descriptor.now }
    ensures finals { AreMarkedMore is_final_open seed marks.old finals (as_method method.now ∷ []) marks.new }
    ensures opens { AreMarkedMore is_open seed marks.old opens (as_method method.now ∷ []) marks.new }
{
    let key = member_key(seed, name, descriptor);
    mark_if(is_final_open(method), marks, key, finals);
    mark_if(is_open(method), marks, key, opens);
}

/// Marks the keys of the methods of a class in its two columns.
fn mark_class(marks: &mut KeyMarks, seed: u64, finals: usize, opens: usize, class: &LoadedClass<'_>)
    requires finals { finals < marks.old.width }
    requires opens { opens < marks.old.width }
    ensures finals { AreMarkedMore is_final_open seed marks.old finals class.now.class.methods marks.new }
    ensures opens { AreMarkedMore is_open seed marks.old opens class.now.class.methods marks.new }
{
    for place in 0..class.method_count() {
        mark_method(
            marks,
            seed,
            finals,
            opens,
            &class.method(place),
            &class.method_name(place),
            &class.method_descriptor(place),
        );
    }
}

/// Marks the keys of the methods of all classes.
fn mark_classes(marks: &mut KeyMarks, seed: u64, classes: &[LoadedClass<'_>])
    requires { marks.old.width ≡ 2 * length classes.now }
    ensures width { marks.new.width ≡ 2 * length classes.now }
    ensures finals { AreMarkedBelow is_final_open seed marks.new classes.now (λ n. n) (length classes.now) }
    ensures opens { AreMarkedBelow is_open seed marks.new classes.now (λ n. length classes.now + n) (length classes.now) }
{
    let many = classes.len();
    for number in 0..many {
        mark_class(marks, seed, number, many + number, &classes[number]);
    }
}

/// Whether the class declares a final method that a method of another class can override.
fn has_final(class: &LoadedClass<'_>) -> bool {
    for place in 0..class.method_count() {
        if is_final_open(&class.method(place)) {
            return true;
        }
    }
    false
}

/// Whether one of the classes does.
fn some_has_final(classes: &[LoadedClass<'_>]) -> bool {
    for class in classes {
        if has_final(class) {
            return true;
        }
    }
    false
}

/// For how many members the marks have room: for twice the methods of all classes, so that few bytes tell of several keys, and for none
/// where no method is final, since then no class is looked at.
fn room_for(classes: &[LoadedClass<'_>]) -> usize {
    if !some_has_final(classes) {
        return 0;
    }
    let mut count = 0usize;
    for class in classes {
        count = count.saturating_add(class.method_count());
    }
    count.saturating_mul(2)
}

/// The methods of these classes by keys, hashed with the state.
///
/// # Errors
///
/// Where the host had no memory for them.
pub fn final_keys(
    alloc: Global,
    state: RandomState,
    classes: &[LoadedClass<'_>],
) -> Result<FinalKeys, AllocError>
    ensures { IfOk result (TellsFinals classes.now) }
{
    let seed = seed_of(state);
    let mut marks = KeyMarks::new(alloc, room_for(classes), 2 * classes.len())?;
    mark_classes(&mut marks, seed, classes);
    Ok(FinalKeys { seed, marks })
}

/// The row of the method's key.
pub(crate) fn row_of<'k>(keys: &'k FinalKeys, wanted: &NamedMethod<'_, '_>) -> KeyRow<'k>
    requires name { wanted.now.name.now ≡ wanted.now.method.now.name.now }
    requires descriptor { wanted.now.descriptor.now ≡ wanted.now.method.now.descriptor.now }
    ensures { (classes : List Loaded) → TellsFinals classes keys.now → TellsFinalsOf classes result (as_method wanted.now.method.now) }
{
    keys.marks
        .row(member_key(keys.seed, wanted.name, wanted.descriptor))
}
