//! What is kept of the class of a file.

ghost use Rattle.std.specs.Prelude.{◌≡◌, ◌<◌, IfOk, IfSome, OnOk, IsSome, None, Some, get_or, length, map, set, slice_get};
ghost use Rattle.std.specs.List.{All};
ghost use Rattle.std.specs.Option.{option_copied};
ghost use Rattle.jv_pool.specs.Constants.{utf8_at};
ghost use Rattle.jv_class.specs.Class.{Class, all_found, class_of, super_of};
ghost use Rattle.jv_class.specs.Rules.{NoTwoAlike};
ghost use Rattle.jv_class_structure.specs.Parts.{methods_of};
ghost use Rattle.jv_classes.specs.Inside.Kept.{Keeps};
ghost use Rattle.jv_classes.specs.Inside.Seen.{field_seen, method_seen};
ghost use Rattle.jv_classes.specs.Inside.Found.{ArePlaces, Joins, Stay, field_at, field_texts, member_seen_at, method_at};

use crate::kept::Kept;
use crate::members::{Gathered, Members};
use crate::package::package;
use jv_class::{ClassFile, Field};
use jv_pool::{Pool, Utf8Index};
use std::alloc::{AllocError, Global};
use std::hash::RandomState;

/// The place that is known of the text at an index.
fn place_known(places: &[Option<u16>], index: u16) -> Option<u16>
    ensures { result ≡ get_or places.now index None }
{
    match places.get(usize::from(index)) {
        Some(place) => *place,
        None => None,
    }
}

/// Keeps the place of the text at an index.
fn keep_place(places: &mut Vec<Option<u16>>, index: u16, place: u16)
    ensures { places.new.items ≡ set places.old.items index (Some place) }
{
    let index = usize::from(index);
    if index < places.len() {
        places[index] = Some(place);
    }
}

/// The place of the text at an index among those that are gathered, to which it is added where none is known.
fn place_of_text<'a>(
    gathered: &mut Gathered<'a>,
    places: &mut Vec<Option<u16>>,
    pool: &Pool<'a>,
    index: Utf8Index,
) -> Result<u16, AllocError>
    requires text { IsSome (utf8_at pool.now index.0) }
    requires places { ArePlaces pool.now places.now.items gathered.now.texts }
    ensures found { IfOk result (λ place. slice_get gathered.new.texts place ≡ utf8_at pool.now index.0) }
    ensures places { OnOk result (ArePlaces pool.now places.new.items gathered.new.texts) }
    ensures texts { OnOk result (Stay gathered.old.texts gathered.new.texts) }
    ensures members { OnOk result (gathered.new.members ≡ gathered.old.members) }
{
    if let Some(place) = place_known(places, index.0) {
        return Ok(place);
    }
    let place = gathered.add_text(pool.utf8(index))?;
    keep_place(places, index.0, place);
    Ok(place)
}

/// Adds the member with these flags and texts behind the others.
fn add_member<'a>(
    gathered: &mut Gathered<'a>,
    places: &mut Vec<Option<u16>>,
    pool: &Pool<'a>,
    flags: u16,
    name: Utf8Index,
    descriptor: Utf8Index,
) -> Result<(), AllocError>
    requires name { IsSome (utf8_at pool.now name.0) }
    requires descriptor { IsSome (utf8_at pool.now descriptor.0) }
    requires places { ArePlaces pool.now places.now.items gathered.now.texts }
    ensures joins { OnOk result (Joins (member_seen_at pool.now flags name.0 descriptor.0) gathered.old.members gathered.new.members) }
    ensures places { OnOk result (ArePlaces pool.now places.new.items gathered.new.texts) }
{
    let name = place_of_text(gathered, places, pool, name)?;
    let descriptor = place_of_text(gathered, places, pool, descriptor)?;
    gathered.add(flags, name, descriptor)
}

fn fields_in<'a>(
    alloc: Global,
    state: RandomState,
    pool: &Pool<'a>,
    fields: &[Field],
) -> Result<Members<'a>, AllocError>
    requires named { All (λ field. IsSome (utf8_at pool.now field.name.0)) fields.now }
    requires described { All (λ field. IsSome (utf8_at pool.now field.descriptor.0)) fields.now }
    requires unlike { NoTwoAlike (map (field_texts pool.now) fields.now) }
    ensures { IfOk result (λ members. all_found (field_at pool.now) fields.now ≡ Some members) }
{
    let mut gathered = Gathered::with_capacity(alloc, state, fields.len())?;
    let mut places = vec![in alloc; None; usize::from(pool.count())]?;
    for field in fields {
        add_member(
            &mut gathered,
            &mut places,
            pool,
            field.access_flags.0,
            field.name,
            field.descriptor,
        )?;
    }
    Ok(gathered.members())
}

/// Adds the method at a place behind the others; nothing where there is none.
fn add_method<'a>(
    gathered: &mut Gathered<'a>,
    places: &mut Vec<Option<u16>>,
    file: &ClassFile<'a>,
    place: usize,
) -> Result<(), AllocError>
    requires places { ArePlaces file.now.constant_pool places.now.items gathered.now.texts }
    ensures joins { OnOk result (IfSome (slice_get (methods_of file.now) place)
        (λ m. Joins (method_at file.now.constant_pool m) gathered.old.members gathered.new.members)) }
    ensures places { OnOk result (ArePlaces file.now.constant_pool places.new.items gathered.new.texts) }
{
    match file.method(place) {
        Some(method) => add_member(
            gathered,
            places,
            file.pool(),
            method.access_flags.0,
            method.name,
            method.descriptor,
        ),
        None => Ok(()),
    }
}

fn methods_in<'a>(
    alloc: Global,
    state: RandomState,
    file: &ClassFile<'a>,
) -> Result<Members<'a>, AllocError>
    ensures { IfOk result (λ members. all_found (method_at file.now.constant_pool) (methods_of file.now) ≡ Some members) }
{
    let mut gathered = Gathered::with_capacity(alloc, state, file.method_count())?;
    let mut places = vec![in alloc; None; usize::from(file.pool().count())]?;
    for place in 0..file.method_count() {
        add_method(&mut gathered, &mut places, file, place)?;
    }
    Ok(gathered.members())
}

fn fields_of<'a>(
    alloc: Global,
    state: RandomState,
    file: &ClassFile<'a>,
) -> Result<Members<'a>, AllocError>
    ensures { IfOk result (λ members. (class : Class) → class_of file.now ≡ Some class → members ≡ map field_seen class.fields) }
{
    file.is_well_formed();
    fields_in(alloc, state, file.pool(), file.fields())
}

fn methods_of<'a>(
    alloc: Global,
    state: RandomState,
    file: &ClassFile<'a>,
) -> Result<Members<'a>, AllocError>
    ensures { IfOk result (λ members. (class : Class) → class_of file.now ≡ Some class → members ≡ map method_seen class.methods) }
{
    methods_in(alloc, state, file)
}

fn super_name<'a>(file: &ClassFile<'a>) -> Option<&'a [u8]>
    ensures { super_of file.now ≡ Some (option_copied result) }
{
    match file.super_class() {
        Some(index) => Some(file.pool().class_name(index)),
        None => None,
    }
}

/// The name of the direct superinterface at a place.
pub(crate) fn interface_in<'a>(file: &ClassFile<'a>, place: usize) -> &'a [u8]
    requires { place < length file.now.interfaces }
    ensures { (class : Class) → class_of file.now ≡ Some class → slice_get class.interfaces place ≡ Some result.now }
{
    let interfaces = file.interfaces();
    file.pool().class_name(interfaces[place])
}

/// What is kept of the class of a file.
pub(crate) fn kept_of_file<'a>(
    alloc: Global,
    state: RandomState,
    file: &ClassFile<'a>,
) -> Result<Kept<'a>, AllocError>
    ensures { IfOk result (λ kept. (class : Class) → class_of file.now ≡ Some class → Keeps class kept) }
{
    let name = file.name();
    let fields = fields_of(alloc, state, file)?;
    let methods = methods_of(alloc, state, file)?;
    Ok(Kept {
        major: file.major(),
        access_flags: file.access_flags().0,
        name,
        package_name: package(name),
        super_name: super_name(file),
        fields,
        methods,
    })
}
