//! Methods by number.

ghost use Rattle.std.specs.Prelude.{◌≡◌, ◌+◌, ◌<◌, ◌≤◌, List, ◌++◌, Some, OnOk, IfOk, length, slice_get};
ghost use Rattle.jv_meaning_world.specs.Numbers.{HoldsAtNumber};
ghost use Rattle.jv_meaning_world.specs.World.{World};
ghost use Rattle.jv_meaning_world.specs.Overriding.{Declared};
ghost use Rattle.jv_lookups.specs.Places.{method_at};
ghost use Rattle.jv_interp_words.specs.FramesInWords.{methods_of};
ghost use Rattle.jv_interp_members.specs.Inside.Counted.{own_methods};
ghost use Rattle.jv_interp_members.specs.Methods.{HasCode, IsRowOf, AreRows, AreMethods};

use jv_code::Code;
use jv_link::class_at;
use jv_link_cache::{Body, body_at};
use jv_loader::{ClassTable, Classes, Place};
use std::alloc::{AllocError, Global};

/// A method: where it stands, and its code, where it has code.
#[derive(Clone, Copy)]
pub struct MethodRow<'a> {
    /// The number of its class, and its place among the methods there.
    pub place: Place,
    /// Its code attribute, and what a call of it passes.
    pub body: Option<Body<'a>>,
    /// The bytes of its code, where they are instructions (JVMS 4.9.1).
    pub code: Option<Code<'a>>,
}

/// The methods of all classes.
#[derive(Drop)]
pub struct Methods<'a> {
    /// The methods, those of each class behind those of the classes before it.
    pub rows: Vec<MethodRow<'a>>,
    /// For each class the number of its first method.
    pub firsts: Vec<usize>,
}

/// The bytes of a method's code, where they are instructions.
fn code_in<'a>(body: Option<Body<'a>>) -> Option<Code<'a>>
    ensures { HasCode body.entry result }
{
    match body {
        Some(body) => match Code::read(body.code.code) {
            Ok(code) => Some(code),
            Err(_) => None,
        },
        None => None,
    }
}

/// Adds the methods of a class behind those of the classes before it.
fn add_methods<'a>(
    rows: &mut Vec<MethodRow<'a>>,
    table: &ClassTable<'a>,
    class: usize,
) -> Result<(), AllocError>
    requires { class < length table.now }
    ensures added { OnOk result (HoldsAtNumber table.now class (λ l. (methods : List Declared) → AreRows table.now methods rows.old.items
        → AreRows table.now (methods ++ own_methods l) rows.new.items)) }
    ensures count { OnOk result (HoldsAtNumber table.now class
        (λ l. length rows.new.items ≡ length rows.old.items + length l.class.methods)) }
{
    let loaded = class_at(table, class);
    for member in 0..loaded.method_count() {
        let place = Place { class, member };
        let body = body_at(table, place);
        rows.push(MethodRow {
            place,
            body,
            code: code_in(body),
        })?;
    }
    Ok(())
}

/// How many methods all classes have, if so many have numbers.
fn method_count(table: &ClassTable<'_>) -> usize {
    let mut count = 0usize;
    for class in table.classes() {
        count = count.wrapping_add(class.method_count());
    }
    count
}

/// The methods of all classes.
fn all_methods<'a>(alloc: Global, table: &ClassTable<'a>) -> Result<Methods<'a>, AllocError>
    ensures { IfOk result (AreMethods table.now) }
{
    let mut rows = Vec::with_capacity(alloc, method_count(table))?;
    let mut firsts = Vec::with_capacity(alloc, table.count())?;
    for class in 0..table.count() {
        firsts.push(rows.len())?;
        add_methods(&mut rows, table, class)?;
    }
    if rows.len() <= 4_294_967_295 {
        Ok(Methods { rows, firsts })
    } else {
        Err(AllocError)
    }
}

/// The sum of two numbers, where it is a number of one of so many.
#[inline(always)]
fn number_within(first: usize, member: usize, count: usize) -> u32
    ensures { first + member < count → count ≤ 4294967295 → result ≡ first + member }
{
    if first < count && member < count - first && first + member <= 4_294_967_295 {
        (first + member) as u32
    } else {
        0
    }
}

impl<'a> Methods<'a> {
    /// Those of a guest's classes.
    ///
    /// # Errors
    ///
    /// Where the host had no memory for them, or there are 2^32 or more (own).
    pub fn of(alloc: Global, classes: &Classes<'a>) -> Result<Methods<'a>, AllocError>
        ensures { IfOk result (AreMethods classes.now.world) }
    {
        all_methods(alloc, classes.table())
    }

    /// The method with a number.
    #[inline(always)]
    pub fn method(&self, number: u32) -> MethodRow<'a>
        requires { number < length self.now.rows.items }
        ensures { (world : World) (d : Declared) → AreMethods world self.now → slice_get (methods_of world) number ≡ Some d
            → IsRowOf world d result }
    {
        self.rows[number as usize]
    }

    /// The number of the method at a place.
    #[inline(always)]
    pub fn number_of(&self, place: Place) -> u32
        ensures { (world : World) (d : Declared) → AreMethods world self.now → method_at world place ≡ Some d
            → slice_get (methods_of world) result ≡ Some d }
    {
        if place.class < self.firsts.len() {
            number_within(self.firsts[place.class], place.member, self.rows.len())
        } else {
            0
        }
    }
}
