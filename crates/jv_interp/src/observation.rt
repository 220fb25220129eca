//! What a guest shows.

ghost use Rattle.std.specs.Prelude.{◌≡◌, List, ℕ, Option};
ghost use Rattle.std.specs.Option.{option_and_then, option_map};
ghost use Rattle.jv_interp_heap.specs.ObjectsInBlocks.{Blocks, HasNumber};
ghost use Rattle.jv_interp_members.specs.Methods.{AreMethods};
ghost use Rattle.jv_interp_control.specs.ControlStands.{IsClassOf, place_by, EndStands};
ghost use Rattle.jv_meaning_machine.specs.State.{End as EndOfNames};
ghost use Rattle.jv_interp.specs.Standing.{IsSomeGuest};
ghost use Rattle.jv_interp.specs.Showing.{IsShown, bytes_seen, seen_end, seen_place};

use crate::guest::Guest;
use jv_interp_control::{End, PlaceRecord};
use jv_interp_members::Methods;
use jv_link::{class_at, method_at};
use jv_loader::Classes;
use jv_meaning_typing::Verdict;

/// How a guest ended, if it did.
#[derive(Clone, Copy)]
pub enum GuestEnd<'g> {
    /// It takes steps.
    Running,
    /// main returned.
    Returned,
    /// An object of the class with this name was thrown and not caught.
    Threw(&'g [u8]),
    /// There is no main method.
    NoMain,
}

/// Where an object was thrown: at an instruction of a method.
#[derive(Clone, Copy)]
pub struct ThrowPlace<'g> {
    /// The name of the class that declares the method.
    pub class: &'g [u8],
    /// The method's name.
    pub method: &'g [u8],
    /// The method's descriptor (JVMS 4.3.3).
    pub descriptor: &'g [u8],
    /// The offset of the instruction in the method's code, in bytes.
    pub offset: u32,
}

/// What a guest shows after some number of its own steps.
#[derive(Clone, Copy)]
pub struct Observation<'g> {
    /// The verdicts on its files, in their order.
    pub verdicts: &'g [Verdict],
    /// How many steps it has taken.
    pub steps: u64,
    /// The bytes that it has written.
    pub output: &'g [u8],
    /// How many throws there were, up to 2^64 - 1.
    pub throws: u64,
    /// The name of the class of the last object that was thrown.
    pub last: Option<&'g [u8]>,
    /// Where it was thrown: the method of the newest frame that was one, and the offset there; `None` where no method ran.
    pub place: Option<ThrowPlace<'g>>,
    /// How it ended, if it did.
    pub end: GuestEnd<'g>,
}

/// The name of the class with a number.
fn name_of<'a>(classes: &Classes<'a>, number: u32) -> &'a [u8]
    requires { (name : List ℕ) × HasNumber classes.now.world name number }
    ensures { (name : List ℕ) → HasNumber classes.now.world name number → result.now ≡ name }
{
    class_at(classes.table(), number as usize).name()
}

/// The name of the class with a number, where there is one.
fn last_of<'a>(classes: &Classes<'a>, last: Option<u32>) -> Option<&'a [u8]>
    requires { (name : Option (List ℕ)) × IsClassOf classes.now.world name last }
    ensures { (name : Option (List ℕ)) → IsClassOf classes.now.world name last → option_map bytes_seen result ≡ name }
{
    match last {
        Some(number) => Some(name_of(classes, number)),
        None => None,
    }
}

/// The place by the method's number, where a method has it.
fn place_by<'a>(
    classes: &Classes<'a>,
    methods: &Methods<'a>,
    kept: PlaceRecord,
) -> Option<ThrowPlace<'a>>
    requires { AreMethods classes.now.world methods.now }
    ensures { option_map seen_place result ≡ place_by classes.now.world kept }
{
    if kept.method as usize >= methods.rows.len() {
        return None;
    }
    let table = classes.table();
    let at = methods.method(kept.method).place;
    let method = method_at(table, at);
    Some(ThrowPlace {
        class: class_at(table, at.class).name(),
        method: method.name,
        descriptor: method.descriptor,
        offset: kept.pc,
    })
}

/// The place, where there is one.
fn place_of<'a>(
    classes: &Classes<'a>,
    methods: &Methods<'a>,
    place: Option<PlaceRecord>,
) -> Option<ThrowPlace<'a>>
    requires { AreMethods classes.now.world methods.now }
    ensures { option_map seen_place result ≡ option_and_then (place_by classes.now.world) place }
{
    match place {
        Some(kept) => place_by(classes, methods, kept),
        None => None,
    }
}

/// The end, with the class's name.
fn end_of<'a>(classes: &Classes<'a>, end: End) -> GuestEnd<'a>
    requires { (ended : EndOfNames) × EndStands classes.now.world ended end }
    ensures { (ended : EndOfNames) → EndStands classes.now.world ended end → seen_end result ≡ ended }
{
    match end {
        End::Running => GuestEnd::Running,
        End::Returned => GuestEnd::Returned,
        End::Threw(number) => GuestEnd::Threw(name_of(classes, number)),
        End::NoMain => GuestEnd::NoMain,
    }
}

impl Guest<'_> {
    /// The verdicts on its files, in their order. Takes no memory.
    pub fn verdicts(&self) -> &[Verdict]
        ensures { result.now ≡ self.now.judged.verdicts }
    {
        self.judged.verdicts()
    }

    /// What it shows. Takes no memory.
    pub fn observe(&self) -> Observation<'_>
        requires { (blocks : Blocks) × IsSomeGuest self.now blocks }
        ensures { IsShown self.now result }
    {
        let classes = self.judged.classes();
        Observation {
            verdicts: self.judged.verdicts(),
            steps: self.steps,
            output: &self.held.output,
            throws: self.control.throws,
            last: last_of(classes, self.control.last),
            place: place_of(classes, &self.methods, self.control.place),
            end: end_of(classes, self.control.end),
        }
    }
}
