//! Which direct super, or which final method of a superclass, a class is refused for.

ghost use Rattle.std.specs.Prelude.{◌≡◌, ◌||◌, ◌<◌, Some, IfOk, length, string_bytes};
ghost use Rattle.std.specs.Option.{option_map};
ghost use Rattle.std.specs.Str.{bytes_eq};
ghost use Rattle.jv_meaning_world.specs.Above.{is_above};
ghost use Rattle.jv_meaning_world.specs.FileContent.{FileContent, IsContent};
ghost use Rattle.jv_meaning_world.specs.Numbers.{HoldsAtBoth, HoldsAtNumber};
ghost use Rattle.jv_meaning_world.specs.World.{class_named};
ghost use Rattle.jv_explain.specs.Inside.Blamed.{blamed_in, blamed_line, found_text};
ghost use Rattle.jv_explain.specs.Supers.{IsRefusalTold, fault_if, fault_of, fault_text, refusal_text, supers_text};

use crate::finals::finals_told;
use crate::names::name_told;
use jv_loader::{ClassTable, Classes, LoadVerdict, OutOfMemory, read_content};
use jv_meaning_world::{Content, one_content};
use jv_program_base::Escaped;
use std::alloc::{AllocError, Global};
use std::fmt;

/// What is wrong with a direct super of a class (JVMS 5.3.5, 4.10).
#[derive(Clone, Copy)]
pub enum SuperFault {
    /// There is no class of its name.
    Missing,
    /// It is there, and can't be loaded.
    Unloadable,
    /// It is the class itself, or a class below it.
    Below,
    /// It is an interface, and the superclass.
    Interface,
    /// It is no interface, and a superinterface.
    NoInterface,
    /// It is not public, and in another package.
    Closed,
    /// It is final.
    Final,
}

/// A direct super that a class is refused for.
#[derive(Clone, Copy)]
pub(crate) struct Blamed<'a> {
    name: &'a [u8],
    as_interface: bool,
    fault: SuperFault,
}

impl fmt::Display for SuperFault {
    ghost output = { λ fault. Some (fault_text fault) };

    fn fmt<W: fmt::Write>(&self, f: &mut fmt::Formatter<W>) -> fmt::Result {
        f.write_str(match self {
            SuperFault::Missing => " is neither among the guest's classes nor the system's",
            SuperFault::Unloadable => " cannot be loaded",
            SuperFault::Below => " is the class itself or below it",
            SuperFault::Interface => " is an interface",
            SuperFault::NoInterface => " is no interface",
            SuperFault::Closed => " is not public, and in another package",
            SuperFault::Final => " is final",
        })
    }
}

impl fmt::Display for Blamed<'_> {
    ghost output = { λ shown. Some (blamed_line shown) };

    fn fmt<W: fmt::Write>(&self, f: &mut fmt::Formatter<W>) -> fmt::Result {
        let kind = if self.as_interface {
            "  superinterface "
        } else {
            "  superclass "
        };
        let name = Escaped(self.name);
        let fault = self.fault;
        write!(f, "{kind}{name}{fault}\n")
    }
}

/// The fault, where there is one.
fn fault_if(fault: SuperFault, wrong: bool) -> Option<SuperFault>
    ensures { result ≡ fault_if fault wrong }
{
    if wrong { Some(fault) } else { None }
}

/// Whether a super is the class itself, or below it.
fn is_below(table: &ClassTable<'_>, class: usize, of: usize) -> bool
    requires class { class < length table.now }
    requires of { of < length table.now }
    ensures { HoldsAtBoth table.now class of (λ l s. result
        ≡ (bytes_eq s.class.name l.class.name || is_above table.now l.class.name s.class)) }
{
    table.is_numbered();
    of == class || table.is_above(class, of)
}

/// What a verdict on a class finds wrong with a direct super that is there.
fn fault_of_class(
    table: &ClassTable<'_>,
    class: usize,
    why: LoadVerdict,
    as_interface: bool,
    of: usize,
) -> Option<SuperFault>
    requires class { class < length table.now }
    requires of { of < length table.now }
    ensures { HoldsAtBoth table.now class of (λ l s. result ≡ fault_of table.now l why as_interface (Some s)) }
{
    let own = &table.classes()[class];
    let found = &table.classes()[of];
    match why {
        LoadVerdict::Circular => fault_if(SuperFault::Below, is_below(table, class, of)),
        LoadVerdict::NoSuper => fault_if(SuperFault::Unloadable, !table.is_loadable(of)),
        LoadVerdict::WrongKind => {
            if as_interface {
                fault_if(SuperFault::NoInterface, !found.is_interface())
            } else {
                fault_if(SuperFault::Interface, found.is_interface())
            }
        }
        LoadVerdict::NoAccess => fault_if(SuperFault::Closed, !own.can_name(found)),
        LoadVerdict::FinalBroken => fault_if(SuperFault::Final, found.is_final()),
        _ => None,
    }
}

/// What a verdict on a class finds wrong with a direct super of this name.
fn super_fault(
    table: &ClassTable<'_>,
    class: usize,
    why: LoadVerdict,
    as_interface: bool,
    name: &[u8],
) -> Option<SuperFault>
    requires { class < length table.now }
    ensures { HoldsAtNumber table.now class (λ l. result ≡ fault_of table.now l why as_interface (class_named table.now name.now)) }
{
    match table.find(name) {
        Some(of) => fault_of_class(table, class, why, as_interface, of),
        None => match why {
            LoadVerdict::NoSuper => Some(SuperFault::Missing),
            _ => None,
        },
    }
}

/// The direct super that a verdict on a class blames, where it blames one: the first.
fn first_blamed<'t>(table: &'t ClassTable<'_>, class: usize, why: LoadVerdict) -> Option<Blamed<'t>>
    requires { class < length table.now }
    ensures { HoldsAtNumber table.now class (λ l. found_text result ≡ blamed_in table.now l why) }
{
    let own = &table.classes()[class];
    if let Some(name) = own.super_name() {
        if let Some(fault) = super_fault(table, class, why, false, name) {
            return Some(Blamed {
                name,
                as_interface: false,
                fault,
            });
        }
    }
    for place in 0..own.interface_count() {
        let name = own.interface_name(place);
        if let Some(fault) = super_fault(table, class, why, true, name) {
            return Some(Blamed {
                name,
                as_interface: true,
                fault,
            });
        }
    }
    None
}

/// What is said of the direct super that a verdict on a class blames, where it blames one.
fn blamed_told(
    alloc: Global,
    table: &ClassTable<'_>,
    class: usize,
    why: LoadVerdict,
) -> Result<String, AllocError>
    requires { class < length table.now }
    ensures { IfOk result (λ text. HoldsAtNumber table.now class (λ l. string_bytes text ≡ blamed_in table.now l why)) }
{
    match first_blamed(table, class, why) {
        Some(shown) => shown.to_string(alloc),
        None => Ok(String::new(alloc)),
    }
}

/// What is said of the supers of the class of this name, where a verdict that came before its methods were looked at is about these.
fn supers_told(
    alloc: Global,
    classes: &Classes<'_>,
    name: &[u8],
    why: LoadVerdict,
) -> Result<String, AllocError>
    ensures { IfOk result (λ text. string_bytes text ≡ supers_text classes.now.world why (class_named classes.now.world name.now)) }
{
    let table = classes.table();
    let Some(class) = table.find(name) else {
        return Ok(String::new(alloc));
    };
    let mut text = blamed_told(alloc, table, class, why)?;
    let finals = finals_told(alloc, table, class, why)?;
    text.push_str(&finals)?;
    Ok(text)
}

/// What is said of a verdict on the class of this name, which came before its methods were looked at.
fn explain_class(
    alloc: Global,
    classes: &Classes<'_>,
    name: &[u8],
    why: LoadVerdict,
) -> Result<String, AllocError>
    ensures { IfOk result (λ text. string_bytes text ≡ refusal_text classes.now.world name.now why) }
{
    let mut text = name_told(alloc, name, why)?;
    let supers = supers_told(alloc, classes, name, why)?;
    text.push_str(&supers)?;
    Ok(text)
}

/// What is said of a file with these bytes whose class is refused among these before its methods were looked at: its name, where the
/// verdict is about that; the first direct super that it is about, and what is wrong with it (JVMS 5.3.5, 4.10), where it is about one, and
/// the first final method of a superclass that the class overrides itself (5.4.5), where it is about these; else nothing. It costs a
/// look-up for each final method of the superclasses.
///
/// # Errors
///
/// Where there was no memory for the class or for the text.
pub fn explain_refusal(
    alloc: Global,
    classes: &Classes<'_>,
    bytes: &[u8],
    why: LoadVerdict,
) -> Result<String, OutOfMemory>
    ensures { IfOk result (λ text. (content : FileContent) → IsContent bytes.now content
        → IsRefusalTold classes.now.world content why (string_bytes text)) }
{
    one_content();
    match read_content(alloc, bytes)? {
        Content::Holds(file) => Ok(explain_class(alloc, classes, file.name(), why)?),
        _ => Ok(String::new(alloc)),
    }
}
