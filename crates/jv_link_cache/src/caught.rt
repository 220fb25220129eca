//! What handlers catch (JVMS 4.7.3), by the numbers of classes.

ghost use Rattle.std.specs.Prelude.{◌≡◌, ◌<◌, List, ℕ, IfOk, IsSome, length};
ghost use Rattle.jv_format.specs.Handlers.{handlers_of};
ghost use Rattle.jv_format.specs.declared.handlers.Handler.{Handler};
ghost use Rattle.jv_pool.specs.Constants.{Entry, class_name_at, utf8_at};
ghost use Rattle.jv_meaning_world.specs.World.{World};
ghost use Rattle.jv_meaning_world.specs.Numbers.{HoldsAtNumber};
ghost use Rattle.jv_classes.specs.Inside.Known.{AreKnown, text_number, class_number};
ghost use Rattle.jv_link_cache.specs.Handlers.{catches};
ghost use Rattle.jv_link_cache.specs.Inside.Caught.{class_caught, IsCaught, AreCaught};

use crate::ranks::is_of;
use jv_format::{ExceptionTable, Handler};
use jv_loader::ClassTable;
use jv_pool::{ClassIndex, Constant, Pool};
use std::alloc::{AllocError, Global};

/// What a handler catches.
#[derive(Clone, Copy)]
pub(crate) enum Caught {
    /// Objects of all classes.
    Any,
    /// Objects of a class and of those below it.
    Class(u16),
    /// None: there is no class of the name.
    Nothing,
}

/// The index of the text that a Class constant names.
fn text_of(pool: &Pool<'_>, index: ClassIndex) -> usize
    ensures { class_name_at pool.now index.0 ≡ utf8_at pool.now result }
{
    match pool.constant(index.0) {
        Some(Constant::Class(name)) => usize::from(name),
        _ => 0,
    }
}

/// Room for what is known of the text at each index of a constant pool.
pub(crate) fn unknown(alloc: Global, count: u16) -> Result<Vec<Option<Option<usize>>>, AllocError>
    ensures { (world : World) (pool : List Entry) → IfOk result (λ known. AreKnown world pool known.items) }
{
    let mut known = Vec::new(alloc);
    known.resize(usize::from(count), None)?;
    Ok(known)
}

/// Keeps what was found of a text.
fn keep(known: &mut Vec<Option<Option<usize>>>, index: usize, number: Option<usize>)
    ensures { (world : World) (pool : List Entry) → AreKnown world pool known.old.items → number ≡ text_number world pool index
        → AreKnown world pool known.new.items }
{
    if index < known.len() {
        known[index] = Some(number);
    }
}

/// The number of the class that a Class constant names, where it is there; a text that is known is not hashed.
fn find_once(
    table: &ClassTable<'_>,
    pool: &Pool<'_>,
    known: &mut Vec<Option<Option<usize>>>,
    index: ClassIndex,
) -> Option<usize>
    requires named { IsSome (class_name_at pool.now index.0) }
    requires known { AreKnown table.now pool.now known.old.items }
    ensures found { result ≡ class_number table.now pool.now index }
    ensures known { AreKnown table.now pool.now known.new.items }
{
    let text = text_of(pool, index);
    if let Some(Some(number)) = known.get(text) {
        return *number;
    }
    let number = table.find(pool.class_name(index));
    keep(known, text, number);
    number
}

/// The class with a number, in two bytes; there is no memory for one that has no room there.
fn caught_class(class: Option<usize>) -> Result<Caught, AllocError>
    ensures { (world : World) (pool : List Entry) (handler : Handler) → (handler.catch_type ≡ 0 → ⊥)
        → class ≡ class_caught world pool handler.catch_type → IfOk result (IsCaught world pool handler) }
{
    match class {
        Some(class) if class <= 65_535 => Ok(Caught::Class(class as u16)),
        Some(_) => Err(AllocError),
        None => Ok(Caught::Nothing),
    }
}

/// What a handler of a class catches.
fn caught_by(
    table: &ClassTable<'_>,
    pool: &Pool<'_>,
    known: &mut Vec<Option<Option<usize>>>,
    handler: Handler,
) -> Result<Caught, AllocError>
    requires { AreKnown table.now pool.now known.old.items }
    ensures caught { IfOk result (IsCaught table.now pool.now handler) }
    ensures known { AreKnown table.now pool.now known.new.items }
{
    if handler.catch_type == 0 {
        return Ok(Caught::Any);
    }
    match pool.class_index(handler.catch_type) {
        Some(index) => caught_class(find_once(table, pool, known, index)),
        None => Ok(Caught::Nothing),
    }
}

/// What the handlers of a method catch.
pub(crate) fn all_caught(
    alloc: Global,
    table: &ClassTable<'_>,
    pool: &Pool<'_>,
    known: &mut Vec<Option<Option<usize>>>,
    handlers: ExceptionTable<'_>,
) -> Result<Vec<Caught>, AllocError>
    requires { AreKnown table.now pool.now known.old.items }
    ensures caught { IfOk result (λ caught. AreCaught table.now pool.now (handlers_of handlers.entry) caught.items) }
    ensures known { AreKnown table.now pool.now known.new.items }
{
    let mut caught = Vec::with_capacity(alloc, handlers.len())?;
    for place in 0..handlers.len() {
        let Some(handler) = handlers.handler(place) else {
            unreachable!();
        };
        caught.push(caught_by(table, pool, known, handler)?)?;
    }
    Ok(caught)
}

/// Whether a handler that catches this catches objects of a class.
pub(crate) fn is_caught(table: &ClassTable<'_>, caught: Caught, class: usize) -> bool
    requires { class < length table.now }
    ensures { (pool : List Entry) (handler : Handler) → IsCaught table.now pool handler caught
        → HoldsAtNumber table.now class (λ thrown. result ≡ catches table.now pool thrown handler) }
{
    table.is_numbered();
    match caught {
        Caught::Any => true,
        Caught::Class(other) => {
            let other = usize::from(other);
            other < table.count() && is_of(table, class, other)
        }
        Caught::Nothing => false,
    }
}
