//! The handlers of methods (JVMS 2.10, 4.7.3): which of a method's takes what is thrown.

ghost use Rattle.std.specs.Prelude.{◌≡◌, ◌<◌, List, [], ℕ, Some, true, IfOk, length, slice_get};
ghost use Rattle.std.specs.List.{find};
ghost use Rattle.std.specs.Option.{option_map};
ghost use Rattle.jv_format.specs.Handlers.{handlers_of};
ghost use Rattle.jv_format.specs.declared.handlers.Handler.{Handler};
ghost use Rattle.jv_pool.specs.Constants.{Entry};
ghost use Rattle.jv_class.specs.Class.{Method};
ghost use Rattle.jv_meaning_world.specs.World.{World, loaded};
ghost use Rattle.jv_meaning_world.specs.System.Io.{io};
ghost use Rattle.jv_meaning_world.specs.Numbers.{HoldsAtNumber};
ghost use Rattle.jv_meaning_world.specs.Overriding.{Declared};
ghost use Rattle.jv_classes.specs.Inside.Known.{AreKnown as AreTextsKnown};
ghost use Rattle.jv_lookups.specs.Places.{method_at};
ghost use Rattle.jv_link_cache.specs.Handlers.{takes, handler_pc, handlers_of_code, IsTaken};
ghost use Rattle.jv_link_cache.specs.Inside.Caught.{IsCaught, AreCaught};
ghost use Rattle.jv_link_cache.specs.Inside.Handlers.{AreKnown, AreKnownAt, AreKnownOf, AreHandlers};
ghost use Rattle.jv_link_cache.specs.Inside.Each.{Each};
ghost use Rattle.jv_link_cache.specs.Inside.Ranks.{rank_of, AreSpans, SpansStand};
ghost use Rattle.jv_link_cache.specs.Inside.Reaches.{AreFirstsOf};

use crate::bodies::code_of;
use crate::caught::{Caught, all_caught, is_caught, unknown};
use crate::ranks::{NO_RANK, Ranks, Span, rank_of, ranks_of, spans_of};
use crate::reaches::{are_many, firsts_of_handlers};
use jv_format::{ExceptionTable, Handler};
use jv_link::class_at;
use jv_link_handlers::{Firsts, first_at};
use jv_loader::{ClassTable, LoadedClass, Place};
use jv_pool::Pool;
use std::alloc::{AllocError, Global};

/// What the handlers of a method catch, in the order of its table, and where they are more than a few, which takes an object first.
#[derive(Drop)]
pub(crate) struct MethodHandlers {
    pub(crate) caught: Vec<Caught>,
    pub(crate) firsts: Option<Box<Firsts>>,
}

/// The handlers of each method of a class.
#[derive(Drop)]
pub(crate) struct ClassHandlers {
    pub(crate) methods: Vec<MethodHandlers>,
}

/// The handlers of each class, with the ranks by which the classes that they catch are known.
#[derive(Drop)]
pub(crate) struct Handlers {
    pub(crate) ranks: Vec<u16>,
    pub(crate) rows: Vec<ClassHandlers>,
}

/// What is known of the handlers of a method.
fn known_of(
    alloc: Global,
    table: &ClassTable<'_>,
    spans: &[Option<Span>],
    pool: &Pool<'_>,
    known: &mut Vec<Option<Option<usize>>>,
    handlers: ExceptionTable<'_>,
) -> Result<MethodHandlers, AllocError>
    requires { AreTextsKnown table.now pool.now known.old.items }
    ensures handlers { (ranks : List ℕ) → SpansStand table.now ranks spans.now
        → IfOk result (AreKnown table.now ranks pool.now (handlers_of handlers.entry)) }
    ensures known { AreTextsKnown table.now pool.now known.new.items }
{
    let caught = all_caught(alloc, table, pool, known, handlers)?;
    let firsts = firsts_of_handlers(alloc, spans, &caught, handlers)?;
    Ok(MethodHandlers { caught, firsts })
}

/// No handlers.
fn no_handlers(alloc: Global) -> MethodHandlers
    ensures { (world : World) (ranks : List ℕ) (pool : List Entry) → AreKnown world ranks pool [] result }
{
    MethodHandlers {
        caught: Vec::new(alloc),
        firsts: None,
    }
}

/// What is known of the handlers of the method at a place of a class.
fn known_at(
    alloc: Global,
    table: &ClassTable<'_>,
    spans: &[Option<Span>],
    class: &LoadedClass<'_>,
    pool: &Pool<'_>,
    known: &mut Vec<Option<Option<usize>>>,
    member: usize,
) -> Result<MethodHandlers, AllocError>
    requires { AreTextsKnown table.now pool.now known.old.items }
    ensures handlers { (ranks : List ℕ) (method : Method) → SpansStand table.now ranks spans.now
        → slice_get class.now.class.methods member ≡ Some method → IfOk result (AreKnownOf table.now ranks pool.now method) }
    ensures known { AreTextsKnown table.now pool.now known.new.items }
{
    match code_of(class, member) {
        Some(code) => known_of(alloc, table, spans, pool, known, code.exception_table),
        None => Ok(no_handlers(alloc)),
    }
}

/// How many of a class's constants are asked for the names that its handlers catch: none where it has no handlers.
fn asked_count(class: &LoadedClass<'_>, pool: &Pool<'_>) -> u16 {
    for member in 0..class.method_count() {
        if let Some(code) = code_of(class, member)
            && code.exception_table.len() > 0
        {
            return pool.count();
        }
    }
    0
}

/// What is known of the handlers of the methods of a class with these constants.
fn handlers_with(
    alloc: Global,
    table: &ClassTable<'_>,
    spans: &[Option<Span>],
    class: &LoadedClass<'_>,
    pool: &Pool<'_>,
) -> Result<Vec<MethodHandlers>, AllocError>
    requires { pool.now ≡ class.now.class.constant_pool }
    ensures { (ranks : List ℕ) → SpansStand table.now ranks spans.now
        → IfOk result (λ methods. Each (AreKnownAt table.now ranks class.now) (length class.now.class.methods) methods.items) }
{
    let mut known = unknown(alloc, asked_count(class, pool))?;
    let mut methods = Vec::with_capacity(alloc, class.method_count())?;
    for member in 0..class.method_count() {
        let handlers = known_at(alloc, table, spans, class, pool, &mut known, member)?;
        methods.push(handlers)?;
    }
    Ok(methods)
}

/// The same where it has no file, and so no code.
fn handlers_without(
    alloc: Global,
    table: &ClassTable<'_>,
    class: &LoadedClass<'_>,
) -> Result<Vec<MethodHandlers>, AllocError>
    requires { class.now ≡ loaded true io }
    ensures { (ranks : List ℕ)
        → IfOk result (λ methods. Each (AreKnownAt table.now ranks class.now) (length class.now.class.methods) methods.items) }
{
    let mut methods = Vec::with_capacity(alloc, class.method_count())?;
    for member in 0..class.method_count() {
        methods.push(no_handlers(alloc))?;
    }
    Ok(methods)
}

/// What is known of the handlers of the methods of a class.
fn handlers_of_class(
    alloc: Global,
    table: &ClassTable<'_>,
    spans: &[Option<Span>],
    class: &LoadedClass<'_>,
) -> Result<Vec<MethodHandlers>, AllocError>
    ensures { (ranks : List ℕ) → SpansStand table.now ranks spans.now
        → IfOk result (λ methods. Each (AreKnownAt table.now ranks class.now) (length class.now.class.methods) methods.items) }
{
    match class.file() {
        Some(file) => handlers_with(alloc, table, spans, class, file.pool()),
        None => handlers_without(alloc, table, class),
    }
}

/// What is known of the handlers of the methods of each class.
pub(crate) fn all_handlers(
    alloc: Global,
    table: &ClassTable<'_>,
    spans: &[Option<Span>],
) -> Result<Vec<ClassHandlers>, AllocError>
    ensures { (ranks : List ℕ) → AreSpans table.now ranks (length table.now) spans.now
        → IfOk result (λ rows. AreHandlers table.now ranks (length table.now) rows.items) }
{
    table.is_numbered();
    let mut rows = Vec::with_capacity(alloc, table.count())?;
    for class in 0..table.count() {
        let methods = handlers_of_class(alloc, table, spans, class_at(table, class))?;
        rows.push(ClassHandlers { methods })?;
    }
    Ok(rows)
}

/// Whether a method of a class has many handlers.
fn has_many(class: &LoadedClass<'_>) -> bool {
    for member in 0..class.method_count() {
        if let Some(code) = code_of(class, member)
            && are_many(code.exception_table)
        {
            return true;
        }
    }
    false
}

/// The same of one of all classes; else no span is asked for.
fn have_many(table: &ClassTable<'_>) -> bool {
    for class in table.classes() {
        if has_many(class) {
            return true;
        }
    }
    false
}

/// The handlers of all classes.
pub(crate) fn all_known(alloc: Global, table: &ClassTable<'_>) -> Result<Handlers, AllocError>
    ensures { IfOk result (λ handlers. AreHandlers table.now handlers.ranks.items (length table.now) handlers.rows.items) }
{
    let known = ranks_of(alloc, table)?;
    let spans = spans_of(alloc, table, &known, have_many(table))?;
    let rows = all_handlers(alloc, table, &spans)?;
    let Ranks { ranks, sizes: _ } = known;
    Ok(Handlers { ranks, rows })
}

/// What the handler at a place catches; behind the last one nothing.
fn caught_at(caught: &[Caught], place: usize) -> Caught
    ensures { (one : Caught) → slice_get caught.now place ≡ Some one → result ≡ one }
{
    if place < caught.len() {
        caught[place]
    } else {
        Caught::Nothing
    }
}

/// Whether a handler takes an object of a class, thrown at an offset.
fn takes(
    table: &ClassTable<'_>,
    handler: Handler,
    caught: Caught,
    offset: u32,
    class: usize,
) -> bool
    requires { class < length table.now }
    ensures { (pool : List Entry) → IsCaught table.now pool handler caught
        → HoldsAtNumber table.now class (λ thrown. result ≡ takes table.now pool thrown offset handler) }
{
    u32::from(handler.start_pc) <= offset
        && offset < u32::from(handler.end_pc)
        && is_caught(table, caught, class)
}

/// Where the first handler begins that takes an object of a class, thrown at an offset: one after the other is asked.
fn first_of_all(
    table: &ClassTable<'_>,
    caught: &[Caught],
    handlers: ExceptionTable<'_>,
    offset: u32,
    class: usize,
) -> Option<u16>
    requires { class < length table.now }
    ensures { (pool : List Entry) → AreCaught table.now pool (handlers_of handlers.entry) caught.now
        → HoldsAtNumber table.now class (λ thrown.
        result ≡ option_map handler_pc (find (takes table.now pool thrown offset) (handlers_of handlers.entry))) }
{
    for place in 0..handlers.len() {
        let Some(handler) = handlers.handler(place) else {
            unreachable!();
        };
        if takes(table, handler, caught_at(caught, place), offset, class) {
            return Some(handler.handler_pc);
        }
    }
    None
}

/// The same, by the ranks of classes, which are halved.
fn first_of_known(
    firsts: &Firsts,
    handlers: ExceptionTable<'_>,
    offset: u16,
    rank: u16,
) -> Option<u16>
    requires { rank < 65535 }
    ensures { (world : World) (ranks : List ℕ) (pool : List Entry) (class : ℕ)
        → AreFirstsOf world ranks pool (handlers_of handlers.entry) firsts.now → rank ≡ rank_of ranks class
        → HoldsAtNumber world class (λ thrown.
        result ≡ option_map handler_pc (find (takes world pool thrown offset) (handlers_of handlers.entry))) }
{
    let Some(place) = first_at(firsts, offset, rank) else {
        return None;
    };
    match handlers.handler(usize::from(place)) {
        Some(handler) => Some(handler.handler_pc),
        None => None,
    }
}

/// The same, by what is known of a method's handlers.
fn first_by(
    table: &ClassTable<'_>,
    ranks: &[u16],
    known: &MethodHandlers,
    handlers: ExceptionTable<'_>,
    offset: u32,
    class: usize,
) -> Option<u16>
    requires { class < length table.now }
    ensures { (pool : List Entry) → AreKnown table.now ranks.now pool (handlers_of handlers.entry) known.now
        → HoldsAtNumber table.now class (λ thrown.
        result ≡ option_map handler_pc (find (takes table.now pool thrown offset) (handlers_of handlers.entry))) }
{
    let rank = rank_of(ranks, class);
    if rank == NO_RANK || offset > 65_535 {
        return first_of_all(table, &known.caught, handlers, offset, class);
    }
    match &known.firsts {
        Some(firsts) => first_of_known(firsts, handlers, offset as u16, rank),
        None => first_of_all(table, &known.caught, handlers, offset, class),
    }
}

/// Where the first handler of the method at a place begins that takes an object of a class, thrown at an offset.
pub(crate) fn handler_in(
    table: &ClassTable<'_>,
    ranks: &[u16],
    rows: &[ClassHandlers],
    place: Place,
    handlers: ExceptionTable<'_>,
    offset: u32,
    class: usize,
) -> Option<u16>
    requires { class < length table.now }
    ensures { (d : Declared) → AreHandlers table.now ranks.now (length table.now) rows.now → method_at table.now place ≡ Some d
        → handlers_of handlers.entry ≡ handlers_of_code d.method.code → IsTaken table.now d class offset result }
{
    if place.class >= rows.len() {
        return None;
    }
    let methods = &rows[place.class].methods;
    if place.member >= methods.len() {
        return None;
    }
    first_by(
        table,
        ranks,
        &methods[place.member],
        handlers,
        offset,
        class,
    )
}
