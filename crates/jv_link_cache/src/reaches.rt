//! The handlers of a method as reaches, of offsets and of ranks of classes.

ghost use Rattle.std.specs.Prelude.{◌≡◌, List, ℕ, Some, IfOk, IfSome, length, slice_get};
ghost use Rattle.jv_format.specs.Handlers.{handlers_of};
ghost use Rattle.jv_format.specs.declared.handlers.Handler.{Handler};
ghost use Rattle.jv_pool.specs.Constants.{Entry};
ghost use Rattle.jv_meaning_world.specs.World.{World};
ghost use Rattle.jv_link_cache.specs.Inside.Caught.{IsCaught, AreCaught};
ghost use Rattle.jv_link_cache.specs.Inside.Ranks.{IsSpan, SpansStand};
ghost use Rattle.jv_link_cache.specs.Inside.Reaches.{IsCaughtSpan, IsReach, AreReaches, AreFirstsOf};

use crate::caught::Caught;
use crate::ranks::{NO_RANK, Span};
use jv_format::{ExceptionTable, Handler};
use jv_link_handlers::{Firsts, Reach, firsts_of};
use std::alloc::{AllocError, Global};

/// With so many handlers at most a method has no table, as they are gone through as quickly.
const FEW: usize = 16;

/// A table has room for so many handlers, and a class file for no more in a method (JVMS 4.7.3).
const MOST: usize = 65_535;

/// The span of a class, where it is known.
fn span_at(spans: &[Option<Span>], class: usize) -> Option<Span>
    ensures { (world : World) (ranks : List ℕ) → SpansStand world ranks spans.now → IfSome result (IsSpan world ranks class) }
{
    if class < spans.len() {
        spans[class]
    } else {
        None
    }
}

/// The span of the classes that a handler catches, where it is known.
fn caught_span(spans: &[Option<Span>], caught: Caught) -> Option<Span>
    ensures { (world : World) (ranks : List ℕ) (pool : List Entry) (handler : Handler) → SpansStand world ranks spans.now
        → IsCaught world pool handler caught → IfSome result (IsCaughtSpan world ranks pool handler) }
{
    match caught {
        Caught::Any => Some(Span {
            low: 0,
            high: NO_RANK,
        }),
        Caught::Class(class) => span_at(spans, usize::from(class)),
        Caught::Nothing => Some(Span { low: 0, high: 0 }),
    }
}

/// What a handler that catches the classes of a span reaches to.
fn reach_of(handler: Handler, span: Span) -> Reach
    ensures { (world : World) (ranks : List ℕ) (pool : List Entry) → IsCaughtSpan world ranks pool handler span
        → IsReach world ranks pool handler result }
{
    Reach {
        start: handler.start_pc,
        end: handler.end_pc,
        low: span.low,
        high: span.high,
    }
}

/// What a handler reaches to, of which it is known what it catches, where there is a span.
fn reach_at(
    spans: &[Option<Span>],
    caught: &[Caught],
    place: usize,
    handler: Handler,
) -> Option<Reach>
    ensures { (world : World) (ranks : List ℕ) (pool : List Entry) (handlers : List Handler) → SpansStand world ranks spans.now
        → AreCaught world pool handlers caught.now → slice_get handlers place ≡ Some handler
        → IfSome result (IsReach world ranks pool handler) }
{
    if place >= caught.len() {
        return None;
    }
    match caught_span(spans, caught[place]) {
        Some(span) => Some(reach_of(handler, span)),
        None => None,
    }
}

/// What the handlers of a method reach to, where there are spans.
fn reaches_of(
    alloc: Global,
    spans: &[Option<Span>],
    caught: &[Caught],
    handlers: ExceptionTable<'_>,
) -> Result<Option<Vec<Reach>>, AllocError>
    ensures { (world : World) (ranks : List ℕ) (pool : List Entry) → SpansStand world ranks spans.now
        → AreCaught world pool (handlers_of handlers.entry) caught.now
        → IfOk result (λ found. IfSome found
        (λ reaches. AreReaches world ranks pool (handlers_of handlers.entry) (length (handlers_of handlers.entry)) reaches.items)) }
{
    let mut reaches = Vec::with_capacity(alloc, handlers.len())?;
    for place in 0..handlers.len() {
        let Some(handler) = handlers.handler(place) else {
            unreachable!();
        };
        let Some(reach) = reach_at(spans, caught, place, handler) else {
            return Ok(None);
        };
        reaches.push(reach)?;
    }
    Ok(Some(reaches))
}

/// Whether a method has so many handlers that it gets a table.
pub(crate) fn are_many(handlers: ExceptionTable<'_>) -> bool {
    handlers.len() > FEW
}

/// Which handler of a method takes an object first, where there are spans, and more than a few handlers.
pub(crate) fn firsts_of_handlers(
    alloc: Global,
    spans: &[Option<Span>],
    caught: &[Caught],
    handlers: ExceptionTable<'_>,
) -> Result<Option<Box<Firsts>>, AllocError>
    ensures { (world : World) (ranks : List ℕ) (pool : List Entry) → SpansStand world ranks spans.now
        → AreCaught world pool (handlers_of handlers.entry) caught.now
        → IfOk result (λ found. IfSome found (λ firsts. AreFirstsOf world ranks pool (handlers_of handlers.entry) firsts.value)) }
{
    if !are_many(handlers) {
        return Ok(None);
    }
    let Some(reaches) = reaches_of(alloc, spans, caught, handlers)? else {
        return Ok(None);
    };
    if reaches.len() > MOST {
        return Ok(None);
    }
    let firsts = firsts_of(alloc, &reaches)?;
    Ok(Some(Box::new(alloc, firsts)?))
}
