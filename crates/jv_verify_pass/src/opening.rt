//! Handlers by where they begin to cover (JVMS 4.7.3, 4.10.1.6): each is asked where it does, and behind that the frames at which they
//! begin are asked together, where local variables were written.

ghost use Rattle.std.specs.Prelude.{◌≡◌, ◌≤◌, ◌<◌, ◌+◌, ◌↔◌, ℕ, Some, false, true, length, max, set, slice_get, if◌then◌else◌, IfNone, IfOk, IfSome, IsTrue, OnOk};
ghost use Rattle.std.specs.List.Sorted.{IsPermutation};
ghost use Rattle.jv_format.specs.declared.handlers.Handler.{Handler};
ghost use Rattle.jv_format.specs.Handlers.{handlers_of};
ghost use Rattle.jv_code.specs.Insns.{Instruction};
ghost use Rattle.jv_meaning_typing.specs.Environment.{Environment};
ghost use Rattle.jv_meaning_typing.specs.Typing.{covers, handlers_hold};
ghost use Rattle.jv_verify_types.specs.Numbered.{frame_of};
ghost use Rattle.jv_verify_types.specs.Mapped.{EntryTypes};
ghost use Rattle.jv_verify_maps.specs.Words.{map_by_words, MapWords};
ghost use Rattle.jv_verify_known.specs.Known.{IsKnown};
ghost use Rattle.jv_verify_open.specs.Open.{end_of, AllFlow, AreWanting, HaveFlowed, HaveRoom};
ghost use Rattle.jv_verify_pass.specs.Pass.{IsOfPass, maps_of, names_in};
ghost use Rattle.jv_verify_pass.specs.Inside.Settled.{IsLeft};
ghost use Rattle.jv_verify_pass.specs.Inside.Opening.{has_this_at, AllBegun, AreHandled, AreInOrder, AreOpenings, Begins, CantHold, HoldsNot, IsByWords, IsListed, LeadsTo, OpensSame, RestFlows};

use crate::pass::Pass;
use jv_format::{ExceptionTable, Handler};
use jv_verify_flow::thrown_stack_flows;
use jv_verify_frame::TypeFrame;
use jv_verify_known::Known;
use jv_verify_open::{At, OpenFrames};
use jv_verify_types::Item;
use std::alloc::{AllocError, Global};
use std::marker::Model;

/// Handlers by where they begin to cover, how many of them have, the frames of the map at which these begin, and the greatest end: of
/// all, and of those that begin at frames in which `this` is initialized.
pub(crate) struct Openings {
    alloc: Global,
    sorted: Vec<Handler>,
    next: usize,
    frames: OpenFrames,
    last_end: u32,
    end_without_this: u32,
}

impl Model for Openings {
    ghost use Rattle.jv_verify_pass.specs.Inside.Opening.{Openings};

    ghost Value = { Openings };

    ghost view = { λ o. record {
      sorted = o.sorted.items;
      next = o.next;
      frames = o.frames;
      last_end = o.last_end;
      end_without_this = o.end_without_this;
    } };
}

impl Drop for Openings {
    fn drop(self) {
        let Openings {
            alloc: _,
            sorted: _,
            next: _,
            frames: _,
            last_end: _,
            end_without_this: _,
        } = self;
    }
}

/// The handlers of a table, in its order.
fn listed(alloc: Global, handlers: ExceptionTable<'_>) -> Result<Vec<Handler>, AllocError>
    ensures { IfOk result (λ list. list.items ≡ handlers_of handlers.entry) }
{
    let mut list = Vec::with_capacity(alloc, handlers.len())?;
    for place in 0..handlers.len() {
        let Some(handler) = handlers.handler(place) else {
            unreachable!();
        };
        list.push(handler)?;
    }
    Ok(list)
}

/// Puts them in order by where they begin to cover.
fn put_in_order(list: &mut Vec<Handler>) -> Result<(), AllocError>
    ensures order { OnOk result (AreInOrder list.new.items) }
    ensures same { IsPermutation list.old.items list.new.items }
{
    list.sort_by_key(|handler| handler.start_pc)?;
    Ok(())
}

/// The most handlers, which a class file has not (JVMS 4.7.3): so many are numbered.
const MOST: usize = 4_294_967_294;

/// The handlers of a table by where they begin to cover; want of memory where they are too many.
fn sorted_handlers(alloc: Global, handlers: ExceptionTable<'_>) -> Result<Vec<Handler>, AllocError>
    ensures order { IfOk result (λ sorted. AreInOrder sorted.items) }
    ensures same { IfOk result (λ sorted. IsPermutation (handlers_of handlers.entry) sorted.items) }
    ensures few { IfOk result (λ sorted. length sorted.items < 4294967295) }
{
    let mut sorted = listed(alloc, handlers)?;
    put_in_order(&mut sorted)?;
    if sorted.len() > MOST {
        return Err(AllocError);
    }
    Ok(sorted)
}

/// The place of the frame of the map at which a handler begins, where what it catches flows to the stack there.
fn place_of(pass: &Pass<'_, '_, '_, '_, '_>, handler: Handler) -> Option<usize>
    ensures some { IfSome result (LeadsTo pass.now handler) }
    ensures none { IfNone result (CantHold pass.now handler) }
{
    // Reads a field, so that the invariant is known.
    let _types = &pass.types;
    let Some(thrown) = pass.catch_type(handler.catch_type) else {
        return None;
    };
    let Some((place, map)) = pass.map_at(u32::from(handler.handler_pc)) else {
        return None;
    };
    if !thrown_stack_flows(pass.types, thrown, &map) {
        return None;
    }
    Some(place)
}

impl Openings {
    /// The handlers of a method, of which none has begun to cover.
    ///
    /// # Errors
    ///
    /// Where the host had no memory for them, or they are 4,294,967,295, which a class file doesn't have.
    pub(crate) fn new(
        alloc: Global,
        pass: &Pass<'_, '_, '_, '_, '_>,
    ) -> Result<Openings, AllocError>
        ensures openings { IfOk result (AreOpenings pass.now (map_by_words pass.now.types pass.now.frames) 0) }
        ensures none { IfOk result (λ openings. (place : ℕ) → end_of openings.frames place ≡ 0) }
        ensures handled { IfOk result (λ openings. openings.frames.handled ≡ 0) }
    {
        let sorted = sorted_handlers(alloc, pass.handlers)?;
        let frames = if sorted.is_empty() {
            0
        } else {
            pass.frames.count()
        };
        Ok(Openings {
            alloc,
            sorted,
            next: 0,
            frames: OpenFrames::new(alloc, frames)?,
            last_end: 0,
            end_without_this: 0,
        })
    }

    /// Whether the method has no handler.
    fn is_none(&self) -> bool
        ensures { IsTrue result ↔ (length self.now.sorted ≡ 0) }
    {
        self.sorted.is_empty()
    }

    /// A handler comes to cover that begins at the frame at a place, and that covers as long as no other one does that begins there.
    fn open(&mut self, known: &Known, place: usize, end: u32)
        requires place { place < length self.old.frames.ends }
        requires words { place < length known.now.words.frames }
        requires opens { self.old.frames.opens < 4294967295 }
        requires end { end_of self.old.frames place < end }
        ensures ends { self.new.frames.ends ≡ set self.old.frames.ends place end }
        ensures opens { self.new.frames.opens ≡ self.old.frames.opens + 1 }
        ensures wanting { (types : EntryTypes) (words : MapWords) (offset : ℕ)
            → AreWanting types words self.old.frames offset → AreWanting types words self.new.frames offset }
        ensures last { self.new.last_end ≡ max self.old.last_end end }
        ensures without_this { self.new.end_without_this
            ≡ (if has_this_at known.now.words place then self.old.end_without_this else max self.old.end_without_this end) }
        ensures sorted { self.new.sorted ≡ self.old.sorted }
        ensures next { self.new.next ≡ self.old.next }
    {
        self.frames.open(place, end);
        self.last_end = self.last_end.max(end);
        if !known.words().has_this(place) {
            self.end_without_this = self.end_without_this.max(end);
        }
    }

    /// Whether a handler, which begins to cover at an instruction or before it, has ended there, or the local variables flow to those of
    /// the frame at which it begins.
    fn begins(
        &mut self,
        pass: &Pass<'_, '_, '_, '_, '_>,
        known: &mut Known,
        frame: &TypeFrame,
        handler: Handler,
        offset: u32,
    ) -> bool
        requires locals { length frame.now.locals ≡ pass.now.max_locals }
        requires words { IsByWords pass.now known.old.words }
        requires known { IsKnown pass.now.types known.old frame.now.locals }
        requires many { length self.old.frames.ends ≡ length known.old.words.frames }
        requires opens { self.old.frames.opens < 4294967295 }
        requires wanting { AreWanting pass.now.types known.old.words self.old.frames offset }
        ensures begun { IsTrue result → Begins pass.now known.new.words offset frame.now.locals handler self.old self.new }
        ensures not { result ≡ false → (offset < handler.end_pc) × HoldsNot pass.now frame.now handler }
        ensures words { known.new.words ≡ known.old.words }
        ensures known { IsKnown pass.now.types known.new frame.now.locals }
        ensures sorted { self.new.sorted ≡ self.old.sorted }
    {
        let end = u32::from(handler.end_pc);
        if end <= offset {
            return true;
        }
        let Some(place) = place_of(pass, handler) else {
            return false;
        };
        if end <= self.frames.end(place) {
            return true;
        }
        if !known.locals_flow(pass.types, frame, place) {
            return false;
        }
        self.open(known, place, end);
        true
    }

    /// Whether the local variables flow to those of each frame at which a handler begins that begins to cover at an instruction, or did
    /// before it.
    fn begin_all(
        &mut self,
        pass: &Pass<'_, '_, '_, '_, '_>,
        known: &mut Known,
        frame: &TypeFrame,
        offset: u32,
    ) -> bool
        requires locals { length frame.now.locals ≡ pass.now.max_locals }
        requires words { IsByWords pass.now known.old.words }
        requires known { IsKnown pass.now.types known.old frame.now.locals }
        requires openings { AreOpenings pass.now known.old.words offset self.old }
        requires flow { AllFlow pass.now.types known.old.words self.old.frames offset frame.now.locals }
        ensures openings { IsTrue result → AreOpenings pass.now known.new.words offset self.new }
        ensures flow { IsTrue result → AllFlow pass.now.types known.new.words self.new.frames offset frame.now.locals }
        ensures all { IsTrue result → AllBegun self.new offset }
        ensures not { result ≡ false
            → (h : Handler) × IsListed self.old.sorted h × (covers h offset ≡ true) × HoldsNot pass.now frame.now h }
        ensures words { known.new.words ≡ known.old.words }
        ensures known { IsKnown pass.now.types known.new frame.now.locals }
        ensures sorted { self.new.sorted ≡ self.old.sorted }
    {
        while self.next < self.sorted.len() {
            let handler = self.sorted[self.next];
            if u32::from(handler.start_pc) > offset {
                return true;
            }
            if !self.begins(pass, known, frame, handler, offset) {
                return false;
            }
            self.next += 1;
        }
        true
    }

    /// Whether the local variables flow to those of each frame that is open.
    fn locals_flow(
        &mut self,
        at: At<'_, '_, '_, '_>,
        known: &Known,
        frame: &TypeFrame,
    ) -> Result<bool, AllocError>
        requires many { length self.old.frames.ends ≡ length at.words.now.frames }
        requires wanting { AreWanting at.types.now at.words.now self.old.frames at.offset }
        requires words { known.now.words ≡ at.words.now }
        requires flowed { HaveFlowed at.types.now known.now self.old.frames at.offset frame.now.locals }
        requires room { HaveRoom at.words.now (length frame.now.locals) }
        requires few { length frame.now.locals ≤ 65535 }
        requires last { (place : ℕ) → end_of self.old.frames place ≤ self.old.last_end }
        ensures flow { IfOk result (λ flow. IsTrue flow
            ↔ AllFlow at.entry.types.now at.entry.words.now self.old.frames at.entry.offset frame.now.locals) }
        ensures wanting { OnOk result (AreWanting at.entry.types.now at.entry.words.now self.new.frames at.entry.offset) }
        ensures same { OpensSame self.old self.new }
    {
        if self.last_end <= at.offset {
            return Ok(true);
        }
        self.frames.locals_flow(at, known, frame)
    }

    /// Whether a frame's flag, and an object that it constructs, if a local variable holds one, flow to each frame that is open.
    fn rest_flows(
        &mut self,
        at: At<'_, '_, '_, '_>,
        frame: &TypeFrame,
        object: Option<Item>,
    ) -> Result<bool, AllocError>
        requires many { length self.old.frames.ends ≡ length at.words.now.frames }
        requires wanting { AreWanting at.types.now at.words.now self.old.frames at.offset }
        requires few { length frame.now.locals ≤ 65535 }
        ensures flow { IfOk result (λ flow. IsTrue flow
            ↔ RestFlows at.entry.types.now at.entry.words.now self.old at.entry.offset frame.now object) }
        ensures wanting { OnOk result (AreWanting at.entry.types.now at.entry.words.now self.new.frames at.entry.offset) }
        ensures same { OpensSame self.old self.new }
    {
        if frame.flag_this_uninit() && self.end_without_this > at.offset {
            return Ok(false);
        }
        match object {
            Some(object) => self.frames.object_flows(self.alloc, at, frame, object),
            None => Ok(true),
        }
    }

    /// Whether the handlers that cover an instruction hold, which constructs this object, or none that a local variable holds.
    ///
    /// # Errors
    ///
    /// Where the host had no memory for what they want of local variables; the handlers are then of no more use.
    pub(crate) fn hold(
        &mut self,
        pass: &Pass<'_, '_, '_, '_, '_>,
        known: &mut Known,
        frame: &TypeFrame,
        object: Option<Item>,
        offset: u32,
    ) -> Result<bool, AllocError>
        requires locals { length frame.now.locals ≡ pass.now.max_locals }
        requires words { IsByWords pass.now known.old.words }
        requires known { IsKnown pass.now.types known.old frame.now.locals }
        requires handled { AreHandled pass.now known.old self.old offset frame.now.locals }
        requires few { length frame.now.locals ≤ 65535 }
        ensures hold { IfOk result (λ hold. (env : Environment) (insn : Instruction) → IsOfPass pass.now env
            → IsLeft env insn (names_in pass.now) frame.now object
            → hold ≡ handlers_hold env (maps_of pass.now) offset insn (frame_of (names_in pass.now) frame.now)) }
        ensures handled { IfOk result (λ hold. IsTrue hold → AreHandled pass.now known.new self.new offset frame.now.locals) }
        ensures words { known.new.words ≡ known.old.words }
        ensures known { IsKnown pass.now.types known.new frame.now.locals }
    {
        // Reads a field, so that the invariant is known.
        let _types = &pass.types;
        if self.is_none() {
            return Ok(true);
        }
        let flow = {
            let at = At {
                types: pass.types,
                words: known.words(),
                offset,
            };
            self.locals_flow(at, known, frame)?
        };
        if !flow || !self.begin_all(pass, known, frame, offset) {
            return Ok(false);
        }
        self.frames.settle(known.ask());
        let at = At {
            types: pass.types,
            words: known.words(),
            offset,
        };
        self.rest_flows(at, frame, object)
    }
}
