//! Frames while they are read.

ghost use Rattle.std.specs.Prelude.{◌≡◌, ◌<◌, ◌∷◌, Some, None, length, IfOk, if◌then◌else◌};
ghost use Rattle.jv_stackmap.specs.Inside.Reading.{IsGiven};
ghost use Rattle.jv_stackmap.specs.Inside.Steps.{with_pile, resumed, settled, empty, started, chopped_one, chopped_in, is_within_in, finished};

use crate::entry::{FrameEntry, entry_words};
use crate::fault::FrameFault;
use crate::frames::MapFrames;
use crate::limits::Limits;
use crate::nodes::{KeptFrame, Nodes, Pile};
use crate::width::Width;
use std::alloc::{AllocError, Global};
use std::marker::Model;

/// The frames so far, and what the next one is made of.
#[derive(Drop)]
pub(crate) struct FrameTable<'i> {
    widths: &'i [Width],
    nodes: Nodes,
    frames: Vec<KeptFrame>,
    /// From where the next delta counts.
    base: u32,
    /// The local entries of the last frame, and at first the initial ones.
    locals: Pile,
    /// The entries that are laid for the next frame.
    pile: Pile,
    /// Where the lowest of the last frame's local entries may be among the nodes.
    first: u32,
    /// Where the lowest of those that are laid may be.
    lowest: u32,
}

impl<'i> Model for FrameTable<'i> {
    ghost use Rattle.jv_stackmap.specs.Inside.Steps.{Built};

    ghost Value = { Built };

    ghost use Rattle.jv_stackmap.specs.Inside.Table.{built_of, IsTable};

    ghost view = { built_of };

    ghost invariant = { IsTable };
}

/// The number of the lowest node of what is laid: that of a new node where nothing was.
fn lowest(laid: u32, top: u32, lowest: u32) -> u32 {
    if laid == 0 { top } else { lowest }
}

impl<'i> FrameTable<'i> {
    /// No frame and no entry yet, with room for so many entries.
    fn empty(
        alloc: Global,
        widths: &'i [Width],
        capacity: usize,
    ) -> Result<FrameTable<'i>, AllocError>
        ensures { IfOk result (λ t. t ≡ empty widths.now) }
    {
        let nodes = Nodes::new(alloc, capacity)?;
        let none = Pile { top: 0, words: 0 };
        Ok(FrameTable {
            widths,
            nodes,
            frames: Vec::new(alloc),
            base: 0,
            locals: none,
            pile: none,
            first: 0,
            lowest: 0,
        })
    }

    /// No frame yet, behind initial local entries of these widths, with room for so many entries.
    ///
    /// # Errors
    ///
    /// Where the host had no memory, or where a place would not fit.
    pub(crate) fn new(
        alloc: Global,
        widths: &'i [Width],
        capacity: usize,
    ) -> Result<FrameTable<'i>, AllocError>
        ensures { IfOk result (λ t. t ≡ started widths.now) }
    {
        let mut table = FrameTable::empty(alloc, widths, capacity)?;
        for place in 0..widths.len() {
            let Ok(number) = u16::try_from(place) else {
                return Err(AllocError);
            };
            table.push(FrameEntry::Initial(number))?;
        }
        table.settle();
        Ok(table)
    }

    /// The number of the node that may have the next entry: the one behind what is laid, and first that of the lowest of
    /// the last frame's local entries.
    fn next(&self) -> u32 {
        if self.pile.top == 0 {
            self.first
        } else {
            self.pile.top.saturating_add(1)
        }
    }

    /// Lays an entry on those that are laid, as a new node.
    fn push_new(&mut self, entry: FrameEntry) -> Result<(), AllocError>
        ensures { IfOk result (λ _. self.new ≡ with_pile (entry ∷ self.old.pile) self.old) }
    {
        let top = self.nodes.push(entry, self.pile.top)?;
        let words = self.pile.words + entry_words(entry, self.widths);
        self.lowest = lowest(self.pile.top, top, self.lowest);
        self.pile = Pile { top, words };
        Ok(())
    }

    /// Lays an entry on those that are laid; where the last full frame had it there, too, it is kept once.
    pub(crate) fn push(&mut self, entry: FrameEntry) -> Result<(), AllocError>
        ensures { IfOk result (λ _. self.new ≡ with_pile (entry ∷ self.old.pile) self.old) }
    {
        self.nodes.are_numbered();
        let next = self.next();
        let Some(top) = self.nodes.standing(next, entry, self.pile.top) else {
            return self.push_new(entry);
        };
        let words = self.pile.words + entry_words(entry, self.widths);
        self.lowest = lowest(self.pile.top, top, self.lowest);
        self.pile = Pile { top, words };
        Ok(())
    }

    /// Lays the local entries of the last frame in place of what is laid.
    pub(crate) fn resume(&mut self)
        ensures { self.new ≡ resumed self.old }
    {
        self.pile = self.locals;
        self.lowest = self.first;
    }

    /// Makes what is laid the local entries of the next frame, and lays nothing.
    pub(crate) fn settle(&mut self)
        ensures { self.new ≡ settled self.old }
    {
        self.locals = self.pile;
        self.pile = Pile { top: 0, words: 0 };
        self.first = self.lowest;
    }

    /// Takes the last local entry away; whether there was one.
    fn chop_one(&mut self) -> bool
        ensures { chopped_one self.old.locals self.old ≡ (if result then Some self.new else None) }
    {
        match self.nodes.at(self.locals.top) {
            Some((entry, below)) => {
                let words = self.locals.words - entry_words(entry, self.widths);
                self.locals = Pile { top: below, words };
                true
            }
            None => false,
        }
    }

    /// Takes so many local entries away; whether there were as many.
    pub(crate) fn chop(&mut self, count: u8) -> bool
        ensures { chopped_in count self.old ≡ (if result then Some self.new else None) }
    {
        for _ in 0..count {
            if !self.chop_one() {
                return false;
            }
        }
        true
    }

    /// Whether the local entries and what is laid are within the limits.
    fn is_within(&self, limits: Limits) -> bool
        ensures { result ≡ is_within_in limits self.now }
    {
        self.locals.words <= usize::from(limits.max_locals)
            && self.pile.words <= usize::from(limits.max_stack)
    }

    /// Adds the frame of the local entries and, as its stack, of what is laid, where it is within
    /// the limits; then lays nothing.
    pub(crate) fn finish(&mut self, limits: Limits, delta: u16) -> Result<(), FrameFault>
        requires { length self.old.frames < 65535 }
        ensures { IsGiven (finished limits delta self.old) (λ _. self.new) result }
    {
        if !self.is_within(limits) {
            return Err(FrameFault::BadFrames);
        }
        let offset = self.base + u32::from(delta);
        self.frames.push(KeptFrame {
            offset,
            locals: self.locals.top,
            stack: self.pile.top,
            local_words: self.locals.words as u16,
        })?;
        self.base = offset + 1;
        self.pile = Pile { top: 0, words: 0 };
        Ok(())
    }

    /// The frames.
    pub(crate) fn frames(self) -> MapFrames
        ensures { result ≡ self.entry.frames }
    {
        let FrameTable {
            widths: _,
            nodes,
            frames,
            base: _,
            locals: _,
            pile: _,
            first: _,
            lowest: _,
        } = self;
        MapFrames::of(nodes, frames)
    }
}
