//! A frame's entries.

ghost use Rattle.std.specs.Prelude.{◌≡◌, [], ◌∷◌, MatchOption};
ghost use Rattle.jv_stackmap.specs.Inside.Nodes.{chain, frame_in};

use crate::entry::FrameEntry;
use crate::nodes::{KeptFrame, Nodes};
use std::marker::Model;

/// The entries of a frame that are left, the last first, which of a stack is the top.
#[derive(Drop)]
pub struct Entries<'m> {
    nodes: &'m Nodes,
    top: u32,
}

impl<'m> Model for Entries<'m> {
    ghost use Rattle.std.specs.Prelude.{List};
    ghost use Rattle.jv_stackmap.specs.declared.entry.FrameEntry.{FrameEntry};

    ghost Value = { List FrameEntry };

    ghost use Rattle.jv_stackmap.specs.Inside.Nodes.{chain};

    ghost view = { λ e. chain e.nodes.now e.top };
}

impl<'m> Entries<'m> {
    /// The entries from a node on down.
    fn from(nodes: &'m Nodes, top: u32) -> Entries<'m>
        ensures { result ≡ chain nodes.now top }
    {
        Entries { nodes, top }
    }

    /// Goes below the first entry that is left, and gives it; `None` where none is.
    #[inline]
    pub fn next(&mut self) -> Option<FrameEntry>
        ensures { MatchOption result (self.old ≡ []) (λ entry. self.old ≡ entry ∷ self.new) }
    {
        let Some((entry, below)) = self.nodes.at(self.top) else {
            return None;
        };
        self.top = below;
        Some(entry)
    }
}

/// A frame of a stack map: its local entries and its stack, where a long is one entry.
#[derive(Drop)]
pub struct MapFrame<'m> {
    nodes: &'m Nodes,
    frame: KeptFrame,
}

impl<'m> Model for MapFrame<'m> {
    ghost use Rattle.jv_stackmap.specs.Entries.{ReadFrame};

    ghost Value = { ReadFrame };

    ghost use Rattle.jv_stackmap.specs.Inside.Nodes.{frame_in};

    ghost view = { λ f. frame_in f.nodes.now f.frame };
}

impl<'m> MapFrame<'m> {
    pub(crate) fn of(nodes: &'m Nodes, frame: KeptFrame) -> MapFrame<'m>
        ensures { result ≡ frame_in nodes.now frame }
    {
        MapFrame { nodes, frame }
    }

    /// The frame's offset in the code, in bytes.
    pub fn offset(&self) -> u32
        ensures { result ≡ self.now.offset }
    {
        self.frame.offset
    }

    /// The words of the local entries: the local variables that they take, from the first on.
    pub fn local_words(&self) -> u16
        ensures { result ≡ self.now.local_words }
    {
        self.frame.local_words
    }

    /// The local entries, from the last on.
    pub fn locals(&self) -> Entries<'m>
        ensures { result ≡ self.now.locals }
    {
        Entries::from(self.nodes, self.frame.locals)
    }

    /// The stack's items, from the top on.
    pub fn stack(&self) -> Entries<'m>
        ensures { result ≡ self.now.stack }
    {
        Entries::from(self.nodes, self.frame.stack)
    }
}
