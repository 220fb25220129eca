//! Entries as nodes, each laid on another, so that what frames share is kept once.

ghost use Rattle.std.specs.Prelude.{◌≡◌, ◌<◌, ◌≤◌, ℕ, ◌/◌, ◌%◌, ◌++◌, [], ◌∷◌, drop, length, List, IfOk, IfErr, IfSome, MatchOption};
ghost use Rattle.jv_stackmap.specs.declared.nodes.FarNode.{FarNode};
ghost use Rattle.jv_stackmap.specs.Inside.Nodes.{chain, kind_of, operand_of, entry_with, below_in, below_by, node_with, AreFar};

use crate::entry::{FrameEntry, is_same};
use std::alloc::{AllocError, Global};
use std::marker::Model;

/// An entry and the number of the node below it.
#[derive(Clone, Copy)]
struct Node {
    entry: FrameEntry,
    below: u32,
}

/// A node as it is kept. Its head is 4096 times the number of its entry's kind, and how much lower the number of the node below it
/// is: 4095 where nothing is below, and 0 where it is among the far nodes. The operand is what the entry holds.
#[derive(Clone, Copy)]
struct PackedNode {
    head: u16,
    operand: u16,
}

const _: () = prove!(size_of::<PackedNode>() <= 4);

/// A node by its number, and the number of the node below it, which is too far down to be said by a distance.
#[derive(Clone, Copy)]
struct FarNode {
    number: u32,
    below: u32,
}

/// The top node of entries, and their words.
#[derive(Clone, Copy)]
pub(crate) struct Pile {
    pub(crate) top: u32,
    pub(crate) words: usize,
}

/// A frame as it is kept: its offset, the top nodes of its local entries and of its stack, and the
/// words of the local entries.
#[derive(Clone, Copy)]
pub(crate) struct KeptFrame {
    pub(crate) offset: u32,
    pub(crate) locals: u32,
    pub(crate) stack: u32,
    pub(crate) local_words: u16,
}

/// The number of an entry's kind. What it holds is asked for apart, so that neither match is a jump.
fn kind_of(entry: FrameEntry) -> u16
    ensures { result ≡ kind_of entry }
{
    match entry {
        FrameEntry::Top => 0,
        FrameEntry::Int => 1,
        FrameEntry::Long => 2,
        FrameEntry::Null => 3,
        FrameEntry::UninitializedThis => 4,
        FrameEntry::Object(_) => 5,
        FrameEntry::Uninitialized(_) => 6,
        FrameEntry::Initial(_) => 7,
    }
}

/// What an entry holds; 0 where that is nothing.
fn operand_of(entry: FrameEntry) -> u16
    ensures { result ≡ operand_of entry }
{
    match entry {
        FrameEntry::Object(class) => class,
        FrameEntry::Uninitialized(offset) => offset,
        FrameEntry::Initial(place) => place,
        _ => 0,
    }
}

/// The entry by the number of its kind, and by what it holds. The kinds that hold nothing stand apart, so that neither match is a jump.
#[inline(always)]
fn entry_with(kind: u16, operand: u16) -> FrameEntry
    ensures { result ≡ entry_with kind operand }
{
    if kind < 5 {
        match kind {
            0 => FrameEntry::Top,
            1 => FrameEntry::Int,
            2 => FrameEntry::Long,
            3 => FrameEntry::Null,
            _ => FrameEntry::UninitializedThis,
        }
    } else {
        match kind {
            5 => FrameEntry::Object(operand),
            6 => FrameEntry::Uninitialized(operand),
            _ => FrameEntry::Initial(operand),
        }
    }
}

/// How much lower the number of the node below is, as a head says it; `None` where the far nodes have to say it.
fn distance(number: u32, below: u32) -> Option<u16>
    requires { below < number }
    ensures less { IfSome result (λ distance. distance < 4096) }
    ensures below { IfSome result (λ distance. (far : List FarNode) → below_by far number distance ≡ below) }
{
    if below == 0 {
        return Some(4095);
    }
    let distance = number - below;
    if distance < 4095 {
        Some(distance as u16)
    } else {
        None
    }
}

/// The node of an entry, at a distance from the one below it.
fn packed(entry: FrameEntry, distance: u16) -> PackedNode
    requires { distance < 4096 }
    ensures entry { entry_with (result.head / 4096) result.operand ≡ entry }
    ensures distance { result.head % 4096 ≡ distance }
{
    PackedNode {
        head: kind_of(entry) * 4096 + distance,
        operand: operand_of(entry),
    }
}

/// The node below one of the far nodes, found by halving.
#[cold]
#[inline(never)]
fn below_in(far: &[FarNode], number: u32) -> u32
    requires { (count : ℕ) × AreFar far.now count }
    ensures { result ≡ below_in far.now number }
{
    match far.binary_search_by_key(&number, |node| node.number) {
        Ok(place) => far[place].below,
        Err(_) => 0,
    }
}

/// The node below the one with a number, by how much lower its own is. A distance of 1, which most have, stands apart: so a processor
/// goes on to the node below before it has read this one.
#[inline(always)]
fn below_by(far: &[FarNode], number: u32, distance: u16) -> u32
    requires { (count : ℕ) × AreFar far.now count }
    ensures { result ≡ below_by far.now number distance }
{
    match distance {
        1 => number.saturating_sub(1),
        0 => below_in(far, number),
        4095 => 0,
        _ => number.saturating_sub(u32::from(distance)),
    }
}

/// The node with a number.
#[inline(always)]
fn node_with(far: &[FarNode], number: u32, node: PackedNode) -> Node
    requires { (count : ℕ) × AreFar far.now count }
    ensures { result ≡ node_with far.now number node }
{
    Node {
        entry: entry_with(node.head / 4096, node.operand),
        below: below_by(far, number, node.head % 4096),
    }
}

/// Nodes, numbered from 1 on, in four bytes each; node 0 stands below all and has no entry. In contracts this is the
/// list of entries from each node down.
#[derive(Drop)]
pub(crate) struct Nodes {
    nodes: Vec<PackedNode>,
    /// Those whose heads don't say what is below them, in the order of their numbers.
    far: Vec<FarNode>,
}

impl Model for Nodes {
    ghost use Rattle.std.specs.Prelude.{List};
    ghost use Rattle.jv_stackmap.specs.declared.entry.FrameEntry.{FrameEntry};

    ghost Value = { List (List FrameEntry) };

    ghost use Rattle.jv_stackmap.specs.Inside.Nodes.{chains_of, nodes_in, ArePacked};

    ghost view = { λ n. chains_of (nodes_in n.far.items n.nodes.items) };

    ghost invariant = { λ n. ArePacked n.far.items n.nodes.items };
}

impl Nodes {
    /// No nodes.
    pub(crate) fn none(alloc: Global) -> Nodes
        ensures { result ≡ [] ∷ [] }
    {
        Nodes {
            nodes: Vec::new(alloc),
            far: Vec::new(alloc),
        }
    }

    /// No nodes yet, with room for so many.
    pub(crate) fn new(alloc: Global, capacity: usize) -> Result<Nodes, AllocError>
        ensures { IfOk result (λ n. n ≡ [] ∷ []) }
    {
        let nodes = Vec::with_capacity(alloc, capacity)?;
        Ok(Nodes {
            nodes,
            far: Vec::new(alloc),
        })
    }

    /// The number that the next node gets; want of memory where it would not fit.
    fn next_number(&self) -> Result<u32, AllocError>
        ensures { IfOk result (λ number. number ≡ length self.now) }
    {
        let count = self.nodes.len();
        if count >= 4294967295 {
            return Err(AllocError);
        }
        Ok(count as u32 + 1)
    }

    /// Lays an entry on a node that is too far down for a distance, and gives the new one's number.
    fn push_far(&mut self, number: u32, entry: FrameEntry, below: u32) -> Result<u32, AllocError>
        requires number { number ≡ length self.old }
        requires below { below < number }
        ensures top { IfOk result (λ top. top ≡ number) }
        ensures pushed { IfOk result (λ _. self.new ≡ self.old ++ (entry ∷ chain self.old below) ∷ []) }
        ensures same { IfErr result (λ _. self.new ≡ self.old) }
    {
        self.far.reserve(1)?;
        self.nodes.push(packed(entry, 0))?;
        self.far.push_reserved(FarNode { number, below });
        Ok(number)
    }

    /// Lays an entry on a node, and gives its number.
    ///
    /// # Errors
    ///
    /// Where the host had no memory, or where the number would not fit.
    pub(crate) fn push(&mut self, entry: FrameEntry, below: u32) -> Result<u32, AllocError>
        requires { below < length self.old }
        ensures top { IfOk result (λ top. top ≡ length self.old) }
        ensures pushed { IfOk result (λ _. self.new ≡ self.old ++ (entry ∷ chain self.old below) ∷ []) }
        ensures same { IfErr result (λ _. self.new ≡ self.old) }
    {
        let number = self.next_number()?;
        let Some(distance) = distance(number, below) else {
            return self.push_far(number, entry, below);
        };
        self.nodes.push(packed(entry, distance))?;
        Ok(number)
    }

    /// The entry of a node, and the node below it; `None` for node 0.
    #[inline(always)]
    pub(crate) fn at(&self, top: u32) -> Option<(FrameEntry, u32)>
        ensures entry { MatchOption result (chain self.now top ≡ []) (λ x. chain self.now top ≡ x.0 ∷ chain self.now x.1) }
        ensures below { IfSome result (λ x. x.1 < length self.now) }
    {
        let nodes = &self.nodes;
        if top == 0 {
            return None;
        }
        match nodes.get(top as usize - 1) {
            Some(packed) => {
                let node = node_with(&self.far, top, *packed);
                Some((node.entry, node.below))
            }
            None => None,
        }
    }

    /// A number, where its node is this entry on that node.
    pub(crate) fn standing(&self, number: u32, entry: FrameEntry, below: u32) -> Option<u32>
        ensures chain { IfSome result (λ top. chain self.now top ≡ entry ∷ chain self.now below) }
        ensures there { IfSome result (λ top. top < length self.now) }
    {
        match self.at(number) {
            Some((found, under)) if under == below && is_same(found, entry) => Some(number),
            _ => None,
        }
    }

    /// The node below a node.
    #[inline]
    fn below(&self, top: u32) -> u32
        ensures { chain self.now result ≡ drop 1 (chain self.now top) }
    {
        match self.at(top) {
            Some((_entry, below)) => below,
            None => top,
        }
    }

    /// How many entries each of two nodes has above one on which both stand, where these are at most so many in all. As each node
    /// stands on one of a lower number, the higher of two is left first, and the first node on which both stand is met.
    pub(crate) fn above_shared(&self, one: u32, other: u32, most: usize) -> Option<(usize, usize)>
        ensures { IfSome result (λ above. drop above.0 (chain self.now one) ≡ drop above.1 (chain self.now other)) }
    {
        let mut first = one;
        let mut second = other;
        let mut above_first = 0;
        let mut above_second = 0;
        while first != second {
            if above_first >= most - above_second {
                return None;
            }
            if first > second {
                first = self.below(first);
                above_first += 1;
            } else {
                second = self.below(second);
                above_second += 1;
            }
        }
        Some((above_first, above_second))
    }

    /// From a node on down there are no more entries than its number. The call does nothing.
    pub(crate) fn are_numbered(&self)
        ensures { (top : ℕ) → length (chain self.now top) ≤ top }
    {
        let _nodes = &self.nodes;
    }
}
