//! Deep stacks that flowed into frames of the stack map: what flows into one again is compared only from where the stack has changed
//! since (JVMS 4.10.1.2).

ghost use Rattle.std.specs.Prelude.{◌≡◌, ◌<◌, ◌≤◌, ◌-◌, [], length, map, slice_get, take, Some, IfSome};
ghost use Rattle.jv_code.specs.Insns.{instruction_of};
ghost use Rattle.jv_meaning_world.specs.FrameFlow.{all_flow, item_flows};
ghost use Rattle.jv_meaning_typing.specs.Environment.{Environment};
ghost use Rattle.jv_meaning_typing.specs.Rule.{constructed_object};
ghost use Rattle.jv_verify_types.specs.Numbered.{frame_of};
ghost use Rattle.jv_verify_types.specs.Mapped.{stack_of, stack_flows_to, types_of_entries, world_of_types};
ghost use Rattle.jv_verify_pass.specs.Pass.{IsOfPass, names_in};
ghost use Rattle.jv_verify_pass.specs.Inside.Objects.{below_place, below_places, least_of, lower};
ghost use Rattle.jv_verify_pass.specs.Inside.Stacks.{AreFlowed, AreWithout, GoesBelow, IsRaised, Keeps, lowered, lowered_below};

use crate::objects::objects_of;
use crate::pass::Pass;
use jv_code::Insn;
use jv_stackmap::MapFrame;
use jv_verify_flow::{item_flows, stack_flows};
use jv_verify_frame::TypeFrame;
use jv_verify_rules::constructed_object;
use jv_verify_types::{EntryTypes, Item};
use std::alloc::Global;

/// How many items a stack has at least that is kept: fewer are as soon compared.
const DEEP: usize = 32;

/// How many stacks are kept at most.
const KEPT: usize = 256;

/// How many items an instruction puts on a stack at most.
const GIVEN: usize = 6;

/// A frame of the stack map by its place, how many items its stack has, how many of the lowest items before an instruction flow to
/// as many of its lowest, and whether each of its items is an object that is not initialized, from the lowest on.
pub(crate) struct FlowedStack {
    place: usize,
    height: usize,
    lowest: usize,
    objects: Vec<bool>,
}

impl Drop for FlowedStack {
    fn drop(self) {
        let FlowedStack {
            place: _,
            height: _,
            lowest: _,
            objects: _,
        } = self;
    }
}

/// The stacks that are kept.
pub(crate) struct FlowedStacks {
    alloc: Global,
    stacks: Vec<FlowedStack>,
}

impl Drop for FlowedStacks {
    fn drop(self) {
        let FlowedStacks {
            alloc: _,
            stacks: _,
        } = self;
    }
}

fn lower(one: usize, other: usize) -> usize
    ensures { result ≡ lower one other }
{
    if one <= other { one } else { other }
}

/// How many of the lowest items an instruction has left at least, behind which there are so many.
fn stayed(height: usize) -> usize
    ensures { result ≡ height - 6 }
{
    height.saturating_sub(GIVEN)
}

/// At most so many of the lowest items have stayed.
fn lower_all(stacks: &mut [FlowedStack], stayed: usize)
    ensures { stacks.new ≡ map (lowered stayed) stacks.old }
{
    for stack in stacks.iter_mut() {
        stack.lowest = lower(stack.lowest, stayed);
    }
}

/// So many of the lowest items, or as many as are below a place, if an object is there.
fn below_place(objects: &[bool], place: u16, lowest: usize) -> usize
    ensures { result ≡ below_place objects.now place lowest }
{
    if objects.get(usize::from(place)).copied().unwrap_or(false) {
        lower(lowest, usize::from(place))
    } else {
        lowest
    }
}

/// So many of the lowest items, or as many as are below each of these places at which there is an object.
fn below_places(objects: &[bool], places: &[u16], lowest: usize) -> usize
    ensures { result ≡ below_places objects.now places.now lowest }
{
    let mut left = lowest;
    for k in 0..places.len() {
        left = below_place(objects, places[k], left);
    }
    left
}

/// The least of these places, or the greatest number that a place can have.
fn least_of(places: &[u16]) -> usize
    ensures { result ≡ least_of 65535 places.now }
{
    let mut least = 65_535;
    for k in 0..places.len() {
        least = lower(least, usize::from(places[k]));
    }
    least
}

/// What [`below_places`] gives, where the least of these places is known: they are not gone over where they are all above.
fn below_least(objects: &[bool], places: &[u16], least: usize, lowest: usize) -> usize
    requires { least ≡ least_of 65535 places.now }
    ensures { result ≡ below_places objects.now places.now lowest }
{
    if lowest <= least {
        return lowest;
    }
    below_places(objects, places, lowest)
}

/// What is at these places gets another type: of what flows, what is below those at which the map's frame has an object stays.
fn lower_below(stacks: &mut [FlowedStack], places: &[u16])
    ensures { stacks.new ≡ map (lowered_below places.now) stacks.old }
{
    let least = least_of(places);
    for stack in stacks.iter_mut() {
        stack.lowest = below_least(&stack.objects, places, least, stack.lowest);
    }
}

/// A stack flows whole.
fn raise_at(stacks: &mut [FlowedStack], k: usize)
    requires { k < length stacks.old }
    ensures raised { IsRaised stacks.old k stacks.new }
    ensures many { length stacks.new ≡ length stacks.old }
{
    stacks[k].lowest = stacks[k].height;
}

/// The number of what is kept of the frame of the stack map at a place.
fn find(stacks: &[FlowedStack], place: usize) -> Option<usize>
    ensures within { IfSome result (λ k. k < length stacks.now) }
    ensures found { IfSome result (λ k. (s : FlowedStack) → slice_get stacks.now k ≡ Some s → s.place ≡ place) }
{
    for k in 0..stacks.len() {
        if stacks[k].place == place {
            return Some(k);
        }
    }
    None
}

/// Whether so many items on top of a stack flow to those of a frame of the stack map, one by one.
fn top_flows(
    types: &EntryTypes<'_, '_, '_>,
    frame: &TypeFrame,
    map: &MapFrame<'_>,
    count: usize,
) -> bool
    requires { count ≤ length frame.now.stack }
    ensures { result ≡ all_flow (item_flows (world_of_types types.now)) (take count (stack_of types.now frame.now))
        (take count (types_of_entries types.now map.now.stack)) }
{
    let mut entries = map.stack();
    for depth in 0..count {
        let Some(entry) = entries.next() else {
            return false;
        };
        let Some(item) = frame.item(depth) else {
            return false;
        };
        if !item_flows(types.names(), item, types.item(entry)) {
            return false;
        }
    }
    true
}

impl FlowedStacks {
    /// None is kept.
    pub(crate) fn new(alloc: Global) -> FlowedStacks
        ensures { result.stacks.items ≡ [] }
    {
        FlowedStacks {
            alloc,
            stacks: Vec::new(alloc),
        }
    }

    /// Keeps none any more.
    pub(crate) fn clear(&mut self)
        ensures { self.new.stacks.items ≡ [] }
    {
        self.stacks.clear();
    }

    /// An object that is not initialized gets another type, wherever it is on the stack of a frame.
    fn go_below(&mut self, frame: &TypeFrame, object: Item)
        ensures { GoesBelow object frame.now.stack self.old.stacks.items self.new.stacks.items }
    {
        if self.stacks.is_empty() {
            return;
        }
        match frame.copies_on_stack(self.alloc, object) {
            Ok(places) => lower_below(&mut self.stacks, &places),
            Err(_) => self.stacks.clear(),
        }
    }

    /// Where an instruction constructs an object, all copies of it get another type (JVMS 4.10.1.9.invokespecial). The object flows to
    /// itself and to top alone (4.10.1.2), so what flowed to a stack of the map does still, below where that stack has the object.
    pub(crate) fn go_into(
        &mut self,
        pass: &Pass<'_, '_, '_, '_, '_>,
        frame: &TypeFrame,
        insn: &Insn<&[u8]>,
    )
        requires { AreFlowed pass.now self.old.stacks.items frame.now }
        ensures stacks { AreFlowed pass.now self.new.stacks.items frame.now }
        ensures object { (env : Environment) → IsOfPass pass.now env → AreWithout pass.now
            (constructed_object env (instruction_of insn.now) (frame_of (names_in pass.now) frame.now)) self.new.stacks.items }
    {
        match constructed_object(pass.context, frame, insn) {
            Some(object) => self.go_below(frame, object),
            None => {}
        }
    }

    /// An instruction has left a stack of so many items, and put few of them there.
    pub(crate) fn go_behind(&mut self, height: usize)
        ensures { self.new.stacks.items ≡ map (lowered (height - 6)) self.old.stacks.items }
    {
        lower_all(&mut self.stacks, stayed(height));
    }

    /// Keeps that a stack of so many items flows to that of the frame of the map at a place, where there is room for it.
    fn keep(
        &mut self,
        types: &EntryTypes<'_, '_, '_>,
        place: usize,
        map: &MapFrame<'_>,
        height: usize,
    )
        ensures { Keeps types.now map.now place height self.old.stacks.items self.new.stacks.items }
    {
        if self.stacks.len() >= KEPT {
            return;
        }
        let Ok(objects) = objects_of(self.alloc, types, map) else {
            return;
        };
        let Ok(()) = self.stacks.push(FlowedStack {
            place,
            height,
            lowest: height,
            objects,
        })
        else {
            return;
        };
    }

    /// Compares a stack with that of the frame of the map at a place, and keeps that it flows.
    fn flows_first(
        &mut self,
        pass: &Pass<'_, '_, '_, '_, '_>,
        frame: &TypeFrame,
        place: usize,
        map: &MapFrame<'_>,
    ) -> bool
        requires at { slice_get pass.now.frames place ≡ Some map.now }
        requires stacks { AreFlowed pass.now self.old.stacks.items frame.now }
        ensures flows { result ≡ stack_flows_to pass.now.types (stack_of pass.now.types frame.now) map.now }
        ensures stacks { AreFlowed pass.now self.new.stacks.items frame.now }
    {
        if !stack_flows(pass.types, frame, map) {
            return false;
        }
        self.keep(pass.types, place, map, frame.height());
        true
    }

    /// Compares with it only what is above the items that are known to flow.
    fn flows_again(
        &mut self,
        pass: &Pass<'_, '_, '_, '_, '_>,
        frame: &TypeFrame,
        k: usize,
        place: usize,
        map: &MapFrame<'_>,
    ) -> bool
        requires at { slice_get pass.now.frames place ≡ Some map.now }
        requires within { k < length self.old.stacks.items }
        requires found { (s : FlowedStack) → slice_get self.old.stacks.items k ≡ Some s → s.place ≡ place }
        requires stacks { AreFlowed pass.now self.old.stacks.items frame.now }
        ensures flows { result ≡ stack_flows_to pass.now.types (stack_of pass.now.types frame.now) map.now }
        ensures stacks { AreFlowed pass.now self.new.stacks.items frame.now }
    {
        let known = &self.stacks[k];
        let height = frame.height();
        if known.height != height {
            return false;
        }
        if !top_flows(pass.types, frame, map, height - known.lowest) {
            return false;
        }
        raise_at(&mut self.stacks, k);
        true
    }

    /// Whether the stack of a frame flows to that of the frame of the map at a place.
    pub(crate) fn flows(
        &mut self,
        pass: &Pass<'_, '_, '_, '_, '_>,
        frame: &TypeFrame,
        place: usize,
        map: &MapFrame<'_>,
    ) -> bool
        requires at { slice_get pass.now.frames place ≡ Some map.now }
        requires stacks { AreFlowed pass.now self.old.stacks.items frame.now }
        ensures flows { result ≡ stack_flows_to pass.now.types (stack_of pass.now.types frame.now) map.now }
        ensures stacks { AreFlowed pass.now self.new.stacks.items frame.now }
    {
        if frame.height() < DEEP {
            return stack_flows(pass.types, frame, map);
        }
        match find(&self.stacks, place) {
            Some(k) => self.flows_again(pass, frame, k, place, map),
            None => self.flows_first(pass, frame, place, map),
        }
    }
}
