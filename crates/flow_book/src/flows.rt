//! The live flows of a book, each in memory of its own.

ghost use Rattle.std.specs.Prelude.{◌≡◌, ◌<◌, ◌≤◌, ◌==◌, ◌^◌, [], map, length, insert, remove, position};
ghost use Rattle.std.specs.Prelude.{nat_lt, OnOk, OnErr, slice_get, slice_index_or, option_copied, MatchOption, IfSome};
ghost use Rattle.std.specs.Borrow.{sem};
ghost use Rattle.std.specs.List.{position_or_len};
ghost use Rattle.sched_calls.specs.Sids.{AscendBy};
ghost use Rattle.flow_book.specs.Slots.{AreApart, moved, sid_in};
ghost use Rattle.flow_book.specs.Entry.{live};
ghost use Rattle.flow_book.specs.Book.{Ascend};
ghost use Rattle.flow_book.specs.Lending.{LendsFlow};

use crate::flow::Flow;
use std::alloc::{AllocError, Global};
use std::marker::Model;

// The live flows, in order of SID. An admission or a removal moves the slots of those behind, of 2 bytes each.
#[derive(Drop)]
pub(crate) struct Flows {
    // The flows, in any order. The place of one among them is its slot.
    slots: Vec<Box<Flow>>,
    // The slots, in order of SID.
    order: Vec<u16>,
}

impl Model for Flows {
    ghost use Rattle.std.specs.Prelude.{List, map, length};
    ghost use Rattle.flow_book.specs.declared.flow.Flow.{Flow};
    ghost use Rattle.flow_book.specs.Slots.{picked, IsOrder};

    ghost Value = { List Flow };

    ghost view = { λ f. picked (map (λ b. b.value) f.slots.items) f.order.items };

    ghost invariant = { λ f. IsOrder f.order.items (length f.slots.items) };
}

impl Flows {
    // No flows.
    pub(crate) fn new(alloc: Global) -> Flows
        ensures { result ≡ [] }
    {
        Flows {
            slots: Vec::new(alloc),
            order: Vec::new(alloc),
        }
    }

    // Where the flows take their memory.
    pub(crate) fn allocator(&self) -> Global {
        *self.slots.allocator()
    }

    // How many flows there are.
    pub(crate) fn len(&self) -> usize
        ensures value { result ≡ length self.now }
        ensures few { result < 2 ^ 63 }
    {
        self.order.len()
    }

    // Whether there is no flow.
    pub(crate) fn is_empty(&self) -> bool
        ensures { result ≡ (length self.now == 0) }
    {
        self.order.is_empty()
    }

    // The flow at this place.
    pub(crate) fn at(&self, place: usize) -> &Flow
        requires { place < length self.now }
        ensures { result.now ≡ slice_index_or self.now place result.now }
    {
        &self.slots[self.order[place] as usize]
    }

    // The flow at this place, if there is one.
    pub(crate) fn get(&self, place: usize) -> Option<&Flow>
        ensures value { option_copied result ≡ slice_get self.now place }
        ensures within { MatchOption result (length self.now ≤ place)
            (λ f. (place < length self.now) × (f.now ≡ slice_index_or self.now place f.now)) }
    {
        if place < self.len() {
            return Some(self.at(place));
        }
        None
    }

    // The flow at this place, to be changed.
    pub(crate) fn at_mut(&mut self, place: usize) -> &mut Flow
        requires { place < length self.old }
        ensures* lends { sem 𝓛 (LendsFlow self.entry place result) }
        ensures value { result.now ≡ slice_index_or self.old place result.now }
    {
        let slot = self.order[place] as usize;
        let flow = &mut self.slots[slot];
        &mut **flow
    }

    // Puts a flow in at this place, before those from there on. Where memory or slots run out nothing changes.
    pub(crate) fn insert(&mut self, place: usize, flow: Flow) -> Result<(), AllocError>
        requires { place ≤ length self.old }
        ensures ok { OnOk result (self.new ≡ insert self.old place flow) }
        ensures err { OnErr result (self.new ≡ self.old) }
    {
        let Ok(slot) = u16::try_from(self.slots.len()) else {
            return Err(AllocError);
        };
        let flow = Box::new(*self.slots.allocator(), flow)?;
        self.order.reserve(1)?;
        self.slots.push(flow)?;
        let _ = self.order.insert(place, slot);
        Ok(())
    }

    // Takes the flow at this place out. That of the last slot goes to its slot.
    pub(crate) fn remove(&mut self, place: usize)
        requires { place < length self.old }
        ensures { self.new ≡ remove self.old place }
    {
        let slot = self.order.remove(place);
        let last = (self.slots.len() - 1) as u16;
        renumber(&mut self.order, &self.slots, last, slot);
        let _ = self.slots.swap_remove(slot as usize);
    }

    // The place of the flow with this SID.
    pub(crate) fn place_of(&self, sid: u16) -> Option<usize>
        requires { Ascend (map live self.now) }
        ensures { result ≡ position (λ f. f.sid == sid) self.now }
    {
        find(&self.order, &self.slots, sid)
    }

    // The place of the first flow with a higher SID, or the end.
    pub(crate) fn place_above(&self, sid: u16) -> usize
        requires { Ascend (map live self.now) }
        ensures place { result ≡ position_or_len (λ f. nat_lt sid f.sid) self.now }
        ensures within { result ≤ length self.now }
    {
        find_above(&self.order, &self.slots, sid)
    }
}

// The SID of the flow in this slot, or 0 where there is none.
fn sid_of(slots: &[Box<Flow>], slot: u16) -> u16
    ensures { result ≡ sid_in (map (λ b. b.value) slots.now) slot }
{
    match slots.get(slot as usize) {
        Some(flow) => flow.sid,
        None => 0,
    }
}

// Where the slot of the flow with this SID stands, if the flows ascend.
fn find(order: &[u16], slots: &[Box<Flow>], sid: u16) -> Option<usize>
    ensures within { IfSome result (λ place. place < length order.now) }
    ensures value { AscendBy (sid_in (map (λ b. b.value) slots.now)) order.now
        → result ≡ position (λ s. sid_in (map (λ b. b.value) slots.now) s == sid) order.now }
{
    order
        .binary_search_by_key(&sid, |slot| sid_of(slots, *slot))
        .ok()
}

// Where the first slot with a flow of a higher SID stands, if the flows ascend.
fn find_above(order: &[u16], slots: &[Box<Flow>], sid: u16) -> usize
    ensures within { result ≤ length order.now }
    ensures value { AscendBy (sid_in (map (λ b. b.value) slots.now)) order.now
        → result ≡ position_or_len (λ s. nat_lt sid (sid_in (map (λ b. b.value) slots.now) s)) order.now }
{
    order.partition_point(|slot| sid_of(slots, *slot) <= sid)
}

// Where a slot stands, another is put: at the place of its SID, or if that is not it, at all places.
fn renumber(order: &mut [u16], slots: &[Box<Flow>], from: u16, to: u16)
    requires { AreApart order.old }
    ensures { order.new ≡ map (moved from to) order.old }
{
    if from == to {
        return;
    }
    if let Some(place) = find(order, slots, sid_of(slots, from)) {
        if order[place] == from {
            order[place] = to;
            return;
        }
    }
    renumber_all(order, from, to);
}

// Wherever a slot stands, another is put.
fn renumber_all(order: &mut [u16], from: u16, to: u16)
    ensures { order.new ≡ map (moved from to) order.old }
{
    for slot in order.iter_mut() {
        if *slot == from {
            *slot = to;
        }
    }
}
