//! The numbers in line of the flows that wait, kept from call to call.

ghost use Rattle.std.specs.Prelude.{◌≡◌, ◌<◌, ◌≤◌, ◌++◌, true, false, List, Some, ℕ, map, filter, take, slice_get, length};
ghost use Rattle.std.specs.Prelude.{[], IfOk, OnOk};
ghost use Rattle.std.specs.BTreeSet.{IsFromIterResult};
ghost use Rattle.std.specs.Ordering.{nat_cmp};
ghost use Rattle.std.specs.List.{AllZip};
ghost use Rattle.minislots.specs.declared.config.Config.{Config};
ghost use Rattle.flow_book.specs.declared.flow.Flow.{Flow};
ghost use Rattle.flow_book.specs.Flows.{LiveFlow, granted};
ghost use Rattle.flow_book.specs.Entry.{live, IsBook};
ghost use Rattle.flow_book.specs.Line.{sorted, numbers_of};
ghost use Rattle.flow_book.specs.Overlay.{IsSameFlow};
ghost use Rattle.flow_book.specs.Pending.{number_at};
ghost use Rattle.flow_book.specs.Queue.{still_waits, IsQueueIn};
ghost use Rattle.flow_book.specs.Numbers.{IsLineOf, number_where, listed, IsApart, DifferByOne, HasChanged};
ghost use Rattle.flow_book.specs.Mending.{AreServed, number_after};

use crate::flow::Flow;
use crate::flows::Flows;
use crate::shown::{number_at, number_of};
use crate::waiting::Waiting;
use std::alloc::{AllocError, Global};
use std::collections::BTreeSet;
use std::marker::Model;

/// The numbers in line of the flows that wait, in order, where they are known. They stand apart, since most often they
/// are not.
#[derive(Drop)]
pub(crate) struct Line {
    numbers: Option<Box<BTreeSet<u128>>>,
}

impl Model for Line {
    ghost use Rattle.std.specs.Prelude.{[], is_some, option_map, unwrap_or};
    ghost use Rattle.flow_book.specs.Numbers.{LineView};

    ghost Value = { LineView };

    ghost view = { λ l. record {
      numbers = unwrap_or (option_map (λ b. b.value.keys) l.numbers) [];
      is_known = is_some l.numbers;
    } };
}

// The number in line of a flow, where it waits.
#[inline(never)]
fn number_where(flow: &Flow) -> Option<u128>
    requires sum { flow.now.granted ≡ granted (live flow.now) }
    requires within { granted (live flow.now) ≤ flow.now.asked }
    ensures { result ≡ number_where (live flow.now) }
{
    let wants = flow.outstanding();
    if wants == 0 {
        return None;
    }
    Some(number_of(flow.since_with(wants), flow.sid))
}

// The number in line after a MAP of one that it served, where it still waits. The flows are those before it.
fn number_after(waiting: &Waiting, flows: &Flows) -> Option<u128>
    ensures { result ≡ number_after flows.now waiting.now }
{
    if waiting.wants == 0 {
        return None;
    }
    Some(number_at(waiting, flows))
}

// Takes a number out, where there is one.
fn take_out(numbers: &mut BTreeSet<u128>, number: Option<u128>)
    ensures { (ns : List ℕ) → IsApart number ns → numbers.old.keys ≡ sorted (listed number ns)
        → numbers.new.keys ≡ sorted ns }
{
    if let Some(number) = number {
        let _ = numbers.remove(&number);
    }
}

// Puts a number in, where there is one.
fn put(numbers: &mut BTreeSet<u128>, number: Option<u128>) -> Result<(), AllocError>
    ensures { OnOk result ((ns : List ℕ) → IsApart number ns → numbers.old.keys ≡ sorted ns
        → numbers.new.keys ≡ sorted (listed number ns)) }
{
    if let Some(number) = number {
        let _ = numbers.insert(number)?;
    }
    Ok(())
}

// Puts the numbers of those that still wait behind others.
fn push_numbers(numbers: &mut Vec<u128>, part: &[Waiting], flows: &Flows) -> Result<(), AllocError>
    ensures { OnOk result (numbers.new.items
        ≡ numbers.old.items ++ map (number_at flows.now) (filter still_waits part.now)) }
{
    for waiting in part {
        if waiting.wants > 0 {
            numbers.push(number_at(waiting, flows))?;
        }
    }
    Ok(())
}

// The set of these numbers.
fn set_of(alloc: Global, numbers: Vec<u128>) -> Result<BTreeSet<u128>, AllocError>
    ensures { IfOk result (IsFromIterResult nat_cmp numbers.items) }
{
    numbers.into_iter().collect(alloc)
}

// The numbers of those of the two parts that still wait, in order: they are sorted once, which takes far less than to
// put each in its place.
fn numbers_of(
    alloc: Global,
    queue: &[Waiting],
    served: &[Waiting],
    flows: &Flows,
) -> Result<BTreeSet<u128>, AllocError>
    ensures { IfOk result (λ numbers. (c : Config) (items : List Flow) → IsBook c items
        → IsQueueIn items queue.now served.now → AllZip IsSameFlow (map live flows.now) (map live items)
        → numbers.keys ≡ sorted (numbers_of (map live items))) }
{
    let mut numbers = Vec::with_capacity(alloc, queue.len() + served.len())?;
    push_numbers(&mut numbers, queue, flows)?;
    push_numbers(&mut numbers, served, flows)?;
    set_of(alloc, numbers)
}

impl Line {
    // One that is not known.
    pub(crate) fn none() -> Line
        ensures { result.is_known ≡ false }
    {
        Line { numbers: None }
    }

    // The line, which is not known here any more.
    #[inline(always)]
    pub(crate) fn take(&mut self) -> Line
        ensures taken { result ≡ self.old }
        ensures left { self.new.is_known ≡ false }
    {
        Line {
            numbers: self.numbers.take(),
        }
    }

    // Whether it is known.
    #[inline(always)]
    pub(crate) fn is_known(&self) -> bool
        ensures { result ≡ self.now.is_known }
    {
        self.numbers.is_some()
    }

    // It is not known any more.
    #[inline(always)]
    pub(crate) fn forget(&mut self)
        ensures { self.new.is_known ≡ false }
    {
        self.numbers = None;
    }

    // Where it is known one number takes the place of another. Where memory runs out it is not known any more.
    #[inline(never)]
    pub(crate) fn follow(&mut self, before: Option<u128>, after: Option<u128>)
        ensures { (old new : List LiveFlow) → (self.old.is_known ≡ true → DifferByOne before after old new)
            → IsLineOf old self.old → IsLineOf new self.new }
    {
        let Some(numbers) = &mut self.numbers else {
            return;
        };
        if before == after {
            return;
        }
        take_out(numbers, before);
        if put(numbers, after).is_err() {
            self.numbers = None;
        }
    }

    // The number in line of the flow at this place, where it waits. Where the line is not known none is told.
    #[inline(always)]
    pub(crate) fn number_at(&self, flows: &Flows, place: usize) -> Option<u128>
        requires book { (c : Config) × IsBook c flows.now }
        requires within { place < length flows.now }
        ensures { self.now.is_known ≡ true → (f : Flow) → slice_get flows.now place ≡ Some f
            → result ≡ number_where (live f) }
    {
        if !self.is_known() {
            return None;
        }
        number_where(flows.at(place))
    }

    // Keeps it where the flow at this place, which had this number before, has changed.
    #[inline(always)]
    pub(crate) fn follow_at(&mut self, before: Option<u128>, flows: &Flows, place: usize)
        requires book { (c : Config) × IsBook c flows.now }
        requires within { place < length flows.now }
        ensures { (c : Config) (old : List Flow) → IsBook c old
            → HasChanged place self.old.is_known before old flows.now
            → IsLineOf (map live old) self.old → IsLineOf (map live flows.now) self.new }
    {
        if self.is_known() {
            let after = number_where(flows.at(place));
            self.follow(before, after);
        }
    }

    // Makes it that of the flows after a MAP where it is that of those before. These are the flows before, and those
    // that the MAP served.
    pub(crate) fn mend(&mut self, served: &[Waiting], flows: &Flows)
        requires { (c : Config) × (items : List Flow) × AreServed c flows.now items served.now }
        ensures { (c : Config) (items : List Flow) → AreServed c flows.now items served.now
            → IsLineOf (map live flows.now) self.old → IsLineOf (map live items) self.new }
    {
        if self.is_known() {
            for waiting in served {
                let before = self.number_at(flows, waiting.place as usize);
                self.follow(before, number_after(waiting, flows));
            }
        }
    }

    // Makes it known, from the two parts of a queue after a MAP and the flows before it. Where memory runs out it is
    // not known.
    pub(crate) fn fill(&mut self, queue: &[Waiting], served: &[Waiting], flows: &Flows)
        ensures { (c : Config) (items : List Flow) → IsBook c items → IsQueueIn items queue.now served.now
            → AllZip IsSameFlow (map live flows.now) (map live items) → IsLineOf (map live items) self.new }
    {
        let alloc = flows.allocator();
        self.numbers = match numbers_of(alloc, queue, served, flows) {
            Ok(numbers) => Box::new(alloc, numbers).ok(),
            Err(_) => None,
        };
    }

    // The first so many numbers.
    pub(crate) fn first(&self, alloc: Global, most: usize) -> Result<Vec<u128>, AllocError>
        ensures { IfOk result (λ first. first.items ≡ take most self.now.numbers) }
    {
        match &self.numbers {
            Some(numbers) => numbers.iter().take(most).copied().collect(alloc),
            None => Ok(Vec::new(alloc)),
        }
    }
}
