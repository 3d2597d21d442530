//! The queue of a book as a list. Those that leave it at its front leave empty places there, so that the others need
//! not move.

ghost use Rattle.std.specs.Prelude.{◌≡◌, ◌<◌, ◌≤◌, ◌+◌, ◌^◌, ◌++◌, [], ℕ, length, insert, remove, set, map, filter, take, drop};
ghost use Rattle.std.specs.Prelude.{get_or, slice_index_or, IfOk, OnOk, OnErr};
ghost use Rattle.std.specs.List.{AllByRecursion};
ghost use Rattle.sched_calls.specs.Sids.{AscendBy, put_in};
ghost use Rattle.flow_book.specs.Gap.{all_put_in};
ghost use Rattle.flow_book.specs.Queue.{IsQueue, moved_up, moved_down, still_waits};
ghost use Rattle.flow_book.specs.Tiers.{HasTier};

use crate::flows::Flows;
use crate::gap::fill_gap;
use crate::queue::{make_idle, move_back, move_down, move_up};
use crate::taking::{behind_last_idle, close_up};
use crate::tiers::{Tier, tiers_of};
use crate::waiting::Waiting;
use std::alloc::{AllocError, Global};
use std::marker::Model;

// The flows that wait, by their turns.
#[derive(Drop)]
pub(crate) struct Queue {
    list: Vec<Waiting>,
    // So many places at the front of the list are empty.
    front: usize,
}

impl Model for Queue {
    ghost use Rattle.std.specs.Prelude.{◌≤◌, List, length, drop};
    ghost use Rattle.flow_book.specs.declared.waiting.Waiting.{Waiting};

    ghost Value = { List Waiting };

    ghost view = { λ q. drop q.front q.list.items };

    ghost invariant = { λ q. q.front ≤ length q.list.items };
}

impl Queue {
    // One in which nobody waits.
    pub(crate) fn new(alloc: Global) -> Queue
        ensures { result ≡ [] }
    {
        Queue::of(Vec::new(alloc))
    }

    // That of this list.
    #[inline(always)]
    pub(crate) fn of(list: Vec<Waiting>) -> Queue
        ensures { result ≡ list.items }
    {
        Queue { list, front: 0 }
    }

    // Its list.
    #[inline(always)]
    pub(crate) fn into_list(self) -> Vec<Waiting>
        ensures { result.items ≡ self }
    {
        let mut list = self.list;
        if self.front > 0 {
            list.drain(..self.front);
        }
        list
    }

    // How many are in it.
    pub(crate) fn len(&self) -> usize
        ensures { result ≡ length self.now }
    {
        self.list.len() - self.front
    }

    // All that are in it.
    #[inline(always)]
    pub(crate) fn all(&self) -> &[Waiting]
        ensures { result.now ≡ self.now }
    {
        &self.list[self.front..]
    }

    // Takes the empty places at the front out of the list.
    fn close_front(&mut self)
        ensures same { self.new ≡ self.old }
    {
        if self.front > 0 {
            self.list.drain(..self.front);
            self.front = 0;
        }
    }

    // Closes the front up where the list has no room for so many more.
    fn make_place(&mut self, more: usize)
        ensures same { self.new ≡ self.old }
    {
        if self.list.capacity() - self.list.len() < more {
            self.close_front();
        }
    }

    // Makes room in the list for so many in all.
    pub(crate) fn reserve(&mut self, most: usize) -> Result<(), AllocError>
        ensures { self.new ≡ self.old }
    {
        self.list.reserve(most.saturating_sub(self.list.len()))
    }

    // Puts one in at this place.
    pub(crate) fn insert(&mut self, index: usize, waiting: Waiting) -> Result<(), AllocError>
        requires { index ≤ length self.old }
        ensures ok { OnOk result (self.new ≡ insert self.old index waiting) }
        ensures err { OnErr result (self.new ≡ self.old) }
    {
        self.make_place(1);
        self.list.insert(self.front + index, waiting)?;
        Ok(())
    }

    // Takes the one at this place out.
    pub(crate) fn remove(&mut self, index: usize)
        requires { index < length self.old }
        ensures { self.new ≡ remove self.old index }
    {
        let _ = self.list.remove(self.front + index);
    }

    // The one at this place waits for nothing any more.
    pub(crate) fn make_idle(&mut self, index: usize)
        requires { index < length self.old }
        ensures { (d : Waiting) → self.new
            ≡ set self.old index (record (get_or self.old index d) { wants = 0 }) }
    {
        make_idle(&mut self.list[self.front..], index);
    }

    // Moves the places up for a flow that is put in at this place: each from there on is one more.
    pub(crate) fn move_up(&mut self, place: usize)
        requires { AllByRecursion (λ w. w.place + 1 < 2 ^ 32) self.old }
        ensures { self.new ≡ map (moved_up place) self.old }
    {
        move_up(&mut self.list[self.front..], place);
    }

    // Moves the places down where the flow at this place is taken out: each behind it is one less.
    pub(crate) fn move_down(&mut self, place: usize)
        ensures { self.new ≡ map (moved_down place) self.old }
    {
        move_down(&mut self.list[self.front..], place);
    }

    // Moves the one at this place, of a turn no earlier than before, behind those of turns no later.
    pub(crate) fn move_back(&mut self, index: usize, waiting: Waiting)
        requires within { index < length self.old }
        requires before { (k : ℕ) (d : Waiting)
            → k < index → (slice_index_or self.old k d).turn ≤ waiting.turn }
        ensures { self.new ≡ put_in (λ w. w.turn) waiting (remove self.old index) }
    {
        move_back(&mut self.list[self.front..], index, waiting);
    }

    // Gives those that have a tier its number, and answers the tiers.
    pub(crate) fn tiers(&mut self, alloc: Global, flows: &Flows) -> Result<Vec<Tier>, AllocError>
        requires { IsQueue flows.now self.old }
        ensures queue { OnOk result (IsQueue flows.now self.new) }
        ensures tiers { IfOk result (λ tiers. AllByRecursion (HasTier flows.now tiers.items) self.new) }
    {
        tiers_of(alloc, &mut self.list[self.front..], flows)
    }

    // Moves those before this place that still wait up to it, in their order, and answers where the first of them
    // stands then.
    fn close_up(&mut self, upto: usize) -> usize
        requires { upto ≤ length self.old }
        ensures closed { drop result self.new ≡ filter still_waits (take upto self.old) ++ drop upto self.old }
        ensures within { result ≤ length self.new }
    {
        close_up(&mut self.list[self.front..], upto)
    }

    // Takes so many out at the front.
    fn drop_front(&mut self, count: usize)
        requires { count ≤ length self.old }
        ensures { self.new ≡ drop count self.old }
    {
        self.front += count;
    }

    // Takes those out that wait no more.
    pub(crate) fn drop_idle(&mut self)
        ensures { self.new ≡ filter still_waits self.old }
    {
        let upto = behind_last_idle(self.all());
        let first = self.close_up(upto);
        self.drop_front(first);
    }

    // Puts these in, each in its turn.
    pub(crate) fn put_all(&mut self, ones: &[Waiting]) -> Result<(), AllocError>
        requires ascending { AscendBy (λ w. w.turn) self.old }
        requires ones { AscendBy (λ w. w.turn) ones.now }
        ensures { OnOk result (self.new ≡ all_put_in ones.now self.old) }
    {
        let first = self.len();
        self.push_all(ones)?;
        fill_gap(&mut self.list[self.front..], first, ones);
        Ok(())
    }

    // Puts these behind the others.
    fn push_all(&mut self, ones: &[Waiting]) -> Result<(), AllocError>
        ensures { OnOk result (self.new ≡ self.old ++ ones.now) }
    {
        self.make_place(ones.len());
        self.list.extend_from_slice(ones)
    }
}
