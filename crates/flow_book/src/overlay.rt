//! The flows of a book with the data grants of a MAP that is planned.

ghost use Rattle.std.specs.Prelude.{◌≡◌, [], Some, map, filter, IfOk, IfSome, None, option_map, true};
ghost use Rattle.std.specs.Prelude.{vec_capacity, List, false, if◌then◌else◌};
ghost use Rattle.minislots.specs.declared.config.Config.{Config};
ghost use Rattle.flow_book.specs.Flows.{LiveFlow};
ghost use Rattle.flow_book.specs.Numbers.{IsLineOf};
ghost use Rattle.std.specs.List.{AllByRecursion};
ghost use Rattle.flow_book.specs.Flows.{flow_of};
ghost use Rattle.flow_book.specs.Choice.{IsAmount, IsNextSid, HasStartedBy};
ghost use Rattle.flow_book.specs.Entry.{live, IsBook};
ghost use Rattle.flow_book.specs.Queue.{IsQueue, HasRoom, served_of, all_of};
ghost use Rattle.flow_book.specs.Shown.{is_shown, ack_of};
ghost use Rattle.flow_book.specs.Reserved.{with_grant};
ghost use Rattle.flow_book.specs.Book.{changed};

use crate::channel::Channel;
use crate::flow::{Grant, Room, Served};
use crate::flow_list::{FlowList, list_of};
use crate::flows::Flows;
use crate::line::Line;
use crate::parts::serve_first;
use crate::queue_list::Queue;
use crate::shown::{Shown, show};
use crate::taking::{merge, take_over};
use crate::tiers::Tier;
use crate::waiting::Waiting;
use minislots::Checked;
use std::alloc::{AllocError, Global};
use std::marker::Model;

// Of so many flows that wait one that is served stays in their queue: it moves back by few steps, and takes no memory.
const FEW: usize = 32;

// Memory for as many served flows as wait where they are many, and else none.
fn room_for_served(alloc: Global, queue: &Queue, is_long: bool) -> Result<Vec<Waiting>, AllocError>
    ensures none { IfOk result (λ served. served.items ≡ []) }
    ensures room { IfOk result (λ served. HasRoom is_long queue.now [] (vec_capacity served)) }
{
    if is_long {
        return Vec::with_capacity(alloc, queue.len());
    }
    Ok(Vec::new(alloc))
}

// The queue in one of two forms, by whether it is long: a list of few moves none of them to be one slice.
fn divided(alloc: Global, queue: Queue, is_long: bool) -> (Vec<Waiting>, Queue)
    ensures { all_of is_long result.0.items result.1 ≡ queue }
{
    if is_long {
        return (Vec::new(alloc), queue);
    }
    (queue.into_list(), Queue::new(alloc))
}

// The queue, of its two forms.
fn all_of<'a>(is_long: bool, few: &'a [Waiting], many: &'a [Waiting]) -> &'a [Waiting]
    ensures { result.now ≡ all_of is_long few.now many.now }
{
    if is_long { many } else { few }
}

// Those that a MAP served, with others that wait where those are few.
fn changed_of<'a>(is_long: bool, queue: &'a [Waiting], served: &'a [Waiting]) -> &'a [Waiting]
    ensures { result.now ≡ served_of is_long queue.now served.now }
{
    if is_long { served } else { queue }
}

// Makes a line that may be that of the flows with the data grants that of the flows before them.
#[inline(always)]
fn forget_shown(line: &mut Line, is_shown: &mut bool)
    ensures line { (before flows : List LiveFlow)
        → IsLineOf (if is_shown.old then flows else before) line.old → IsLineOf before line.new }
    ensures shown { is_shown.new ≡ false }
{
    if *is_shown {
        line.forget();
        *is_shown = false;
    }
}

/// The live flows of a book with the data grants of a MAP that is planned. The book stays as it is until
/// [`Book::take_in`](crate::Book::take_in). Memory is taken for the flows that wait, and where they are many for those
/// that the MAP serves.
#[derive(Drop)]
pub struct Overlay {
    channel: Channel,
    // The flows that waited before the MAP, by their turns, where they are few. One that it served has here what it
    // still wants.
    few: Vec<Waiting>,
    // And where they are many. One that it served wants nothing here.
    many: Queue,
    // Where many wait none of the queue before this place wants anything.
    first: usize,
    // Where many waited those that the MAP served, with what they still want, by their turns.
    served: Vec<Waiting>,
    // The tiers of both.
    tiers: Vec<Tier>,
    is_long: bool,
    // The numbers in line of the flows before the MAP, or where it was shown of those with its data grants, where they
    // are known.
    line: Line,
    is_shown: bool,
    // The live flows before the MAP, and with its data grants, for contracts alone.
    before: FlowList,
    flows: FlowList,
}

impl Model for Overlay {
    ghost use Rattle.flow_book.specs.Overlay.{OverlayView};

    ghost Value = { OverlayView };

    ghost use Rattle.std.specs.Prelude.{vec_capacity};
    ghost use Rattle.flow_book.specs.Overlay.{IsLinedOverlay};
    ghost use Rattle.flow_book.specs.Queue.{all_of};

    ghost view = { λ o. record {
      config = o.channel;
      before = o.before.items;
      flows = o.flows.items;
    } };

    ghost invariant = { λ o.
        IsLinedOverlay o.channel o.before.items o.flows.items o.is_long
        (all_of o.is_long o.few.items o.many) o.served.items
        o.tiers.items (vec_capacity o.served) o.first o.line o.is_shown };
}

impl Overlay {
    // That of a book with these flows, this queue and this line, before any grant.
    pub(crate) fn over(
        channel: &Channel,
        flows: &Flows,
        queue: Queue,
        line: Line,
    ) -> Result<Overlay, AllocError>
        requires book { IsBook channel.now flows.now }
        requires queue { IsQueue flows.now queue }
        requires line { IsLineOf (map live flows.now) line }
        ensures { IfOk result (λ overlay. overlay ≡ record {
          config = channel.now;
          before = map live flows.now;
          flows = map live flows.now;
        }) }
    {
        let mut queue = queue;
        let alloc = flows.allocator();
        let tiers = queue.tiers(alloc, flows)?;
        let is_long = queue.len() > FEW;
        let served = room_for_served(alloc, &queue, is_long)?;
        let (few, many) = divided(alloc, queue, is_long);
        let before = list_of(flows);
        Ok(Overlay {
            channel: channel.again()?,
            few,
            many,
            first: 0,
            served,
            tiers,
            is_long,
            line,
            is_shown: false,
            flows: FlowList::same(&before),
            before,
        })
    }

    /// The channel's configuration.
    pub fn config(&self) -> &Checked
        ensures value { result.now ≡ self.now.config }
    {
        self.channel.config()
    }

    /// Grants the flow that is next at minislot `start`, with `room` minislots before what comes next
    /// ([`Book::eligible`](crate::Book::eligible)), the most bytes that it may have there
    /// ([`Book::most`](crate::Book::most)), and answers to whom they went. `None` where no flow may be served: then
    /// nothing changes. All grants start at or before `start`.
    pub fn serve(&mut self, start: u64, room: u32) -> Option<Served>
        requires started { AllByRecursion (HasStartedBy start) self.old.flows }

        ensures next { IsNextSid self.old.config start room self.old.flows
            (option_map (λ s. s.sid) result) }
        ensures amount { IfSome result (λ s. IfSome (flow_of s.sid self.old.flows)
            (λ f. IsAmount self.old.config f start room s.bytes)) }
        ensures flows { IfSome result (λ s. self.new.flows ≡ changed s.sid
            (with_grant self.old.config (record { start = start; bytes = s.bytes })) self.old.flows) }
        ensures none { result ≡ None → self.new ≡ self.old }
        ensures config { self.new.config ≡ self.old.config }
        ensures before { self.new.before ≡ self.old.before }
    {
        let config = self.channel.config();
        let bytes = config.most_in(room);
        let room = Room { slots: room, bytes };
        let served = serve_first(
            &mut self.few,
            &mut self.many,
            &mut self.first,
            &mut self.served,
            &mut self.tiers,
            self.is_long,
            config,
            start,
            room,
        )?;
        let Served { sid, bytes } = served;
        self.flows = FlowList::granted(&self.flows, config, &sid, &Grant { start, bytes });
        forget_shown(&mut self.line, &mut self.is_shown);
        Some(served)
    }

    // The flows that the MAP shows by pending grants, in order of SID, and its acknowledge time ([`Book::show`]). These
    // are the flows of the book.
    pub(crate) fn show(&mut self, flows: &Flows, progress: u64) -> Result<Shown, AllocError>
        requires flows { map live flows.now ≡ self.old.before }
        requires book { (c : Config) × IsBook c flows.now }
        ensures pending { IfOk result (λ s. s.pending.items
            ≡ map (λ f. f.sid) (filter (is_shown self.old.config.pending self.old.flows) self.old.flows)) }
        ensures ack { IfOk result (λ s. s.ack ≡ ack_of self.old.config.pending progress self.old.flows) }
        ensures same { self.new ≡ self.old }
    {
        let most = self.channel.config().pending() as usize;
        forget_shown(&mut self.line, &mut self.is_shown);
        let queue = all_of(self.is_long, &self.few, self.many.all());
        let changed = changed_of(self.is_long, queue, &self.served);
        let shown = show(
            flows.allocator(),
            queue,
            &self.served,
            changed,
            flows,
            &mut self.line,
            most,
            progress,
        );
        self.is_shown = true;
        shown
    }

    // The line, where it is known that of the flows with the data grants. It is not known here any more.
    pub(crate) fn take_line(&mut self) -> Line
        ensures line { IsLineOf self.old.flows result }
        ensures same { self.new ≡ self.old }
    {
        if !self.is_shown {
            self.line.forget();
        }
        self.line.take()
    }

    // Puts the flows with the data grants in the place of those before, and gives the queue of those that still wait,
    // if memory does not run out for it.
    pub(crate) fn put_into(self, flows: &mut Flows) -> Option<Queue>
        requires { IsBook self.config flows.old × (map live flows.old ≡ self.before) }
        ensures book { IsBook self.config flows.new × (map live flows.new ≡ self.flows) }
        ensures order { IfSome result (λ queue. IsQueue flows.new queue) }
    {
        if self.is_long {
            let mut queue = self.many;
            take_over(flows, &self.served, &self.tiers, &self.flows);
            if merge(&mut queue, self.served).is_err() {
                return None;
            }
            return Some(queue);
        }
        let mut queue = self.few;
        take_over(flows, &queue, &self.tiers, &self.flows);
        queue.retain(|waiting| waiting.wants > 0);
        Some(Queue::of(queue))
    }
}
