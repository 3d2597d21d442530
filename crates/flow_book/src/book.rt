//! The live flows of a channel, in order of SID.

ghost use Rattle.std.specs.Prelude.{◌≡◌, ◌≢◌, ℕ, ◌+◌, ◌<◌, ◌≤◌, ◌^◌, ◌==◌, [], length, IfOk, OnOk, OnErr, IfSome};
ghost use Rattle.std.specs.Prelude.{if◌then◌else◌, IsSomeAnd, map, filter, option_map, slice_get, nat_lt, position, true, Some};
ghost use Rattle.std.specs.List.{AllByRecursion, position_or_len};
ghost use Rattle.minislots.specs.Units.{slots_for};
ghost use Rattle.sched_calls.specs.FlowSpec.{takes_requests};
ghost use Rattle.sched_calls.specs.Sids.{AscendBy};
ghost use Rattle.flow_book.specs.Flows.{flow_of, granted, outstanding};
ghost use Rattle.flow_book.specs.Reserved.{with_grant};
ghost use Rattle.flow_book.specs.Standing.{waits_so};
ghost use Rattle.flow_book.specs.Choice.{MayGrant, IsMost, IsAmount, IsNextSid};
ghost use Rattle.flow_book.specs.Choice.{HasStartedBy};
ghost use Rattle.flow_book.specs.Entry.{live, IsSoundFlow, IsBook, KeepsSums};
ghost use Rattle.flow_book.specs.Queue.{IsQueue};
ghost use Rattle.flow_book.specs.Carried.{carried_flow, MayBeCarried};
ghost use Rattle.flow_book.specs.Shown.{is_shown, ack_of};
ghost use Rattle.flow_book.specs.Book.{IsLive, Ascend, KeepsRoom, room_of, new_flow, with_flow, without, changed};
ghost use Rattle.flow_book.specs.Book.{with_asked, with_replaced, with_spec};

use crate::channel::Channel;
use crate::flow::{Flow, first_eligible, reserve_each};
use crate::flows::Flows;
use crate::line::Line;
use crate::opening::carried_flows;
use crate::overlay::Overlay;
use crate::queue::{copy_of, follow, leave, make_room, make_way, queue_of, take_or_make};
use crate::queue_list::Queue;
use crate::shown::Shown;
use crate::standing::{Standing, who_waits};
use crate::waiting::Waiting;
use minislots::Checked;
use sched_calls::{FlowSpec, FlowState};
use std::alloc::{AllocError, Global};
use std::marker::Model;

/// The live flows of one channel, in order of SID. Each has its parameters, the bytes that it asked
/// and its data grants, and room for so many more grants.
#[derive(Drop)]
pub struct Book {
    channel: Channel,
    pub(crate) flows: Flows,
    // The flows that wait, by their turns, where they are known.
    queue: Queue,
    is_queued: bool,
    // The numbers in line of the flows that wait, where they are known.
    line: Line,
}

impl Model for Book {
    ghost use Rattle.std.specs.Prelude.{map};
    ghost use Rattle.flow_book.specs.Book.{BookView};

    ghost Value = { BookView };

    ghost use Rattle.flow_book.specs.Entry.{live, room_in};
    ghost use Rattle.flow_book.specs.Queue.{IsQueuedBook};

    ghost view = { λ b. record {
      config = b.channel;
      flows = map live b.flows;
      rooms = map room_in b.flows;
    } };

    ghost invariant = { λ b. IsQueuedBook b.channel b.flows b.queue b.is_queued b.line };
}

// The place of the live flow with this SID.
fn place_of(flows: &Flows, sid: u16) -> usize
    requires ascending { Ascend (map live flows.now) }
    requires live { IsLive sid (map live flows.now) }
    ensures { position (λ f. f.sid == sid) (map live flows.now) ≡ Some result }
{
    match flows.place_of(sid) {
        Some(place) => place,
        None => unreachable!(),
    }
}

impl Book {
    /// A book for this channel, without flows.
    pub fn open(alloc: Global, config: Checked) -> Result<Book, AllocError>
        ensures config { IfOk result (λ book. book.config ≡ config) }
        ensures empty { IfOk result (λ book. book.flows ≡ []) }
    {
        Ok(Book {
            channel: Channel::of(alloc, config)?,
            flows: Flows::new(alloc),
            queue: Queue::new(alloc),
            is_queued: true,
            line: Line::none(),
        })
    }

    /// A book for this channel with the flows that a state tells, each with one grant in the place of all that it was
    /// granted.
    pub fn open_at(alloc: Global, config: Checked, flows: &[FlowState]) -> Result<Book, AllocError>
        requires ascending { AscendBy (λ f. f.sid) flows.now }
        requires each { AllByRecursion MayBeCarried flows.now }
        ensures config { IfOk result (λ book. book.config ≡ config) }
        ensures flows { IfOk result (λ book. book.flows ≡ map carried_flow flows.now) }
    {
        let channel = Channel::of(alloc, config)?;
        let flows = carried_flows(alloc, channel.config(), flows)?;
        Ok(Book {
            channel,
            flows,
            queue: Queue::new(alloc),
            is_queued: false,
            line: Line::none(),
        })
    }

    /// The channel's configuration.
    pub fn config(&self) -> &Checked
        ensures value { result.now ≡ self.now.config }
    {
        self.channel.config()
    }

    /// How many flows are live.
    pub fn len(&self) -> usize
        ensures value { result ≡ length self.now.flows }
        ensures ascending { Ascend self.now.flows }
    {
        self.flows.len()
    }

    /// Whether no flow is live.
    pub fn is_empty(&self) -> bool
        ensures { result ≡ (length self.now.flows == 0) }
    {
        self.flows.is_empty()
    }

    /// The SID of a live flow by its place, from 0, in the order of SIDs.
    pub fn sid_at(&self, index: usize) -> u16
        requires { index < length self.now.flows }
        ensures value { option_map (λ f. f.sid) (slice_get self.now.flows index) ≡ Some result }
        ensures found { flow_of result self.now.flows ≡ slice_get self.now.flows index }
    {
        self.flows.at(index).sid
    }

    /// The parameters of the live flow with this SID, if there is one.
    pub fn flow(&self, sid: u16) -> Option<FlowSpec>
        ensures { result ≡ option_map (λ f. f.spec) (flow_of sid self.now.flows) }
    {
        match self.flows.place_of(sid) {
            Some(place) => Some(self.flows.at(place).spec),
            None => None,
        }
    }

    /// The bytes that a live flow asked.
    pub fn asked(&self, sid: u16) -> u64
        requires { IsLive sid self.now.flows }
        ensures { IfSome (flow_of sid self.now.flows) (λ f. result ≡ f.asked) }
    {
        self.at(sid).asked
    }

    /// The bytes that a live flow asked and was not granted.
    pub fn outstanding(&self, sid: u16) -> u64
        requires { IsLive sid self.now.flows }
        ensures { IfSome (flow_of sid self.now.flows) (λ f. result ≡ outstanding f) }
    {
        self.at(sid).outstanding()
    }

    /// The bytes that a live flow asked, and those of them that it was not granted: none where it takes no requests.
    pub fn sums(&self, sid: u16) -> (u64, u64)
        requires { IsLive sid self.now.flows }
        ensures asked { IfSome (flow_of sid self.now.flows)
            (λ f. result.0 ≡ (if takes_requests f.spec then f.asked else 0)) }
        ensures left { IfSome (flow_of sid self.now.flows)
            (λ f. result.1 ≡ (if takes_requests f.spec then outstanding f else 0)) }
    {
        let flow = self.at(sid);
        if !flow.spec.takes_requests() {
            return (0, 0);
        }
        (flow.asked, flow.outstanding())
    }

    /// The bytes that a live flow asked and was not granted, by its place, from 0, in the order of SIDs.
    pub fn outstanding_at(&self, index: usize) -> u64
        requires { index < length self.now.flows }
        ensures { option_map outstanding (slice_get self.now.flows index) ≡ Some result }
    {
        self.flows.at(index).outstanding()
    }

    /// Adds a flow that has asked and been granted nothing. No flow has its SID. Where memory runs out
    /// nothing changes.
    pub fn admit(&mut self, sid: u16, spec: FlowSpec) -> Result<(), AllocError>
        requires { flow_of sid self.old.flows ≡ None }
        ensures ok { OnOk result (self.new.flows ≡ with_flow (new_flow sid spec) self.old.flows) }
        ensures err { OnErr result (self.new ≡ self.old) }
        ensures config { self.new.config ≡ self.old.config }
        ensures room { KeepsRoom self.old.rooms self.new.rooms }
    {
        let place = self.flows.place_above(sid);
        let flow = Flow::open(self.channel.config(), sid, spec);
        make_room(&mut self.queue, self.flows.len())?;
        self.flows.insert(place, flow)?;
        make_way(&mut self.queue, self.is_queued, place);
        Ok(())
    }

    /// Takes out a live flow, with what it asked and was granted.
    pub fn remove(&mut self, sid: u16)
        requires { IsLive sid self.old.flows }
        ensures removed { self.new.flows ≡ without sid self.old.flows }
        ensures config { self.new.config ≡ self.old.config }
        ensures room { (other : ℕ)
            → other ≢ sid → room_of other self.new.rooms ≡ room_of other self.old.rooms }
    {
        let place = self.place(sid);
        let before = self.line.number_at(&self.flows, place);
        self.line.follow(before, None);
        self.flows.remove(place);
        leave(&mut self.queue, place);
    }

    /// Adds bytes to what a live flow asked that takes requests, in a request that was heard at minislot `heard`. The
    /// sum fits a `u64`.
    pub fn ask(&mut self, sid: u16, bytes: u32, heard: u64)
        requires live { IsLive sid self.old.flows }
        requires fits { IfSome (flow_of sid self.old.flows) (λ f. f.asked + bytes < 2 ^ 64) }
        requires asks { IfSome (flow_of sid self.old.flows) (λ f. takes_requests f.spec ≡ true) }
        ensures { self.new ≡ record self.old
            { flows = changed sid (with_asked bytes heard) self.old.flows } }
    {
        let place = self.place(sid);
        let before = self.line.number_at(&self.flows, place);
        self.flows.at_mut(place).ask(bytes, heard);
        self.is_queued = follow(&mut self.queue, self.is_queued, &self.flows, place);
        self.line.follow_at(before, &self.flows, place);
    }

    /// Leaves so many bytes outstanding of a live flow that takes requests, in the place of those before, by a request
    /// that was heard at minislot `heard`. They and the bytes granted fit a `u64`.
    pub fn replace(&mut self, sid: u16, bytes: u32, heard: u64)
        requires live { IsLive sid self.old.flows }
        requires fits { IfSome (flow_of sid self.old.flows) (λ f. granted f + bytes < 2 ^ 64) }
        requires asks { IfSome (flow_of sid self.old.flows) (λ f. takes_requests f.spec ≡ true) }
        ensures { self.new ≡ record self.old
            { flows = changed sid (with_replaced bytes heard) self.old.flows } }
    {
        let place = self.place(sid);
        let before = self.line.number_at(&self.flows, place);
        self.flows.at_mut(place).replace(bytes, heard);
        self.is_queued = follow(&mut self.queue, self.is_queued, &self.flows, place);
        self.line.follow_at(before, &self.flows, place);
    }

    /// Gives a live flow other parameters, of its kind. What it asked and was granted stays. Another rate or burst
    /// begins a period of its ceiling, full, another peak rate one of that, and another reservation one of that.
    pub fn change(&mut self, sid: u16, spec: FlowSpec)
        requires live { IsLive sid self.old.flows }
        requires kind { IfSome (flow_of sid self.old.flows)
            (λ f. takes_requests spec ≡ takes_requests f.spec) }
        ensures { self.new ≡ record self.old { flows = changed sid (with_spec spec) self.old.flows } }
    {
        let place = self.place(sid);
        let before = self.line.number_at(&self.flows, place);
        self.flows.at_mut(place).change(self.channel.config(), spec);
        self.is_queued = follow(&mut self.queue, self.is_queued, &self.flows, place);
        self.line.follow_at(before, &self.flows, place);
    }

    /// The most bytes of a data grant to a live flow at minislot `start`, in `room` minislots: at most
    /// what is outstanding and the grant cap, under both ceilings, in a burst that fits, and where the flow is under
    /// its reservation at most what that leaves. 0 where no bytes may be granted. The flow's grants start at or before
    /// `start`.
    pub fn most(&self, sid: u16, start: u64, room: u32) -> u32
        requires live { IsLive sid self.now.flows }
        requires started { IfSome (flow_of sid self.now.flows) (HasStartedBy start) }
        ensures { IfSome (flow_of sid self.now.flows)
            (λ f. IsMost self.now.config f start room result) }
    {
        self.at(sid).most(self.channel.config(), start, room)
    }

    /// The SID of the flow that a data grant at minislot `start`, with `room` minislots before what
    /// comes next, goes to: of the flows that may take the quantum, or all that they wait for, the first
    /// by rank from the highest, that of a polled flow where the flow is under its reservation, start of the last
    /// grant, none before any, and SID. `None` where no flow may. All grants start at or before `start`.
    pub fn eligible(&self, start: u64, room: u32) -> Option<u16>
        requires { AllByRecursion (HasStartedBy start) self.now.flows }
        ensures { IsNextSid self.now.config start room self.now.flows result }
    {
        match first_eligible(&self.flows, self.channel.config(), start, room) {
            Some(flow) => Some(flow.sid),
            None => None,
        }
    }

    /// The SIDs of the flows that wait for bytes at minislot `start` and stand so to their rates, in order of SID. All
    /// grants start at or before `start`.
    pub fn who_waits(&self, standing: Standing, start: u64) -> Result<Vec<u16>, AllocError>
        requires { AllByRecursion (HasStartedBy start) self.now.flows }
        ensures { IfOk result (λ sids. sids.items
            ≡ map (λ f. f.sid) (filter (waits_so standing self.now.config start) self.now.flows)) }
    {
        let config = self.channel.config();
        who_waits(self.flows.allocator(), &self.flows, config, standing, start)
    }

    /// Makes room for `grants` more grants of each live flow, so that as many calls of [`Book::grant`]
    /// need no memory.
    pub fn reserve(&mut self, grants: usize) -> Result<(), AllocError>
        ensures room { OnOk result
            ((sid : ℕ) → IsLive sid self.new.flows → grants ≤ room_of sid self.new.rooms) }
        ensures kept { KeepsRoom self.old.rooms self.new.rooms }
        ensures same { self.new ≡ record self.old { rooms = self.new.rooms } }
    {
        reserve_each(&mut self.flows, grants);
        if !self.is_queued {
            self.queue = queue_of(self.flows.allocator(), &self.flows)?;
            self.is_queued = true;
        }
        Ok(())
    }

    /// Grants bytes to a live flow from minislot `start` on: at least 1, at most [`Book::most`] of some
    /// room. Room for the grant was made by [`Book::reserve`], and the flow's grants start at or before
    /// `start`.
    pub fn grant(&mut self, sid: u16, start: u64, bytes: u32)
        requires room { 0 < room_of sid self.old.rooms }
        requires started { IfSome (flow_of sid self.old.flows) (HasStartedBy start) }
        requires lawful { IsSomeAnd (flow_of sid self.old.flows) (λ f.
            MayGrant self.old.config f start (slots_for self.old.config bytes) bytes) }
        ensures flows { self.new.flows
            ≡ changed sid (with_grant self.old.config (record { start = start; bytes = bytes })) self.old.flows }
        ensures config { self.new.config ≡ self.old.config }
        ensures room { room_of sid self.new.rooms + 1 ≡ room_of sid self.old.rooms }
        ensures other_room { (other : ℕ)
            → other ≢ sid → room_of other self.new.rooms ≡ room_of other self.old.rooms }
    {
        let place = self.place(sid);
        let before = self.line.number_at(&self.flows, place);
        self.flows
            .at_mut(place)
            .grant(self.channel.config(), start, bytes);
        self.is_queued = follow(&mut self.queue, self.is_queued, &self.flows, place);
        self.line.follow_at(before, &self.flows, place);
    }

    /// The flows with the data grants of a MAP, none yet. The book stays as it is.
    pub fn overlay(&self) -> Result<Overlay, AllocError>
        ensures { IfOk result (λ overlay. overlay ≡ record {
          config = self.now.config;
          before = self.now.flows;
          flows = self.now.flows;
        }) }
    {
        let alloc = self.flows.allocator();
        let queue = if self.is_queued {
            copy_of(alloc, &self.queue)?
        } else {
            queue_of(alloc, &self.flows)?
        };
        Overlay::over(&self.channel, &self.flows, queue, Line::none())
    }

    /// The same as [`Book::overlay`], for a MAP that the book is to take in: what it keeps of the flows that wait goes
    /// with the overlay, and is not copied. [`Book::take_in`] brings it back; otherwise it is made anew when it is
    /// needed.
    pub fn lend(&mut self) -> Result<Overlay, AllocError>
        ensures overlay { IfOk result (λ overlay. overlay ≡ record {
          config = self.old.config;
          before = self.old.flows;
          flows = self.old.flows;
        }) }
        ensures same { self.new ≡ self.old }
    {
        let queue = take_or_make(&mut self.queue, &mut self.is_queued, &self.flows)?;
        Overlay::over(&self.channel, &self.flows, queue, self.line.take())
    }

    /// The flows that the MAP of an overlay shows by pending grants, in order of SID, and its acknowledge time, where
    /// all receivers have handed in what they heard before the progress. The overlay was made of this book, whose flows
    /// have not changed since.
    pub fn show(&self, overlay: &mut Overlay, progress: u64) -> Result<Shown, AllocError>
        requires { overlay.old.before ≡ self.now.flows }
        ensures pending { IfOk result (λ s. s.pending.items ≡ map (λ f. f.sid)
            (filter (is_shown overlay.old.config.pending overlay.old.flows) overlay.old.flows)) }
        ensures ack { IfOk result
            (λ s. s.ack ≡ ack_of overlay.old.config.pending progress overlay.old.flows) }
        ensures same { overlay.new ≡ overlay.old }
    {
        overlay.show(&self.flows, progress)
    }

    /// Takes the data grants of a planned MAP in: the flows are those of the overlay then. The overlay was made of this
    /// book, whose flows have not changed since.
    pub fn take_in(&mut self, mut overlay: Overlay)
        requires config { overlay.config ≡ self.old.config }
        requires before { overlay.before ≡ self.old.flows }
        ensures flows { self.new.flows ≡ overlay.flows }
        ensures config { self.new.config ≡ self.old.config }
    {
        self.line = overlay.take_line();
        let queue = overlay.put_into(&mut self.flows);
        self.is_queued = queue.is_some();
        self.queue = queue.unwrap_or(Queue::new(self.flows.allocator()));
    }

    // The live flow with this SID.
    fn at(&self, sid: u16) -> &Flow
        requires { IsLive sid self.now.flows }
        ensures found { flow_of sid self.now.flows ≡ Some (live result.now) }
        ensures sound { IsSoundFlow self.now.config (live result.now) }
        ensures sums { KeepsSums self.now.config result.now }
    {
        self.flows.at(self.place(sid))
    }

    // The place of the live flow with this SID.
    fn place(&self, sid: u16) -> usize
        requires { IsLive sid self.now.flows }
        ensures { position (λ f. f.sid == sid) self.now.flows ≡ Some result }
    {
        place_of(&self.flows, sid)
    }
}
