//! One live flow: what it asked, and what its data grants come to.

ghost use Rattle.std.specs.Prelude.{◌≡◌, ℕ, ◌+◌, ◌-◌, ◌<◌, ◌≤◌, ◌^◌, map, length, slice_index_or, IsTrue};
ghost use Rattle.std.specs.Prelude.{◌↔◌, Option, None, Some, true, nat_lt, ◌&&◌, MatchOption, IfSome, option_map};
ghost use Rattle.std.specs.Prelude.{option_copied, min, List, ◌++◌, ◌∷◌, [], if◌then◌else◌};
ghost use Rattle.std.specs.List.{AllByRecursion};
ghost use Rattle.minislots.specs.declared.config.Config.{Config};
ghost use Rattle.minislots.specs.Config.{IsLawful};
ghost use Rattle.flow_book.specs.Flows.{Charge, HaveStartedBy, granted, outstanding};
ghost use Rattle.flow_book.specs.Reserved.{wanted_of, is_under, rank_at, with_grant};
ghost use Rattle.flow_book.specs.Standing.{has_room, waits_so};
ghost use Rattle.flow_book.specs.Choice.{is_before, IsEligible, IsMost, KeepsWith};
ghost use Rattle.flow_book.specs.Choice.{IsNextOf, HasStartedBy, last_start};
ghost use Rattle.sched_calls.specs.FlowSpec.{takes_requests, rate_of, burst_of, peak_of, reserved_of};
ghost use Rattle.sched_calls.specs.FlowSpec.{rank_of, reserved_burst_of};
ghost use Rattle.sched_calls.specs.declared.spec.TheConstants.{PEAK_BURST as THE_PEAK_BURST};
ghost use Rattle.flow_book.specs.Bucket.{StandsFor, IsSettled};
ghost use Rattle.flow_book.specs.Limits.{HasBegunBy, ChargesAtGrants, AreLimitsOf, AreSettled};
ghost use Rattle.flow_book.specs.Entry.{live, room_in, IsSoundFlow, IsSoundBook, IsTurn, KnowsTurn, KeepsSums};
ghost use Rattle.flow_book.specs.Entry.{asked_more, asked_instead, top_rank, turn_in};
ghost use Rattle.flow_book.specs.Queue.{entry_of};
ghost use Rattle.flow_book.specs.Book.{KeepsRoom, new_flow, has_ceiling_of, has_peak_of, has_reserve_of, with_spec};
ghost use Rattle.flow_book.specs.Batches.{since_of};
ghost use Rattle.flow_book.specs.Tiers.{limits_in};
ghost use Rattle.flow_book.specs.declared.flow.Flow.{Flow};

use crate::batches::Batches;
use crate::flows::Flows;
use crate::granted::GrantList;
use crate::limits::{Limits, peak_of, reserved_of, sustained_of};
use crate::standing::Standing;
use crate::tiers::Tier;
use crate::waiting::Waiting;
use minislots::Checked;
use sched_calls::FlowSpec;
use std::alloc::AllocError;

/// A data grant of a flow: the minislot at which it starts, and its bytes.
#[derive(Clone, Copy, Debug, PartialEq, Eq)]
pub struct Grant {
    /// The minislot at which it starts.
    pub start: u64,
    /// The bytes that it carries.
    pub bytes: u32,
}

/// A data grant that was made: the SID of its flow, and its bytes.
#[derive(Clone, Copy, Debug, PartialEq, Eq)]
pub struct Served {
    /// The SID of the flow.
    pub sid: u16,
    /// The bytes that it was granted.
    pub bytes: u32,
}

// The minislots before what comes next, and the most bytes that the grant cap leaves to a data grant in them.
#[derive(Clone, Copy)]
pub(crate) struct Room {
    pub(crate) slots: u32,
    pub(crate) bytes: u64,
}

// The turns of a rank: more than there are starts.
const TURNS: u128 = 1 << 65;

// The SIDs of a turn.
pub(crate) const SIDS: u128 = 1 << 16;

// The turns of all SIDs of a rank.
pub(crate) const RANKS: u128 = TURNS * SIDS;

// The rank of a flow under its reservation: that of polled flows.
pub(crate) const RESERVED_RANK: u8 = 8;

// A live flow.
#[derive(Drop)]
pub(crate) struct Flow {
    // Its turn in its highest rank among the flows that may be served: the least is served first.
    pub(crate) turn: u128,
    // The bytes of all requests.
    pub(crate) asked: u64,
    // The batches of its requests.
    pub(crate) batches: Batches,
    // The bytes of all data grants.
    pub(crate) granted: u64,
    // What the data grants leave under both ceilings, and of the reservation.
    pub(crate) limits: Limits,
    pub(crate) spec: FlowSpec,
    pub(crate) sid: u16,
    // The data grants, in order, and what they charge, for contracts alone.
    pub(crate) grants: GrantList,
}

impl Flow {
    // A flow that has asked and been granted nothing.
    pub(crate) fn open(config: &Checked, sid: u16, spec: FlowSpec) -> Flow
        ensures live { live result ≡ new_flow sid spec }
        ensures sums { KeepsSums config.now result }
    {
        Flow {
            sid,
            spec,
            asked: 0,
            batches: Batches::none(),
            granted: 0,
            turn: turn_of(top_rank(&spec), sid),
            limits: Limits::open(config, &spec),
            grants: GrantList::none(),
        }
    }

    // The bytes that were asked and not granted.
    pub(crate) fn outstanding(&self) -> u64
        requires sum { self.now.granted ≡ granted (live self.now) }
        requires within { granted (live self.now) ≤ self.now.asked }
        ensures { result ≡ outstanding (live self.now) }
    {
        self.asked - self.granted
    }

    // The least minislot in which a request was heard of those of its batches that are not over, where so many of the
    // bytes that it asked are outstanding.
    pub(crate) fn since_with(&self, wants: u64) -> u64
        ensures { result ≡ since_of self.now.batches (self.now.asked - wants) }
    {
        self.batches.since(self.asked.saturating_sub(wants))
    }

    // Adds bytes to what was asked, in a request that was heard at this minislot.
    pub(crate) fn ask(&mut self, bytes: u32, heard: u64)
        requires sum { self.old.granted ≡ granted (live self.old) }
        requires fits { self.old.asked + bytes < 2 ^ 64 }
        ensures { self.new ≡ asked_more bytes heard self.old }
    {
        self.batches = self
            .batches
            .with_request(self.asked, self.granted, bytes, heard);
        self.asked += u64::from(bytes);
    }

    // Asks for so many bytes in the place of those outstanding, in a request that was heard at this minislot.
    pub(crate) fn replace(&mut self, bytes: u32, heard: u64)
        requires sum { self.old.granted ≡ granted (live self.old) }
        requires fits { granted (live self.old) + bytes < 2 ^ 64 }
        ensures { self.new ≡ asked_instead bytes heard self.old }
    {
        self.asked = self.granted;
        self.ask(bytes, heard);
    }

    // Gives the flow these parameters. Another ceiling begins a period, with a full bucket, and so do another peak
    // rate and another reservation.
    pub(crate) fn change(&mut self, config: &Checked, spec: FlowSpec)
        ensures live { live self.new ≡ with_spec spec (live self.old) }
        ensures room { room_in self.new ≡ room_in self.old }
        ensures sums { KeepsSums config.now self.old → KeepsSums config.now self.new }
    {
        self.turn = turn_in(self.turn, top_rank(&spec));
        self.grants = GrantList::under(&self.grants, &self.spec, &spec);
        self.change_sustained(config, &spec);
        self.change_peak(config, &spec);
        self.change_reserved(config, &spec);
        self.spec = spec;
    }

    // Fills the bucket of the flow's ceiling where that is another with these parameters.
    fn change_sustained(&mut self, config: &Checked, spec: &FlowSpec)
        ensures same { self.new ≡ record self.old {
          limits = record self.old.limits { sustained = self.new.limits.sustained };
        } }
        ensures bucket { (charges : List Charge)
            → StandsFor config.now (rate_of self.old.spec) (burst_of self.old.spec) self.old.limits.sustained charges
            → StandsFor config.now (rate_of spec.now) (burst_of spec.now) self.new.limits.sustained
            (if has_ceiling_of self.old.spec spec.now then charges else []) }
        ensures settled { (charges : List Charge) → IsSettled self.old.limits.sustained charges
            → IsSettled self.new.limits.sustained (if has_ceiling_of self.old.spec spec.now then charges else []) }
    {
        if !has_ceiling_of(&self.spec, spec) {
            self.limits.sustained = sustained_of(config, spec);
        }
    }

    // Fills the bucket of the flow's peak rate where that is another with these parameters.
    fn change_peak(&mut self, config: &Checked, spec: &FlowSpec)
        ensures same { self.new ≡ record self.old {
          limits = record self.old.limits { peak = self.new.limits.peak };
        } }
        ensures bucket { (charges : List Charge)
            → StandsFor config.now (peak_of self.old.spec) THE_PEAK_BURST self.old.limits.peak charges
            → StandsFor config.now (peak_of spec.now) THE_PEAK_BURST self.new.limits.peak
            (if has_peak_of self.old.spec spec.now then charges else []) }
        ensures settled { (charges : List Charge) → IsSettled self.old.limits.peak charges
            → IsSettled self.new.limits.peak (if has_peak_of self.old.spec spec.now then charges else []) }
    {
        if self.spec.peak() != spec.peak() {
            self.limits.peak = peak_of(config, spec);
        }
    }

    // Fills the bucket of the flow's reservation where that is another with these parameters.
    fn change_reserved(&mut self, config: &Checked, spec: &FlowSpec)
        ensures same { self.new ≡ record self.old {
          limits = record self.old.limits { reserved = self.new.limits.reserved };
        } }
        ensures bucket { (charges : List Charge)
            → StandsFor config.now (reserved_of self.old.spec) (reserved_burst_of self.old.spec) self.old.limits.reserved charges
            → StandsFor config.now (reserved_of spec.now) (reserved_burst_of spec.now) self.new.limits.reserved
            (if has_reserve_of self.old.spec spec.now then charges else []) }
        ensures settled { (charges : List Charge) → IsSettled self.old.limits.reserved charges
            → IsSettled self.new.limits.reserved (if has_reserve_of self.old.spec spec.now then charges else []) }
    {
        if !has_reserve_of(&self.spec, spec) {
            self.limits.reserved = reserved_of(config, spec);
        }
    }

    // Whether the flow waits for bytes.
    pub(crate) fn waits(&self) -> bool
        requires sum { self.now.granted ≡ granted (live self.now) }
        requires within { granted (live self.now) ≤ self.now.asked }
        ensures { result ≡ nat_lt 0 (outstanding (live self.now)) }
    {
        self.outstanding() > 0
    }

    // The bytes that the flow wants at least: the quantum, or all that it waits for where they are fewer.
    fn wanted(&self, config: &Checked) -> u32
        requires sum { self.now.granted ≡ granted (live self.now) }
        requires within { granted (live self.now) ≤ self.now.asked }
        ensures value { result ≡ wanted_of config.now (live self.now) }
        ensures lawful { IsLawful config.now }
    {
        self.outstanding().min(u64::from(config.quantum())) as u32
    }

    // Whether the flow is under its reservation at this minislot.
    fn is_under(&self, config: &Checked, start: u64) -> bool
        requires sums { KeepsSums config.now self.now }
        requires within { granted (live self.now) ≤ self.now.asked }
        requires started { HaveStartedBy start self.now.grants.items }
        ensures { result ≡ is_under config.now start (live self.now) }
    {
        self.limits.reserved.reserves(start, self.wanted(config))
    }

    // Whether both ceilings of the flow have room at this minislot for what it wants at least.
    fn has_room(&self, config: &Checked, start: u64) -> bool
        requires sums { KeepsSums config.now self.now }
        requires within { granted (live self.now) ≤ self.now.asked }
        requires started { HaveStartedBy start self.now.grants.items }
        ensures { result ≡ has_room config.now start (live self.now) }
    {
        self.limits.has(start, self.wanted(config))
    }

    // Whether the flow waits for bytes at this minislot and stands so.
    pub(crate) fn waits_so(&self, config: &Checked, standing: Standing, start: u64) -> bool
        requires sums { KeepsSums config.now self.now }
        requires within { granted (live self.now) ≤ self.now.asked }
        requires started { HaveStartedBy start self.now.grants.items }
        ensures { result ≡ waits_so standing config.now start (live self.now) }
    {
        match standing {
            Standing::UnderReservation => self.waits() && self.is_under(config, start),
            Standing::AtCeiling => self.waits() && !self.has_room(config, start),
        }
    }

    // The flow's turn at this minislot, where it is of a polled flow's rank under its reservation.
    fn turn_at(&self, config: &Checked, start: u64) -> u128
        requires sums { KeepsSums config.now self.now }
        requires within { granted (live self.now) ≤ self.now.asked }
        requires started { HaveStartedBy start self.now.grants.items }
        ensures { IsTurn (rank_at config.now start (live self.now)) (last_start self.now.grants.items) self.now.sid result }
    {
        let rank = if self.is_under(config, start) {
            RESERVED_RANK
        } else {
            self.spec.rank()
        };
        turn_in(self.turn, rank)
    }

    // Whether this flow is served at this minislot before the next of those before it, if there is one: by rank from
    // the highest, then by the start of the last grant, none before any, then by SID, which is higher here.
    fn comes_before(&self, config: &Checked, start: u64, next: Option<&Flow>) -> bool
        requires sums { KeepsSums config.now self.now }
        requires within { granted (live self.now) ≤ self.now.asked }
        requires started { HaveStartedBy start self.now.grants.items }
        requires next_sums { IfSome next (λ n. KeepsSums config.now n.now) }
        requires next_within { IfSome next (λ n. granted (live n.now) ≤ n.now.asked) }
        requires next_started { IfSome next (λ n. HaveStartedBy start n.now.grants.items) }
        requires lower { IfSome next (λ n. n.now.sid < self.now.sid) }
        ensures { MatchOption next.entry
            (IsTrue result) (λ n. result ≡ is_before config.now start (live self.now) (live n.now)) }
    {
        match next {
            Some(next) => self.turn_at(config, start) < next.turn_at(config, start),
            None => true,
        }
    }

    // The most bytes that a data grant at this minislot may have in so many minislots, 0 where it may
    // have none.
    pub(crate) fn most(&self, config: &Checked, start: u64, room: u32) -> u32
        requires sound { IsSoundFlow config.now (live self.now) }
        requires sums { KeepsSums config.now self.now }
        requires started { HaveStartedBy start self.now.grants.items }
        ensures most { IsMost config.now (live self.now) start room result }
        ensures lawful { IsLawful config.now }
    {
        let limit = self.limit(config, config.bytes_in(room));
        self.limits.most(start, self.wanted(config), limit)
    }

    // The most bytes that a data grant of at most so many may have, were there no ceiling.
    fn limit(&self, config: &Checked, most: u64) -> u32
        requires sum { self.now.granted ≡ granted (live self.now) }
        requires within { granted (live self.now) ≤ self.now.asked }
        ensures value { result ≡ min (min (outstanding (live self.now)) config.now.grant_cap) most }
        ensures lawful { IsLawful config.now }
    {
        let asked = self.outstanding().min(u64::from(config.grant_cap()));
        asked.min(most) as u32
    }

    // Whether the flow may be served at this minislot: what it waits for, at most the quantum, fits the
    // minislots and keeps the ceiling.
    pub(crate) fn is_eligible(&self, config: &Checked, start: u64, room: u32) -> bool
        requires sound { IsSoundFlow config.now (live self.now) }
        requires sums { KeepsSums config.now self.now }
        requires started { HaveStartedBy start self.now.grants.items }
        ensures { IsTrue result ↔ IsEligible config.now start room (live self.now) }
    {
        if !self.spec.takes_requests() {
            return false;
        }
        let wanted = self.wanted(config);
        if wanted == 0 || u64::from(wanted) > config.bytes_in(room) {
            return false;
        }
        self.limits.has(start, wanted)
    }

    // Gives the flow the data grants that a MAP adds, and what the queue has of it with them. One that takes no requests
    // keeps its buckets.
    pub(crate) fn take_over(&mut self, waiting: &Waiting, tiers: &[Tier], grants: GrantList)
        requires { waiting.now.wants ≤ self.old.asked }
        ensures { self.new ≡ record self.old {
          turn = waiting.now.turn;
          granted = self.old.asked - waiting.now.wants;
          limits = if takes_requests self.old.spec then limits_in tiers.now waiting.now else self.old.limits;
          grants = grants;
        } }
    {
        self.turn = waiting.turn;
        self.granted = self.asked - waiting.wants;
        if self.spec.takes_requests() {
            self.limits = waiting.limits(tiers);
        }
        self.grants = grants;
    }

    // Adds a data grant, for which there is room, of bytes that were asked. The grants start at or before
    // `start`.
    pub(crate) fn grant(&mut self, config: &Checked, start: u64, bytes: u32)
        requires room { 0 < (room_in self.old).grants }
        requires asked { self.old.granted + bytes ≤ self.old.asked }
        requires sums { KeepsSums config.now self.old }
        requires started { HaveStartedBy start self.old.grants.items }
        requires keeps { KeepsWith config.now (live self.old) start bytes }
        ensures live { live self.new
            ≡ with_grant config.now (record { start = start; bytes = bytes }) (live self.old) }
        ensures room { (room_in self.new).grants + 1 ≡ (room_in self.old).grants }
        ensures sums { KeepsSums config.now self.new }
    {
        let wanted = self.wanted(config);
        let is_reserved = self.limits.take(start, wanted, bytes);
        self.note(start, bytes, is_reserved);
    }

    // Notes a data grant that its buckets stand for, a reserved one or not, for which there is room, of bytes that were
    // asked.
    fn note(&mut self, start: u64, bytes: u32, is_reserved: bool)
        requires room { 0 < (room_in self.old).grants }
        requires asked { self.old.granted + bytes ≤ self.old.asked }
        ensures live { (c : Config) → is_reserved ≡ is_under c start (live self.old) → live self.new
            ≡ with_grant c (record { start = start; bytes = bytes }) (live self.old) }
        ensures room { (room_in self.new).grants + 1 ≡ (room_in self.old).grants }
        ensures sums { (c : Config) → is_reserved ≡ is_under c start (live self.old)
            → self.old.granted ≡ granted (live self.old) → KnowsTurn self.old
            → HasStartedBy start (live self.old) → ChargesAtGrants (live self.old)
            → AreLimitsOf c (with_grant c (record { start = start; bytes = bytes }) (live self.old)) self.old.limits
            → AreSettled (with_grant c (record { start = start; bytes = bytes }) (live self.old)) self.old.limits
            → KeepsSums c self.new }
    {
        let grant = Grant { start, bytes };
        self.granted += u64::from(bytes);
        self.turn = turn_after(self.turn, start);
        self.grants = GrantList::and(&self.grants, &grant, &is_reserved);
    }
}

// The flow that is served first at this minislot, of those that may be served.
pub(crate) fn first_eligible<'a>(
    flows: &'a Flows,
    config: &Checked,
    start: u64,
    room: u32,
) -> Option<&'a Flow>
    requires sound { IsSoundBook config.now (map live flows.now) }
    requires sums { AllByRecursion (KeepsSums config.now) flows.now }
    requires started { AllByRecursion (HasStartedBy start) (map live flows.now) }
    ensures { IsNextOf config.now start room
        (map live flows.now) (option_map live (option_copied result)) }
{
    let mut next = None;
    for place in 0..flows.len() {
        let flow = flows.at(place);
        if both(flow.waits(), flow.comes_before(config, start, next))
            && flow.is_eligible(config, start, room)
        {
            next = Some(flow);
        }
    }
    next
}

// Gives each flow room for so many more grants.
pub(crate) fn reserve_each(flows: &mut Flows, grants: usize)
    ensures same { map live flows.new ≡ map live flows.old }
    ensures entries { map entry_of flows.new ≡ map entry_of flows.old }
    ensures room { (k : ℕ) (d : Flow) → k < length flows.new
        → grants ≤ (room_in (slice_index_or flows.new k d)).grants }
    ensures kept { KeepsRoom (map room_in flows.old) (map room_in flows.new) }
    ensures sums { (c : Config)
        → AllByRecursion (KeepsSums c) flows.old → AllByRecursion (KeepsSums c) flows.new }
{
    for place in 0..flows.len() {
        let flow = flows.at_mut(place);
        flow.grants = GrantList::with_room(&flow.grants, &grants);
    }
}

// Both at once: with one branch for the two, which is hardly ever taken.
fn both(a: bool, b: bool) -> bool
    ensures { result ≡ (a && b) }
{
    a & b
}

// The turn of a flow of this rank that has no data grant yet.
pub(crate) fn turn_of(rank: u8, sid: u16) -> u128
    ensures { IsTurn rank None sid result }
{
    u128::from(u8::MAX - rank) * TURNS * SIDS + u128::from(sid)
}

// The highest rank that a flow with these parameters may have.
pub(crate) fn top_rank(spec: &FlowSpec) -> u8
    ensures { result ≡ top_rank spec.now }
{
    if spec.reserved() == 0 {
        return spec.rank();
    }
    spec.rank().max(RESERVED_RANK)
}

// The turn of a flow that had this one, in this rank: its last data grant and its SID are the same.
pub(crate) fn turn_in(turn: u128, rank: u8) -> u128
    ensures of { (before sid : ℕ) (last : Option ℕ) → IsTurn before last sid turn → IsTurn rank last sid result }
    ensures value { result ≡ turn_in rank turn }
{
    u128::from(u8::MAX - rank) * RANKS + turn % RANKS
}

// Whether two flows have the same reservation.
fn has_reserve_of(spec: &FlowSpec, other: &FlowSpec) -> bool
    ensures { result ≡ has_reserve_of spec.now other.now }
{
    spec.reserved() == other.reserved() && spec.reserved_burst() == other.reserved_burst()
}

// Whether two flows have the same ceiling.
fn has_ceiling_of(spec: &FlowSpec, other: &FlowSpec) -> bool
    ensures { result ≡ has_ceiling_of spec.now other.now }
{
    spec.rate() == other.rate() && spec.burst() == other.burst()
}

// The turn of a flow that had this one, after a data grant that starts there: of the same rank and SID.
pub(crate) fn turn_after(turn: u128, start: u64) -> u128
    ensures after { (rank sid : ℕ) (last : Option ℕ)
        → IsTurn rank last sid turn → IsTurn rank (Some start) sid result }
    ensures later { (rank sid : ℕ) (last : Option ℕ)
        → IsTurn rank last sid turn → IfSome last (λ m. m ≤ start) → turn ≤ result }
{
    turn / RANKS * RANKS + (u128::from(start) + 1) * SIDS + turn % SIDS
}
