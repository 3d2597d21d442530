//! One life of a flow: what it asked and was granted, and from when to when it lived.

ghost use Rattle.std.specs.Prelude.{◌≡◌, ◌+◌, ◌*◌, ◌<◌, ◌≤◌, ◌^◌, ◌++◌, ◌∷◌, [], List, ℕ, map, false, not, ◌&&◌, ◌==◌};
ghost use Rattle.std.specs.Prelude.{None, Some, is_some, IfSome, OnOk, length, true};
ghost use Rattle.std.specs.List.{cons_option};
ghost use Rattle.std.specs.Option.{option_map_or};
ghost use Rattle.minislots.specs.declared.config.Config.{Config};
ghost use Rattle.flow_book.specs.declared.flow.Grant.{Grant as DataGrant};
ghost use Rattle.sched_calls.specs.declared.reply.Entry.{Entry as Recorded};
ghost use Rattle.sched_history.specs.Life.{grant_by};
ghost use Rattle.sched_history.specs.Time.{next_after};
ghost use Rattle.sched_report.specs.declared.service.Request.{Request as Asked};
ghost use Rattle.sched_report.specs.Served.{IsServiceOf, with_grants};
ghost use Rattle.sched_report.specs.Delays.{Claim, AreSums};
ghost use Rattle.sched_report.specs.Lives.{PastLife, is_told, is_turn, new_spec, spec_of, with_entry};
ghost use Rattle.sched_report.specs.Requests.{request_by};
ghost use Rattle.sched_report.specs.Ranks.{is_of_rank, is_chosen};
ghost use Rattle.sched_report.specs.Said.{claims_of, delays_in, priority_of, granted_in, waiting_in, dropped_in};
ghost use Rattle.sched_report.specs.Said.{asked_since, grants_in};
ghost use Rattle.sched_report.specs.Oldest.{oldest_in};
ghost use Rattle.sched_report.specs.Named.{HasNoMap};
ghost use Rattle.sched_report.specs.Granted.{HasMore};
ghost use Rattle.sched_report.specs.Steps.{CountsUpto};
ghost use Rattle.sched_report.specs.Said.{is_grant_to, unsolicited_at};
ghost use Rattle.sched_report.specs.Told.{IsLifeOf, MayNote, MayGrantAll, HasRoomFor};
ghost use Rattle.sched_report.specs.ToldLives.{AreLifeNumbers};
ghost use Rattle.sched_report.specs.WaitsIn.{under_in, held_in};

use crate::percentiles::percentile;
use crate::requests::{note_request, request_of};
use crate::service::{Service, Sums};
use crate::slots::Use;
use flow_book::{FlowSpec, Grant};
use map_codec::Element;
use map_drawing::Allocation;
use minislots::Checked;
use sched_history::{Call, Entry, Met, Reply, meets_at};
use std::alloc::{AllocError, Global};
use std::slice;

/// The rank of polled flows, which are served before all priorities.
pub const POLLED: u8 = 8;

/// The numbers of one life of a flow.
#[derive(Clone, Copy)]
pub struct LifeNumbers {
    /// The SID under which it lived.
    pub sid: u16,
    /// Its parameters: those of its last change, or else those with which it was admitted.
    pub spec: FlowSpec,
    /// The minislot at which the next frame started when it was admitted, or where what is told began.
    pub from: u64,
    /// The minislot at which the next frame started when it was removed, or starts now.
    pub to: u64,
    /// Whether it was removed.
    pub ended: bool,
    /// The priority of a best effort flow.
    pub priority: Option<u8>,
    /// The bytes that were outstanding where what is told began: none where it was admitted since.
    pub carried: u64,
    /// Its requests, its data grants, and the delays of the requests that were served. Of the bytes that it asked those
    /// carried are some.
    pub sums: Sums,
    /// The bytes that it was granted: those of its data grants, or of an unsolicited flow those of each unsolicited
    /// grant, as many as its parameters said when the MAP was built.
    pub granted: u128,
    /// The bytes that were asked and not granted.
    pub outstanding: u64,
    /// The requests that wait for a data grant. Where the life ended, none does.
    pub waiting: u64,
    /// The requests that waited when the life ended.
    pub dropped: u64,
    /// For how many minislots the first of those that wait has waited: from where it was heard to where the next frame
    /// starts. None where none waits.
    pub oldest: Option<u64>,
    /// The delay that 50 in a hundred of the requests that were served do not exceed: up to [`EXACT`](crate::EXACT)
    /// minislots exactly, and above that at most one part in a hundred too much.
    pub middle: Option<u64>,
    /// That of 99 in a hundred.
    pub p99: Option<u64>,
    /// The MAPs of its life, but those that settle, at whose starts it waited for bytes under its minimum reserved
    /// rate.
    pub under: u64,
    /// Those at whose starts it waited for bytes while its rate or its peak had no room for the quantum, or for all
    /// that it waited for where that was less.
    pub held: u64,
}

// Where what is told of a life begins: where the next frame started there, the bytes that its data grants had up to it,
// those outstanding there, and whether it had not ended.
#[derive(Clone, Copy)]
pub(crate) struct Beginning {
    from: u64,
    granted: u64,
    carried: u64,
    is_live: bool,
}

// What is kept of one life of a flow.
#[derive(Drop)]
pub(crate) struct LifeTally {
    sid: u16,
    spec: FlowSpec,
    beginning: Beginning,
    to: Option<u64>,
    service: Service,
    // The bytes of the unsolicited grants that it had.
    unsolicited: u128,
}

impl LifeTally {
    // That of a life that begins in front of the frame that starts there.
    pub(crate) fn begin(alloc: Global, sid: u16, spec: FlowSpec, from: u64) -> LifeTally
        ensures life { (c : Config) (upto : List Recorded) → from ≡ next_after c upto
            → IsLifeOf c result
            (record { sid = sid; first = spec; upto = upto; since = []; ended = false; passed = 0 }) }
        ensures sid { result.sid ≡ sid }
    {
        LifeTally {
            sid,
            spec,
            beginning: Beginning {
                from,
                granted: 0,
                carried: 0,
                is_live: true,
            },
            to: None,
            service: Service::new(alloc),
            unsolicited: 0,
        }
    }

    // What is told begins anew here, where the next frame starts there: nothing was asked or granted since.
    pub(crate) fn renew(&mut self, next: u64)
        requires { (c : Config) × (life : PastLife) × IsLifeOf c self.old life }
        ensures life { (c : Config) (life : PastLife) (passed : ℕ) → IsLifeOf c self.old life
            → (life.ended ≡ false → next ≡ next_after c (life.upto ++ life.since))
            → (life.ended ≡ false → passed ≡ length life.since)
            → (life.ended ≡ true → length life.since < passed)
            → IsLifeOf c self.new (record life { passed = passed }) }
        ensures sid { self.new.sid ≡ self.old.sid }
        ensures to { self.new.to ≡ self.old.to }
    {
        let (asked, granted) = self.service.renew();
        self.beginning = Beginning {
            from: self.to.unwrap_or(next),
            granted,
            carried: asked - granted,
            is_live: self.to.is_none(),
        };
        self.unsolicited = 0;
    }

    // Whether it lived where what is told began, or since.
    pub(crate) fn is_told(&self) -> bool
        ensures { (c : Config) (life : PastLife) → IsLifeOf c self.now life → result ≡ is_told life }
    {
        self.beginning.is_live
    }

    // Its numbers, where the next frame starts there, and so often it waited under its reservation and at a ceiling.
    pub(crate) fn numbers(&self, next: u64, under: u64, held: u64) -> LifeNumbers
        requires { (c : Config) × (life : PastLife) × IsLifeOf c self.now life }
        ensures told { (c : Config) (life : PastLife) → IsLifeOf c self.now life
            → (life.ended ≡ false → next ≡ next_after c (life.upto ++ life.since))
            → under ≡ under_in c life → held ≡ held_in c life → AreLifeNumbers c result life }
        ensures few { result.granted < 2 ^ 90 }
    {
        let sums = self.sums();
        let one = slice::from_ref(self);
        let served = u128::from(sums.delays.served);
        LifeNumbers {
            sid: self.sid,
            spec: self.spec,
            from: self.beginning.from,
            to: self.to.unwrap_or(next),
            ended: self.to.is_some(),
            priority: priority_of(self.spec),
            carried: self.beginning.carried,
            sums,
            granted: self.granted(),
            outstanding: sums.asked - sums.granted,
            waiting: self.waiting(),
            dropped: self.dropped(),
            oldest: self.oldest(next),
            middle: percentile(one, None, 50, served, sums.delays.greatest),
            p99: percentile(one, None, 99, served, sums.delays.greatest),
            under,
            held,
        }
    }

    // Whether it is of this SID and goes on.
    pub(crate) fn goes_on_as(&self, sid: u16) -> bool
        ensures { result ≡ (not (is_some self.now.to) && self.now.sid == sid) }
    {
        self.to.is_none() && self.sid == sid
    }

    // Its requests and its data grants.
    pub(crate) fn sums(&self) -> Sums
        requires { (c : Config) × (life : PastLife) × IsLifeOf c self.now life }
        ensures sums { (c : Config) (life : PastLife) → IsLifeOf c self.now life
            → AreSums c result (claims_of c life) (asked_since c life) (grants_in life) }
        ensures few { result.delays.served ≤ 2 ^ 44 }
        ensures within { result.granted ≤ result.asked }
    {
        let sums = self.service.sums();
        Sums {
            asked: sums.asked - self.beginning.granted,
            granted: sums.granted - self.beginning.granted,
            ..sums
        }
    }

    // How many of its delays there are of which no more than this is told.
    pub(crate) fn upto(&self, delay: u64) -> u64
        requires { (c : Config) × (life : PastLife) × IsLifeOf c self.now life }
        ensures counts { (c : Config) (life : PastLife) → IsLifeOf c self.now life
            → CountsUpto delay result (delays_in c life) }
        ensures few { result ≤ 2 ^ 44 }
    {
        self.service.upto(delay)
    }

    // Whether it is one of a rank, or whether it is one at all where no rank is named.
    pub(crate) fn is_chosen(&self, rank: Option<u8>) -> bool
        ensures { (c : Config) (life : PastLife) → IsLifeOf c self.now life
            → result ≡ is_chosen rank (spec_of life) }
    {
        match rank {
            Some(rank) => is_of_rank(self.spec, rank),
            None => true,
        }
    }

    // The bytes that it was granted.
    pub(crate) fn granted(&self) -> u128
        requires { (c : Config) × (life : PastLife) × IsLifeOf c self.now life }
        ensures granted { (c : Config) (life : PastLife) → IsLifeOf c self.now life
            → result ≡ granted_in c life }
        ensures few { result < 2 ^ 90 }
    {
        match self.spec {
            FlowSpec::Unsolicited { .. } => self.unsolicited,
            _ => u128::from(self.service.granted() - self.beginning.granted),
        }
    }

    // How many requests wait.
    pub(crate) fn waiting(&self) -> u64
        ensures { (c : Config) (life : PastLife) → IsLifeOf c self.now life
            → result ≡ waiting_in c life }
    {
        match self.to {
            Some(_) => 0,
            None => self.service.unserved(),
        }
    }

    // How many requests waited when it ended.
    pub(crate) fn dropped(&self) -> u64
        ensures { (c : Config) (life : PastLife) → IsLifeOf c self.now life
            → result ≡ dropped_in c life }
    {
        match self.to {
            Some(_) => self.service.unserved(),
            None => 0,
        }
    }

    // For how many minislots the first request that waits has waited, where the next frame starts there.
    pub(crate) fn oldest(&self, next: u64) -> Option<u64>
        ensures { (c : Config) (life : PastLife) → IsLifeOf c self.now life
            → (life.ended ≡ false → next ≡ next_after c (life.upto ++ life.since))
            → result ≡ oldest_in c life }
    {
        match self.to {
            Some(_) => None,
            None => match self.service.first_heard() {
                Some(heard) => Some(next.saturating_sub(heard)),
                None => None,
            },
        }
    }

    // Takes memory for the request that an entry is, where it is one of this SID. What is told stays.
    pub(crate) fn reserve_for(&mut self, config: &Checked, entry: &Entry) -> Result<(), AllocError>
        ensures ok { OnOk result
            ((r : Asked) → request_by config.now self.new.sid entry.now.call entry.now.reply ≡ Some r
            → HasRoomFor self.new) }
        ensures same { (c : Config) (life : PastLife) → IsLifeOf c self.old life
            → IsLifeOf c self.new life }
        ensures unmoved { self.new ≡ record self.old { service = self.new.service } }
    {
        if request_of(config, self.sid, entry).is_none() {
            return Ok(());
        }
        self.service.reserve()
    }

    // Goes on with one entry more that has no MAP, before which the next frame starts there.
    pub(crate) fn note(&mut self, config: &Checked, next: u64, entry: &Entry)
        requires may { (life : PastLife) × IsLifeOf config.now self.old life
            × MayNote config.now life next entry.now }
        requires room { self.old.to ≡ None → (r : Asked)
            → request_by config.now self.old.sid entry.now.call entry.now.reply ≡ Some r
            → HasRoomFor self.old }
        requires unbuilt { HasNoMap entry.now.reply }
        ensures life { (life : PastLife) → IsLifeOf config.now self.old life
            → MayNote config.now life next entry.now
            → IsLifeOf config.now self.new (with_entry entry.now life) }
        ensures alive { self.new.to ≡ None → self.old.to ≡ None }
        ensures sid { self.new.sid ≡ self.old.sid }
    {
        if self.to.is_some() {
            return;
        }
        if is_turn(self.sid, entry) {
            self.to = Some(next);
            return;
        }
        note_request(&mut self.service, config, self.sid, entry);
        self.spec = spec_with(self.spec, self.sid, entry);
    }

    // Counts an element with this byte count, in a MAP that starts there, where it is a data grant to this life.
    pub(crate) fn grant(&mut self, config: &Checked, start: u64, element: Element, bytes: u32)
        requires start { start < 2 ^ 62 }
        requires granted { self.old.to ≡ None → MayGrantAll config.now self.old.service
            (cons_option (grant_by self.old.sid start (element, bytes)) []) }
        ensures { HasMore config.now (cons_option (grant_by self.old.sid start (element, bytes)) [])
            0 0 self.old self.new }
    {
        if self.to.is_some() {
            return;
        }
        grant_element(&mut self.service, config, self.sid, start, element, bytes);
    }

    // Counts the bytes of an allocation, where it is an unsolicited grant to this life: its MAP meets these
    // opportunities.
    pub(crate) fn count_grant(&mut self, met: &[Met], allocation: Allocation)
        requires { self.old.to ≡ None → self.old.unsolicited + 2 ^ 32 ≤ 2 ^ 100 }
        ensures { (c : Config) → HasMore c [] 1
            (unsolicited_at met.now self.old.spec self.old.sid allocation) self.old self.new }
    {
        if self.to.is_some() {
            return;
        }
        self.unsolicited += u128::from(unsolicited_at(met, self.spec, self.sid, allocation));
    }
}

// The priority of a best effort flow.
fn priority_of(spec: FlowSpec) -> Option<u8>
    ensures { result ≡ priority_of spec }
{
    match spec {
        FlowSpec::BestEffort { priority, .. } => Some(priority),
        _ => None,
    }
}

// Whether flows with these parameters are served in this rank: polled ones in 8, best effort ones in their priority.
fn is_of_rank(spec: FlowSpec, rank: u8) -> bool
    ensures { result ≡ is_of_rank rank spec }
{
    match spec {
        FlowSpec::Unsolicited { .. } => false,
        FlowSpec::Polled { .. } => POLLED == rank,
        FlowSpec::BestEffort { priority, .. } => priority == rank,
    }
}

// The bytes of an allocation, where it is an unsolicited grant to a flow with these parameters, which lives under this
// SID: its MAP meets these opportunities.
fn unsolicited_at(met: &[Met], spec: FlowSpec, sid: u16, allocation: Allocation) -> u32
    ensures { result ≡ unsolicited_at met.now spec sid allocation }
{
    match spec {
        FlowSpec::Unsolicited { size, .. } if is_grant_to(met, sid, allocation) => size,
        _ => 0,
    }
}

// Whether an allocation is an unsolicited grant to the unsolicited flow that lives under this SID: its MAP meets these
// opportunities.
fn is_grant_to(met: &[Met], sid: u16, allocation: Allocation) -> bool
    ensures { result ≡ is_grant_to met.now sid allocation }
{
    let met = meets_at(met, allocation.offset);
    allocation.sid == sid && Use::of(allocation, met, true).is_unsolicited()
}

// Whether an entry is an accepted admission or removal of this SID.
fn is_turn(sid: u16, entry: &Entry) -> bool
    ensures { result ≡ is_turn sid entry.now }
{
    match (entry.call, &entry.reply) {
        (Call::Admit(other, _), Reply::Admitted(_)) => other == sid,
        (Call::Remove(other), Reply::Removed) => other == sid,
        _ => false,
    }
}

// The parameters of a flow of this SID after an entry.
fn spec_with(spec: FlowSpec, sid: u16, entry: &Entry) -> FlowSpec
    ensures { result ≡ option_map_or (λ given. given) (new_spec sid entry.now.call entry.now.reply) spec }
{
    match (entry.call, &entry.reply) {
        (Call::Change(other, given), Reply::Changed(_)) if other == sid => given,
        _ => spec,
    }
}

// The data grant to this SID that an element with this byte count is, in a MAP that starts there.
fn grant_of(sid: u16, start: u64, element: Element, bytes: u32) -> Option<Grant>
    requires { start < 2 ^ 62 }
    ensures value { result ≡ grant_by sid start (element, bytes) }
    ensures reach { IfSome result (λ g. g.start < 2 ^ 63) }
{
    if element.sid == sid && bytes > 0 {
        let start = start + u64::from(element.offset);
        Some(Grant { start, bytes })
    } else {
        None
    }
}

// Counts an element with this byte count, where it is a data grant to this SID.
fn grant_element(
    service: &mut Service,
    config: &Checked,
    sid: u16,
    start: u64,
    element: Element,
    bytes: u32,
)
    requires start { start < 2 ^ 62 }
    requires granted { MayGrantAll config.now service.old
        (cons_option (grant_by sid start (element, bytes)) []) }
    ensures { (claims : List Claim) (asked : ℕ) (grants : List DataGrant)
        → IsServiceOf config.now service.old claims asked grants
        → IsServiceOf config.now service.new
        (map (with_grants (cons_option (grant_by sid start (element, bytes)) [])) claims) asked
        (grants ++ cons_option (grant_by sid start (element, bytes)) []) }
{
    match grant_of(sid, start, element, bytes) {
        Some(grant) => service.grant(config, grant),
        None => {}
    }
}
