//! The requests of one life of a flow, and the data grants that serve them.

ghost use Rattle.std.specs.Prelude.{◌≡◌, ◌+◌, ◌^◌, ◌<◌, ◌≤◌, ◌∷◌, ◌++◌, [], List, ℕ, length, map, true, false};
ghost use Rattle.std.specs.Prelude.{◌*◌, OnOk, IfSome, IfNone, min, max};
ghost use Rattle.std.specs.VecDeque.{deque_len};
ghost use Rattle.std.specs.Option.{option_map_or};
ghost use Rattle.minislots.specs.declared.config.Config.{Config};
ghost use Rattle.minislots.specs.Config.{IsLawful};
ghost use Rattle.minislots.specs.Units.{slots_for};
ghost use Rattle.flow_book.specs.declared.flow.Grant.{Grant as DataGrant};
ghost use Rattle.flow_book.specs.Flows.{bytes_of};
ghost use Rattle.sched_report.specs.Delays.{Claim, delays_of, AreDelays, AreSums, unserved_of, least_of};
ghost use Rattle.sched_report.specs.Oldest.{first_heard};
ghost use Rattle.sched_report.specs.Steps.{CountsUpto};
ghost use Rattle.sched_report.specs.Served.{IsServiceOf, HasRoom, MayAsk, MayGrant, IsWaitingBehind, IsReachedFirst};
ghost use Rattle.sched_report.specs.Served.{waits_with, with_grants, as_superseded};

use crate::spread::Spread;
use flow_book::Grant;
use minislots::Checked;
use std::alloc::{AllocError, Global};
use std::collections::VecDeque;

/// A request: the bytes that it asks for, and the minislot at which it was heard.
#[derive(Clone, Copy)]
pub struct Request {
    /// The bytes that it asks for.
    pub bytes: u64,
    /// The minislot at which a receiver heard it.
    pub heard: u64,
}

// A request that waits: the bytes that its flow asked up to it and with it, and the minislot at which it was heard.
#[derive(Clone, Copy)]
pub(crate) struct Waiting {
    pub(crate) upto: u64,
    pub(crate) heard: u64,
}

/// How long requests took: the minislots from where each was heard to the end of the data grant that served it.
#[derive(Clone, Copy)]
pub struct Delays {
    /// How many were served.
    pub served: u64,
    /// The least delay, where one was served.
    pub least: Option<u64>,
    /// The greatest delay.
    pub greatest: Option<u64>,
}

impl Delays {
    // Those of no request.
    pub(crate) fn none() -> Delays
        ensures { AreDelays result [] }
    {
        Delays {
            served: 0,
            least: None,
            greatest: None,
        }
    }

    // Counts one delay more.
    fn add(&mut self, delay: u64)
        requires { self.old.served < 2 ^ 63 }
        ensures served { self.new.served ≡ self.old.served + 1 }
        ensures delays { (delays : List ℕ) → AreDelays self.old delays
            → AreDelays self.new (delays ++ delay ∷ []) }
    {
        self.served += 1;
        self.least = Some(least_with(self.least, delay));
        self.greatest = Some(greatest_with(self.greatest, delay));
    }
}

// The least of some delays and of one more.
fn least_with(least: Option<u64>, delay: u64) -> u64
    ensures { result ≡ option_map_or (λ least. min least delay) least delay }
{
    match least {
        Some(least) => least.min(delay),
        None => delay,
    }
}

// The greatest of some delays and of one more.
fn greatest_with(greatest: Option<u64>, delay: u64) -> u64
    ensures { result ≡ option_map_or (λ greatest. max greatest delay) greatest delay }
{
    match greatest {
        Some(greatest) => greatest.max(delay),
        None => delay,
    }
}

/// What there was of the requests and the data grants of one life of a flow.
#[derive(Clone, Copy)]
pub struct Sums {
    /// How many requests there were.
    pub asks: u64,
    /// Their bytes. Where one superseded those before, the bytes granted up to it, and those of it and of later ones.
    pub asked: u64,
    /// The bytes of the data grants.
    pub granted: u64,
    /// How many requests were replaced: superseded by a later one before all their bytes were granted.
    pub replaced: u64,
    /// The requests that were served. The others wait, or were dropped or replaced.
    pub delays: Delays,
}

/// What is told of the requests and the data grants of one life of a flow. It keeps the requests that wait. A request
/// is served by the first data grant with which the granted bytes reach all that were asked with it, unless a later one
/// superseded it before.
#[derive(Drop)]
pub struct Service {
    asks: u64,
    asked: u64,
    granted: u64,
    replaced: u64,
    delays: Delays,
    spread: Spread,
    waiting: VecDeque<Waiting>,
}

impl Service {
    /// That of a life that begins.
    pub fn new(alloc: Global) -> Service
        ensures { (c : Config) → IsServiceOf c result [] 0 [] }
    {
        Service {
            asks: 0,
            asked: 0,
            granted: 0,
            replaced: 0,
            delays: Delays::none(),
            spread: Spread::new(alloc),
            waiting: VecDeque::new(alloc),
        }
    }

    /// Takes memory for one request more. What is told stays.
    pub fn reserve(&mut self) -> Result<(), AllocError>
        ensures ok { OnOk result (HasRoom self.new) }
        ensures same { (c : Config) (claims : List Claim) (bytes : ℕ) (grants : List DataGrant)
            → IsServiceOf c self.old claims bytes grants
            → IsServiceOf c self.new claims bytes grants }
    {
        self.waiting.reserve(1)?;
        let more = self.waiting.len() + 1;
        self.spread.reserve(more)
    }

    /// Counts a request, which waits.
    pub fn ask(&mut self, request: Request)
        requires may { (c : Config) × MayAsk c self.old request }
        requires room { HasRoom self.old }
        ensures { (c : Config) (claims : List Claim) (bytes : ℕ) (grants : List DataGrant)
            → IsServiceOf c self.old claims bytes grants
            → IsServiceOf c self.new (claims ++ waits_with grants
            (record { upto = bytes + request.bytes; heard = request.heard }) ∷ [])
            (bytes + request.bytes) grants }
    {
        let upto = self.asked + request.bytes;
        let heard = request.heard;
        self.waiting.push_back_reserved(Waiting { upto, heard });
        self.asks += 1;
        self.asked = upto;
    }

    /// Supersedes the requests that wait: none does then, and no more bytes were asked than were granted.
    pub fn supersede(&mut self)
        requires { (c : Config) × (claims : List Claim) × (bytes : ℕ) × (grants : List DataGrant)
            × IsServiceOf c self.old claims bytes grants × (length claims ≤ 2 ^ 44) }
        ensures superseded { (c : Config) (claims : List Claim) (bytes : ℕ) (grants : List DataGrant)
            → IsServiceOf c self.old claims bytes grants
            → IsServiceOf c self.new (map as_superseded claims) self.old.granted grants }
        ensures room { HasRoom self.old → HasRoom self.new }
    {
        self.replaced += self.unserved();
        self.waiting.clear();
        self.asked = self.granted;
    }

    /// Counts a data grant, and the delay of each request that it serves.
    pub fn grant(&mut self, config: &Checked, grant: Grant)
        requires { MayGrant config.now self.old grant }
        ensures { (claims : List Claim) (bytes : ℕ) (grants : List DataGrant)
            → IsServiceOf config.now self.old claims bytes grants
            → IsServiceOf config.now self.new
            (map (with_grants (grant ∷ [])) claims) bytes (grants ++ grant ∷ []) }
    {
        self.granted += u64::from(grant.bytes);
        let end = end_of(config, grant);
        while let Some(mark) = self.next_served() {
            let delay = end.saturating_sub(mark.heard);
            self.delays.add(delay);
            self.spread.add(delay);
        }
    }

    /// Forgets the requests, those that wait among them: what is told begins anew. Answers the bytes that were asked,
    /// and those granted.
    pub fn renew(&mut self) -> (u64, u64)
        requires { (c : Config) × (claims : List Claim) × (bytes : ℕ) × (grants : List DataGrant)
            × IsServiceOf c self.old claims bytes grants }
        ensures none { (c : Config) (claims : List Claim) (bytes : ℕ) (grants : List DataGrant)
            → IsServiceOf c self.old claims bytes grants → IsServiceOf c self.new [] bytes grants }
        ensures bytes { (c : Config) (claims : List Claim) (bytes : ℕ) (grants : List DataGrant)
            → IsServiceOf c self.old claims bytes grants
            → (result.0 ≡ bytes) × (result.1 ≡ bytes_of grants) × (result.1 ≤ result.0) }
        ensures within { result.1 ≤ result.0 }
    {
        self.asks = 0;
        self.replaced = 0;
        self.delays = Delays::none();
        self.spread.clear();
        self.waiting.clear();
        (self.asked, self.granted)
    }

    /// What there was of requests and grants.
    pub fn sums(&self) -> Sums
        ensures { (c : Config) (claims : List Claim) (bytes : ℕ) (grants : List DataGrant)
            → IsServiceOf c self.now claims bytes grants → AreSums c result claims bytes grants }
    {
        Sums {
            asks: self.asks,
            asked: self.asked,
            granted: self.granted,
            replaced: self.replaced,
            delays: self.delays,
        }
    }

    /// The bytes of the data grants.
    pub fn granted(&self) -> u64
        ensures { (c : Config) (claims : List Claim) (bytes : ℕ) (grants : List DataGrant)
            → IsServiceOf c self.now claims bytes grants → result ≡ bytes_of grants }
    {
        let granted = self.granted;
        granted
    }

    // How many delays there are of which no more than this is told.
    pub(crate) fn upto(&self, delay: u64) -> u64
        requires { (c : Config) × (claims : List Claim) × (bytes : ℕ) × (grants : List DataGrant)
            × IsServiceOf c self.now claims bytes grants × (length claims ≤ 2 ^ 44) }
        ensures counts { (c : Config) (claims : List Claim) (bytes : ℕ) (grants : List DataGrant)
            → IsServiceOf c self.now claims bytes grants
            → CountsUpto delay result (delays_of c claims) }
        ensures few { result ≤ 2 ^ 44 }
    {
        self.spread.upto(delay)
    }

    /// How many requests no data grant has served, and none has superseded.
    pub fn unserved(&self) -> u64
        ensures unserved { (c : Config) (claims : List Claim) (bytes : ℕ) (grants : List DataGrant)
            → IsServiceOf c self.now claims bytes grants → result ≡ unserved_of c claims }
        ensures waiting { result ≡ length self.now.waiting.items }
    {
        self.waiting.len() as u64
    }

    /// The minislot at which the first of those was heard, where there is one.
    pub fn first_heard(&self) -> Option<u64>
        ensures { (c : Config) (claims : List Claim) (bytes : ℕ) (grants : List DataGrant)
            → IsServiceOf c self.now claims bytes grants → result ≡ first_heard c claims }
    {
        first_of(&self.waiting)
    }

    // Takes out the first request that waits, where the granted bytes reach it.
    fn next_served(&mut self) -> Option<Waiting>
        ensures same { self.new ≡ record self.old { waiting = self.new.waiting } }
        ensures some { IfSome result (λ mark. mark.upto ≤ self.old.granted) }
        ensures taken { IfSome result
            (λ mark. self.old.waiting.items ≡ mark ∷ self.new.waiting.items) }
        ensures none { IfNone result (IsWaitingBehind self.old.granted self.old.waiting.items) }
        ensures kept { IfNone result (self.new.waiting.items ≡ self.old.waiting.items) }
        ensures less { IfSome result
            (λ mark. deque_len self.new.waiting + 1 ≡ deque_len self.old.waiting) }
        ensures few { deque_len self.new.waiting ≤ deque_len self.old.waiting }
    {
        if self.reaches_first() {
            self.waiting.pop_front()
        } else {
            None
        }
    }

    // Whether the granted bytes reach the first request that waits.
    fn reaches_first(&self) -> bool
        ensures reached { result ≡ true → IsReachedFirst self.now.granted self.now.waiting.items }
        ensures behind { result ≡ false → IsWaitingBehind self.now.granted self.now.waiting.items }
    {
        match self.waiting.front() {
            Some(first) => first.upto <= self.granted,
            None => false,
        }
    }
}

// The minislot at which the first of some requests was heard, where there is one.
fn first_of(waiting: &VecDeque<Waiting>) -> Option<u64>
    ensures { result ≡ least_of (map (λ w. w.heard) waiting.now.items) }
{
    let mut first = None;
    for place in 0..waiting.len() {
        first = Some(least_with(first, waiting[place].heard));
    }
    first
}

// The minislot at which a data grant ends.
fn end_of(config: &Checked, grant: Grant) -> u64
    requires lawful { IsLawful config.now }
    requires reach { grant.start < 2 ^ 63 }
    ensures value { result ≡ grant.start + slots_for config.now grant.bytes }
    ensures reach { result < 3 * 2 ^ 62 }
{
    grant.start + config.slots_for(grant.bytes)
}
