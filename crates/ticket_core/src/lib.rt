//! The core of a ticket lock (Mellor-Crummey and Scott, 1991): its two words, the state of each seat,
//! and one step of one seat at a time.
#![tactic(auto)]

ghost use Rattle.std.specs.Prelude.{◌≡◌, ◌≤◌, ◌<◌, ℕ, List, Some, None, IsTrue, false, length};
ghost use Rattle.ticket_core.specs.LockWorld.{LockWorld, opened_world, state_of, world_after, IsLawful};
ghost use Rattle.ticket_core.specs.Schedule.{Move, opened_run, run_all, KeepsTurns};
ghost use Rattle.ticket_core.specs.World.{words_of, shown_state, StandForLawful};
ghost use Rattle.ticket_core.specs.Grants.{ShowsGrant, TellsTurns};

use std::marker::Model;

/// The most seats that a lock has. So at most this many tickets are in flight, and a word of 64 bits
/// names one of them.
pub const MAX_SEATS: usize = 64;

/// How many words the row of grants has. Each ticket in flight has a word of its own, since there are as
/// many as seats; and the words count on over 2^64, since they divide it.
pub const GRANTS: usize = 64;

/// What a seat may do next.
#[derive(Clone, Copy)]
pub enum Step {
    /// An idle seat draws the next ticket and waits with it: a fetch-and-add on `next`.
    Draw,
    /// A waiting seat finds that an earlier ticket is served: a load of its ticket's word.
    Look,
    /// A waiting seat finds that its ticket is served, and holds the lock: a load of its ticket's word.
    Enter,
    /// The holder gives the lock up, and is idle: a store of the next ticket into that ticket's word.
    Leave,
}

/// What a seat does. A ticket is shown modulo 2^64.
#[derive(Clone, Copy)]
pub enum SeatState {
    /// The seat has no ticket.
    Idle,
    /// The seat has drawn this ticket and has not entered.
    Waiting(u64),
    /// The seat has entered with this ticket and has not left.
    Holding(u64),
}

/// The words of a ticket lock, with the state of each of its seats.
///
/// Tickets are whole numbers that never run out, and the words hold them modulo 2^64.
#[derive(Drop)]
pub struct World {
    serving: u64,
    next: u64,
    seats: usize,
    states: [SeatState; MAX_SEATS],
}

// Clauses see the words and the states of the seats that there are.
impl Model for World {
    ghost use Rattle.std.specs.Prelude.{◌≤◌};
    ghost use Rattle.ticket_core.specs.declared.TheConstants.{MAX_SEATS};
    ghost use Rattle.ticket_core.specs.World.{Words, words_with, StandForLawful};

    ghost Value = { Words };

    ghost view = { λ w. words_with w.serving w.next w.seats w.states };

    ghost invariant = { λ w. (w.seats ≤ MAX_SEATS)
        × StandForLawful (words_with w.serving w.next w.seats w.states) };
}

impl World {
    /// A lock just opened, with this many idle seats, whose first ticket is `first`.
    pub fn open(seats: usize, first: u64) -> World
        requires some { 1 ≤ seats }
        requires room { seats ≤ MAX_SEATS }
        ensures opened { result ≡ words_of (opened_world seats first) }
        ensures seats { length result.shown ≡ seats }
    {
        let states = [SeatState::Idle; MAX_SEATS];
        World {
            serving: first,
            next: first,
            seats,
            states,
        }
    }

    /// Takes one step of one seat. Answers whether the seat could take it.
    pub fn step(&mut self, seat: usize, step: Step) -> bool
        // Whatever lawful world the words stand for, they stand for the one after the step.
        ensures taken { (w after : LockWorld) → IsLawful w → self.old ≡ words_of w
            → world_after w seat step ≡ Some after → IsTrue result × (self.new ≡ words_of after) }
        ensures not_taken { (w : LockWorld) → IsLawful w → self.old ≡ words_of w
            → world_after w seat step ≡ None → (result ≡ false) × (self.new ≡ self.old) }

        // There is such a world, and a step makes no seat and removes none.
        ensures lawful { StandForLawful self.old }
        ensures seats { length self.new.shown ≡ length self.old.shown }
    {
        if seat >= self.seats {
            return false;
        }
        match (self.states[seat], step) {
            (SeatState::Idle, Step::Draw) => {
                self.states[seat] = SeatState::Waiting(self.next);
                self.next = self.next.wrapping_add(1);
                true
            }
            (SeatState::Waiting(ticket), Step::Look) => ticket != self.serving,
            (SeatState::Waiting(ticket), Step::Enter) => {
                if ticket != self.serving {
                    return false;
                }
                self.states[seat] = SeatState::Holding(ticket);
                true
            }
            (SeatState::Holding(_), Step::Leave) => {
                self.states[seat] = SeatState::Idle;
                self.serving = self.serving.wrapping_add(1);
                true
            }
            _ => false,
        }
    }

    /// What a seat does.
    pub fn state(&self, seat: usize) -> SeatState
        requires { seat < length self.now.shown }
        ensures shows { (w : LockWorld) → self.now ≡ words_of w
            → result ≡ shown_state (state_of w seat) }
        ensures lawful { StandForLawful self.now }
    {
        let shown = &self.states;
        shown[seat]
    }

    /// The word of this index in the row of grants of a partitioned lock: the latest ticket served that
    /// leaves the index on division by 64, modulo 2^64.
    pub fn grant_word(&self, index: usize) -> u64
        requires { index < 64 }
        ensures grant { ShowsGrant self.now index result }
        ensures tells { TellsTurns self.now index result }
        ensures lawful { StandForLawful self.now }
    {
        let past = self.serving.wrapping_sub(index as u64) % GRANTS as u64;
        self.serving.wrapping_sub(past)
    }
}

/// The law of the lock over every schedule: whatever the number of seats and the first ticket, and
/// whichever seats try whichever steps in whichever order, a step that cannot be taken being passed
/// over. The world stays lawful, at most one seat holds, its ticket is the least in flight, and seats
/// enter with the first ticket, the one after it, and so on.
pub fn every_schedule()
    ensures turns { (seats first : ℕ) (moves : List Move)
        → KeepsTurns first (run_all (opened_run seats first) moves) }
{}
