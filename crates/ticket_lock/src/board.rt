//! The table that the seats of a lock share, and what a seat at it knows.
//! Word 0 is the ticket that is drawn next, and behind it lies the row of words by which the lock grants;
//! the slot has the value while no seat holds.
ghost use Rattle.std.specs.Prelude.{◌≡◌, ℕ};
ghost use Rattle.ticket_core.specs.LockWorld.{opened_world};
ghost use Rattle.ticket_lock.specs.Row.{place_of, WordsStand};

use crate::journal::Journal;
use atomic_table::{Seat, Shared, Table, TableRule};
use std::alloc::Global;
use std::collections::LinkedList;
use std::snapshot::Snapshot;
use ticket_core::{GRANTS, SeatState, World};

/// What a lock was opened about. No value of it is made.
pub struct About<H, E> {
    /// The head of the value, alone in a list.
    pub head: LinkedList<H>,
    /// The entries that the value had.
    pub opening: LinkedList<E>,
    /// How many seats were made.
    pub seats: u64,
    /// The first ticket.
    pub first: u64,
}

/// An entry past the opening list, with its whole ticket. No value of it is made.
pub struct Logged<E> {
    /// What was put behind the entries that the value had.
    pub entry: E,
    /// The ticket of the turn that put it there, counted on past 2^64.
    pub ticket: u64,
}

/// A seat's number, with the entries past the opening list that it has seen, and how many turns it has ended. No
/// value of it is made.
pub struct Part<E> {
    /// The seat's number, from 0.
    pub number: u64,
    /// The entries past the opening list that it has seen, in the order of their tickets.
    pub log: LinkedList<Logged<E>>,
    /// How many turns it has ended.
    pub turns: u64,
}

/// What a seat at the table knows. No value of it is made.
pub struct View<H, E> {
    /// None in a seat that was joined to another.
    pub about: Option<About<H, E>>,
    /// One, but for the seat of the opening and the one that others were joined to.
    pub parts: LinkedList<Part<E>>,
    /// What the seat does, with its whole ticket.
    pub state: SeatState,
    /// How many tickets it has drawn, and those that were joined to it.
    pub draws: u64,
    /// How often it has looked whether its ticket is served, and those that were joined to it.
    pub looks: u64,
}

/// What the table is told once.
#[derive(Drop)]
pub struct Key<T> {
    /// The value that the lock was opened with.
    pub value: Snapshot<T>,
    /// How many seats were made.
    pub seats: usize,
    /// The first ticket.
    pub first: u64,
}

/// How many words a cache line has. Each word that seats wait on has a line of its own: a store to one
/// takes it from the one seat that looks at it.
const LINE: usize = 8;

/// How many words the table has: a line for the ticket drawn next, and one for each word of the row.
pub const WORDS: usize = 520;

/// The word that has the ticket drawn next.
pub const NEXT: usize = 0;

/// The word that a seat with this ticket waits on.
pub fn place_of(ticket: u64) -> usize
    ensures place { result ≡ place_of ticket }
{
    ((ticket % GRANTS as u64) as usize + 1) * LINE
}

/// The words of a lock just opened, with this first ticket: the row has what the core's world grants.
pub fn opening_words(first: u64) -> [u64; WORDS]
    ensures words { (seats : ℕ) → WordsStand (opened_world seats first) result }
{
    let opened = World::open(1, first);
    let mut words = [0; WORDS];
    words[NEXT] = first;
    for index in 0..GRANTS {
        words[place_of(index as u64)] = opened.grant_word(index);
    }
    words
}

/// The rule of the table: what holds between its words, its slot and its seats.
pub struct LockRule;

impl<T: Journal> TableRule<Option<T>, View<T::Head, T::Entry>, Key<T>> for LockRule {
    ghost use Rattle.ticket_lock.specs.Rule.{Ruled, about_of, first_view};

    ghost holds = { λ key. Ruled T.head T.entries T.stamp (about_of T.head T.entries key) };

    ghost first = { λ key. first_view (about_of T.head T.entries key) };
}

/// The table: its slot has the value while no seat holds it.
pub type Board<T: Journal> = Table<Option<T>, View<T::Head, T::Entry>, Key<T>, LockRule, Global>;

/// What all seats share of the table.
pub type Steps<T: Journal> = Shared<Option<T>, View<T::Head, T::Entry>, Key<T>, LockRule>;

/// A seat at the table.
pub type Place<T: Journal> = Seat<Option<T>, View<T::Head, T::Entry>>;
