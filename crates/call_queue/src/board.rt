//! The table of a tray, and what a token at it knows. Word 0 tells what lies there, and the slot has it.
use crate::deal::Deal;
use crate::slip::Kept;
use atomic_table::{Seat, Shared, Table, TableRule};
use std::alloc::Global;
use std::collections::LinkedList;
use std::marker::PhantomData;

/// What a token does. No value of it is made.
pub enum Doing<L> {
    Nothing,
    /// It has the slot to itself.
    Claims,
    /// It left this there.
    Waits(L),
    /// It took this up, and is to answer it.
    Serves(L),
    /// It has told whoever left something to act, who may sleep.
    Tells,
}

/// What a token knows. No value of it is made.
pub struct View<A, L> {
    /// What the tray was told when it was opened.
    pub about: A,
    /// What the token does there.
    pub doing: Doing<L>,
    /// What it looked for in the word and did not find, the last first.
    pub missed: LinkedList<u64>,
}

/// How many words the table has: two cache lines, so that trays do not share one.
pub const WORDS: usize = 16;

/// Nothing lies on the tray.
pub const VACANT: u64 = 0;

/// Somebody has it to himself.
pub const CLAIMED: u64 = 1;

/// Something was left, which nobody has taken up.
pub const WAITING: u64 = 2;

/// It was taken up.
pub const TAKEN: u64 = 3;

/// It was answered.
pub const ANSWERED: u64 = 4;

/// Something was left, and whoever left it is to take it back.
pub const CALLED: u64 = 5;

/// The rule of a tray.
pub struct TrayRule<D: Deal> {
    of: PhantomData<D>,
}

impl<D: Deal> TableRule<Lying<D>, View<D::About, D::Left>, D::About> for TrayRule<D> {
    ghost use Rattle.call_queue.specs.Spot.{Ruled, idle_view};

    ghost holds = { λ about. Ruled D.fits D.answers about };

    ghost first = { idle_view };
}

/// What lies in the slot of a tray, if anything does.
pub type Lying<D: Deal> = Option<Kept<D::Left, D::Back>>;

/// The table of a tray.
pub type Board<D: Deal> = Table<Lying<D>, View<D::About, D::Left>, D::About, TrayRule<D>, Global>;

/// What the tokens of a tray share of its table.
pub type Steps<D: Deal> = Shared<Lying<D>, View<D::About, D::Left>, D::About, TrayRule<D>>;

/// A token at the table of a tray.
pub type Place<D: Deal> = Seat<Lying<D>, View<D::About, D::Left>>;
