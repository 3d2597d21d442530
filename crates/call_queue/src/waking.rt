//! Who may sleep since it was answered or called up, and how it is woken.
//!
//! Whoever leaves something says that it sleeps before it does, and then the kernel lets it sleep only if the word of
//! its tray still tells that nobody has taken that up. Whoever answers or calls up stores the word, and looks then
//! whether it sleeps. So either the kernel finds another word and does not let it sleep, or it is woken after the
//! store. `checks/leaving` takes these steps in every order.
ghost use Rattle.std.specs.Prelude.{◌≡◌, ◌+◌, ◌%◌, ◌^◌, ◌<◌, ◌≤◌, ◌==◌};
ghost use Rattle.std.specs.Int.{bit_at};
ghost use Rattle.std.specs.Int.RustNames.{bit_or};
ghost use Rattle.call_queue.specs.Tokens.{standing_of};
ghost use Rattle.call_queue.specs.declared.board.Doing.TheVariants.{Tells};

use crate::board::Place;
use crate::calling::Calling;
use crate::deal::Deal;
use crate::queue::CallQueue;
use crate::tray::Tray;
use std::marker::Model;
use std::sync::atomic::Ordering::SeqCst;
use ticket_lock::Journal;

/// What a thread has that has answered what was left on a tray, or called up whoever left it. It has no `Drop`, so it
/// has to wake that one.
#[must_use]
pub struct WakeDue<D: Deal> {
    place: Place<D>,
}

impl<D: Deal> Model for WakeDue<D> {
    ghost use Rattle.std.specs.Prelude.{◌≡◌};
    ghost use Rattle.call_queue.specs.Tokens.{Standing, standing_of};
    ghost use Rattle.call_queue.specs.declared.board.Doing.TheVariants.{Tells};

    ghost Value = { Standing D.About D.Left };

    ghost view = { λ d. standing_of d.place.table_id d.place.me.0 };

    ghost invariant = { λ d. d.place.me.0.doing ≡ Tells };
}

impl<D: Deal> WakeDue<D> {
    // That of a token that has told whoever left something to act.
    pub(crate) fn of(place: Place<D>) -> WakeDue<D>
        requires told { place.me.0.doing ≡ Tells }
        ensures same { result ≡ standing_of place.table_id place.me.0 }
    {
        WakeDue { place }
    }
}

impl<D: Deal> Tray<D> {
    /// Wakes whoever left something, if it sleeps.
    pub fn wake(&self, due: WakeDue<D>)
        requires own { due.tray ≡ self.now }
    {
        let WakeDue { place: _ } = due;
        self.rouse();
    }

    // Wakes whoever left something, if it sleeps.
    fn rouse(&self) {
        if self.asleep.load(SeqCst) != 0 {
            self.table.shared.wake_one(0);
        }
    }
}

// The seats whose wakes are due: bit i is that of seat i. It has no `Drop`, and ends where none is left.
#[must_use]
pub(crate) struct WakesDue {
    seats: u64,
}

// A seat whose wake is due alone. It has no `Drop`, so it has to be woken.
#[must_use]
pub(crate) struct Waking {
    number: u32,
}

// The lowest bit that is set.
fn lowest(seats: u64) -> u32
    requires some { 0 < seats }
    ensures set { bit_at seats result ≡ 1 }
    ensures within { 2 ^ result ≤ seats }
    ensures small { (result < 64) × (0 < 2 ^ result) × (2 ^ result < 2 ^ 64) }
{
    seats.trailing_zeros()
}

impl WakesDue {
    // No wake is due.
    pub(crate) fn none() -> WakesDue
        ensures none { result.seats ≡ 0 }
    {
        WakesDue { seats: 0 }
    }

    // Takes on the wake of the seat with this number.
    pub(crate) fn add<D: Deal>(&mut self, due: WakeDue<D>, number: u32)
        ensures added { self.new.seats ≡ bit_or self.old.seats (2 ^ (number % 64)) }
    {
        let WakeDue { place: _ } = due;
        self.seats |= 1 << (number % 64);
    }

    // Whether no wake is due.
    pub(crate) fn is_none(&self) -> bool
        ensures none { result ≡ (self.now.seats == 0) }
    {
        self.seats == 0
    }

    // Takes one seat out.
    pub(crate) fn take(&mut self) -> Waking
        requires some { 0 < self.old.seats }
        ensures due { bit_at self.old.seats result.number ≡ 1 }
        ensures rest { self.old.seats ≡ self.new.seats + 2 ^ result.number }
        ensures fewer { self.new.seats < self.old.seats }
    {
        let number = lowest(self.seats);
        self.seats -= 1 << number;
        Waking { number }
    }

    // Ends where none is left.
    pub(crate) fn end(self)
        requires none { self.seats ≡ 0 }
    {
        let WakesDue { seats: _ } = self;
    }
}

impl<T: Journal, C: Calling<T>> CallQueue<T, C> {
    // Wakes this seat, if it sleeps.
    pub(crate) fn rouse(&self, waking: Waking) {
        let Waking { number } = waking;
        if let Some(tray) = self.tray(number) {
            tray.rouse();
        }
    }
}
