//! The lock with its trays, and the calls through it.
ghost use Rattle.std.specs.Prelude.{◌≡◌, IfSome};
ghost use Rattle.std.specs.List.{All};

use crate::calling::Calling;
use crate::signs::Signs;
use crate::tray::Tray;
use crate::turns::Turns;
use std::alloc::Global;
use std::marker::Model;
use std::snapshot::Snapshot;
use std::sync::atomic::AtomicBool;
use std::sync::atomic::Ordering::SeqCst;
use ticket_lock::{Journal, TicketLock};

/// A ticket lock at which a seat that waits leaves its ticket with its call, and whoever holds makes it in its turn.
pub struct CallQueue<T: Journal, C: Calling<T>> {
    pub(crate) lock: TicketLock<T>,
    // By the seats' numbers, as far as there was memory.
    pub(crate) trays: Vec<Tray<Turns<T, C>>>,
    pub(crate) signs: Signs,
    // Whether the lock was given to somebody, who may take turns at it by hand.
    by_hand: AtomicBool,
}

// Clauses see the lock in it.
impl<T: Journal, C: Calling<T>> Model for CallQueue<T, C> {
    ghost use Rattle.std.specs.Prelude.{◌≡◌};
    ghost use Rattle.ticket_lock.specs.Standing.{Lock};
    ghost use Rattle.std.specs.List.{All};

    ghost Value = { Lock T.Head T.Entry };

    ghost view = { λ q. q.lock };

    ghost invariant = { λ q. All (λ t. t.about.value ≡ q.lock) q.trays.items };
}

// So many trays of this lock as there is memory for.
fn lay<T: Journal, C: Calling<T>>(
    alloc: Global,
    lock: &TicketLock<T>,
    seats: usize,
) -> Vec<Tray<Turns<T, C>>>
    ensures own { All (λ t. t.about.value ≡ lock.now) result.items }
{
    let about = Snapshot::of(lock);
    let mut trays = Vec::new(alloc);
    for _ in 0..seats {
        if trays.reserve(1).is_err() {
            break;
        }
        let Ok(tray) = Tray::open(alloc, &about) else {
            break;
        };
        trays.push_reserved(tray);
    }
    trays
}

impl<T: Journal, C: Calling<T>> CallQueue<T, C> {
    /// This lock, which nobody shares, with a tray for each of so many seats. Where there is no memory for one, its
    /// seat waits as at the lock alone.
    pub fn of(alloc: Global, lock: TicketLock<T>, seats: usize) -> CallQueue<T, C>
        ensures { result ≡ lock }
    {
        let trays = lay(alloc, &lock, seats);
        let signs = Signs::none(alloc);
        CallQueue {
            lock,
            trays,
            signs,
            by_hand: AtomicBool::new(false),
        }
    }

    /// The lock, for turns by hand. Who leaves by hand knows nothing of what was left here: from now on each seat waits
    /// as at the lock alone.
    pub fn lock(&self) -> &TicketLock<T>
        ensures { result.now ≡ self.now }
    {
        self.by_hand.store(true, SeqCst);
        &self.lock
    }

    /// The lock itself, which nobody shares any more.
    pub fn into_lock(self) -> TicketLock<T>
        ensures { result ≡ self }
    {
        let CallQueue {
            lock,
            trays: _,
            signs: _,
            by_hand: _,
        } = self;
        lock
    }

    // The tray on which the seat with this number may leave a ticket that it has drawn. If an earlier ticket was drawn
    // by hand, the lock was given before that, so none is left behind it.
    pub(crate) fn free_tray(&self, number: u32) -> Option<&Tray<Turns<T, C>>>
        ensures own { IfSome result (λ t. t.now.about.value ≡ self.now) }
    {
        if self.by_hand.load(SeqCst) {
            return None;
        }
        self.tray(number)
    }

    // The tray of the seat with this number, if it has one.
    pub(crate) fn tray(&self, number: u32) -> Option<&Tray<Turns<T, C>>>
        ensures own { IfSome result (λ t. t.now.about.value ≡ self.now) }
    {
        self.trays.get(number as usize)
    }
}
