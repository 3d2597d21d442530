//! Tokens of the lock that are with a worker.
ghost use Rattle.std.specs.Prelude.{◌≡◌};
ghost use Rattle.sched_desk.specs.Calls.{IsEntered};
ghost use Rattle.worker_sched.specs.Workplace.{IsSchedulerOf};

use crate::workplace::Desk;
use sched_history::Scheduler;
use std::marker::Model;
use std::mem::ManuallyDrop;
use ticket_lock::{Held, Ticket};

/// A ticket that is with a worker. A ticket has no `Drop`. A worker has one, since a place in memory that is handed out
/// of the language asks for it, so this could be let go too. Then its turn never ends, and nobody enters any more: so
/// safe code makes no worker draw.
#[derive(Drop)]
pub struct Drawn {
    ticket: ManuallyDrop<Ticket<Desk>>,
}

impl Model for Drawn {
    ghost use Rattle.std.specs.Mem.{manually_drop_value};
    ghost use Rattle.sched_desk.specs.declared.event.Event.{Event};
    ghost use Rattle.sched_desk.specs.Desk.{FixedDesk};
    ghost use Rattle.ticket_lock.specs.Standing.{Standing};

    ghost Value = { Standing FixedDesk Event };

    ghost view = { λ d. manually_drop_value d.ticket };
}

impl Drawn {
    // The ticket, which a worker has from now on.
    pub(crate) fn of(ticket: Ticket<Desk>) -> Drawn
        ensures { result ≡ ticket }
    {
        // All that is asked is that it is taken out again, by `into_ticket`.
        let ticket = unsafe { ManuallyDrop::new_unchecked(ticket) };
        Drawn { ticket }
    }

    // The ticket itself.
    pub(crate) fn into_ticket(self) -> Ticket<Desk>
        ensures { result ≡ self }
    {
        let Drawn { ticket } = self;
        ManuallyDrop::into_inner(ticket)
    }
}

/// The desk that is with a worker in its turn. A worker that is let go with it never ends its turn, as one with a
/// ticket.
#[derive(Drop)]
pub struct Entered {
    held: ManuallyDrop<Held<Desk>>,
    desk: Desk,
}

impl Model for Entered {
    ghost use Rattle.std.specs.Mem.{manually_drop_value};
    ghost use Rattle.sched_desk.specs.declared.event.Event.{Event};
    ghost use Rattle.sched_desk.specs.Calls.{IsEntered};
    ghost use Rattle.sched_desk.specs.Desk.{FixedDesk};
    ghost use Rattle.ticket_lock.specs.Standing.{Standing};

    ghost Value = { Standing FixedDesk Event };

    ghost view = { λ e. manually_drop_value e.held };

    ghost invariant = { λ e. IsEntered (manually_drop_value e.held) e.desk };
}

impl Entered {
    // The desk as it was entered, which a worker has until it leaves.
    pub(crate) fn of(held: Held<Desk>, desk: Desk) -> Entered
        requires entered { IsEntered held desk }
        ensures { result ≡ held }
    {
        // All that is asked is that it is taken out again, by `into_parts`.
        let held = unsafe { ManuallyDrop::new_unchecked(held) };
        Entered { held, desk }
    }

    // The holder and the desk.
    pub(crate) fn into_parts(self) -> (Held<Desk>, Desk)
        ensures held { result.0 ≡ self }
        ensures entered { IsEntered result.0 result.1 }
    {
        let Entered { held, desk } = self;
        (ManuallyDrop::into_inner(held), desk)
    }

    // The scheduler of the desk.
    pub(crate) fn scheduler(&self) -> &Scheduler
        ensures { IsSchedulerOf self.now result.now }
    {
        self.desk.scheduler()
    }
}

// Lets the lock's last holder go, with whom no desk is any more: no ticket is served after this.
pub(crate) fn let_go(held: Held<Desk>) {
    let _held = unsafe { ManuallyDrop::new_unchecked(held) };
}
