//! A worker in its turn: it looks at the scheduler, and ends the turn with what is kept let go, or with nothing
//! changed.
ghost use Rattle.std.specs.Prelude.{◌≡◌, option_copied};
ghost use Rattle.worker_sched.specs.Worker.{BeginsTurn, scheduler_of, EndsForgetting, EndsTurn};

use super::Worker;
use crate::drawn::{Drawn, Entered};
use crate::turning::Begin;
use sched_history::Scheduler;

impl Worker {
    /// Begins the worker's turn, if its ticket is served. Until it ends nobody else enters, so a worker in its turn
    /// ends it. One look, no wait.
    pub fn begin(&mut self) -> Begin
        ensures { BeginsTurn self.old self.new result }
    {
        let Some(drawn) = self.ticket.take() else {
            return Begin::NoTicket;
        };
        match self.place.enter(drawn.into_ticket()) {
            Ok((held, desk)) => {
                self.entered = Some(Entered::of(held, desk));
                Begin::Entered
            }
            Err(ticket) => {
                self.ticket = Some(Drawn::of(ticket));
                Begin::NotYet
            }
        }
    }

    /// The scheduler, at which a worker in its turn can look.
    pub fn scheduler(&self) -> Option<&Scheduler>
        ensures { option_copied result ≡ scheduler_of self.now }
    {
        let entered = self.entered.as_ref()?;
        Some(self.place.look(entered))
    }

    /// Lets go of the entries that are kept, and ends the turn: tells whether they were let go, which they are not
    /// where the scheduler keeps its whole history. A worker that is not in its turn does nothing.
    pub fn end_forgetting(&mut self) -> Option<bool>
        ensures { EndsForgetting self.old self.new result }
    {
        let entered = self.entered.take()?;
        let (held, desk) = entered.into_parts();
        let (seat, done) = self.place.forget_held(held, desk);
        self.seat = Some(seat);
        Some(done)
    }

    /// Ends the turn, and tells whether there was one. Nothing else changes.
    pub fn end(&mut self) -> bool
        ensures { EndsTurn self.old self.new result }
    {
        let Some(entered) = self.entered.take() else {
            return false;
        };
        let (held, desk) = entered.into_parts();
        self.seat = Some(self.place.leave_held(held, desk));
        true
    }
}
