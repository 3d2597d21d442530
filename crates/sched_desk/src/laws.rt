//! The law of the lock, at the desk.
ghost use Rattle.std.specs.Prelude.{List, Option};
ghost use Rattle.atomic_table.specs.Table.{State};
ghost use Rattle.ticket_core.specs.LockWorld.{LockWorld};
ghost use Rattle.ticket_lock.specs.declared.board.About.{About};
ghost use Rattle.ticket_lock.specs.declared.board.Key.{Key};
ghost use Rattle.ticket_lock.specs.declared.board.Logged.{Logged};
ghost use Rattle.ticket_lock.specs.declared.board.View.{View};
ghost use Rattle.ticket_lock.specs.Rule.{Stands, Ruled, about_of};
ghost use Rattle.ticket_lock.specs.Laws.{HasOneHolder, RunsWithOneHolder};
ghost use Rattle.sched_desk.specs.declared.event.Event.{Event};
ghost use Rattle.sched_desk.specs.Desk.{DeskState, FixedDesk, fixed_of, events_of};
ghost use Rattle.sched_desk.specs.Events.{author_of};

use crate::desk::Desk;
use sched_history::Scheduler;

/// At most one seat holds the lock round a desk, and the desk is out of the lock exactly while one does: in
/// every world that a table under the rule stands for, and in every state that the rule of a running lock
/// allows.
pub fn one_holder()
    ensures holder { (a : About FixedDesk Event) (w : LockWorld) (log : List (Logged Event))
        (s : State (Option DeskState) (View FixedDesk Event))
        → Stands fixed_of events_of author_of a w log s
        → HasOneHolder fixed_of events_of author_of a w log s }
    ensures running { (key : Key DeskState) (s : State (Option DeskState) (View FixedDesk Event))
        → Ruled fixed_of events_of author_of (about_of fixed_of events_of key) s
        → RunsWithOneHolder fixed_of events_of author_of (about_of fixed_of events_of key) s }
{
    ticket_lock::one_holder::<Desk<Scheduler>>()
}
