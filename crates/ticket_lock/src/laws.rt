//! Laws over every table under the rule by which the lock's steps go, whatever the schedule. `atomic_table`
//! keeps the rule of a table between any two steps: at a `TicketLock`, `LockRule` about the lock's key.
ghost use Rattle.std.specs.Prelude.{◌≡◌, ℕ, List, [], ◌∷◌, Option};
ghost use mathlib.Core.Option.{some};
ghost use lib.ListN.{get_elem?};
ghost use Rattle.atomic_table.specs.Table.{State};
ghost use Rattle.ticket_core.specs.LockWorld.{LockWorld};
ghost use Rattle.ticket_lock.specs.declared.board.About.{About};
ghost use Rattle.ticket_lock.specs.declared.board.Key.{Key};
ghost use Rattle.ticket_lock.specs.declared.board.Logged.{Logged};
ghost use Rattle.ticket_lock.specs.declared.board.Part.{Part};
ghost use Rattle.ticket_lock.specs.declared.board.View.{View};
ghost use Rattle.ticket_lock.specs.Rule.{Stands, about_of};
ghost use Rattle.ticket_lock.specs.Laws.{HasOneHolder, RunsWithOneHolder, FollowsTheCore, RunsTheCore};

use crate::board::{Key, LockRule, View};
use crate::journal::Journal;
use crate::plays::{Draw, Leave, Look};
use atomic_table::{Play, TableRule};

/// At most one seat holds the lock, and the value is out of its slot exactly while one does: in every world
/// that a table under the rule stands for, and in every state that the rule of a running lock allows.
pub fn one_holder<T: Journal>()
    ensures holder { (a : About T.Head T.Entry) (w : LockWorld) (log : List (Logged T.Entry))
        (s : State (Option T) (View T.Head T.Entry))
        → Stands T.head T.entries T.stamp a w log s
        → HasOneHolder T.head T.entries T.stamp a w log s }
    ensures running { (key : Key T) (s : State (Option T) (View T.Head T.Entry))
        → ⟦<LockRule as TableRule<Option<T>, View<T::Head, T::Entry>, Key<T>>>⟧.holds key s
        → RunsWithOneHolder T.head T.entries T.stamp (about_of T.head T.entries key) s }
{}

/// Each step of a seat is one event of the lock's core, `ticket_core`: the fetch-and-add on `next` its draw,
/// the load of its ticket's word its look or its entry, the store of the next ticket its leave. The event can
/// be taken, and whatever step the table of a running lock allows there is that event.
pub fn follows_the_core<T: Journal>()
    ensures steps { (a : About T.Head T.Entry) (w : LockWorld) (log : List (Logged T.Entry))
        (s : State (Option T) (View T.Head T.Entry))
        (id : ℕ) (v : View T.Head T.Entry) (p : Part T.Entry)
        → Stands T.head T.entries T.stamp a w log s → get_elem? s.views id ≡ some v
        → v.parts ≡ p ∷ []
        → FollowsTheCore T.head T.entries T.stamp a w log s id v p }
    ensures running { (key : Key T)
        → RunsTheCore T.head T.entries T.stamp (about_of T.head T.entries key)
        (⟦<LockRule as TableRule<Option<T>, View<T::Head, T::Entry>, Key<T>>>⟧.holds key)
        ⟦<Draw as Play<Option<T>, View<T::Head, T::Entry>>>⟧.then
        ⟦<Look as Play<Option<T>, View<T::Head, T::Entry>>>⟧.then
        ⟦<Leave as Play<Option<T>, View<T::Head, T::Entry>>>⟧.then }
{}
