//! The present of a history: what is kept of it, beside the ledger of its entries.

use super::state::State;
use crate::ledger::Ledger;
use std::marker::Model;

// What is kept of a history, and the entries that it is kept of. Contracts see the configuration and the entries.
#[derive(Drop)]
pub(crate) struct Present<'a> {
    pub(crate) state: &'a State,
    pub(crate) ledger: &'a Ledger,
}

impl<'a> Model for Present<'a> {
    ghost use Rattle.sched_history.specs.Machine.{Past};
    ghost use Rattle.sched_history.specs.State.{IsKeptOf};

    ghost Value = { Past };

    ghost view = { λ p. record { config = p.state.now.config; history = p.ledger.now } };

    ghost invariant = { λ p. IsKeptOf p.state.now p.ledger.now };
}
