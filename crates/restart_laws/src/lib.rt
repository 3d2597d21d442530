//! The law of restarts: how a history goes on is told by its state.
#![tactic(auto)]

ghost use Rattle.restart_laws.specs.Restart.{IsEveryRestart};

/// The law of restarts. After a legal history a reply may follow a call exactly where it may follow the history's
/// state, whose flows each carry one grant in the place of all that they were granted; what it leaves there is the
/// state of the history with that entry. So two histories with one state go on alike for ever. The state is possible,
/// where the history has at most so many entries as a whole one may have.
pub fn every_restart()
    ensures { IsEveryRestart }
{}
