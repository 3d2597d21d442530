//! The law of the acknowledge times and pending grants of MAPs.

ghost use Rattle.laws.specs.Waiting.{IsEveryWait};

/// The law of the acknowledge times and pending grants of the MAPs of a legal history, however many flows wait. The
/// acknowledge time of a MAP is at most the least progress of all receivers, and is that where no more flows wait after
/// the MAP than it may show by pending grants; it never falls from one MAP to a later one. Each request that waits
/// after a MAP and was heard before its acknowledge time is of a flow with a pending grant in it: none seems lost.
pub fn every_wait()
    ensures kept { IsEveryWait }
{}
