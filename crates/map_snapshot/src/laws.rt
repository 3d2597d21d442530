//! What the clauses of a reader mean for whoever reads.
ghost use Rattle.map_snapshot.specs.Laws.{NeverFalls, StaysRead, StandsAtItsVersion};

/// A law of lists: of two, the longer beginning with the shorter, the newest of the longer has no lower version, and
/// where the longer has none the shorter is empty. So the version that a reader reads never falls, and once it has
/// read a map it never reads none.
pub fn never_goes_back()
    ensures versions { NeverFalls }
    ensures some { StaysRead }
{}

/// A law of lists: the newest map of one stands at its version, counted from 1, in each list that begins with that
/// one. So a map that was read stands at its version in all that the reader knows later, and in the list of its
/// press wherever the caller has that this list begins with what the reader knows.
#[tactic(auto, using(crate::proofs::Growing::stands))]
pub fn stands_at_its_version()
    ensures stands { StandsAtItsVersion }
{}
