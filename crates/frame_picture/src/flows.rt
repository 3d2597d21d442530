//! Which flows are unsolicited, along a history.

ghost use Rattle.std.specs.Prelude.{◌≡◌, ◌<◌, ◌++◌, ◌∷◌, [], List};
ghost use Rattle.sched_calls.specs.declared.reply.Entry.{Entry};
ghost use Rattle.frame_picture.specs.declared.flows.TheConstants.{SIDS};
ghost use Rattle.frame_picture.specs.Frames.{is_unsolicited, TellsUnsolicited};
ghost use Rattle.frame_picture.specs.Turns.{turn_of};

use flow_book::FlowSpec;
use sched_history::{Call, Entry, Reply};

// How many SIDs there are.
const SIDS: usize = 65536;

/// Whether the flow that lives under each SID is unsolicited.
pub type Flows = [bool; SIDS];

// Whether a flow with these parameters is unsolicited.
fn is_unsolicited(spec: FlowSpec) -> bool
    ensures { result ≡ is_unsolicited spec }
{
    matches!(spec, FlowSpec::Unsolicited { .. })
}

// The SID whose flow begins or ends with an entry, and whether it is unsolicited then.
fn turn_of(entry: &Entry) -> Option<(u16, bool)>
    ensures { result ≡ turn_of entry.now.call entry.now.reply }
{
    match (entry.call, &entry.reply) {
        (Call::Admit(sid, spec), Reply::Admitted(_)) => Some((sid, is_unsolicited(spec))),
        (Call::Remove(sid), Reply::Removed) => Some((sid, false)),
        _ => None,
    }
}

// The place of a SID among the flows.
fn place_of(sid: u16) -> usize
    ensures value { result ≡ sid }
    ensures small { result < SIDS }
{
    usize::from(sid)
}

/// What is known before any entry: no flow is unsolicited.
pub fn no_flows() -> Flows
    ensures { TellsUnsolicited result [] }
{
    [false; SIDS]
}

/// Notes what an entry changes.
pub fn note(flows: &mut Flows, entry: &Entry)
    ensures { (h : List Entry)
        → TellsUnsolicited flows.old h → TellsUnsolicited flows.new (h ++ entry.now ∷ []) }
{
    if let Some((sid, unsolicited)) = turn_of(entry) {
        flows[place_of(sid)] = unsolicited;
    }
}
