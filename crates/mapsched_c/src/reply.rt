//! A reply in plain numbers, a MAP as its bytes.

ghost use Rattle.std.specs.Prelude.{◌≡◌, ◌≤◌, length};
ghost use Rattle.map_codec.specs.WireMap.{IsWellFormed};
ghost use Rattle.sched_calls.specs.declared.reply.Reply.TheVariants.{Built, Flow, Refused};
ghost use Rattle.sched_calls.specs.Reply.{IsEncodable};
ghost use Rattle.mapsched_c.specs.Reply.{HasRoom, plain_reply, with_kind, with_placement};

use map_build::FrameMap;
use map_codec::{MAX_BYTES, encode};
use periodic::Placement;
use sched_history::{Refusal, Reply};
use sched_lines::{refusal_number, refusal_value};

/// The kinds of replies.
pub mod answer {
    /// Admitted, a best effort flow.
    pub const ADMITTED: u32 = 0;
    /// Admitted, a periodic flow with its placement.
    pub const PLACED: u32 = 1;

    /// The flow is forgotten.
    pub const REMOVED: u32 = 2;

    /// The request is counted.
    pub const TAKEN: u32 = 3;

    /// The progress of a receiver, the header of the next MAPs, or that a flow rests or wakes, is noted.
    pub const NOTED: u32 = 4;

    /// The MAP of the next frame, as its bytes.
    pub const BUILT: u32 = 5;

    /// The start of the frame that the next MAP describes.
    pub const SKIPPED: u32 = 6;

    /// A flow's bytes.
    pub const FLOW: u32 = 7;

    /// The call changes nothing.
    pub const REFUSED: u32 = 8;

    /// The opportunity waits for a MAP.
    pub const RESERVED: u32 = 9;

    /// Changed, a periodic flow with its placement, a best effort flow without starts.
    pub const CHANGED: u32 = 10;
}

/// The most starts of a placement: the most grants of one interval, in each frame of the longest cycle.
pub const MAX_STARTS: usize = 512;

/// A reply by its kind. The numbers that a kind has not are 0.
#[repr(C)]
#[derive(Drop)]
pub struct PlainReply {
    /// The number of its kind: one of [`answer`].
    pub kind: u32,
    /// The number of a refusal, from 1.
    pub refusal: u32,
    /// How many starts a placement has.
    pub starts_count: u32,
    /// How many bytes a MAP has.
    pub length: u32,
    /// A placement's reference, the start of a MAP's frame, the start of the next frame, or a refusal's value.
    pub value: u64,
    /// Bytes asked since the flow was admitted.
    pub asked: u64,
    /// Bytes granted since the flow was admitted.
    pub granted: u64,
    /// Bytes asked that are not granted.
    pub outstanding: u64,
    /// The starts of a placement. What stands behind them stays as it was.
    pub starts: [u16; MAX_STARTS],
    /// The bytes of a MAP. What stands behind them stays as it was.
    pub payload: [u8; MAX_BYTES],
}

impl PlainReply {
    // A reply of this kind without numbers.
    fn put_kind(&mut self, kind: u32)
        ensures { self.new ≡ with_kind self.old kind }
    {
        self.kind = kind;
        self.refusal = 0;
        self.starts_count = 0;
        self.length = 0;
        self.value = 0;
        self.asked = 0;
        self.granted = 0;
        self.outstanding = 0;
    }

    // A reply of this kind with the placement of a periodic flow.
    fn put_placement(&mut self, kind: u32, placement: &Placement)
        requires { length placement.now.starts ≤ MAX_STARTS }
        ensures { self.new ≡ with_placement self.old kind placement.now }
    {
        let starts = placement.starts.as_slice();
        self.put_kind(kind);
        self.value = placement.reference;
        self.starts_count = starts.len() as u32;
        self.starts[..starts.len()].copy_from_slice(starts);
    }

    // The reply to a build.
    fn put_map(&mut self, map: &FrameMap)
        requires { IsWellFormed map.now.wire }
        ensures { self.new ≡ plain_reply self.old (Built map.now) }
    {
        self.put_kind(answer::BUILT);
        self.value = map.start;
        self.length = encode(&map.wire, &mut self.payload) as u32;
    }

    // The bytes of a flow.
    fn put_flow(&mut self, asked: u64, granted: u64, outstanding: u64)
        ensures { self.new ≡ plain_reply self.old (Flow asked granted outstanding) }
    {
        self.put_kind(answer::FLOW);
        self.asked = asked;
        self.granted = granted;
        self.outstanding = outstanding;
    }

    // A refusal.
    fn put_refusal(&mut self, refusal: Refusal)
        ensures { self.new ≡ plain_reply self.old (Refused refusal) }
    {
        self.put_kind(answer::REFUSED);
        self.refusal = refusal_number(refusal) as u32;
        self.value = refusal_value(refusal).unwrap_or(0);
    }

    // Writes a reply over what stands here.
    pub(crate) fn put(&mut self, reply: &Reply)
        requires encodable { IsEncodable reply.now }
        requires room { HasRoom reply.now }
        ensures { self.new ≡ plain_reply self.old reply.now }
    {
        match reply {
            Reply::Admitted(None) => self.put_kind(answer::ADMITTED),
            Reply::Admitted(Some(placement)) => self.put_placement(answer::PLACED, placement),
            Reply::Changed(None) => self.put_kind(answer::CHANGED),
            Reply::Changed(Some(placement)) => self.put_placement(answer::CHANGED, placement),
            Reply::Removed => self.put_kind(answer::REMOVED),
            Reply::Taken => self.put_kind(answer::TAKEN),
            Reply::Noted => self.put_kind(answer::NOTED),
            Reply::Reserved => self.put_kind(answer::RESERVED),
            Reply::Built(map) => self.put_map(map),
            Reply::Skipped(next) => {
                self.put_kind(answer::SKIPPED);
                self.value = *next;
            }
            Reply::Flow {
                asked,
                granted,
                outstanding,
            } => self.put_flow(*asked, *granted, *outstanding),
            Reply::Refused(refusal) => self.put_refusal(*refusal),
        }
    }
}
