//! The objects in the files that are read: which members each has, what must stand under their keys, and what is read
//! where one is missing. The readers take such objects and no others (`proofs/RowsForms.antt` here, in `call_reading`
//! and in `history_reading`), and the words on a file are made from these tables.

use minislots::MAX_ASK;

/// What stands under a key.
#[derive(Clone, Copy)]
pub enum Holds {
    /// A whole number from 0 to this.
    Number(u64),
    /// A whole number from 0 to the first. Where it is not from the second to the third, a call is refused, and burst
    /// descriptors are not lawful.
    Lawful(u64, u64, u64),
    /// An array of whole numbers, each from 0 to this.
    Numbers(u64),
    /// The payload of a MAP in hexadecimal.
    Payload,
    /// A text, which is the name of the object.
    Name,
    /// An object of this sort.
    Object(Sort),
    /// An array of objects.
    Objects,
    /// An array of arrays of objects: one, or more up to so many.
    Lists(usize),
}

/// What is read where a key is missing.
#[derive(Clone, Copy)]
pub enum Missing {
    /// That the object has not this form.
    Fault,
    /// That the object has not this form, unless `bursts` stands in it: there, nobody reads this member.
    UnlessBursts,
    /// That the object has not this form, unless `slots` stands in its place. Where both stand, it has not this form.
    UnlessSlots,
    /// That the object has not this form, unless `bytes` stands in its place. Where both stand, it has not this form.
    UnlessBytes,
    /// What stands under `long`.
    Long,
    /// Nothing.
    Nothing,
    /// Nothing, where each such member of the object is missing. Where one is there, all are.
    Together,
    /// This number.
    Number(u64),
}

/// A member of an object: its key, what stands there, and what is read where it is missing.
pub type Member = (&'static str, Holds, Missing);

/// The form of an object: the name that tells it among others of its sort, and the members in the order in which they
/// are told.
pub type Form = (&'static str, &'static [Member]);

/// The kinds of file that are read.
#[derive(Clone, Copy)]
pub enum Kind {
    /// The script of a run.
    Script,
    /// The script of a storm.
    Storm,
    /// A history.
    History,
}

/// The sorts of object in a file.
#[derive(Clone, Copy)]
pub enum Sort {
    /// The document of a file, which has one form.
    Document(Kind),
    /// A configuration, which has one form.
    Config,
    /// The burst descriptors of a configuration, which have one form.
    Bursts,
    /// A burst descriptor, which has one form.
    Profile,
    /// An entry of a history, which has one form.
    Entry,
    /// A call. The name of its form stands under `call`.
    Call,
    /// The flow of an admission or of a change. The name of its form stands under `kind`.
    Flow,
    /// A reply. The name of its form stands under `kind`.
    Reply,
}

const MUST: Missing = Missing::Fault;

const U8: Holds = Holds::Number(u8::MAX as u64);

const U32: Holds = Holds::Number(u32::MAX as u64);

const U64: Holds = Holds::Number(u64::MAX);

const MOST_U32: u64 = u32::MAX as u64;

/// The one form of a burst descriptor. The information and twice the parity are at most 255 together.
pub static PROFILES: [Form; 1] = [(
    "",
    &[
        ("preamble", Holds::Lawful(MOST_U32, 0, 1536), MUST),
        ("guard", Holds::Lawful(MOST_U32, 0, 255), MUST),
        ("bits", Holds::Lawful(MOST_U32, 1, 8), MUST),
        ("parity", Holds::Lawful(MOST_U32, 0, 16), MUST),
        ("information", Holds::Lawful(MOST_U32, 16, 253), MUST),
        ("shortened", Holds::Lawful(MOST_U32, 0, 1), MUST),
    ],
)];

const PROFILE: Holds = Holds::Object(Sort::Profile);

/// The one form of burst descriptors.
pub static BURSTS: [Form; 1] = [(
    "",
    &[
        ("symbols", Holds::Lawful(MOST_U32, 1, 4096), MUST),
        ("short", PROFILE, MUST),
        ("long", PROFILE, MUST),
        ("unsolicited", PROFILE, Missing::Long),
    ],
)];

/// The one form of a configuration. All its members but the last two can be wrong, and stand by the numbers of their
/// faults.
pub static CONFIGS: [Form; 1] = [(
    "",
    &[
        ("ticks", U32, MUST),
        ("bytes_per_slot", U32, Missing::UnlessBursts),
        ("overhead", U32, Missing::UnlessBursts),
        ("frame", U32, MUST),
        ("cycle", U32, MUST),
        ("req_slots", U32, MUST),
        ("poll_slots", U32, MUST),
        ("lead", U32, MUST),
        ("short_max", U32, MUST),
        ("quantum", U32, MUST),
        ("grant_cap", U32, MUST),
        ("receivers", U8, MUST),
        ("calls", U32, MUST),
        ("start", U64, MUST),
        ("ranging_start", U8, MUST),
        ("ranging_end", U8, MUST),
        ("data_start", U8, MUST),
        ("data_end", U8, MUST),
        ("phy", U8, Missing::Number(0)),
        ("bursts", Holds::Object(Sort::Bursts), Missing::Nothing),
        ("flows", U32, Missing::Number(64)),
        ("pending", U32, Missing::Number(64)),
        ("periodic", U32, Missing::Number(40)),
        ("open_idle", U8, Missing::Number(0)),
        ("settle", U32, Missing::Number(0)),
        ("channel", U8, MUST),
        ("ucd_count", U8, MUST),
    ],
)];

const CONFIG: Member = ("config", Holds::Object(Sort::Config), MUST);

/// The calls of a script.
pub const LIST_OF_CALLS: Member = ("calls", Holds::Objects, MUST);

/// The scripts of a storm.
pub const LIST_OF_SCRIPTS: Member = ("scripts", Holds::Lists(16), MUST);

/// The entries of a history.
pub const LIST_OF_ENTRIES: Member = ("entries", Holds::Objects, MUST);

/// The one form of a script.
pub static SCRIPTS: [Form; 1] = [("", &[CONFIG, LIST_OF_CALLS])];

/// The one form of the script of a storm.
pub static STORMS: [Form; 1] = [("", &[CONFIG, LIST_OF_SCRIPTS])];

/// The one form of a history.
pub static HISTORIES: [Form; 1] = [("", &[CONFIG, LIST_OF_ENTRIES])];

const CALL: Member = ("call", Holds::Name, MUST);

const SID: Member = ("sid", Holds::Lawful(u16::MAX as u64, 1, 8191), MUST);

const FLOW: Member = ("flow", Holds::Object(Sort::Flow), MUST);

const RECEIVER: Member = ("receiver", U8, MUST);

const BYTES: Member = (
    "bytes",
    Holds::Lawful(u32::MAX as u64, 1, MAX_ASK as u64),
    Missing::UnlessSlots,
);

// What is left to wait for may be nothing.
const BYTES_LEFT: Member = (
    "bytes",
    Holds::Lawful(u32::MAX as u64, 0, MAX_ASK as u64),
    Missing::UnlessSlots,
);

const SLOTS_ASKED: Member = ("slots", U32, Missing::UnlessBytes);

const HEARD: Member = ("heard", U64, MUST);

const UPTO: Member = ("upto", U64, MUST);

const NOW: Member = ("now", Holds::Lawful(u64::MAX, 0, 1 << 60), MUST);

const USAGE: Member = ("usage", Holds::Name, MUST);

// For the modems of one SID, which is that of all of them at the most. Which SIDs are lawful, the usage says.
const SID_OF_USAGE: Member = (
    "sid",
    Holds::Lawful(u16::MAX as u64, 1, 16383),
    Missing::Nothing,
);

const SLOTS: Member = ("slots", U32, MUST);

const EXPONENT: Holds = Holds::Lawful(u8::MAX as u64, 0, 15);

/// The most forms that a sort has.
pub const MOST_FORMS: usize = 13;

/// The forms of a call.
pub static CALLS: [Form; MOST_FORMS] = [
    ("admit", &[CALL, SID, FLOW]),
    ("remove", &[CALL, SID]),
    ("ask", &[CALL, RECEIVER, SID, BYTES, SLOTS_ASKED, HEARD]),
    ("heard", &[CALL, RECEIVER, UPTO]),
    ("build", &[CALL, NOW]),
    ("skip", &[CALL, NOW]),
    ("status", &[CALL, SID]),
    ("reserve", &[CALL, USAGE, SID_OF_USAGE, SLOTS]),
    (
        "header",
        &[
            CALL,
            ("ucd_count", U8, MUST),
            ("ranging_start", EXPONENT, MUST),
            ("ranging_end", EXPONENT, MUST),
            ("data_start", EXPONENT, MUST),
            ("data_end", EXPONENT, MUST),
        ],
    ),
    (
        "replace",
        &[CALL, RECEIVER, SID, BYTES_LEFT, SLOTS_ASKED, HEARD],
    ),
    ("change", &[CALL, SID, FLOW]),
    ("rest", &[CALL, SID]),
    ("wake", &[CALL, SID]),
];

const KIND: Member = ("kind", Holds::Name, MUST);

const SIZE: Member = ("size", U32, MUST);

const INTERVAL: Member = ("interval_us", U32, MUST);

const JITTER: Member = ("jitter_us", U32, MUST);

const GRANTS: Member = (
    "grants",
    Holds::Lawful(u8::MAX as u64, 1, 8),
    Missing::Number(1),
);

const PRIORITY: Member = ("priority", Holds::Lawful(u8::MAX as u64, 0, 7), MUST);

const RATE: Member = ("rate", U32, MUST);

const BURST: Member = ("burst", U32, MUST);

const PEAK: Member = ("peak", U32, Missing::Number(0));

const RESERVED: Member = ("reserved", U32, Missing::Number(0));

const RESERVED_BURST: Member = ("reserved_burst", U32, Missing::Number(0));

/// The forms of a flow.
pub static FLOWS: [Form; 3] = [
    ("unsolicited", &[KIND, SIZE, INTERVAL, JITTER, GRANTS]),
    ("polled", &[KIND, INTERVAL, JITTER, RATE, BURST, PEAK]),
    (
        "best_effort",
        &[KIND, PRIORITY, RATE, BURST, PEAK, RESERVED, RESERVED_BURST],
    ),
];

/// The one form of an entry.
pub static ENTRIES: [Form; 1] = [(
    "",
    &[
        ("seat", U32, MUST),
        ("ticket", U64, MUST),
        ("call", Holds::Object(Sort::Call), MUST),
        ("reply", Holds::Object(Sort::Reply), MUST),
    ],
)];

const REFERENCE: Member = ("reference", U64, Missing::Together);

const STARTS: Member = ("starts", Holds::Numbers(u16::MAX as u64), Missing::Together);

const START: Member = ("start", U64, MUST);

const ACK: Member = ("ack", U64, MUST);

const HEX: Member = ("hex", Holds::Payload, MUST);

const EACH_BYTES: Member = ("bytes", Holds::Numbers(u32::MAX as u64), MUST);

const NEXT: Member = ("next", U64, MUST);

const ASKED: Member = ("asked", U64, MUST);

const GRANTED: Member = ("granted", U64, MUST);

const OUTSTANDING: Member = ("outstanding", U64, MUST);

const NUMBER: Member = ("number", U64, MUST);

const VALUE: Member = ("value", U64, Missing::Nothing);

/// The forms of a reply.
pub static REPLIES: [Form; 10] = [
    ("admitted", &[KIND, REFERENCE, STARTS]),
    ("removed", &[KIND]),
    ("taken", &[KIND]),
    ("noted", &[KIND]),
    ("map", &[KIND, START, ACK, HEX, EACH_BYTES]),
    ("skipped", &[KIND, NEXT]),
    ("flow", &[KIND, ASKED, GRANTED, OUTSTANDING]),
    ("refused", &[KIND, NUMBER, VALUE]),
    ("reserved", &[KIND]),
    ("changed", &[KIND, REFERENCE, STARTS]),
];
