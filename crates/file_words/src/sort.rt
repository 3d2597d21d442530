//! The forms of each sort of object.

use json_fields::forms::{
    BURSTS, CALLS, CONFIGS, ENTRIES, FLOWS, Form, HISTORIES, Holds, Kind, LIST_OF_CALLS,
    LIST_OF_ENTRIES, LIST_OF_SCRIPTS, Member, Missing, PROFILES, REPLIES, SCRIPTS, STORMS, Sort,
};

/// The usages of a Reserve.
pub static USAGES: [&'static str; 6] = [
    "initial",
    "station",
    "initial_to",
    "request",
    "quiet",
    "data",
];

const CALL: Member = ("call", Holds::Name, Missing::Fault);

const USAGE: Member = ("usage", Holds::Name, Missing::Fault);

const SLOTS: Member = ("slots", Holds::Number(u32::MAX as u64), Missing::Fault);

// The members of a Reserve for all modems or for none. An SID beside them is a key that nobody reads.
static FOR_ALL_OR_NONE: [Member; 3] = [CALL, USAGE, SLOTS];

// The members of a Reserve for one modem.
static FOR_ONE: [Member; 4] = [
    CALL,
    USAGE,
    (
        "sid",
        Holds::Lawful(u16::MAX as u64, 1, 8191),
        Missing::Nothing,
    ),
    SLOTS,
];

/// The members of a Reserve of this usage, where its form says too little of them.
pub fn members_beside(usage: &str) -> Option<&'static [Member]> {
    match usage {
        "initial" | "quiet" => Some(&FOR_ALL_OR_NONE),
        "initial_to" | "station" | "data" => Some(&FOR_ONE),
        _ => None,
    }
}

/// Whether modems that send requests have this SID: one modem, those with traffic of some priorities, or all.
pub fn is_of_requests(sid: u64) -> bool {
    matches!(sid, 1..=8191 | 15873..=16127 | 16383)
}

/// The burst profile of requests, which may stand among burst descriptors: `check` and `bursts` alone read it.
pub const REQUEST: Member = ("request", Holds::Object(Sort::Profile), Missing::Nothing);

/// The forms that an object of this sort may have.
pub fn forms_of(sort: Sort) -> &'static [Form] {
    match sort {
        Sort::Document(Kind::Script) => &SCRIPTS,
        Sort::Document(Kind::Storm) => &STORMS,
        Sort::Document(Kind::History) => &HISTORIES,
        Sort::Config => &CONFIGS,
        Sort::Bursts => &BURSTS,
        Sort::Profile => &PROFILES,
        Sort::Entry => &ENTRIES,
        Sort::Call => &CALLS,
        Sort::Flow => &FLOWS,
        Sort::Reply => &REPLIES,
    }
}

/// The member of a document that has the calls, the scripts or the entries.
pub fn list_of(kind: Kind) -> Member {
    match kind {
        Kind::Script => LIST_OF_CALLS,
        Kind::Storm => LIST_OF_SCRIPTS,
        Kind::History => LIST_OF_ENTRIES,
    }
}

/// The key under which the name of the form stands, where there is more than one.
pub fn name_key(sort: Sort) -> Option<&'static str> {
    match sort {
        Sort::Call => Some("call"),
        Sort::Flow | Sort::Reply => Some("kind"),
        Sort::Document(_) | Sort::Config | Sort::Bursts | Sort::Profile | Sort::Entry => None,
    }
}

/// The first of these forms that has this name.
pub fn named(forms: &'static [Form], name: &str) -> Option<&'static Form> {
    for form in forms {
        if form.0 == name {
            return Some(form);
        }
    }
    None
}
