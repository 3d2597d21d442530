//! What every export answers, with the header's numbers.

/// Done; of a call: it was recorded.
pub const OK: u32 = 0;
/// The handle has no scheduler.
pub const EMPTY: u32 = 1;
/// The handle has a scheduler already.
pub const FULL: u32 = 2;
/// There is no such kind of call, or of flow. Nothing was recorded.
pub const BAD_CALL: u32 = 3;
/// As many entries are kept as the configuration allows, or the whole history has 2^44.
pub const HISTORY_FULL: u32 = 4;
/// Memory ran out.
pub const OUT_OF_MEMORY: u32 = 5;
/// The history has no entry of this number.
pub const NO_ENTRY: u32 = 6;
/// The room is shorter than the text, whose length is told.
pub const NO_ROOM: u32 = 7;
/// An entry of a history may not follow those before it.
pub const ILLEGAL: u32 = 8;
/// A text is longer than 16777216 bytes, or a payload than 976.
pub const TOO_LONG: u32 = 9;
/// A text is not JSON in UTF-8.
pub const NOT_JSON: u32 = 10;
/// A text is no history.
pub const NO_HISTORY: u32 = 11;
/// The worker has no ticket.
pub const NO_TICKET: u32 = 12;
/// The worker's ticket is not served yet.
pub const NOT_SERVED: u32 = 13;
/// The worker has a ticket.
pub const HAS_TICKET: u32 = 14;
/// No seat is with the worker.
pub const NO_SEAT: u32 = 15;
/// Other workers are left.
pub const WORKERS_OUT: u32 = 16;
/// There cannot be so many seats.
pub const BAD_SEATS: u32 = 17;
/// An entry was handed over or forgotten.
pub const HANDED_OVER: u32 = 18;
/// The worker is not in its turn.
pub const NO_TURN: u32 = 19;
/// The scheduler of the workplace keeps its whole history.
pub const KEEPS_ALL: u32 = 20;
/// No status or no refusal has this number.
pub const NO_WORDS: u32 = 21;
/// To this the number of the first fault of a payload is added, from 1.
pub const BAD_PAYLOAD: u32 = 200;
/// To this the number of the first fault of a MAP that has no bytes is added, from 1.
pub const BAD_MAP: u32 = 300;
/// To this the number of the first fault of bytes that are no request frame is added, from 1.
pub const BAD_REQUEST: u32 = 400;
/// To this the number of the first wrong field of a configuration is added, from 1.
pub const BAD_CONFIG: u32 = 100;
