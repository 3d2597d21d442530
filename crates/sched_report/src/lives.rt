//! The lives of all flows of a history, in the order of their admissions.

ghost use Rattle.std.specs.Prelude.{◌≡◌, ◌<◌, ◌^◌, ◌++◌, ◌∷◌, [], List, ℕ, map, length, sum_by, slice_index, slice_set};
ghost use Rattle.sched_history.specs.History.{IsLegal};
ghost use Rattle.std.specs.Prelude.{OnOk, OnErr, vec_len, vec_capacity};
ghost use Rattle.std.specs.List.{cons_option, filter_map, zip};
ghost use Rattle.minislots.specs.declared.config.Config.{Config};
ghost use Rattle.map_drawing.specs.Allocation.{allocations_of};
ghost use Rattle.sched_calls.specs.declared.reply.Entry.{Entry as Recorded};
ghost use Rattle.sched_history.specs.Facts.{IsOrderly, HasFront};
ghost use Rattle.sched_history.specs.Life.{grant_by, grants_of_map};
ghost use Rattle.sched_history.specs.Time.{next_after};
ghost use Rattle.sched_report.specs.Granted.{HaveMore, MayGrantEach, MayCountEach};
ghost use Rattle.sched_report.specs.Live.{AreLive, HaveRoomFor, IsAlone};
ghost use Rattle.sched_report.specs.Lives.{PastLife, opening_by, life_begun, lives_in, with_entry};
ghost use Rattle.sched_report.specs.Lives.{IsRequest, IsOpening};
ghost use Rattle.sched_report.specs.Named.{HasNoMap};
ghost use Rattle.sched_report.specs.Said.{unsolicited_at, unsolicited_of_map};
ghost use Rattle.sched_report.specs.ToldLives.{AreLives, MayNoteEach, MeetsEach, HasOrderlyMap, AddsToReport};
ghost use Rattle.sched_report.specs.ToldLives.{MayFollow};

use crate::life::LifeTally;
use crate::named::named_by;
use flow_book::FlowSpec;
use map_build::FrameMap;
use map_codec::Element;
use map_drawing::{Allocation, allocation_at, front_len};
use minislots::Checked;
use sched_history::{Call, Entry, Met, Reply};
use std::alloc::{AllocError, Global};

// The SID and the parameters of an accepted admission.
#[derive(Clone, Copy)]
pub(crate) struct Opening {
    sid: u16,
    spec: FlowSpec,
}

// The place that a table has for a SID.
pub(crate) fn place_under(places: &[usize], sid: u16) -> usize
    requires { length places.now ≡ 65536 }
    ensures { result ≡ slice_index places.now sid }
{
    places[usize::from(sid)]
}

// Notes the place of the life that goes on under a SID.
fn note_place(places: &mut [usize], sid: u16, place: usize)
    requires { length places.old ≡ 65536 }
    ensures { places.new ≡ slice_set places.old sid place }
{
    places[usize::from(sid)] = place;
}

// Takes memory for the request that an entry is, in the life that goes on and asks it. What is told stays.
pub(crate) fn reserve_each(
    lives: &mut [LifeTally],
    places: &[usize],
    config: &Checked,
    entry: &Entry,
) -> Result<(), AllocError>
    requires { AreLive places.now lives.old }
    ensures ok { OnOk result (HaveRoomFor config.now entry.now.call entry.now.reply lives.new) }
    ensures same { (c : Config) (ls : List PastLife) → AreLives c lives.old ls
        → AreLives c lives.new ls }
    ensures live { AreLive places.now lives.new }
{
    let Some(sid) = named_by(entry) else {
        return Ok(());
    };
    let place = place_under(places, sid);
    if place >= lives.len() {
        return Ok(());
    }
    lives[place].reserve_for(config, entry)
}

// Counts an element with this byte count, in a MAP that starts there, in the life to which it is a data grant.
fn grant_at(
    lives: &mut [LifeTally],
    places: &[usize],
    config: &Checked,
    start: u64,
    element: Element,
    bytes: u32,
)
    requires start { start < 2 ^ 62 }
    requires live { AreLive places.now lives.old }
    requires granted { MayGrantEach config.now
        (λ sid. cons_option (grant_by sid start (element, bytes)) []) lives.old }
    ensures { HaveMore config.now (λ sid. cons_option (grant_by sid start (element, bytes)) [])
        0 (λ spec sid. 0) lives.old lives.new }
{
    if bytes == 0 {
        return;
    }
    let place = place_under(places, element.sid);
    if place < lives.len() {
        lives[place].grant(config, start, element, bytes);
    }
}

// Counts the elements with these byte counts, in a MAP that starts there, in the lives to which they are data grants.
fn grant_each(
    lives: &mut [LifeTally],
    places: &[usize],
    config: &Checked,
    start: u64,
    elements: &[Element],
    counts: &[u32],
)
    requires start { start < 2 ^ 62 }
    requires live { AreLive places.now lives.old }
    requires granted { MayGrantEach config.now
        (λ sid. filter_map (grant_by sid start) (zip elements.now counts.now)) lives.old }
    ensures { HaveMore config.now
        (λ sid. filter_map (grant_by sid start) (zip elements.now counts.now))
        0 (λ spec sid. 0) lives.old lives.new }
{
    for i in 0..elements.len().min(counts.len()) {
        grant_at(lives, places, config, start, elements[i], counts[i]);
    }
}

// Counts the bytes of an allocation in the life to which it is an unsolicited grant: its MAP meets these opportunities.
fn count_at(lives: &mut [LifeTally], places: &[usize], met: &[Met], allocation: Allocation)
    requires live { AreLive places.now lives.old }
    requires few { MayCountEach 1 lives.old }
    ensures { (c : Config) → HaveMore c (λ sid. []) 1
        (λ spec sid. unsolicited_at met.now spec sid allocation) lives.old lives.new }
{
    let place = place_under(places, allocation.sid);
    if place < lives.len() {
        lives[place].count_grant(met, allocation);
    }
}

// Counts the bytes of the allocations of elements in the lives to which they are unsolicited grants: their MAP meets
// these opportunities.
fn count_each(lives: &mut [LifeTally], places: &[usize], met: &[Met], elements: &[Element])
    requires front { (c : Config) × HasFront c elements.now }
    requires live { AreLive places.now lives.old }
    requires few { MayCountEach (length elements.now) lives.old }
    ensures { (c : Config) → HaveMore c (λ sid. []) (length elements.now)
        (λ spec sid. sum_by (unsolicited_at met.now spec sid) (allocations_of elements.now))
        lives.old lives.new }
{
    for i in 0..front_len(elements) {
        count_at(lives, places, met, allocation_at(elements, i));
    }
}

// Counts the grants of a MAP that meets these opportunities, of both kinds.
fn note_map(
    lives: &mut [LifeTally],
    places: &[usize],
    config: &Checked,
    met: &[Met],
    map: &FrameMap,
)
    requires start { map.now.start < 2 ^ 62 }
    requires orderly { IsOrderly config.now map.now }
    requires live { AreLive places.now lives.old }
    requires few { MayCountEach (length map.now.wire.elements) lives.old }
    requires granted { MayGrantEach config.now (λ sid. grants_of_map sid map.now) lives.old }
    ensures { HaveMore config.now (λ sid. grants_of_map sid map.now)
        (length map.now.wire.elements) (λ spec sid. unsolicited_of_map met.now spec sid map.now)
        lives.old lives.new }
{
    let elements = map.wire.elements.as_slice();
    let counts = map.bytes.as_slice();
    grant_each(lives, places, config, map.start, elements, counts);
    count_each(lives, places, met, elements);
}

// Goes on with an entry that has no MAP.
fn note_named(lives: &mut [LifeTally], places: &[usize], config: &Checked, next: u64, entry: &Entry)
    requires may { (ls : List PastLife) × AreLives config.now lives.old ls
        × MayNoteEach config.now ls next entry.now }
    requires room { IsRequest entry.now.call entry.now.reply
        → HaveRoomFor config.now entry.now.call entry.now.reply lives.old }
    requires live { AreLive places.now lives.old }
    requires unbuilt { HasNoMap entry.now.reply }
    ensures lives { (ls : List PastLife) → AreLives config.now lives.old ls
        → MayNoteEach config.now ls next entry.now
        → AreLives config.now lives.new (map (with_entry entry.now) ls) }
    ensures live { AreLive places.now lives.new }
{
    let Some(sid) = named_by(entry) else {
        return;
    };
    let place = place_under(places, sid);
    if place < lives.len() {
        lives[place].note(config, next, entry);
    }
}

// Goes on with one entry more, before which the next frame starts there, and whose MAP meets these opportunities.
pub(crate) fn note_each(
    lives: &mut [LifeTally],
    places: &[usize],
    config: &Checked,
    next: u64,
    met: &[Met],
    entry: &Entry,
)
    requires may { (ls : List PastLife) × AreLives config.now lives.old ls
        × MayNoteEach config.now ls next entry.now }
    requires room { IsRequest entry.now.call entry.now.reply
        → HaveRoomFor config.now entry.now.call entry.now.reply lives.old }
    requires live { AreLive places.now lives.old }
    requires orderly { HasOrderlyMap config.now entry.now.reply }
    ensures lives { (ls : List PastLife) → AreLives config.now lives.old ls
        → MayNoteEach config.now ls next entry.now → MeetsEach config.now ls entry.now met.now
        → AreLives config.now lives.new (map (with_entry entry.now) ls) }
    ensures live { AreLive places.now lives.new }
{
    match &entry.reply {
        Reply::Built(map) => note_map(lives, places, config, met, map),
        _ => note_named(lives, places, config, next, entry),
    }
}

// Takes memory for what an entry adds: a life, or a request of one. What is told stays.
pub(crate) fn reserve_for(
    lives: &mut Vec<LifeTally>,
    places: &[usize],
    config: &Checked,
    entry: &Entry,
) -> Result<(), AllocError>
    requires { AreLive places.now lives.old.items }
    ensures requests { OnOk result (IsRequest entry.now.call entry.now.reply →
        HaveRoomFor config.now entry.now.call entry.now.reply lives.new.items) }
    ensures lives { OnOk result (IsOpening entry.now.call entry.now.reply →
        vec_len lives.new < vec_capacity lives.new) }
    ensures same { (c : Config) (ls : List PastLife) → AreLives c lives.old.items ls
        → AreLives c lives.new.items ls }
    ensures live { AreLive places.now lives.new.items }
    ensures err { OnErr result (AddsToReport entry.now.call entry.now.reply) }
{
    match (entry.call, &entry.reply) {
        (Call::Ask { .. } | Call::Replace { .. }, Reply::Taken) => {
            reserve_each(lives, places, config, entry)
        }
        (Call::Admit(..), Reply::Admitted(_)) => lives.reserve(1),
        _ => Ok(()),
    }
}

// Begins the life of a flow that an entry admits, in front of the frame that starts there. No other goes on under its
// SID.
pub(crate) fn begin_life(
    lives: &mut Vec<LifeTally>,
    places: &mut [usize],
    alloc: Global,
    from: u64,
    entry: &Entry,
)
    requires lives { IsOpening entry.now.call entry.now.reply
        → vec_len lives.old < vec_capacity lives.old }
    requires live { AreLive places.old lives.old.items }
    requires alone { IsAlone entry.now.call entry.now.reply lives.old.items }
    ensures lives { (c : Config) (h : List Recorded) (ls : List PastLife)
        → from ≡ next_after c (h ++ entry.now ∷ [])
        → AreLives c lives.old.items ls
        → AreLives c lives.new.items
        (ls ++ life_begun (h ++ entry.now ∷ []) (opening_by entry.now.call entry.now.reply) []) }
    ensures live { AreLive places.new lives.new.items }
{
    if let Some(opening) = opening_of(entry) {
        note_place(places, opening.sid, lives.len());
        lives.push_reserved(LifeTally::begin(alloc, opening.sid, opening.spec, from));
    }
}

// The SID and the parameters of the flow that an entry admits.
pub(crate) fn opening_of(entry: &Entry) -> Option<Opening>
    ensures { result ≡ opening_by entry.now.call entry.now.reply }
{
    match (entry.call, &entry.reply) {
        (Call::Admit(sid, spec), Reply::Admitted(_)) => Some(Opening { sid, spec }),
        _ => None,
    }
}

// Where the next frame starts after an entry, before which it starts there.
pub(crate) fn next_with(next: u64, config: &Checked, entry: &Entry) -> u64
    requires { next < 2 ^ 62 }
    ensures { (h : List Recorded) → next ≡ next_after config.now h
        → result ≡ next_after config.now (h ++ entry.now ∷ []) }
{
    match entry.reply {
        Reply::Built(_) => next + u64::from(config.frame()),
        Reply::Skipped(start) => start,
        _ => next,
    }
}

// What is told of each life begins anew here, behind a whole history, where the next frame starts there.
pub(crate) fn renew_each(lives: &mut [LifeTally], next: u64)
    requires { (c : Config) × (passed : ℕ) × (h : List Recorded) × AreLives c lives.old (lives_in passed h) }
    ensures lives { (c : Config) (passed : ℕ) (h : List Recorded) → IsLegal c h → next ≡ next_after c h
        → AreLives c lives.old (lives_in passed h) → AreLives c lives.new (lives_in (length h) h) }
    ensures live { (places : List ℕ) → AreLive places lives.old → AreLive places lives.new }
{
    for index in 0..lives.len() {
        lives[index].renew(next);
    }
}

// Goes on with an entry that follows the history of these lives, before which the next frame starts there, and whose
// MAP meets these opportunities. Answers where the next frame starts then.
pub(crate) fn follow(
    lives: &mut Vec<LifeTally>,
    places: &mut [usize],
    config: &Checked,
    alloc: Global,
    next: u64,
    met: &[Met],
    entry: &Entry,
) -> u64
    requires may { (passed : ℕ) × (h : List Recorded)
        × MayFollow config.now passed h lives.old.items next met.now entry.now }
    requires requests { IsRequest entry.now.call entry.now.reply
        → HaveRoomFor config.now entry.now.call entry.now.reply lives.old.items }
    requires opening { IsOpening entry.now.call entry.now.reply
        → vec_len lives.old < vec_capacity lives.old }
    requires live { AreLive places.old lives.old.items }
    ensures lives { (passed : ℕ) (h : List Recorded)
        → MayFollow config.now passed h lives.old.items next met.now entry.now
        → AreLives config.now lives.new.items (lives_in passed (h ++ entry.now ∷ [])) }
    ensures live { AreLive places.new lives.new.items }
    ensures next { (passed : ℕ) (h : List Recorded)
        → MayFollow config.now passed h lives.old.items next met.now entry.now
        → result ≡ next_after config.now (h ++ entry.now ∷ []) }
{
    note_each(lives, places, config, next, met, entry);
    let after = next_with(next, config, entry);
    begin_life(lives, places, alloc, after, entry);
    after
}
