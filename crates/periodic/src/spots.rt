//! What the placed flows take of a frame, and what they are to have of it.

ghost use Rattle.std.specs.Prelude.{◌≡◌, ℕ, ◌<◌, ◌≤◌, ◌+◌, ◌%◌, ◌++◌, take, drop, length, true, None};
ghost use Rattle.std.specs.List.Sorted.{IsPermutation, IsNonDecreasingBy};
ghost use Rattle.minislots.specs.declared.config.Config.{Config};
ghost use Rattle.minislots.specs.Config.{IsLawful};
ghost use Rattle.sched_calls.specs.FlowSpec.{is_periodic, size_of, interval_frames, jitter_slots, periodic_slots};
ghost use Rattle.sched_calls.specs.FlowSpec.{grants_of, first_fault};
ghost use Rattle.periodic.specs.declared.TheConstants.{MAX_SPOTS};
ghost use Rattle.periodic.specs.Placement.{starts_in, spots_of, due_starts, due_at, due_of};
ghost use Rattle.periodic.specs.Bits.{bit_for};
ghost use Rattle.periodic.specs.Rows.{row_at, AreMarked, HaveAtMost, AreBounds};
ghost use Rattle.periodic.specs.Table.{placed_at};
ghost use Rattle.periodic.specs.Fields.{placed_of, KeepsTimes, IsSoundFlow};
ghost use Rattle.periodic.specs.Groups.{own_place};

use crate::MAX_SPOTS;
use crate::bits::Bits;
use crate::placement::Spot;
use crate::widest::{self, Widest};
use minislots::Checked;
use sched_calls::{FlowSpec, Placement};

// A periodic flow with its placement, and what follows from both, so that a frame is told without a division by the
// channel's numbers.
#[derive(Drop)]
pub(crate) struct PlacedFlow {
    pub(crate) sid: u16,
    pub(crate) spec: FlowSpec,
    pub(crate) placement: Placement,
    // The frames of its interval, and in which of them it has its nominal times.
    pub(crate) interval: u64,
    pub(crate) phase: u64,
    // The minislots of one grant or poll, and how many a nominal frame has.
    slots: u16,
    pub(crate) grants: usize,
    // Whether it rests: it is then polled in the place of its grants, by as many minislots.
    pub(crate) rests: bool,
    poll_slots: u16,
}

// The frames of a periodic flow's interval, which divide the cycle.
pub(crate) fn interval(config: &Checked, spec: &FlowSpec) -> u64
    requires periodic { is_periodic spec.now ≡ true }
    requires no_fault { first_fault config.now spec.now ≡ None }
    ensures value { result ≡ interval_frames config.now spec.now }
    ensures positive { 0 < result }
    ensures most { result ≤ 64 }
    ensures divides { config.now.cycle % result ≡ 0 }
    ensures lawful { IsLawful config.now }
{
    let frame = u64::from(config.frame());
    match *spec {
        FlowSpec::Unsolicited { interval_us, .. } | FlowSpec::Polled { interval_us, .. } => {
            config.slots_floor(interval_us) / frame
        }
        FlowSpec::BestEffort { .. } => unreachable!(),
    }
}

// The bytes of one unsolicited grant of a flow.
fn size(spec: &FlowSpec) -> Option<u32>
    ensures { result ≡ size_of spec.now }
{
    match *spec {
        FlowSpec::Unsolicited { size, .. } => Some(size),
        _ => None,
    }
}

// The tolerated jitter of a flow, in minislots.
pub(crate) fn jitter(config: &Checked, spec: &FlowSpec) -> u64
    ensures { result ≡ jitter_slots config.now spec.now }
{
    match *spec {
        FlowSpec::Unsolicited { jitter_us, .. } | FlowSpec::Polled { jitter_us, .. } => {
            config.slots_floor(jitter_us)
        }
        FlowSpec::BestEffort { .. } => 0,
    }
}

// The minislots of one grant or poll of a periodic flow, which fit behind the request region.
pub(crate) fn slots(config: &Checked, spec: &FlowSpec) -> u64
    requires periodic { is_periodic spec.now ≡ true }
    requires no_fault { first_fault config.now spec.now ≡ None }
    ensures value { result ≡ periodic_slots config.now spec.now }
    ensures positive { 0 < result }
    ensures fits { result + config.now.req_slots ≤ config.now.frame }
    ensures most { result ≤ 1024 }
{
    let poll = u64::from(config.poll_slots());
    match *spec {
        FlowSpec::Unsolicited { size, .. } => config.slots_for_unsolicited(size),
        FlowSpec::Polled { .. } => poll,
        FlowSpec::BestEffort { .. } => unreachable!(),
    }
}

// How many grants or polls a periodic flow has in an interval.
pub(crate) fn grants(config: &Checked, spec: &FlowSpec) -> usize
    requires periodic { is_periodic spec.now ≡ true }
    requires no_fault { first_fault config.now spec.now ≡ None }
    ensures value { result ≡ grants_of spec.now }
    ensures positive { 0 < result }
    ensures most { result ≤ 8 }
{
    let _lawful = config.frame();
    usize::from(spec.grants())
}

impl PlacedFlow {
    // The flow with this placement, which does not rest.
    pub(crate) fn at(config: &Checked, sid: u16, spec: FlowSpec, placement: Placement) -> PlacedFlow
        requires periodic { is_periodic spec ≡ true }
        requires no_fault { first_fault config.now spec ≡ None }
        ensures placed { placed_of result ≡ placed_at sid spec placement }
        ensures times { KeepsTimes config.now result }
    {
        let interval = interval(config, &spec);
        PlacedFlow {
            sid,
            spec,
            interval,
            phase: placement.reference / u64::from(config.frame()) % interval,
            slots: slots(config, &spec) as u16,
            grants: grants(config, &spec),
            rests: false,
            poll_slots: config.poll_slots() as u16,
            placement,
        }
    }

    // Where the flow starts in the frame at this place of the cycle.
    fn starts(&self, place: u64) -> &[u16]
        requires sound { (c : Config) × IsSoundFlow c self.now × (place < c.cycle) }
        ensures { (c : Config) → IsSoundFlow c self.now → place < c.cycle
            → result.now ≡ starts_in c self.now.spec self.now.placement place }
    {
        if place % self.interval != self.phase {
            return &self.placement.starts.as_slice()[..0];
        }
        self.own_starts(place / self.interval)
    }

    // Where it starts in the frame of this number among those of its phase, the first being number 0.
    fn own_starts(&self, number: u64) -> &[u16]
        requires sound { (c : Config) × IsSoundFlow c self.now × (own_place self.now number < c.cycle) }
        ensures { (c : Config) → IsSoundFlow c self.now → own_place self.now number < c.cycle
            → result.now ≡ starts_in c self.now.spec self.now.placement (own_place self.now number) }
    {
        let starts = self.placement.starts.as_slice();
        let first = number as usize * self.grants;
        &starts[first..first + self.grants]
    }

    // Where the flow is to have something in the frame of this number among those of its phase.
    fn due_starts(&self, number: u64) -> &[u16]
        requires sound { (c : Config) × IsSoundFlow c self.now × (own_place self.now number < c.cycle) }
        ensures { (c : Config) → IsSoundFlow c self.now → own_place self.now number < c.cycle
            → result.now ≡ due_starts c (placed_of self.now) (own_place self.now number) }
    {
        let starts = self.own_starts(number);
        if self.rests && starts.len() > 1 {
            return &starts[..1];
        }
        starts
    }

    // What the flow is to have from this start on.
    fn due_at(&self, start: u16) -> Spot
        ensures { (c : Config)
            → KeepsTimes c self.now → result ≡ due_at c (placed_of self.now) start }
    {
        if self.rests {
            return Spot {
                sid: self.sid,
                size: None,
                offset: start,
                slots: self.poll_slots,
            };
        }
        Spot {
            sid: self.sid,
            size: size(&self.spec),
            offset: start,
            slots: self.slots,
        }
    }

    // Writes what the flow is to have of the frame of this number among those of its phase behind so many spots, and
    // answers how many there are then.
    pub(crate) fn put(&self, number: u64, spots: &mut [Spot; MAX_SPOTS], count: usize) -> usize
        requires sound { (c : Config) × IsSoundFlow c self.now × (own_place self.now number < c.cycle)
            × (count + length (due_of c (own_place self.now number) (placed_of self.now)) ≤ MAX_SPOTS) }
        ensures spots { (c : Config) → IsSoundFlow c self.now → own_place self.now number < c.cycle
            → take result spots.new
            ≡ take count spots.old ++ due_of c (own_place self.now number) (placed_of self.now) }
        ensures rest { drop result spots.new ≡ drop result spots.old }
        ensures more { count ≤ result }
        ensures most { result ≤ MAX_SPOTS }
    {
        let mut next = count;
        for start in self.due_starts(number) {
            spots[next] = self.due_at(*start);
            next += 1;
        }
        next
    }

    // Marks what the flow takes of the frame at this place as taken, or as free, and keeps the frame's bound.
    fn mark(&self, place: u64, config: &Checked, bits: &mut Bits, most: &mut u16, taken: bool)
        requires sound { (c : Config) × IsSoundFlow c self.now × (place < c.cycle) }
        requires lawful { IsLawful config.now }
        requires bounded { HaveAtMost config.now bits.old.words most.old }
        ensures marked { (c : Config) → IsSoundFlow c self.now → place < c.cycle
            → AreMarked (spots_of c place (placed_of self.now)) (bit_for taken) bits.old.words
            bits.new.words }
        ensures bounded { HaveAtMost config.now bits.new.words most.new }
    {
        for start in self.starts(place) {
            let start = u64::from(*start);
            let end = start + u64::from(self.slots);
            widest::mark(bits, most, config, start, end, taken);
        }
    }
}

// Marks what a flow takes of each frame of the cycle as taken, or as free, and keeps the frames' bounds.
pub(crate) fn mark(
    rows: &mut [Bits],
    widest: &mut Widest,
    config: &Checked,
    flow: &PlacedFlow,
    taken: bool,
)
    requires sound { IsSoundFlow config.now flow.now }
    requires long { length rows.old ≡ config.now.cycle }
    requires bounded { AreBounds config.now rows.old widest.old.most }
    ensures long { length rows.new ≡ config.now.cycle }
    ensures marked { (k : ℕ) → AreMarked (spots_of config.now k (placed_of flow.now))
        (bit_for taken) (row_at config.now rows.old k) (row_at config.now rows.new k) }
    ensures bounded { AreBounds config.now rows.new widest.new.most }
{
    for place in 0..u64::from(config.cycle()) {
        let row = place as usize;
        flow.mark(place, config, &mut rows[row], &mut widest.most[row], taken);
    }
}

// Sorts spots by their offsets.
pub(crate) fn sort(spots: &mut [Spot])
    ensures permutation { IsPermutation spots.old spots.new }
    ensures sorted { IsNonDecreasingBy (λ s. s.offset) spots.new }
{
    spots.sort_unstable_by_key(|spot| spot.offset);
}
