//! The placed flows in groups: those of one interval and one phase have the same frames.

ghost use Rattle.std.specs.Prelude.{◌≡◌, ℕ, ◌<◌, ◌≤◌, ◌+◌, ◌%◌, ◌++◌, ◌==◌, List, map, take, drop, length};
ghost use Rattle.std.specs.Prelude.{position, false, IfOk, OnErr, IfSome, IfNone};
ghost use Rattle.std.specs.List.{AllByRecursion, remove};
ghost use Rattle.minislots.specs.declared.config.Config.{Config};
ghost use Rattle.minislots.specs.Config.{IsLawful};
ghost use Rattle.periodic.specs.declared.TheConstants.{MAX_SPOTS};
ghost use Rattle.periodic.specs.Placement.{due_in};
ghost use Rattle.periodic.specs.Fields.{placed_of, IsSoundFlow};
ghost use Rattle.periodic.specs.Groups.{flows_in, IsSoundGroup, AreSoundGroups, HasOneMore, IsGroupAt, HasRoomAt};
ghost use Rattle.periodic.specs.Groups.{IsFlowAt, HaveFlows};

use crate::MAX_SPOTS;
use crate::placement::Spot;
use crate::spots::PlacedFlow;
use minislots::Checked;
use std::alloc::AllocError;

// For how many flows a new group has memory.
const FIRST_FLOWS: usize = 4;

// The placed flows of one interval and one phase.
#[derive(Drop)]
pub(crate) struct Group {
    interval: u64,
    phase: u64,
    flows: Vec<PlacedFlow>,
}

impl Group {
    // Writes what the flows are to have of the frame at this place behind so many spots, and answers how many there are
    // then.
    fn put(&self, place: u64, spots: &mut [Spot; MAX_SPOTS], count: usize) -> usize
        requires sound { (c : Config) × IsSoundGroup c self.now × (place < c.cycle)
            × (count + length (due_in c place (map placed_of self.now.flows.items)) ≤ MAX_SPOTS) }
        ensures spots { (c : Config) → IsSoundGroup c self.now → place < c.cycle → take result
            spots.new ≡ take count spots.old ++ due_in c place (map placed_of self.now.flows.items) }
        ensures rest { drop result spots.new ≡ drop result spots.old }
        ensures more { count ≤ result }
        ensures most { result ≤ MAX_SPOTS }
    {
        if place % self.interval != self.phase {
            return count;
        }
        self.put_all(place, spots, count)
    }

    // Writes it where the frame is one of theirs, which are numbered alike for all.
    fn put_all(&self, place: u64, spots: &mut [Spot; MAX_SPOTS], count: usize) -> usize
        requires sound { (c : Config) × IsSoundGroup c self.now × (place < c.cycle)
            × (count + length (due_in c place (map placed_of self.now.flows.items)) ≤ MAX_SPOTS) }
        requires nominal { place % self.now.interval ≡ self.now.phase }
        ensures spots { (c : Config) → IsSoundGroup c self.now → place < c.cycle → take result
            spots.new ≡ take count spots.old ++ due_in c place (map placed_of self.now.flows.items) }
        ensures rest { drop result spots.new ≡ drop result spots.old }
        ensures more { count ≤ result }
        ensures most { result ≤ MAX_SPOTS }
    {
        let number = place / self.interval;
        let mut next = count;
        for flow in &self.flows {
            next = flow.put(number, spots, next);
        }
        next
    }

    // The place of the flow with this SID.
    fn place_of(&self, sid: u16) -> Option<usize>
        ensures { result ≡ position (λ f. f.sid == sid) self.now.flows.items }
    {
        self.flows.iter().position(|flow| flow.sid == sid)
    }
}

// Writes what the flows of the groups are to have of frame `k`, and answers how many spots these are.
pub(crate) fn fill(
    groups: &[Group],
    config: &Checked,
    k: u64,
    spots: &mut [Spot; MAX_SPOTS],
) -> usize
    requires sound { AreSoundGroups config.now groups.now }
    requires few { length (due_in config.now k (map placed_of (flows_in groups.now))) ≤ MAX_SPOTS }
    ensures spots { take result spots.new ≡ due_in config.now k (map placed_of (flows_in groups.now)) }
    ensures rest { drop result spots.new ≡ drop result spots.old }
    ensures most { result ≤ MAX_SPOTS }
    ensures lawful { IsLawful config.now }
{
    let place = k % u64::from(config.cycle());
    let mut count = 0;
    for group in groups {
        count = group.put(place, spots, count);
    }
    count
}

// The place of the group of this interval and phase.
fn group_of(groups: &[Group], interval: u64, phase: u64) -> Option<usize>
    ensures { IfSome result (IsGroupAt groups.now interval phase) }
{
    groups
        .iter()
        .position(|group| group.interval == interval && group.phase == phase)
}

// Opens a group of this interval and phase, with memory for flows but none yet, behind the others, and answers its
// place.
fn open(groups: &mut Vec<Group>, interval: u64, phase: u64) -> Result<usize, AllocError>
    requires { 0 < interval }
    ensures place { IfOk result (HasRoomAt groups.new.items interval phase) }
    ensures filled { IfOk result (λ place. HaveFlows groups.old.items → HaveFlows (remove groups.new.items place)) }
    ensures same { flows_in groups.new.items ≡ flows_in groups.old.items }
    ensures sound { (c : Config)
        → AreSoundGroups c groups.old.items → AreSoundGroups c groups.new.items }
    ensures err { OnErr result (groups.new.items ≡ groups.old.items) }
{
    let place = groups.len();
    let flows = Vec::with_capacity(*groups.allocator(), FIRST_FLOWS)?;
    groups.push(Group {
        interval,
        phase,
        flows,
    })?;
    Ok(place)
}

// Takes memory for one flow more of this interval and phase, and answers the place of their group, which may be new and
// is then without flows until one is put in.
pub(crate) fn room_for(
    groups: &mut Vec<Group>,
    interval: u64,
    phase: u64,
) -> Result<usize, AllocError>
    requires { 0 < interval }
    ensures place { IfOk result (HasRoomAt groups.new.items interval phase) }
    ensures filled { IfOk result (λ place. HaveFlows groups.old.items → HaveFlows (remove groups.new.items place)) }
    ensures same { flows_in groups.new.items ≡ flows_in groups.old.items }
    ensures sound { (c : Config)
        → AreSoundGroups c groups.old.items → AreSoundGroups c groups.new.items }
    ensures err { OnErr result (HaveFlows groups.old.items → HaveFlows groups.new.items) }
{
    let Some(place) = group_of(groups, interval, phase) else {
        return open(groups, interval, phase);
    };
    groups[place].flows.reserve(1)?;
    Ok(place)
}

// Puts a flow into the group of its interval and phase, at this place.
pub(crate) fn put_in(groups: &mut Vec<Group>, place: usize, flow: PlacedFlow)
    requires { HasRoomAt groups.old.items flow.interval flow.phase place }
    ensures added { HasOneMore flow (flows_in groups.old.items) (flows_in groups.new.items) }
    ensures filled { HaveFlows (remove groups.old.items place) → HaveFlows groups.new.items }
    ensures sound { (c : Config) → AreSoundGroups c groups.old.items → IsSoundFlow c flow
        → AreSoundGroups c groups.new.items }
{
    groups[place].flows.push_reserved(flow);
}

// The place of the group that has the flow with this SID, and the flow's place there.
fn place_of(groups: &[Group], sid: u16) -> Option<(usize, usize)>
    ensures found { IfSome result (IsFlowAt groups.now sid) }
    ensures absent { IfNone result (AllByRecursion (λ f. (f.sid == sid) ≡ false) (flows_in groups.now)) }
{
    for (index, group) in groups.iter().enumerate() {
        if let Some(place) = group.place_of(sid) {
            return Some((index, place));
        }
    }
    None
}

// The flow with this SID.
pub(crate) fn flow_of(groups: &[Group], sid: u16) -> Option<&PlacedFlow>
    ensures among { IfSome result
        (λ flow. (others : List PlacedFlow) × HasOneMore flow.now others (flows_in groups.now)) }
    ensures sid { IfSome result (λ flow. flow.now.sid ≡ sid) }
    ensures flow { IfSome result (λ flow. (c : Config) → AreSoundGroups c groups.now → IsSoundFlow c flow.now) }
    ensures absent { IfNone result (AllByRecursion (λ f. (f.sid == sid) ≡ false) (flows_in groups.now)) }
{
    let (index, place) = place_of(groups, sid)?;
    Some(&groups[index].flows[place])
}

// Takes the flow with this SID out of its group, and answers the group's place too: the group has room for the flow,
// and may be without flows. Room that a group had it still has.
pub(crate) fn lift_out(groups: &mut Vec<Group>, sid: u16) -> Option<(usize, PlacedFlow)>
    ensures taken { IfSome result
        (λ out. HasOneMore out.1 (flows_in groups.new.items) (flows_in groups.old.items)) }
    ensures sid { IfSome result (λ out. out.1.sid ≡ sid) }
    ensures flow { IfSome result (λ out. (c : Config) → AreSoundGroups c groups.old.items → IsSoundFlow c out.1) }
    ensures place { IfSome result (λ out. (c : Config) → AreSoundGroups c groups.old.items
        → HasRoomAt groups.new.items out.1.interval out.1.phase out.0) }
    ensures within { IfSome result (λ out. out.0 < length groups.new.items) }
    ensures room { (frames frame place : ℕ) → HasRoomAt groups.old.items frames frame place
        → HasRoomAt groups.new.items frames frame place }
    ensures filled { IfSome result (λ out. HaveFlows groups.old.items → HaveFlows (remove groups.new.items out.0)) }
    ensures sound { (c : Config)
        → AreSoundGroups c groups.old.items → AreSoundGroups c groups.new.items }
    ensures absent { IfNone result
        (AllByRecursion (λ f. (f.sid == sid) ≡ false) (flows_in groups.old.items)) }
    ensures same { IfNone result (groups.new.items ≡ groups.old.items) }
{
    let (index, place) = place_of(groups, sid)?;
    let flow = groups[index].flows.remove(place);
    Some((index, flow))
}

// Takes out the group at this place where it has no flow, so that no frame asks it.
fn close(groups: &mut Vec<Group>, place: usize)
    requires { place < length groups.old.items }
    ensures filled { HaveFlows (remove groups.old.items place) → HaveFlows groups.new.items }
    ensures same { flows_in groups.new.items ≡ flows_in groups.old.items }
    ensures sound { (c : Config)
        → AreSoundGroups c groups.old.items → AreSoundGroups c groups.new.items }
{
    if groups[place].flows.is_empty() {
        groups.remove(place);
    }
}

// Takes out all groups that have no flow, so that no frame asks them.
pub(crate) fn close_all(groups: &mut Vec<Group>)
    ensures filled { HaveFlows groups.new.items }
    ensures same { flows_in groups.new.items ≡ flows_in groups.old.items }
    ensures sound { (c : Config)
        → AreSoundGroups c groups.old.items → AreSoundGroups c groups.new.items }
{
    groups.retain(|group| !group.flows.is_empty());
}

// Takes the flow with this SID out of its group, and the group with its last flow.
pub(crate) fn take_out(groups: &mut Vec<Group>, sid: u16) -> Option<PlacedFlow>
    ensures taken { IfSome result
        (λ flow. HasOneMore flow (flows_in groups.new.items) (flows_in groups.old.items)) }
    ensures sid { IfSome result (λ flow. flow.sid ≡ sid) }
    ensures flow { IfSome result (λ flow. (c : Config) → AreSoundGroups c groups.old.items → IsSoundFlow c flow) }
    ensures filled { HaveFlows groups.old.items → HaveFlows groups.new.items }
    ensures sound { (c : Config)
        → AreSoundGroups c groups.old.items → AreSoundGroups c groups.new.items }
    ensures absent { IfNone result
        (AllByRecursion (λ f. (f.sid == sid) ≡ false) (flows_in groups.old.items)) }
{
    let (place, flow) = lift_out(groups, sid)?;
    close(groups, place);
    Some(flow)
}
