//! The first field in which two configurations differ.

ghost use Rattle.std.specs.Prelude.{◌≡◌, ◌≢◌, None, IfSome};
ghost use Rattle.live_command.specs.Difference.{numbers, first_of, profile_numbers, described_numbers};
ghost use Rattle.live_command.specs.Difference.{uniform_numbers, bursts_numbers, numbers_between, numbers_behind};
ghost use Rattle.live_command.specs.Difference.{differences_of};

use crate::field::{Field, Member, Usage};
use minislots::{Bursts, Config, Descriptors, Profile};
use std::fmt;
use std::fmt::{Display, Formatter};

/// A field in which the configuration of a journal and one that is handed in have these numbers. Of the bursts it is 1
/// where there are any, and 0 where there are none.
#[derive(Clone, Copy, Debug, PartialEq, Eq)]
pub struct Difference {
    /// Which it is.
    pub field: Field,
    /// What the journal has there.
    pub journal: u64,
    /// What was handed in.
    pub given: u64,
}

impl Display for Difference {
    fn fmt<W: fmt::Write>(&self, f: &mut Formatter<W>) -> fmt::Result {
        let Difference {
            field,
            journal,
            given,
        } = *self;
        match (field, journal) {
            (Field::Bursts, 0) => write!(f, "the journal has no \"bursts\", the configuration has"),
            (Field::Bursts, _) => write!(
                f,
                "the journal has \"bursts\", the configuration has none"
            ),
            _ => write!(
                f,
                "the journal has \"{field}\" {journal}, the configuration {given}"
            ),
        }
    }
}

// A field with these numbers.
fn numbers(field: Field, journal: u64, given: u64) -> Difference
    ensures { result ≡ numbers field journal given }
{
    Difference {
        field,
        journal,
        given,
    }
}

// The same of numbers that are smaller.
fn small(field: Field, journal: u32, given: u32) -> Difference
    ensures { result ≡ numbers field journal given }
{
    numbers(field, u64::from(journal), u64::from(given))
}

// The same of bytes.
fn bytes(field: Field, journal: u8, given: u8) -> Difference
    ensures { result ≡ numbers field journal given }
{
    numbers(field, u64::from(journal), u64::from(given))
}

// The first of these in which the numbers differ.
fn first_of(fields: &[Difference]) -> Option<Difference>
    ensures { result ≡ first_of fields.now }
{
    for difference in fields {
        if difference.journal != difference.given {
            return Some(*difference);
        }
    }
    None
}

// The first in a profile.
fn first_in_profile(usage: Usage, journal: &Profile, given: &Profile) -> Option<Difference>
    ensures { result ≡ first_of (profile_numbers usage journal.now given.now) }
{
    let of = Field::Profile;
    first_of(&[
        small(
            of(usage, Member::Preamble),
            journal.preamble,
            given.preamble,
        ),
        small(of(usage, Member::Guard), journal.guard, given.guard),
        small(of(usage, Member::Bits), journal.bits, given.bits),
        small(of(usage, Member::Parity), journal.parity, given.parity),
        small(
            of(usage, Member::Information),
            journal.information,
            given.information,
        ),
        small(
            of(usage, Member::Shortened),
            journal.shortened,
            given.shortened,
        ),
    ])
}

// The first in bursts that have profiles.
#[tactic(auto, using(crate::proofs::Differing::first_of_append))]
fn first_described(journal: &Descriptors, given: &Descriptors) -> Option<Difference>
    ensures { result ≡ first_of (described_numbers journal.now given.now) }
{
    first_of(&[small(Field::Symbols, journal.symbols, given.symbols)])
        .or(first_in_profile(Usage::Short, &journal.short, &given.short))
        .or(first_in_profile(Usage::Long, &journal.long, &given.long))
        .or(first_in_profile(Usage::Unsolicited, &journal.unsolicited, &given.unsolicited))
}

// The first of the two numbers that stand in the place of bursts.
fn first_uniform(journal: &Bursts, given: &Bursts) -> Option<Difference>
    ensures { result ≡ first_of (uniform_numbers journal.now given.now) }
{
    match (journal, given) {
        (
            Bursts::Uniform {
                bytes_per_slot,
                overhead,
            },
            Bursts::Uniform {
                bytes_per_slot: given_bytes,
                overhead: given_overhead,
            },
        ) => first_of(&[
            small(Field::BytesPerSlot, *bytes_per_slot, *given_bytes),
            small(Field::Overhead, *overhead, *given_overhead),
        ]),
        _ => None,
    }
}

// The first in the bursts.
fn first_in_bursts(journal: &Bursts, given: &Bursts) -> Option<Difference>
    ensures { result ≡ first_of (bursts_numbers journal.now given.now) }
{
    match (journal, given) {
        (Bursts::Uniform { .. }, Bursts::Uniform { .. }) => None,
        (Bursts::Uniform { .. }, Bursts::Described(_)) => Some(numbers(Field::Bursts, 0, 1)),
        (Bursts::Described(_), Bursts::Uniform { .. }) => Some(numbers(Field::Bursts, 1, 0)),
        (Bursts::Described(own), Bursts::Described(other)) => first_described(own, other),
    }
}

// The first of those between.
fn first_between(journal: &Config, given: &Config) -> Option<Difference>
    ensures { result ≡ first_of (numbers_between journal.now given.now) }
{
    first_of(&[
        small(Field::Frame, journal.frame, given.frame),
        small(Field::Cycle, journal.cycle, given.cycle),
        small(Field::ReqSlots, journal.req_slots, given.req_slots),
        small(Field::PollSlots, journal.poll_slots, given.poll_slots),
        small(Field::Lead, journal.lead, given.lead),
        small(Field::ShortMax, journal.short_max, given.short_max),
        small(Field::Quantum, journal.quantum, given.quantum),
        small(Field::GrantCap, journal.grant_cap, given.grant_cap),
        bytes(Field::Receivers, journal.receivers, given.receivers),
        small(Field::Calls, journal.calls, given.calls),
        numbers(Field::Start, journal.start, given.start),
        bytes(
            Field::RangingStart,
            journal.ranging_start,
            given.ranging_start,
        ),
        bytes(Field::RangingEnd, journal.ranging_end, given.ranging_end),
        bytes(Field::DataStart, journal.data_start, given.data_start),
        bytes(Field::DataEnd, journal.data_end, given.data_end),
        bytes(Field::Channel, journal.channel, given.channel),
        bytes(Field::UcdCount, journal.ucd_count, given.ucd_count),
        bytes(Field::Phy, journal.phy, given.phy),
    ])
}

// The first of those behind the bursts.
fn first_behind(journal: &Config, given: &Config) -> Option<Difference>
    ensures { result ≡ first_of (numbers_behind journal.now given.now) }
{
    first_of(&[
        small(Field::Flows, journal.flows, given.flows),
        small(Field::Pending, journal.pending, given.pending),
        small(Field::Periodic, journal.periodic, given.periodic),
        bytes(Field::OpenIdle, journal.open_idle, given.open_idle),
        small(Field::Settle, journal.settle, given.settle),
    ])
}

/// The first field in which the configuration of a journal and one that is handed in differ, in the order in which the
/// fields are documented.
#[tactic(auto, using(crate::proofs::Differing::same_config))]
pub fn first_difference(journal: &Config, given: &Config) -> Option<Difference>
    ensures first { result ≡ first_of (differences_of journal.now given.now) }
    ensures same { result ≡ None → given.now ≡ journal.now }
    ensures differs { IfSome result (λ _. given.now ≢ journal.now) }
{
    first_of(&[small(Field::Ticks, journal.ticks, given.ticks)])
        .or(first_uniform(&journal.bursts, &given.bursts))
        .or(first_between(journal, given))
        .or(first_in_bursts(&journal.bursts, &given.bursts))
        .or(first_behind(journal, given))
}
