//! A configuration as JSON.

ghost use Rattle.std.specs.Prelude.{◌≡◌, ◌++◌, OnOk};
ghost use Rattle.minislots.specs.declared.bursts.Bursts.TheVariants.{Uniform, Described};
ghost use Rattle.serde_json.specs.Data.{object};
ghost use Rattle.history_writing.specs.HistoryText.{config_data, members_with, profile_data, descriptors_data};
ghost use Rattle.history_writing.specs.HistoryText.{is_same_profile};
ghost use Rattle.history_writing.specs.Tokens.{tokens_of, front_tokens, back_tokens, unsolicited_tokens};

use super::count::{put_count, put_counts, put_optional};
use json::Writer;
use minislots::{Bursts, Config, Descriptors, Profile};
use std::alloc::AllocError;

// The keys of a burst descriptor, in ascending order.
static PROFILE: [&str; 6] = [
    "bits",
    "guard",
    "information",
    "parity",
    "preamble",
    "shortened",
];

// The keys of the fields between the bursts and the most flows, in ascending order.
static FRONT: [&str; 5] = ["calls", "channel", "cycle", "data_end", "data_start"];

// The keys of those between the most flows and the open idles.
static MIDDLE: [&str; 3] = ["frame", "grant_cap", "lead"];

// The keys of those between the most periodic grants and the settling.
static BACK: [&str; 7] = [
    "phy",
    "poll_slots",
    "quantum",
    "ranging_end",
    "ranging_start",
    "receivers",
    "req_slots",
];

// The keys of those behind the settling.
static LAST: [&str; 4] = ["short_max", "start", "ticks", "ucd_count"];

// Writes a burst descriptor.
#[tactic(auto, unfolding(crate::specs::HistoryText::profile_data))]
fn put_profile(out: &mut Writer, profile: &Profile) -> Result<(), AllocError>
    ensures ok { OnOk result
        (out.new.tokens ≡ out.old.tokens ++ tokens_of (profile_data profile.now)) }
    ensures before { out.new.before ≡ out.old.before }
{
    let numbers = [
        profile.bits as u64,
        profile.guard as u64,
        profile.information as u64,
        profile.parity as u64,
        profile.preamble as u64,
        profile.shortened as u64,
    ];
    out.begin_object()?;
    put_counts(out, &PROFILE, &numbers)?;
    out.end_object()
}

// Whether two burst descriptors have the same numbers.
fn is_same(one: &Profile, other: &Profile) -> bool
    ensures { result ≡ is_same_profile one.now other.now }
{
    one.bits == other.bits
        && one.guard == other.guard
        && one.information == other.information
        && one.parity == other.parity
        && one.preamble == other.preamble
        && one.shortened == other.shortened
}

// Writes the descriptor of unsolicited grants, where it is another than that of long ones.
fn put_unsolicited(out: &mut Writer, these: &Descriptors) -> Result<(), AllocError>
    ensures ok { OnOk result (out.new.tokens ≡ out.old.tokens ++ unsolicited_tokens these.now) }
    ensures before { out.new.before ≡ out.old.before }
{
    if is_same(&these.unsolicited, &these.long) {
        return Ok(());
    }
    out.key("unsolicited")?;
    put_profile(out, &these.unsolicited)
}

// Writes burst descriptors.
fn put_descriptors(out: &mut Writer, these: &Descriptors) -> Result<(), AllocError>
    ensures ok { OnOk result
        (out.new.tokens ≡ out.old.tokens ++ tokens_of (descriptors_data these.now)) }
    ensures before { out.new.before ≡ out.old.before }
{
    out.begin_object()?;
    out.key("long")?;
    put_profile(out, &these.long)?;
    out.key("short")?;
    put_profile(out, &these.short)?;
    put_count(out, "symbols", these.symbols as u64)?;
    put_unsolicited(out, these)?;
    out.end_object()
}

// Writes the fields between the bursts and the overhead.
fn put_front(out: &mut Writer, config: &Config) -> Result<(), AllocError>
    ensures ok { OnOk result (out.new.tokens ≡ out.old.tokens ++ front_tokens config.now) }
    ensures before { out.new.before ≡ out.old.before }
{
    let numbers = [
        config.calls as u64,
        config.channel as u64,
        config.cycle as u64,
        config.data_end as u64,
        config.data_start as u64,
    ];
    put_counts(out, &FRONT, &numbers)?;
    put_optional(out, "flows", config.flows as u64, 64)?;
    let numbers = [
        config.frame as u64,
        config.grant_cap as u64,
        config.lead as u64,
    ];
    put_counts(out, &MIDDLE, &numbers)?;
    put_optional(out, "open_idle", config.open_idle as u64, 0)
}

// Writes the fields behind the overhead.
fn put_back(out: &mut Writer, config: &Config) -> Result<(), AllocError>
    ensures ok { OnOk result (out.new.tokens ≡ out.old.tokens ++ back_tokens config.now) }
    ensures before { out.new.before ≡ out.old.before }
{
    put_optional(out, "pending", config.pending as u64, 64)?;
    put_optional(out, "periodic", config.periodic as u64, 40)?;
    let numbers = [
        config.phy as u64,
        config.poll_slots as u64,
        config.quantum as u64,
        config.ranging_end as u64,
        config.ranging_start as u64,
        config.receivers as u64,
        config.req_slots as u64,
    ];
    put_counts(out, &BACK, &numbers)?;
    put_optional(out, "settle", config.settle as u64, 0)?;
    let numbers = [
        config.short_max as u64,
        config.start,
        config.ticks as u64,
        config.ucd_count as u64,
    ];
    put_counts(out, &LAST, &numbers)
}

// Writes a configuration in which each minislot carries the same bytes.
fn put_uniform(
    out: &mut Writer,
    config: &Config,
    bytes_per_slot: u32,
    overhead: u32,
) -> Result<(), AllocError>
    ensures ok { OnOk result (out.new.tokens ≡ out.old.tokens
        ++ tokens_of (object (members_with config.now (Uniform bytes_per_slot overhead)))) }
    ensures before { out.new.before ≡ out.old.before }
{
    out.begin_object()?;
    put_count(out, "bytes_per_slot", bytes_per_slot as u64)?;
    put_front(out, config)?;
    put_count(out, "overhead", overhead as u64)?;
    put_back(out, config)?;
    out.end_object()
}

// Writes a configuration with burst descriptors.
fn put_described(out: &mut Writer, config: &Config, these: &Descriptors) -> Result<(), AllocError>
    ensures ok { OnOk result (out.new.tokens ≡ out.old.tokens
        ++ tokens_of (object (members_with config.now (Described these.now)))) }
    ensures before { out.new.before ≡ out.old.before }
{
    out.begin_object()?;
    out.key("bursts")?;
    put_descriptors(out, these)?;
    put_front(out, config)?;
    put_back(out, config)?;
    out.end_object()
}

/// Writes a configuration: a member for each field, but for one that may be missing and is then the same.
#[tactic(auto, unfolding(crate::specs::HistoryText::config_data))]
pub(crate) fn put_config(out: &mut Writer, config: &Config) -> Result<(), AllocError>
    ensures ok { OnOk result
        (out.new.tokens ≡ out.old.tokens ++ tokens_of (config_data config.now)) }
    ensures before { out.new.before ≡ out.old.before }
{
    match &config.bursts {
        Bursts::Uniform {
            bytes_per_slot,
            overhead,
        } => put_uniform(out, config, *bytes_per_slot, *overhead),
        Bursts::Described(these) => put_described(out, config, these),
    }
}
