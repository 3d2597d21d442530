//! The object of a life of a flow in a report's JSON.

ghost use Rattle.std.specs.Prelude.{◌≡◌, ◌++◌, OnOk};
ghost use Rattle.history_writing.specs.Tokens.{tokens_of};
ghost use Rattle.report_writing.specs.Report.{kind_name, rank_of, life_data};

use crate::cell::{Cell, Spread, put_object};
use crate::members::{told_above_0, told_if};
use crate::reserved::under_of;
use flow_book::FlowSpec;
use json::Writer;
use sched_report::{LifeNumbers, POLLED};
use std::alloc::AllocError;

// The keys of a life, in ascending order.
static LIFE: [&str; 16] = [
    "asked",
    "asks",
    "carried",
    "delay",
    "dropped",
    "from",
    "granted",
    "kind",
    "outstanding",
    "priority",
    "replaced",
    "served",
    "sid",
    "to",
    "under",
    "waiting",
];

// The name of a kind of flow.
pub(crate) fn kind_name(spec: FlowSpec) -> &'static str
    ensures { result.now ≡ kind_name spec }
{
    match spec {
        FlowSpec::Unsolicited { .. } => "unsolicited",
        FlowSpec::Polled { .. } => "polled",
        FlowSpec::BestEffort { .. } => "best_effort",
    }
}

// The rank of a flow that asks: that of polled flows, or the priority of a best effort one.
pub(crate) fn rank_of(spec: FlowSpec) -> Option<u8>
    ensures { result ≡ rank_of spec }
{
    match spec {
        FlowSpec::Unsolicited { .. } => None,
        FlowSpec::Polled { .. } => Some(POLLED),
        FlowSpec::BestEffort { priority, .. } => Some(priority),
    }
}

// How the delays of a life are spread.
pub(crate) fn spread_of(life: &LifeNumbers) -> Spread
    ensures { result ≡ record {
      greatest = life.now.sums.delays.greatest;
      least = life.now.sums.delays.least;
      middle = life.now.middle;
      p99 = life.now.p99;
    } }
{
    Spread {
        greatest: life.sums.delays.greatest,
        least: life.sums.delays.least,
        middle: life.middle,
        p99: life.p99,
    }
}

// The priority of a life, where it has one.
fn priority_of(life: &LifeNumbers) -> Option<u128>
    ensures { result ≡ life.now.priority }
{
    match life.priority {
        Some(priority) => Some(priority as u128),
        None => None,
    }
}

// Writes the numbers of a life, with its replaced requests or without.
#[tactic(auto, unfolding(crate::specs::Report::life_data))]
pub(crate) fn put_life(
    out: &mut Writer,
    life: &LifeNumbers,
    replaced: bool,
) -> Result<(), AllocError>
    ensures ok { OnOk result (out.new.tokens
        ≡ out.old.tokens ++ tokens_of (life_data replaced life.now)) }
    ensures before { out.new.before ≡ out.old.before }
{
    let cells = [
        Cell::Count(life.sums.asked as u128),
        Cell::Count(life.sums.asks as u128),
        Cell::Given(told_above_0(life.carried)),
        Cell::Delay(spread_of(life)),
        Cell::Count(life.dropped as u128),
        Cell::Count(life.from as u128),
        Cell::Count(life.granted),
        Cell::Name(kind_name(life.spec)),
        Cell::Count(life.outstanding as u128),
        Cell::Given(priority_of(life)),
        Cell::Given(told_if(replaced, life.sums.replaced as u128)),
        Cell::Count(life.sums.delays.served as u128),
        Cell::Count(life.sid as u128),
        Cell::Count(life.to as u128),
        Cell::Given(under_of(life)),
        Cell::Count(life.waiting as u128),
    ];
    put_object(out, &LIFE, &cells)
}
