//! The line of a life of a flow.

ghost use Rattle.std.specs.Prelude.{◌≡◌, ◌<◌, ◌^◌, ◌++◌, OnOk};
ghost use Rattle.report_writing.specs.Flows.{kind_title, ceiling_of, life_rates, life_counts, life_delays, life_line};

use crate::tables::ranks::push_replaced;
use crate::text::{
    bits_a_second, narrower, push_decimal, push_decimal_right, push_ms, push_number, push_number_or,
};
use flow_book::FlowSpec;
use sched_report::LifeNumbers;
use std::alloc::AllocError;

// The kind of a flow, in seven columns.
#[tactic(auto, unfolding(crate::specs::Flows::kind_title))]
pub(crate) fn push_kind(words: &mut Vec<u8>, spec: FlowSpec) -> Result<(), AllocError>
    ensures { OnOk result (words.new.items ≡ words.old.items ++ kind_title spec) }
{
    match spec {
        FlowSpec::Unsolicited { .. } => words.extend_from_slice(b" unsol "),
        FlowSpec::Polled { .. } => words.extend_from_slice(b" polled"),
        FlowSpec::BestEffort { priority, .. } => {
            words.extend_from_slice(b" best ")?;
            push_decimal(words, u64::from(priority))
        }
    }
}

// The ceiling of a flow's rate, where it has one.
fn ceiling_of(spec: FlowSpec) -> Option<u128>
    ensures { result ≡ ceiling_of spec }
{
    match spec {
        FlowSpec::Polled { rate, .. } | FlowSpec::BestEffort { rate, .. } if rate > 0 => {
            Some(u128::from(rate))
        }
        _ => None,
    }
}

// The bits a second that a life asked, was granted, and may be granted at most.
#[tactic(auto, unfolding(crate::specs::Flows::life_rates))]
fn push_rates(
    words: &mut Vec<u8>,
    ticks: u32,
    replaced: bool,
    life: &LifeNumbers,
) -> Result<(), AllocError>
    requires { life.now.granted < 2 ^ 90 }
    ensures { OnOk result (words.new.items ≡ words.old.items ++ life_rates ticks replaced life.now) }
{
    let places = narrower(replaced, 8);
    let span = life.to.saturating_sub(life.from);
    let asked = bits_a_second(u128::from(life.sums.asked), span, ticks);
    let granted = bits_a_second(life.granted, span, ticks);
    push_number_or(words, asked, places)?;
    push_number_or(words, granted, places)?;
    push_number_or(words, ceiling_of(life.spec), places)
}

// Its requests.
#[tactic(auto, unfolding(crate::specs::Flows::life_counts))]
fn push_counts(words: &mut Vec<u8>, replaced: bool, life: &LifeNumbers) -> Result<(), AllocError>
    ensures { OnOk result (words.new.items ≡ words.old.items ++ life_counts replaced life.now) }
{
    push_number(words, u128::from(life.sums.asks), narrower(replaced, 6))?;
    push_number(words, u128::from(life.waiting), 4)?;
    push_number(words, u128::from(life.dropped), 4)?;
    push_replaced(words, replaced, u128::from(life.sums.replaced))
}

// The delays of those that were served.
#[tactic(auto, unfolding(crate::specs::Flows::life_delays))]
fn push_delays(words: &mut Vec<u8>, ticks: u32, life: &LifeNumbers) -> Result<(), AllocError>
    ensures { OnOk result (words.new.items ≡ words.old.items ++ life_delays ticks life.now) }
{
    push_ms(words, ticks, life.middle, 7)?;
    push_ms(words, ticks, life.p99, 7)?;
    push_ms(words, ticks, life.sums.delays.greatest, 7)
}

// The line of a life.
#[tactic(auto, unfolding(crate::specs::Flows::life_line))]
pub(crate) fn push_life(
    words: &mut Vec<u8>,
    ticks: u32,
    replaced: bool,
    life: &LifeNumbers,
) -> Result<(), AllocError>
    requires { life.now.granted < 2 ^ 90 }
    ensures { OnOk result (words.new.items ≡ words.old.items ++ life_line ticks replaced life.now) }
{
    push_decimal_right(words, u64::from(life.sid), 3)?;
    push_kind(words, life.spec)?;
    push_rates(words, ticks, replaced, life)?;
    push_counts(words, replaced, life)?;
    push_delays(words, ticks, life)?;
    words.extend_from_slice(b"\n")
}
