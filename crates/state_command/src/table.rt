//! A state as a table for people: its flows, the levels that rates leave of their bursts, the requests that wait, the
//! places of periodic flows, and the Reserves.

use sched_calls::{BatchState, FlowSpec, FlowState, PEAK_BURST, PlaceState, ReserveState, Usage};
use sched_history::ChannelState;
use std::alloc::{AllocError, Global};
use std::fmt::Write;

// The parts of a byte in which levels are counted.
const UNITS: u64 = 1_280_000;

// Where the channel is.
fn put_times(words: &mut String, state: &ChannelState) -> Result<(), AllocError> {
    writeln!(words, "entries           {}", state.entries)?;
    writeln!(words, "next frame        {}", state.next)?;
    writeln!(words, "acknowledge time  {}", state.ack)?;
    for (receiver, slot) in state.progress.as_slice().iter().enumerate() {
        writeln!(words, "receiver {receiver:<2}       {slot}")?;
    }
    Ok(())
}

// The header of the next MAP, and the UCD count of the last one.
fn put_header(words: &mut String, state: &ChannelState) -> Result<(), AllocError> {
    let header = state.header;
    writeln!(
        words,
        "ranging backoff   {} to {}",
        header.ranging_start, header.ranging_end
    )?;
    writeln!(
        words,
        "data backoff      {} to {}",
        header.data_start, header.data_end
    )?;
    writeln!(
        words,
        "UCD count         {}, of the last MAP {}",
        header.ucd_count, state.ucd_count
    )?;
    match state.change {
        Some(slot) => writeln!(words, "changed at        {slot}"),
        None => Ok(()),
    }
}

// The kind of a flow.
fn put_kind(words: &mut String, spec: FlowSpec) -> Result<(), AllocError> {
    match spec {
        FlowSpec::Unsolicited { .. } => write!(words, "  unsol "),
        FlowSpec::Polled { .. } => write!(words, "  polled"),
        FlowSpec::BestEffort { priority, .. } => write!(words, "  best {priority}"),
    }
}

// A number in a column, or a dash.
fn put_cell(words: &mut String, number: Option<u64>) -> Result<(), AllocError> {
    match number {
        Some(number) => write!(words, " {number:>12}"),
        None => write!(words, " {:>12}", "-"),
    }
}

// The line of a flow.
fn put_flow(words: &mut String, flow: &FlowState) -> Result<(), AllocError> {
    write!(words, "{:>5}", flow.sid)?;
    put_kind(words, flow.spec)?;
    put_cell(words, Some(flow.asked))?;
    put_cell(words, Some(flow.granted))?;
    put_cell(words, flow.asked.checked_sub(flow.granted))?;
    put_cell(words, flow.last)?;
    words.push('\n')
}

// The lines of all flows.
fn put_flows(words: &mut String, flows: &[FlowState]) -> Result<(), AllocError> {
    writeln!(words, "\nflows: {}", flows.len())?;
    if flows.is_empty() {
        return Ok(());
    }
    writeln!(
        words,
        "  SID  kind           asked      granted  outstanding   last grant"
    )?;
    for flow in flows {
        put_flow(words, flow)?;
    }
    Ok(())
}

// A level in bytes, and its burst; nothing where there is none.
fn put_level(
    words: &mut String,
    sid: u16,
    name: &str,
    level: Option<u64>,
    burst: u32,
) -> Result<(), AllocError> {
    let Some(level) = level else {
        return Ok(());
    };
    let (whole, part) = (level / UNITS, level % UNITS * 100 / UNITS);
    writeln!(words, "{sid:>5}  {name}  {whole:>10}.{part:02} of {burst}")
}

// The levels of all flows.
fn put_levels(words: &mut String, flows: &[FlowState]) -> Result<(), AllocError> {
    if !flows.iter().any(has_level) {
        return Ok(());
    }
    writeln!(
        words,
        "\nbytes that are left of bursts at the start of the last grant"
    )?;
    for flow in flows {
        put_level(
            words,
            flow.sid,
            "sustained",
            flow.sustained,
            flow.spec.burst(),
        )?;
        put_level(words, flow.sid, "peak     ", flow.peak, PEAK_BURST)?;
        put_level(
            words,
            flow.sid,
            "reserved ",
            flow.reserved,
            flow.spec.reserved_burst(),
        )?;
    }
    Ok(())
}

// Whether a flow has a level.
fn has_level(flow: &FlowState) -> bool {
    flow.sustained.is_some() || flow.peak.is_some() || flow.reserved.is_some()
}

// The requests of a flow that wait.
fn put_batch(words: &mut String, sid: u16, batch: BatchState) -> Result<(), AllocError> {
    write!(
        words,
        "{sid:>5}  up to byte {} since {}",
        batch.end, batch.first
    )?;
    match batch.second {
        Some(slot) => writeln!(words, ", then since {slot}"),
        None => words.push('\n'),
    }
}

// Those of all flows.
fn put_batches(words: &mut String, flows: &[FlowState]) -> Result<(), AllocError> {
    if !flows.iter().any(|flow| flow.batches.is_some()) {
        return Ok(());
    }
    writeln!(words, "\nrequests that wait")?;
    for flow in flows {
        if let Some(batch) = flow.batches {
            put_batch(words, flow.sid, batch)?;
        }
    }
    Ok(())
}

// The place of a flow.
fn put_place(words: &mut String, sid: u16, place: &PlaceState) -> Result<(), AllocError> {
    write!(
        words,
        "{sid:>5}  phase {} offset {}",
        place.phase, place.offset
    )?;
    if place.rests {
        write!(words, " rests")?;
    }
    write!(words, " starts")?;
    for start in place.starts.as_slice() {
        write!(words, " {start}")?;
    }
    words.push('\n')
}

// Those of all periodic flows.
fn put_places(words: &mut String, flows: &[FlowState]) -> Result<(), AllocError> {
    if !flows.iter().any(|flow| flow.place.is_some()) {
        return Ok(());
    }
    writeln!(words, "\nplaces in the cycle")?;
    for flow in flows {
        if let Some(place) = &flow.place {
            put_place(words, flow.sid, place)?;
        }
    }
    Ok(())
}

// What a Reserve is for.
fn put_usage(words: &mut String, usage: Usage) -> Result<(), AllocError> {
    match usage {
        Usage::Initial => write!(words, "initial maintenance"),
        Usage::InitialTo(sid) => write!(words, "initial maintenance to SID {sid}"),
        Usage::Station(sid) => write!(words, "station maintenance to SID {sid}"),
        Usage::Request(sid) => write!(words, "requests to SID {sid}"),
        Usage::Quiet => write!(words, "nobody"),
        Usage::DataTo(sid) => write!(words, "a data grant to SID {sid}"),
    }
}

// The Reserves that wait.
fn put_reserves(words: &mut String, reserves: &[ReserveState]) -> Result<(), AllocError> {
    writeln!(words, "\nreserves: {}", reserves.len())?;
    for reserve in reserves {
        write!(words, "  {} minislots of ", reserve.opportunity.slots)?;
        put_usage(words, reserve.opportunity.usage)?;
        writeln!(words, ", passed by {} MAPs", reserve.maps)?;
    }
    Ok(())
}

/// A state as a table.
pub(crate) fn table_text(alloc: Global, state: &ChannelState) -> Result<Vec<u8>, AllocError> {
    let mut words = String::new(alloc);
    let flows = state.flows.as_slice();
    put_times(&mut words, state)?;
    put_header(&mut words, state)?;
    put_flows(&mut words, flows)?;
    put_levels(&mut words, flows)?;
    put_batches(&mut words, flows)?;
    put_places(&mut words, flows)?;
    put_reserves(&mut words, state.reserves.as_slice())?;
    Ok(words.into_bytes())
}
