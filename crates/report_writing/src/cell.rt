//! What stands under the keys of a report's JSON: whole numbers, names, and how delays are spread.

ghost use Rattle.std.specs.Prelude.{◌≡◌, ◌++◌, ◌∷◌, length, OnOk};
ghost use Rattle.json.specs.Token.{key};
ghost use Rattle.serde_json.specs.Data.{Members};
ghost use Rattle.history_writing.specs.Json.{count};
ghost use Rattle.history_writing.specs.Tokens.{tokens_of};
ghost use Rattle.report_writing.specs.Cells.{cell_data, delay_data, spread_data, with_cell, object_of, tokens_to_end};

use itoa::Buffer;
use json::Writer;
use std::alloc::AllocError;

// The delays of the requests that were served, in minislots: none of the four where none was served.
#[derive(Clone, Copy)]
pub(crate) struct Spread {
    pub(crate) greatest: Option<u64>,
    pub(crate) least: Option<u64>,
    pub(crate) middle: Option<u64>,
    pub(crate) p99: Option<u64>,
}

// What stands under a key.
#[derive(Clone, Copy)]
pub(crate) enum Cell {
    // A whole number.
    Count(u128),
    // A whole number, or null where there is none.
    Maybe(Option<u64>),
    // A whole number, where there is none not even its key.
    Given(Option<u128>),
    // A name.
    Name(&'static str),
    // How delays are spread.
    Delay(Spread),
}

// Writes a whole number.
fn put_count(out: &mut Writer, number: u128) -> Result<(), AllocError>
    ensures ok { OnOk result (out.new.tokens ≡ out.old.tokens ++ tokens_of (count number)) }
    ensures before { out.new.before ≡ out.old.before }
{
    let mut buffer = Buffer::new();
    out.number(buffer.format(number))
}

// Writes a whole number under a key.
fn put_count_at(out: &mut Writer, name: &str, number: u64) -> Result<(), AllocError>
    ensures ok { OnOk result (out.new.tokens
        ≡ out.old.tokens ++ key name.now ∷ tokens_of (count number)) }
    ensures before { out.new.before ≡ out.old.before }
{
    out.key(name)?;
    out.u64(number)
}

// Writes how delays are spread.
fn put_spread(
    out: &mut Writer,
    greatest: u64,
    least: u64,
    middle: u64,
    p99: u64,
) -> Result<(), AllocError>
    ensures ok { OnOk result (out.new.tokens
        ≡ out.old.tokens ++ tokens_of (spread_data greatest least middle p99)) }
    ensures before { out.new.before ≡ out.old.before }
{
    out.begin_object()?;
    put_count_at(out, "greatest", greatest)?;
    put_count_at(out, "least", least)?;
    put_count_at(out, "middle", middle)?;
    put_count_at(out, "p99", p99)?;
    out.end_object()
}

// Writes how delays are spread, or null where there are none.
fn put_delay(out: &mut Writer, spread: Spread) -> Result<(), AllocError>
    ensures ok { OnOk result (out.new.tokens ≡ out.old.tokens ++ tokens_of
        (delay_data spread.greatest spread.least spread.middle spread.p99)) }
    ensures before { out.new.before ≡ out.old.before }
{
    match (spread.greatest, spread.least, spread.middle, spread.p99) {
        (Some(greatest), Some(least), Some(middle), Some(p99)) => {
            put_spread(out, greatest, least, middle, p99)
        }
        _ => out.null(),
    }
}

// Writes what stands under a key.
pub(crate) fn put_cell(out: &mut Writer, cell: Cell) -> Result<(), AllocError>
    ensures ok { OnOk result (out.new.tokens ≡ out.old.tokens ++ tokens_of (cell_data cell)) }
    ensures before { out.new.before ≡ out.old.before }
{
    match cell {
        Cell::Count(number) => put_count(out, number),
        Cell::Maybe(Some(number)) => out.u64(number),
        Cell::Given(Some(number)) => put_count(out, number),
        Cell::Maybe(None) | Cell::Given(None) => out.null(),
        Cell::Name(name) => out.string(name),
        Cell::Delay(spread) => put_delay(out, spread),
    }
}

// Writes a member, where it is not left out. Other members may follow.
fn put_member(out: &mut Writer, key: &str, cell: Cell) -> Result<(), AllocError>
    ensures ok { OnOk result ((others : Members) → out.new.tokens ++ tokens_to_end others
        ≡ out.old.tokens ++ tokens_to_end (with_cell key.now cell others)) }
    ensures before { out.new.before ≡ out.old.before }
{
    match cell {
        Cell::Given(None) => Ok(()),
        _ => {
            out.key(key)?;
            put_cell(out, cell)
        }
    }
}

// Writes an object: each of these under the key at its place.
pub(crate) fn put_object(out: &mut Writer, keys: &[&str], cells: &[Cell]) -> Result<(), AllocError>
    requires { length keys.now ≡ length cells.now }
    ensures ok { OnOk result (out.new.tokens
        ≡ out.old.tokens ++ tokens_of (object_of keys.now cells.now)) }
    ensures before { out.new.before ≡ out.old.before }
{
    out.begin_object()?;
    for index in 0..cells.len() {
        put_member(out, keys[index], cells[index])?;
    }
    out.end_object()
}
