//! What is found in the input of a conversation, read line by line.

ghost use Rattle.std.specs.Prelude.{◌≡◌, ◌+◌, ◌-◌, ◌^◌, ◌<◌, ◌++◌, ◌∷◌, [], List, ℕ, IfOk, IfErr, OnOk};
ghost use Rattle.text_stream.specs.Told.{IsTold, untold};
ghost use Rattle.text_stream.specs.Watched.{FailsBy};
ghost use Rattle.live_command.specs.Spoken.{heard_of};
ghost use Rattle.check_lines.specs.Live.{HearsBad, Hears, HearsAll, FindsLive, verdict_of};
ghost use Rattle.check_lines.specs.Opening.{StopsLines};
ghost use Rattle.check_lines.specs.declared.told_line.ToldLine.{ToldLine};
ghost use Rattle.check_lines.specs.Bad.{bad_of};

use crate::opening::{Opening, read_opening};
use crate::told_line::ToldLine;
use crate::verdict::Verdict;
use crate::words::words_on_bad_line;
use json::Scratch;
use live_command::{LineFault, hear};
use std::alloc::Global;
use text_stream::{Lines, Source, TextFault, Told};

/// How many bad lines are told.
pub(crate) const MOST: u64 = 20;

/// The lines behind an opening, as far as they were heard.
#[derive(Drop)]
pub(crate) struct Conversation {
    /// How many of them are calls.
    pub calls: u64,
    /// How many of them are answered `bad line`.
    pub bad: u64,
    /// The first of the bad ones.
    pub told: Vec<ToldLine>,
}

/// What is found in the input of a conversation.
#[derive(Drop)]
pub(crate) enum LiveReport {
    /// The opening is lawful, and these are the lines behind it.
    Talk(Conversation),
    /// The opening has this fault, in this line, where there is one; and words on it.
    Faulty(TextFault, Option<u64>, String),
}

impl LiveReport {
    /// The verdict.
    pub fn verdict(&self) -> Verdict
        ensures { result ≡ verdict_of self.now }
    {
        match self {
            LiveReport::Talk(talk) => Verdict::Live(talk.bad),
            LiveReport::Faulty(fault, _, _) => Verdict::Opening(*fault),
        }
    }
}

// Puts a bad line behind those that are told.
fn push_told(told: &mut Vec<ToldLine>, line: ToldLine) -> Result<(), TextFault>
    ensures ok { OnOk result (told.new.items ≡ told.old.items ++ line ∷ []) }
    ensures err { IfErr result (λ e. e ≡ TextFault.Memory) }
{
    match told.push(line) {
        Ok(()) => Ok(()),
        Err(_) => Err(TextFault::Memory),
    }
}

// Tells of a bad line.
fn tell(
    alloc: Global,
    told: &mut Vec<ToldLine>,
    number: u64,
    fault: LineFault,
    shown: &[u8],
) -> Result<(), TextFault>
    ensures ok { OnOk result ((line : ToldLine)
        × (bad_of line ≡ record { number = number; fault = fault })
        × (told.new.items ≡ told.old.items ++ line ∷ [])) }
    ensures err { IfErr result (λ e. e ≡ TextFault.Memory) }
{
    let words = words_on_bad_line(alloc, number, fault, shown)?;
    let line = ToldLine {
        number,
        fault,
        words,
    };
    push_told(told, line)
}

// Takes a bad line.
fn take_bad(
    alloc: Global,
    talk: &mut Conversation,
    number: u64,
    fault: LineFault,
    shown: &[u8],
) -> Result<(), TextFault>
    requires fits { talk.old.bad < 2 ^ 64 - 1 }
    ensures ok { OnOk result (HearsBad number fault talk.old talk.new) }
    ensures err { IfErr result (λ e. e ≡ TextFault.Memory) }
{
    let is_told = talk.bad < MOST;
    talk.bad += 1;
    if is_told {
        return tell(alloc, &mut talk.told, number, fault, shown);
    }
    Ok(())
}

// Takes the line of this number that was told last.
fn take_line(
    alloc: Global,
    scratch: &mut Scratch,
    talk: &mut Conversation,
    number: u64,
    lines: &Lines,
    told: Told,
) -> Result<(), TextFault>
    requires calls_fit { talk.old.calls < 2 ^ 64 - 1 }
    requires bad_fits { talk.old.bad < 2 ^ 64 - 1 }
    ensures ok { OnOk result ((line : List ℕ) → IsTold line told lines.now.line →
        Hears number (heard_of line) talk.old talk.new) }
    ensures err { IfErr result (λ e. e ≡ TextFault.Memory) }
{
    match hear(alloc, scratch, lines, told) {
        Ok(None) => Ok(()),
        Ok(Some(Ok(_))) => {
            talk.calls += 1;
            Ok(())
        }
        Ok(Some(Err(fault))) => take_bad(alloc, talk, number, fault, lines.line()),
        Err(fault) => Err(fault),
    }
}

// Hears all lines that are left, behind so many others.
fn hear_lines<R: Source>(
    alloc: Global,
    scratch: &mut Scratch,
    passed: u64,
    lines: &mut Lines,
    reader: &mut R,
) -> Result<Conversation, TextFault>
    ensures hears { IfOk result (HearsAll passed (untold lines.old (R.remaining reader.old))
        (untold lines.new (R.remaining reader.new))) }
    ensures stops { IfErr result
        (StopsLines passed (untold lines.old (R.remaining reader.old)) (R.remaining reader.new)) }
    ensures failed { FailsBy TextFault.Input result
        (R.has_failed reader.old) (R.has_failed reader.new) }
{
    let mut talk = Conversation {
        calls: 0,
        bad: 0,
        told: Vec::new(alloc),
    };
    for before in passed..u64::MAX {
        match lines.next(reader) {
            Ok(Some(told)) => take_line(alloc, scratch, &mut talk, before + 1, lines, told)?,
            Ok(None) => return Ok(talk),
            Err(fault) => return Err(fault),
        }
    }
    Err(TextFault::TooLong)
}

/// Reads the input of a conversation to its end, as `live` does.
pub(crate) fn read_live<R: Source>(alloc: Global, reader: &mut R) -> Result<LiveReport, TextFault>
    ensures finds { IfOk result (FindsLive (R.remaining reader.old) (R.remaining reader.new)) }
    ensures stops { IfErr result
        (StopsLines 0 (R.remaining reader.old) (R.remaining reader.new)) }
    ensures failed { FailsBy TextFault.Input result
        (R.has_failed reader.old) (R.has_failed reader.new) }
{
    let mut lines = Lines::new(alloc)?;
    let mut scratch = Scratch::new(alloc);
    match read_opening(alloc, &mut scratch, &mut lines, reader) {
        Ok(Opening::Lawful(number)) => {
            let talk = hear_lines(alloc, &mut scratch, number, &mut lines, reader)?;
            Ok(LiveReport::Talk(talk))
        }
        Ok(Opening::Faulty(fault, place, words)) => Ok(LiveReport::Faulty(fault, place, words)),
        Err(fault) => Err(fault),
    }
}
