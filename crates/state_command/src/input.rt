//! The command over what the program has: an input, and standard output, which is written with no buffer, so that
//! nothing is left to flush.

use crate::form::{StateEnd, StateForm};
use crate::front::{Again, Front, read_front, read_rest};
use crate::history::state_of_history;
use crate::journal::state_of_journal;
use crate::kind::{InputKind, kind_of_line};
use crate::script::state_of_script;
use journal_entries::EntriesEnd;
use sched_lines::tell_unrecorded;
use segment_line::{FirstLine, read_first_line};
use std::alloc::{AllocError, Global};
use std::io;
use text_stream::{RunFault, Source, TextFault, Watched};

// What an input is that begins so.
fn kind_of(alloc: Global, front: &Front) -> Result<InputKind, AllocError> {
    match front.line {
        Some(_) => kind_of_line(alloc, first_line(front)),
        None => Ok(InputKind::Document),
    }
}

// The first line of an input, where a newline ends it.
fn first_line(front: &Front) -> &[u8] {
    let len = front.line.unwrap_or(0);
    &front.bytes[..len.min(front.bytes.len())]
}

// The state of a script, or else of a history. A document that is no script by its members or its configuration has
// the faults of a history.
#[inline(never)]
fn of_document(
    rt: &(impl Print + Eprint + AllocGlobal),
    text: &[u8],
    form: StateForm,
) -> Result<StateEnd, RunFault> {
    let mut bytes = text;
    let mut writer = Watched::new(io::writer(rt));
    match state_of_script(rt.alloc(), &mut bytes, &mut writer, form) {
        Ok(unrecorded) => {
            tell_unrecorded(rt, unrecorded);
            Ok(StateEnd::Written(0))
        }
        Err(RunFault::Text(TextFault::Shape(0))) => {
            let mut bytes = text;
            if state_of_history(rt.alloc(), &mut bytes, &mut writer, form)? {
                Ok(StateEnd::Written(0))
            } else {
                Ok(StateEnd::Illegal)
            }
        }
        Err(fault) => Err(fault),
    }
}

// That of a journal without a state.
fn of_journal<R: Source>(
    rt: &(impl Print + Eprint + AllocGlobal),
    reader: &mut R,
    form: StateForm,
) -> Result<StateEnd, RunFault> {
    let mut writer = Watched::new(io::writer(rt));
    let end = state_of_journal(rt.alloc(), reader, &mut writer, form)?;
    match end {
        StateEnd::Written(torn) => EntriesEnd::Legal(torn).tell(rt),
        StateEnd::Bad(line) => EntriesEnd::Bad(line).tell(rt),
        // What is illegal stands on standard output.
        StateEnd::Illegal | StateEnd::Segment => {}
    }
    Ok(end)
}

// How the command ends on a segment with this first line.
fn of_segment(rt: &(impl Eprint + AllocGlobal), line: &[u8]) -> Result<StateEnd, AllocError> {
    if let Some(FirstLine::Later(_)) = read_first_line(rt.alloc(), line)? {
        let _ = rt.eprintln("a segment that goes on after others is not judged yet");
        return Ok(StateEnd::Segment);
    }
    EntriesEnd::Bad(0).tell(rt);
    Ok(StateEnd::Bad(0))
}

/// The command `state`, of a script, a history or a journal, whichever its input is by its first line: how it ends. What
/// is torn, and which line is bad, is told on standard error.
pub fn state_input<R: Source>(
    rt: &(impl Print + Eprint + AllocGlobal),
    reader: &mut R,
    form: StateForm,
) -> Result<StateEnd, RunFault> {
    let mut front = read_front(rt.alloc(), reader)?;
    let Ok(kind) = kind_of(rt.alloc(), &front) else {
        return Err(RunFault::Text(TextFault::Memory));
    };
    match kind {
        InputKind::Document => {
            read_rest(&mut front.bytes, reader)?;
            of_document(rt, front.bytes.as_slice(), form)
        }
        InputKind::Journal => {
            let mut again = Again {
                front: front.bytes.as_slice(),
                reader,
            };
            of_journal(rt, &mut again, form)
        }
        InputKind::Segment => match of_segment(rt, first_line(&front)) {
            Ok(end) => Ok(end),
            Err(_) => Err(RunFault::Text(TextFault::Memory)),
        },
    }
}
