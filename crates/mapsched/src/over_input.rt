//! The commands that read an input: standard input, or a file that is named. No command is put into another function,
//! nor the form for journals into that of its command: a frame on the stack has the room of all that is put into a
//! function.

use crate::asked::{
    audit_form_of, check_form_of, every_of, form_of, journal_form_of, output_of, range_of,
    state_form_of,
};
use audit_command::{JournalEnd, audit_input, audit_journal_input};
use check_lines::{Documents, Journals, Reads, check_any_input, tell_input};
use clap::ArgMatches;
use clap::error::ErrorKind;
use command_line::{
    CommandInput, KEPT_DOCUMENT, KEPT_LINES, Terminals, exit_of, fail, input_of, point_to_check,
    refuse, refuse_file, refuse_terminal, tell_waiting,
};
use draw_command::{draw_input, draw_journal_input};
use journal_entries::EntriesEnd;
use pcap_command::{ADDRESS, address_asked, frames_input, pcap_input, pcap_journal_input};
use report_command::{report_input, report_journal_input, series_input, series_of_journal_input};
use run_command::run_input;
use sched_storm::storm_input;
use state_command::{StateEnd, state_input};
use std::fs::File;
use std::process::ExitCode;
use std::rt::Files;
use std::sync::Wait;
use std::thread::Threads;
use text_stream::{RunFault, Source, TextFault};

// What a command reads: these documents, or a journal where that is asked for.
fn reads_or_journal(documents: Documents, words: &ArgMatches) -> Reads {
    let journals = if words.get_flag("journal") {
        Journals::Asked
    } else {
        Journals::Unasked
    };
    Reads {
        documents,
        journals,
    }
}

// What a command reads.
fn reads_of(name: &str, words: &ArgMatches) -> Reads {
    let journals = Journals::Never;
    match name {
        "audit" | "report" => reads_or_journal(Documents::Histories, words),
        "draw" => reads_or_journal(Documents::Both, words),
        "pcap" => reads_or_journal(Documents::Scripts, words),
        "storm" => Reads {
            documents: Documents::Storms,
            journals,
        },
        "state" => Reads {
            documents: Documents::Both,
            journals,
        },
        _ => Reads {
            documents: Documents::Scripts,
            journals,
        },
    }
}

// The most bytes that are kept of an input.
fn most_kept(name: &str, reads: Reads) -> usize {
    match reads.journals {
        _ if name == "check" => 0,
        _ if name == "state" => KEPT_LINES,
        Journals::Asked => KEPT_LINES,
        _ => KEPT_DOCUMENT,
    }
}

// An input that the command of a name reads.
#[derive(Drop)]
struct Given<'a, 'w, R> {
    name: &'a str,
    input: CommandInput<R>,
    reads: Reads,
    words: &'a ArgMatches<'w>,
}

// Tells behind a fault of the input what it is, where the command reads another, or else which command says where the
// fault is.
#[inline(never)]
fn advise<R: Source>(rt: &(impl Eprint + AllocGlobal), fault: TextFault, given: &Given<'_, '_, R>) {
    if matches!(
        fault,
        TextFault::Input | TextFault::Memory | TextFault::Output
    ) {
        return;
    }
    if !tell_input(rt, given.input.kept(), given.name, given.reads) {
        point_to_check(rt, fault, given.words);
    }
}

// The exit code of a command that finds all well or not.
fn ended<R: Source>(
    rt: &(impl Eprint + AllocGlobal),
    outcome: Result<bool, RunFault>,
    given: &Given<'_, '_, R>,
) -> ExitCode {
    let code = exit_of(rt, outcome);
    if let Err(RunFault::Text(fault)) = outcome {
        advise(rt, fault, given);
    }
    code
}

// The exit code of a command over a journal.
fn ended_journal<R: Source>(
    rt: &(impl Eprint + AllocGlobal),
    outcome: Result<EntriesEnd, RunFault>,
    given: &Given<'_, '_, R>,
) -> ExitCode {
    match outcome {
        Ok(end) => {
            if let EntriesEnd::Bad(_) = end {
                advise(rt, TextFault::NotJson, given);
            }
            ExitCode::from(end.status())
        }
        Err(fault) => fail(rt, fault),
    }
}

// The command `run`.
#[inline(never)]
fn run<R: Source>(
    rt: &(impl Print + Eprint + AllocGlobal),
    given: &mut Given<'_, '_, R>,
) -> Result<(), RunFault> {
    if given.words.get_flag("frames") {
        return frames_input(rt, &mut given.input, &ADDRESS);
    }
    run_input(rt, &mut given.input, output_of(given.words))
}

// The command `pcap` on a journal.
#[inline(never)]
fn pcap_journal<R: Source>(
    rt: &(impl Print + Eprint + AllocGlobal),
    given: &mut Given<'_, '_, R>,
    address: &[u8; 6],
) -> ExitCode {
    let outcome = pcap_journal_input(rt, &mut given.input, address);
    ended_journal(rt, outcome, given)
}

// The command `pcap`.
#[inline(never)]
fn pcap<R: Source>(
    rt: &(impl Print + Eprint + AllocGlobal),
    given: &mut Given<'_, '_, R>,
) -> ExitCode {
    let Some(address) = address_asked(given.words.get_str("mac")) else {
        let what = "an address is six bytes in hexadecimal, as 02:00:00:00:00:01";
        return refuse(rt, ErrorKind::ValueValidation, what);
    };
    if given.words.get_flag("journal") {
        return pcap_journal(rt, given, &address);
    }
    let outcome = pcap_input(rt, &mut given.input, &address);
    ended(rt, outcome.map(|()| true), given)
}

// The command `audit` on a journal.
#[inline(never)]
fn audit_journal<R: Source>(
    rt: &(impl Print + Eprint + AllocGlobal),
    given: &mut Given<'_, '_, R>,
) -> ExitCode {
    match audit_journal_input(rt, &mut given.input, journal_form_of(given.words)) {
        Ok(JournalEnd::Legal(_)) => ExitCode::SUCCESS,
        Ok(JournalEnd::Illegal) => ExitCode::FAILURE,
        Ok(JournalEnd::Bad(line)) => ended_journal(rt, Ok(EntriesEnd::Bad(line)), given),
        Err(fault) => fail(rt, fault),
    }
}

// The command `audit`.
#[inline(never)]
fn audit<R: Source>(
    rt: &(impl Print + Eprint + AllocGlobal),
    given: &mut Given<'_, '_, R>,
) -> ExitCode {
    if given.words.get_flag("journal") {
        return audit_journal(rt, given);
    }
    let outcome = audit_input(rt, &mut given.input, audit_form_of(given.words));
    ended(rt, outcome, given)
}

// The command `draw` on a journal.
#[inline(never)]
fn draw_journal<R: Source>(
    rt: &(impl Print + Eprint + AllocGlobal),
    given: &mut Given<'_, '_, R>,
    from: u64,
    count: u64,
) -> ExitCode {
    let outcome = draw_journal_input(rt, &mut given.input, from, count);
    ended_journal(rt, outcome, given)
}

// The command `draw`: all frames, or those that are asked for.
#[inline(never)]
fn draw<R: Source>(
    rt: &(impl Print + Eprint + AllocGlobal),
    given: &mut Given<'_, '_, R>,
) -> ExitCode {
    let from = given.words.get_one("from").unwrap_or(0);
    let count = given.words.get_one("count").unwrap_or(u64::MAX);
    if given.words.get_flag("journal") {
        return draw_journal(rt, given, from, count);
    }
    let outcome = draw_input(rt, &mut given.input, from, count);
    ended(rt, outcome.map(|()| true), given)
}

// The command `report` on a journal.
#[inline(never)]
fn report_journal<R: Source>(
    rt: &(impl Print + Eprint + AllocGlobal),
    given: &mut Given<'_, '_, R>,
) -> ExitCode {
    let form = form_of(given.words);
    let outcome = match every_of(given.words) {
        Some(every) => series_of_journal_input(rt, &mut given.input, form, every),
        None => report_journal_input(rt, &mut given.input, form, range_of(given.words)),
    };
    ended_journal(rt, outcome, given)
}

// The command `report`.
#[inline(never)]
fn report<R: Source>(
    rt: &(impl Print + Eprint + AllocGlobal),
    given: &mut Given<'_, '_, R>,
) -> ExitCode {
    if given.words.get_flag("journal") {
        return report_journal(rt, given);
    }
    let form = form_of(given.words);
    let outcome = match every_of(given.words) {
        Some(every) => series_input(rt, &mut given.input, form, every),
        None => report_input(rt, &mut given.input, form, range_of(given.words)),
    };
    ended(rt, outcome, given)
}

// The command `state`, which reads a journal where its input is one.
#[inline(never)]
fn state<R: Source>(
    rt: &(impl Print + Eprint + AllocGlobal),
    given: &mut Given<'_, '_, R>,
) -> ExitCode {
    match state_input(rt, &mut given.input, state_form_of(given.words)) {
        Ok(end) => {
            if let StateEnd::Bad(_) = end {
                // It was read as a journal.
                given.reads.journals = Journals::Asked;
                advise(rt, TextFault::NotJson, given);
            }
            ExitCode::from(end.status())
        }
        Err(fault) => ended(rt, Err(fault), given),
    }
}

// The command `storm`.
#[inline(never)]
fn storm<R: Source>(
    rt: &(impl Print + Eprint + AllocGlobal + Threads + Wait + Sync),
    given: &mut Given<'_, '_, R>,
) -> ExitCode {
    let outcome = storm_input(rt, &mut given.input);
    ended(rt, outcome, given)
}

// The command `check`: ends as the command for such a file would, by what is found.
#[inline(never)]
fn check<R: Source + Drop>(
    rt: &(impl Print + Eprint + AllocGlobal),
    input: CommandInput<R>,
    words: &ArgMatches,
) -> ExitCode {
    match check_any_input(rt, input, check_form_of(words)) {
        Ok(verdict) => ExitCode::from(verdict.status()),
        Err(fault) => fail(rt, fault),
    }
}

/// Does what a command is asked for that reads standard input, or the file that its word names.
pub(crate) fn over_input<R>(
    rt: &R,
    name: &str,
    words: &ArgMatches,
    terminals: Terminals,
) -> ExitCode
where
    R: Files<File = File> + Input + Print + Eprint + AllocGlobal + Threads + Wait + Sync,
{
    if name == "pcap" && terminals.output {
        return refuse_terminal(rt);
    }
    let reads = reads_of(name, words);
    let Ok(input) = input_of(rt, words, most_kept(name, reads)) else {
        return refuse_file(rt, words);
    };
    tell_waiting(rt, name, words, terminals);
    let mut given = Given {
        name,
        input,
        reads,
        words,
    };
    match name {
        "draw" => draw(rt, &mut given),
        "audit" => audit(rt, &mut given),
        "check" => check(rt, given.input, words),
        "report" => report(rt, &mut given),
        "state" => state(rt, &mut given),
        "storm" => storm(rt, &mut given),
        "pcap" => pcap(rt, &mut given),
        _ => {
            let outcome = run(rt, &mut given);
            ended(rt, outcome.map(|()| true), &given)
        }
    }
}
