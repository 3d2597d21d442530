//! `mapsched`: the upstream scheduler of one TDMA channel, run on a script, the picture of its frames, the capture of
//! its MAPs, the table of a MAP, the audit of a history, the report on one, the state after one, and what bursts take.
#![tactic(auto)]

mod asked;
mod over_input;

use asked::{bursts_form_of, decode_form_of, json_form_of, sizes_of, wording_of};
use bursts_command::bursts_input;
use clap::ArgMatches;
use clap::error::ErrorKind;
use command_line::{
    Terminals, done, exit_of, explain_words, fail, matches_of, refuse, tell_waiting, terminals_of,
    words_of,
};
use decode_command::{STANDARD_INPUT, show, show_json};
use journal_file::live_journal_input;
use live_command::live_input;
use over_input::over_input;
use std::fs::File;
use std::process::ExitCode;
use std::rt::{Env, Files};
use std::sync::Wait;
use std::thread::Threads;
use text_stream::{RunFault, TextFault};

// The command `decode`: whether the text, or each line of standard input, is a payload, or a frame.
#[inline(never)]
fn decode(
    rt: &(impl Input + Print + Eprint + Env + AllocGlobal),
    decode: &ArgMatches,
    terminals: Terminals,
) -> Result<bool, RunFault> {
    let text = decode.get_str("HEX").unwrap_or("");
    if text == STANDARD_INPUT {
        tell_waiting(rt, "decode", decode, terminals);
    }
    if decode.get_flag("json") {
        return show_json(rt, text, json_form_of(decode));
    }
    let columns = decode.get_one("columns");
    show(
        rt,
        text,
        decode_form_of(decode),
        decode.get_flag("draw"),
        columns,
    )
}

// The command `bursts`.
#[inline(never)]
fn bursts(
    rt: &(impl Input + Print + Eprint + AllocGlobal),
    bursts: &ArgMatches,
    terminals: Terminals,
) -> Result<(), RunFault> {
    tell_waiting(rt, "bursts", bursts, terminals);
    let Ok(sizes) = sizes_of(rt.alloc(), bursts) else {
        return Err(RunFault::Text(TextFault::Memory));
    };
    bursts_input(rt, bursts_form_of(bursts), &sizes)
}

// The command `live` with a journal.
#[inline(never)]
fn live_journal<R: Files<File = File> + Input + Print + Eprint + AllocGlobal>(
    rt: &R,
    path: &str,
    live: &ArgMatches,
) -> ExitCode {
    match live_journal_input(rt, path, wording_of(live), live.get_flag("sync")) {
        Ok(()) => ExitCode::SUCCESS,
        Err(fault) => {
            let _ = rt.eprintln(fault);
            ExitCode::from(fault.status())
        }
    }
}

// The command `live`: ends as the other commands do, but for a fault of its own.
#[inline(never)]
fn live<R: Files<File = File> + Input + Print + Eprint + AllocGlobal>(
    rt: &R,
    live: &ArgMatches,
    terminals: Terminals,
) -> ExitCode {
    tell_waiting(rt, "live", live, terminals);
    if let Some(path) = live.get_str("journal") {
        return live_journal(rt, path, live);
    }
    match live_input(rt, wording_of(live)) {
        Ok(()) => ExitCode::SUCCESS,
        Err(fault) => {
            let _ = rt.eprintln(fault);
            if let Some(hint) = fault.hint() {
                let _ = rt.eprintln(hint);
            }
            ExitCode::from(fault.status())
        }
    }
}

// Does what the words of the command line ask for. No command is put into this function, nor the form for journals into
// that of its command: a frame on the stack has the room of all that is put into a function.
fn answer<R>(rt: &R, matches: &ArgMatches, terminals: Terminals) -> ExitCode
where
    R: Files<File = File> + Input + Print + Eprint + Env + AllocGlobal + Threads + Wait + Sync,
{
    match matches.subcommand() {
        Some(("decode", words)) => exit_of(rt, decode(rt, words, terminals)),
        Some(("live", words)) => live(rt, words, terminals),
        Some(("bursts", words)) => done(rt, bursts(rt, words, terminals), words),
        Some((name, words)) => over_input(rt, name, words, terminals),
        // The command line lets nothing else through.
        None => refuse(rt, ErrorKind::InvalidSubcommand, "unrecognized subcommand"),
    }
}

fn main(rt: HostRuntime) -> ExitCode {
    let Ok(words) = words_of(&rt) else {
        return fail(&rt, RunFault::Text(TextFault::Memory));
    };
    match matches_of(rt.alloc(), &words) {
        Ok(matches) => answer(&rt, &matches, terminals_of(rt)),
        Err(error) => explain_words(&rt, error, &words),
    }
}
