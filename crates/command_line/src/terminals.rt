//! Terminals at standard input and standard output: what is said where one is.

use crate::ends::refuse;
use crate::input::file_of;
use clap::ArgMatches;
use clap::error::ErrorKind;
use std::io::IsTerminal;
use std::process::ExitCode;

/// Whether standard input and standard output are terminals.
#[derive(Clone, Copy, Debug, PartialEq, Eq)]
pub struct Terminals {
    /// Standard input is.
    pub input: bool,
    /// Standard output is.
    pub output: bool,
}

/// Those of the program.
pub fn terminals_of(rt: HostRuntime) -> Terminals {
    Terminals {
        input: rt.stdin().is_terminal(),
        output: rt.stdout().is_terminal(),
    }
}

// What a command reads that may be a journal too.
fn document_or_journal(words: &ArgMatches, document: &'static str) -> &'static str {
    if words.get_flag("journal") {
        return "a journal on standard input (or name a file)";
    }
    document
}

// What a command waits for, where no word names a file in the place of standard input.
fn awaited(name: &str, words: &ArgMatches) -> Option<&'static str> {
    let script = "a script on standard input (or name a file)";
    let history = "a history on standard input (or name a file)";
    match name {
        "run" => Some(script),
        "pcap" => Some(document_or_journal(words, script)),
        "draw" => Some(document_or_journal(
            words,
            "a script or a history on standard input (or name a file)",
        )),
        "audit" | "report" => Some(document_or_journal(words, history)),
        "state" => { Some("a script, a history or a journal on standard input (or name a file)") }
        "storm" => Some("the script of a storm on standard input (or name a file)"),
        "check" => Some("what is to be checked on standard input (or name a file)"),
        "live" => Some("a configuration and calls on standard input, one in a line"),
        "bursts" => Some("a document with a configuration on standard input"),
        "decode" if words.get_flag("frame") => Some("frames on standard input, one in a line"),
        "decode" => Some("payloads on standard input, one in a line"),
        _ => None,
    }
}

/// Says on standard error what a command waits for that reads standard input, where that is a terminal.
pub fn tell_waiting(rt: &impl Eprint, name: &str, words: &ArgMatches, terminals: Terminals) {
    if !terminals.input || file_of(words).is_some() {
        return;
    }
    if let Some(what) = awaited(name, words) {
        let _ = rt.eprintln(format_args!("mapsched {name}: waiting for {what}"));
    }
}

/// Refuses to write a capture to a terminal.
pub fn refuse_terminal(rt: &(impl Print + Eprint + AllocGlobal)) -> ExitCode {
    let what =
        "a capture is not written to a terminal: put it into a file by > FILE, or into a pipe";
    refuse(rt, ErrorKind::Io, what)
}
