//! `mapsched` with the commands that are built first, `run`, `decode` and `pcap`: they stand on the scheduler and on
//! the readers of scripts. The program with all commands answers the same to them, but that it also knows the kind of
//! an input that they do not read.
#![tactic(auto)]

use clap::ArgMatches;
use clap::error::ErrorKind;
use command_line::{
    CommandInput, Terminals, done, exit_of, explain_words, fail, input_of, matches_of,
    point_to_check, refuse, refuse_file, refuse_terminal, tell_waiting, terminals_of, words_of,
};
use decode_command::{Form, JsonForm, STANDARD_INPUT, show, show_json};
use journal_entries::EntriesEnd;
use pcap_command::{ADDRESS, address_asked, frames_input, pcap_input, pcap_journal_input};
use run_command::{RunOutput, Words, run_input};
use std::fs::File;
use std::process::ExitCode;
use std::rt::{Env, Files};
use text_stream::{RunFault, Source, TextFault};

// What the command `run` is asked to write, but for whole frames.
fn output_of(run: &ArgMatches) -> RunOutput {
    if run.get_flag("explain") {
        return RunOutput::Lines(Words::Explained);
    }
    if run.get_flag("history") {
        return RunOutput::History;
    }
    if run.get_flag("journal") {
        return RunOutput::Journal;
    }
    RunOutput::Lines(Words::Plain)
}

// The command `run`.
fn run<R: Source>(
    rt: &(impl Print + Eprint + AllocGlobal),
    input: &mut CommandInput<R>,
    run: &ArgMatches,
) -> Result<(), RunFault> {
    if run.get_flag("frames") {
        return frames_input(rt, input, &ADDRESS);
    }
    run_input(rt, input, output_of(run))
}

// As what the command `decode` is asked to decode.
fn form_of(decode: &ArgMatches) -> Form {
    if decode.get_flag("frame") {
        return Form::Frame;
    }
    if decode.get_flag("explain") {
        return Form::Explained;
    }
    Form::Payload
}

// As what the command `decode` is asked to decode into JSON.
fn json_form_of(decode: &ArgMatches) -> JsonForm {
    if decode.get_flag("frame") {
        return JsonForm::Frame;
    }
    JsonForm::Payload
}

// The command `decode`: whether the text, or each line of standard input, is a payload, or a frame.
fn decode(
    rt: &(impl Input + Print + Eprint + Env + AllocGlobal),
    decode: &ArgMatches,
    terminals: Terminals,
) -> Result<bool, RunFault> {
    let text = decode.get_str("HEX").unwrap_or("");
    if text == STANDARD_INPUT {
        tell_waiting(rt, "decode", decode, terminals);
    }
    if decode.get_flag("json") {
        return show_json(rt, text, json_form_of(decode));
    }
    let columns = decode.get_one("columns");
    show(rt, text, form_of(decode), decode.get_flag("draw"), columns)
}

// The command `pcap` on a journal.
fn pcap_journal<R: Source>(
    rt: &(impl Print + Eprint + AllocGlobal),
    input: &mut CommandInput<R>,
    pcap: &ArgMatches,
    address: &[u8; 6],
) -> ExitCode {
    match pcap_journal_input(rt, input, address) {
        Ok(end) => {
            if let EntriesEnd::Bad(_) = end {
                point_to_check(rt, TextFault::NotJson, pcap);
            }
            ExitCode::from(end.status())
        }
        Err(fault) => fail(rt, fault),
    }
}

// The command `pcap`.
fn pcap<R: Source>(
    rt: &(impl Print + Eprint + AllocGlobal),
    input: &mut CommandInput<R>,
    pcap: &ArgMatches,
) -> ExitCode {
    let Some(address) = address_asked(pcap.get_str("mac")) else {
        let what = "an address is six bytes in hexadecimal, as 02:00:00:00:00:01";
        return refuse(rt, ErrorKind::ValueValidation, what);
    };
    if pcap.get_flag("journal") {
        return pcap_journal(rt, input, pcap, &address);
    }
    let outcome = pcap_input(rt, input, &address);
    done(rt, outcome, pcap)
}

// Does what a command is asked for that reads standard input, or the file that its word names.
fn over_input<R>(rt: &R, name: &str, words: &ArgMatches, terminals: Terminals) -> ExitCode
where
    R: Files<File = File> + Input + Print + Eprint + AllocGlobal,
{
    if name == "pcap" && terminals.output {
        return refuse_terminal(rt);
    }
    let Ok(mut input) = input_of(rt, words, 0) else {
        return refuse_file(rt, words);
    };
    tell_waiting(rt, name, words, terminals);
    if name == "pcap" {
        return pcap(rt, &mut input, words);
    }
    let outcome = run(rt, &mut input, words);
    done(rt, outcome, words)
}

// Does what the words of the command line ask for.
fn answer<R>(rt: &R, matches: &ArgMatches, terminals: Terminals) -> ExitCode
where
    R: Files<File = File> + Input + Print + Eprint + Env + AllocGlobal,
{
    match matches.subcommand() {
        Some(("decode", words)) => exit_of(rt, decode(rt, words, terminals)),
        Some((name @ ("run" | "pcap"), words)) => over_input(rt, name, words, terminals),
        _ => refuse(
            rt,
            ErrorKind::InvalidSubcommand,
            "this program has the commands run, decode and pcap",
        ),
    }
}

fn main(rt: HostRuntime) -> ExitCode {
    let Ok(words) = words_of(&rt) else {
        return fail(&rt, RunFault::Text(TextFault::Memory));
    };
    match matches_of(rt.alloc(), &words) {
        Ok(matches) => answer(&rt, &matches, terminals_of(rt)),
        Err(error) => explain_words(&rt, error, &words),
    }
}
