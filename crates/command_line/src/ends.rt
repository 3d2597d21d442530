//! How a program ends: what it says, and its exit code.

ghost use Rattle.std.specs.Prelude.{◌≡◌, ◌≢◌, IfOk, IfErr, if◌then◌else◌};
ghost use Rattle.std.specs.Process.{exit_status};
ghost use Rattle.text_stream.specs.RunFault.{exit_status_of};
ghost use Rattle.command_line.specs.Ends.{is_found_by_check};
ghost use Rattle.clap.specs.Values.{kind_of};

use crate::commands;
use crate::input::file_of;
use clap::error::ErrorKind;
use clap::{ArgMatches, Error};
use std::alloc::{AllocError, Global};
use std::process::ExitCode;
use std::rt::Env;
use std::{env, io};
use text_stream::{RunFault, TextFault};

// What the words of `bursts` are.
const BURSTS_WANTS: &str =
    "bursts takes numbers of bytes, from 1 to 1048560, and reads its configuration from \
                            standard input: mapsched bursts < FILE";

/// The words of the command line.
pub fn words_of(rt: &(impl Env + AllocGlobal)) -> io::Result<Vec<String>> {
    Ok(env::args(rt)?.collect(rt.alloc())?)
}

/// What the words of the command line ask for.
pub fn matches_of<'a>(alloc: Global, words: &'a [String]) -> Result<ArgMatches<'a>, Error> {
    commands(alloc)?.try_get_matches_from(words)
}

/// Prints a fault on standard error. The exit code is the fault's.
pub fn fail(rt: &impl Eprint, fault: RunFault) -> ExitCode
    ensures { exit_status result ≡ exit_status_of fault }
{
    let _ = rt.eprintln(fault);
    ExitCode::from(fault.status())
}

/// Prints a fault of the command line, or the help that was asked for, which may fail.
pub fn explain(rt: &(impl Print + Eprint), error: Error) -> ExitCode
    ensures memory { kind_of error ≡ ErrorKind.OutOfMemory → exit_status result ≡ 4 }
{
    if error.kind() == ErrorKind::OutOfMemory {
        return fail(rt, RunFault::Text(TextFault::Memory));
    }
    let printed = error.print(rt);
    if printed.is_err() && !error.use_stderr() {
        return fail(rt, RunFault::Text(TextFault::Output));
    }
    ExitCode::from(error.exit_code() as u8)
}

// What a command wants of a word whose value was refused, where it is not what the fault tells.
fn wanted_by(kind: ErrorKind, name: &str) -> Option<&'static str> {
    match (kind, name) {
        (ErrorKind::ValueValidation, "bursts") => Some(BURSTS_WANTS),
        _ => None,
    }
}

/// Prints a fault in these words of the command line as [`explain`] does, and behind it what the command that they name
/// wants, where a word was given for a number of bytes that is none.
pub fn explain_words(rt: &(impl Print + Eprint), error: Error, words: &[String]) -> ExitCode
    ensures memory { kind_of error ≡ ErrorKind.OutOfMemory → exit_status result ≡ 4 }
{
    let name = words.get(1).map_or("", |word| word.as_str());
    let wanted = wanted_by(error.kind(), name);
    let code = explain(rt, error);
    if let Some(wanted) = wanted {
        let _ = rt.eprintln(wanted);
    }
    code
}

// A fault of the command line.
fn fault_of(alloc: Global, kind: ErrorKind, what: &str) -> Result<Error, AllocError> {
    commands(alloc)?.error(kind, what)
}

/// Refuses the command line for what it has.
pub fn refuse(rt: &(impl Print + Eprint + AllocGlobal), kind: ErrorKind, what: &str) -> ExitCode {
    match fault_of(rt.alloc(), kind, what) {
        Ok(error) => explain(rt, error),
        Err(fault) => explain(rt, fault.into()),
    }
}

/// The exit code of a command that finds nothing but that all was done, or a fault. Where its input is wrong, a further
/// line points to the command that says where.
pub fn done(rt: &impl Eprint, outcome: Result<(), RunFault>, words: &ArgMatches) -> ExitCode
    ensures done { IfOk outcome (λ _. exit_status result ≡ 0) }
    ensures failed { IfErr outcome (λ fault. exit_status result ≡ exit_status_of fault) }
{
    let code = exit_of(rt, outcome.map(|()| true));
    if let Err(RunFault::Text(fault)) = outcome {
        point_to_check(rt, fault, words);
    }
    code
}

/// The exit code of a command that finds all well or not.
pub fn exit_of(rt: &impl Eprint, outcome: Result<bool, RunFault>) -> ExitCode
    ensures found { IfOk outcome (λ is_well. exit_status result ≡ (if is_well then 0 else 1)) }
    ensures failed { IfErr outcome (λ fault. exit_status result ≡ exit_status_of fault) }
{
    match outcome {
        Ok(true) => ExitCode::SUCCESS,
        Ok(false) => ExitCode::FAILURE,
        Err(fault) => fail(rt, fault),
    }
}

// Whether `check` says where a fault is.
fn is_found_by_check(fault: TextFault) -> bool
    ensures { result ≡ is_found_by_check fault }
{
    matches!(
        fault,
        TextFault::NotJson | TextFault::Shape(_) | TextFault::Config(_)
    )
}

/// Points on standard error, behind the line of a fault, to the command that says where in the input it is, if it does.
pub fn point_to_check(rt: &impl Eprint, fault: TextFault, words: &ArgMatches) {
    if !is_found_by_check(fault) {
        return;
    }
    let _ = match file_of(words) {
        Some(name) => rt.eprintln(format_args!("mapsched check {name} says where the fault is")),
        None => rt.eprintln("mapsched check says where the fault is"),
    };
}

/// Refuses the file that a command is to read, which is not opened.
pub fn refuse_file(rt: &impl Eprint, words: &ArgMatches) -> ExitCode
    ensures { exit_status result ≡ 3 }
{
    let code = fail(rt, RunFault::Text(TextFault::Input));
    if let Some(name) = file_of(words) {
        let _ = rt.eprintln(format_args!("{name} cannot be opened"));
    }
    code
}
