//! `bench`: what those parts of the scheduler cost on this machine that a program in C cannot measure. Each run prints
//! the figures of one part once, and `checks/figures` takes the middle of several. With no word it prints nothing.
#![tactic(auto)]

mod alone;
mod handing;
mod lock;
mod queue;
mod readers;
mod run;
mod storms;

use std::alloc::Global;
use std::process::ExitCode;
use std::rt::Env;
use std::sync::Wait;
use std::thread::Threads;
use std::time::{Clock, CpuClock};
use std::{env, io};

// The first word of the command line after the program's name.
fn word_of(rt: &(impl Env + AllocGlobal)) -> io::Result<Option<String>> {
    let mut words = env::args(rt)?;
    let _name = words.next();
    Ok(words.next())
}

// Prints the figures of a part. None where there is no such part; and within, none where a run did not do its work.
fn print<R: Threads + Wait + Sync + Clock + CpuClock + Print>(
    rt: &R,
    alloc: Global,
    part: &str,
) -> Option<Option<()>> {
    match part {
        "handing" => Some(handing::print(rt, alloc)),
        "lock" => Some(lock::print(rt, alloc)),
        "queue" => Some(queue::print(rt, alloc)),
        "readers" => Some(readers::print(rt, alloc)),
        "storm" => Some(storms::print(rt, alloc)),
        _ => None,
    }
}

fn main(rt: HostRuntime) -> ExitCode {
    let Ok(word) = word_of(&rt) else {
        return ExitCode::FAILURE;
    };
    let Some(word) = word else {
        return ExitCode::SUCCESS;
    };
    match print(&rt, rt.alloc(), word.as_str()) {
        Some(Some(())) => ExitCode::SUCCESS,
        Some(None) => ExitCode::FAILURE,
        None => {
            let _ = rt.eprintln("usage: bench [handing|lock|queue|readers|storm]");
            ExitCode::from(2)
        }
    }
}
