//! The command line of the program: its commands, their options and what the help says of them.
#![tactic(auto)]

mod ends;
mod help;
mod input;
mod terminals;

ghost use Rattle.std.specs.Prelude.{◌∷◌, ◌++◌, [], IfOk, codes};
ghost use Rattle.command_line.specs.Taken.{IsCommand, IsOption};

use clap::builder::ValueParser;
use clap::{Arg, ArgAction, Command};
pub use ends::{
    done, exit_of, explain, explain_words, fail, matches_of, point_to_check, refuse, refuse_file,
    words_of,
};
pub use input::{CommandInput, KEPT_DOCUMENT, KEPT_LINES, Opened, input_of};
use std::alloc::{AllocError, Global};
pub use terminals::{Terminals, refuse_terminal, tell_waiting, terminals_of};

// The most milliseconds that an option takes: more than a channel's clock may count.
const MOST_MILLISECONDS: u64 = 1_000_000_000_000_000_000;

// A command, and what its help says before and behind its words.
fn command<'a>(alloc: Global, name: &'a str, about: &'a str, after: &'a str) -> Command<'a>
    ensures { IsCommand result name.entry.now [] [] }
{
    Command::new(alloc, name).about(about).after_help(after)
}

// A command with a word more.
fn with_word<'a>(
    command: Result<Command<'a>, AllocError>,
    word: Arg<'a>,
) -> Result<Command<'a>, AllocError>
    ensures { (name id : _) (ids subs : _) → IfOk command.entry (λ c. IsCommand c name ids subs)
        → IsOption word.entry id → IfOk result (λ r. IsCommand r name (ids ++ id ∷ []) subs) }
{
    command?.arg(word)
}

// A command with an option more.
fn with_option<'a>(
    command: Result<Command<'a>, AllocError>,
    option: Result<Arg<'a>, AllocError>,
) -> Result<Command<'a>, AllocError>
    ensures { (name id : _) (ids subs : _) → IfOk command.entry (λ c. IsCommand c name ids subs)
        → IfOk option.entry (λ a. IsOption a id) → IfOk result (λ r. IsCommand r name (ids ++ id ∷ []) subs) }
{
    command?.arg(option?)
}

// A program with a command more.
fn with_command<'a>(
    program: Result<Command<'a>, AllocError>,
    command: Result<Command<'a>, AllocError>,
) -> Result<Command<'a>, AllocError>
    ensures { (name called : _) (ids words subs none : _) → IfOk program.entry (λ p. IsCommand p name ids subs)
        → IfOk command.entry (λ c. IsCommand c called words none)
        → IfOk result (λ r. IsCommand r name ids (subs ++ (called, words) ∷ [])) }
{
    program?.subcommand(command?)
}

// An option that is given or not.
fn flag<'a>(alloc: Global, name: &'a str, help: &'a str) -> Arg<'a>
    ensures { IsOption result name.entry.now }
{
    let option = Arg::new(alloc, name).long(name);
    option.action(ArgAction::SetTrue).help(help)
}

// An option that is not given beside another.
fn against<'a>(option: Result<Arg<'a>, AllocError>, other: &'a str) -> Result<Arg<'a>, AllocError>
    ensures { (id : _) → IfOk option.entry (λ a. IsOption a id) → IfOk result (λ a. IsOption a id) }
{
    option?.conflicts_with(other)
}

// The file that is read in the place of standard input.
fn file_word<'a>(alloc: Global) -> Arg<'a>
    ensures { IsOption result (codes "FILE") }
{
    Arg::new(alloc, "FILE").help("The file that is read, or - for standard input")
}

// What a run prints as a journal, in place of its history.
fn run_journal_option<'a>(alloc: Global) -> Result<Arg<'a>, AllocError>
    ensures { IfOk result (λ r. IsOption r (codes "journal")) }
{
    let about = "Prints the history as a journal, a line for each entry";
    flag(alloc, "journal", about).conflicts_with("history")
}

// The words behind refusals.
fn run_explain_option<'a>(alloc: Global) -> Result<Arg<'a>, AllocError>
    ensures { IfOk result (λ r. IsOption r (codes "explain")) }
{
    let explain = flag(alloc, "explain", "Says after each refusal what it means");
    against(explain.conflicts_with("history"), "journal")
}

// The whole frames of MAPs.
fn frames_flag<'a>(alloc: Global) -> Arg<'a>
    ensures { IsOption result (codes "frames") }
{
    flag(alloc, "frames", "Prints the whole frame of each MAP")
}

// The whole frames of the MAPs of a run.
fn run_frames_option<'a>(alloc: Global) -> Result<Arg<'a>, AllocError>
    ensures { IfOk result (λ r. IsOption r (codes "frames")) }
{
    let frames = frames_flag(alloc).conflicts_with("history");
    against(against(frames, "explain"), "journal")
}

// The command that runs a script.
fn run_command<'a>(alloc: Global) -> Result<Command<'a>, AllocError>
    ensures { IfOk result (λ r. IsCommand r (codes "run")
        (codes "history" ∷ codes "journal" ∷ codes "explain" ∷ codes "frames" ∷ codes "FILE" ∷ [])
        []) }
{
    let about = "Reads a script from standard input and prints one line for each call";
    let history = flag(alloc, "history", "Prints the history of the calls in JSON");
    let words = Ok(command(alloc, "run", about, help::RUN));
    let words = with_word(words, history);
    let words = with_option(words, run_journal_option(alloc));
    let words = with_option(words, run_explain_option(alloc));
    let words = with_option(words, run_frames_option(alloc));
    with_word(words, file_word(alloc))
}

// The address of a sender.
fn address_option<'a>(alloc: Global) -> Arg<'a>
    ensures { IsOption result (codes "mac") }
{
    let address = Arg::new(alloc, "mac").long("mac").value_name("ADDRESS");
    address.help("The sender's address, or else 02:00:00:00:00:01")
}

// That a journal is read.
fn journal_option<'a>(alloc: Global) -> Arg<'a>
    ensures { IsOption result (codes "journal") }
{
    flag(alloc, "journal", "Reads a journal, of any length")
}

// The command that writes a capture.
fn pcap_command<'a>(alloc: Global) -> Result<Command<'a>, AllocError>
    ensures { IfOk result
        (λ r. IsCommand r (codes "pcap") (codes "mac" ∷ codes "journal" ∷ codes "FILE" ∷ []) []) }
{
    let about = "Reads a script from standard input and writes its MAPs as a capture for Wireshark";
    let words = Ok(command(alloc, "pcap", about, help::PCAP));
    let words = with_word(words, address_option(alloc));
    let words = with_word(words, journal_option(alloc));
    with_word(words, file_word(alloc))
}

// The payload of the command `decode`.
fn payload_word<'a>(alloc: Global) -> Arg<'a>
    ensures { IsOption result (codes "HEX") }
{
    Arg::new(alloc, "HEX").required(true).help(
        "The payload of a MAP in hexadecimal, or with --frame a whole frame, or - for lines of standard input",
    )
}

// The columns of a drawing.
fn columns_option<'a>(alloc: Global) -> Result<Arg<'a>, AllocError>
    ensures { IfOk result (λ r. IsOption r (codes "columns")) }
{
    let columns = Arg::new(alloc, "columns").long("columns").value_name("N");
    columns
        .value_parser(ValueParser::unsigned(16, 1000))
        .help("Columns of the drawing, or else those of COLUMNS, or 80")
        .requires_arg("draw")
}

// The payload in JSON.
fn decode_json_option<'a>(alloc: Global) -> Result<Arg<'a>, AllocError>
    ensures { IfOk result (λ r. IsOption r (codes "json")) }
{
    let json = flag(alloc, "json", "Prints it in JSON, or what is wrong");
    against(json.conflicts_with("draw"), "explain")
}

// The command that shows a payload.
fn decode_command<'a>(alloc: Global) -> Result<Command<'a>, AllocError>
    ensures { IfOk result (λ r. IsCommand r (codes "decode")
        (codes "HEX" ∷ codes "draw" ∷ codes "columns" ∷ codes "explain" ∷ codes "frame" ∷ codes "json" ∷ [])
        []) }
{
    let about = "Shows the payload of a MAP as a table";
    let draw = flag(
        alloc,
        "draw",
        "Draws the frame too, a character for each minislot",
    );
    let explain = flag(alloc, "explain", "Says after a fault what it means");
    let frame = flag(
        alloc,
        "frame",
        "Reads a whole frame: a MAP's, or a request's",
    );
    let words = Ok(command(alloc, "decode", about, help::DECODE));
    let words = with_word(words, payload_word(alloc));
    let words = with_word(words, draw);
    let words = with_option(words, columns_option(alloc));
    let words = with_word(words, explain);
    let words = with_option(words, frame.conflicts_with("explain"));
    with_option(words, decode_json_option(alloc))
}

// The verdict in JSON.
fn audit_json_option<'a>(alloc: Global) -> Result<Arg<'a>, AllocError>
    ensures { IfOk result (λ r. IsOption r (codes "json")) }
{
    flag(alloc, "json", "Prints the verdict in JSON").conflicts_with("explain")
}

// The command that judges a history.
fn audit_command<'a>(alloc: Global) -> Result<Command<'a>, AllocError>
    ensures { IfOk result (λ r. IsCommand r (codes "audit")
        (codes "explain" ∷ codes "json" ∷ codes "journal" ∷ codes "FILE" ∷ []) []) }
{
    let about = "Reads a history from standard input and prints whether it is legal";
    let journal = journal_option(alloc);
    let explain = flag(
        alloc,
        "explain",
        "Says what was expected at the first illegal entry",
    );
    let words = Ok(command(alloc, "audit", about, help::AUDIT));
    let words = with_word(words, explain);
    let words = with_option(words, audit_json_option(alloc));
    let words = with_word(words, journal);
    with_word(words, file_word(alloc))
}

// The numbers of a report in JSON.
fn report_json_option<'a>(alloc: Global) -> Result<Arg<'a>, AllocError>
    ensures { IfOk result (λ r. IsOption r (codes "json")) }
{
    flag(alloc, "json", "Prints all numbers in JSON").conflicts_with("all")
}

// The numbers of a report as OpenMetrics.
fn report_metrics_option<'a>(alloc: Global) -> Result<Arg<'a>, AllocError>
    ensures { IfOk result (λ r. IsOption r (codes "openmetrics")) }
{
    let metrics = flag(alloc, "openmetrics", "Prints them as OpenMetrics text");
    against(metrics.conflicts_with("all"), "json")
}

// The picture of a report.
fn report_picture_option<'a>(alloc: Global) -> Result<Arg<'a>, AllocError>
    ensures { IfOk result (λ r. IsOption r (codes "svg")) }
{
    let picture = flag(alloc, "svg", "Prints a picture of them in SVG");
    let picture = against(picture.conflicts_with("all"), "json");
    against(picture, "openmetrics")
}

// The command that tells how a channel did.
fn report_command<'a>(alloc: Global) -> Result<Command<'a>, AllocError>
    ensures { IfOk result (λ r. IsCommand r (codes "report")
        (codes "all" ∷ codes "json" ∷ codes "openmetrics" ∷ codes "svg" ∷ codes "from" ∷ codes "to" ∷ codes "every"
        ∷ codes "journal" ∷ codes "FILE" ∷ []) []) }
{
    let about = "Reads a history from standard input and prints how its channel did";
    let all = flag(
        alloc,
        "all",
        "Prints all flows, in place of the 30 that asked most",
    );
    let from = "Tells of no entry before this time";
    let to = "Tells of no entry from this time on";
    let lines = journal_option(alloc);
    let words = Ok(command(alloc, "report", about, help::REPORT));
    let words = with_word(words, all);
    let words = with_option(words, report_json_option(alloc));
    let words = with_option(words, report_metrics_option(alloc));
    let words = with_option(words, report_picture_option(alloc));
    let words = with_option(words, time_option(alloc, "from", from));
    let words = with_option(words, time_option(alloc, "to", to));
    let words = with_option(words, every_option(alloc));
    let words = with_word(words, lines);
    with_word(words, file_word(alloc))
}

// The command that tells what is wrong in a file.
fn check_command<'a>(alloc: Global) -> Result<Command<'a>, AllocError>
    ensures { IfOk result (λ r. IsCommand r (codes "check") (codes "json" ∷ codes "FILE" ∷ []) []) }
{
    let about = "Reads a file from standard input and says what is wrong in it, or what it has";
    let words = Ok(command(alloc, "check", about, help::CHECK));
    let words = with_word(words, flag(alloc, "json", "Prints it in JSON"));
    with_word(words, file_word(alloc))
}

// The command that runs scripts at the same time.
fn storm_command<'a>(alloc: Global) -> Result<Command<'a>, AllocError>
    ensures { IfOk result (λ r. IsCommand r (codes "storm") (codes "FILE" ∷ []) []) }
{
    let about =
        "Reads scripts from standard input, runs them in threads and prints what each recorded";
    command(alloc, "storm", about, help::STORM).arg(file_word(alloc))
}

// The first frame of a picture, and how many there are.
fn frames_option<'a>(
    alloc: Global,
    name: &'a str,
    least: u64,
    most: u64,
    help: &'a str,
) -> Result<Arg<'a>, AllocError>
    ensures { IfOk result (λ r. IsOption r name.entry.now) }
{
    let frames = Arg::new(alloc, name).long(name).value_name("N");
    Ok(
        frames
            .value_parser(ValueParser::unsigned(least, most))
            .help(help),
    )
}

// Where what a report tells begins, or ends.
fn time_option<'a>(alloc: Global, name: &'a str, help: &'a str) -> Result<Arg<'a>, AllocError>
    ensures { IfOk result (λ r. IsOption r name.entry.now) }
{
    let time = Arg::new(alloc, name).long(name).value_name("MS");
    Ok(
        time.value_parser(ValueParser::unsigned(0, MOST_MILLISECONDS))
            .help(help),
    )
}

// How long each part is that a report tells of, one after the other.
fn every_option<'a>(alloc: Global) -> Result<Arg<'a>, AllocError>
    ensures { IfOk result (λ r. IsOption r (codes "every")) }
{
    let every = Arg::new(alloc, "every").long("every").value_name("MS");
    let every = every
        .value_parser(ValueParser::unsigned(1, MOST_MILLISECONDS))
        .help("Tells of one part of so many milliseconds after the other");
    let every = against(every.conflicts_with("openmetrics"), "svg");
    against(against(every, "from"), "to")
}

// The command that draws the frames of a run.
fn draw_command<'a>(alloc: Global) -> Result<Command<'a>, AllocError>
    ensures { IfOk result (λ r. IsCommand r (codes "draw")
        (codes "from" ∷ codes "count" ∷ codes "journal" ∷ codes "FILE" ∷ []) []) }
{
    let about = "Reads a script or a history from standard input and draws its frames in SVG";
    let from = "The first frame that is drawn, counted from 0";
    let count = "How many frames are drawn, or all";
    let words = Ok(command(alloc, "draw", about, help::DRAW));
    let words = with_option(
        words,
        frames_option(alloc, "from", 0, 17_592_186_044_416, from),
    );
    let words = with_option(words, frames_option(alloc, "count", 1, 16_777_216, count));
    let words = with_word(words, flag(alloc, "journal", "Reads a journal"));
    with_word(words, file_word(alloc))
}

// The program, before its commands.
fn program<'a>(alloc: Global) -> Command<'a>
    ensures { IsCommand result (codes "mapsched") [] [] }
{
    let about = "The upstream scheduler of one TDMA channel";
    command(alloc, "mapsched", about, help::STATUSES)
        .version(help::VERSION)
        .subcommand_required(true)
}

// The whole frames of the MAPs of a conversation.
fn live_frames_option<'a>(alloc: Global) -> Result<Arg<'a>, AllocError>
    ensures { IfOk result (λ r. IsOption r (codes "frames")) }
{
    frames_flag(alloc).conflicts_with("explain")
}

// The journal of a conversation.
fn live_journal_option<'a>(alloc: Global) -> Arg<'a>
    ensures { IsOption result (codes "journal") }
{
    let journal = Arg::new(alloc, "journal").long("journal");
    let help = "Records the calls in a journal, and continues the one that is there";
    journal.value_name("FILE").help(help)
}

// That what is recorded reaches the device.
fn sync_option<'a>(alloc: Global) -> Result<Arg<'a>, AllocError>
    ensures { IfOk result (λ r. IsOption r (codes "sync")) }
{
    let about = "Answers a call when its entry has reached the device";
    flag(alloc, "sync", about).requires_arg("journal")
}

// The command that is talked to.
fn live_command<'a>(alloc: Global) -> Result<Command<'a>, AllocError>
    ensures { IfOk result (λ r. IsCommand r (codes "live")
        (codes "explain" ∷ codes "frames" ∷ codes "journal" ∷ codes "sync" ∷ []) []) }
{
    let about = "Reads calls line by line and answers each before it waits for the next";
    let explain = flag(alloc, "explain", "Says after each refusal what it means");
    let words = Ok(command(alloc, "live", about, help::LIVE));
    let words = with_word(words, explain);
    let words = with_option(words, live_frames_option(alloc));
    let words = with_word(words, live_journal_option(alloc));
    with_option(words, sync_option(alloc))
}

// The sizes of the bursts that are counted beside the usual ones.
fn sizes_words<'a>(alloc: Global) -> Arg<'a>
    ensures { IsOption result (codes "BYTES") }
{
    let sizes = Arg::new(alloc, "BYTES").num_args(1..);
    let sizes = sizes.action(ArgAction::Append);
    sizes
        .value_parser(ValueParser::unsigned(1, 1_048_560))
        .help("Counts bursts of so many bytes too")
}

// The command that counts bursts.
fn bursts_command<'a>(alloc: Global) -> Result<Command<'a>, AllocError>
    ensures { IfOk result
        (λ r. IsCommand r (codes "bursts") (codes "BYTES" ∷ codes "json" ∷ []) []) }
{
    let about =
        "Reads a configuration from standard input and prints what bursts take on its channel";
    let words = Ok(command(alloc, "bursts", about, help::BURSTS));
    let words = with_word(words, sizes_words(alloc));
    with_word(words, flag(alloc, "json", "Prints all numbers in JSON"))
}

// The command that tells the state which a history leaves.
fn state_command<'a>(alloc: Global) -> Result<Command<'a>, AllocError>
    ensures { IfOk result
        (λ r. IsCommand r (codes "state") (codes "explain" ∷ codes "FILE" ∷ []) []) }
{
    let about =
        "Reads a script, a history or a journal from standard input and prints the state after it";
    let words = Ok(command(alloc, "state", about, help::STATE));
    let words = with_word(words, flag(alloc, "explain", "Prints it as a table"));
    with_word(words, file_word(alloc))
}

/// The commands of the program, with their options and their help. Out of memory is the only error.
pub fn commands<'a>(alloc: Global) -> Result<Command<'a>, AllocError>
    ensures { IfOk result (λ r. IsCommand r (codes "mapsched") []
        ((codes "run", codes "history" ∷ codes "journal" ∷ codes "explain" ∷ codes "frames" ∷ codes "FILE" ∷ [])
        ∷ (
          codes "decode",
          codes "HEX" ∷ codes "draw" ∷ codes "columns" ∷ codes "explain" ∷ codes "frame" ∷ codes "json" ∷ [],
        )
        ∷ (codes "draw", codes "from" ∷ codes "count" ∷ codes "journal" ∷ codes "FILE" ∷ [])
        ∷ (codes "audit", codes "explain" ∷ codes "json" ∷ codes "journal" ∷ codes "FILE" ∷ [])
        ∷ (
          codes "report",
          codes "all" ∷ codes "json" ∷ codes "openmetrics" ∷ codes "svg" ∷ codes "from" ∷ codes "to" ∷ codes "every"
              ∷ codes "journal" ∷ codes "FILE" ∷ [],
        )
        ∷ (codes "storm", codes "FILE" ∷ []) ∷ (codes "check", codes "json" ∷ codes "FILE" ∷ [])
        ∷ (codes "pcap", codes "mac" ∷ codes "journal" ∷ codes "FILE" ∷ [])
        ∷ (codes "live", codes "explain" ∷ codes "frames" ∷ codes "journal" ∷ codes "sync" ∷ [])
        ∷ (codes "bursts", codes "BYTES" ∷ codes "json" ∷ [])
        ∷ (codes "state", codes "explain" ∷ codes "FILE" ∷ []) ∷ [])) }
{
    let words = Ok(program(alloc));
    let words = with_command(words, run_command(alloc));
    let words = with_command(words, decode_command(alloc));
    let words = with_command(words, draw_command(alloc));
    let words = with_command(words, audit_command(alloc));
    let words = with_command(words, report_command(alloc));
    let words = with_command(words, storm_command(alloc));
    let words = with_command(words, check_command(alloc));
    let words = with_command(words, pcap_command(alloc));
    let words = with_command(words, live_command(alloc));
    let words = with_command(words, bursts_command(alloc));
    with_command(words, state_command(alloc))
}
