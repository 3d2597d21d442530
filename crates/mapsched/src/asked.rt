//! What the words of the command line ask of a command.

use audit_command::{AuditForm, JournalForm};
use bursts_command::BurstsForm;
use check_lines::CheckForm;
use clap::ArgMatches;
use decode_command::{Form as DecodeForm, JsonForm};
use live_command::Wording;
use pcap_command::ADDRESS;
use report_command::{Form, Range};
use run_command::{RunOutput, Words};
use state_command::StateForm;
use std::alloc::{AllocError, Global};

/// What the command `run` is asked to write, but for whole frames.
pub(crate) fn output_of(run: &ArgMatches) -> RunOutput {
    if run.get_flag("explain") {
        return RunOutput::Lines(Words::Explained);
    }
    if run.get_flag("history") {
        return RunOutput::History;
    }
    if run.get_flag("journal") {
        return RunOutput::Journal;
    }
    RunOutput::Lines(Words::Plain)
}

/// The form in which the command `audit` is asked for the verdict on a history.
pub(crate) fn audit_form_of(audit: &ArgMatches) -> AuditForm {
    if audit.get_flag("json") {
        return AuditForm::Json;
    }
    if audit.get_flag("explain") {
        return AuditForm::Explained;
    }
    AuditForm::Line
}

/// The form in which it is asked for that on a journal.
pub(crate) fn journal_form_of(audit: &ArgMatches) -> JournalForm {
    if audit.get_flag("json") {
        return JournalForm::Json;
    }
    if audit.get_flag("explain") {
        return JournalForm::Explained;
    }
    JournalForm::Line
}

/// The form in which the command `check` is asked for what it finds.
pub(crate) fn check_form_of(check: &ArgMatches) -> CheckForm {
    if check.get_flag("json") {
        return CheckForm::Json;
    }
    CheckForm::Lines
}

/// The form in which the command `report` is asked for its numbers.
pub(crate) fn form_of(report: &ArgMatches) -> Form {
    if report.get_flag("json") {
        return Form::Json;
    }
    if report.get_flag("openmetrics") {
        return Form::Metrics;
    }
    if report.get_flag("svg") {
        return Form::Picture;
    }
    if report.get_flag("all") {
        return Form::All;
    }
    Form::Few
}

/// The part of a history that the command `report` is asked for.
pub(crate) fn range_of(report: &ArgMatches) -> Range {
    Range {
        from: report.get_one("from").unwrap_or(0),
        to: report.get_one("to"),
    }
}

/// How many milliseconds each part has that the command `report` is asked for, one after the other.
pub(crate) fn every_of(report: &ArgMatches) -> Option<u64> {
    report.get_one("every")
}

/// The form in which the command `state` is asked for a state.
pub(crate) fn state_form_of(state: &ArgMatches) -> StateForm {
    if state.get_flag("explain") {
        return StateForm::Table;
    }
    StateForm::Line
}

/// In what words the command `live` is asked to answer.
pub(crate) fn wording_of(live: &ArgMatches) -> Wording {
    if live.get_flag("explain") {
        return Wording::Explained;
    }
    if live.get_flag("frames") {
        return Wording::Frames(ADDRESS);
    }
    Wording::Plain
}

/// As what the command `decode` is asked to decode.
pub(crate) fn decode_form_of(decode: &ArgMatches) -> DecodeForm {
    if decode.get_flag("frame") {
        return DecodeForm::Frame;
    }
    if decode.get_flag("explain") {
        return DecodeForm::Explained;
    }
    DecodeForm::Payload
}

/// As what the command `decode` is asked to decode into JSON.
pub(crate) fn json_form_of(decode: &ArgMatches) -> JsonForm {
    if decode.get_flag("frame") {
        return JsonForm::Frame;
    }
    JsonForm::Payload
}

/// The form in which the command `bursts` is asked for its numbers.
pub(crate) fn bursts_form_of(bursts: &ArgMatches) -> BurstsForm {
    if bursts.get_flag("json") {
        return BurstsForm::Json;
    }
    BurstsForm::Table
}

/// The bytes of bursts that the command `bursts` is asked for beside the usual ones.
pub(crate) fn sizes_of(alloc: Global, bursts: &ArgMatches) -> Result<Vec<u32>, AllocError> {
    let mut sizes = Vec::new(alloc);
    for word in bursts.get_strs("BYTES").unwrap_or(&[]) {
        if let Ok(size) = word.parse() {
            sizes.push(size)?;
        }
    }
    Ok(sizes)
}
