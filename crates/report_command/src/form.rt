//! The forms in which a report is written.

ghost use Rattle.std.specs.Prelude.{◌≡◌, ◌≢◌, ◌⊎◌, IfOk, IfErr, IfSome, OnOk};
ghost use Rattle.text_stream.specs.Watched.{FailsBy};
ghost use Rattle.report_command.specs.Form.{Says, IsSaid};

use minislots::Checked;
use report_picture::{TimedReporter, put_report_picture};
use report_writing::{json_text, metrics_text, report_text};
use sched_report::Reporter;
use std::alloc::{AllocError, Global};
use text_stream::{Sink, TextFault, put};

/// How a report is written.
#[derive(Clone, Copy, Debug, PartialEq, Eq)]
pub enum Form {
    /// In JSON.
    Json,
    /// In tables, with all lives of flows.
    All,
    /// In tables, with the 30 lives that asked most.
    Few,
    /// In the OpenMetrics text format.
    Metrics,
    /// As a picture in SVG.
    Picture,
}

// The report in this form on the entries that were taken; no text where it is a picture, which takes no memory.
fn text_of(
    alloc: Global,
    form: Form,
    config: &Checked,
    reporter: &Reporter,
) -> Result<Option<Vec<u8>>, AllocError>
    requires { config.now ≡ reporter.now.config }
    ensures text { IfOk result (λ made. IfSome made
        (λ text. Says form reporter.now text.items)) }
    ensures picture { IfOk result (λ made. made ≡ None → form ≡ Form.Picture) }
{
    match form {
        Form::Json => Ok(Some(json_text(alloc, reporter)?)),
        Form::All => Ok(Some(report_text(alloc, config, reporter, true)?)),
        Form::Few => Ok(Some(report_text(alloc, config, reporter, false)?)),
        Form::Metrics => Ok(Some(metrics_text(alloc, config, reporter)?)),
        Form::Picture => Ok(None),
    }
}

// Writes the report in this form on the entries that were taken. Nothing is written before memory runs out.
pub(crate) fn put_report<W: Sink>(
    alloc: Global,
    writer: &mut W,
    form: Form,
    config: &Checked,
    timed: &TimedReporter,
) -> Result<(), TextFault>
    requires { config.now ≡ timed.now.config }
    ensures ok { OnOk result (IsSaid form timed.now
        (W.contents writer.old) (W.contents writer.new)) }
    ensures err { IfErr result (λ e. (e ≡ TextFault.Memory) ⊎ (e ≡ TextFault.Output)) }
    ensures failed { FailsBy TextFault.Output result
        (W.has_failed writer.old) (W.has_failed writer.new) }
    ensures quiet { IfErr result (λ e. e ≢ TextFault.Output → writer.new ≡ writer.old) }
{
    match text_of(alloc, form, config, timed.reporter()) {
        Ok(Some(text)) => put(writer, &text),
        Ok(None) => put_report_picture(writer, config, timed),
        Err(_) => Err(TextFault::Memory),
    }
}
