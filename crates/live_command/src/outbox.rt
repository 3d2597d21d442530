//! Answers on their way to a writer.

ghost use Rattle.std.specs.Prelude.{◌≡◌, ◌++◌, ◌∷◌, ◌^◌, ◌-◌, ◌<◌, List, length, [], Some, IfOk, IfErr, OnOk};
ghost use Rattle.sched_calls.specs.declared.reply.Entry.{Entry as Recorded};
ghost use Rattle.sched_calls.specs.Reply.{HasLine};
ghost use Rattle.text_stream.specs.Writing.{Puts};
ghost use Rattle.live_command.specs.Answers.{answer_line, fresh};
ghost use Rattle.live_command.specs.Numbers.{AreNumbersOf};
ghost use Rattle.live_command.specs.Stats.{stats_line};
ghost use Rattle.live_command.specs.Sending.{WritesFront, Sends};
ghost use Rattle.live_command.specs.Spoken.{fault_line};

use crate::fault::LineFault;
use crate::numbers::Numbers;
use crate::standing::Standing;
use crate::stats::put_stats;
use crate::wording::Wording;
use sched_history::{Call, Reply, Unrecorded};
use sched_lines::{LineBuffer, put_framed_line};
use std::alloc::{AllocError, Global};
use std::marker::Model;
use text_stream::{Sink, TextFault};

/// So many bytes of answers are written before more is said.
const FULL: usize = 65_536;

/// The bytes for which there is room from the first on: those, and what the last answers add.
const ROOM: usize = 81_920;

/// Answers that wait to be written, and the numbers of what was answered.
#[derive(Drop)]
pub(crate) struct Outbox {
    text: Vec<u8>,
    // The last of them.
    lines: LineBuffer,
    // Since the beginning.
    total: Numbers,
    // Since they were told last.
    since: Numbers,
    // How many Reserves have lapsed since the beginning. No contract sees it.
    lapsed: u64,
}

impl Model for Outbox {
    ghost use Rattle.std.specs.Prelude.{◌++◌};
    ghost use Rattle.live_command.specs.Answers.{Waiting};

    ghost Value = { Waiting };

    ghost view = { λ b. record { text = b.text.items ++ b.lines; total = b.total; since = b.since } };
}

// Puts the line of an answer behind those that wait.
fn put_line(
    lines: &mut LineBuffer,
    text: &mut Vec<u8>,
    answer: &Result<Reply, Unrecorded>,
    wording: Wording,
) -> Result<(), TextFault>
    requires { HasLine answer.now }
    ensures { OnOk result (text.new.items ++ lines.new
        ≡ (text.old.items ++ lines.old) ++ answer_line wording answer.now) }
{
    match wording {
        Wording::Plain => lines.put_line(text, answer),
        Wording::Explained => lines.put_explained(text, answer),
        Wording::Frames(address) => {
            lines.write_out(text)?;
            put_framed_line(text, &address, answer)
        }
    }
}

// Writes all of the bytes. A write that fails, is interrupted or takes nothing ends it.
fn write<W: Sink>(writer: &mut W, bytes: &[u8]) -> Result<(), TextFault>
    ensures { WritesFront W.contents W.has_failed writer.old writer.new bytes.now result }
{
    let mut at = 0;
    while at < bytes.len() {
        match writer.write_some(&bytes[at..]) {
            Ok(n) => at += n,
            Err(_) => return Err(TextFault::Output),
        }
    }
    Ok(())
}

impl Outbox {
    /// One in which no answer waits, and that has counted nothing.
    pub fn new(alloc: Global) -> Result<Outbox, AllocError>
        ensures { IfOk result (λ b. b ≡ fresh) }
    {
        Ok(Outbox {
            text: Vec::with_capacity(alloc, ROOM)?,
            lines: LineBuffer::new(),
            total: Numbers::none(),
            since: Numbers::none(),
            lapsed: 0,
        })
    }

    /// Whether so many bytes wait that they are to be written.
    pub fn is_full(&self) -> bool {
        self.text.len() >= FULL
    }

    /// Puts the line of an answer behind those that wait.
    pub fn put_answer(
        &mut self,
        answer: &Result<Reply, Unrecorded>,
        wording: Wording,
    ) -> Result<(), TextFault>
        requires { HasLine answer.now }
        ensures ok { OnOk result (self.new.text ≡ self.old.text ++ answer_line wording answer.now) }
        ensures total { self.new.total ≡ self.old.total }
        ensures since { self.new.since ≡ self.old.since }
        ensures err { IfErr result (λ e. e ≡ TextFault.Memory) }
    {
        match put_line(&mut self.lines, &mut self.text, answer, wording) {
            Ok(()) => Ok(()),
            Err(_) => Err(TextFault::Memory),
        }
    }

    /// Puts the line of a fault behind those that wait.
    pub fn put_fault(&mut self, fault: LineFault) -> Result<(), TextFault>
        ensures ok { OnOk result
            (self.new ≡ record self.old { text = self.old.text ++ fault_line fault }) }
        ensures err { IfErr result (λ e. e ≡ TextFault.Memory) }
    {
        if self.lines.write_out(&mut self.text).is_err() {
            return Err(TextFault::Memory);
        }
        self.text.extend_from_slice(fault.words().as_bytes())?;
        self.text.extend_from_slice(b"\n")?;
        Ok(())
    }

    /// Counts an entry of this call and this reply.
    pub fn count(&mut self, call: &Call, reply: &Reply)
        ensures text { self.new.text ≡ self.old.text }
        ensures total { (es : List Recorded) (e : Recorded) → e.call ≡ call.now → e.reply ≡ reply.now
            → length es < 2 ^ 64 - 1 → AreNumbersOf self.old.total es
            → AreNumbersOf self.new.total (es ++ e ∷ []) }
        ensures since { (es : List Recorded) (e : Recorded) → e.call ≡ call.now → e.reply ≡ reply.now
            → length es < 2 ^ 64 - 1 → AreNumbersOf self.old.since es
            → AreNumbersOf self.new.since (es ++ e ∷ []) }
    {
        self.total.count(call, reply);
        self.since.count(call, reply);
    }

    /// Counts so many Reserves that have lapsed.
    pub fn count_lapsed(&mut self, lapses: u64)
        ensures { self.new ≡ self.old }
    {
        self.lapsed = self.lapsed.saturating_add(lapses);
    }

    /// How many Reserves have lapsed.
    pub fn lapsed(&self) -> u64 {
        self.lapsed
    }

    /// Puts the line of the numbers behind those that wait, with how the conversation stands, and counts anew what is
    /// answered from here on.
    pub fn put_stats(&mut self, now: &Standing) -> Result<(), TextFault>
        ensures ok { OnOk result
            (self.new.text ≡ self.old.text ++ stats_line self.old.total self.old.since now.now) }
        ensures total { self.new.total ≡ self.old.total }
        ensures since { OnOk result (AreNumbersOf self.new.since []) }
        ensures err { IfErr result (λ e. e ≡ TextFault.Memory) }
    {
        if self.lines.write_out(&mut self.text).is_err() {
            return Err(TextFault::Memory);
        }
        put_stats(&mut self.text, &self.total, &self.since, now)?;
        self.since = Numbers::none();
        Ok(())
    }

    /// Writes the answers that wait.
    pub fn send<W: Sink>(&mut self, writer: &mut W) -> Result<(), TextFault>
        ensures sends { Sends W.contents W.has_failed writer.old writer.new self.old.text result }
        ensures empty { OnOk result (self.new ≡ record self.old { text = [] }) }
    {
        if self.lines.write_out(&mut self.text).is_err() {
            return Err(TextFault::Memory);
        }
        write(writer, &self.text)?;
        self.text.clear();
        Ok(())
    }
}
