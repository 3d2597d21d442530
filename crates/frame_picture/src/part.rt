//! The part of a history in which all frames are that are drawn.

ghost use Rattle.std.specs.Prelude.{◌≡◌, ◌≤◌, ◌<◌, ◌⊎◌, ◌++◌, ◌∷◌, [], length, IfOk, IfErr, OnOk, IsErrOf};
ghost use Rattle.sched_calls.specs.declared.reply.TheConstants.{MAX_ENTRIES, MAX_WHOLE_HISTORY};
ghost use Rattle.sched_calls.specs.Reply.{IsEncodable};
ghost use Rattle.sched_history.specs.History.{IsStep};
ghost use Rattle.frame_picture.specs.Part.{HasTaken, HasManyDrawn};

use crate::along::{Along, along_none, count_map, go_along};
use crate::layout::scale_of;
use crate::meeting::judge_met;
use crate::span::Span;
use minislots::Checked;
use sched_history::{Auditor, Entry, JudgeFault, MAX_ENTRIES, Met};
use std::alloc::{AllocError, Global};

/// The frames of a legal history that are drawn, while its entries come one by one, and are judged. What is kept are
/// the entries from the first frame that is drawn to the last one, whatever stands before and behind, and what each of
/// them meets. Contracts see the configuration, the span, and an auditor that has taken the entries that came.
#[derive(Drop)]
pub struct Part {
    // Whose frames they are.
    pub(crate) config: Checked,
    // Which they are.
    pub(crate) span: Span,
    // How many frames came.
    pub(crate) total: u64,
    // What the entries before those that are kept tell.
    pub(crate) along: Along,
    /// The auditor that has taken the entries that came.
    pub auditor: Auditor,
    // The entries that are kept.
    pub(crate) kept: Vec<Entry>,
    // What each of them meets.
    pub(crate) met: Vec<Vec<Met>>,
}

// Keeps an entry more, and what it meets.
fn keep(
    kept: &mut Vec<Entry>,
    found: &mut Vec<Vec<Met>>,
    entry: Entry,
    met: Vec<Met>,
) -> Result<(), JudgeFault>
    ensures ok { OnOk result (kept.new.items ≡ kept.old.items ++ entry ∷ []) }
    ensures met { OnOk result (found.new.items ≡ found.old.items ++ met ∷ []) }
    ensures few { OnOk result (length kept.new.items ≤ MAX_ENTRIES) }
    ensures err { IfErr result (λ e.
        (e ≡ JudgeFault.Memory) ⊎ (e ≡ JudgeFault.Full) × (MAX_ENTRIES ≤ length kept.old.items)) }
{
    if kept.len() >= MAX_ENTRIES {
        return Err(JudgeFault::Full);
    }
    if kept.push(entry).is_err() || found.push(met).is_err() {
        return Err(JudgeFault::Memory);
    }
    Ok(())
}

// Lets go of an entry that is not kept.
fn let_go(_entry: Entry) {}

impl Part {
    /// The frames of a channel in this span. None came.
    pub fn open(alloc: Global, config: &Checked, span: Span) -> Result<Part, AllocError>
        ensures taken { IfOk result HasTaken }
        ensures none { IfOk result (λ part. part.auditor.history ≡ []) }
        ensures config { IfOk result (λ part. part.config ≡ config.now) }
        ensures span { IfOk result (λ part. part.span ≡ span) }
    {
        Ok(Part {
            config: *config,
            span,
            total: 0,
            along: along_none(scale_of(config)),
            auditor: Auditor::open(alloc, *config)?,
            kept: Vec::new(alloc),
            met: Vec::new(alloc),
        })
    }

    /// Judges the next entry, and takes it where it may follow those that came. One that is illegal changes nothing. It
    /// is full where more than 16777216 entries are to be kept, or more than [`MAX_WHOLE_HISTORY`] came.
    ///
    /// [`MAX_WHOLE_HISTORY`]: sched_history::MAX_WHOLE_HISTORY
    pub fn take(&mut self, entry: Entry) -> Result<(), JudgeFault>
        requires known { HasTaken self.old }
        requires whole { IsEncodable entry.reply }

        // It stands behind those that came.
        ensures ok { OnOk result (HasTaken self.new) }
        ensures taken { OnOk result (self.new.auditor
            ≡ record self.old.auditor { history = self.old.auditor.history ++ entry ∷ [] }) }
        ensures config { OnOk result (self.new.config ≡ self.old.config) }
        ensures span { OnOk result (self.new.span ≡ self.old.span) }

        // It may not follow them, or there are too many; else memory ran out.
        ensures illegal { IsErrOf result JudgeFault.Illegal →
            (IsStep self.old.config self.old.auditor.history entry.call entry.reply → ⊥)
            × (self.new ≡ self.old) }
        ensures full { IsErrOf result JudgeFault.Full →
            HasManyDrawn self.old.span (self.old.auditor.history ++ entry ∷ [])
            ⊎ (MAX_WHOLE_HISTORY ≤ length self.old.auditor.history) }
    {
        let met = judge_met(&mut self.auditor, &entry)?;
        let came = self.total;
        self.total += count_map(&entry);
        if came < self.span.from {
            go_along(&mut self.along, scale_of(&self.config), &entry);
            let_go(entry);
            return Ok(());
        }
        if came - self.span.from < self.span.count {
            keep(&mut self.kept, &mut self.met, entry, met)?;
            return Ok(());
        }
        let_go(entry);
        Ok(())
    }
}
