//! Lines that are put together behind those that wait.

ghost use Rattle.std.specs.Prelude.{◌≡◌, ◌+◌, ◌<◌, ◌≤◌, ◌++◌, Some, Ok, length};
ghost use Rattle.std.specs.Bool.{OnTrue, OnFalse};
ghost use Rattle.sched_calls.specs.declared.reply.Reply.TheVariants.{Flow, Refused};
ghost use Rattle.sched_lines.specs.Line.{place_text, reply_text, line_of};
ghost use Rattle.sched_lines.specs.declared.page.TheConstants.{ROOM};

use super::Page;
use crate::line::{refusal_number, refusal_value};
use sched_calls::{Placement, Refusal, Reply};

/// The most bytes of a line with at most three numbers, and a few more.
const SHORT: usize = 96;

/// The most starts of a placement that is put together here.
const FEW_STARTS: usize = 64;

impl Page {
    #[inline(always)]
    fn push_sums(&mut self, asked: u64, granted: u64, outstanding: u64)
        requires { length self.old + 67 ≤ ROOM }
        ensures put { self.new ≡ self.old ++ reply_text (Flow asked granted outstanding) }
        ensures short { length self.new ≤ length self.old + 67 }
    {
        self.push(b"flow");
        self.push_number(asked);
        self.push_number(granted);
        self.push_number(outstanding);
    }

    #[inline(always)]
    fn push_refusal(&mut self, refusal: Refusal)
        requires { length self.old + 49 ≤ ROOM }
        ensures put { self.new ≡ self.old ++ reply_text (Refused refusal) }
        ensures short { length self.new ≤ length self.old + 49 }
    {
        self.push(b"refused");
        self.push_number(refusal_number(refusal));
        if let Some(value) = refusal_value(refusal) {
            self.push_number(value);
        }
    }

    // Puts a word and the place of a flow behind the bytes, where there is room for its starts.
    fn push_placed(&mut self, word: &[u8], placement: &Placement) -> bool
        requires room { length self.old < ROOM }
        requires short { length word.now ≤ 8 }
        ensures put { OnTrue result (self.new
            ≡ self.old ++ (word.now ++ place_text placement.now)) }
        ensures same { OnFalse result (self.new ≡ self.old) }
        ensures room { length self.new < ROOM }
    {
        let starts = placement.starts.as_slice();
        if starts.len() > FEW_STARTS || !self.has_room(30 + 21 * starts.len()) {
            return false;
        }
        self.push(word);
        self.push_number(placement.reference);
        self.push_numbers(starts);
        true
    }

    // Puts the text of a reply behind the bytes, but for that of a MAP, and one for which there may be no room.
    #[inline(always)]
    fn push_reply(&mut self, reply: &Reply) -> bool
        requires { length self.old + 96 ≤ ROOM }
        ensures put { OnTrue result (self.new ≡ self.old ++ reply_text reply.now) }
        ensures same { OnFalse result (self.new ≡ self.old) }
        ensures room { length self.new < ROOM }
    {
        match reply {
            Reply::Admitted(None) => self.push(b"admitted"),
            Reply::Admitted(Some(placement)) => return self.push_placed(b"admitted", placement),
            Reply::Changed(None) => self.push(b"changed"),
            Reply::Changed(Some(placement)) => return self.push_placed(b"changed", placement),
            Reply::Removed => self.push(b"removed"),
            Reply::Taken => self.push(b"taken"),
            Reply::Noted => self.push(b"noted"),
            Reply::Reserved => self.push(b"reserved"),
            Reply::Built(_) => return false,
            Reply::Skipped(next) => {
                self.push(b"skipped");
                self.push_number(*next);
            }
            Reply::Flow {
                asked,
                granted,
                outstanding,
            } => self.push_sums(*asked, *granted, *outstanding),
            Reply::Refused(refusal) => self.push_refusal(*refusal),
        }
        true
    }

    /// Puts the line of a reply behind the bytes, where it has no MAP, and there is room for any such line of its kind.
    #[inline]
    pub(crate) fn push_line(&mut self, reply: &Reply) -> bool
        ensures put { OnTrue result (self.new ≡ self.old ++ line_of (Ok reply.now)) }
        ensures same { OnFalse result (self.new ≡ self.old) }
    {
        if !self.has_room(SHORT) || !self.push_reply(reply) {
            return false;
        }
        self.push(b"\n");
        true
    }
}
