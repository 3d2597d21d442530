//! The press: it appends a map, and then shows it to the readers.
ghost use Rattle.std.specs.Prelude.{◌≡◌, ◌+◌, ◌≤◌, ◌++◌, true, [], ◌∷◌, map, length, OnOk, OnErr};
ghost use Rattle.map_snapshot.specs.declared.printed.TheConstants.{MAX_BYTES};
ghost use Rattle.map_snapshot.specs.Maps.{map_in, IsNewest};

use crate::addition::Addition;
use crate::counts::Counts;
use crate::ends::{Shows, Writer};
use crate::printed::{MAX_BYTES, Printed};
use crate::told::Told;
use crate::whole::Whole;
use core::mem::replace_with;
use std::alloc::{AllocError, Global};
use std::marker::Model;
use std::sync::{Arc, Wait};

/// What publishes. It has no `Drop`, so it has to end.
#[must_use]
pub struct Press {
    pub(crate) writer: Writer,
    pub(crate) counts: Arc<Counts, Global>,
}

impl Model for Press {
    ghost use Rattle.std.specs.Prelude.{◌≡◌, true, Some, map, drop};
    ghost use Rattle.std.specs.Arc.{arc_value};
    ghost use Rattle.left_right.specs.Sides.{view as name_in};
    ghost use Rattle.map_snapshot.specs.Maps.{Printing, MayWait, printed_of};
    ghost use Rattle.map_snapshot.specs.Rules.{word_of};

    ghost Value = { Printing };

    ghost view = { λ p. record {
      press = p.writer.desk.shown.value.press;
      list = p.writer.desk.shown.value.list;
      waiting = map printed_of (drop p.writer.behind p.writer.log.items);
    } };

    ghost invariant = { λ p. (p.writer.desk.shown.value.listed ≡ true)
        × (name_in p.writer.desk.place ≡ Some (word_of p.writer.desk.shown.value.press))
        × ((arc_value p.counts).list ≡ word_of p.writer.desk.shown.value.press)
        × MayWait p.writer.desk.shown.value.press p.writer.desk.shown.value.list
        (drop p.writer.behind p.writer.log.items) };
}

// Waits until what readers take is in the list: that it then is, is proved. That it is at the first look is argued
// alone: this press and its additions have the word that counts the list, so the step found the number that it
// expects. No clause can say so: what is asked of a step names each list that begins with what was seen.
pub(crate) fn settle<R: Wait>(rt: &R, writer: &Writer)
    ensures listed { writer.now.desk.shown.value.listed ≡ true }
    ensures newest { IsNewest writer.now.desk.shown.value.printed writer.now.desk.shown.value.list }
{
    for _ in rt.forever() {
        if writer.published().is_listed() {
            return;
        }
    }
    unreachable!()
}

// Shows readers the map that waits.
fn show<R: Wait>(press: Press, rt: &R) -> (Press, ())
    requires waits { (p : _) × (press.waiting ≡ p ∷ []) }
    ensures shown { result.0 ≡ record press {
      list = press.list ++ map map_in press.waiting;
      waiting = [];
    } }
{
    let Press { writer, counts } = press;
    let before = writer.published().seen().again();
    let (writer, shown) = writer.publish_as::<Shows, R>(rt);
    let Ok(()) = shown else { unreachable!() };
    settle(rt, &writer);
    let mut both = writer.published().seen().again();
    both.learn(&before);
    (Press { writer, counts }, ())
}

impl Press {
    /// Makes room for the map, which readers do not see yet. Nothing else may wait to be published, the version is
    /// one more than the number of maps published, and the length is at most `MAX_BYTES`. After a refusal of memory
    /// the press is as it was.
    pub fn append(&mut self, printed: Printed) -> Result<(), AllocError>
        requires settled { self.old.waiting ≡ [] }
        requires next { printed.version ≡ length self.old.list + 1 }
        requires fits { printed.len ≤ MAX_BYTES }
        ensures ok { OnOk result (self.new ≡ record self.old { waiting = printed ∷ [] }) }
        ensures err { OnErr result (self.new ≡ self.old) }
    {
        let seen = self.writer.published().seen().again();
        let addition = Addition::new(printed, Arc::try_clone(&self.counts)?, seen);
        match self.writer.append(addition) {
            Ok(()) => Ok(()),
            Err(_) => Err(AllocError),
        }
    }

    /// Shows readers the map that was appended, if one was. It takes no memory, and may wait for readers that are in
    /// the middle of a read, and until it finds the map in the list. No clause bounds either wait.
    pub fn publish<R: Wait>(&mut self, rt: &R)
        ensures published { self.new ≡ record self.old {
          list = self.old.list ++ map map_in self.old.waiting;
          waiting = [];
        } }
    {
        if self.writer.has_pending_operations() {
            replace_with(self, rt, show::<R>);
        }
    }

    /// Tells what was published. It takes no memory and waits for nobody.
    pub fn tell(&mut self) -> Told
        ensures same { self.new ≡ self.old }
        ensures told { result ≡ record { press = self.old.press; list = self.old.list } }
    {
        self.writer.published().told()
    }

    // Ends the list, which then has what was published and no more, for good.
    fn finish<R: Wait>(&self, rt: &R) -> Whole
        ensures whole { result ≡ record { press = self.now.press; list = self.now.list } }
    {
        let told = self.writer.published().told();
        for _ in rt.forever() {
            if let Some(whole) = Whole::of(&told, &self.counts.list) {
                return whole;
            }
        }
        unreachable!()
    }

    /// Ends the press, and tells all that it has published, to which nothing can be added. A map that was appended and
    /// not published is let go. Its readers keep what they know. It takes no memory, and may wait for readers that are
    /// in the middle of a read, and until it finds its list as long as it knows. No clause bounds either wait.
    pub fn end<R: Wait>(self, rt: &R) -> Whole
        ensures whole { result ≡ record { press = self.press; list = self.list } }
    {
        let whole = self.finish(rt);
        let Press { writer, counts: _ } = self;
        writer.take(rt);
        whole
    }
}
