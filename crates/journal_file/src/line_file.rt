//! A file that grows by lines.

ghost use Rattle.std.specs.Prelude.{◌≡◌};
ghost use Rattle.text_stream.specs.Watched.{TellsFailure};
ghost use Rattle.journal_file.specs.LineFile.{AppendsFront};

use crate::fault::CallFailed;
use crate::place::Place;
use crate::store::Store;

/// A file that grows by lines, and how far it is a journal.
#[derive(Drop)]
pub(crate) struct LineFile<S> {
    /// The file.
    pub store: S,
    /// How far it is a journal.
    pub place: Place,
    /// Whether what is put there reaches the device too.
    pub is_synced: bool,
    /// Whether a call that reads it has failed since it was read. What contracts see; no code asks for it.
    pub misread: bool,
}

// Appends all of the bytes: a front of them where a write fails.
fn append<S: Store>(store: &mut S, bytes: &[u8]) -> Result<(), CallFailed>
    ensures bytes { AppendsFront (S.contents store.old) (S.contents store.new) bytes.now result }
    ensures reached { S.reached store.new ≡ S.reached store.old }
    ensures failed { TellsFailure result (S.has_failed store.old) (S.has_failed store.new) }
{
    let mut at = 0;
    while at < bytes.len() {
        match store.append_some(&bytes[at..]) {
            Ok(n) => at += n,
            Err(_) => return Err(CallFailed),
        }
    }
    Ok(())
}

impl<S: Store> LineFile<S> {
    ghost use Rattle.std.specs.Prelude.{◌≡◌, true, OnOk, OnErr};
    ghost use Rattle.text_stream.specs.Watched.{TellsFailure};
    ghost use Rattle.journal_file.specs.declared.place.Place.TheVariants.{Whole, Failed};
    ghost use Rattle.journal_file.specs.LineFile.{AppendsFront, CutsOrKeeps, IsWhole, IsBroken};

    // Waits until the device has what was put there, where that is asked for.
    fn reach(&mut self) -> Result<(), CallFailed>
        ensures same { S.contents self.new.store ≡ S.contents self.old.store }
        ensures frame { self.new ≡ record self.old { store = self.new.store } }
        ensures ok { OnOk result (self.old.is_synced ≡ true →
            S.reached self.new.store ≡ S.contents self.new.store) }
        ensures err { OnErr result (S.reached self.new.store ≡ S.reached self.old.store) }
        ensures failed { TellsFailure result
            (S.has_failed self.old.store) (S.has_failed self.new.store) }
    {
        if self.is_synced {
            self.store.sync()?;
        }
        Ok(())
    }

    // Appends bytes, which reach the device too where that is asked for.
    fn append_through(&mut self, bytes: &[u8]) -> Result<(), CallFailed>
        ensures bytes { AppendsFront
            (S.contents self.old.store) (S.contents self.new.store) bytes.now result }
        ensures frame { self.new ≡ record self.old { store = self.new.store } }
        ensures ok { OnOk result (self.old.is_synced ≡ true →
            S.reached self.new.store ≡ S.contents self.new.store) }
        ensures err { OnErr result (S.reached self.new.store ≡ S.reached self.old.store) }
        ensures failed { TellsFailure result
            (S.has_failed self.old.store) (S.has_failed self.new.store) }
    {
        append(&mut self.store, bytes)?;
        self.reach()
    }

    // Cuts off so many torn bytes, which begin here, on the device too where that is asked for.
    fn cut_through(&mut self, end: u64, torn: u64) -> Result<(), CallFailed>
        ensures cuts { CutsOrKeeps
            (S.contents self.old.store) (S.contents self.new.store) end torn result }
        ensures frame { self.new ≡ record self.old { store = self.new.store } }
        ensures ok { OnOk result (self.old.is_synced ≡ true →
            S.reached self.new.store ≡ S.contents self.new.store) }
        ensures failed { TellsFailure result
            (S.has_failed self.old.store) (S.has_failed self.new.store) }
    {
        if torn != 0 {
            self.store.cut(end)?;
        }
        self.reach()
    }

    // Sets how far the file is a journal, by whether a change of it went well.
    fn settle(&mut self, outcome: Result<(), CallFailed>) -> Result<(), CallFailed>
        ensures same { result ≡ outcome }
        ensures ok { OnOk result (self.new ≡ record self.old { place = Whole }) }
        ensures err { OnErr result (self.new ≡ record self.old { place = Failed }) }
    {
        self.place = match outcome {
            Ok(()) => Place::Whole,
            Err(_) => Place::Failed,
        };
        outcome
    }

    /// Puts whole lines behind those that the file has.
    pub fn put(&mut self, lines: &[u8]) -> Result<(), CallFailed>
        ensures bytes { AppendsFront
            (S.contents self.old.store) (S.contents self.new.store) lines.now result }
        ensures ok { OnOk result (IsWhole S.contents S.reached self.old self.new) }
        ensures err { OnErr result (IsBroken S.has_failed self.old self.new) }
        ensures kept { OnErr result (S.reached self.new.store ≡ S.reached self.old.store) }
        ensures failed { TellsFailure result
            (S.has_failed self.old.store) (S.has_failed self.new.store) }
    {
        let outcome = self.append_through(lines);
        self.settle(outcome)
    }

    /// Cuts off so many torn bytes, which begin here. All before has reached the device then, where that is asked for.
    pub fn cut(&mut self, end: u64, torn: u64) -> Result<(), CallFailed>
        ensures cuts { CutsOrKeeps
            (S.contents self.old.store) (S.contents self.new.store) end torn result }
        ensures ok { OnOk result (IsWhole S.contents S.reached self.old self.new) }
        ensures err { OnErr result (IsBroken S.has_failed self.old self.new) }
        ensures failed { TellsFailure result
            (S.has_failed self.old.store) (S.has_failed self.new.store) }
    {
        let outcome = self.cut_through(end, torn);
        self.settle(outcome)
    }
}
