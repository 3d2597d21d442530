//! The entries of a whole history, of which code knows the number alone.

ghost use Rattle.std.specs.Prelude.{◌≡◌, ◌<◌, ◌≤◌, List, [], ◌∷◌, ◌++◌, length};
ghost use Rattle.std.specs.Borrow.{ftrue};
ghost use Rattle.std.specs.Coded.{coded_list};
ghost use Rattle.sched_calls.specs.contracts.reply.Entry.{the_row};
ghost use Rattle.sched_calls.specs.declared.reply.Entry.{Entry as Recorded};
ghost use Rattle.sched_calls.specs.declared.reply.TheConstants.{MAX_WHOLE_HISTORY};

use sched_calls::Entry;
use std::marker::Model;

// Entries in order. They stand in proofs alone, so they take no memory.
#[derive(Drop)]
struct EntryList {
    ghost items: { List Recorded } by { coded_list the_row.coded },
}

impl Model for EntryList {
    ghost also_owns = { λ _. ftrue };
}

// A struct with `also_owns` has it not by itself. This one owns nothing.
unsafe impl Send for EntryList {}

impl EntryList {
    // No entries.
    fn none() -> EntryList
        ensures { result.items ≡ [] }
    {
        EntryList {}
    }

    // The entries with one more.
    fn and(_before: &EntryList, _entry: &Entry) -> EntryList
        ensures { result.items ≡ _before.now.items ++ _entry.now ∷ [] }
    {
        EntryList {}
    }
}

// The entries of a whole history, in order, for contracts, and their number. However many there are it takes the
// same memory.
#[derive(Drop)]
pub(crate) struct Ledger {
    entries: EntryList,
    count: u64,
}

impl Model for Ledger {
    ghost use Rattle.std.specs.Prelude.{◌≡◌, ◌≤◌, List, length};
    ghost use Rattle.sched_calls.specs.declared.reply.Entry.{Entry as Recorded};
    ghost use Rattle.sched_calls.specs.declared.reply.TheConstants.{MAX_WHOLE_HISTORY};

    ghost Value = { List Recorded };

    ghost view = { λ l. l.entries.items };

    ghost invariant = { λ l. (l.count ≡ length l.entries.items) × (l.count ≤ MAX_WHOLE_HISTORY) };
}

impl Ledger {
    // That of no entry.
    pub(crate) fn empty() -> Ledger
        ensures { result ≡ [] }
    {
        Ledger {
            entries: EntryList::none(),
            count: 0,
        }
    }

    // How many entries there are.
    pub(crate) fn len(&self) -> u64
        ensures value { result ≡ length self.now }
        ensures most { result ≤ MAX_WHOLE_HISTORY }
    {
        self.count
    }

    // Counts one entry more.
    pub(crate) fn add(&mut self, entry: &Entry)
        requires { length self.old < MAX_WHOLE_HISTORY }
        ensures { self.new ≡ self.old ++ entry.now ∷ [] }
    {
        self.entries = EntryList::and(&self.entries, entry);
        self.count += 1;
    }
}
