//! The laws of a journal, which is written, cut and read.

ghost use Rattle.laws.specs.CutJournal.{IsCutJournal};
ghost use Rattle.laws.specs.JournalAgain.{IsEntryLine, IsHistoryReadable, IsJournalAgain};
ghost use Rattle.laws.specs.ResumedJournal.{IsFoundAgain, IsWholeAgain};

/// The laws of a journal's text. The line of an entry whose numbers fit the types of their fields has one newline, at
/// its end, is UTF-8, and stands for that entry.
///
/// Of a legal history of at most 2^44 entries under a lawful configuration, where the numbers of the configuration
/// and of the calls fit their types, the numbers of the replies do too, and no line is too long to be read. So its
/// journal has such lines alone, no torn one, and they stand for the configuration and the entries. Where it was cut
/// at any byte behind its first line, its whole lines stand for the configuration and the first of the entries, which
/// are legal, and what stands behind them is a torn line or nothing. And what a file was left with that was resumed,
/// whole or with a torn line behind it, is what a later reading of it finds, and nothing else.
pub fn every_journal()
    ensures entry_line { IsEntryLine }
    ensures readable { IsHistoryReadable }
    ensures journal_again { IsJournalAgain }
    ensures cut { IsCutJournal }
    ensures found_again { IsFoundAgain }
    ensures whole_again { IsWholeAgain }
{}
