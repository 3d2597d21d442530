//! The laws of the text of a history, which is written and read.

ghost use Rattle.laws.specs.ReadAgain.{IsReadAgain};
ghost use Rattle.history_reading.specs.Refusals.{IsExactRefusal};
ghost use Rattle.history_reading.specs.Replies.{IsExactMap};

/// The laws of the text of a history. What is written of a history under a lawful configuration stands for that
/// history, where it has at most 16777216 bytes and the numbers fit the types of their fields. Bytes are read as a MAP
/// exactly where they are its spelling, and a refusal is found under its number and its value alone.
pub fn every_history()
    ensures read_again { IsReadAgain }
    ensures exact_map { IsExactMap }
    ensures exact_refusal { IsExactRefusal }
{}
