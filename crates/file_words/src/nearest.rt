//! The known word that a word may be meant for.

use std::alloc::{AllocError, Global};
use strsim::levenshtein;

/// How many letters a word may be away from a known one, to be meant for it.
const MOST_EDITS: usize = 2;

/// How long a word may be of which that is asked.
const LONGEST: usize = 40;

/// The first of the known words that is the fewest edits away, at most 2 and fewer than it has letters.
pub fn nearest(
    alloc: Global,
    word: &str,
    known: &[&'static str],
) -> Result<Option<&'static str>, AllocError> {
    let mut best = None;
    let mut least = MOST_EDITS.saturating_add(1).min(word.len());
    if word.len() > LONGEST {
        return Ok(None);
    }
    for name in known {
        let edits = levenshtein(alloc, word, name)?;
        if edits < least {
            least = edits;
            best = Some(*name);
        }
    }
    Ok(best)
}
