//! The word of a line that was meant by another one.

use script_format::Verb;
use std::alloc::{AllocError, Global};
use strsim::levenshtein;

/// Bytes that a word has at most for which another one is looked for.
const LONGEST: usize = 16;

/// Edits at most that lead from a word to the one that was meant.
const MOST: usize = 2;

/// The word of a line to which the fewest edits lead, two at most, whatever the case of the letters; the first of several.
pub(crate) fn nearest_word(alloc: Global, word: &str) -> Result<Option<&'static str>, AllocError> {
    if word.len() > LONGEST {
        return Ok(None);
    }
    let word = word.to_ascii_lowercase(alloc)?;
    let mut found = None;
    let mut least = MOST;
    for verb in Verb::ALL {
        let known = verb.word();
        let edits = levenshtein(alloc, &word, known)?;
        if edits < least || (edits == least && found.is_none()) {
            found = Some(known);
            least = edits;
        }
    }
    Ok(found)
}
