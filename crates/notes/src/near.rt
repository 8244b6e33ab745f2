use std::alloc::{AllocError, Global};
use strsim::levenshtein;

/// Whether the two are the same but for capitals, and not the same.
pub fn is_other_case(word: &[u8], meant: &str) -> bool {
    word != meant.as_bytes() && word.eq_ignore_ascii_case(meant.as_bytes())
}

/// Whether the word is another one, begins as this one and has no more than two slips.
pub fn is_near(alloc: Global, word: &[u8], meant: &str) -> Result<bool, AllocError> {
    let Ok(text) = str::from_utf8(word) else {
        return Ok(false);
    };
    if text == meant || word.len() > 2 * meant.len() || word.first() != meant.as_bytes().first() {
        return Ok(false);
    }
    Ok(levenshtein(alloc, text, meant)? <= 2)
}
