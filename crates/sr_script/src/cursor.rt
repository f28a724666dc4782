//! The next word of a text.

ghost use Rattle.std.specs.Prelude.{◌≡◌, ◌<◌, ◌≤◌, ℕ, true, false, [], ◌∷◌, drop, length, slice_index, MatchOption};
ghost use Rattle.sr_script.specs.Words.{words, is_blank as blank_test, AreBlanks};

use crate::blank::is_blank;
use crate::blank_block::blank_blocks;
use memchr::memchr2;

/// The first word of a text, and the text behind it.
#[derive(Clone, Copy)]
pub(crate) struct NextWord<'a> {
    pub word: &'a [u8],
    pub rest: &'a [u8],
}

/// From which length on a text is looked at in blocks: shorter lines gain nothing by it.
const LONG_TEXT: usize = 128;

/// How many blanks the text begins with, where the first ones are known.
fn blanks_from(text: &[u8], known: usize) -> usize
    requires within { known ≤ length text.now }
    requires blanks { AreBlanks text.now known }
    ensures within { result ≤ length text.now }
    ensures before { AreBlanks text.now result }
    ensures found { result < length text.now → blank_test (slice_index text.now result) ≡ false }
{
    for i in known..text.len() {
        if !is_blank(text[i]) {
            return i;
        }
    }
    text.len()
}

/// How many blanks the text begins with.
fn blanks_before(text: &[u8]) -> usize
    ensures within { result ≤ length text.now }
    ensures before { (k : ℕ) → k < result → blank_test (slice_index text.now k) ≡ true }
    ensures found { result < length text.now → blank_test (slice_index text.now result) ≡ false }
{
    if text.len() < LONG_TEXT {
        blanks_from(text, 0)
    } else {
        blanks_from(text, blank_blocks(text))
    }
}

/// How many bytes stand before the first blank of the text, or before its end.
fn word_length(text: &[u8]) -> usize
    ensures within { result ≤ length text.now }
    ensures before { (k : ℕ) → k < result → blank_test (slice_index text.now k) ≡ false }
    ensures found { result < length text.now → blank_test (slice_index text.now result) ≡ true }
{
    match memchr2(b' ', b'\t', text) {
        Some(place) => place,
        None => text.len(),
    }
}

/// The first word of the text, and what follows it. None exactly where the text has no word.
pub(crate) fn next_word(text: &[u8]) -> Option<NextWord<'_>>
    ensures { MatchOption result (words text.now ≡ [])
        (λ next. words text.now ≡ next.word.now ∷ words next.rest.now) }
{
    let (_, from_word) = text.split_at(blanks_before(text));
    if from_word.is_empty() {
        return None;
    }
    let (word, rest) = from_word.split_at(word_length(from_word));
    Some(NextWord { word, rest })
}

/// The text behind its first words, of which there may be fewer.
pub(crate) fn text_behind(text: &[u8], count: usize) -> &[u8]
    ensures { words result.now ≡ drop count (words text.now) }
{
    let mut rest = text;
    for past in 0..count {
        match next_word(rest) {
            None => return rest,
            Some(next) => rest = next.rest,
        }
    }
    rest
}
