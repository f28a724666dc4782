//! The words of a line.

ghost use Rattle.std.specs.Prelude.{◌≡◌, ◌↔◌, ℕ, List, [], ◌<◌, IsTrue, min, length};
ghost use Rattle.sr_script.specs.Words.{words as words_in, word_at};

use crate::cursor::next_word;
use std::marker::Model;

/// How many words are kept.
pub const KEPT: usize = 8;

/// The words of a text: the first eight, and the text behind these. Contracts see all of them, as a list of lists of
/// bytes. Commands of more words are read from the text itself, word by word.
#[derive(Drop)]
pub(crate) struct Words<'a> {
    texts: [&'a [u8]; KEPT],
    count: usize,
    behind: &'a [u8],
}

impl<'a> Model for Words<'a> {
    ghost use Rattle.std.specs.Prelude.{List, ℕ, [], map, take, ◌++◌, ◌≡◌, ◌<◌, ◌≤◌};
    ghost use Rattle.sr_script.specs.Words.{words as words_in};
    ghost use Rattle.sr_script.specs.declared.words.TheConstants.{KEPT};

    ghost Value = { List (List ℕ) };

    ghost view = { λ w. map (λ text. text.now) (take w.count w.texts) ++ words_in w.behind.now };

    ghost invariant = { λ w. (w.count ≤ KEPT) × (w.count < KEPT → words_in w.behind.now ≡ []) };
}

impl<'a> Words<'a> {
    /// The words of the text.
    pub fn of(text: &'a [u8]) -> Words<'a>
        ensures { result ≡ words_in text.now }
    {
        let mut texts = [b"".as_slice(); KEPT];
        let mut behind = text;
        for count in 0..KEPT {
            match next_word(behind) {
                None => return Words {
                    texts,
                    count,
                    behind,
                },
                Some(next) => {
                    texts[count] = next.word;
                    behind = next.rest;
                }
            }
        }
        Words {
            texts,
            count: KEPT,
            behind,
        }
    }

    /// How many there are: 8 also stands for more.
    pub fn len(&self) -> usize
        ensures { result ≡ min KEPT (length self.now) }
    {
        self.count
    }

    /// The word at a place among the first eight, from 0, and an empty one behind the last.
    pub fn get(&self, place: usize) -> &'a [u8]
        requires { place < KEPT }
        ensures { result.now ≡ word_at self.now place }
    {
        if place < self.count {
            self.texts[place]
        } else {
            b"".as_slice()
        }
    }

    /// Whether this is the word at a place among the first eight.
    pub fn has(&self, place: usize, word: &[u8]) -> bool
        requires { place < KEPT }
        ensures { IsTrue result ↔ (word_at self.now place ≡ word.now) }
    {
        self.get(place) == word
    }
}
