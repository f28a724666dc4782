//! Words that give the values of a list, one each.

ghost use Rattle.std.specs.Prelude.{◌≡◌, ◌≤◌, ◌++◌, ◌∷◌, [], ℕ, List, Option, Some, map, length, IfOk, IfErr, OnOk};
ghost use Rattle.sr_script.specs.Words.{words};
ghost use Rattle.sr_script.specs.Number.{number_in as number_within, cell_read};
ghost use Rattle.sr_script.specs.Answers.{IsListFault, IsValueFault};
ghost use Rattle.sr_script.specs.declared.command.TheConstants.{MOST_LABEL};

use crate::command::MOST_LABEL;
use crate::cursor::next_word;
use crate::line::LineFault;
use crate::number::{number_in, read_cell};
use sr_seq::Seq;
use std::alloc::{AllocError, Global};

/// A value that a word gives.
pub(crate) trait Listed: Sized {
    /// The value that the word gives, if it gives one.
    ghost given: { List ℕ → Option Self };

    /// The value that the word gives. None exactly where it gives none.
    fn read(word: &[u8]) -> Option<Self>
        ensures { result ≡ given word.now };
}

/// The cell of a row.
impl Listed for u64 {
    ghost given = { cell_read };

    fn read(word: &[u8]) -> Option<u64> {
        read_cell(word)
    }
}

/// A label.
impl Listed for u32 {
    ghost given = { number_within 0 MOST_LABEL };

    fn read(word: &[u8]) -> Option<u32> {
        number_in(word, 0, MOST_LABEL)
    }
}

/// Appends the value that the word gives. It gives none, or memory runs out.
fn push_given<T: Listed + Drop>(values: &mut Vec<T>, word: &[u8]) -> Result<(), LineFault>
    ensures pushed { OnOk result (map Some values.new.items ≡ map Some values.old.items ++ T.given word.now ∷ []) }
    ensures err { IfErr result (IsValueFault (T.given word.now)) }
{
    match T::read(word) {
        None => Err(LineFault::BadForm),
        Some(value) => match values.push(value) {
            Ok(()) => Ok(()),
            Err(_) => Err(LineFault::Memory(AllocError)),
        },
    }
}

/// The values that the words of the text give, of which there are at most that many.
pub(crate) fn read_list<T: Listed + Drop>(
    alloc: Global,
    text: &[u8],
    most: usize,
) -> Result<Seq<T>, LineFault>
    ensures given { IfOk result (λ values. map T.given (words text.now) ≡ map Some values) }
    ensures room { IfOk result (λ values. length values ≤ most) }
    ensures err { IfErr result (IsListFault (map T.given (words text.now)) most) }
{
    let mut values = Vec::new(alloc);
    let mut rest = text;
    for count in 0..most {
        match next_word(rest) {
            None => return Ok(Seq::new(values)),
            Some(next) => {
                match push_given(&mut values, next.word) {
                    Ok(()) => {}
                    Err(fault) => return Err(fault),
                }
                rest = next.rest;
            }
        }
    }
    match next_word(rest) {
        None => Ok(Seq::new(values)),
        Some(_) => Err(LineFault::BadForm),
    }
}
