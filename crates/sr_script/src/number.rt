//! Numbers as words.

ghost use Rattle.std.specs.Prelude.{◌≡◌, ◌≤◌, IfSome};
ghost use Rattle.sr_script.specs.Number.{number_read, number_in as number_within, cell_read};

use crate::command::MOST_DISTANCE;
use sr_model::FAR;

/// The most digits of a number.
pub const MOST_DIGITS: usize = 10;

/// The number that the word writes. None exactly where the word isn't one to ten decimal digits.
#[tactic(auto, unfolding(crate::specs::Number::number_read))]
fn read_number(word: &[u8]) -> Option<u64>
    ensures { result ≡ number_read word.now }
{
    if word.is_empty() || word.len() > MOST_DIGITS {
        return None;
    }
    let mut value = 0;
    for byte in word {
        if !byte.is_ascii_digit() {
            return None;
        }
        value = value * 10 + (*byte - b'0') as u64;
    }
    Some(value)
}

/// The number that the word writes, where it is at least the one bound and at most the other.
#[tactic(auto, unfolding(crate::specs::Number::number_in))]
pub(crate) fn number_in(word: &[u8], low: u32, high: u32) -> Option<u32>
    ensures value { result ≡ number_within low high word.now }
    ensures range { IfSome result (λ n. (low ≤ n) × (n ≤ high)) }
{
    let value = read_number(word)?;
    if low as u64 <= value && value <= high as u64 {
        Some(value as u32)
    } else {
        None
    }
}

/// The cell that the word writes: a distance, or `FAR` for `-`. None exactly where it writes none.
#[tactic(auto, unfolding(crate::specs::Number::number_in, crate::specs::Number::cell_read))]
pub(crate) fn read_cell(word: &[u8]) -> Option<u64>
    ensures { result ≡ cell_read word.now }
{
    if word == b"-".as_slice() {
        return Some(FAR);
    }
    let value = read_number(word)?;
    if value <= MOST_DISTANCE {
        Some(value)
    } else {
        None
    }
}
