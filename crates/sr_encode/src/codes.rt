//! The codes of the answers of a case, which tell the answers that have one list.
ghost use Rattle.std.specs.Prelude.{◌≡◌, ◌<◌, length, slice_index};
ghost use Rattle.sr_encode.specs.Codes.{codes_of};

use crate::kept::Kept;
use std::marker::Model;

/// The code of each answer of a case, in order of destination. Who prints the answers can write a list once for all
/// that have its code. Contracts see the codes as their list.
#[derive(Debug, Drop)]
pub struct Codes<'a> {
    kept: &'a [Kept],
}

impl<'a> Model for Codes<'a> {
    ghost use Rattle.std.specs.Prelude.{List, ℕ};
    ghost use Rattle.sr_encode.specs.Codes.{codes_of};

    ghost Value = { List ℕ };

    ghost view = { λ a. codes_of a.kept.now };
}

impl<'a> Codes<'a> {
    /// Of the answers that are kept so.
    pub(crate) fn new(kept: &'a [Kept]) -> Codes<'a>
        ensures { result ≡ codes_of kept.now }
    {
        Codes { kept }
    }

    /// The code of the answer at this place.
    pub fn at(&self, place: usize) -> u16
        requires { place < length self.now }
        ensures { result ≡ slice_index self.now place }
    {
        let kept = self.kept;
        kept[place].outcome
    }
}
