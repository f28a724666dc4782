//! The counter of searches.
ghost use Rattle.std.specs.Prelude.{◌≡◌, ◌+◌, ◌<◌};

use std::marker::Model;
use std::sync::ledger::{Blank, Book, Ledger, Share};

/// That one search was counted by a counter of its own: it was given up for this. It takes no bytes, and isn't copied.
#[derive(Drop)]
pub struct Searched {
    counted: (),
}

/// How many searches for distances were counted. It takes no bytes. `row` and `row_after` count, and a search that is taken
/// in. Contracts see it as the number.
#[derive(Drop)]
pub struct Steps<L: Ledger> {
    book: Book<L>,
    share: Share<L>,
}

impl<L: Ledger> Model for Steps<L> {
    ghost use Rattle.std.specs.Prelude.{ℕ, ◌<◌};

    ghost Value = { ℕ };

    ghost view = { λ s. s.book.total };

    ghost invariant = { λ s. 0 < s.share.parts };
}

impl<L: Ledger> Steps<L> {
    /// A counter that stands at 0.
    pub fn new(blank: Blank) -> Steps<L>
        requires name { blank.name ≡ L.name }
        requires parts { (blank.parts ≡ L.parts) × (0 < L.parts) }
        ensures { result ≡ 0 }
    {
        let (book, share) = blank.open::<L>();
        Steps { book, share }
    }

    /// Counts one search.
    pub(crate) fn tick(&mut self)
        ensures { self.new ≡ self.old + 1 }
    {
        self.book.add(&mut self.share, 1);
    }

    /// Gives up a counter that has counted one search, so that another can take it in.
    pub fn give_up(self) -> Searched
        requires { self ≡ 1 }
    {
        let Steps { book: _, share: _ } = self;
        Searched { counted: () }
    }

    /// Takes in a search that was counted by a counter of its own, as one made in another thread is.
    pub fn take_in(&mut self, searched: Searched)
        ensures { self.new ≡ self.old + 1 }
    {
        let Searched { counted: _ } = searched;
        self.tick();
    }
}
