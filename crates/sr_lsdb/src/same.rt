//! Whether the tentative facts say the same of the domain as the accepted ones.
ghost use Rattle.std.specs.Prelude.{◌≡◌, ◌↔◌, IsTrue};
ghost use Rattle.std.specs.Option.{option_copied, option_map};
ghost use Rattle.sr_lsdb.specs.Alike.{IsAlikeAt};
ghost use Rattle.sr_lsdb.specs.Renewed.{SayTheSame, said_of};
ghost use Rattle.sr_lsdb.specs.Sides.{IsNoted};

use crate::facts::{Facts, Stored};
use crate::sides::Sides;
use crate::touched::Touched;

impl Stored {
    /// Whether the same is said: by PDUs that say the same, or by none where both are purged.
    fn says_the_same(&self, other: &Stored) -> bool
        ensures { IsTrue result ↔ (said_of self.now ≡ said_of other.now) }
    {
        match (&self.live, &other.live) {
            (Some(first), Some(second)) => first.lsp().says_the_same(second.lsp()),
            (None, None) => true,
            _ => false,
        }
    }
}

/// Whether the same is stored but for how it is flooded, or nothing is on either side.
fn are_stored_alike(one: Option<&Stored>, other: Option<&Stored>) -> bool
    ensures { IsTrue result
        ↔ (option_map said_of (option_copied one.entry) ≡ option_map said_of (option_copied other.entry)) }
{
    match (one, other) {
        (Some(first), Some(second)) => first.says_the_same(second),
        (None, None) => true,
        _ => false,
    }
}

impl Facts {
    /// Whether the facts are alike at a name: in what is said under an id, in a metric, or in whether a pair is down.
    fn is_alike(&self, other: &Facts, name: &Touched) -> bool
        ensures { IsTrue result ↔ IsAlikeAt name.now self.now other.now }
    {
        match name {
            Touched::Lsp(id) => are_stored_alike(self.database.get(id), other.database.get(id)),
            Touched::Cost(key) => self.costs.get(key) == other.costs.get(key),
            Touched::Pair(pair) => self.downs.contains(pair) == other.downs.contains(pair),
        }
    }
}

impl Sides {
    /// Whether both sides say the same. Only what is noted is asked for: beyond it they agree.
    pub(crate) fn says_the_same(&self) -> bool
        requires { IsNoted self.now }
        ensures { IsTrue result ↔ SayTheSame self.now.front self.now.back }
    {
        for name in &self.touched {
            if !self.front.is_alike(&self.back, name) {
                return false;
            }
        }
        self.front.settle_said(&self.back);
        true
    }
}
