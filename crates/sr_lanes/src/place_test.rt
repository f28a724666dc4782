//! Tests at places in a row, and the set of the nodes at whose places a test says yes.

ghost use Rattle.std.specs.Prelude.{◌≡◌, ℕ, ◌+◌, ◌-◌, ◌*◌, ◌/◌, ◌<◌, ◌≤◌, ◌&&◌, Bool, nat_lt};
ghost use Rattle.sr_lanes.specs.Bits.{is_in};
ghost use Rattle.sr_lanes.specs.Tests.{AreBitsOf};

use crate::limits::{A_WORD, GROUPS, LANES, NODES_AT_MOST};
use crate::words::NodeBits;

/// A test at each of a row of places.
pub(crate) trait PlaceTest {
    ghost count: { Self → ℕ };

    ghost test: { Self → ℕ → Bool };

    /// How many places there are.
    fn places(&self) -> usize
        ensures { result ≡ count self.now };

    /// Whether the test says yes at this place.
    fn at_one(&self, at: usize) -> bool
        requires { at < count self.now }
        ensures { result ≡ test self.now at };

    /// What the test says at eight places from this one on, a bit for each.
    fn at_eight(&self, at: usize) -> u64
        requires { at + LANES ≤ count self.now }
        ensures { AreBitsOf (test self.now) at LANES result };
}

/// What the test says in that many groups of eight places from this one on.
#[inline(always)]
pub(crate) fn word_of<T: PlaceTest>(test: &T, from: usize, groups: usize) -> u64
    requires places { LANES * groups ≤ T.count test.now - from }
    requires from { from + A_WORD ≤ NODES_AT_MOST }
    requires groups { LANES * groups ≤ A_WORD }
    ensures { AreBitsOf (T.test test.now) from (LANES * groups) result }
{
    let mut word = 0;
    for group in 0..groups {
        let at = LANES * group;
        word |= test.at_eight(from + at) << at;
    }
    word
}

/// The nodes in whole groups of eight at whose places the test says yes.
#[inline(always)]
fn in_groups<T: PlaceTest>(test: &T) -> NodeBits
    requires { T.count test.now ≤ NODES_AT_MOST }
    ensures { (v : ℕ) → is_in result v ≡ (nat_lt v (T.count test.now / LANES * LANES) && T.test test.now v) }
{
    let groups = test.places() / LANES;
    NodeBits {
        words: [
            word_of(test, 0, groups.min(GROUPS)),
            word_of(test, A_WORD, groups.saturating_sub(GROUPS).min(GROUPS)),
            word_of(
                test,
                2 * A_WORD,
                groups.saturating_sub(2 * GROUPS).min(GROUPS),
            ),
            word_of(
                test,
                3 * A_WORD,
                groups.saturating_sub(3 * GROUPS).min(GROUPS),
            ),
        ],
    }
}

/// The nodes at whose places the test says yes.
#[inline(always)]
pub(crate) fn places_of<T: PlaceTest>(test: &T) -> NodeBits
    requires { T.count test.now ≤ NODES_AT_MOST }
    ensures { (v : ℕ) → is_in result v ≡ (nat_lt v (T.count test.now) && T.test test.now v) }
{
    let count = test.places();
    let mut set = in_groups(test);
    for v in count / LANES * LANES..count {
        if test.at_one(v) {
            set = set.with(v);
        }
    }
    set
}
