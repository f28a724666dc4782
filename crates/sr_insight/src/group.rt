//! Groups of the items of an audit.
ghost use Rattle.std.specs.Prelude.{◌≡◌};
ghost use Rattle.sr_insight.specs.Groups.{coverage};

use sr_model::Counts;

/// The whole of a group, in the parts in which coverage is told: ten-thousandths (this project's rule).
pub const WHOLE: u64 = 10_000;

/// A group of items by its number, and how many of its answers are of each sort. The number of a kind is its place among
/// link, node and risk; that of a node or a link is its place in the net.
#[derive(Clone, Copy, Debug, PartialEq, Eq)]
pub struct Group {
    pub number: u32,
    pub counts: Counts,
}

impl Group {
    /// How much of the group is covered, in whole ten-thousandths, rounded down. A group without items is covered.
    pub fn coverage(&self) -> u64
        ensures { result ≡ coverage self.now.counts }
    {
        let Counts {
            covered,
            nopath,
            nolist,
            toodeep,
        } = self.counts;
        let total = u64::from(covered) + u64::from(nopath) + u64::from(nolist) + u64::from(toodeep);
        if total == 0 {
            return WHOLE;
        }
        u64::from(covered) * WHOLE / total
    }
}
