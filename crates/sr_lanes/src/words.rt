//! Sets of nodes, by number.

ghost use Rattle.sr_lanes.specs.Words.{AreWords};

/// A set of nodes, by number: bit `v % 64` of word `v / 64` tells of node `v`.
#[derive(Clone, Copy, Debug, PartialEq, Eq)]
pub struct NodeBits {
    pub(crate) words: [u64; 4],
    ghost whole: { AreWords words },
}
