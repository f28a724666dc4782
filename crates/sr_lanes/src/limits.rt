//! The limits of sets and of rows.

/// The numbers of nodes are below this.
pub const NODES_AT_MOST: usize = 256;

/// A cell of a row is at most this, so that the sum of two is a number of 64 bits.
pub const CELL_AT_MOST: u64 = 1 << 62;

/// How many numbers a word tells of.
pub(crate) const A_WORD: usize = 64;

/// How many cells are looked at at once.
pub(crate) const LANES: usize = 8;

/// How many groups of eight cells a word tells of.
pub(crate) const GROUPS: usize = A_WORD / LANES;

/// Of a set of at most this many nodes each is tested alone (this project's rule: that costs less than a pass).
pub(crate) const FEW: usize = 40;

/// Of the nodes of a word at most this many are each tested alone (this project's rule: that costs less than a pass over the
/// places of the word).
pub(crate) const FEW_OF_A_WORD: usize = 14;
