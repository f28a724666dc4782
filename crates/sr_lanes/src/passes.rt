//! Passes over rows of distances: the nodes at whose cells a test says yes.

ghost use Rattle.std.specs.Prelude.{◌≡◌, ℕ, ◌+◌, ◌<◌, ◌≤◌, ◌&&◌, true, length};
ghost use Rattle.std.specs.Int.{bit_at};
ghost use Rattle.sr_lanes.specs.Bits.{is_in};
ghost use Rattle.sr_lanes.specs.Passes.{AreCells, is_tight, differs, has_distance};
ghost use Rattle.sr_lanes.specs.Tests.{AreBitsAmong};

use crate::limits::{A_WORD, CELL_AT_MOST, FEW, FEW_OF_A_WORD, GROUPS, NODES_AT_MOST};
use crate::place_test::{places_of, word_of};
use crate::row_tests::{OneRow, TwoRows};
use crate::tight_rows::TightRows;
use crate::words::NodeBits;

/// The nodes to which the way over the base's node, to which it costs `cost`, costs what the row says.
pub fn tight(row: &[u64], cost: u64, base: &[u64]) -> NodeBits
    requires lengths { length base.now ≡ length row.now }
    requires count { length row.now ≤ NODES_AT_MOST }
    requires cost { cost ≤ CELL_AT_MOST }
    requires base { AreCells base.now }
    ensures { (v : ℕ) → is_in result v ≡ is_tight row.now cost base.now v }
{
    places_of(&TightRows { row, cost, base })
}

/// Those of the nodes of a word, whose bits tell of nodes from `from` on, to which the way over the base's node, to which it
/// costs `cost`, costs what the row says. Each is tested alone.
#[inline(always)]
fn tight_in_word(row: &[u64], cost: u64, base: &[u64], from: usize, among: u64) -> u64
    requires lengths { length base.now ≡ length row.now }
    requires cells { (cost ≤ CELL_AT_MOST) × AreCells base.now }
    requires from { from + A_WORD ≤ NODES_AT_MOST }
    requires among { (i : ℕ) → i < A_WORD → bit_at among i ≡ 1 → from + i < length row.now }
    ensures { AreBitsAmong (is_tight row.now cost base.now) from among result }
{
    let mut left = among;
    let mut found = 0;
    'left: while left != 0 {
        let bit = left.trailing_zeros() as usize;
        left &= !(1 << bit);
        if cost + base[from + bit] == row[from + bit] {
            found |= 1 << bit;
        }
    }
    found
}

/// Those of the nodes of a word, whose bits tell of nodes from `from` on, to which the way over the base's node, to which it
/// costs `cost`, costs what the row says. A few nodes are tested one by one, and for more there is a pass over the places of
/// the word, where the row has them all.
#[inline(always)]
fn tight_of_word(row: &[u64], cost: u64, base: &[u64], from: usize, among: u64) -> u64
    requires lengths { length base.now ≡ length row.now }
    requires cells { (cost ≤ CELL_AT_MOST) × AreCells base.now }
    requires from { from + A_WORD ≤ NODES_AT_MOST }
    requires among { (i : ℕ) → i < A_WORD → bit_at among i ≡ 1 → from + i < length row.now }
    ensures { AreBitsAmong (is_tight row.now cost base.now) from among result }
{
    if among.count_ones() as usize <= FEW_OF_A_WORD || row.len() < from + A_WORD {
        return tight_in_word(row, cost, base, from, among);
    }
    among & word_of(&TightRows { row, cost, base }, from, GROUPS)
}

/// Those of the nodes to which the way over the base's node, to which it costs `cost`, costs what the row says. Each word of
/// the set is tested as suits it, so that a set with many nodes in one word has a pass over the places of that word alone.
pub fn tight_among(row: &[u64], cost: u64, base: &[u64], among: NodeBits) -> NodeBits
    requires lengths { (length base.now ≡ length row.now) × (length row.now ≤ NODES_AT_MOST) }
    requires cost { cost ≤ CELL_AT_MOST }
    requires base { AreCells base.now }
    requires among { (v : ℕ) → is_in among v ≡ true → v < length row.now }
    ensures { (v : ℕ) → is_in result v ≡ (is_in among v && is_tight row.now cost base.now v) }
{
    let [a, b, c, d] = among.words;
    NodeBits {
        words: [
            tight_of_word(row, cost, base, 0, a),
            tight_of_word(row, cost, base, A_WORD, b),
            tight_of_word(row, cost, base, 2 * A_WORD, c),
            tight_of_word(row, cost, base, 3 * A_WORD, d),
        ],
    }
}

/// The nodes at which the rows differ.
pub fn differ(a: &[u64], b: &[u64]) -> NodeBits
    requires lengths { length b.now ≡ length a.now }
    requires count { length a.now ≤ NODES_AT_MOST }
    ensures { (v : ℕ) → is_in result v ≡ differs a.now b.now v }
{
    places_of(&TwoRows { a, b })
}

/// The nodes to which the row has a distance.
pub fn finite(row: &[u64]) -> NodeBits
    requires { length row.now ≤ NODES_AT_MOST }
    ensures { (v : ℕ) → is_in result v ≡ has_distance row.now v }
{
    places_of(&OneRow { row })
}

/// Those of the nodes to which the row has a distance. Each is looked at alone.
fn finite_singly(row: &[u64], among: NodeBits) -> NodeBits
    requires among { (v : ℕ) → is_in among v ≡ true → v < length row.now }
    ensures { (v : ℕ) → is_in result v ≡ (is_in among v && has_distance row.now v) }
{
    let mut left = among;
    let mut found = NodeBits::none();
    'left: while let Some(node) = left.take_first() {
        if row[node] < CELL_AT_MOST {
            found = found.with(node);
        }
    }
    found
}

/// Those of the nodes to which the row has a distance. A few nodes are looked at one by one, and for more there is a pass
/// over the row.
#[inline(always)]
pub fn finite_among(row: &[u64], among: NodeBits) -> NodeBits
    requires length { length row.now ≤ NODES_AT_MOST }
    requires among { (v : ℕ) → is_in among v ≡ true → v < length row.now }
    ensures { (v : ℕ) → is_in result v ≡ (is_in among v && has_distance row.now v) }
{
    if among.count() <= FEW {
        return finite_singly(row, among);
    }
    among.and(finite(row))
}
