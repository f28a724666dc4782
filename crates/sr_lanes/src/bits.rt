//! What is asked of sets of nodes, and what is made of them.

ghost use Rattle.std.specs.Prelude.{◌≡◌, ◌≢◌, ℕ, ◌-◌, ◌^◌, ◌<◌, ◌≤◌, min, ◌↔◌, ◌==◌, ◌&&◌, ◌||◌, not, false, nat_lt, length, slice_index, slice_index_or, IsTrue, MatchOption};
ghost use Rattle.sr_lanes.specs.Bits.{is_in, member_count, IsFirstIn, IsWithout};

use crate::limits::{A_WORD, NODES_AT_MOST};
use crate::words::NodeBits;

/// A word that begins with that many ones, and has no others.
#[inline(always)]
fn ones(count: usize) -> u64
    ensures { result ≡ 2 ^ min count A_WORD - 1 }
{
    if count < A_WORD {
        (1 << count) - 1
    } else {
        u64::MAX
    }
}

impl NodeBits {
    /// No node.
    #[inline(always)]
    pub fn none() -> NodeBits
        ensures { (v : ℕ) → is_in result v ≡ false }
    {
        NodeBits { words: [0; 4] }
    }

    /// This node alone.
    #[inline(always)]
    pub fn alone(node: usize) -> NodeBits
        requires { node < NODES_AT_MOST }
        ensures { (v : ℕ) → is_in result v ≡ (v == node) }
    {
        NodeBits::none().with(node)
    }

    /// All nodes below this number.
    #[inline(always)]
    pub fn below(count: usize) -> NodeBits
        requires { count ≤ NODES_AT_MOST }
        ensures { (v : ℕ) → is_in result v ≡ nat_lt v count }
    {
        NodeBits {
            words: [
                ones(count),
                ones(count.saturating_sub(A_WORD)),
                ones(count.saturating_sub(2 * A_WORD)),
                ones(count.saturating_sub(3 * A_WORD)),
            ],
        }
    }

    /// The nodes at whose places the tests say yes.
    pub fn from_tests(tests: &[bool]) -> NodeBits
        requires { length tests.now ≤ NODES_AT_MOST }
        ensures { (v : ℕ) → is_in result v ≡ slice_index_or tests.now v false }
    {
        let mut set = NodeBits::none();
        for v in 0..tests.len() {
            if tests[v] {
                set = set.with(v);
            }
        }
        set
    }

    /// Whether the node is in the set.
    #[inline(always)]
    pub fn has(self, node: usize) -> bool
        requires { node < NODES_AT_MOST }
        ensures { result ≡ is_in self node }
    {
        self.words[node / A_WORD] >> (node % A_WORD) & 1 == 1
    }

    /// The set and this node.
    #[inline(always)]
    pub fn with(self, node: usize) -> NodeBits
        requires { node < NODES_AT_MOST }
        ensures { (v : ℕ) → is_in result v ≡ (v == node || is_in self v) }
    {
        let mut words = self.words;
        words[node / A_WORD] |= 1 << (node % A_WORD);
        NodeBits { words }
    }

    /// The set without this node.
    #[inline(always)]
    pub fn without(self, node: usize) -> NodeBits
        requires { node < NODES_AT_MOST }
        ensures { (v : ℕ) → is_in result v ≡ (not (v == node) && is_in self v) }
    {
        let mut words = self.words;
        words[node / A_WORD] &= !(1 << (node % A_WORD));
        NodeBits { words }
    }

    /// Takes the node out of the set. Whether it was in it.
    #[inline(always)]
    pub fn remove(&mut self, node: usize) -> bool
        requires { node < NODES_AT_MOST }
        ensures was { result ≡ is_in self.old node }
        ensures left { IsWithout self.old self.new node }
    {
        let word = self.words[node / A_WORD];
        let bit = 1 << (node % A_WORD);
        self.words[node / A_WORD] = word & !bit;
        word & bit != 0
    }

    /// The nodes that are in both sets.
    #[inline(always)]
    pub fn and(self, other: NodeBits) -> NodeBits
        ensures { (v : ℕ) → is_in result v ≡ (is_in self v && is_in other v) }
    {
        let [a, b, c, d] = self.words;
        let [e, f, g, h] = other.words;
        NodeBits {
            words: [a & e, b & f, c & g, d & h],
        }
    }

    /// The nodes that are in one of the sets, or in both.
    #[inline(always)]
    pub fn or(self, other: NodeBits) -> NodeBits
        ensures { (v : ℕ) → is_in result v ≡ (is_in self v || is_in other v) }
    {
        let [a, b, c, d] = self.words;
        let [e, f, g, h] = other.words;
        NodeBits {
            words: [a | e, b | f, c | g, d | h],
        }
    }

    /// The nodes that are in this set and not in the other.
    #[inline(always)]
    pub fn and_not(self, other: NodeBits) -> NodeBits
        ensures { (v : ℕ) → is_in result v ≡ (is_in self v && not (is_in other v)) }
    {
        let [a, b, c, d] = self.words;
        let [e, f, g, h] = other.words;
        NodeBits {
            words: [a & !e, b & !f, c & !g, d & !h],
        }
    }

    /// Whether no node is in the set.
    #[inline(always)]
    pub fn is_empty(self) -> bool
        ensures { IsTrue result ↔ ((v : ℕ) → is_in self v ≡ false) }
    {
        let [a, b, c, d] = self.words;
        a | b | c | d == 0
    }

    /// How many nodes are in the set.
    #[inline(always)]
    pub fn count(self) -> usize
        ensures { result ≡ member_count self }
    {
        let [a, b, c, d] = self.words;
        (a.count_ones() + b.count_ones() + c.count_ones() + d.count_ones()) as usize
    }

    /// The least number in the set.
    #[inline(always)]
    pub fn first(self) -> Option<usize>
        ensures { MatchOption result ((v : ℕ) → is_in self v ≡ false) (IsFirstIn self) }
    {
        for k in 0..4 {
            let word = self.words[k];
            if word != 0 {
                return Some(A_WORD * k + word.trailing_zeros() as usize);
            }
        }
        None
    }

    /// Takes the least number out of word k, the first in which there is one.
    #[inline(always)]
    fn take_from(&mut self, k: usize) -> usize
        requires k { k < 4 }
        requires some { slice_index self.old.words k ≢ 0 }
        requires none { (j : ℕ) → j < k → slice_index self.old.words j ≡ 0 }
        ensures first { IsFirstIn self.old result }
        ensures left { IsWithout self.old self.new result }
    {
        let word = self.words[k];
        let bit = word.trailing_zeros() as usize;
        let mut words = self.words;
        words[k] = word & !(1 << bit);
        *self = NodeBits { words };
        A_WORD * k + bit
    }

    /// Takes the least number out of the set.
    #[inline(always)]
    pub fn take_first(&mut self) -> Option<usize>
        ensures first { MatchOption result ((v : ℕ) → is_in self.old v ≡ false) (IsFirstIn self.old) }
        ensures left { MatchOption result (self.new ≡ self.old) (IsWithout self.old self.new) }
    {
        // Each word by a number that is known, so that what is left can stand in registers.
        if self.words[0] != 0 {
            return Some(self.take_from(0));
        }
        if self.words[1] != 0 {
            return Some(self.take_from(1));
        }
        if self.words[2] != 0 {
            return Some(self.take_from(2));
        }
        if self.words[3] != 0 {
            return Some(self.take_from(3));
        }
        None
    }
}
