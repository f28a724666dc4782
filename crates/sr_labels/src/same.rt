//! Whether two nets differ at most in what no list depends on.
ghost use Rattle.std.specs.Prelude.{◌≡◌, ◌↔◌, ℕ, length, IsTrue};
ghost use Rattle.sr_model.specs.Rule.{node_at};
ghost use Rattle.sr_laws.specs.Listed.{HaveSameLists};

use crate::net::{LabelledGraph, Net};
use crate::node::NodeLabels;

/// Whether each node has the same index in both.
fn are_indexed_alike(one: &[NodeLabels], other: &[NodeLabels]) -> bool
    requires { length one.now ≡ length other.now }
    ensures { IsTrue result ↔ ((v : ℕ) → (node_at other.now v).index ≡ (node_at one.now v).index) }
{
    for node in 0..one.len() {
        if one[node].index() != other[node].index() {
            return false;
        }
    }
    true
}

impl Net {
    /// Whether each segment list is sound in the one net where it is in the other, since the graph, the indices and the
    /// adjacency labels are the same. The nets may differ in how deep lists may be, in label ranges and flags, and in links
    /// that aren't in use.
    pub fn has_same_lists(&self, other: &Net) -> bool
        ensures { IsTrue result ↔ HaveSameLists self.now other.now }
    {
        let one: &LabelledGraph = &self.base;
        let other: &LabelledGraph = &other.base;
        one.graph.is_same(&other.graph)
            && one.adj == other.adj
            && are_indexed_alike(&one.nodes, &other.nodes)
    }
}
