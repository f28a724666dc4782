//! Whether two graphs are the same.
ghost use Rattle.std.specs.Prelude.{◌≡◌, ◌↔◌, IsTrue};

use crate::graph::Graph;
use sr_seq::Seq;

/// Whether the links are in the same risk groups, by number of link.
fn are_grouped_alike(one: &[Seq<u32>], other: &[Seq<u32>]) -> bool
    ensures { IsTrue result ↔ (one.now ≡ other.now) }
{
    if one.len() != other.len() {
        return false;
    }
    for link in 0..one.len() {
        if one[link].as_slice() != other[link].as_slice() {
            return false;
        }
    }
    true
}

impl Graph {
    /// Whether the graphs are the same: the same nodes, of which the same are overloaded, and links with the same names,
    /// metrics and risk groups.
    pub fn is_same(&self, other: &Graph) -> bool
        ensures { IsTrue result ↔ (self.now ≡ other.now) }
    {
        self.systems == other.systems
            && self.links == other.links
            && self.overloaded == other.overloaded
            && are_grouped_alike(&self.groups, &other.groups)
    }
}
