//! Nodes in order of index, and links in order of label.
ghost use Rattle.std.specs.Prelude.{MatchOption, IsPermutation};
ghost use Rattle.sr_fib.specs.Sorted.{AscendByIndex, AscendByLabel, HaveOwnIndices, HaveOwnLabels, HasNode, NoNode, HasLinkUnder, NoLink};

use sr_model::{LinkNo, NodeNo};

/// A node with the index of its node segment.
#[derive(Clone, Copy, Debug, PartialEq, Eq)]
pub(crate) struct IndexedNode {
    pub(crate) index: u32,
    pub(crate) node: NodeNo,
}

/// A link with the label of its adjacency segment.
#[derive(Clone, Copy, Debug, PartialEq, Eq)]
pub(crate) struct LabelledLink {
    pub(crate) label: u32,
    pub(crate) link: LinkNo,
}

/// The node that has the index.
pub(crate) fn node_of_index(list: &[IndexedNode], index: u32) -> Option<NodeNo>
    requires { AscendByIndex list.now }
    ensures { MatchOption result (NoNode list.now index) (HasNode list.now index) }
{
    match list.binary_search_by_key(&index, |entry| entry.index) {
        Ok(place) => Some(list[place].node),
        Err(_) => None,
    }
}

/// The link that has the label.
pub(crate) fn link_of_label(list: &[LabelledLink], label: u32) -> Option<LinkNo>
    requires { AscendByLabel list.now }
    ensures { MatchOption result (NoLink list.now label) (HasLinkUnder list.now label) }
{
    match list.binary_search_by_key(&label, |entry| entry.label) {
        Ok(place) => Some(list[place].link),
        Err(_) => None,
    }
}

/// The same nodes in order of index.
pub(crate) fn by_index(mut list: Vec<IndexedNode>) -> Vec<IndexedNode>
    requires { HaveOwnIndices list.items }
    ensures same { IsPermutation list.items result.items }
    ensures order { AscendByIndex result.items }
{
    list.sort_unstable_by_key(|entry| entry.index);
    list
}

/// The same links in order of label.
pub(crate) fn by_label(mut list: Vec<LabelledLink>) -> Vec<LabelledLink>
    requires { HaveOwnLabels list.items }
    ensures same { IsPermutation list.items result.items }
    ensures order { AscendByLabel result.items }
{
    list.sort_unstable_by_key(|entry| entry.label);
    list
}
