//! The links that end at each node.
ghost use Rattle.std.specs.Prelude.{◌≡◌, ◌<◌, ◌≤◌, [], ℕ, length, replicate, IfOk};
ghost use Rattle.sr_graph.specs.Ranges.{end_in, AreListedByEnd};
ghost use Rattle.sr_model.specs.declared.link.TheConstants.{MOST_LINKS};

use crate::edges::Edge;
use sr_model::LinkNo;
use sr_seq::Seq;
use std::alloc::{AllocError, Global};

/// No links at each of the nodes.
fn empty_lists(alloc: Global, nodes: usize) -> Result<Vec<Seq<LinkNo>>, AllocError>
    ensures { IfOk result (λ lists. lists.items ≡ replicate nodes []) }
{
    let mut lists = Vec::with_capacity(alloc, nodes)?;
    for _node in 0..nodes {
        lists.push(Seq::empty(alloc))?;
    }
    Ok(lists)
}

/// The links that end at each of the nodes, ascending.
pub(crate) fn lists_by_end(
    alloc: Global,
    edges: &[Edge],
    nodes: usize,
) -> Result<Vec<Seq<LinkNo>>, AllocError>
    requires few_links { length edges.now ≤ MOST_LINKS }
    requires ends { (l : ℕ) → l < length edges.now → end_in edges.now l < nodes }
    ensures { IfOk result (λ lists. AreListedByEnd edges.now (length edges.now) nodes lists.items) }
{
    let mut lists = empty_lists(alloc, nodes)?;
    for link in 0..edges.len() {
        let list = &mut lists[edges[link].to.0 as usize];
        list.push(LinkNo(link as u16))?;
    }
    Ok(lists)
}
