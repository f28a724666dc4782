//! The links of each node: those that begin at one node stand together.
ghost use Rattle.std.specs.Prelude.{ℕ, ◌+◌, ◌<◌, ◌≤◌, length, IfOk};
ghost use Rattle.sr_graph.specs.Ranges.{tail_in, AreByTail, AreStarts};
ghost use Rattle.sr_model.specs.declared.link.TheConstants.{MOST_LINKS, MOST_NODES};

use sr_model::Link;
use std::alloc::{AllocError, Global};

/// The numbers of the links that begin at one node: from the first to below the end.
#[derive(Clone, Copy, Debug, PartialEq, Eq)]
pub struct LinkRange {
    /// The number of the first link.
    pub first: u16,
    /// One above the number of the last link; the same as `first` where no link begins there.
    pub end: u16,
}

/// The first place, from this one on, whose link begins at the node or at a later one.
fn skip(links: &[Link], place: usize, node: usize) -> usize
    requires place { place ≤ length links.now }
    ensures forth { place ≤ result }
    ensures inside { result ≤ length links.now }
    ensures before { (l : ℕ) → place ≤ l → l < result → tail_in links.now l < node }
    ensures at { result < length links.now → node ≤ tail_in links.now result }
{
    for i in place..links.len() {
        if links[i].from.0 as usize >= node {
            return i;
        }
    }
    links.len()
}

/// For each node, and once more for the end, the first place whose link begins there or later.
pub(crate) fn starts(alloc: Global, links: &[Link], nodes: usize) -> Result<Vec<u16>, AllocError>
    requires few_nodes { nodes ≤ MOST_NODES }
    requires few_links { length links.now ≤ MOST_LINKS }
    requires by_tail { AreByTail links.now }
    ensures { IfOk result (λ starts. AreStarts nodes links.now starts.items) }
{
    let mut starts = Vec::with_capacity(alloc, nodes + 1)?;
    let mut next = 0;
    for node in 0..nodes + 1 {
        next = skip(links, next, node);
        starts.push(next as u16)?;
    }
    Ok(starts)
}
