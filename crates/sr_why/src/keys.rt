//! The keys of a graph's links.
ghost use Rattle.std.specs.Prelude.{IfOk};
ghost use Rattle.sr_model.specs.Graph.{link_count};
ghost use Rattle.sr_why.specs.Whole.{AreLinkKeys};

use sr_graph::Graph;
use sr_model::{LinkKey, LinkNo};
use std::alloc::{AllocError, Global};

/// The keys of all links, in their order.
pub(crate) fn link_keys(alloc: Global, graph: &Graph) -> Result<Vec<LinkKey>, AllocError>
    ensures { IfOk result (λ keys. AreLinkKeys graph.now (link_count graph.now) keys.items) }
{
    let count = graph.link_count();
    let mut keys = Vec::with_capacity(alloc, count as usize)?;
    for link in 0..count as u16 {
        keys.push(graph.link(LinkNo(link)).key)?;
    }
    Ok(keys)
}
