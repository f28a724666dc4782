//! What searches read of the links, side by side.
ghost use Rattle.std.specs.Prelude.{◌≡◌, map, IfOk};
ghost use Rattle.sr_graph.specs.Edges.{edge_of};

use sr_model::{Link, NodeNo};
use std::alloc::{AllocError, Global};

/// What a search needs of a link: the nodes at its ends, and its metric. It takes 8 octets, where a `Link` takes 40.
#[derive(Clone, Copy, Debug, PartialEq, Eq)]
pub struct Edge {
    /// The node at which the link begins.
    pub from: NodeNo,
    /// The node at which the link ends.
    pub to: NodeNo,
    /// The link's metric (RFC 5305, 3).
    pub metric: u32,
}

/// The edges of these links, in their order.
pub(crate) fn edges_of(alloc: Global, links: &[Link]) -> Result<Vec<Edge>, AllocError>
    ensures { IfOk result (λ edges. edges.items ≡ map edge_of links.now) }
{
    let mut edges = Vec::with_capacity(alloc, links.len())?;
    for link in links {
        edges.push(Edge {
            from: link.from,
            to: link.to,
            metric: link.metric,
        })?;
    }
    Ok(edges)
}
