//! Another graph of the same nodes and links.
ghost use Rattle.std.specs.Prelude.{◌≡◌, IfOk};

use crate::graph::Graph;
use crate::link_bits::LinkBits;
use sr_seq::Seq;
use std::alloc::{AllocError, Global};

/// The same lists of numbers.
fn copied_lists<T: Copy>(alloc: Global, lists: &[Seq<T>]) -> Result<Vec<Seq<T>>, AllocError>
    ensures { IfOk result (λ copies. copies.items ≡ lists.now) }
{
    let mut copies = Vec::with_capacity(alloc, lists.len())?;
    for list in lists {
        copies.push(Seq::new(Vec::from_slice(alloc, list.as_slice())?))?;
    }
    Ok(copies)
}

/// The same sets of links.
fn copied_sets(alloc: Global, sets: &[LinkBits]) -> Result<Vec<LinkBits>, AllocError>
    ensures { IfOk result (λ copies. copies.items ≡ sets.now) }
{
    let mut copies = Vec::with_capacity(alloc, sets.len())?;
    for set in sets {
        copies.push(set.copied(alloc)?)?;
    }
    Ok(copies)
}

impl Graph {
    /// Another graph of the same nodes and links.
    pub fn copied(&self, alloc: Global) -> Result<Graph, AllocError>
        ensures { IfOk result (λ graph. graph ≡ self.now) }
    {
        Ok(Graph {
            systems: Vec::from_slice(alloc, &self.systems)?,
            links: Vec::from_slice(alloc, &self.links)?,
            edges: Vec::from_slice(alloc, &self.edges)?,
            groups: copied_lists(alloc, &self.groups)?,
            overloaded: Vec::from_slice(alloc, &self.overloaded)?,
            starts: Vec::from_slice(alloc, &self.starts)?,
            incoming: copied_lists(alloc, &self.incoming)?,
            sharing: copied_sets(alloc, &self.sharing)?,
        })
    }
}
