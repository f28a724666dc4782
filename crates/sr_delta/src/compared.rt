//! How two nets are compared.
ghost use Rattle.std.specs.Prelude.{IfOk};
ghost use Rattle.sr_delta.specs.Changes.{AreChanges};

use crate::alike::{Alike, all_alike};
use crate::changed::changed_links;
use crate::differences::Changes;
use crate::nodes::same_nodes;
use crate::partners::partners;
use sr_labels::Net;
use std::alloc::{AllocError, Global};

/// What differs from the old net to the new one.
pub fn changes(alloc: Global, old: &Net, new: &Net) -> Result<Changes, AllocError>
    ensures { IfOk result (AreChanges old.now new.now) }
{
    let before = old.graph();
    let after = new.graph();
    let nodes = before.node_count();
    if !same_nodes(alloc, before, after)? {
        return Ok(Changes::new(
            nodes,
            false,
            Vec::new(alloc),
            Vec::new(alloc),
            Vec::new(alloc),
            Alike::none(),
        ));
    }
    let there = partners(alloc, before, after)?;
    let back = partners(alloc, after, before)?;
    let links = changed_links(alloc, before, after, &there, &back)?;
    let alike = all_alike(old, new, &there, &back, &links);
    Ok(Changes::new(nodes, true, links, there, back, alike))
}
