//! Which adjacency labels of a net may be protected.
ghost use Rattle.std.specs.Prelude.{◌<◌, IfOk};
ghost use Rattle.std.specs.List.Sorted.{IsStrictlySortedBy};
ghost use Rattle.sr_model.specs.KeyOrder.{key_cmp};
ghost use Rattle.sr_domain.specs.Net.{IsNetOf};
ghost use Rattle.sr_adjprot.specs.Eligible.{AreEligible};
ghost use Rattle.sr_adjprot.specs.Protected.{AreKeysMarked};

use crate::protected::protected_list;
use sr_domain::{holds, keys_of};
use sr_graph::Graph;
use sr_labels::Net;
use sr_lsdb::Facts;
use sr_model::{LinkKey, LinkNo};
use std::alloc::{AllocError, Global};

/// For each link of the graph whether its key is among these, which ascend.
fn marks(alloc: Global, graph: &Graph, keys: &[LinkKey]) -> Result<Vec<bool>, AllocError>
    requires { IsStrictlySortedBy key_cmp keys.now }
    ensures { IfOk result (λ v. AreKeysMarked graph.now keys.now v.items) }
{
    let mut out = Vec::with_capacity(alloc, graph.link_count() as usize)?;
    for number in 0..graph.link_count() {
        out.push(holds(keys, &graph.link(LinkNo(number as u16)).key))?;
    }
    Ok(out)
}

/// For each link of the net whether its adjacency label may be protected: true exactly where the link has a label and the
/// net took it from an announced Adj-SID with the flag B (RFC 8667, 2.2.1). The net is that of the facts.
pub fn eligible(alloc: Global, facts: &Facts, net: &Net) -> Result<Vec<bool>, AllocError>
    requires { IsNetOf facts.now net.now }
    ensures { IfOk result (λ v. AreEligible facts.now net.now v.items) }
{
    let announced = protected_list(alloc, facts)?;
    let keys = keys_of(alloc, &announced)?;
    marks(alloc, net.graph(), &keys)
}
