//! Which trees stay.
ghost use Rattle.std.specs.Prelude.{◌≡◌, true, length, IfOk};
ghost use Rattle.sr_model.specs.Label.{Net};
ghost use Rattle.sr_spf.specs.Trees.{tree_count, AreTrees};
ghost use Rattle.sr_spf.specs.Renewed.{AreRenewable};
ghost use Rattle.sr_delta.specs.Changes.{AreChanges};
ghost use Rattle.sr_delta.specs.KeptTrees.{AreKeptTrees};

use crate::differences::Changes;
use crate::stays::tree_stays;
use sr_model::NodeNo;
use sr_spf::Trees;
use std::alloc::{AllocError, Global};

/// For each node whether its tree stays. `old` are the trees of the old net: where the nodes are the same, they can be
/// renewed by these marks and by the partners of the links.
pub fn kept_trees(alloc: Global, changes: &Changes, old: &Trees) -> Result<Vec<bool>, AllocError>
    requires { changes.now.nodes ≡ tree_count old.now }
    ensures long { IfOk result (λ list. length list.items ≡ tree_count old.now) }
    ensures kept { (n m : Net) → AreChanges n m changes.now → AreTrees n.graph old.now
        → IfOk result (λ list. AreKeptTrees n m list.items) }
    ensures renewable { (n m : Net) → AreChanges n m changes.now → AreTrees n.graph old.now → changes.now.same ≡ true
        → IfOk result (λ list. AreRenewable m.graph old.now list.items changes.now.partners) }
{
    let count = old.node_count();
    let mut list = Vec::with_capacity(alloc, count as usize)?;
    for u in 0..count as u16 {
        list.push(tree_stays(changes, old, NodeNo(u)))?;
    }
    Ok(list)
}
