//! The least list of a case in another net of the same graph.
ghost use Rattle.std.specs.Prelude.{IfOk};
ghost use Rattle.sr_model.specs.Case.{IsCase, source_of};
ghost use Rattle.sr_spf.specs.Trees.{AreTrees};
ghost use Rattle.sr_post.specs.Post.{IsPost};
ghost use Rattle.sr_why.specs.Listed.{HasList};
ghost use Rattle.sr_why.specs.Reasons.{IsLeastList};

use crate::whole::{WholeList, whole_list};
use sr_encode::lists;
use sr_labels::Net;
use sr_model::{Case, NodeNo};
use sr_post::{Post, affected_set};
use sr_spf::Trees;
use std::alloc::{AllocError, Global};

/// The least sound list of the case to the destination in the net, where the case has one there. `post` is what the case
/// leaves.
pub(crate) fn least_list(
    alloc: Global,
    net: &Net,
    trees: &Trees,
    post: &Post,
    case: Case,
    destination: NodeNo,
) -> Result<WholeList, AllocError>
    requires trees { AreTrees net.now.graph trees.now }
    requires case { IsCase net.now.graph case }
    requires post { IsPost net.now case post.now }
    requires listed { HasList net.now case destination.0 }
    ensures { IfOk result
        (IsLeastList net.now post.now.failed (source_of net.now.graph case) destination.0) }
{
    let wanted = affected_set(net, trees, case);
    let found = lists(alloc, net, trees, post, case, wanted)?;
    whole_list(alloc, found.listed(net, case, destination).unwrap())
}
