//! What failures of links leave, told from what the failures of their ends leave.
ghost use Rattle.std.specs.Prelude.{◌≡◌};
ghost use Rattle.sr_model.specs.declared.case.Kind.TheVariants.{Link as LinkKind};
ghost use Rattle.sr_model.specs.Case.{IsCase};
ghost use Rattle.sr_spf.specs.Trees.{AreTrees};
ghost use Rattle.sr_post.specs.Bypass.{node_case};
ghost use Rattle.sr_post.specs.Post.{IsPost};

use super::changes::{left_of, ring_with_chord};
use super::fixtures::{RING_WITH_LEAF, net_of, trees_of};
use sr_labels::Net;
use sr_model::{Case, FAR, Kind, LinkNo};
use sr_post::{Post, post_of_link};
use sr_spf::Trees;
use std::alloc::{AllocError, Global};
use std::test::Fail;

/// A link, the distances from its beginning that the failure of its end leaves, and those that the
/// failure of its pair leaves.
type Left = (u16, &'static [u64], &'static [u64]);

/// The chord, of metric 3, is on no shortest walk, whichever pair fails.
const OF_RING_WITH_CHORD: [Left; 3] = [
    (0, &[0, FAR, 2, 1], &[0, 3, 2, 1]),
    (1, &[0, 1, FAR, 1], &[0, 1, 2, 1]),
    (4, &[1, 0, FAR, 2], &[1, 0, 3, 2]),
];

/// Node 5 is reached over node 3 alone, and node 3 by both ways round.
const OF_RING_WITH_LEAF: [Left; 2] = [
    (3, &[1, 0, FAR, 2, FAR], &[1, 0, 3, 2, 4]),
    (6, &[2, 1, 0, 1, FAR], &[2, 1, 0, 1, FAR]),
];

/// What the failure of the link leaves, told from what the failure of its end leaves.
fn left_past(
    alloc: Global,
    net: &Net,
    trees: &Trees,
    case: Case,
    around: &Post,
) -> Result<Post, AllocError>
    requires trees { AreTrees net.now.graph trees.now }
    requires case { IsCase net.now.graph case × (case.kind ≡ LinkKind) }
    requires around { IsPost net.now (node_case case) around.now }
{
    post_of_link(alloc, net, trees, case, around.cells())
}

/// Whether the failures leave these distances.
fn leaves(alloc: Global, net: &Net, trees: &Trees, left: &Left) -> Result<bool, Fail>
    requires { AreTrees net.now.graph trees.now }
{
    let &(number, around, past) = left;
    if number as u32 >= net.graph().link_count() {
        return Err(Fail::new("no such link"));
    }
    let link = LinkNo(number);
    let of_node = Case {
        kind: Kind::Node,
        link,
    };
    let of_link = Case {
        kind: Kind::Link,
        link,
    };
    let node = left_of(alloc, net, trees, of_node)?;
    let pair = left_past(alloc, net, trees, of_link, &node)?;
    Ok(node.cells() == around && pair.cells() == past)
}

#[test]
fn what_a_link_leaves_is_told_from_its_end(rt: HostRuntime) -> Result<(), Fail> {
    let alloc = rt.alloc();
    let net = ring_with_chord(alloc, 3)?;
    let trees = trees_of(&rt, alloc, net.graph())?;
    for left in &OF_RING_WITH_CHORD {
        assert!(rt; leaves(alloc, &net, &trees, left)?, "of link {}", left.0);
    }
    Ok(())
}

#[test]
fn a_leaf_is_reached_over_the_end(rt: HostRuntime) -> Result<(), Fail> {
    let alloc = rt.alloc();
    let net = net_of(alloc, 5, &RING_WITH_LEAF)?;
    let trees = trees_of(&rt, alloc, net.graph())?;
    for left in &OF_RING_WITH_LEAF {
        assert!(rt; leaves(alloc, &net, &trees, left)?, "of link {}", left.0);
    }
    Ok(())
}
