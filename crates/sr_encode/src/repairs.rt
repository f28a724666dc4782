//! What is listed in a case, from its search.
ghost use Rattle.std.specs.Prelude.{◌≡◌, ℕ, ◌<◌, ◌^◌, true, IfOk};
ghost use Rattle.sr_model.specs.declared.link.TheConstants.{FAR as Far};
ghost use Rattle.sr_model.specs.Graph.{node_count};
ghost use Rattle.sr_model.specs.Walk.{IsRow};
ghost use Rattle.sr_model.specs.Case.{IsCase};
ghost use Rattle.sr_spf.specs.Trees.{AreTrees};
ghost use Rattle.sr_post.specs.Post.{IsPost};
ghost use Rattle.sr_lanes.specs.Bits.{is_in};
ghost use Rattle.sr_encode.specs.Serve.{AreResolved};
ghost use Rattle.sr_encode.specs.Answered.{AreAffected};
ghost use Rattle.sr_encode.specs.Placed.{ArePlacedLists};
ghost use Rattle.sr_encode.specs.Repairs.{AreAllKept};

use crate::case_lists::CaseLists;
use crate::collected::Collected;
use crate::kept::{Kept, Outcome};
use crate::scene::Scene;
use crate::search::{Serving, search};
use crate::waypoint::Waypoint;
use sr_graph::LinkSet;
use sr_labels::Net;
use sr_lanes::NodeBits;
use sr_model::{Case, FAR, LinkNo, NodeNo, Segment};
use sr_post::{Post, pivot_of, spaces_of};
use sr_spaces::Spaces;
use sr_spf::Trees;
use std::alloc::{AllocError, Global};

/// What is listed, as it is kept: the outcomes that destinations share, and the segments of their lists.
#[derive(Drop)]
struct KeptLists {
    kept: Vec<Kept>,
    outcomes: Vec<Outcome>,
    segments: Vec<Segment>,
}

/// The cost of the whole way to a destination at this distance, and 0 where there is none.
fn whole_cost(cost: u64) -> u32
    requires { cost < Far → cost < 2 ^ 32 }
    ensures { cost < Far → result ≡ cost }
{
    if cost >= FAR {
        return 0;
    }
    cost as u32
}

/// What is listed for the destinations, ascending.
fn kept_lists(
    alloc: Global,
    net: &Net,
    cells: &[u64],
    failed: &LinkSet,
    source: NodeNo,
    wanted: NodeBits,
    found: &Serving,
) -> Result<KeptLists, AllocError>
    requires cells { IsRow net.now.graph failed.now source.0 cells.now }
    requires source { source.0 < node_count net.now.graph }
    requires wanted { (v : ℕ) → is_in wanted v ≡ true → v < node_count net.now.graph }
    requires found { AreResolved (record { net = net.now; failed = failed.now; source = source.0; post = cells.now })
        found.now.queue.items wanted found.now.places.items }
    ensures { IfOk result (AreAllKept net.now failed.now source.0 wanted) }
{
    let start = LinkNo(net.graph().links_from(source).first);
    let mut kept = Vec::with_capacity(alloc, wanted.count())?;
    let mut collected = Collected::new(alloc, &found.queue, start)?;
    let mut left = wanted;
    'left: while let Some(node) = left.take_first() {
        let cost = cells[node];
        let outcome = collected.outcome_for(cost, found.places[node])?;
        kept.push(Kept {
            destination: NodeNo(node as u16),
            outcome,
            cost: whole_cost(cost),
        })?;
    }
    Ok(KeptLists {
        kept,
        outcomes: collected.outcomes,
        segments: collected.segments,
    })
}

/// What is listed in the case, whose affected destinations these are. `post` is what the case leaves, and `spaces` has the
/// links that fail in it.
fn lists_for(
    alloc: Global,
    net: &Net,
    spaces: &Spaces,
    post: &Post,
    case: Case,
    wanted: NodeBits,
) -> Result<CaseLists, AllocError>
    requires spaces { spaces.now ≡ record { graph = net.now.graph; failed = post.now.failed } }
    requires case { IsCase net.now.graph case }
    requires post { IsPost net.now case post.now }
    requires wanted { AreAffected net.now case wanted }
    ensures { IfOk result (ArePlacedLists net.now case) }
{
    let source = net.graph().link(case.link).from;
    let pivot = pivot_of(net.graph(), case);
    let scene = Scene::new(net, spaces, post.cells(), source, pivot);
    let found = search(alloc, &scene, post, wanted)?;
    let KeptLists {
        kept,
        outcomes,
        segments,
    } = kept_lists(
        alloc,
        net,
        post.cells(),
        spaces.failed(),
        source,
        wanted,
        &found,
    )?;
    Ok(CaseLists::new(kept, outcomes, segments))
}

/// What is listed in the case for each affected destination, ascending: the least sound list, however deep, or why there is
/// none. `post` is what the case leaves, and `wanted` has the affected destinations.
pub fn lists(
    alloc: Global,
    net: &Net,
    trees: &Trees,
    post: &Post,
    case: Case,
    wanted: NodeBits,
) -> Result<CaseLists, AllocError>
    requires trees { AreTrees net.now.graph trees.now }
    requires case { IsCase net.now.graph case }
    requires post { IsPost net.now case post.now }
    requires wanted { AreAffected net.now case wanted }
    ensures { IfOk result (ArePlacedLists net.now case) }
{
    let spaces = spaces_of(net.graph(), trees, post.failed(), case);
    lists_for(alloc, net, &spaces, post, case, wanted)
}
