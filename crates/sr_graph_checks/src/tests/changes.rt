//! A ring in which one metric changes, with a chord and without. What is wanted is from the
//! definitions.
ghost use Rattle.std.specs.Prelude.{◌≡◌, ◌<◌, IfOk};
ghost use Rattle.sr_model.specs.Case.{IsCase};
ghost use Rattle.sr_spf.specs.Trees.{tree_count, AreTrees};
ghost use Rattle.sr_post.specs.Post.{IsPost};
ghost use Rattle.sr_delta.specs.Changes.{AreChanges};
ghost use Rattle.sr_delta.specs.KeptTrees.{AreKeptTrees};

use super::fixtures::{Line, RING, id, net_of, trees_of};
use sr_delta::{
    Change, Changes, OldCase, Staying, case_stays, changes, kept_trees, renewal, tree_stays,
};
use sr_labels::Net;
use sr_lanes::NodeBits;
use sr_model::{Case, Ident, Kind, LinkKey, LinkNo, NodeNo};
use sr_post::{Post, post, tails, walks};
use sr_spf::{Renewal, Steps, Trees};
use std::alloc::{AllocError, Global};
use std::marker::Brand;
use std::sync::ledger::{Blank, Ledger};
use std::test::Fail;

/// The net of nodes 1 to 4 in a ring of metric 1, with a chord between 1 and 3: this metric from 1
/// to 3, and 3 back. In order of key the links are 1>2, 1>3, 1>4, 2>1, 2>3, 3>1, 3>2, 3>4, 4>1 and
/// 4>3.
pub fn ring_with_chord(alloc: Global, chord: u32) -> Result<Net, Fail> {
    let links: [Line; 10] = [
        (1, 2, 1),
        (2, 1, 1),
        (2, 3, 1),
        (3, 2, 1),
        (3, 4, 1),
        (4, 3, 1),
        (4, 1, 1),
        (1, 4, 1),
        (1, 3, chord),
        (3, 1, 3),
    ];
    net_of(alloc, 4, links.as_slice())
}

/// Nodes 1 to 4 in a ring of metric 1, but for the link from 1 to 2.
const RING_WITH_DETOUR: [Line; 8] = [
    (4, 1, 1),
    (1, 4, 1),
    (3, 4, 1),
    (4, 3, 1),
    (2, 3, 1),
    (3, 2, 1),
    (1, 2, 5),
    (2, 1, 1),
];

/// Whether the metric from 1 to 3 alone differs, which was 3 and is 2.
fn is_the_chord(links: &[Change]) -> bool {
    let chord = Change {
        key: LinkKey {
            from: id(1),
            to: id(3),
            ident: Ident::None,
        },
        from: NodeNo(0),
        to: NodeNo(2),
        before: Some(3),
        after: Some(2),
    };
    links == [chord].as_slice()
}

/// The nodes whose trees stay.
fn trees_staying(alloc: Global, found: &Changes, trees: &Trees) -> Result<Vec<u16>, AllocError>
    requires { found.now.nodes ≡ tree_count trees.now }
{
    let mut nodes = Vec::new(alloc);
    for node in 0..trees.node_count() as u16 {
        if tree_stays(found, trees, NodeNo(node)) {
            nodes.push(node)?;
        }
    }
    Ok(nodes)
}

/// Whether the chord alone differs, and touches only the distances from node 1: that to 3 is 2 too,
/// by way of 2 and of 4.
fn touches_node_1(alloc: Global, old: &Net, new: &Net, trees: &Trees) -> Result<bool, AllocError>
    requires { AreTrees old.now.graph trees.now }
{
    let found = changes(alloc, old, new)?;
    let staying = trees_staying(alloc, &found, trees)?;
    Ok(is_the_chord(found.links()) && staying.as_slice() == [1, 2, 3].as_slice())
}

/// What the failure of the case leaves, counted from nothing.
fn left_from<L: Ledger>(
    alloc: Global,
    net: &Net,
    trees: &Trees,
    case: Case,
    blank: Blank,
) -> Result<Post, AllocError>
    requires name { blank.name ≡ L.name }
    requires parts { (blank.parts ≡ L.parts) × (0 < L.parts) }
    requires trees { AreTrees net.now.graph trees.now }
    requires case { IsCase net.now.graph case }
    ensures { IfOk result (IsPost net.now case) }
{
    let mut steps = Steps::<L>::new(blank);
    post(alloc, net, trees, case, &mut steps)
}

/// What the failure of the case leaves.
pub fn left_of(alloc: Global, net: &Net, trees: &Trees, case: Case) -> Result<Post, AllocError>
    requires trees { AreTrees net.now.graph trees.now }
    requires case { IsCase net.now.graph case }
    ensures { IfOk result (IsPost net.now case) }
{
    left_from::<Brand>(alloc, net, trees, case, Blank::new(1))
}

/// For each node of the old net, whether its tree stays.
fn kept_of(
    alloc: Global,
    changes: &Changes,
    old: &Net,
    trees: &Trees,
    new: &Net,
) -> Result<Vec<bool>, AllocError>
    requires changes { AreChanges old.now new.now changes.now }
    requires trees { AreTrees old.now.graph trees.now }
    ensures { IfOk result (λ list. AreKeptTrees old.now new.now list.items) }
{
    kept_trees(alloc, changes, trees)
}

/// Whether the case stays.
fn stays(
    alloc: Global,
    changes: &Changes,
    kept: &[bool],
    old: &Net,
    trees: &Trees,
    new: &Net,
    case: Case,
) -> Result<bool, AllocError>
    requires changes { AreChanges old.now new.now changes.now }
    requires kept { AreKeptTrees old.now new.now kept.now }
    requires trees { AreTrees old.now.graph trees.now }
    requires case { IsCase old.now.graph case }
{
    let left = left_of(alloc, old, trees, case)?;
    let tails = tails(alloc, old.graph())?;
    let cells = left.cells();
    let walks = walks(old, trees, case, cells, &tails);
    let old_case = OldCase::new(old, trees, case, cells, walks);
    Ok(case_stays(changes, &Staying::new(changes, kept), &old_case, new))
}

/// The links whose cases of this kind stay.
fn cases_staying(
    alloc: Global,
    old: &Net,
    trees: &Trees,
    new: &Net,
    kind: Kind,
) -> Result<Vec<u16>, AllocError>
    requires { AreTrees old.now.graph trees.now }
{
    let found = changes(alloc, old, new)?;
    let kept = kept_of(alloc, &found, old, trees, new)?;
    let mut links = Vec::new(alloc);
    for link in 0..old.graph().link_count() as u16 {
        let case = Case {
            kind,
            link: LinkNo(link),
        };
        if stays(alloc, &found, &kept, old, trees, new, case)? {
            links.push(link)?;
        }
    }
    Ok(links)
}

/// Whether just these cases stay: each that protects the link from 3 to 1, and each node case in
/// which node 1 fails.
fn leaves_cases(alloc: Global, old: &Net, new: &Net, trees: &Trees) -> Result<bool, AllocError>
    requires { AreTrees old.now.graph trees.now }
{
    let link = cases_staying(alloc, old, trees, new, Kind::Link)?;
    let node = cases_staying(alloc, old, trees, new, Kind::Node)?;
    let risk = cases_staying(alloc, old, trees, new, Kind::Risk)?;
    Ok(
        link.as_slice() == [5].as_slice()
            && node.as_slice() == [3, 5, 8].as_slice()
            && risk.as_slice() == [5].as_slice(),
    )
}

/// What of the old trees serves the new net.
fn renewal_of(alloc: Global, old: &Net, new: &Net, trees: &Trees) -> Result<Renewal, Fail>
    requires { AreTrees old.now.graph trees.now }
{
    let found = changes(alloc, old, new)?;
    if new.graph().node_count() != trees.node_count() {
        return Err(Fail::new("the nodes differ"));
    }
    Ok(renewal(alloc, new.graph(), &found, trees)?)
}

/// Whether the trees of nodes 2 and 3 stay, and the others but for a few distances: from node 1
/// those to 2 and to 3, and from node 4 that to 2, to which the walk by way of 3 is as short.
fn loses_what_is_past_2(renewal: &Renewal) -> bool {
    let from_1 = NodeBits::none().with(1).with(2);
    let from_4 = NodeBits::none().with(1);
    renewal.stays.as_slice() == [false, true, true, false].as_slice()
        && renewal.lost.first() == Some(&from_1)
        && renewal.lost.last() == Some(&from_4)
}

/// The metric from 1 to 2 goes from 1 to 5.
#[test]
fn a_metric_loses_what_is_past_its_end(rt: HostRuntime) -> Result<(), Fail> {
    let alloc = rt.alloc();
    let old = net_of(alloc, 4, &RING)?;
    let new = net_of(alloc, 4, &RING_WITH_DETOUR)?;
    let trees = trees_of(&rt, alloc, old.graph())?;
    let renewal = renewal_of(alloc, &old, &new, &trees)?;
    assert!(rt; loses_what_is_past_2(&renewal));
    Ok(())
}

/// The metric from 1 to 3 goes from 3 to 2.
#[test]
fn a_metric_touches_what_it_ties(rt: HostRuntime) -> Result<(), Fail> {
    let alloc = rt.alloc();
    let old = ring_with_chord(alloc, 3)?;
    let new = ring_with_chord(alloc, 2)?;
    let trees = trees_of(&rt, alloc, old.graph())?;
    assert!(rt; touches_node_1(alloc, &old, &new, &trees)?);
    assert!(rt; leaves_cases(alloc, &old, &new, &trees)?);
    Ok(())
}
