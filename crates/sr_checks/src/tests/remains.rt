//! What a failure leaves, in small domains: distances, and the nodes on shortest walks. What is wanted is from the
//! definitions.
ghost use Rattle.std.specs.Prelude.{◌≡◌, ◌<◌};
ghost use Rattle.sr_model.specs.Case.{IsCase};

use super::versions::{case_of, leave, version_of};
use sr_model::{Case, Kind, NodeNo};
use sr_post::{post, tails, walks};
use sr_repair::Version;
use sr_spf::Steps;
use std::alloc::{AllocError, Global};
use std::marker::Brand;
use std::process::Abort;
use std::sync::ledger::{Blank, Ledger};
use std::test::Fail;

/// A failure of the first link from node 1 to node 2, and what it leaves to node 1, node by node: the distance, and
/// whether the node stands on a shortest walk to an affected destination.
#[derive(Clone, Copy)]
struct Failure {
    name: &'static str,
    kind: Kind,
    distances: &'static [Option<u64>],
    on_walks: &'static [bool],
}

const FAILURES: [Failure; 6] = [
    // Nodes 2 and 3 are affected, and the other way round is left.
    Failure {
        name: "a ring of four",
        kind: Kind::Link,
        distances: &[Some(0), Some(3), Some(2), Some(1)],
        on_walks: &[true, true, true, true],
    },
    // Node 3 is affected.
    Failure {
        name: "a ring of four",
        kind: Kind::Node,
        distances: &[Some(0), None, Some(2), Some(1)],
        on_walks: &[true, false, true, true],
    },
    // Nodes 2 and 4 are affected: 1, 3, 4, 2 are left in a row.
    Failure {
        name: "a square",
        kind: Kind::Link,
        distances: &[Some(0), Some(3), Some(1), Some(2)],
        on_walks: &[true, true, true, true],
    },
    // Node 2 is affected, and no walk leads there.
    Failure {
        name: "a single pair",
        kind: Kind::Link,
        distances: &[Some(0), None],
        on_walks: &[false, false],
    },
    // Node 2 is affected, and the second pair leads there.
    Failure {
        name: "two pairs that share a risk",
        kind: Kind::Link,
        distances: &[Some(0), Some(1), Some(1)],
        on_walks: &[true, true, false],
    },
    // Node 2 is affected, and both pairs to it fail.
    Failure {
        name: "two pairs that share a risk",
        kind: Kind::Risk,
        distances: &[Some(0), Some(2), Some(1)],
        on_walks: &[true, true, true],
    },
];

/// What a failure leaves, node by node.
#[derive(Drop)]
struct Remains {
    distances: Vec<Option<u64>>,
    on_walks: Vec<bool>,
}

/// What the case leaves, with its search counted from nothing.
fn remains_by<L: Ledger>(
    alloc: Global,
    version: &Version,
    case: Case,
    blank: Blank,
) -> Result<Remains, AllocError>
    requires case { IsCase version.now.net.graph case }
    requires name { blank.name ≡ L.name }
    requires parts { (blank.parts ≡ L.parts) × (0 < L.parts) }
{
    let mut steps = Steps::<L>::new(blank);
    let net = version.net();
    let left = post(alloc, net, version.trees(), case, &mut steps)?;
    let tails = tails(alloc, net.graph())?;
    let ways = walks(net, version.trees(), case, left.cells(), &tails);
    let mut distances = Vec::new(alloc);
    let mut on_walks = Vec::new(alloc);
    for node in 0..net.graph().node_count() as u16 {
        distances.push(left.dist(NodeNo(node)))?;
        on_walks.push(ways.has(node as usize))?;
    }
    Ok(Remains {
        distances,
        on_walks,
    })
}

/// These distances and walks are left.
fn check_remains(rt: &impl Abort, remains: &Remains, failure: &Failure) {
    assert!(rt;
        remains.distances.as_slice() == failure.distances,
        "distances in {}",
        failure.name
    );
    assert!(rt;
        remains.on_walks.as_slice() == failure.on_walks,
        "walks in {}",
        failure.name
    );
}

/// The failure leaves what it is to leave in this version.
fn check_failure(
    rt: &impl Abort,
    alloc: Global,
    version: &Version,
    failure: &Failure,
) -> Result<(), Fail> {
    let case = case_of(version, failure.kind)?;
    let remains = remains_by::<Brand>(alloc, version, case, Blank::new(1))?;
    check_remains(rt, &remains, failure);
    drop(remains);
    Ok(())
}

#[test]
fn failures_leave_distances_and_walks(rt: HostRuntime) -> Result<(), Fail> {
    for failure in &FAILURES {
        let version = version_of(&rt, failure.name)?;
        let checked = check_failure(&rt, rt.alloc(), &version, failure);
        leave(version);
        checked?;
    }
    Ok(())
}
