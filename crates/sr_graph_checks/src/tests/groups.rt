//! What is told of the audit of a ring with a leaf, in groups. What is wanted is counted in the
//! repairs of the net, which are from the definitions.

use super::fixtures::{RING_WITH_LEAF, net_of, version_of};
use sr_coverage::{coverage, stack_counts};
use sr_insight::{Group, Grouping, StackCount};
use sr_model::{Counts, Kind};
use sr_repair::Version;
use std::alloc::Global;
use std::test::Fail;
use std::thread::Threads;

/// The version of the ring with a leaf.
fn ring_with_leaf(rt: &(impl Threads + Sync), alloc: Global) -> Result<Version, Fail> {
    let net = net_of(alloc, 5, &RING_WITH_LEAF)?;
    Ok(version_of(rt, alloc, net)?)
}

/// The groups of the audit by a grouping: the number of each, how many items it covers, and to how
/// many of their destinations no way is left.
#[derive(Clone, Copy)]
struct Told {
    name: &'static str,
    grouping: Grouping,
    groups: &'static [(u32, u32, u32)],
}

const TOLD: [Told; 4] = [
    Told {
        name: "node cases are least covered",
        grouping: Grouping::Kind,
        groups: &[(1, 10, 5), (0, 20, 5), (2, 20, 5)],
    },
    Told {
        name: "the leaf protects nothing",
        grouping: Grouping::Node,
        groups: &[(4, 0, 11), (2, 10, 2), (1, 12, 1), (3, 12, 1), (0, 16, 0)],
    },
    Told {
        name: "links of the leaf are not covered",
        grouping: Grouping::Link,
        groups: &[
            (6, 0, 2),
            (9, 0, 11),
            (3, 7, 1),
            (8, 7, 1),
            (0, 8, 0),
            (1, 8, 0),
            (2, 5, 0),
            (4, 5, 0),
            (5, 5, 0),
            (7, 5, 0),
        ],
    },
    Told {
        name: "the leaf is the least covered destination",
        grouping: Grouping::Destination,
        groups: &[(4, 10, 4), (0, 10, 3), (1, 10, 3), (3, 10, 3), (2, 10, 2)],
    },
];

/// Whether these are the groups that are told.
fn are_told(groups: &[Group], told: &[(u32, u32, u32)]) -> bool {
    let mut same = groups.len() == told.len();
    for (group, &(number, covered, nopath)) in groups.iter().zip(told) {
        let counts = Counts {
            covered,
            nopath,
            nolist: 0,
            toodeep: 0,
        };
        same = same && *group == Group { number, counts };
    }
    same
}

#[test]
fn groups_have_their_counts(rt: HostRuntime) -> Result<(), Fail> {
    let version = ring_with_leaf(&rt, rt.alloc())?;
    for told in &TOLD {
        let groups = coverage(&rt, rt.alloc(), &version, told.grouping)?;
        assert!(rt; are_told(&groups, told.groups), "{}", told.name);
    }
    Ok(())
}

/// How many repairs of a kind push that many labels.
const PUSHED: [StackCount; 5] = [
    StackCount {
        kind: Kind::Link,
        labels: 1,
        repairs: 10,
    },
    StackCount {
        kind: Kind::Link,
        labels: 2,
        repairs: 10,
    },
    StackCount {
        kind: Kind::Node,
        labels: 1,
        repairs: 10,
    },
    StackCount {
        kind: Kind::Risk,
        labels: 1,
        repairs: 10,
    },
    StackCount {
        kind: Kind::Risk,
        labels: 2,
        repairs: 10,
    },
];

#[test]
fn repairs_push_one_label_or_two(rt: HostRuntime) -> Result<(), Fail> {
    let version = ring_with_leaf(&rt, rt.alloc())?;
    let told = stack_counts(&rt, rt.alloc(), &version)?;
    assert!(rt; told.as_slice() == PUSHED.as_slice());
    Ok(())
}
