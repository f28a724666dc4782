//! Calls that the program doesn't make, on small domains. What is wanted of them is from their definitions.

use super::versions::{case_of, leave, version_of};
use sr_audit::{Counts, Item, Report, audit, counts};
use sr_model::{Kind, NodeNo};
use sr_repair::Version;
use std::alloc::{AllocError, Global};
use std::process::Abort;
use std::test::Fail;
use std::thread::Threads;

/// An item of an audit without its answer: the kind of failure, the numbers of the protected link and the destination,
/// and the labels on the first link, the top last.
#[derive(Clone, Copy)]
struct Line {
    kind: Kind,
    link: u16,
    destination: u16,
    labels: &'static [u32],
}

/// The audit of two nodes with one bidirectional link. Where node 2 fails, no other destination is left to node 1.
const PAIR_LINES: [Line; 4] = [
    Line {
        kind: Kind::Link,
        link: 0,
        destination: 1,
        labels: &[],
    },
    Line {
        kind: Kind::Link,
        link: 1,
        destination: 0,
        labels: &[],
    },
    Line {
        kind: Kind::Risk,
        link: 0,
        destination: 1,
        labels: &[],
    },
    Line {
        kind: Kind::Risk,
        link: 1,
        destination: 0,
        labels: &[],
    },
];

/// A small domain, the counts of its audit, how many items that has, and the first of them.
struct Audited {
    name: &'static str,
    counts: Counts,
    items: usize,
    lines: &'static [Line],
}

const AUDITED: [Audited; 2] = [
    Audited {
        name: "a single pair",
        counts: Counts {
            covered: 0,
            nopath: 4,
            nolist: 0,
            toodeep: 0,
        },
        items: PAIR_LINES.len(),
        lines: &PAIR_LINES,
    },
    // With each of the 8 links its end and the node behind it are affected, and where the end fails the node behind it
    // alone. No groups are shared, so an SRLG case is as the link case: 16, 8 and 16.
    Audited {
        name: "a ring of four",
        counts: Counts {
            covered: 40,
            nopath: 0,
            nolist: 0,
            toodeep: 0,
        },
        items: 40,
        lines: &[],
    },
];

/// Whether the item is told by the line.
fn is_told(item: &Item, line: &Line) -> bool {
    item.case.kind == line.kind
        && item.case.link.0 == line.link
        && item.dest.0 == line.destination
        && item.labels.as_slice() == line.labels
}

/// Whether the first items are told by the lines.
fn are_told(items: &[Item], lines: &[Line]) -> bool {
    for (item, line) in items.iter().zip(lines) {
        if !is_told(item, line) {
            return false;
        }
    }
    true
}

/// The audit of a first version has these items.
fn check_items(rt: &impl Abort, report: &Report, case: &Audited) {
    let found = (report.version(), report.items().len());
    assert_eq!(rt; found, (1, case.items), "{}", case.name);
    assert!(rt; are_told(report.items(), case.lines), "{}", case.name);
}

/// These are the counts of the audit.
fn check_counts(rt: &impl Abort, counts: Counts, case: &Audited) {
    assert_eq!(rt; counts, case.counts, "{}", case.name);
}

/// The version is audited thus, and counted thus by itself.
fn check_audit<R: Threads + Sync + Abort>(
    rt: &R,
    alloc: Global,
    version: &Version,
    case: &Audited,
) -> Result<(), AllocError> {
    check_counts(rt, counts(version), case);
    let report = audit(rt, alloc, version)?;
    check_counts(rt, report.counts(), case);
    check_items(rt, &report, case);
    drop(report);
    Ok(())
}

#[test]
fn small_domains_are_audited(rt: HostRuntime) -> Result<(), Fail> {
    for case in &AUDITED {
        let version = version_of(&rt, case.name)?;
        let checked = check_audit(&rt, rt.alloc(), &version, case);
        leave(version);
        checked?;
    }
    Ok(())
}

/// A small domain, and the labels of a repair of the first link from node 1 to node 2, the top last.
struct Repaired {
    name: &'static str,
    destination: u16,
    labels: Option<&'static [u32]>,
}

const REPAIRED: [Repaired; 4] = [
    // By node 4 to node 3, and from there to node 2: node 4 pops the label of node 3.
    Repaired {
        name: "a ring of four",
        destination: 1,
        labels: Some(&[16002, 16003]),
    },
    // Node 1 is the source.
    Repaired {
        name: "a ring of four",
        destination: 0,
        labels: None,
    },
    // The way from node 1 to node 4 doesn't take the pair.
    Repaired {
        name: "a ring of four",
        destination: 3,
        labels: None,
    },
    // Without a path there are no labels.
    Repaired {
        name: "a single pair",
        destination: 1,
        labels: None,
    },
];

/// These are the labels of the repair.
fn check_labels(rt: &impl Abort, labels: Option<&[u32]>, case: &Repaired) {
    assert!(rt;
        labels == case.labels,
        "node {} in {}",
        case.destination,
        case.name
    );
}

/// The link is repaired by these labels in this version.
fn check_repair(
    rt: &impl Abort,
    alloc: Global,
    version: &Version,
    case: &Repaired,
) -> Result<(), Fail> {
    let failure = case_of(version, Kind::Link)?;
    let labels = version.stack_of(alloc, failure, NodeNo(case.destination))?;
    check_labels(rt, labels.as_deref(), case);
    drop(labels);
    Ok(())
}

#[test]
fn the_labels_of_a_repair_have_the_top_last(rt: HostRuntime) -> Result<(), Fail> {
    for case in &REPAIRED {
        let version = version_of(&rt, case.name)?;
        let checked = check_repair(&rt, rt.alloc(), &version, case);
        leave(version);
        checked?;
    }
    Ok(())
}
