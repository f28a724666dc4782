//! A small graph with two parallel pairs: what fails in it, and where its links end.

use super::fixtures::{Span, spanned};
use sr_graph::{Graph, LinkSet};
use sr_model::{Case, Kind, LinkNo, NodeNo};
use std::alloc::Global;
use std::test::Fail;

/// The links of a table: the numbers of the system ids at the ends, and the number at both ends, 0
/// where there is none.
const PARALLELS: [(u64, u64, u32); 8] = [
    (1, 2, 1),
    (2, 1, 1),
    (1, 2, 2),
    (2, 1, 2),
    (1, 3, 0),
    (3, 1, 0),
    (3, 2, 0),
    (2, 3, 0),
];

/// Nodes 1 to 3: two pairs between 1 and 2, both of group 7, and a pair from 3 to each of them. In
/// order of key the links are 1 to 2 twice, 1 to 3, 2 to 1 twice, 2 to 3, 3 to 1 and 3 to 2.
fn parallels(alloc: Global) -> Result<Graph, Fail> {
    let mut spans = Vec::new(alloc);
    for (from, to, number) in PARALLELS {
        spans.push(Span {
            from,
            to,
            metric: 1,
            number,
        })?;
    }
    spanned(alloc, 3, &spans, 3)
}

/// The links that are in the set, of those with the numbers 0 to 7.
fn members(alloc: Global, set: &LinkSet) -> Result<Vec<u16>, Fail> {
    let mut members = Vec::new(alloc);
    for link in 0..8 {
        if set.has(LinkNo(link)) {
            members.push(link)?;
        }
    }
    Ok(members)
}

/// The first link is of the two pairs.
#[test]
fn links_fail_together(rt: HostRuntime) -> Result<(), Fail> {
    let alloc = rt.alloc();
    let graph = parallels(alloc)?;
    assert!(rt; graph.link_count() == 8);
    let wanted: [(Kind, &[u16]); 3] = [
        (Kind::Link, &[0, 3]),
        (Kind::Node, &[0, 1, 3, 4, 5, 7]),
        (Kind::Risk, &[0, 1, 3, 4]),
    ];
    for (kind, links) in wanted {
        let link = LinkNo(0);
        let failed = graph.failed(alloc, Case { kind, link })?;
        assert!(rt; members(alloc, &failed)?.as_slice() == links);
    }
    Ok(())
}

/// The parallel pairs share a risk; the pair between 1 and 3 shares none.
#[test]
fn risks_fail_as_links_or_not(rt: HostRuntime) -> Result<(), Fail> {
    let graph = parallels(rt.alloc())?;
    assert!(rt; graph.link_count() == 8);
    for (kind, link, as_link) in [
        (Kind::Risk, 0, false),
        (Kind::Risk, 2, true),
        (Kind::Link, 2, false),
    ] {
        assert!(rt; link < 8u16);
        let link = LinkNo(link);
        assert_eq!(rt; graph.fails_as_link(Case { kind, link }), as_link);
    }
    Ok(())
}

/// Node 1 is the end of the links from 2, and of that from 3.
#[test]
fn links_are_listed_by_their_end(rt: HostRuntime) -> Result<(), Fail> {
    let graph = parallels(rt.alloc())?;
    assert!(rt; graph.node_count() == 3);
    let wanted = [LinkNo(3), LinkNo(4), LinkNo(6)];
    assert_eq!(rt; graph.links_to(NodeNo(0)), wanted.as_slice());
    Ok(())
}
