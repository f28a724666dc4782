//! Labels and indices of ranges, and the rules on the labels of all nodes together.
ghost use Rattle.std.specs.Prelude.{IfOk};
ghost use Rattle.sr_labels.specs.Rules.{AreOfNodes};

use sr_labels::{NodeLabels, Srgb, SrgbBad, first_clash};
use sr_model::{AdjLabel, LabelRule, Range};
use std::alloc::{AllocError, Global};
use std::test::Fail;

fn range(first: u32, size: u32) -> Range {
    Range { first, size }
}

#[test]
fn labels_and_indices_of_three_ranges(rt: HostRuntime) -> Result<(), Fail> {
    let ranges = [range(100, 100), range(1000, 100), range(500, 100)];
    let srgb = Srgb::new(ranges.to_vec(rt.alloc())?)?;
    for (index, label) in [
        (0, Some(100)),
        (99, Some(199)),
        (100, Some(1000)),
        (199, Some(1099)),
        (200, Some(500)),
        (299, Some(599)),
        (300, None),
    ] {
        assert_eq!(rt; srgb.label(index), label, "of index {index}");
    }
    for (label, index) in [(150, Some(50)), (1050, Some(150)), (600, None)] {
        assert_eq!(rt; srgb.index(label), index, "of label {label}");
    }
    assert_eq!(rt; srgb.size(), 300);
    Ok(())
}

/// The place of the first bad range.
fn bad(alloc: Global, ranges: &[Range]) -> Result<Option<usize>, AllocError> {
    match Srgb::new(ranges.to_vec(alloc)?) {
        Ok(_) => Ok(None),
        Err(SrgbBad::Bad { range }) => Ok(Some(range)),
    }
}

#[test]
fn the_first_bad_range_is_named(rt: HostRuntime) -> Result<(), Fail> {
    let good = range(1000, 10);
    let wanted: [(&[Range], Option<usize>); 6] = [
        (&[], Some(0)),
        (&[good, range(2000, 0)], Some(1)),
        (&[range(15, 10)], Some(0)),
        (&[range(1_048_575, 2)], Some(0)),
        (&[good, range(2000, 10), range(1009, 1)], Some(2)),
        (&[range(16, 10), range(1_048_575, 1)], None),
    ];
    for (ranges, place) in wanted {
        assert_eq!(rt; bad(rt.alloc(), ranges)?, place);
    }
    Ok(())
}

#[test]
fn the_explicit_flag_counts_with_the_other_alone(rt: HostRuntime) -> Result<(), Fail> {
    for keep in [false, true] {
        let srgb = Srgb::new([range(16000, 100)].to_vec(rt.alloc())?)?;
        assert_eq!(rt;
            NodeLabels::new(srgb, None, keep, true, None).explicit(),
            keep
        );
    }
    Ok(())
}

/// Nodes, each with the first label and the size of its range and its index, adjacency labels with
/// their nodes, and the first rule that they break.
struct Clash {
    nodes: &'static [(u32, u32, Option<u32>)],
    adj: &'static [(usize, u32)],
    rule: Option<LabelRule>,
}

/// Two nodes with the labels 16000 to 16099.
const TWO: &[(u32, u32, Option<u32>)] = &[(16000, 100, Some(80)), (16000, 100, Some(81))];

const CLASHES: [Clash; 6] = [
    // All indices lie outside the ranges of the last node, which isn't named. The least that is a
    // duplicate is named with its two least nodes.
    Clash {
        nodes: &[
            (16000, 100, Some(9)),
            (16000, 100, Some(7)),
            (16000, 100, Some(9)),
            (16000, 100, Some(7)),
            (16000, 100, Some(7)),
            (16000, 1, None),
        ],
        adj: &[],
        rule: Some(LabelRule::DuplicateIndex {
            index: 7,
            low: 1,
            high: 3,
        }),
    },
    // The least index that is outside is named with the least node.
    Clash {
        nodes: &[
            (16000, 100, Some(80)),
            (17000, 56, Some(55)),
            (18000, 55, Some(54)),
            (19000, 55, None),
        ],
        adj: &[],
        rule: Some(LabelRule::IndexOutside { index: 55, node: 2 }),
    },
    // An adjacency label that is reserved.
    Clash {
        nodes: TWO,
        adj: &[(1, 16), (1, 15), (0, 30000)],
        rule: Some(LabelRule::AdjLabelClash { label: 15, node: 1 }),
    },
    // One in the ranges; the lower node comes first.
    Clash {
        nodes: TWO,
        adj: &[(1, 15), (0, 16099), (0, 16050)],
        rule: Some(LabelRule::AdjLabelClash {
            label: 16050,
            node: 0,
        }),
    },
    // That of two links of one node.
    Clash {
        nodes: TWO,
        adj: &[(1, 30000), (0, 30000), (1, 30000)],
        rule: Some(LabelRule::AdjLabelClash {
            label: 30000,
            node: 1,
        }),
    },
    // That of two nodes is none.
    Clash {
        nodes: TWO,
        adj: &[(0, 30000), (1, 30000), (1, 16100)],
        rule: None,
    },
];

/// What the nodes announce, each of which has one range and neither flag.
fn nodes_of(alloc: Global, nodes: &[(u32, u32, Option<u32>)]) -> Result<Vec<NodeLabels>, Fail> {
    let mut list = Vec::new(alloc);
    for &(first, size, index) in nodes {
        let srgb = Srgb::new([range(first, size)].to_vec(alloc)?)?;
        list.push(NodeLabels::new(srgb, index, false, false, None))?;
    }
    Ok(list)
}

/// The adjacency labels, each of one of the nodes.
fn adj_of(alloc: Global, nodes: usize, adj: &[(usize, u32)]) -> Result<Vec<AdjLabel>, Fail>
    ensures { IfOk result (λ list. AreOfNodes nodes list.items) }
{
    let mut list = Vec::new(alloc);
    for &(node, label) in adj {
        if node >= nodes {
            return Err(Fail::new("no such node"));
        }
        list.push(AdjLabel { node, label })?;
    }
    Ok(list)
}

#[test]
fn the_least_that_breaks_a_rule_is_named(rt: HostRuntime) -> Result<(), Fail> {
    let alloc = rt.alloc();
    for clash in &CLASHES {
        let nodes = nodes_of(alloc, clash.nodes)?;
        let adj = adj_of(alloc, nodes.len(), clash.adj)?;
        assert_eq!(rt; first_clash(alloc, &nodes, &adj)?, clash.rule);
    }
    Ok(())
}
