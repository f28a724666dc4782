//! Certificates of a repair in a ring of four: the one that is issued, the one that lines write,
//! and verdicts on drafts. The rows and labels are taken from a drawing of the ring.
ghost use Rattle.std.specs.Prelude.{◌≡◌, ◌<◌, IsTrue};
ghost use Rattle.std.specs.List.{All};
ghost use Rattle.sr_cert.specs.Verdict.{IsWithinNet, IsSegmentWithin};

use super::fixtures::{RING, net_of, version_of};
use sr_cert::{CertDraft, CertLine, Certificate, MOST_LINES, Verdict, certify, verdict};
use sr_labels::Net;
use sr_model::{Case, Kind, LinkNo, NodeNo, Segment};
use sr_repair::Version;
use sr_seq::Seq;
use sr_spf::Steps;
use std::alloc::{AllocError, Global};
use std::marker::Brand;
use std::sync::ledger::{Blank, Ledger};
use std::test::Fail;

/// The link between nodes 1 and 2 fails.
const CASE: Case = Case {
    kind: Kind::Link,
    link: LinkNo(0),
};

/// Node 2.
const DESTINATION: NodeNo = NodeNo(1);

/// From node 1 without the link; from node 4 and to node 3; from node 3 and to node 2.
const ROWS: [[u64; 4]; 5] = [
    [0, 3, 2, 1],
    [1, 2, 1, 0],
    [2, 1, 0, 1],
    [2, 1, 0, 1],
    [1, 0, 1, 2],
];

/// Node 3 at node 4, above node 2 at node 3.
const LABELS: [u32; 2] = [16_002, 16_003];

/// The parts of a certificate for the failure of the link between nodes 1 and 2, and the number of
/// the first clause that it fails, 0 where it is accepted. Nodes and links stand by number.
struct Told {
    name: &'static str,
    first: u16,
    nodes: &'static [u16],
    dest: u16,
    rows: &'static [[u64; 4]],
    labels: &'static [u32],
    fails: u8,
}

/// By node 4 to node 3, and from there to node 2: accepted. Then each clause is failed alone.
const TOLD: [Told; 8] = [
    Told {
        name: "by node 4 to node 3 and on to node 2",
        first: 1,
        nodes: &[2],
        dest: 1,
        rows: &ROWS,
        labels: &LABELS,
        fails: 0,
    },
    Told {
        name: "without the last row",
        first: 1,
        nodes: &[2],
        dest: 1,
        rows: &[[0, 3, 2, 1], [1, 2, 1, 0], [2, 1, 0, 1], [2, 1, 0, 1]],
        labels: &LABELS,
        fails: 1,
    },
    Told {
        name: "from node 3 to node 3",
        first: 1,
        nodes: &[2, 2],
        dest: 1,
        rows: &[
            [0, 3, 2, 1],
            [1, 2, 1, 0],
            [2, 1, 0, 1],
            [2, 1, 0, 1],
            [2, 1, 0, 1],
            [2, 1, 0, 1],
            [1, 0, 1, 2],
        ],
        labels: &[16_002, 16_003, 16_003],
        fails: 2,
    },
    Told {
        name: "a distance of node 3 that is too large",
        first: 1,
        nodes: &[2],
        dest: 1,
        rows: &[
            [0, 3, 3, 1],
            [1, 2, 1, 0],
            [2, 1, 0, 1],
            [2, 1, 0, 1],
            [1, 0, 1, 2],
        ],
        labels: &LABELS,
        fails: 3,
    },
    Told {
        name: "a distance to node 2 that is too small",
        first: 1,
        nodes: &[2],
        dest: 1,
        rows: &[
            [0, 3, 2, 1],
            [1, 2, 1, 0],
            [2, 1, 0, 1],
            [2, 1, 0, 1],
            [1, 0, 1, 1],
        ],
        labels: &LABELS,
        fails: 4,
    },
    Told {
        name: "by node 4, which may go on by node 1",
        first: 1,
        nodes: &[],
        dest: 1,
        rows: &[[0, 3, 2, 1], [1, 2, 1, 0], [1, 0, 1, 2]],
        labels: &[16_002],
        fails: 5,
    },
    Told {
        name: "to node 3 and back to node 4",
        first: 1,
        nodes: &[2],
        dest: 3,
        rows: &[
            [0, 3, 2, 1],
            [1, 2, 1, 0],
            [2, 1, 0, 1],
            [2, 1, 0, 1],
            [1, 2, 1, 0],
        ],
        labels: &[16_004, 16_003],
        fails: 6,
    },
    Told {
        name: "labels exchanged",
        first: 1,
        nodes: &[2],
        dest: 1,
        rows: &ROWS,
        labels: &[16_003, 16_002],
        fails: 7,
    },
];

/// Whether the certificate is the one that is told.
fn is_told(certificate: &Certificate, told: &Told) -> bool {
    let segments = certificate.segments.as_slice();
    let rows = certificate.rows.as_slice();
    let mut same = certificate.case == CASE
        && certificate.dest == NodeNo(told.dest)
        && certificate.first == LinkNo(told.first)
        && certificate.labels.as_slice() == told.labels
        && segments.len() == told.nodes.len()
        && rows.len() == told.rows.len();
    for (segment, node) in segments.iter().zip(told.nodes) {
        same = same && *segment == Segment::Node(NodeNo(*node));
    }
    for (row, wanted) in rows.iter().zip(told.rows) {
        same = same && row.as_slice() == wanted.as_slice();
    }
    same
}

/// The certificate that the version issues, where it has the link and the node; its search is
/// counted from nothing.
fn issued<L: Ledger>(
    alloc: Global,
    version: &Version,
    blank: Blank,
) -> Result<Option<Certificate>, AllocError>
    requires name { blank.name ≡ L.name }
    requires parts { (blank.parts ≡ L.parts) × (0 < L.parts) }
{
    let graph = version.net().graph();
    if graph.link_count() == 0 || graph.node_count() < 2 {
        return Ok(None);
    }
    let mut steps = Steps::<L>::new(blank);
    certify(alloc, version, CASE, DESTINATION, &mut steps)
}

#[test]
fn the_repair_by_node_4_has_its_certificate(rt: HostRuntime) -> Result<(), Fail> {
    let alloc = rt.alloc();
    let net = net_of(alloc, 4, &RING)?;
    let version = version_of(&rt, alloc, net)?;
    let found = issued::<Brand>(alloc, &version, Blank::new(1))?.ok_or("no certificate")?;
    assert!(rt; is_told(&found, &TOLD[0]));
    Ok(())
}

/// Keeps a line more of the draft, which has few.
fn keep(draft: &mut CertDraft, line: CertLine) -> Result<(), Fail> {
    if draft.kept() == MOST_LINES {
        return Err(Fail::new("too many lines"));
    }
    draft.keep(line)?;
    Ok(())
}

/// The draft of a first link, if there is one, a segment, and the rows.
fn drafted(alloc: Global, first: Option<LinkNo>) -> Result<CertDraft, Fail> {
    let mut draft = CertDraft::open(alloc, CASE, DESTINATION);
    if let Some(link) = first {
        keep(&mut draft, CertLine::Via(link))?;
    }
    keep(&mut draft, CertLine::NodeSegment(NodeNo(2)))?;
    for row in &ROWS {
        keep(&mut draft, CertLine::Row(Seq::new(row.to_vec(alloc)?)))?;
    }
    Ok(draft)
}

#[test]
fn its_lines_write_it(rt: HostRuntime) -> Result<(), Fail> {
    let alloc = rt.alloc();
    let draft = drafted(alloc, Some(LinkNo(1)))?;
    assert_eq!(rt; draft.kept(), 8);
    let labels = Seq::new(LABELS.to_vec(alloc)?);
    let written = draft.finish(alloc, labels)?.ok_or("no certificate")?;
    assert!(rt; is_told(&written, &TOLD[0]));
    Ok(())
}

#[test]
fn without_a_first_link_nothing_is_written(rt: HostRuntime) -> Result<(), Fail> {
    let alloc = rt.alloc();
    let labels = Seq::new(LABELS.to_vec(alloc)?);
    assert!(rt; drafted(alloc, None)?.finish(alloc, labels)?.is_none());
    Ok(())
}

/// The certificate that is told.
fn certificate_of(alloc: Global, told: &Told) -> Result<Certificate, AllocError> {
    let mut segments = Vec::new(alloc);
    for node in told.nodes {
        segments.push(Segment::Node(NodeNo(*node)))?;
    }
    let mut rows = Vec::new(alloc);
    for row in told.rows {
        rows.push(Seq::new(row.to_vec(alloc)?))?;
    }
    Ok(Certificate {
        case: CASE,
        dest: NodeNo(told.dest),
        first: LinkNo(told.first),
        segments: Seq::new(segments),
        rows: Seq::new(rows),
        labels: Seq::new(told.labels.to_vec(alloc)?),
    })
}

/// Whether the segment is a node of the net.
fn is_node(net: &Net, segment: Segment) -> bool
    ensures { IsTrue result → IsSegmentWithin net.now segment }
{
    match segment {
        Segment::Node(node) => (node.0 as u32) < net.graph().node_count(),
        Segment::Adj(_) => false,
    }
}

/// Whether the certificate's segments are nodes of the net.
fn are_nodes(net: &Net, segments: &[Segment]) -> bool
    ensures { IsTrue result → All (IsSegmentWithin net.now) segments.now }
{
    for segment in segments {
        if !is_node(net, *segment) {
            return false;
        }
    }
    true
}

/// Whether the nodes and links of the certificate are those of the net.
fn is_within(net: &Net, certificate: &Certificate) -> bool
    ensures { IsTrue result → IsWithinNet net.now certificate.now }
{
    let graph = net.graph();
    (certificate.case.link.0 as u32) < graph.link_count()
        && (certificate.first.0 as u32) < graph.link_count()
        && (certificate.dest.0 as u32) < graph.node_count()
        && are_nodes(net, certificate.segments.as_slice())
}

/// The number of the clause that the verdict names, 0 where the certificate is accepted at cost 3.
fn clause_of(verdict: Verdict) -> u8 {
    match verdict {
        Verdict::Accepted { cost: 3 } => 0,
        Verdict::Accepted { .. } => u8::MAX,
        Verdict::Rejected(clause) => clause.number(),
    }
}

#[test]
fn the_first_clause_that_fails_is_named(rt: HostRuntime) -> Result<(), Fail> {
    let alloc = rt.alloc();
    let net = net_of(alloc, 4, &RING)?;
    for told in &TOLD {
        let certificate = certificate_of(alloc, told)?;
        assert!(rt; is_within(&net, &certificate));
        let clause = clause_of(verdict(alloc, &net, &certificate)?);
        assert_eq!(rt; clause, told.fails, "{}", told.name);
    }
    Ok(())
}
