//! The form of a certificate: how many rows it has, and whether its links, nodes and segments are allowed.
ghost use Rattle.std.specs.Prelude.{◌≡◌, ◌<◌, ◌↔◌, ◌+◌, true, is_some, length, IsTrue};
ghost use Rattle.std.specs.List.{All};
ghost use Rattle.sr_model.specs.Graph.{node_count};
ghost use Rattle.sr_model.specs.Label.{labels_at};
ghost use Rattle.sr_model.specs.Repair.{Clear};
ghost use Rattle.sr_repair.specs.Stack.{goes_to};
ghost use Rattle.sr_cert.specs.Clauses.{HasRows, IsWellFormed, AreUsable};
ghost use Rattle.sr_cert.specs.Verdict.{IsWithinNet, IsSegmentWithin};
ghost use Rattle.sr_cert.specs.Walked.{AreSegmentsWithin, rows_of, rows_asked, IsUsable};

use crate::certificate::Certificate;
use sr_graph::LinkSet;
use sr_labels::Net;
use sr_model::{NodeNo, Segment};
use sr_seq::Seq;

/// How many rows a segment asks for: those from its waypoint and to its node.
pub(crate) fn row_count(segment: Segment) -> usize
    ensures { result ≡ rows_of segment }
{
    match segment {
        Segment::Node(_) => 2,
        Segment::Adj(_) => 0,
    }
}

/// The node that a segment leads to.
pub(crate) fn led_to(net: &Net, segment: Segment) -> NodeNo
    requires { IsSegmentWithin net.now segment }
    ensures end { result.0 ≡ goes_to net.now segment }
    ensures within { result.0 < node_count net.now.graph }
{
    match segment {
        Segment::Node(node) => node,
        Segment::Adj(link) => net.graph().edge(link).to,
    }
}

/// How many rows a certificate with these segments has: that of the source, and those that the segments and the way on
/// ask for.
fn rows_wanted(segments: &[Segment]) -> usize
    ensures { result ≡ rows_asked segments.now + 1 }
{
    let mut wanted = 3;
    for segment in segments {
        wanted += row_count(*segment);
    }
    wanted
}

/// Whether each row has a cell for each node.
fn have_length(rows: &[Seq<u64>], count: usize) -> bool
    ensures { IsTrue result ↔ All (λ row. length row ≡ count) rows.now }
{
    for row in rows {
        if row.as_slice().len() != count {
            return false;
        }
    }
    true
}

/// Whether the certificate has the rows that its segments ask for, each with a cell for each node.
pub(crate) fn has_rows(net: &Net, certificate: &Certificate) -> bool
    ensures { IsTrue result ↔ HasRows net.now certificate.now }
{
    let rows = certificate.rows.as_slice();
    if rows.len() != rows_wanted(certificate.segments.as_slice()) {
        return false;
    }
    have_length(rows, net.graph().node_count() as usize)
}

/// Whether the node has an index.
fn has_index(net: &Net, node: NodeNo) -> bool
    requires { node.0 < node_count net.now.graph }
    ensures { IsTrue result ↔ (is_some (labels_at net.now node.0).index ≡ true) }
{
    match net.labels(node).index() {
        None => false,
        Some(_) => true,
    }
}

/// Whether the segment may be used at the waypoint, but for spaces.
fn is_usable(net: &Net, x: &LinkSet, at: NodeNo, segment: Segment) -> bool
    requires { IsSegmentWithin net.now segment }
    ensures { IsTrue result ↔ IsUsable net.now x.now at.0 segment }
{
    match segment {
        Segment::Node(node) => has_index(net, node) && node.0 != at.0,
        Segment::Adj(link) => {
            if net.graph().edge(link).from.0 != at.0 || x.has(link) {
                return false;
            }
            match net.adj(link) {
                None => false,
                Some(_) => true,
            }
        }
    }
}

/// Whether each segment may be used at its waypoint, but for spaces.
fn are_usable(net: &Net, x: &LinkSet, begin: NodeNo, segments: &[Segment]) -> bool
    requires { AreSegmentsWithin net.now segments.now }
    ensures { IsTrue result ↔ AreUsable net.now x.now begin.0 segments.now }
{
    let mut at = begin;
    for segment in segments {
        if !is_usable(net, x, at, *segment) {
            return false;
        }
        at = led_to(net, *segment);
    }
    true
}

/// Whether no waypoint but d is overloaded.
fn is_clear(net: &Net, d: NodeNo, begin: NodeNo, segments: &[Segment]) -> bool
    requires { AreSegmentsWithin net.now segments.now }
    ensures { IsTrue result ↔ Clear net.now d.0 begin.0 segments.now }
{
    let mut at = begin;
    for segment in segments {
        if !net.graph().carries(d, at) {
            return false;
        }
        at = led_to(net, *segment);
    }
    net.graph().carries(d, at)
}

/// Whether the first link, the destination, the segments and the waypoints are allowed. `x` has the failed links.
pub(crate) fn is_well_formed(net: &Net, x: &LinkSet, certificate: &Certificate) -> bool
    requires { IsWithinNet net.now certificate.now }
    ensures { IsTrue result ↔ IsWellFormed net.now x.now certificate.now }
{
    let source = net.graph().edge(certificate.case.link).from;
    let first = net.graph().edge(certificate.first);
    if first.from.0 != source.0 || x.has(certificate.first) {
        return false;
    }
    if certificate.dest.0 == source.0 || !has_index(net, certificate.dest) {
        return false;
    }
    let segments = certificate.segments.as_slice();
    are_usable(net, x, first.to, segments) && is_clear(net, certificate.dest, first.to, segments)
}
