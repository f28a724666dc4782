//! The clauses of a certificate that stand on its rows.
ghost use Rattle.std.specs.Prelude.{◌≡◌, ◌<◌, ◌↔◌, Bool, List, [], length, slice_index, IsTrue};
ghost use Rattle.sr_model.specs.declared.link.TheConstants.{FAR};
ghost use Rattle.sr_model.specs.Graph.{link_count};
ghost use Rattle.sr_model.specs.Walk.{OnShortest};
ghost use Rattle.sr_model.specs.Space.{InP};
ghost use Rattle.sr_model.specs.Case.{source_of};
ghost use Rattle.sr_model.specs.Label.{Net as Labelled};
ghost use Rattle.sr_cert.specs.Clauses.{HasRows, BeginsExact, GoesOnExact, StaysInSpaces, begin_of};
ghost use Rattle.sr_cert.specs.Verdict.{IsWithinNet};
ghost use Rattle.sr_cert.specs.Walked.{HaveCells, HasPlace, HasExact, AreWays, KeepsToWays};
ghost use Rattle.sr_cert.specs.Walked.{StaysOver, IsCostOver, CostInAll, whole_cell};

use crate::certificate::Certificate;
use crate::course::Course;
use crate::exact::is_exact;
use crate::form::{led_to, row_count};
use sr_graph::{Graph, LinkSet};
use sr_labels::Net;
use sr_model::{FAR, LinkNo, NodeNo, Segment};
use sr_seq::Seq;

/// Whether the first row is exact without the failed links `x`.
pub(crate) fn begins_exact(net: &Net, x: &LinkSet, certificate: &Certificate) -> bool
    requires within { IsWithinNet net.now certificate.now }
    requires rows { HasRows net.now certificate.now }
    ensures { IsTrue result
        ↔ BeginsExact net.now x.now (source_of net.now.graph certificate.now.case) certificate.now.rows }
{
    let source = net.graph().edge(certificate.case.link).from;
    let rows = certificate.rows.as_slice();
    is_exact(net.graph(), x, Course::From(source), rows[0].as_slice())
}

/// Whether the rows from place on are exact that the segment asks for at the waypoint. `nothing` has no link.
fn exact_over(
    net: &Net,
    nothing: &LinkSet,
    rows: &[Seq<u64>],
    place: usize,
    at: NodeNo,
    segment: Segment,
) -> bool
    requires nothing { nothing.now ≡ [] }
    requires cells { HaveCells net.now.graph rows.now }
    requires place { HasPlace net.now rows.now place at.0 segment }
    ensures { IsTrue result ↔ HasExact net.now.graph rows.now place at.0 segment }
{
    match segment {
        Segment::Adj(_) => true,
        Segment::Node(node) => {
            is_exact(
                net.graph(),
                nothing,
                Course::From(at),
                rows[place].as_slice(),
            ) && is_exact(
                net.graph(),
                nothing,
                Course::To(node),
                rows[place + 1].as_slice(),
            )
        }
    }
}

/// Whether the rows behind the first one are exact. `nothing` has no link.
pub(crate) fn goes_on_exact(net: &Net, nothing: &LinkSet, certificate: &Certificate) -> bool
    requires nothing { nothing.now ≡ [] }
    requires within { IsWithinNet net.now certificate.now }
    requires rows { HasRows net.now certificate.now }
    ensures { IsTrue result ↔ GoesOnExact net.now certificate.now certificate.now.rows }
{
    let rows = certificate.rows.as_slice();
    let mut at = net.graph().edge(certificate.first).to;
    let mut place = 1;
    for segment in certificate.segments.as_slice() {
        if !exact_over(net, nothing, rows, place, at, *segment) {
            return false;
        }
        place += row_count(*segment);
        at = led_to(net, *segment);
    }
    exact_over(
        net,
        nothing,
        rows,
        place,
        at,
        Segment::Node(certificate.dest),
    )
}

/// Whether the link stands on a shortest walk from u to v, where u reaches v. `from` has the distances from u, and `to`
/// those to v.
fn is_on_shortest(
    graph: &Graph,
    from: &[u64],
    to: &[u64],
    u: NodeNo,
    v: NodeNo,
    link: LinkNo,
) -> bool
    requires ways { AreWays graph.now u.0 v.0 from.now to.now }
    requires near { slice_index from.now v.0 < FAR }
    requires link { link.0 < link_count graph.now }
    ensures { IsTrue result ↔ OnShortest graph.now [] u.0 v.0 link.0 }
{
    let edge = graph.edge(link);
    let around = from[edge.from.0 as usize] + edge.metric as u64 + to[edge.to.0 as usize];
    if around != from[v.0 as usize] {
        return false;
    }
    graph.carries(u, edge.from) && graph.carries(v, edge.to)
}

/// Whether v is in P of u: u reaches v, and no failed link stands on a shortest walk from u to v. `from` has the
/// distances from u, `to` those to v, and `x` the failed links.
fn in_space(graph: &Graph, x: &LinkSet, from: &[u64], to: &[u64], u: NodeNo, v: NodeNo) -> bool
    requires failed { length x.now ≡ link_count graph.now }
    requires ways { AreWays graph.now u.0 v.0 from.now to.now }
    ensures { IsTrue result ↔ InP graph.now x.now u.0 v.0 }
{
    if from[v.0 as usize] >= FAR {
        return false;
    }
    for link in x.links() {
        if is_on_shortest(graph, from, to, u, v, *link) {
            return false;
        }
    }
    true
}

/// Whether the node of a node segment is in P of the waypoint, by the rows from place on. `x` has the failed links.
fn stays_over(
    net: &Net,
    x: &LinkSet,
    rows: &[Seq<u64>],
    place: usize,
    at: NodeNo,
    segment: Segment,
) -> bool
    requires failed { length x.now ≡ link_count net.now.graph }
    requires place { HasPlace net.now rows.now place at.0 segment }
    requires exact { HasExact net.now.graph rows.now place at.0 segment }
    ensures { IsTrue result ↔ StaysOver net.now.graph x.now at.0 segment }
{
    match segment {
        Segment::Adj(_) => true,
        Segment::Node(node) => in_space(
            net.graph(),
            x,
            rows[place].as_slice(),
            rows[place + 1].as_slice(),
            at,
            node,
        ),
    }
}

/// Whether the node of each node segment is in P of its waypoint, and the destination in P of the last one. `x` has the
/// failed links.
pub(crate) fn stays_in_spaces(net: &Net, x: &LinkSet, certificate: &Certificate) -> bool
    requires failed { length x.now ≡ link_count net.now.graph }
    requires within { IsWithinNet net.now certificate.now }
    requires rows { HasRows net.now certificate.now }
    requires exact { GoesOnExact net.now certificate.now certificate.now.rows }
    ensures { IsTrue result
        ↔ StaysInSpaces net.now x.now (begin_of net.now certificate.now) certificate.now.segments
        certificate.now.dest.0 }
{
    let rows = certificate.rows.as_slice();
    let mut at = net.graph().edge(certificate.first).to;
    let mut place = 1;
    for segment in certificate.segments.as_slice() {
        if !stays_over(net, x, rows, place, at, *segment) {
            return false;
        }
        place += row_count(*segment);
        at = led_to(net, *segment);
    }
    stays_over(net, x, rows, place, at, Segment::Node(certificate.dest))
}

/// What the segment costs from the waypoint on, by the rows from place on.
fn cost_over(net: &Net, rows: &[Seq<u64>], place: usize, at: NodeNo, segment: Segment) -> u64
    requires place { HasPlace net.now rows.now place at.0 segment }
    requires exact { HasExact net.now.graph rows.now place at.0 segment }
    requires stays { (x : List Bool) × StaysOver net.now.graph x at.0 segment }
    ensures cost { IsCostOver net.now.graph at.0 segment result }
    ensures small { result < FAR }
{
    match segment {
        Segment::Adj(link) => net.graph().edge(link).metric as u64,
        Segment::Node(node) => rows[place].as_slice()[node.0 as usize],
    }
}

/// Whether the first link, the segments and the way on cost so much in all, by the rows.
fn adds_up_to(net: &Net, certificate: &Certificate, whole: u64) -> bool
    requires within { IsWithinNet net.now certificate.now }
    requires ways { (x : List Bool) × KeepsToWays net.now x certificate.now }
    requires near { whole < FAR }
    ensures { IsTrue result ↔ CostInAll net.now certificate.now whole }
{
    let rows = certificate.rows.as_slice();
    let first = net.graph().edge(certificate.first);
    let mut at = first.to;
    let mut place = 1;
    let mut total = first.metric as u64;
    for segment in certificate.segments.as_slice() {
        total += cost_over(net, rows, place, at, *segment);
        // So the total stays small, however many segments there are.
        if total > whole {
            return false;
        }
        place += row_count(*segment);
        at = led_to(net, *segment);
    }
    total + cost_over(net, rows, place, at, Segment::Node(certificate.dest)) == whole
}

/// The cell of the destination in the first row.
pub(crate) fn whole_cell(certificate: &Certificate) -> u64
    requires net { (n : Labelled) × IsWithinNet n certificate.now × HasRows n certificate.now }
    ensures { result ≡ whole_cell certificate.now }
{
    certificate.rows.as_slice()[0].as_slice()[certificate.dest.0 as usize]
}

/// Whether the first link, the segments and the way on add up to the cell of the destination in the first row, and that
/// is a distance.
pub(crate) fn adds_up(net: &Net, certificate: &Certificate) -> bool
    requires within { IsWithinNet net.now certificate.now }
    requires ways { (x : List Bool) × KeepsToWays net.now x certificate.now }
    ensures { IsTrue result
        ↔ ((whole_cell certificate.now < FAR) × CostInAll net.now certificate.now (whole_cell certificate.now)) }
{
    let whole = whole_cell(certificate);
    whole < FAR && adds_up_to(net, certificate, whole)
}
