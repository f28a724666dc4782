//! The labels of a certificate.
ghost use Rattle.std.specs.Prelude.{◌≡◌, Bool, List, ◌<◌, ◌↔◌, ◌++◌, ◌∷◌, [], true, is_some, reverse, IsTrue};
ghost use Rattle.sr_model.specs.Graph.{node_count};
ghost use Rattle.sr_model.specs.Label.{labels_at};
ghost use Rattle.sr_model.specs.Forward.{Crossing, IsLabels, IsStack};
ghost use Rattle.sr_repair.specs.Stack.{HaveLabels};
ghost use Rattle.sr_cert.specs.Clauses.{IsWellFormed};
ghost use Rattle.sr_cert.specs.Verdict.{IsWithinNet};
ghost use Rattle.sr_cert.specs.Walked.{last_segment};

use crate::certificate::Certificate;
use sr_labels::Net;
use sr_model::{NodeNo, Segment};
use sr_repair::{label_left, node_label, segment_end, segment_label};

/// Whether the labels, the top last, are what crossing a link into the node under d's node segment leaves.
fn is_left(net: &Net, at: NodeNo, d: NodeNo, labels: &[u32]) -> bool
    requires at { at.0 < node_count net.now.graph }
    requires d { d.0 < node_count net.now.graph }
    requires index { is_some (labels_at net.now d.0).index ≡ true }
    ensures { IsTrue result ↔ Crossing net.now d.0 at.0 [] (reverse labels.now) }
{
    match label_left(net, at, d) {
        None => labels.is_empty(),
        Some(label) => labels.len() == 1 && labels[0] == label,
    }
}

/// Whether the labels, the top last, are those of the segments from the waypoint on and of d's node segment.
fn are_labels(net: &Net, begin: NodeNo, segments: &[Segment], d: NodeNo, labels: &[u32]) -> bool
    requires begin { begin.0 < node_count net.now.graph }
    requires segments { HaveLabels net.now segments.now }
    requires d { d.0 < node_count net.now.graph }
    requires index { is_some (labels_at net.now d.0).index ≡ true }
    ensures { IsTrue result ↔ IsLabels net.now begin.0 (segments.now ++ last_segment d ∷ []) (reverse labels.now) }
{
    if labels.len() != segments.len() + 1 {
        return false;
    }
    let mut at = begin;
    let mut place = labels.len();
    for segment in segments {
        place -= 1;
        if labels[place] != segment_label(net, at, *segment) {
            return false;
        }
        at = segment_end(net, *segment);
    }
    labels[0] == node_label(net, at, d)
}

/// Whether the labels are those of the segments and the destination.
pub(crate) fn has_labels(net: &Net, certificate: &Certificate) -> bool
    requires within { IsWithinNet net.now certificate.now }
    requires form { (x : List Bool) × IsWellFormed net.now x certificate.now }
    ensures { IsTrue result
        ↔ IsStack net.now certificate.now.dest.0 certificate.now.first.0 certificate.now.segments
        (reverse certificate.now.labels) }
{
    let at = net.graph().edge(certificate.first).to;
    let segments = certificate.segments.as_slice();
    let labels = certificate.labels.as_slice();
    if segments.is_empty() {
        return is_left(net, at, certificate.dest, labels);
    }
    are_labels(net, at, segments, certificate.dest, labels)
}
