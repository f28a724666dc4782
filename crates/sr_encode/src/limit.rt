//! Which lists a source lets through.
ghost use Rattle.std.specs.Prelude.{◌≡◌, ◌<◌, ◌↔◌, IsTrue};
ghost use Rattle.sr_model.specs.Graph.{node_count};
ghost use Rattle.sr_encode.specs.Limited.{limit_at, AreLetThrough, IsLetThrough};

use crate::kept::Outcome;
use sr_labels::Net;
use sr_model::NodeNo;

/// The limit at the node, in segments: a list that has fewer is let through (RFC 8491, 5; this project's rule).
pub(crate) fn limit_at(net: &Net, node: NodeNo) -> u16
    requires { node.0 < node_count net.now.graph }
    ensures { result ≡ limit_at net.now node.0 }
{
    match net.labels(node).imposes() {
        Some(most) => most as u16,
        None => net.depth() as u16 + 1,
    }
}

/// Whether the outcome is no list, or one that is let through.
fn is_let_through(outcome: Outcome, limit: u16) -> bool
    ensures { IsTrue result ↔ IsLetThrough limit outcome }
{
    match outcome {
        Outcome::NoPath => true,
        Outcome::NoList => true,
        Outcome::Least { begin, end, .. } => (end as u64) < begin as u64 + limit as u64,
    }
}

/// Whether so is each outcome.
pub(crate) fn are_let_through(outcomes: &[Outcome], limit: u16) -> bool
    ensures { IsTrue result ↔ AreLetThrough limit outcomes.now }
{
    for place in 0..outcomes.len() {
        if !is_let_through(outcomes[place], limit) {
            return false;
        }
    }
    true
}
