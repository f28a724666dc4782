//! What is known of a case that affects some destination.
ghost use Rattle.std.specs.Prelude.{◌≡◌, None};

use crate::solved::Solved;
use sr_lanes::NodeBits;
use std::sync::Arc;

/// What is known of a case that affects some destination: what was computed for it, which versions share, and, once they
/// were asked for, the nodes on the shortest walks without the failed links to these destinations.
#[derive(Drop)]
pub(crate) struct KnownCase {
    pub(crate) solved: Arc<Solved>,
    pub(crate) walks: Option<NodeBits>,
}

impl KnownCase {
    /// What was just computed for a case, of which nobody has asked for the walks.
    pub(crate) fn new(solved: Arc<Solved>) -> KnownCase
        ensures { result ≡ record { solved = solved; walks = None } }
    {
        KnownCase {
            solved,
            walks: None,
        }
    }
}
