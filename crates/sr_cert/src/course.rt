//! What a row of distances is of.
ghost use Rattle.std.specs.Prelude.{◌≡◌};
ghost use Rattle.sr_cert.specs.Settled.{heading_of, base};

use sr_model::NodeNo;

/// What a row of distances is of: the distances from a node, or those to it.
#[derive(Clone, Copy, Debug, PartialEq, Eq)]
pub(crate) enum Course {
    /// From the node to each node.
    From(NodeNo),
    /// From each node to the node.
    To(NodeNo),
}

impl Course {
    /// The node that the row is of.
    pub(crate) fn node(self) -> NodeNo
        ensures { result.0 ≡ base (heading_of self) }
    {
        match self {
            Course::From(node) | Course::To(node) => node,
        }
    }
}
