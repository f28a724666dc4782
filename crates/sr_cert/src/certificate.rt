//! A repair with the distances that show what it is worth.
use sr_model::{Case, LinkNo, NodeNo, Segment};
use sr_seq::Seq;

/// A repair of a case for a destination, with its labels and the rows of distances from which it is tested.
#[derive(Debug, Drop)]
pub struct Certificate {
    /// What fails, and the protected link.
    pub case: Case,
    /// The destination.
    pub dest: NodeNo,
    /// The link on which the packet leaves.
    pub first: LinkNo,
    /// The segments from the end of that link on.
    pub segments: Seq<Segment>,
    /// The distances from the source without the failed links; then, no link having failed, those from the waypoint and to
    /// the node of each node segment; and last those from the last waypoint and to the destination. A cell for each node,
    /// `FAR` where there is no walk.
    pub rows: Seq<Seq<u64>>,
    /// The labels on the first link, the top last.
    pub labels: Seq<u32>,
}
