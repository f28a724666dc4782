//! A packet whose crossings are counted, and the nodes between which packets go.
use sr_model::NodeNo;

/// A packet: it starts at one node under the label of another, and takes its choice number at each node.
#[derive(Clone, Copy, Debug, PartialEq, Eq)]
pub struct Packet {
    /// The node at which it starts.
    pub from: NodeNo,
    /// The node to which it goes.
    pub to: NodeNo,
    /// The choice number, counted from 0.
    pub choice: u32,
}

/// A pair of nodes between which packets go, from the one to the other: one for each choice number.
#[derive(Clone, Copy, Debug, PartialEq, Eq)]
pub(crate) struct Pair {
    /// The node at which they start.
    pub(crate) from: NodeNo,
    /// The node to which they go.
    pub(crate) to: NodeNo,
}
