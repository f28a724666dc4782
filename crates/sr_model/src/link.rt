//! Nodes and links by number.

use crate::name::LinkKey;

/// A node of a graph, counted from 0 in order of system id.
#[derive(Clone, Copy, Debug, PartialEq, Eq, PartialOrd, Ord)]
pub struct NodeNo(pub u16);

/// A directed link of a graph, counted from 0 in order of its key.
#[derive(Clone, Copy, Debug, PartialEq, Eq, PartialOrd, Ord)]
pub struct LinkNo(pub u16);

/// A directed link: its name, the nodes at its ends, and its metric.
#[derive(Clone, Copy, Debug, PartialEq, Eq)]
pub struct Link {
    pub key: LinkKey,
    pub from: NodeNo,
    pub to: NodeNo,
    pub metric: u32,
}

/// The most nodes that a graph has (this project's rule).
pub const MOST_NODES: usize = 256;

/// The most directed links that a graph has (this project's rule).
pub const MOST_LINKS: usize = 2048;

/// The greatest metric of a link in use (RFC 5305, 3: a link with the metric 2^24 - 1 isn't used).
pub const MOST_METRIC: u32 = 16_777_214;

/// The distance of a node that no walk reaches. It is above every distance that a walk can have.
pub const FAR: u64 = 1 << 62;
