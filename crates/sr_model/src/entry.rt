//! What a node does with a packet, by the label on top of its stack.
use crate::link::{LinkNo, NodeNo};
use sr_seq::Seq;

/// One step of a packet: the label on top was popped, or a link was crossed.
#[derive(Clone, Copy, Debug, PartialEq, Eq)]
pub enum Move {
    Popped,
    Crossed(LinkNo),
}

/// What becomes of the label on top when a link is crossed (RFC 8660, 2.10 and 2.11).
#[derive(Clone, Copy, Debug, PartialEq, Eq)]
pub enum Out {
    /// It is popped.
    Pop,
    /// It becomes explicit null.
    Null,
    /// It becomes this label.
    Swap(u32),
}

/// What a label does at a node.
#[derive(Debug, Drop)]
pub enum Entry {
    /// It is the node's own: it is popped.
    Own,
    /// It is explicit null: it is popped.
    Null,
    /// It is that of an adjacency: it is popped, and the link is crossed.
    Adj(LinkNo),
    /// It is that of another node, towards which one of these links is crossed. They are ascending, each with what becomes
    /// of the label.
    Node(NodeNo, Seq<(LinkNo, Out)>),
}
