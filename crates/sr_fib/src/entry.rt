//! What a label does at a node.

use crate::hops::Hops;
use sr_model::{LinkNo, NodeNo};

/// What a label does at a node.
#[derive(Drop)]
pub enum FibEntry<'a> {
    /// It is the node's own: it is popped.
    Own,
    /// It is explicit null: it is popped.
    Null,
    /// It is that of an adjacency: it is popped, and the link is crossed.
    Adj(LinkNo),
    /// It is that of another node, towards which one of these links is crossed. They ascend, each with what becomes of the
    /// label.
    Node(NodeNo, Hops<'a>),
}
