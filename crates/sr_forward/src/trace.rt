//! Where a packet's walk ended.
use sr_model::{LinkNo, NodeNo};

/// The node that a packet reached, by which links, and with what on its stack.
#[derive(Debug, Drop)]
pub struct Walk {
    /// The links that it crossed, in order.
    pub links: Vec<LinkNo>,
    /// The node where it is.
    pub end: NodeNo,
    /// What is left of its stack, the top last.
    pub rest: Vec<u32>,
}
