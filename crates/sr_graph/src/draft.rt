//! What a graph is built from.
use sr_model::{LinkKey, SystemId};
use sr_seq::Seq;

/// A directed link as it is handed in: its name, its metric and its shared-risk groups.
#[derive(Debug, Drop)]
pub struct DraftLink {
    /// Its name.
    pub key: LinkKey,
    /// Its metric, below 16,777,215 (RFC 5305, 3). A link of metric 0 is refused.
    pub metric: u32,
    /// Its shared-risk link groups (RFC 5307, 1.4), ascending, the same for both links of a pair.
    pub groups: Seq<u32>,
}

/// The nodes and links of a graph that is to be built. A node's number is its place among the ascending system ids; a
/// link is named by its key.
#[derive(Debug, Drop)]
pub struct Draft {
    /// The nodes, ascending.
    pub nodes: Seq<SystemId>,
    /// The links between them, in any order.
    pub links: Seq<DraftLink>,
}
