//! Why no graph is built.
use sr_model::SystemId;
use std::alloc::AllocError;

/// Why a draft gives no graph. The first that holds is named, in this order.
#[derive(Debug, Drop)]
pub enum GraphFault {
    /// A link of metric 0, the one with the least ends.
    ZeroMetric { from: SystemId, to: SystemId },
    /// Two links of one key, those with the least ends.
    DuplicateLink { from: SystemId, to: SystemId },
    /// More than 256 nodes.
    TooManyNodes { count: u64 },
    /// More than 2,048 directed links.
    TooManyLinks { count: u64 },
    /// Out of memory.
    Memory(AllocError),
}
