//! The rules that the facts of a domain keep.

use crate::name::SystemId;

/// A rule of the profile that facts break, with the least that breaks it. Rules are in this order (this project's rule).
#[derive(Clone, Copy, Debug, PartialEq, Eq)]
pub enum DomainRule {
    /// A present node announces no SR-Capabilities: the least such node.
    NoSrgb {
        node: SystemId,
    },
    /// The label ranges of a node are no SRGB: the least such node.
    SrgbBad {
        node: SystemId,
    },
    /// Two nodes announce the index: the least such index, and the two least nodes that announce it.
    DuplicateIndex {
        index: u32,
        low: SystemId,
        high: SystemId,
    },
    /// A node announces the index, and it lies outside the ranges of this node: the least such index, and its least
    /// node.
    IndexOutside {
        index: u32,
        node: SystemId,
    },
    /// An adjacency label of the node is below 16, in its ranges, or that of two of its links: the least such node, and
    /// its least such label.
    AdjLabelClash {
        label: u32,
        node: SystemId,
    },
    /// A link has the metric 0: the least ends of such a link.
    ZeroMetric {
        from: SystemId,
        to: SystemId,
    },
    /// Two links have one key: the least ends of such links.
    DuplicateLink {
        from: SystemId,
        to: SystemId,
    },
    /// More than 256 nodes.
    TooManyNodes {
        count: u64,
    },
    /// More than 2,048 links.
    TooManyLinks {
        count: u64,
    },
}
