//! Labels and the rules on them.

/// A range of labels that a node announces in its SRGB (RFC 8667, 3.1): the first label, and how many there are.
#[derive(Clone, Copy, Debug, PartialEq, Eq)]
pub struct Range {
    pub first: u32,
    pub size: u32,
}

/// The label of an adjacency segment (RFC 8667, 2.2), with the place of the node at which its link begins.
#[derive(Clone, Copy, Debug, PartialEq, Eq)]
pub struct AdjLabel {
    pub node: usize,
    pub label: u32,
}

/// A rule on labels that is broken, with the least that breaks it. Nodes are places in the list of nodes.
#[derive(Clone, Copy, Debug, PartialEq, Eq)]
pub enum LabelRule {
    /// Two nodes announce the index.
    DuplicateIndex { index: u32, low: usize, high: usize },
    /// Some node announces the index, and it lies outside the ranges of this node.
    IndexOutside { index: u32, node: usize },
    /// The adjacency label of a link of the node is reserved, in the node's ranges, or that of two of its links.
    AdjLabelClash { label: u32, node: usize },
}
