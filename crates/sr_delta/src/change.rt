//! A changed link.

use sr_model::{LinkKey, NodeNo};

/// A changed link: its key, the nodes at its ends, which have the same numbers in both nets, and its metric in the old
/// and in the new net, where it is a link there.
#[derive(Clone, Copy, Debug, PartialEq, Eq)]
pub struct Change {
    pub key: LinkKey,
    pub from: NodeNo,
    pub to: NodeNo,
    pub before: Option<u32>,
    pub after: Option<u32>,
}
