//! A link-state PDU as a value.

use crate::parts::Parts;
use sr_model::SystemId;

/// The name of a link-state PDU: its system, and the pseudonode and the fragment that it is of (ISO 10589, 9.9).
#[derive(Clone, Copy, Debug, PartialEq, Eq, PartialOrd, Ord)]
pub struct LspId {
    pub system: SystemId,
    pub pseudonode: u8,
    pub fragment: u8,
}

/// A link-state PDU: what its header says, and its parts in order of place. The lifetime is in seconds.
#[derive(Debug, Drop)]
pub struct Lsp {
    pub lifetime: u16,
    pub id: LspId,
    pub sequence: u32,
    pub checksum: u16,
    pub flags: u8,
    pub parts: Parts,
}
