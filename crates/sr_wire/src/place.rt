//! Places in a run of TLVs.

use thiserror::Error;

/// The place of a value in a run of octets: from octet `from` to before octet `to`, behind its type and its length.
#[derive(Clone, Copy, Debug, PartialEq, Eq)]
pub struct Frame {
    pub kind: u8,
    pub from: usize,
    pub to: usize,
}

/// A TLV whose type and length, or whose value, pass the end of what holds it. The offset is that of its type.
#[derive(Clone, Copy, Debug, PartialEq, Eq, Error)]
#[error("the TLV at octet {offset} passes the end")]
pub struct Overrun {
    pub offset: usize,
}
