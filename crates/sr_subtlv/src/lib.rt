//! The sub-TLVs of a segment-routing domain: a module for each kind, with its file in `specs/` and its laws in `proofs/`.
#![tactic(auto)]

mod addr;
mod adj_sid;
mod link_ids;
mod msd;
mod prefix_sid;
mod sid;
mod sr_cap;

pub use addr::{NeighbourAddr, OwnAddr, addr_is_read_again};
pub use adj_sid::{AdjSid, adj_sid_is_read_again};
pub use link_ids::{LinkIds, ids_are_read_again};
pub use msd::{Msd, msds_are_read_again};
pub use prefix_sid::{PrefixSid, prefix_sid_is_read_again};
pub use sid::Sid;
pub use sr_cap::{SrCap, sr_cap_is_read_again};
