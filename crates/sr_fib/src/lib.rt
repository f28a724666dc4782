//! The label tables of all nodes: what each label does at each node (RFC 8660, 2.10 and 2.11).
#![tactic(auto)]

mod entry;
mod fib;
mod hops;
mod listed;
mod sids;
mod sorted;

pub use entry::FibEntry;
pub use fib::Fib;
pub use hops::Hops;
pub use sids::Sids;
pub use sr_model::Out;
