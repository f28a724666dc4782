//! The graph of a domain: nodes in order of system id, directed links in order of key, and how it is built and read.
#![tactic(auto)]

mod copied;
mod draft;
mod edges;
mod failed;
mod fault;
mod graph;
mod incoming;
mod link_bits;
mod link_set;
mod mark;
mod numbers;
mod order;
mod ranges;
mod same;
mod sharing;

pub use draft::{Draft, DraftLink};
pub use edges::Edge;
pub use fault::GraphFault;
pub use graph::Graph;
pub use link_set::LinkSet;
pub use ranges::LinkRange;
pub use sr_model::{Case, Kind};
