//! Labels of a segment-routing domain: the SRGB of a node and what it announces, the rules on the labels of all nodes
//! together, and a net, which is a graph with labels that break none.
#![tactic(auto)]

mod adjacencies;
mod indices;
mod keys;
mod net;
mod node;
mod rules;
mod same;
mod srgb;

pub use adjacencies::{is_repeated, sort_labels};
pub use net::Net;
pub use node::NodeLabels;
pub use rules::first_clash;
pub use sr_model::{AdjLabel, LabelRule, Range};
pub use srgb::{FIRST_FREE, Srgb, SrgbBad};
