//! Spaces where links fail: the nodes to which no shortest walk holds a failed link (P), with what the neighbours add
//! (extended P), and the nodes from which none does (Q).
#![tactic(auto)]

mod among;
mod extended;
mod node_set;
mod p_space;
mod q_space;
mod space;
mod spaces;

pub use extended::extended_p;
pub use node_set::NodeSet;
pub use p_space::p_row;
pub use q_space::q_set;
pub use spaces::Spaces;
