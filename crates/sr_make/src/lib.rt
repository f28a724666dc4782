//! A large script made from two numbers: how many nodes its net has, and where its draws start.
#![tactic(auto)]

mod draws;
mod laws;
mod making;
mod node;
mod pairs;
mod script;

pub use laws::{chords_begin_with_six_nodes, each_made_pair_joins, each_made_pdu_fits};
pub use making::{FEWEST_NODES, MOST_MADE_NODES, make};
