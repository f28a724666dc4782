//! Forwarding: one step of a packet at a node, and its walk.
#![tactic(auto)]

mod hops;
mod moves;
mod trace;
mod walks;

pub use moves::step;
pub use sr_model::Move as Moved;
pub use trace::Walk;
pub use walks::walk;
