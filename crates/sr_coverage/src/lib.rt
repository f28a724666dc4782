//! The audit of a version in groups, and how many labels its repairs push.
#![tactic(auto)]

mod grouped;
mod groups;
mod laws;
mod pushed;
mod stacks;

pub use grouped::coverage;
pub use laws::{groups_add_up, groups_are_determined, stack_counts_add_up};
pub use stacks::stack_counts;
