//! What is told of an audit as a whole: its items in groups, how much of each is covered, and how many labels repairs push.
#![tactic(auto)]

mod group;
mod grouping;
mod stack_count;

pub use group::Group;
pub use grouping::Grouping;
pub use stack_count::StackCount;
