//! What stays from an old net to a new one: the links that differ, matched by key, the nodes that announce the same, and
//! whether a tree or a case stays.
#![tactic(auto)]

mod after;
mod alike;
mod cases;
mod change;
mod changed;
mod compared;
mod differences;
mod early;
mod ends;
mod grouped;
mod kept;
mod lost;
mod moved;
mod near;
mod nodes;
mod old_case;
mod pairs;
mod partners;
mod risks;
mod staying;
mod stays;
mod steady;
mod ways;

pub use cases::case_stays;
pub use change::Change;
pub use compared::changes;
pub use differences::Changes;
pub use early::may_stay;
pub use kept::kept_trees;
pub use lost::renewal;
pub use moved::moved_distances;
pub use old_case::OldCase;
pub use staying::Staying;
pub use stays::tree_stays;
pub use steady::is_steady;
