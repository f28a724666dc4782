//! What differs between the repairs of two versions, by names.
#![tactic(auto)]

mod alike;
mod changes;
mod copied;
mod differences;
mod diffs;
mod laws;
mod lost;
mod purpose;
mod there;

pub use differences::{Changed, Diff};
pub use diffs::diff;
pub use laws::{a_net_is_its_own, diffs_add_up, diffs_are_determined};
