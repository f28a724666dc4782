//! Lists that contracts see as lists: `Seq` for any, and `Few` for those that mostly have one value.
#![tactic(auto)]

mod few;
mod seq;

pub use few::Few;
pub use seq::Seq;
