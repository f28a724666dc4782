//! The lines of an audit: those of one case at a time, each destination that it affects in order, with the answer and its
//! labels.
#![tactic(auto)]

mod lines;
mod wanted;

pub use lines::put_case;
pub use wanted::{Wanted, put_wanted};
