//! Why a case has no repair for a destination: what is still reached, the list that lacks an index or a label, or the
//! list that is too deep.
#![tactic(auto)]

mod keys;
mod labelled;
mod laws;
mod listed;
mod reached;
mod reason;
mod whole;

pub use laws::reasons_are_determined;
pub use reason::{Cause, why};
pub use whole::WholeList;
