//! The link-state database and the rest of the facts of a domain, and the edits that are staged and accepted.
#![tactic(auto)]

mod announcement;
mod editor;
mod facts;
mod laws;
mod limits;
mod same;
mod shared;
mod sides;
mod stage_fault;
mod tables;
mod touched;

pub use announcement::{Announcement, adj_sid_label, announced_by, least_label};
pub use editor::Editor;
pub use facts::{Facts, Stored};
pub use laws::{edits_keep_the_range, ids_are_ordered, pairs_are_ordered};
pub use limits::MOST_STAGED;
pub use shared::SharedLsp;
pub use stage_fault::StageFault;
pub use tables::{Database, DownPairs, LinkCosts};
