//! The audit of a version: the answers of all its cases with their labels, in order, and how many are of each sort.
#![tactic(auto)]

mod audits;
mod counting;
mod report;

pub use audits::audit;
pub use counting::{counts, counts_at, counts_sum, no_counts};
pub use report::Report;
pub use sr_model::{Counts, Item};
