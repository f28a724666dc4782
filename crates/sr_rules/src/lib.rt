//! All rules of the profile that the facts of a domain break, each with the least that breaks it.
#![tactic(auto)]

mod adjacencies;
mod indices;
mod laws;
mod links;
mod rules;
mod srgbs;
mod survey;

pub use laws::{broken_rules_are_determined, the_first_is_refused};
pub use rules::broken_rules;
