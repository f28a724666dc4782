//! The account of a domain's facts: what of them its net uses, and what is set aside, and why.
#![tactic(auto)]

mod aside;
mod asides;
mod capabilities;
mod choice;
mod entries;
mod laws;
mod parts;
mod prefixes;
mod risks;
mod sources;
mod survey;

pub use aside::{Aside, Matter, Place, Reason};
pub use asides::{Account, aside_count, asides_of};
pub use laws::{accounts_are_determined, are_in_order, nothing_is_lost};
pub use sources::{LinkSource, sources_of};
