//! What a failure leaves: which destinations it affects, the distances from the source without the failed links, the next
//! hops that still lead to a node, and, where they are asked for, the nodes on the shortest walks to the affected
//! destinations.
#![tactic(auto)]

mod bypass;
mod destinations;
mod failure;
mod kept;
mod left;
mod marks;
mod spaces;

pub use bypass::post_of_link;
pub use destinations::{affected, affected_set};
pub use failure::post;
pub use kept::HopNodes;
pub use left::Post;
pub use marks::{tails, walks};
pub use spaces::{pivot_of, spaces_of};
