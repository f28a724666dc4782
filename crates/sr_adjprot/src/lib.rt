//! Active adjacency segments: which adjacency labels may be protected, and what the router at the beginning of a link does
//! with a packet under the link's adjacency label when the link fails.
#![tactic(auto)]

mod answer;
mod laws;
mod marks;
mod protected;
mod replaced;
mod second;

pub use answer::{AdjAnswer, BackupLabel};
pub use laws::{adj_answers_are_determined, adj_answers_deliver};
pub use marks::eligible;
pub use replaced::adj_repair;
pub use second::backup;
