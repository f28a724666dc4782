//! The lines that a session answers, each appended with its line feed. A call fails only out of memory: then a
//! part of its line may stand there, and what stood before stays.
#![tactic(auto)]

mod account;
mod address;
mod adjacency;
mod answers;
mod aside;
mod audit;
mod certificate;
mod difference;
mod flags;
mod forwarding;
mod insight;
mod line;
mod link;
mod load;
mod names;
mod number;
mod refusal;
mod refused;
mod repair;
mod spaces;
mod walk;
mod way;
mod why;
mod work;

pub use account::{put_links, put_nodes};
pub use adjacency::{put_adjbackup, put_adjrepair};
pub use answers::put_answers;
pub use aside::{put_aside_count, put_asides};
pub use audit::put_summary;
pub use certificate::{put_certificate, put_proof, put_unproved, put_verdict};
pub use difference::put_diff;
pub use forwarding::{put_label, put_next};
pub use insight::{put_coverage, put_repair_counts, put_stacks};
pub use line::{put_dist, put_dropped, put_show, put_staged, put_version};
pub use load::put_loads;
pub use names::Names;
pub use refusal::Refusal;
pub use refused::{put_check, put_refused};
pub use repair::{put_repair, put_walk_uncovered};
pub use spaces::put_spaces;
pub use walk::put_walk;
pub use why::put_reason;
pub use work::{put_hold, put_joined, put_report, put_watch};
