//! The program's session, and its top call.
#![tactic(auto)]

mod account;
mod adjacencies;
mod audits;
mod background;
mod certificates;
mod commit;
mod differences;
mod distances;
mod edits;
mod failures;
mod forwarding;
mod insight;
mod kept;
mod laws;
mod lines;
mod loaded;
mod names;
mod program;
mod questions;
mod reasons;
mod repaired;
mod rules;
mod session;
mod stop;
mod tries;
mod version;

pub use program::{Ended, tilfa};
