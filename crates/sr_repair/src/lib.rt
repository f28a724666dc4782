//! Versions: a net with all that is computed of it.
#![tactic(auto)]

mod answers;
mod cases;
mod computed;
mod former;
mod known_case;
mod laws;
mod made;
mod passes;
mod row;
mod setting;
mod solved;
mod stack;
mod version;

pub use cases::{case_at, case_count};
pub use laws::repairs_deliver;
pub use stack::{label_left, labels_of, node_label, segment_end, segment_label};
pub use version::Version;
