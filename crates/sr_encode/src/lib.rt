//! The least sound lists of a case: a search in the order of lists, which meets each waypoint first by its least list, and
//! the answers of the case from them, once its source has let them through.
#![tactic(auto)]

mod answers;
mod case_lists;
mod codes;
mod collected;
mod kept;
mod limit;
mod met;
mod renumbered;
mod repairs;
mod scene;
mod search;
mod served;
mod waypoint;

pub use answers::{CaseAnswers, NodeAnswer};
pub use case_lists::CaseLists;
pub use codes::Codes;
pub use renumbered::Renumbering;
pub use repairs::lists;
pub use sr_model::{Answer, RepairList, Segment, Segments};
