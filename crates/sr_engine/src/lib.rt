//! What the run of a script is made of: a reader of its lines, a writer that gathers the answers, and the ways in which
//! a run ends. It calls no session: the loop that does stands with the session.
#![tactic(auto)]

mod answers;
mod end;
mod laws;
mod output;
mod script;

pub use answers::Answers;
pub use end::End;
pub use laws::lines_are_determined;
pub use output::write_all;
pub use script::{Fill, LONGEST_LINE, Script, read_on};
