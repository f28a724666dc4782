//! The words after the program's name: the task that they ask for.
#![tactic(auto)]

mod laws;
mod making;
mod task;

pub use laws::words_ask_for_one_task;
pub use task::{AskedTask, task_of};
