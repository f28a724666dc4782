//! What is made of each number below a count, in threads that take numbers until none is left.
#![tactic(auto)]

mod taking;

pub use taking::{Share, made_of_each};
