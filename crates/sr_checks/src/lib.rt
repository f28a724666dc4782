//! Whole runs of the program, over the sources and sinks in memory.
#![tactic(auto)]

#[cfg(test)]
mod tests;
