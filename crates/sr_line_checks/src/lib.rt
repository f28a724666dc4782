//! Tests of the parts of the program that carry lines, print answers and run work in the background.
#![tactic(auto)]

#[cfg(test)]
mod tests;
