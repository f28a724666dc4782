//! Tests by calls: graphs, labels, searches, and repairs. It holds no code but tests.
#![tactic(auto)]

#[cfg(test)]
mod tests;
