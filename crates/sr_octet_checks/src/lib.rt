//! Tests by calls of the crates that make facts, nets and accounts of octets.
#![tactic(auto)]

#[cfg(test)]
mod tests;
