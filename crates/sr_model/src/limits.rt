//! Limits that crates of several layers cite (this project's rules).

/// The greatest depth: how many segments a repair list may have at most.
pub const MOST_DEPTH: u8 = 12;

/// The greatest number of a version: that of the last commit that is accepted.
pub const MOST_VERSION: u32 = 65_535;

/// The most watchers of a watch.
pub const MOST_WATCHERS: u32 = 8;

/// The most rounds of a watcher.
pub const MOST_ROUNDS: u32 = 16;
