//! The limits of this project on what is staged: code, contracts and definitions cite them.

/// The most edits that are staged at a time (this project's rule).
pub const MOST_STAGED: u32 = 4096;
