//! Sets of nodes in four words, and passes over rows of distances, eight cells at a time.
#![tactic(auto)]

mod bits;
mod equal;
mod limits;
mod marks;
mod passes;
mod place_test;
mod row_tests;
mod tight_rows;
mod words;

pub use equal::rows_equal;
pub use limits::{CELL_AT_MOST, NODES_AT_MOST};
pub use marks::tight_mask;
pub use passes::{differ, finite, finite_among, tight, tight_among};
pub use words::NodeBits;
