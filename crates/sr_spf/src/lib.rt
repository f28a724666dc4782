//! Distances: from one node in a graph without some of its links, and from each node in the whole graph, with the next
//! hops.
#![tactic(auto)]

mod begun;
mod carried;
mod dijkstra;
mod hops;
mod lost;
mod renewed;
mod rows;
mod shared;
mod steps;
mod trees;

pub use begun::{least_way, row_after};
pub use carried::ends_behind;
pub use dijkstra::row;
pub use lost::{all_listed, cells_without};
pub use renewed::{Renewal, are_in_place};
pub use steps::{Searched, Steps};
pub use trees::Trees;
