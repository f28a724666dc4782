//! What calls answer about small graphs, and what is counted there.

mod adjacencies;
mod audits;
mod bypass;
mod certificates;
mod changes;
mod distances;
mod drawn;
mod fixtures;
mod graphs;
mod groups;
mod labels;
mod lanes;
mod loads;
mod renumbered;
mod same;
mod shares;
mod spaces;
mod walks;
