//! The model of a segment-routing domain: the types that all layers speak of, and in `specs/` what their answers mean.
#![tactic(auto)]

mod audit;
mod case;
mod entry;
mod label;
mod limits;
mod link;
mod name;
mod repair;
mod rule;
mod text;

pub use audit::{Counts, Item, RoundReport, WatchRound};
pub use case::{Case, Kind};
pub use entry::{Entry, Move, Out};
pub use label::{AdjLabel, LabelRule, Range};
pub use limits::{MOST_DEPTH, MOST_ROUNDS, MOST_VERSION, MOST_WATCHERS};
pub use link::{FAR, Link, LinkNo, MOST_LINKS, MOST_METRIC, MOST_NODES, NodeNo};
pub use name::{Ident, LinkKey, PairKey, SystemId};
pub use repair::{Answer, RepairList, Segment, Segments};
pub use rule::DomainRule;
