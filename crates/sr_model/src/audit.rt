//! The list of all repairs of a net, and its counts.
use crate::case::Case;
use crate::link::NodeNo;
use crate::repair::Answer;
use sr_seq::Seq;

/// One line of an audit: the case, the destination, the answer, and the labels that go on the packet on the first link,
/// none where the answer isn't a list.
#[derive(Debug, Drop)]
pub struct Item<'a> {
    pub case: Case,
    pub dest: NodeNo,
    pub answer: Answer<'a>,
    /// The top of the stack last.
    pub labels: Seq<u32>,
}

/// How many answers of an audit are of each sort.
#[derive(Clone, Copy, Debug, PartialEq, Eq)]
pub struct Counts {
    pub covered: u32,
    pub nopath: u32,
    pub nolist: u32,
    pub toodeep: u32,
}

/// A round of a watch: which watcher made it, and which of its rounds it is, both from 1.
#[derive(Clone, Copy, Debug, PartialEq, Eq)]
pub struct WatchRound {
    pub watcher: u32,
    pub round: u32,
}

/// What background work reports of one round: whose round of a watch it was, or None of a hold; the version that was
/// audited; and how many answers of each sort its audit has.
#[derive(Clone, Copy, Debug, PartialEq, Eq)]
pub struct RoundReport {
    pub round: Option<WatchRound>,
    pub version: u32,
    pub counts: Counts,
}
