//! The answer for an active adjacency segment.
use sr_model::{Answer, RepairList};
use sr_seq::Seq;

/// What the router at the beginning of a link does with a packet under the link's adjacency label when the link fails.
#[derive(Debug, Drop)]
pub enum AdjAnswer<'a> {
    /// Nothing: the label isn't eligible for protection.
    Unprotected,
    /// Nothing: the link's end has no node index, so no label leads there.
    NoIndex,
    /// It puts this label in the place of the adjacency label and forwards the packet as ever: no shortest walk to the
    /// link's end begins with the link. The cost is the distance to that end.
    Steer {
        label: u32,
        cost: u64,
    },
    /// It sends the packet over the first link of this repair, with these labels, the top last, in the place of the
    /// adjacency label.
    Repair {
        list: RepairList<'a>,
        labels: Seq<u32>,
    },
    /// Nothing: the repair of the link's failure towards its end isn't a list.
    Uncovered(Answer<'a>),
}

/// The label of a link with the flag B, where the net took one without it, and what is done with a packet under it.
#[derive(Debug, Drop)]
pub struct BackupLabel<'a> {
    pub label: u32,
    pub answer: AdjAnswer<'a>,
}
