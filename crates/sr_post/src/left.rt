//! What is left after a failure, as it is read.
ghost use Rattle.std.specs.Prelude.{◌≡◌, ◌<◌, List, Bool, length, slice_index};
ghost use Rattle.sr_model.specs.declared.case.Case.{Case as Failure};
ghost use Rattle.sr_model.specs.Label.{Net as Labelled};
ghost use Rattle.sr_model.specs.Walk.{Distance};
ghost use Rattle.sr_model.specs.Case.{IsFailedSet, source_of};
ghost use Rattle.sr_spf.specs.Trees.{distance_of};
ghost use Rattle.sr_post.specs.Kept.{AreKeptHops};
ghost use Rattle.sr_post.specs.Post.{IsPost};

use crate::kept::HopNodes;
use sr_graph::LinkSet;
use sr_model::{FAR, NodeNo};
use sr_seq::Seq;
use std::marker::Model;

/// What is left after the failure of a case: the failed links, the distances from the source without them, and the next
/// hops that still lead on.
#[derive(Debug, Drop)]
pub struct Post {
    failed: LinkSet,
    /// The distance from the source to each node, by number; `FAR` where there is no walk.
    row: Seq<u64>,
    /// The hops that are kept towards nodes that lose a next hop.
    kept: Vec<HopNodes>,
}

impl Model for Post {
    ghost use Rattle.sr_post.specs.Post.{Remains};

    ghost Value = { Remains };

    ghost view = { λ a. record { failed = a.failed; cells = a.row; kept = a.kept.items } };
}

impl Post {
    /// What is left, of these parts.
    pub(crate) fn new(failed: LinkSet, row: Seq<u64>, kept: Vec<HopNodes>) -> Post
        ensures { result ≡ record { failed = failed; cells = row; kept = kept.items } }
    {
        Post { failed, row, kept }
    }

    /// The failed links.
    pub fn failed(&self) -> &LinkSet
        ensures { result.now ≡ self.now.failed }
    {
        &self.failed
    }

    /// The distance from the source to each node without the failed links, by number; `FAR` where there is no walk.
    pub fn cells(&self) -> &[u64]
        ensures { result.now ≡ self.now.cells }
    {
        self.row.as_slice()
    }

    /// The distance from the source to the node without the failed links. None exactly where there is no walk.
    pub fn dist(&self, v: NodeNo) -> Option<u64>
        requires { v.0 < length self.now.cells }
        ensures cell { result ≡ distance_of (slice_index self.now.cells v.0) }
        ensures distance { (n : Labelled) (case : Failure) → IsPost n case self.now
            → (x : List Bool) → IsFailedSet n.graph case x → Distance n.graph x (source_of n.graph case) v.0 result }
    {
        let cell = self.row.as_slice()[v.0 as usize];
        if cell < FAR { Some(cell) } else { None }
    }

    /// The links from the source that still lead on, each with nodes towards which it is the least that does: it hasn't
    /// failed, it begins a shortest walk there in the whole graph, and no shortest walk from its end to the node holds a
    /// failed link. Each node that loses a next hop stands with one, where some link still leads there.
    pub fn kept(&self) -> &[HopNodes]
        ensures kept { result.now ≡ self.now.kept }
        ensures hops { (n : Labelled) (case : Failure) → IsPost n case self.now
            → (x : List Bool) → IsFailedSet n.graph case x → AreKeptHops n.graph x (source_of n.graph case) result.now }
    {
        &self.kept
    }
}
