//! A case of the old net, with what was computed for it.
ghost use Rattle.std.specs.Prelude.{◌≡◌, List, Bool};
ghost use Rattle.sr_model.specs.Walk.{IsRow};
ghost use Rattle.sr_model.specs.Case.{IsCase, IsFailedSet, source_of};
ghost use Rattle.sr_spf.specs.Trees.{AreTrees};
ghost use Rattle.sr_post.specs.Marks.{AreWalks};
ghost use Rattle.sr_delta.specs.Cases.{IsComputed};

use sr_graph::Graph;
use sr_labels::Net;
use sr_lanes::NodeBits;
use sr_model::Case;
use sr_spf::Trees;
use std::marker::Model;

/// A case of a net, with what was computed for it: the trees of the net, the distances from the source without the links
/// that fail, and the nodes on the shortest walks without them to the affected destinations.
#[derive(Drop)]
pub struct OldCase<'a> {
    net: &'a Net,
    trees: &'a Trees,
    case: Case,
    cells: &'a [u64],
    walks: NodeBits,
}

impl<'a> Model for OldCase<'a> {
    ghost use Rattle.sr_delta.specs.Cases.{Computed, IsComputed};

    ghost Value = { Computed };

    ghost view = { λ a.
        record { net = a.net.now; trees = a.trees.now; case = a.case; cells = a.cells.now; walks = a.walks } };

    ghost invariant = { λ a.
        IsComputed
        (record { net = a.net.now; trees = a.trees.now; case = a.case; cells = a.cells.now; walks = a.walks }) };
}

impl<'a> OldCase<'a> {
    /// The case with these parts. `cells` are the distances from its source without the links that fail, by number of
    /// node; `FAR` where there is no walk. `walks` are the nodes on the shortest walks of the case.
    pub fn new(
        net: &'a Net,
        trees: &'a Trees,
        case: Case,
        cells: &'a [u64],
        walks: NodeBits,
    ) -> OldCase<'a>
        requires trees { AreTrees net.now.graph trees.now }
        requires case { IsCase net.now.graph case }
        requires row { (x : List Bool) → IsFailedSet net.now.graph case x
            → IsRow net.now.graph x (source_of net.now.graph case) cells.now }
        requires walks { AreWalks net.now case walks }
        ensures { result
            ≡ record { net = net.now; trees = trees.now; case = case; cells = cells.now; walks = walks } }
    {
        OldCase {
            net,
            trees,
            case,
            cells,
            walks,
        }
    }

    /// The net.
    pub(crate) fn net(&self) -> &Net
        ensures net { result.now ≡ self.now.net }
        ensures computed { IsComputed self.now }
    {
        self.net
    }

    /// The graph of the net.
    pub(crate) fn graph(&self) -> &Graph
        ensures graph { result.now ≡ self.now.net.graph }
        ensures computed { IsComputed self.now }
    {
        self.net.graph()
    }

    /// The trees.
    pub(crate) fn trees(&self) -> &Trees
        ensures trees { result.now ≡ self.now.trees }
        ensures computed { IsComputed self.now }
    {
        self.trees
    }

    /// The case.
    pub(crate) fn case(&self) -> Case
        ensures case { result ≡ self.now.case }
        ensures computed { IsComputed self.now }
    {
        self.case
    }

    /// The distances from the source without the links that fail.
    pub(crate) fn cells(&self) -> &[u64]
        ensures cells { result.now ≡ self.now.cells }
        ensures computed { IsComputed self.now }
    {
        self.cells
    }

    /// The nodes on the shortest walks without the links that fail to the affected destinations.
    pub(crate) fn walks(&self) -> NodeBits
        ensures walks { result ≡ self.now.walks }
        ensures computed { IsComputed self.now }
    {
        self.walks
    }
}
