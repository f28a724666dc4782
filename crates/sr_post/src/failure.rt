//! What a case leaves, in two steps: what is known before its search, and the search.
ghost use Rattle.std.specs.Prelude.{◌≡◌, ◌+◌, ◌≤◌, IfOk, OnOk};
ghost use Rattle.sr_model.specs.Case.{IsCase};
ghost use Rattle.sr_spf.specs.Trees.{AreTrees};
ghost use Rattle.sr_post.specs.Post.{IsPost, IsBeginning};

use crate::kept::{HopNodes, Known, known_distances};
use crate::left::Post;
use crate::spaces::{doubtful_of, spaces_of};
use sr_graph::LinkSet;
use sr_labels::Net;
use sr_model::{Case, NodeNo};
use sr_spf::{Steps, Trees, row_after};
use std::alloc::{AllocError, Global};
use std::marker::Model;
use std::sync::ledger::Ledger;

/// What is known of a case before its search: the failed links, the distances from the source that stay (`FAR` for the
/// others), the nodes whose distance doesn't, and the hops that are kept.
#[derive(Debug, Drop)]
pub(crate) struct Begun {
    pub(crate) failed: LinkSet,
    pub(crate) cells: Vec<u64>,
    pub(crate) lost: Vec<NodeNo>,
    pub(crate) kept: Vec<HopNodes>,
}

impl Model for Begun {
    ghost use Rattle.sr_post.specs.Post.{Beginning};

    ghost Value = { Beginning };

    ghost view = { λ a. record { failed = a.failed; cells = a.cells.items; lost = a.lost.items; kept = a.kept.items } };
}

impl Begun {
    /// What the failure of the case leaves. One search is counted.
    fn finish<L: Ledger>(
        self,
        alloc: Global,
        net: &Net,
        case: Case,
        steps: &mut Steps<L>,
    ) -> Result<Post, AllocError>
        requires case { IsCase net.now.graph case }
        requires begun { IsBeginning net.now case self }
        ensures post { IfOk result (IsPost net.now case) }
        ensures steps { steps.new ≡ steps.old + 1 }
    {
        let graph = net.graph();
        let source = graph.edge(case.link).from;
        let Begun {
            failed,
            cells,
            lost,
            kept,
        } = self;
        let row = row_after(alloc, graph, &failed, source, cells, &lost, steps)?;
        Ok(Post::new(failed, row, kept))
    }
}

/// What is known of the case before its search.
pub(crate) fn begin_case(
    alloc: Global,
    net: &Net,
    trees: &Trees,
    case: Case,
) -> Result<Begun, AllocError>
    requires trees { AreTrees net.now.graph trees.now }
    requires case { IsCase net.now.graph case }
    ensures { IfOk result (IsBeginning net.now case) }
{
    let graph = net.graph();
    let start = graph.edge(case.link).from;
    let failed = graph.failed(alloc, case)?;
    let Known { cells, lost, kept } = known_distances(
        alloc,
        &spaces_of(graph, trees, &failed, case),
        trees,
        doubtful_of(graph, trees, case),
        start,
    )?;
    Ok(Begun {
        failed,
        cells,
        lost,
        kept,
    })
}

/// What the failure of the case leaves. One search is counted.
pub fn post<L: Ledger>(
    alloc: Global,
    net: &Net,
    trees: &Trees,
    case: Case,
    steps: &mut Steps<L>,
) -> Result<Post, AllocError>
    requires trees { AreTrees net.now.graph trees.now }
    requires case { IsCase net.now.graph case }
    ensures post { IfOk result (IsPost net.now case) }
    ensures steps { OnOk result (steps.new ≡ steps.old + 1) }
    ensures bounds { (steps.old ≤ steps.new) × (steps.new ≤ steps.old + 1) }
{
    begin_case(alloc, net, trees, case)?.finish(alloc, net, case, steps)
}
