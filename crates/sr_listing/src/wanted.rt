//! The items of an audit that are wanted: those of one case, or of the failure of a node.
ghost use Rattle.std.specs.Prelude.{◌≡◌, OnOk, OnErr};
ghost use Rattle.sr_model.specs.Audit.{rank_of};
ghost use Rattle.sr_model.specs.Case.{IsCase};
ghost use Rattle.sr_print.specs.Names.{AreNames};
ghost use Rattle.sr_print.specs.Printed.{BeginsWith};
ghost use Rattle.sr_listing.specs.Wanted.{is_wanted, IsWantedOf, PutsItems, AreWantedCounts, PutsWanted};

use crate::lines::put_case;
use sr_audit::{counts_at, counts_sum, no_counts};
use sr_graph::Graph;
use sr_model::{Case, Counts, Kind, NodeNo};
use sr_print::{Names, put_repair_counts};
use sr_repair::{Version, case_at, case_count};
use std::alloc::{AllocError, Global};

/// Which items of an audit are wanted.
#[derive(Clone, Copy, Debug, PartialEq, Eq)]
pub enum Wanted {
    /// Those of this case.
    OfCase(Case),
    /// Those of the node cases in which this node fails.
    OfNode(NodeNo),
}

/// The place of a kind of failure among link, node and risk.
fn rank(kind: Kind) -> u32
    ensures { result ≡ rank_of kind }
{
    match kind {
        Kind::Link => 0,
        Kind::Node => 1,
        Kind::Risk => 2,
    }
}

/// Whether the items of the case are wanted.
fn is_wanted(graph: &Graph, wanted: Wanted, case: Case) -> bool
    requires { IsCase graph.now case }
    ensures { result ≡ is_wanted graph.now wanted case }
{
    match wanted {
        Wanted::OfCase(one) => rank(case.kind) == rank(one.kind) && case.link.0 == one.link.0,
        Wanted::OfNode(node) => {
            rank(case.kind) == rank(Kind::Node) && graph.edge(case.link).to.0 == node.0
        }
    }
}

/// Appends the items of the version's audit that are wanted. `names` are those of its net. After an error a part of the
/// lines may stand there; what stood before stays.
fn put_items(
    version: &Version,
    wanted: Wanted,
    names: &Names,
    out: &mut Vec<u8>,
) -> Result<(), AllocError>
    requires { AreNames version.now.net names.now }
    ensures lines { OnOk result (PutsItems version.now.net wanted out.old.items out.new.items) }
    ensures err { OnErr result (BeginsWith out.old.items out.new.items) }
{
    version.is_answered();
    let graph = version.net().graph();
    for place in 0..case_count(graph) {
        if is_wanted(graph, wanted, case_at(graph, place)) {
            put_case(version, place, names, out)?;
        }
    }
    Ok(())
}

/// How many of the wanted items of the version's audit are of each sort.
fn wanted_counts(version: &Version, wanted: Wanted) -> Counts
    ensures { AreWantedCounts version.now.net wanted result }
{
    version.is_answered();
    let graph = version.net().graph();
    let mut so_far = no_counts();
    for place in 0..case_count(graph) {
        if is_wanted(graph, wanted, case_at(graph, place)) {
            so_far = counts_sum(so_far, counts_at(version, place));
        }
    }
    so_far
}

/// Appends the items of the version's audit that are wanted, in order, as `put_case` appends those of a case, and then how
/// many of them are of each sort. After an error a part of the lines may stand there; what stood before stays.
pub fn put_wanted(
    alloc: Global,
    version: &Version,
    wanted: Wanted,
    out: &mut Vec<u8>,
) -> Result<(), AllocError>
    requires { IsWantedOf version.now.net.graph wanted }
    ensures lines { OnOk result (PutsWanted version.now.net wanted out.old.items out.new.items) }
    ensures err { OnErr result (BeginsWith out.old.items out.new.items) }
{
    let names = Names::of(alloc, version.net())?;
    put_items(version, wanted, &names, out)?;
    put_repair_counts(wanted_counts(version, wanted), out)
}
