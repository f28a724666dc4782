//! Whether the links that fail in an SRLG case are of the same pairs in two graphs.
ghost use Rattle.std.specs.Prelude.{◌≡◌, ◌↔◌, ◌<◌, ◌≤◌, ℕ, length, IsTrue};
ghost use Rattle.sr_model.specs.declared.case.Kind.TheVariants.{Risk as RiskKind};
ghost use Rattle.sr_model.specs.Graph.{link_count};
ghost use Rattle.sr_model.specs.Case.{IsCase};
ghost use Rattle.sr_model.specs.Stay.{HaveSameName};
ghost use Rattle.sr_graph.specs.Members.{number_at, IsInRange, IsInList};
ghost use Rattle.sr_delta.specs.Pairs.{IsMatched, HavePairsIn, HaveSameFailures};

use crate::pairs::{fails, is_of_failing_pair};
use sr_graph::{Graph, LinkRange};
use sr_model::{Case, Kind, LinkNo};

/// Whether the link doesn't fail in the case, or its pair fails in the other graph.
fn is_matched(graph: &Graph, case: Case, other: &Graph, there: Case, link: LinkNo) -> bool
    requires case { IsCase graph.now case }
    requires there { IsCase other.now there }
    requires link { link.0 < link_count graph.now }
    ensures { IsTrue result ↔ IsMatched graph.now case other.now there link.0 }
{
    !fails(graph, case, link) || is_of_failing_pair(other, there, &graph.link(link).key)
}

/// Whether each link of the range is matched so.
fn is_range_matched(graph: &Graph, case: Case, other: &Graph, there: Case, range: LinkRange) -> bool
    requires case { IsCase graph.now case }
    requires there { IsCase other.now there }
    requires within { range.end ≤ link_count graph.now }
    ensures { IsTrue result
        ↔ ((l : ℕ) → IsInRange range.first range.end l → IsMatched graph.now case other.now there l) }
{
    for link in range.first..range.end {
        if !is_matched(graph, case, other, there, LinkNo(link)) {
            return false;
        }
    }
    true
}

/// Whether each listed link is matched so.
fn is_list_matched(graph: &Graph, case: Case, other: &Graph, there: Case, links: &[LinkNo]) -> bool
    requires case { IsCase graph.now case }
    requires there { IsCase other.now there }
    requires within { (i : ℕ) → i < length links.now → number_at links.now i < link_count graph.now }
    ensures { IsTrue result ↔ ((l : ℕ) → IsInList links.now l → IsMatched graph.now case other.now there l) }
{
    for i in 0..links.len() {
        if !is_matched(graph, case, other, there, links[i]) {
            return false;
        }
    }
    true
}

/// Whether each link that fails in the SRLG case is of the pair of one that fails in that of the other graph, where the
/// protected link has the same key. Besides its pair, only links at its beginning fail.
fn have_pairs_in(graph: &Graph, case: Case, other: &Graph, there: Case) -> bool
    requires case { IsCase graph.now case }
    requires kinds { (case.kind ≡ RiskKind) × (there.kind ≡ RiskKind) }
    requires name { HaveSameName graph.now other.now case.link.0 there.link.0 }
    ensures { IsTrue result ↔ HavePairsIn graph.now case other.now there }
{
    let source = graph.edge(case.link).from;
    is_range_matched(graph, case, other, there, graph.links_from(source))
        && is_list_matched(graph, case, other, there, graph.links_to(source))
}

/// Whether the links that fail in the SRLG cases of two graphs are of the same pairs. The protected link has the same key
/// in both. Most links have no group.
pub(crate) fn have_same_risks(graph: &Graph, case: Case, other: &Graph, there: Case) -> bool
    requires case { IsCase graph.now case }
    requires kinds { (case.kind ≡ RiskKind) × (there.kind ≡ RiskKind) }
    requires name { HaveSameName graph.now other.now case.link.0 there.link.0 }
    ensures { IsTrue result ↔ HaveSameFailures graph.now case other.now there }
{
    graph.groups(case.link).is_empty() && other.groups(there.link).is_empty()
        || have_pairs_in(graph, case, other, there) && have_pairs_in(other, there, graph, case)
}
