//! Whether a case stays.
ghost use Rattle.std.specs.Prelude.{◌≡◌, ◌↔◌, ◌<◌, true, IsTrue};
ghost use Rattle.sr_model.specs.Graph.{node_count};
ghost use Rattle.sr_model.specs.Label.{Net as Labelled};
ghost use Rattle.sr_model.specs.Stay.{HaveSameName, IsKeptCase, case_with};
ghost use Rattle.sr_delta.specs.Changes.{AreChanges};
ghost use Rattle.sr_delta.specs.Pairs.{HaveSameFailures};
ghost use Rattle.sr_delta.specs.Stayers.{AreStaying};
ghost use Rattle.sr_delta.specs.Cases.{IsKeptHere};

use crate::after::are_idle_or_failed;
use crate::differences::Changes;
use crate::ends::are_ends_alike;
use crate::old_case::OldCase;
use crate::risks::have_same_risks;
use crate::staying::Staying;
use crate::ways::are_walks_kept;
use sr_labels::Net;
use sr_model::{Case, Kind, LinkNo};

/// Whether the links that fail in the same case of the new net are of the same pairs. `link` is the number of the
/// protected link there. In a link case they are the links of its pair; in a node case, those at its end. In an SRLG case
/// they are of those at its beginning, of which mostly nothing has changed.
pub(crate) fn have_same_failures(
    changes: &Changes,
    old: &OldCase<'_>,
    new: &Net,
    link: LinkNo,
) -> bool
    requires changes { AreChanges old.now.net new.now changes.now }
    requires same { changes.now.same ≡ true }
    requires name { HaveSameName old.now.net.graph new.now.graph old.now.case.link.0 link.0 }
    ensures { IsTrue result
        ↔ HaveSameFailures old.now.net.graph old.now.case new.now.graph (case_with old.now.case link) }
{
    let case = old.case();
    match case.kind {
        Kind::Link => true,
        Kind::Node => {
            let end = old.graph().edge(case.link).to;
            changes.pairs_alike().has(end.0 as usize)
        }
        Kind::Risk => {
            let there = Case {
                kind: case.kind,
                link,
            };
            let start = old.graph().edge(case.link).from;
            changes.groups_alike().has(start.0 as usize)
                || have_same_risks(old.graph(), case, new.graph(), there)
        }
    }
}

/// Whether the old case has all that is asked of it but of the links that fail in the new net and of the nodes on the
/// walks.
fn is_kept_here(changes: &Changes, staying: &Staying, old: &OldCase<'_>) -> bool
    requires { changes.now.nodes ≡ node_count old.now.net.graph }
    ensures { (m : Labelled) → AreChanges old.now.net m changes.now → changes.now.same ≡ true
        → AreStaying old.now.net m staying.now → IsTrue result ↔ IsKeptHere old.now m changes.now.links }
{
    let case = old.case();
    let source = old.graph().edge(case.link).from.0 as usize;
    if !changes.depths_alike().has(source) {
        return false;
    }
    if !staying.trees.has(source) {
        return false;
    }
    if !are_idle_or_failed(old.graph(), case, old.cells(), changes.links()) {
        return false;
    }
    are_ends_alike(changes, old)
}

/// Whether the case of the old net stays: what was computed for it is what would be computed in the new net, links matched
/// by key. `changes` are the differences of the two nets, `staying` the nodes that stay. The tests that cost least come
/// first.
pub fn case_stays(changes: &Changes, staying: &Staying, old: &OldCase<'_>, new: &Net) -> bool
    requires changes { AreChanges old.now.net new.now changes.now }
    requires staying { changes.now.same ≡ true → AreStaying old.now.net new.now staying.now }
    ensures { IsTrue result ↔ IsKeptCase old.now.net new.now old.now.case }
{
    if !changes.same_nodes() {
        return false;
    }
    match changes.partner(old.case().link) {
        None => false,
        Some(link) => {
            if !are_walks_kept(staying, old) {
                return false;
            }
            if !is_kept_here(changes, staying, old) {
                return false;
            }
            have_same_failures(changes, old, new, link)
        }
    }
}
