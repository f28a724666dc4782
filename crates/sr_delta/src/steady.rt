//! Whether a case is steady.
ghost use Rattle.std.specs.Prelude.{◌≡◌, ◌↔◌, ℕ, ◌<◌, true, false, length, IsTrue, Some, slice_get};
ghost use Rattle.sr_model.specs.Graph.{node_count};
ghost use Rattle.sr_model.specs.Label.{Net as Labelled};
ghost use Rattle.sr_model.specs.Stay.{HaveSameName, case_with};
ghost use Rattle.sr_laws.specs.Steady.{IsSteadyCase};
ghost use Rattle.sr_lanes.specs.declared.limits.TheConstants.{NODES_AT_MOST as Most};
ghost use Rattle.sr_lanes.specs.declared.words.NodeBits.{NodeBits as Members};
ghost use Rattle.sr_lanes.specs.Bits.{is_in};
ghost use Rattle.sr_spf.specs.Trees.{AreTrees};
ghost use Rattle.sr_delta.specs.Changes.{AreChanges};
ghost use Rattle.sr_delta.specs.Moved.{AreMoved};
ghost use Rattle.sr_delta.specs.Stayers.{AreStaying};
ghost use Rattle.sr_delta.specs.Steady.{AreAffectedAlike, AreStepsKept, IsSteadyHere};

use crate::after::are_idle_or_failed;
use crate::cases::have_same_failures;
use crate::differences::Changes;
use crate::old_case::OldCase;
use crate::staying::Staying;
use sr_labels::Net;
use sr_lanes::NodeBits;
use sr_model::{Case, LinkNo, NodeNo};
use sr_post::{affected_set, pivot_of};
use sr_spf::Trees;

/// Whether it is as far as it was from each of the nodes to this one. `moved` has the nodes to which it isn't.
fn are_as_far(moved: &[NodeBits], nodes: NodeBits, to: NodeNo) -> bool
    requires inside { (u : ℕ) → is_in nodes u ≡ true → u < length moved.now }
    requires to { to.0 < Most }
    ensures { IsTrue result ↔ ((u : ℕ) (set : Members) → is_in nodes u ≡ true → slice_get moved.now u ≡ Some set
        → is_in set to.0 ≡ false) }
{
    let mut left = nodes;
    'left: while let Some(u) = left.take_first() {
        if moved[u].has(to.0 as usize) {
            return false;
        }
    }
    true
}

/// Whether each node on the walks of the old case is the source, or its tree stays, or it is as far as it was to the node
/// at which the failed links lie, as that node is to each node on the walks.
fn are_steps_kept(staying: &Staying, moved: &[NodeBits], old: &OldCase<'_>) -> bool
    requires { length moved.now ≡ node_count old.now.net.graph }
    ensures { (m : Labelled) → AreStaying old.now.net m staying.now
        → AreMoved old.now.net.graph m.graph moved.now (node_count old.now.net.graph)
        → IsTrue result ↔ AreStepsKept old.now.net m old.now.case }
{
    let case = old.case();
    let graph = old.graph();
    let walks = old.walks();
    let source = graph.edge(case.link).from;
    let left = walks.and_not(staying.trees).without(source.0 as usize);
    if left.is_empty() {
        return true;
    }
    let pivot = pivot_of(graph, case);
    moved[pivot.0 as usize].and(walks).is_empty() && are_as_far(moved, left, pivot)
}

/// Whether the old case has all that is asked of a steady one but of the links that fail and the destinations that are
/// affected in the new net.
fn is_steady_here(
    changes: &Changes,
    staying: &Staying,
    moved: &[NodeBits],
    old: &OldCase<'_>,
) -> bool
    requires nodes { changes.now.nodes ≡ node_count old.now.net.graph }
    requires moved { length moved.now ≡ node_count old.now.net.graph }
    ensures { (m : Labelled) → AreChanges old.now.net m changes.now → changes.now.same ≡ true
        → AreStaying old.now.net m staying.now
        → AreMoved old.now.net.graph m.graph moved.now (node_count old.now.net.graph)
        → IsTrue result ↔ IsSteadyHere old.now m changes.now.links }
{
    if !old.walks().and_not(changes.segments_alike()).is_empty() {
        return false;
    }
    if !are_steps_kept(staying, moved, old) {
        return false;
    }
    are_idle_or_failed(old.graph(), old.case(), old.cells(), changes.links())
}

/// Whether the same destinations are affected in the same case of the new net. `link` is the number of the protected link
/// there.
fn are_affected_alike(old: &OldCase<'_>, new: &Net, trees: &Trees, link: LinkNo) -> bool
    requires name { HaveSameName old.now.net.graph new.now.graph old.now.case.link.0 link.0 }
    requires trees { AreTrees new.now.graph trees.now }
    ensures { IsTrue result
        ↔ AreAffectedAlike old.now.net old.now.case new.now (case_with old.now.case link) }
{
    let case = old.case();
    let there = Case {
        kind: case.kind,
        link,
    };
    let before = affected_set(old.net(), old.trees(), case);
    let after = affected_set(new, trees, there);
    let lost = before.and_not(after);
    let gained = after.and_not(before);
    lost.or(gained).is_empty()
}

/// Whether the case of the old net is steady: what was listed for it is what would be listed in the new net, links
/// matched by key, although trees of nodes on its walks may change elsewhere, and its source may let other lists
/// through. `staying` are the nodes that stay, `moved` has for each node those to which it isn't as far as it was, and
/// `trees` are those of the new net.
pub fn is_steady(
    changes: &Changes,
    staying: &Staying,
    moved: &[NodeBits],
    old: &OldCase<'_>,
    new: &Net,
    trees: &Trees,
) -> bool
    requires changes { AreChanges old.now.net new.now changes.now × (changes.now.same ≡ true) }
    requires staying { AreStaying old.now.net new.now staying.now }
    requires moved { AreMoved old.now.net.graph new.now.graph moved.now (node_count old.now.net.graph) }
    requires trees { AreTrees new.now.graph trees.now }
    ensures { IsTrue result ↔ IsSteadyCase old.now.net new.now old.now.case }
{
    match changes.partner(old.case().link) {
        None => false,
        Some(link) => {
            if !is_steady_here(changes, staying, moved, old) {
                return false;
            }
            if !are_affected_alike(old, new, trees, link) {
                return false;
            }
            have_same_failures(changes, old, new, link)
        }
    }
}
