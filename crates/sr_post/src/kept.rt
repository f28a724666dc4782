//! What a failure leaves as it was: distances from the source, and next hops.
ghost use Rattle.std.specs.Prelude.{◌≡◌, ℕ, ◌<◌, ◌↔◌, [], true, IsTrue, IfOk, MatchOption, OnOk};
ghost use Rattle.sr_lanes.specs.Bits.{is_in};
ghost use Rattle.sr_model.specs.declared.link.LinkNo.{LinkNo as Number};
ghost use Rattle.sr_model.specs.Graph.{node_count, link_count, tail};
ghost use Rattle.sr_model.specs.Walk.{IsNextHop};
ghost use Rattle.sr_spf.specs.Begun.{IsBegun};
ghost use Rattle.sr_spf.specs.Trees.{AreTrees};
ghost use Rattle.sr_post.specs.Kept.{AreDoubtful, LeadsTo, LosesHop, AreEndangered, AreKeptHops, AreLost, IsKeptHop};
ghost use Rattle.sr_post.specs.Sets.{HaveKeptCells, KeepsHop, AreKeptAndLost};

use sr_graph::LinkRange;
use sr_lanes::{NodeBits, finite};
use sr_model::{LinkNo, NodeNo};
use sr_spaces::Spaces;
use sr_spf::{Trees, all_listed, cells_without};
use std::alloc::{AllocError, Global};

/// Up to this many endangered nodes are tried one by one: each has a few next hops, and a source may have many links, all
/// of which are tried in vain where no link leads to one of the nodes (this project's choice).
const FEW_ENDANGERED: usize = 4;

/// A link from the source, and nodes towards which it is the least that leads in spite of the failed links.
#[derive(Clone, Copy, Debug)]
pub struct HopNodes {
    pub hop: LinkNo,
    pub nodes: NodeBits,
}

/// Those of the nodes to which the link leads in spite of the failed links. Where it is a next hop and hasn't failed, P of
/// its end is asked of the doubtful nodes alone.
fn led_by(
    spaces: &Spaces,
    trees: &Trees,
    doubtful: NodeBits,
    hop: LinkNo,
    among: NodeBits,
) -> NodeBits
    requires trees { AreTrees spaces.now.graph trees.now }
    requires doubtful { AreDoubtful spaces.now.graph spaces.now.failed (tail spaces.now.graph hop.0) doubtful }
    requires hop { hop.0 < link_count spaces.now.graph }
    ensures { (v : ℕ) → IsTrue (is_in result v) ↔ ((is_in among v ≡ true)
        × LeadsTo spaces.now.graph spaces.now.failed (tail spaces.now.graph hop.0) v hop.0) }
{
    let led = among.and(trees.carried(hop));
    // Most links lead elsewhere.
    if led.is_empty() || spaces.failed().has(hop) {
        return NodeBits::none();
    }
    // Of most nodes there is no doubt.
    let sure = led.and_not(doubtful);
    sure.or(spaces.p_among(spaces.graph().edge(hop).to, led.and(doubtful)))
}

/// The nodes towards which the link is a next hop of the source. A set of links knows no graph, so it may list a number past
/// the graph's links, which is none.
fn behind(spaces: &Spaces, trees: &Trees, source: NodeNo, link: LinkNo) -> NodeBits
    requires { AreTrees spaces.now.graph trees.now }
    ensures { (v : ℕ) → IsTrue (is_in result v) ↔ IsNextHop spaces.now.graph [] source.0 v link.0 }
{
    let graph = spaces.graph();
    if link.0 as u32 >= graph.link_count() || graph.edge(link).from.0 != source.0 {
        return NodeBits::none();
    }
    trees.carried(link)
}

/// The nodes towards which a failed link is a next hop of the source.
fn losing(spaces: &Spaces, trees: &Trees, source: NodeNo) -> NodeBits
    requires { AreTrees spaces.now.graph trees.now }
    ensures { (v : ℕ) → IsTrue (is_in result v) ↔ LosesHop spaces.now.graph spaces.now.failed source.0 v }
{
    let mut losing = NodeBits::none();
    for link in spaces.failed().links() {
        losing = losing.or(behind(spaces, trees, source, *link));
    }
    losing
}

/// The nodes that may be lost: all but the source, and but those of which there is no doubt that their next hops, of which
/// none failed, still lead there.
fn endangered(spaces: &Spaces, trees: &Trees, doubtful: NodeBits, source: NodeNo) -> NodeBits
    requires trees { AreTrees spaces.now.graph trees.now }
    requires doubtful { AreDoubtful spaces.now.graph spaces.now.failed source.0 doubtful }
    requires source { source.0 < node_count spaces.now.graph }
    ensures { AreEndangered spaces.now.graph spaces.now.failed source.0 result }
{
    let count = spaces.graph().node_count() as usize;
    let reached = finite(spaces.row(source));
    let safe = reached
        .and_not(doubtful)
        .and_not(losing(spaces, trees, source));
    NodeBits::below(count)
        .without(source.0 as usize)
        .and_not(safe)
}

/// The hops kept from a source, each with its nodes, and the nodes to which no link tried so far leads.
#[derive(Drop)]
struct KeptHops {
    kept: Vec<HopNodes>,
    left: NodeBits,
}

impl KeptHops {
    /// Keeps the hop towards those nodes that are left to which it leads.
    fn keep(&mut self, hop: LinkNo, led: NodeBits) -> Result<(), AllocError>
        ensures { OnOk result (KeepsHop self.old hop led self.new) }
    {
        if led.is_empty() {
            return Ok(());
        }
        self.kept.push(HopNodes { hop, nodes: led })?;
        self.left = self.left.and_not(led);
        Ok(())
    }
}

/// The least link that leads from the source to the node in spite of the failed links. Only its next hops may do so.
fn least_hop(
    spaces: &Spaces,
    trees: &Trees,
    doubtful: NodeBits,
    source: NodeNo,
    v: NodeNo,
) -> Option<LinkNo>
    requires trees { AreTrees spaces.now.graph trees.now }
    requires doubtful { AreDoubtful spaces.now.graph spaces.now.failed source.0 doubtful }
    requires source { source.0 < node_count spaces.now.graph }
    requires v { v.0 < node_count spaces.now.graph }
    ensures { MatchOption result ((l : ℕ) → LeadsTo spaces.now.graph spaces.now.failed source.0 v.0 l → ⊥)
        (λ (hop : Number). IsKeptHop spaces.now.graph spaces.now.failed source.0 v.0 hop.0) }
{
    let alone = NodeBits::alone(v.0 as usize);
    for hop in trees.next_hops(source, v) {
        let led = led_by(spaces, trees, doubtful, *hop, alone);
        if !led.is_empty() {
            return Some(*hop);
        }
    }
    None
}

/// The hops kept towards the endangered nodes, and the nodes lost: the next hops of each node are tried.
fn keep_singly(
    alloc: Global,
    spaces: &Spaces,
    trees: &Trees,
    doubtful: NodeBits,
    source: NodeNo,
    endangered: NodeBits,
) -> Result<KeptHops, AllocError>
    requires trees { AreTrees spaces.now.graph trees.now }
    requires doubtful { AreDoubtful spaces.now.graph spaces.now.failed source.0 doubtful }
    requires source { source.0 < node_count spaces.now.graph }
    requires endangered { AreEndangered spaces.now.graph spaces.now.failed source.0 endangered }
    ensures { IfOk result (λ hops. AreKeptAndLost spaces.now.graph spaces.now.failed source.0 hops) }
{
    let mut hops = KeptHops {
        kept: Vec::new(alloc),
        left: endangered,
    };
    let mut untried = endangered;
    'untried: while let Some(node) = untried.take_first() {
        if let Some(hop) = least_hop(spaces, trees, doubtful, source, NodeNo(node as u16)) {
            hops.keep(hop, NodeBits::alone(node))?;
        }
    }
    Ok(hops)
}

/// The hops kept towards the endangered nodes, and the nodes lost: each link of the source is tried for all nodes at once.
fn keep_by_links(
    alloc: Global,
    spaces: &Spaces,
    trees: &Trees,
    doubtful: NodeBits,
    source: NodeNo,
    endangered: NodeBits,
) -> Result<KeptHops, AllocError>
    requires trees { AreTrees spaces.now.graph trees.now }
    requires doubtful { AreDoubtful spaces.now.graph spaces.now.failed source.0 doubtful }
    requires source { source.0 < node_count spaces.now.graph }
    requires endangered { AreEndangered spaces.now.graph spaces.now.failed source.0 endangered }
    ensures { IfOk result (λ hops. AreKeptAndLost spaces.now.graph spaces.now.failed source.0 hops) }
{
    let LinkRange { first, end } = spaces.graph().links_from(source);
    let mut hops = KeptHops {
        kept: Vec::new(alloc),
        left: endangered,
    };
    for link in first..end {
        // A few links mostly lead to all of them.
        if hops.left.is_empty() {
            return Ok(hops);
        }
        let led = led_by(spaces, trees, doubtful, LinkNo(link), hops.left);
        hops.keep(LinkNo(link), led)?;
    }
    Ok(hops)
}

/// The least link that leads from the source in spite of the failed links towards each of the endangered nodes, if one
/// does, and the nodes to which none does.
fn keep_hops(
    alloc: Global,
    spaces: &Spaces,
    trees: &Trees,
    doubtful: NodeBits,
    source: NodeNo,
) -> Result<KeptHops, AllocError>
    requires trees { AreTrees spaces.now.graph trees.now }
    requires doubtful { AreDoubtful spaces.now.graph spaces.now.failed source.0 doubtful }
    requires source { source.0 < node_count spaces.now.graph }
    ensures hops { IfOk result (λ hops. AreKeptHops spaces.now.graph spaces.now.failed source.0 hops.kept.items) }
    ensures lost { IfOk result (λ hops. AreLost spaces.now.graph spaces.now.failed source.0 hops.left) }
{
    let among = endangered(spaces, trees, doubtful, source);
    if among.count() <= FEW_ENDANGERED {
        keep_singly(alloc, spaces, trees, doubtful, source, among)
    } else {
        keep_by_links(alloc, spaces, trees, doubtful, source, among)
    }
}

/// What is known from the source without a search.
#[derive(Drop)]
pub(crate) struct Known {
    /// The distances that stay: those of the source itself and of the nodes to which some link leads in spite of the
    /// failed ones. `FAR` for the others, which are lost.
    pub(crate) cells: Vec<u64>,
    /// The nodes that are lost.
    pub(crate) lost: Vec<NodeNo>,
    /// The hops that are kept towards nodes that lose a next hop.
    pub(crate) kept: Vec<HopNodes>,
}

/// The distances from the source that stay, and the links that lead to the nodes that keep theirs. Towards a node that
/// isn't doubtful each next hop leads that hasn't failed.
pub(crate) fn known_distances(
    alloc: Global,
    spaces: &Spaces,
    trees: &Trees,
    doubtful: NodeBits,
    source: NodeNo,
) -> Result<Known, AllocError>
    requires trees { AreTrees spaces.now.graph trees.now }
    requires doubtful { AreDoubtful spaces.now.graph spaces.now.failed source.0 doubtful }
    requires source { source.0 < node_count spaces.now.graph }
    ensures begun { IfOk result (λ known.
        IsBegun spaces.now.graph spaces.now.failed source.0 known.cells.items known.lost.items
        × HaveKeptCells spaces.now.graph spaces.now.failed source.0 known.cells.items known.lost.items) }
    ensures hops { IfOk result (λ known. AreKeptHops spaces.now.graph spaces.now.failed source.0 known.kept.items) }
{
    let KeptHops { kept, left } = keep_hops(alloc, spaces, trees, doubtful, source)?;
    let cells = cells_without(alloc, spaces.row(source), left)?;
    let lost = all_listed(alloc, left)?;
    Ok(Known { cells, lost, kept })
}
