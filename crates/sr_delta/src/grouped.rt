//! The nodes at which nothing changes that fails in an SRLG case.
ghost use Rattle.std.specs.Prelude.{◌≡◌, ◌<◌, ℕ, true, IsTrue};
ghost use Rattle.sr_lanes.specs.Bits.{is_in};
ghost use Rattle.sr_model.specs.Graph.{link_count};
ghost use Rattle.sr_delta.specs.Partners.{IsPartner, ArePartners};
ghost use Rattle.sr_delta.specs.Grouped.{IsGroupedAlike, HaveGroupsIn, HaveSameGroupsAt};

use sr_graph::Graph;
use sr_lanes::NodeBits;
use sr_model::LinkNo;

/// Whether the link has this partner in the other graph, and that is in the same risk groups.
fn is_grouped_alike(graph: &Graph, other: &Graph, link: LinkNo, partner: Option<LinkNo>) -> bool
    requires link { link.0 < link_count graph.now }
    requires partner { IsPartner graph.now other.now link.0 partner }
    ensures { IsTrue result → IsGroupedAlike graph.now other.now link.0 }
{
    match partner {
        None => false,
        Some(there) => graph.groups(link) == other.groups(there),
    }
}

/// Those of the nodes at which each link has a partner in the other graph, in the same risk groups.
fn grouped_in(
    graph: &Graph,
    other: &Graph,
    partners: &[Option<LinkNo>],
    among: NodeBits,
) -> NodeBits
    requires { ArePartners graph.now other.now partners.now }
    ensures within { (v : ℕ) → is_in result v ≡ true → is_in among v ≡ true }
    ensures grouped { (v : ℕ) → is_in result v ≡ true → HaveGroupsIn graph.now other.now v }
{
    let mut set = among;
    for l in 0..graph.link_count() as u16 {
        let link = LinkNo(l);
        if !is_grouped_alike(graph, other, link, partners[l as usize]) {
            let edge = graph.edge(link);
            set = set
                .without(edge.from.0 as usize)
                .without(edge.to.0 as usize);
        }
    }
    set
}

/// Nodes at which the links are of the same keys and in the same risk groups in both graphs. `partners` are those of the
/// old links, `origins` those of the new ones.
pub(crate) fn grouped_alike(
    old: &Graph,
    new: &Graph,
    partners: &[Option<LinkNo>],
    origins: &[Option<LinkNo>],
) -> NodeBits
    requires partners { ArePartners old.now new.now partners.now }
    requires origins { ArePartners new.now old.now origins.now }
    ensures { (v : ℕ) → is_in result v ≡ true → HaveSameGroupsAt old.now new.now v }
{
    let all = NodeBits::below(old.node_count() as usize);
    grouped_in(new, old, origins, grouped_in(old, new, partners, all))
}
