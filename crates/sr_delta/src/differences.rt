//! What differs between two nets, as it is read.
ghost use Rattle.std.specs.Prelude.{◌≡◌, ◌<◌, length};
ghost use Rattle.sr_delta.specs.Partners.{partner_at};
ghost use Rattle.sr_delta.specs.Changes.{AreWithin};

use crate::alike::Alike;
use crate::change::Change;
use sr_lanes::NodeBits;
use sr_model::LinkNo;
use std::marker::Model;

/// What differs between an old net and a new one: whether their nodes are the same, and if so each changed link, by
/// number the link of the new net that has an old link's key and that of the old net that has a new link's, and which nodes
/// are alike.
#[derive(Debug, Drop)]
pub struct Changes {
    nodes: u32,
    same: bool,
    links: Vec<Change>,
    partners: Vec<Option<LinkNo>>,
    origins: Vec<Option<LinkNo>>,
    alike: Alike,
}

impl Model for Changes {
    ghost use Rattle.sr_delta.specs.Changes.{Differences, AreWithin};

    ghost Value = { Differences };

    ghost view = { λ a.
        record {
          nodes = a.nodes;
          same = a.same;
          links = a.links.items;
          partners = a.partners.items;
          origins = a.origins.items;
          alike = a.alike;
        } };

    ghost invariant = { λ a. AreWithin a.nodes a.links.items };
}

impl Changes {
    /// The differences, of these parts. The ends of the changed links are nodes below `nodes`.
    pub(crate) fn new(
        nodes: u32,
        same: bool,
        links: Vec<Change>,
        partners: Vec<Option<LinkNo>>,
        origins: Vec<Option<LinkNo>>,
        alike: Alike,
    ) -> Changes
        requires { AreWithin nodes links.items }
        ensures { result
            ≡ record {
              nodes = nodes;
              same = same;
              links = links.items;
              partners = partners.items;
              origins = origins.items;
              alike = alike;
            } }
    {
        Changes {
            nodes,
            same,
            links,
            partners,
            origins,
            alike,
        }
    }

    /// Whether the nodes are the same, and the same of them overloaded.
    pub fn same_nodes(&self) -> bool
        ensures { result ≡ self.now.same }
    {
        self.same
    }

    /// The changed links.
    pub fn links(&self) -> &[Change]
        ensures links { result.now ≡ self.now.links }
        ensures within { AreWithin self.now.nodes result.now }
    {
        &self.links
    }

    /// The link of the new net that has the key of this old link. None exactly where the new net has none.
    pub fn partner(&self, link: LinkNo) -> Option<LinkNo>
        requires { link.0 < length self.now.partners }
        ensures { result ≡ partner_at self.now.partners link.0 }
    {
        self.partners[link.0 as usize]
    }

    /// For each old link, by number, the link of the new net that has its key, or none where the new net has none. Where
    /// the nodes aren't the same, none is told.
    pub fn partners(&self) -> &[Option<LinkNo>]
        ensures { result.now ≡ self.now.partners }
    {
        &self.partners
    }

    /// The link of the old net that has the key of this new link. None exactly where the old net has none.
    pub fn origin(&self, link: LinkNo) -> Option<LinkNo>
        requires { link.0 < length self.now.origins }
        ensures { result ≡ partner_at self.now.origins link.0 }
    {
        self.origins[link.0 as usize]
    }

    /// For each new link, by number, the link of the old net that has its key, or none where the old net has none. Where
    /// the nodes aren't the same, none is told.
    pub fn origins(&self) -> &[Option<LinkNo>]
        ensures { result.now ≡ self.now.origins }
    {
        &self.origins
    }

    /// The nodes that have the same index and flags in both nets, and the same adjacency label on each link in both.
    pub fn labels_alike(&self) -> NodeBits
        ensures { result ≡ self.now.alike.labels }
    {
        self.alike.labels()
    }

    /// The nodes that have the same index in both nets, and the same adjacency label on each link in both.
    pub fn segments_alike(&self) -> NodeBits
        ensures { result ≡ self.now.alike.segments }
    {
        self.alike.segments()
    }

    /// The nodes that have an index in both nets, or in neither.
    pub fn indexed_alike(&self) -> NodeBits
        ensures { result ≡ self.now.alike.indexed }
    {
        self.alike.indexed()
    }

    /// The nodes that announce the same MSD in both nets, or none in either where the nets have the same depth.
    pub fn depths_alike(&self) -> NodeBits
        ensures { result ≡ self.now.alike.depths }
    {
        self.alike.depths()
    }

    /// The nodes whose links, those that begin and those that end there, are of the same pairs in both nets.
    pub fn pairs_alike(&self) -> NodeBits
        ensures { result ≡ self.now.alike.pairs }
    {
        self.alike.pairs()
    }

    /// Nodes whose links, those that begin and those that end there, are of the same keys and in the same risk groups in
    /// both nets.
    pub(crate) fn groups_alike(&self) -> NodeBits
        ensures { result ≡ self.now.alike.groups }
    {
        self.alike.groups()
    }
}
