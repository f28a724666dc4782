//! What is gathered of the facts.
ghost use Rattle.std.specs.Prelude.{IfOk};
ghost use Rattle.sr_lsdb.specs.Facts.{AreInRange};
ghost use Rattle.sr_domain.specs.Steps.{AreGathered};

use crate::announced::announcements;
use crate::links::{FoundLink, link_list};
use crate::nodes::node_list;
use crate::two_way::two_way;
use sr_lsdb::{Announcement, Facts};
use sr_model::SystemId;
use std::alloc::{AllocError, Global};

/// The announcements of present nodes, those that both ends make, the present nodes, and the links with repeats.
#[derive(Drop)]
pub struct Gathered {
    pub announced: Vec<Announcement>,
    pub two_way: Vec<Announcement>,
    pub nodes: Vec<SystemId>,
    pub links: Vec<FoundLink>,
}

/// What there is to gather of the facts.
pub fn gather_facts(alloc: Global, facts: &Facts) -> Result<Gathered, AllocError>
    requires { AreInRange facts.now }
    ensures { IfOk result (AreGathered facts.now) }
{
    let announced = announcements(alloc, facts)?;
    let two_way = two_way(alloc, &announced)?;
    let nodes = node_list(alloc, facts)?;
    let links = link_list(alloc, facts, &two_way)?;
    Ok(Gathered {
        announced,
        two_way,
        nodes,
        links,
    })
}
