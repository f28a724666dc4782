//! The links of a domain, as they are announced, with repeats.
ghost use Rattle.std.specs.Prelude.{◌≡◌, IfOk};
ghost use Rattle.std.specs.List.{filter_map};
ghost use Rattle.sr_domain.specs.Links.{effective_metric, link_by};

use sr_lsdb::{Announcement, Facts};
use sr_model::LinkKey;
use sr_wire::registry::MAXIMUM_METRIC;
use std::alloc::{AllocError, Global};

/// A link as it is found: its key, its effective metric, and its adjacency label.
#[derive(Clone, Copy, Debug, PartialEq, Eq)]
pub struct FoundLink {
    pub key: LinkKey,
    pub metric: u32,
    pub label: Option<u32>,
}

/// The metric that is set for the key, otherwise the announced one.
pub fn effective_metric(facts: &Facts, announcement: &Announcement) -> u32
    ensures { result ≡ effective_metric facts.now announcement.now }
{
    match facts.costs.get(&announcement.key) {
        Some(metric) => metric,
        None => announcement.metric,
    }
}

/// The link of a two-way announcement, if it is in use.
pub fn link_by(facts: &Facts, announcement: &Announcement) -> Option<FoundLink>
    ensures { result ≡ link_by facts.now announcement.now }
{
    let metric = effective_metric(facts, announcement);
    if metric != MAXIMUM_METRIC && !facts.downs.contains(&announcement.key.pair()) {
        Some(FoundLink {
            key: announcement.key,
            metric,
            label: announcement.label,
        })
    } else {
        None
    }
}

/// The links of these two-way announcements, with repeats.
pub(crate) fn link_list(
    alloc: Global,
    facts: &Facts,
    two_way: &[Announcement],
) -> Result<Vec<FoundLink>, AllocError>
    ensures { IfOk result (λ v. v.items ≡ filter_map (link_by facts.now) two_way.now) }
{
    let mut out = Vec::with_capacity(alloc, two_way.len())?;
    for announcement in two_way {
        match link_by(facts, announcement) {
            Some(link) => out.push(link)?,
            None => {}
        }
    }
    Ok(out)
}
