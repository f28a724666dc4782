//! The changed links of two graphs with the same nodes.
ghost use Rattle.std.specs.Prelude.{◌≡◌, ◌<◌, IfOk, MatchOption};
ghost use Rattle.sr_model.specs.Graph.{link_count, IsGraph, IsNamed};
ghost use Rattle.sr_model.specs.Case.{key_at};
ghost use Rattle.sr_model.specs.Stay.{HaveSameNodes, HasLink, IsChanged};
ghost use Rattle.sr_delta.specs.declared.change.Change.{Change as Changed};
ghost use Rattle.sr_delta.specs.Partners.{ArePartners, IsPartner};
ghost use Rattle.sr_delta.specs.Changed.{change_of_link, IsChange, AreChangesAmong, AreChangedLinks};

use crate::change::Change;
use sr_graph::Graph;
use sr_model::LinkNo;
use std::alloc::{AllocError, Global};

/// The record of a link of the old net, with its metric in the new net.
fn change_to(old: &Graph, link: LinkNo, after: Option<u32>) -> Change
    requires { link.0 < link_count old.now }
    ensures change { result ≡ change_of_link old.now link.0 after }
    ensures graph { IsGraph old.now }
    ensures named { IsNamed old.now }
{
    let link = old.link(link);
    Change {
        key: link.key,
        from: link.from,
        to: link.to,
        before: Some(link.metric),
        after,
    }
}

/// The change of a link of the old net, if it is changed.
fn change_of(old: &Graph, new: &Graph, link: LinkNo, partner: Option<LinkNo>) -> Option<Change>
    requires link { link.0 < link_count old.now }
    requires partner { IsPartner old.now new.now link.0 partner }
    ensures { MatchOption result
        (IsChanged old.now new.now (key_at old.now link.0) → ⊥)
        (λ (c : Changed). IsChange old.now new.now c × (c.key ≡ key_at old.now link.0)) }
{
    match partner {
        None => Some(change_to(old, link, None)),
        Some(other) => {
            let after = new.link(other).metric;
            if after == old.link(link).metric {
                None
            } else {
                Some(change_to(old, link, Some(after)))
            }
        }
    }
}

/// The change of a link that the old net doesn't have.
fn arisen(old: &Graph, new: &Graph, link: LinkNo) -> Change
    requires same { HaveSameNodes old.now new.now }
    requires link { link.0 < link_count new.now }
    requires arises { HasLink old.now (key_at new.now link.0) → ⊥ }
    ensures change { IsChange old.now new.now result }
    ensures key { result.key ≡ key_at new.now link.0 }
{
    let link = new.link(link);
    Change {
        key: link.key,
        from: link.from,
        to: link.to,
        before: None,
        after: Some(link.metric),
    }
}

/// The change of a link of the new net, if the old net doesn't have it. `origin` is its partner there.
fn arisen_of(old: &Graph, new: &Graph, link: LinkNo, origin: Option<LinkNo>) -> Option<Change>
    requires same { HaveSameNodes old.now new.now }
    requires link { link.0 < link_count new.now }
    requires origin { IsPartner new.now old.now link.0 origin }
    ensures { MatchOption result
        (HasLink old.now (key_at new.now link.0))
        (λ (c : Changed). IsChange old.now new.now c × (c.key ≡ key_at new.now link.0)
        × (HasLink old.now (key_at new.now link.0) → ⊥)) }
{
    match origin {
        Some(_) => None,
        None => Some(arisen(old, new, link)),
    }
}

/// The changed links of the old net.
fn changed_old(
    alloc: Global,
    old: &Graph,
    new: &Graph,
    partners: &[Option<LinkNo>],
) -> Result<Vec<Change>, AllocError>
    requires { ArePartners old.now new.now partners.now }
    ensures { IfOk result (λ list. AreChangesAmong old.now new.now (HasLink old.now) list.items) }
{
    let mut list = Vec::new(alloc);
    for l in 0..old.link_count() as u16 {
        match change_of(old, new, LinkNo(l), partners[l as usize]) {
            Some(change) => list.push(change)?,
            None => {}
        }
    }
    Ok(list)
}

/// The changed links, of which these are those of the old net. `origins` are the partners of the new links.
fn with_arisen(
    mut list: Vec<Change>,
    old: &Graph,
    new: &Graph,
    origins: &[Option<LinkNo>],
) -> Result<Vec<Change>, AllocError>
    requires same { HaveSameNodes old.now new.now }
    requires origins { ArePartners new.now old.now origins.now }
    requires list { AreChangesAmong old.now new.now (HasLink old.now) list.items }
    ensures { IfOk result (λ list. AreChangedLinks old.now new.now list.items) }
{
    for k in 0..new.link_count() as u16 {
        match arisen_of(old, new, LinkNo(k), origins[k as usize]) {
            Some(change) => list.push(change)?,
            None => {}
        }
    }
    Ok(list)
}

/// The changed links of graphs with the same nodes. `partners` are those of the old links, `origins` those of the new.
pub(crate) fn changed_links(
    alloc: Global,
    old: &Graph,
    new: &Graph,
    partners: &[Option<LinkNo>],
    origins: &[Option<LinkNo>],
) -> Result<Vec<Change>, AllocError>
    requires same { HaveSameNodes old.now new.now }
    requires partners { ArePartners old.now new.now partners.now }
    requires origins { ArePartners new.now old.now origins.now }
    ensures { IfOk result (λ list. AreChangedLinks old.now new.now list.items) }
{
    let list = changed_old(alloc, old, new, partners)?;
    with_arisen(list, old, new, origins)
}
