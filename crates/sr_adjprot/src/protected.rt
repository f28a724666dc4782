//! The announcements of links in use that have labels with the flag B.
ghost use Rattle.std.specs.Prelude.{◌≡◌, ◌++◌, IfOk, OnOk};
ghost use Rattle.std.specs.List.{filter_map};
ghost use Rattle.sr_lsp.specs.Parts.{part_of};
ghost use Rattle.sr_adjprot.specs.Protected.{if_used as if_used_in, flagged_by as flagged_by_in, flagged_of, protected_of, is_own_label as is_own_in, label_beside as label_beside_in, labels_beside};

use sr_domain::{is_present, link_by};
use sr_lsdb::{Announcement, Facts, announced_by, least_label};
use sr_lsp::{PartRef, Parts};
use sr_model::{LinkKey, MOST_LINKS, SystemId};
use std::alloc::{AllocError, Global};

/// An announcement of a link in use with a label with the flag B.
#[derive(Clone, Copy, Debug)]
pub(crate) struct Flagged {
    pub(crate) announcement: Announcement,
    /// The least label with the flag.
    pub(crate) label: u32,
    /// Whether there is a label with the flag clear too. Then the link's label is one of those (this project's rule).
    pub(crate) clear: bool,
}

/// The announcement, if its link is in use.
fn if_used(facts: &Facts, announced: Option<Announcement>) -> Option<Announcement>
    ensures { result ≡ if_used_in facts.now announced }
{
    match announced {
        Some(announcement) => match link_by(facts, &announcement) {
            Some(_) => Some(announcement),
            None => None,
        },
        None => None,
    }
}

/// The announcement that the part is, if its link is in use and has a label with the flag B.
fn flagged_by(facts: &Facts, node: SystemId, part: PartRef<'_>) -> Option<Flagged>
    ensures { result ≡ flagged_by_in facts.now node (part_of part.entry) }
{
    match part {
        PartRef::Reach(reach) => {
            let sids = reach.adj.as_slice();
            let announcement = if_used(facts, announced_by(node, part))?;
            let label = least_label(true, sids)?;
            Some(Flagged {
                announcement,
                label,
                clear: least_label(false, sids).is_some(),
            })
        }
        _ => None,
    }
}

/// Appends what the parts of an LSP announce so.
fn add_flagged(
    facts: &Facts,
    node: SystemId,
    parts: &Parts,
    out: &mut Vec<Flagged>,
) -> Result<(), AllocError>
    ensures { OnOk result
        (out.new.items ≡ out.old.items ++ filter_map (flagged_by_in facts.now node) parts.now) }
{
    for at in 0..parts.count() {
        match flagged_by(facts, node, parts.at(at)) {
            Some(one) => out.push(one)?,
            None => {}
        }
    }
    Ok(())
}

/// All such announcements of present nodes, in order of LSP id and place.
fn flagged_list(alloc: Global, facts: &Facts) -> Result<Vec<Flagged>, AllocError>
    ensures { IfOk result (λ v. v.items ≡ flagged_of facts.now) }
{
    // Room for as many as there are links at most, so that it seldom grows.
    let mut out = Vec::with_capacity(alloc, MOST_LINKS)?;
    let database = facts.database.as_map();
    for (id, stored) in database {
        if id.pseudonode == 0 && is_present(facts, id.system) {
            match &stored.live {
                Some(shared) => { add_flagged(facts, id.system, &shared.lsp().parts, &mut out)? }
                None => {}
            }
        }
    }
    Ok(out)
}

/// The announcements of links in use whose labels have the flag B: such a label is taken only where there is none with the
/// flag clear (this project's rule).
pub(crate) fn protected_list(alloc: Global, facts: &Facts) -> Result<Vec<Announcement>, AllocError>
    ensures { IfOk result (λ v. v.items ≡ protected_of facts.now) }
{
    let flagged = flagged_list(alloc, facts)?;
    let mut out = Vec::with_capacity(alloc, flagged.len())?;
    for one in &flagged {
        if !one.clear {
            out.push(one.announcement)?;
        }
    }
    Ok(out)
}

/// Whether this is the link's own label.
fn is_own(own: Option<u32>, label: u32) -> bool
    ensures { result ≡ is_own_in own label }
{
    match own {
        Some(other) => other == label,
        None => false,
    }
}

/// The label with the flag B of the link of this key, if the announcement has one with the flag clear too and this
/// isn't the link's own.
fn label_beside(key: &LinkKey, own: Option<u32>, one: &Flagged) -> Option<u32>
    ensures { result ≡ label_beside_in key.now own one.now }
{
    if one.clear && one.announcement.key == *key && !is_own(own, one.label) {
        Some(one.label)
    } else {
        None
    }
}

/// The labels with the flag B of the link of this key, in the announcements in which it has one with the flag clear
/// too, but for the link's own.
pub(crate) fn list_beside(
    alloc: Global,
    facts: &Facts,
    key: &LinkKey,
    own: Option<u32>,
) -> Result<Vec<u32>, AllocError>
    ensures { IfOk result (λ v. v.items ≡ labels_beside facts.now key.now own) }
{
    let flagged = flagged_list(alloc, facts)?;
    let mut out = Vec::new(alloc);
    for one in &flagged {
        match label_beside(key, own, one) {
            Some(label) => out.push(label)?,
            None => {}
        }
    }
    Ok(out)
}
