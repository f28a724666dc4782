//! What a link-state PDU announces of its node's links.
ghost use Rattle.std.specs.Prelude.{◌≡◌, IfOk};
ghost use Rattle.sr_lsp.specs.Parts.{part_of};
ghost use Rattle.sr_lsdb.specs.Announcement.{ident_by_ids, ident_of, adj_sid_label, adj_label, least, adj_sid_labels, lesser, announced_by, announcements_in};

use sr_lsp::{Lsp, PartRef, Reach};
use sr_model::{Ident, LinkKey, SystemId};
use sr_subtlv::{AdjSid, LinkIds, Sid};
use sr_wire::registry::{ADJ_SID_BACKUP, ADJ_SID_IPV6, ADJ_SID_SET};
use std::alloc::{AllocError, Global};

/// A link as a node announces it: its name, the announced metric, the label of the adjacency, and the link
/// identifiers.
#[derive(Clone, Copy, Debug, PartialEq, Eq)]
pub struct Announcement {
    pub key: LinkKey,
    pub metric: u32,
    pub label: Option<u32>,
    pub ids: Option<LinkIds>,
}

/// The identity by the link identifiers alone.
fn ident_by_ids(ids: Option<LinkIds>) -> Ident
    ensures { result ≡ ident_by_ids ids }
{
    match ids {
        Some(ids) => {
            if ids.remote == 0 {
                Ident::None
            } else {
                Ident::Link(ids.local, ids.remote)
            }
        }
        None => Ident::None,
    }
}

/// The identity that the announcement has.
fn ident_of(reach: &Reach) -> Ident
    ensures { result ≡ ident_of reach.now }
{
    match reach.local {
        Some(local) => match reach.remote {
            Some(remote) => Ident::Addr(local, remote),
            None => ident_by_ids(reach.ids),
        },
        None => ident_by_ids(reach.ids),
    }
}

/// The label of an adjacency SID that may be used. One that may be protected isn't taken where there is another, so that
/// the flag B is as asked (this project's rule).
pub fn adj_sid_label(backup: bool, sid: AdjSid) -> Option<u32>
    ensures { result ≡ adj_sid_label backup sid }
{
    match sid.sid {
        Sid::Index(_) => None,
        Sid::Label(label) => {
            let wanted = if backup { ADJ_SID_BACKUP } else { 0 };
            if sid.flags & (ADJ_SID_IPV6 | ADJ_SID_SET) == 0
                && sid.flags & ADJ_SID_BACKUP == wanted
            {
                Some(label)
            } else {
                None
            }
        }
    }
}

/// The lesser of the label that was found and this one.
fn lesser(found: Option<u32>, label: u32) -> Option<u32>
    ensures { result ≡ lesser found label }
{
    match found {
        None => Some(label),
        Some(other) => Some(other.min(label)),
    }
}

/// The least label whose flag B is as asked.
pub fn least_label(backup: bool, sids: &[AdjSid]) -> Option<u32>
    ensures { result ≡ least (adj_sid_labels backup sids.now) }
{
    let mut found = None;
    for sid in sids {
        match adj_sid_label(backup, *sid) {
            Some(label) => found = lesser(found, label),
            None => {}
        }
    }
    found
}

/// The label of the adjacency: the least without the flag B, and where there is none the least with it.
fn adj_label(sids: &[AdjSid]) -> Option<u32>
    ensures { result ≡ adj_label sids.now }
{
    match least_label(false, sids) {
        Some(label) => Some(label),
        None => least_label(true, sids),
    }
}

/// The announcement that the part is, if it counts.
pub fn announced_by(node: SystemId, part: PartRef<'_>) -> Option<Announcement>
    ensures { result ≡ announced_by node (part_of part.entry) }
{
    match part {
        PartRef::Reach(reach) => {
            if reach.pseudonode == 0 && reach.neighbour != node {
                Some(Announcement {
                    key: LinkKey {
                        from: node,
                        to: reach.neighbour,
                        ident: ident_of(reach),
                    },
                    metric: reach.metric,
                    label: adj_label(reach.adj.as_slice()),
                    ids: reach.ids,
                })
            } else {
                None
            }
        }
        _ => None,
    }
}

/// What the PDU announces, in order of place.
pub(crate) fn announcements_in(alloc: Global, lsp: &Lsp) -> Result<Vec<Announcement>, AllocError>
    ensures { IfOk result (λ v. v.items ≡ announcements_in lsp.now) }
{
    let mut out = Vec::new(alloc);
    for at in 0..lsp.parts.count() {
        match announced_by(lsp.id.system, lsp.parts.at(at)) {
            Some(announcement) => out.push(announcement)?,
            None => {}
        }
    }
    Ok(out)
}
