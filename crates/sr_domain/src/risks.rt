//! What the nodes say of the risks that their links share.
ghost use Rattle.std.specs.Prelude.{◌≡◌, ℕ, ◌++◌, map, IfOk, OnOk};
ghost use Rattle.sr_lsp.specs.Parts.{part_of};
ghost use Rattle.sr_domain.specs.Groups.{notes_by, notes_from, notes_of, numbered_name, unnumbered_name};

use crate::announced::is_present;
use sr_lsdb::{Announcement, Facts};
use sr_lsp::{PartRef, Parts};
use sr_model::{Ident, MOST_LINKS, SystemId};
use std::alloc::{AllocError, Global};

/// A link as a node names it where it speaks of risks: by addresses where it is numbered, else by link identifiers
/// (RFC 5307, 1.4).
#[derive(Clone, Copy, Debug, PartialEq, Eq, PartialOrd, Ord)]
pub struct RiskName {
    pub from: SystemId,
    pub to: SystemId,
    pub numbered: bool,
    pub local: u32,
    pub remote: u32,
}

/// A node's word that a link of its own is in a shared-risk group; in order of names, and then of groups.
#[derive(Clone, Copy, Debug, PartialEq, Eq, PartialOrd, Ord)]
pub struct RiskNote {
    pub name: RiskName,
    pub group: u32,
}

/// Appends a note for each group.
fn add_groups(name: &RiskName, groups: &[u32], out: &mut Vec<RiskNote>) -> Result<(), AllocError>
    ensures { OnOk result (out.new.items ≡ out.old.items ++
        map (λ (g : ℕ). record { name = name.now; group = g }) groups.now) }
{
    for group in groups {
        out.push(RiskNote {
            name: *name,
            group: *group,
        })?;
    }
    Ok(())
}

/// Appends what the part says.
fn add_notes_by(
    node: SystemId,
    part: PartRef<'_>,
    out: &mut Vec<RiskNote>,
) -> Result<(), AllocError>
    ensures { OnOk result (out.new.items ≡ out.old.items ++ notes_by node (part_of part.entry)) }
{
    match part {
        PartRef::Risk(risk) => {
            if risk.pseudonode == 0 {
                let name = RiskName {
                    from: node,
                    to: risk.neighbour,
                    numbered: risk.numbered,
                    local: risk.local,
                    remote: risk.remote,
                };
                add_groups(&name, risk.groups.as_slice(), out)
            } else {
                Ok(())
            }
        }
        _ => Ok(()),
    }
}

/// Appends what the parts of an LSP say.
fn add_notes(node: SystemId, parts: &Parts, out: &mut Vec<RiskNote>) -> Result<(), AllocError>
    ensures { OnOk result (out.new.items ≡ out.old.items ++ notes_from node parts.now) }
{
    for at in 0..parts.count() {
        add_notes_by(node, parts.at(at), out)?;
    }
    Ok(())
}

/// What all present nodes say, in order of LSP id and place.
pub(crate) fn notes(alloc: Global, facts: &Facts) -> Result<Vec<RiskNote>, AllocError>
    ensures { IfOk result (λ v. v.items ≡ notes_of facts.now) }
{
    // Room for one note a link, so that it seldom grows.
    let mut out = Vec::with_capacity(alloc, MOST_LINKS)?;
    let database = facts.database.as_map();
    for (id, stored) in database {
        if id.pseudonode == 0 && is_present(facts, id.system) {
            match &stored.live {
                Some(shared) => add_notes(id.system, &shared.lsp().parts, &mut out)?,
                None => {}
            }
        }
    }
    Ok(out)
}

/// The name of the announcement by its addresses.
pub fn numbered_name(announcement: &Announcement) -> Option<RiskName>
    ensures { result ≡ numbered_name announcement.now }
{
    match announcement.key.ident {
        Ident::Addr(local, remote) => Some(RiskName {
            from: announcement.key.from,
            to: announcement.key.to,
            numbered: true,
            local,
            remote,
        }),
        Ident::None => None,
        Ident::Link(_, _) => None,
    }
}

/// The name of the announcement by its link identifiers.
pub fn unnumbered_name(announcement: &Announcement) -> Option<RiskName>
    ensures { result ≡ unnumbered_name announcement.now }
{
    match announcement.ids {
        Some(ids) => Some(RiskName {
            from: announcement.key.from,
            to: announcement.key.to,
            numbered: false,
            local: ids.local,
            remote: ids.remote,
        }),
        None => None,
    }
}
