//! The other adjacency label of a link, which may be protected.
ghost use Rattle.std.specs.Prelude.{ℕ, ◌<◌, IfOk, MatchOption};
ghost use Rattle.sr_model.specs.Graph.{link_count};
ghost use Rattle.sr_domain.specs.Net.{IsNetOf};
ghost use Rattle.sr_adjprot.specs.Backup.{GivesBackup, IsBackup, IsBackupLabel};
ghost use Rattle.sr_adjprot.specs.Protected.{IsLeastOf};

use crate::answer::BackupLabel;
use crate::protected::list_beside;
use crate::replaced::replaced;
use sr_labels::Net;
use sr_lsdb::Facts;
use sr_model::LinkNo;
use sr_repair::Version;
use std::alloc::{AllocError, Global};

/// The least of these labels.
fn least_of(labels: &[u32]) -> Option<u32>
    ensures { IsLeastOf labels.now result }
{
    let mut found = None;
    for label in labels {
        found = match found {
            None => Some(*label),
            Some(other) => Some(other.min(*label)),
        };
    }
    found
}

/// The label with the flag B of a link that has one with the flag clear too, other than its label in the net.
fn backup_label(
    alloc: Global,
    facts: &Facts,
    net: &Net,
    link: LinkNo,
) -> Result<Option<u32>, AllocError>
    requires { link.0 < link_count net.now.graph }
    ensures { IfOk result (λ found. MatchOption found
        ((t : ℕ) → GivesBackup facts.now net.now link.0 t → ⊥)
        (IsBackupLabel facts.now net.now link.0)) }
{
    let own = net.adj(link);
    let labels = list_beside(alloc, facts, &net.graph().link(link).key, own)?;
    Ok(least_of(&labels))
}

/// The label with the flag B of a link whose label in the net is one without it (RFC 8667, 2.2.1), and what the router
/// at the link's beginning does with a packet under it when the link fails. Of several labels with the flag the least
/// is meant (this project's rule). None exactly where the link doesn't have both, or that label is the net's own for it
/// too: a node may announce one label with the flag set and with it clear. The version is that of the facts.
pub fn backup<'a>(
    alloc: Global,
    facts: &Facts,
    version: &'a Version,
    link: LinkNo,
) -> Result<Option<BackupLabel<'a>>, AllocError>
    requires net { IsNetOf facts.now version.now.net }
    requires link { link.0 < link_count version.now.net.graph }
    ensures { IfOk result (IsBackup facts.now version.now.net link) }
{
    match backup_label(alloc, facts, version.net(), link)? {
        Some(label) => Ok(Some(BackupLabel {
            label,
            answer: replaced(alloc, version, link)?,
        })),
        None => Ok(None),
    }
}
