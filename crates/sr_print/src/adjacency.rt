//! The line on packets under adjacency labels.
ghost use Rattle.std.specs.Prelude.{◌≡◌, ◌<◌, ◌++◌, IfSome, OnOk, OnErr, codes};
ghost use Rattle.sr_model.specs.Graph.{link_count};
ghost use Rattle.sr_print.specs.Adjacencies.{IsActiveWithin, active_text, adjbackup_line, adjrepair_line, backup_text};
ghost use Rattle.sr_print.specs.Printed.{BeginsWith, numbered};

use crate::line::{end, put_numbered};
use crate::link::put_link;
use crate::repair::{put_list, put_uncovered};
use sr_adjprot::{AdjAnswer, BackupLabel};
use sr_labels::Net;
use sr_model::LinkNo;
use std::alloc::AllocError;

/// Appends ` steer labels X cost C`. After an error a part of it may stand there; what stood before stays.
fn put_steer(label: u32, cost: u64, out: &mut Vec<u8>) -> Result<(), AllocError>
    ensures line { OnOk result (out.new.items
        ≡ out.old.items ++ numbered (codes " steer labels ") label ++ numbered (codes " cost ") cost) }
    ensures err { OnErr result (BeginsWith out.old.items out.new.items) }
{
    put_numbered(b" steer labels ", u64::from(label), out)?;
    put_numbered(b" cost ", cost, out)
}

/// Appends what is done with a packet under the link's label.
/// After an error a part of it may stand there; what stood before stays.
fn put_active(net: &Net, answer: &AdjAnswer, out: &mut Vec<u8>) -> Result<(), AllocError>
    requires { IsActiveWithin net.now.graph answer.now }
    ensures line { OnOk result (out.new.items ≡ out.old.items ++ active_text net.now answer.now) }
    ensures err { OnErr result (BeginsWith out.old.items out.new.items) }
{
    match answer {
        AdjAnswer::Unprotected => out.extend_from_slice(b" unprotected"),
        AdjAnswer::NoIndex => out.extend_from_slice(b" noindex"),
        AdjAnswer::Steer { label, cost } => put_steer(*label, *cost, out),
        AdjAnswer::Repair { list, labels } => put_list(net, list, labels.as_slice(), out),
        AdjAnswer::Uncovered(answer) => put_uncovered(answer, out),
    }
}

/// Appends ` label X` and what is done with a packet under it, or ` none`.
/// After an error a part of it may stand there; what stood before stays.
fn put_backup(net: &Net, found: &Option<BackupLabel>, out: &mut Vec<u8>) -> Result<(), AllocError>
    requires { IfSome found.now (λ backup. IsActiveWithin net.now.graph backup.answer) }
    ensures line { OnOk result (out.new.items ≡ out.old.items ++ backup_text net.now found.now) }
    ensures err { OnErr result (BeginsWith out.old.items out.new.items) }
{
    match found {
        None => out.extend_from_slice(b" none"),
        Some(backup) => {
            put_numbered(b" label ", u64::from(backup.label), out)?;
            put_active(net, &backup.answer, out)
        }
    }
}

/// Appends `adjrepair LINK unprotected`, `.. noindex`, `.. steer labels X cost C`,
/// `.. via LINK segments SEGMENTS labels LABELS cost C`, or `.. uncovered nopath`, `.. uncovered nolist` or
/// `.. uncovered toodeep K`: what the router at the beginning of the link does with a packet under the link's adjacency
/// label when the link fails.
/// After an error a part of the line may stand there; what stood before stays.
pub fn put_adjrepair(
    net: &Net,
    link: LinkNo,
    answer: &AdjAnswer,
    out: &mut Vec<u8>,
) -> Result<(), AllocError>
    requires link { link.0 < link_count net.now.graph }
    requires answer { IsActiveWithin net.now.graph answer.now }
    ensures line { OnOk result (out.new.items ≡ out.old.items ++ adjrepair_line net.now link answer.now) }
    ensures err { OnErr result (BeginsWith out.old.items out.new.items) }
{
    out.extend_from_slice(b"adjrepair")?;
    put_link(net, link, out)?;
    put_active(net, answer, out)?;
    end(out)
}

/// Appends `adjbackup LINK none`, or `adjbackup LINK label X` and what is done with a packet under that label when the
/// link fails, as of `adjrepair`: another announced adjacency label of the link, which may be protected.
/// After an error a part of the line may stand there; what stood before stays.
pub fn put_adjbackup(
    net: &Net,
    link: LinkNo,
    found: &Option<BackupLabel>,
    out: &mut Vec<u8>,
) -> Result<(), AllocError>
    requires link { link.0 < link_count net.now.graph }
    requires answer { IfSome found.now (λ backup. IsActiveWithin net.now.graph backup.answer) }
    ensures line { OnOk result (out.new.items ≡ out.old.items ++ adjbackup_line net.now link found.now) }
    ensures err { OnErr result (BeginsWith out.old.items out.new.items) }
{
    out.extend_from_slice(b"adjbackup")?;
    put_link(net, link, out)?;
    put_backup(net, found, out)?;
    end(out)
}
