//! The lines of what differs between the repairs of two versions.
ghost use Rattle.std.specs.Prelude.{◌≡◌, ◌++◌, All, OnOk, OnErr};
ghost use Rattle.std.specs.List.{flat_map};
ghost use Rattle.sr_repair.specs.Version.{version_of};
ghost use Rattle.sr_print.specs.Differences.{IsChangedWithin, IsDiffWithin, IsItemWithin, apart_lines, changed_lines, diff_line, diff_lines, marked_line, sorts_text};
ghost use Rattle.sr_print.specs.Printed.{BeginsWith};

use crate::line::{end, put_numbered};
use crate::repair::put_repair;
use sr_diff::{Changed, Diff};
use sr_labels::Net;
use sr_model::Item;
use std::alloc::AllocError;

/// Appends a repair as `put_repair` does, behind a word that says what became of it. After an error a part of the line may
/// stand there; what stood before stays.
#[tactic(auto, unfolding(crate::specs::Differences::marked_line, crate::specs::Repairs::item_line))]
fn put_marked(mark: &[u8], net: &Net, item: &Item<'_>, out: &mut Vec<u8>) -> Result<(), AllocError>
    requires { IsItemWithin net.now.graph item.now }
    ensures line { OnOk result (out.new.items ≡ out.old.items ++ marked_line mark.now net.now item.now) }
    ensures err { OnErr result (BeginsWith out.old.items out.new.items) }
{
    out.extend_from_slice(mark)?;
    put_repair(
        net,
        item.case,
        item.dest,
        &item.answer,
        item.labels.as_slice(),
        out,
    )
}

/// Appends each of these repairs behind the same word. After an error a part of the lines may stand there; what stood
/// before stays.
fn put_each_marked(
    mark: &[u8],
    net: &Net,
    items: &[Item<'_>],
    out: &mut Vec<u8>,
) -> Result<(), AllocError>
    requires { All (IsItemWithin net.now.graph) items.now }
    ensures line { OnOk result (out.new.items ≡ out.old.items ++ flat_map (marked_line mark.now net.now) items.now) }
    ensures err { OnErr result (BeginsWith out.old.items out.new.items) }
{
    for item in items {
        put_marked(mark, net, item, out)?;
    }
    Ok(())
}

/// Appends what a repair was, and what it is now. After an error a part of the lines may stand there; what stood before
/// stays.
#[tactic(auto, unfolding(crate::specs::Differences::changed_lines))]
fn put_changed(
    old: &Net,
    new: &Net,
    changed: &Changed<'_>,
    out: &mut Vec<u8>,
) -> Result<(), AllocError>
    requires { IsChangedWithin old.now.graph new.now.graph changed.now }
    ensures line { OnOk result (out.new.items ≡ out.old.items ++ changed_lines old.now new.now changed.now) }
    ensures err { OnErr result (BeginsWith out.old.items out.new.items) }
{
    put_marked(b"was ", old, &changed.before, out)?;
    put_marked(b"now ", new, &changed.after, out)
}

/// Appends this of each of these repairs. After an error a part of the lines may stand there; what stood before stays.
fn put_each_changed(
    old: &Net,
    new: &Net,
    changed: &[Changed<'_>],
    out: &mut Vec<u8>,
) -> Result<(), AllocError>
    requires { All (IsChangedWithin old.now.graph new.now.graph) changed.now }
    ensures line { OnOk result (out.new.items ≡ out.old.items ++ flat_map (changed_lines old.now new.now) changed.now) }
    ensures err { OnErr result (BeginsWith out.old.items out.new.items) }
{
    for one in changed {
        put_changed(old, new, one, out)?;
    }
    Ok(())
}

/// Appends ` lost L gained G other O same S`. After an error a part of it may stand there; what stood before stays.
fn put_sorts(diff: &Diff<'_>, out: &mut Vec<u8>) -> Result<(), AllocError>
    ensures line { OnOk result (out.new.items ≡ out.old.items ++ sorts_text diff.now) }
    ensures err { OnErr result (BeginsWith out.old.items out.new.items) }
{
    put_numbered(b" lost ", diff.lost.as_slice().len() as u64, out)?;
    put_numbered(b" gained ", diff.gained.as_slice().len() as u64, out)?;
    put_numbered(b" other ", diff.changed.as_slice().len() as u64, out)?;
    put_numbered(b" same ", u64::from(diff.same), out)
}

/// Appends `diff version V lost L gained G other O same S`. After an error a part of the line may stand there; what stood
/// before stays.
fn put_diff_counts(version: u32, diff: &Diff<'_>, out: &mut Vec<u8>) -> Result<(), AllocError>
    ensures line { OnOk result (out.new.items ≡ out.old.items ++ diff_line version diff.now) }
    ensures err { OnErr result (BeginsWith out.old.items out.new.items) }
{
    put_numbered(b"diff version ", u64::from(version), out)?;
    put_sorts(diff, out)?;
    end(out)
}

/// Appends `lost REPAIR` for each repair that the old net alone has, and `gained REPAIR` for each that the new one alone
/// has. After an error a part of the lines may stand there; what stood before stays.
fn put_apart(old: &Net, new: &Net, diff: &Diff<'_>, out: &mut Vec<u8>) -> Result<(), AllocError>
    requires { IsDiffWithin old.now.graph new.now.graph diff.now }
    ensures line { OnOk result (out.new.items ≡ out.old.items ++ apart_lines old.now new.now diff.now) }
    ensures err { OnErr result (BeginsWith out.old.items out.new.items) }
{
    put_each_marked(b"lost ", old, diff.lost.as_slice(), out)?;
    put_each_marked(b"gained ", new, diff.gained.as_slice(), out)
}

/// Appends `lost REPAIR` for each repair that the old net alone has, in its names; `gained REPAIR` for each that the new net
/// alone has; `was REPAIR` and `now REPAIR` for each that is another one in the new net; and
/// `diff version V lost L gained G other O same S`, V being the number of the old net's version. Each REPAIR is as
/// `put_repair` appends it. After an error a part of the lines may stand there; what stood before stays.
pub fn put_diff(
    version: u32,
    old: &Net,
    new: &Net,
    diff: &Diff<'_>,
    out: &mut Vec<u8>,
) -> Result<(), AllocError>
    requires { IsDiffWithin old.now.graph new.now.graph diff.now }
    ensures line { OnOk result
        (out.new.items ≡ out.old.items ++ diff_lines (version_of version old.now) new.now diff.now) }
    ensures err { OnErr result (BeginsWith out.old.items out.new.items) }
{
    put_apart(old, new, diff, out)?;
    put_each_changed(old, new, diff.changed.as_slice(), out)?;
    put_diff_counts(version, diff, out)
}
