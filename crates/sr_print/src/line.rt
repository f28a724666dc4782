//! Short lines: what is staged, versions, distances and `show`.
ghost use Rattle.std.specs.Prelude.{◌≡◌, ◌++◌, OnOk, OnErr, codes};
ghost use Rattle.sr_print.specs.Printed.{BeginsWith, staged_line, dropped_line, version_line, dist_line};
ghost use Rattle.sr_print.specs.Printed.{show_line, net_text, settings_text, numbered, ended};

use crate::number::put_number;
use std::alloc::AllocError;

/// Appends a text and a number behind it.
/// After an error a part of them may stand there; what stood before stays.
#[inline(always)]
pub(crate) fn put_numbered(text: &[u8], number: u64, out: &mut Vec<u8>) -> Result<(), AllocError>
    ensures line { OnOk result (out.new.items ≡ out.old.items ++ numbered text.now number) }
    ensures err { OnErr result (BeginsWith out.old.items out.new.items) }
{
    out.extend_from_slice(text)?;
    put_number(number, out)
}

/// Ends a line. After an error what stood before stays.
pub(crate) fn end(out: &mut Vec<u8>) -> Result<(), AllocError>
    ensures line { OnOk result (out.new.items ≡ out.old.items ++ codes "\n") }
    ensures err { OnErr result (BeginsWith out.old.items out.new.items) }
{
    out.extend_from_slice(b"\n")
}

/// Appends `staged K`: K edits are staged.
/// After an error a part of the line may stand there; what stood before stays.
pub fn put_staged(count: u32, out: &mut Vec<u8>) -> Result<(), AllocError>
    ensures line { OnOk result (out.new.items ≡ out.old.items ++ staged_line count) }
    ensures err { OnErr result (BeginsWith out.old.items out.new.items) }
{
    put_numbered(b"staged ", u64::from(count), out)?;
    end(out)
}

/// Appends `dropped K`: K staged edits were dropped.
/// After an error a part of the line may stand there; what stood before stays.
pub fn put_dropped(count: u32, out: &mut Vec<u8>) -> Result<(), AllocError>
    ensures line { OnOk result (out.new.items ≡ out.old.items ++ dropped_line count) }
    ensures err { OnErr result (BeginsWith out.old.items out.new.items) }
{
    put_numbered(b"dropped ", u64::from(count), out)?;
    end(out)
}

/// Appends `version V nodes N links L`.
/// After an error a part of the line may stand there; what stood before stays.
pub fn put_version(number: u32, nodes: u32, links: u32, out: &mut Vec<u8>) -> Result<(), AllocError>
    ensures line { OnOk result (out.new.items ≡ out.old.items ++ version_line number nodes links) }
    ensures err { OnErr result (BeginsWith out.old.items out.new.items) }
{
    put_net(b"version ", number, nodes, links, out)?;
    end(out)
}

/// Appends a text with the number of a version, and its nodes and links.
/// After an error a part of them may stand there; what stood before stays.
fn put_net(
    text: &[u8],
    number: u32,
    nodes: u32,
    links: u32,
    out: &mut Vec<u8>,
) -> Result<(), AllocError>
    ensures line { OnOk result (out.new.items ≡ out.old.items ++ net_text text.now number nodes links) }
    ensures err { OnErr result (BeginsWith out.old.items out.new.items) }
{
    put_numbered(text, u64::from(number), out)?;
    put_numbered(b" nodes ", u64::from(nodes), out)?;
    put_numbered(b" links ", u64::from(links), out)
}

/// Appends `dist C`, or `dist none` where there is no walk.
/// After an error a part of the line may stand there; what stood before stays.
pub fn put_dist(dist: Option<u64>, out: &mut Vec<u8>) -> Result<(), AllocError>
    ensures line { OnOk result (out.new.items ≡ out.old.items ++ dist_line dist) }
    ensures err { OnErr result (BeginsWith out.old.items out.new.items) }
{
    match dist {
        None => out.extend_from_slice(b"dist none\n"),
        Some(cost) => {
            put_numbered(b"dist ", cost, out)?;
            end(out)
        }
    }
}

/// Appends `show version V nodes N links L depth K staged J`.
/// After an error a part of the line may stand there; what stood before stays.
pub fn put_show(
    version: u32,
    nodes: u32,
    links: u32,
    depth: u8,
    staged: u32,
    out: &mut Vec<u8>,
) -> Result<(), AllocError>
    ensures line { OnOk result (out.new.items ≡ out.old.items ++ show_line version nodes links depth staged) }
    ensures err { OnErr result (BeginsWith out.old.items out.new.items) }
{
    put_net(b"show version ", version, nodes, links, out)?;
    put_settings(depth, staged, out)
}

/// Appends the end of a line of `show`.
/// After an error a part of it may stand there; what stood before stays.
fn put_settings(depth: u8, staged: u32, out: &mut Vec<u8>) -> Result<(), AllocError>
    ensures line { OnOk result (out.new.items ≡ out.old.items ++ ended (settings_text depth staged)) }
    ensures err { OnErr result (BeginsWith out.old.items out.new.items) }
{
    put_numbered(b" depth ", u64::from(depth), out)?;
    put_numbered(b" staged ", u64::from(staged), out)?;
    end(out)
}
