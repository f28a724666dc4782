//! The lines of what isn't used.
ghost use Rattle.std.specs.Prelude.{◌≡◌, ◌+◌, ◌++◌, OnOk, OnErr};
ghost use Rattle.std.specs.List.{flat_map};
ghost use Rattle.sr_print.specs.Account.{aside_count_line, aside_line, lsp_name_text, matter_text, place_text, ipv4_prefix_text};
ghost use Rattle.sr_print.specs.Account.{reason_name, sid_number, sid_value_text};
ghost use Rattle.sr_print.specs.Printed.{BeginsWith, numbered};

use crate::address::{put_address, put_neighbour, put_octet};
use crate::line::{end, put_numbered};
use crate::number::put_wide;
use sr_account::{Aside, Matter, Place, Reason};
use sr_lsp::LspId;
use sr_subtlv::Sid;
use std::alloc::AllocError;

/// Appends the name of an LSP, as `0000.0000.0001.00-00`. After an error a part of it may stand there;
/// what stood before stays.
#[tactic(auto, unfolding(crate::specs::Account::lsp_name_text))]
fn put_lsp(id: &LspId, out: &mut Vec<u8>) -> Result<(), AllocError>
    ensures line { OnOk result (out.new.items ≡ out.old.items ++ lsp_name_text id.now) }
    ensures err { OnErr result (BeginsWith out.old.items out.new.items) }
{
    put_neighbour(id.system, id.pseudonode, out)?;
    out.push(b'-')?;
    put_octet(id.fragment, out)
}

/// Appends a text and a place, counted from 1. After an error a part of it may stand there;
/// what stood before stays.
fn put_place_number(text: &[u8], place: usize, out: &mut Vec<u8>) -> Result<(), AllocError>
    ensures line { OnOk result (out.new.items ≡ out.old.items ++ numbered text.now (place + 1)) }
    ensures err { OnErr result (BeginsWith out.old.items out.new.items) }
{
    out.extend_from_slice(text)?;
    put_wide(place as u128 + 1, out)
}

/// Appends ` sid S`, where a SID is told. After an error a part of it may stand there; what stood before stays.
fn put_sid_number(sid: Option<usize>, out: &mut Vec<u8>) -> Result<(), AllocError>
    ensures line { OnOk result (out.new.items ≡ out.old.items ++ sid_number sid) }
    ensures err { OnErr result (BeginsWith out.old.items out.new.items) }
{
    match sid {
        None => Ok(()),
        Some(place) => put_place_number(b" sid ", place, out),
    }
}

/// Appends `aside LSP part P`, and ` sid S` where a SID is told.
/// After an error a part of it may stand there; what stood before stays.
#[tactic(auto, unfolding(crate::specs::Account::place_text))]
fn put_place(place: &Place, out: &mut Vec<u8>) -> Result<(), AllocError>
    ensures line { OnOk result (out.new.items ≡ out.old.items ++ place_text place.now) }
    ensures err { OnErr result (BeginsWith out.old.items out.new.items) }
{
    out.extend_from_slice(b"aside ")?;
    put_lsp(&place.id, out)?;
    put_place_number(b" part ", place.part, out)?;
    put_sid_number(place.sid, out)
}

/// Appends ` label X` or ` index X`. After an error a part of it may stand there; what stood before stays.
fn put_sid(sid: Sid, out: &mut Vec<u8>) -> Result<(), AllocError>
    ensures line { OnOk result (out.new.items ≡ out.old.items ++ sid_value_text sid) }
    ensures err { OnErr result (BeginsWith out.old.items out.new.items) }
{
    match sid {
        Sid::Index(index) => put_numbered(b" index ", u64::from(index), out),
        Sid::Label(label) => put_numbered(b" label ", u64::from(label), out),
    }
}

/// Appends ` prefix ADDRESS/BITS`. After an error a part of it may stand there; what stood before stays.
fn put_prefix(prefix: u32, bits: u8, out: &mut Vec<u8>) -> Result<(), AllocError>
    ensures line { OnOk result (out.new.items ≡ out.old.items ++ ipv4_prefix_text prefix bits) }
    ensures err { OnErr result (BeginsWith out.old.items out.new.items) }
{
    out.extend_from_slice(b" prefix ")?;
    put_address(prefix, out)?;
    put_numbered(b"/", u64::from(bits), out)
}

/// Appends what is announced: its kind, and its name.
/// After an error a part of it may stand there; what stood before stays.
#[tactic(auto, unfolding(crate::specs::Account::matter_text))]
fn put_matter(matter: &Matter, out: &mut Vec<u8>) -> Result<(), AllocError>
    ensures line { OnOk result (out.new.items ≡ out.old.items ++ matter_text matter.now) }
    ensures err { OnErr result (BeginsWith out.old.items out.new.items) }
{
    match matter {
        Matter::Reach {
            neighbour,
            pseudonode,
        } => {
            out.extend_from_slice(b" reach ")?;
            put_neighbour(*neighbour, *pseudonode, out)
        }
        Matter::Prefix { prefix, length } => put_prefix(*prefix, *length, out),
        Matter::Name => out.extend_from_slice(b" name"),
        Matter::Risk {
            neighbour,
            pseudonode,
        } => {
            out.extend_from_slice(b" risk ")?;
            put_neighbour(*neighbour, *pseudonode, out)
        }
        Matter::Capability { router } => {
            out.extend_from_slice(b" capability ")?;
            put_address(*router, out)
        }
        Matter::AdjSid(sid) => {
            out.extend_from_slice(b" adjsid")?;
            put_sid(*sid, out)
        }
        Matter::PrefixSid(sid) => {
            out.extend_from_slice(b" prefixsid")?;
            put_sid(*sid, out)
        }
    }
}

/// Why something isn't used, in a word.
fn name_of(reason: Reason) -> &'static [u8]
    ensures { result.now ≡ reason_name reason }
{
    match reason {
        Reason::Lan => b"lan",
        Reason::Absent => b"absent",
        Reason::Pseudonode => b"pseudonode",
        Reason::Itself => b"self",
        Reason::NeighbourAbsent => b"neighbour",
        Reason::OneWay => b"oneway",
        Reason::Identity => b"identity",
        Reason::MaximumMetric => b"maxmetric",
        Reason::Down => b"down",
        Reason::NotHost => b"length",
        Reason::NoSid => b"nosid",
        Reason::Silent => b"silent",
        Reason::Algorithm => b"algorithm",
        Reason::WrongForm => b"form",
        Reason::Flags => b"flags",
        Reason::Backup => b"backup",
        Reason::NotLeast => b"notleast",
        Reason::NotFirst => b"notfirst",
        Reason::NoneUsed => b"noneused",
        Reason::NoGroups => b"nogroups",
        Reason::NoLink => b"nolink",
        Reason::LinkUnused => b"unused",
        Reason::HostName => b"hostname",
    }
}

/// Appends `aside LSP part P MATTER REASON`, with ` sid S` where a SID is told.
/// After an error a part of the line may stand there; what stood before stays.
#[tactic(auto, unfolding(crate::specs::Account::aside_line))]
fn put_aside(aside: &Aside, out: &mut Vec<u8>) -> Result<(), AllocError>
    ensures line { OnOk result (out.new.items ≡ out.old.items ++ aside_line aside.now) }
    ensures err { OnErr result (BeginsWith out.old.items out.new.items) }
{
    put_place(&aside.place, out)?;
    put_matter(&aside.matter, out)?;
    out.push(b' ')?;
    out.extend_from_slice(name_of(aside.reason))?;
    end(out)
}

/// Appends a line for each of these, in order: `aside LSP part P reach SYSTEM REASON`, `.. prefix ADDRESS/BITS REASON`,
/// `.. name REASON`, `.. risk SYSTEM REASON` or `.. capability ADDRESS REASON` for a part of an LSP, and
/// `aside LSP part P sid S adjsid label X REASON`, `.. index X REASON`, `.. prefixsid ..` for a SID of a part. Parts and
/// SIDs are counted from 1, and pseudonodes and fragments are told in hexadecimal digits.
/// After an error a part of the lines may stand there; what stood before stays.
pub fn put_asides(asides: &[Aside], out: &mut Vec<u8>) -> Result<(), AllocError>
    ensures line { OnOk result (out.new.items ≡ out.old.items ++ flat_map aside_line asides.now) }
    ensures err { OnErr result (BeginsWith out.old.items out.new.items) }
{
    for aside in asides {
        put_aside(aside, out)?;
    }
    Ok(())
}

/// Appends `asides K`, behind that many lines. After an error a part of the line may stand there; what stood before
/// stays.
pub fn put_aside_count(count: u64, out: &mut Vec<u8>) -> Result<(), AllocError>
    ensures line { OnOk result (out.new.items ≡ out.old.items ++ aside_count_line count) }
    ensures err { OnErr result (BeginsWith out.old.items out.new.items) }
{
    put_numbered(b"asides ", count, out)?;
    end(out)
}
