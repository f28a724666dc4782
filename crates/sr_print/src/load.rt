//! The lines of a load.
ghost use Rattle.std.specs.Prelude.{◌≡◌, ◌<◌, ◌++◌, length, codes, sum, OnOk, OnErr};
ghost use Rattle.sr_model.specs.Graph.{link_count};
ghost use Rattle.sr_print.specs.Loads.{load_line, load_lines, load_totals_line, loads_text};
ghost use Rattle.sr_print.specs.Printed.{BeginsWith, numbered};

use crate::line::{end, put_numbered};
use crate::link::put_link;
use crate::number::{put_value, put_wide};
use sr_labels::Net;
use sr_loads::Loads;
use sr_model::LinkNo;
use std::alloc::AllocError;

/// The sum of the counts. It fits: there are fewer than 2^64 of them, and each is below 2^64.
fn crossings(counts: &[u64]) -> u128
    ensures { result ≡ sum counts.now }
{
    let mut sum = 0;
    for count in counts {
        sum += u128::from(*count);
    }
    sum
}

/// Appends `load LINK COUNT`. After an error a part of the line may stand there; what stood before stays.
#[tactic(auto, unfolding(crate::specs::Loads::load_line))]
fn put_load(net: &Net, link: LinkNo, count: u64, out: &mut Vec<u8>) -> Result<(), AllocError>
    requires { link.0 < link_count net.now.graph }
    ensures line { OnOk result (out.new.items ≡ out.old.items ++ load_line net.now link.0 count) }
    ensures err { OnErr result (BeginsWith out.old.items out.new.items) }
{
    out.extend_from_slice(b"load")?;
    put_link(net, link, out)?;
    put_value(count, out)?;
    end(out)
}

/// Appends a line for each link in order, with its count.
/// After an error a part of the lines may stand there; what stood before stays.
fn put_each_load(net: &Net, counts: &[u64], out: &mut Vec<u8>) -> Result<(), AllocError>
    requires { length counts.now ≡ link_count net.now.graph }
    ensures line { OnOk result
        (out.new.items ≡ out.old.items ++ load_lines net.now counts.now (link_count net.now.graph)) }
    ensures err { OnErr result (BeginsWith out.old.items out.new.items) }
{
    for link in 0..net.graph().link_count() {
        put_load(net, LinkNo(link as u16), counts[link as usize], out)?;
    }
    Ok(())
}

/// Appends ` crossings C`. After an error a part of it may stand there; what stood before stays.
fn put_crossings(crossings: u128, out: &mut Vec<u8>) -> Result<(), AllocError>
    ensures line { OnOk result (out.new.items ≡ out.old.items ++ numbered (codes " crossings ") crossings) }
    ensures err { OnErr result (BeginsWith out.old.items out.new.items) }
{
    out.extend_from_slice(b" crossings ")?;
    put_wide(crossings, out)
}

/// Appends `load packets P crossings C`.
/// After an error a part of the line may stand there; what stood before stays.
fn put_load_totals(packets: u64, crossings: u128, out: &mut Vec<u8>) -> Result<(), AllocError>
    ensures line { OnOk result (out.new.items ≡ out.old.items ++ load_totals_line packets crossings) }
    ensures err { OnErr result (BeginsWith out.old.items out.new.items) }
{
    put_numbered(b"load packets ", packets, out)?;
    put_crossings(crossings, out)?;
    end(out)
}

/// Appends `load LINK COUNT` for each link in order, and `load packets P crossings C`, with C the sum of the counts.
/// After an error a part of the lines may stand there; what stood before stays.
pub fn put_loads(net: &Net, loads: &Loads, out: &mut Vec<u8>) -> Result<(), AllocError>
    requires { length loads.now.counts ≡ link_count net.now.graph }
    ensures line { OnOk result (out.new.items ≡ out.old.items ++ loads_text net.now loads.now) }
    ensures err { OnErr result (BeginsWith out.old.items out.new.items) }
{
    let counts = loads.counts();
    put_each_load(net, counts, out)?;
    put_load_totals(loads.packets(), crossings(counts), out)
}
