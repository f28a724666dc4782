//! The lines on next hops and labels.
ghost use Rattle.std.specs.Prelude.{◌≡◌, ◌<◌, ◌++◌, IfSome, OnOk, OnErr};
ghost use Rattle.std.specs.List.{flat_map};
ghost use Rattle.sr_model.specs.Graph.{node_count, link_count};
ghost use Rattle.sr_fib.specs.Entries.{found_of};
ghost use Rattle.sr_print.specs.Forwarding.{AreHopLinks, IsEntryWithin, action_text, hop_text, towards_text, next_line, label_line};
ghost use Rattle.sr_print.specs.Links.{AreLinks};
ghost use Rattle.sr_print.specs.Printed.{BeginsWith, word};

use crate::line::{end, put_numbered};
use crate::link::{put_link, put_links};
use crate::number::put_node;
use sr_fib::{FibEntry, Hops};
use sr_labels::Net;
use sr_model::{LinkNo, NodeNo, Out};
use std::alloc::AllocError;

/// Appends `next LINK LINK ..`, or `next none` where there are no links.
/// After an error a part of the line may stand there; what stood before stays.
pub fn put_next(net: &Net, hops: &[LinkNo], out: &mut Vec<u8>) -> Result<(), AllocError>
    requires { AreLinks net.now.graph hops.now }
    ensures line { OnOk result (out.new.items ≡ out.old.items ++ next_line net.now hops.now) }
    ensures err { OnErr result (BeginsWith out.old.items out.new.items) }
{
    if hops.is_empty() {
        return out.extend_from_slice(b"next none\n");
    }
    out.extend_from_slice(b"next")?;
    put_links(net, hops, out)?;
    end(out)
}

/// Appends what becomes of a label when a link is crossed, as one more word or two.
/// After an error a part of it may stand there; what stood before stays.
fn put_action(action: Out, out: &mut Vec<u8>) -> Result<(), AllocError>
    ensures line { OnOk result (out.new.items ≡ out.old.items ++ word (action_text action)) }
    ensures err { OnErr result (BeginsWith out.old.items out.new.items) }
{
    match action {
        Out::Pop => out.extend_from_slice(b" pop"),
        Out::Null => out.extend_from_slice(b" null"),
        Out::Swap(label) => put_numbered(b" swap ", u64::from(label), out),
    }
}

/// Appends ` via LINK ACTION`. After an error a part of it may stand there; what stood before stays.
#[tactic(auto, unfolding(crate::specs::Forwarding::hop_text))]
fn put_hop(net: &Net, link: LinkNo, action: Out, out: &mut Vec<u8>) -> Result<(), AllocError>
    requires { link.0 < link_count net.now.graph }
    ensures line { OnOk result (out.new.items ≡ out.old.items ++ hop_text net.now (link, action)) }
    ensures err { OnErr result (BeginsWith out.old.items out.new.items) }
{
    out.extend_from_slice(b" via")?;
    put_link(net, link, out)?;
    put_action(action, out)
}

/// Appends ` via LINK ACTION` for each of the links. After an error a part of them may stand there;
/// what stood before stays.
fn put_hops(net: &Net, hops: &Hops<'_>, out: &mut Vec<u8>) -> Result<(), AllocError>
    requires { AreHopLinks net.now.graph hops.now }
    ensures line { OnOk result (out.new.items ≡ out.old.items ++ flat_map (hop_text net.now) hops.now) }
    ensures err { OnErr result (BeginsWith out.old.items out.new.items) }
{
    for place in 0..hops.len() {
        let (link, action) = hops.get(place);
        put_hop(net, link, action, out)?;
    }
    Ok(())
}

/// Appends `label node NODE via LINK ACTION via LINK ACTION ..`.
/// After an error a part of it may stand there; what stood before stays.
fn put_towards(
    net: &Net,
    node: NodeNo,
    hops: &Hops<'_>,
    out: &mut Vec<u8>,
) -> Result<(), AllocError>
    requires node { node.0 < node_count net.now.graph }
    requires links { AreHopLinks net.now.graph hops.now }
    ensures line { OnOk result (out.new.items ≡ out.old.items ++ towards_text net.now node.0 hops.now) }
    ensures err { OnErr result (BeginsWith out.old.items out.new.items) }
{
    out.extend_from_slice(b"label node")?;
    put_node(net.graph().system(node), out)?;
    put_hops(net, hops, out)
}

/// Appends what a label does at a node: `label own`, `label null`, `label adj LINK` or
/// `label node NODE via LINK ACTION ..`; `label none` where it does nothing there.
/// After an error a part of the line may stand there; what stood before stays.
pub fn put_label(
    net: &Net,
    found: Option<FibEntry<'_>>,
    out: &mut Vec<u8>,
) -> Result<(), AllocError>
    requires { IfSome (found_of found) (IsEntryWithin net.now.graph) }
    ensures line { OnOk result (out.new.items ≡ out.old.items ++ label_line net.now (found_of found.entry)) }
    ensures err { OnErr result (BeginsWith out.old.items out.new.items) }
{
    match found {
        None => return out.extend_from_slice(b"label none\n"),
        Some(FibEntry::Own) => return out.extend_from_slice(b"label own\n"),
        Some(FibEntry::Null) => return out.extend_from_slice(b"label null\n"),
        Some(FibEntry::Adj(link)) => {
            out.extend_from_slice(b"label adj")?;
            put_link(net, link, out)?;
        }
        Some(FibEntry::Node(node, hops)) => put_towards(net, node, &hops, out)?,
    }
    end(out)
}
