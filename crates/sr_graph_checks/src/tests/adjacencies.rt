//! A ring of four nodes whose link from node 1 to node 2 has two adjacency labels.
ghost use Rattle.std.specs.Prelude.{IfOk};
ghost use Rattle.sr_domain.specs.Net.{IsNetOf};
ghost use Rattle.sr_lsdb.specs.Facts.{AreInRange};
ghost use Rattle.sr_lsp.specs.InRange.{FitsLsp};

use super::fixtures::version_of;
use sr_adjprot::{AdjAnswer, BackupLabel, backup};
use sr_domain::net_of;
use sr_labels::Net;
use sr_lsdb::{Editor, Facts};
use sr_lsp::{Lsp, ReadFault, read_lsp};
use sr_model::{LinkNo, NodeNo, Segment};
use std::alloc::{AllocError, Global};
use std::test::Fail;
use std::thread::Threads;

/// What node 1 announces: the labels from 16000 on, the index 1, and links of metric 1 to nodes 2
/// and 4. The first has the label 15001 with the flag B clear, and 15002 with it set, which ends at
/// octet 91.
const NODE_1: [u8; 105] = [
    0x83, 0x1b, 0x01, 0x00, 0x14, 0x01, 0x00, 0x00, // the fixed octets
    0x00, 0x69, 0x04, 0xb0, // PDU length and lifetime
    0x00, 0x00, 0x00, 0x00, 0x00, 0x01, 0x00, 0x00, // system, pseudonode, fragment
    0x00, 0x00, 0x00, 0x01, 0x00, 0x00, 0x03, // sequence number, checksum, flags
    0xf2, 0x10, 0x0a, 0x00, 0x00, 0x01, 0x00, // TLV 242
    0x02, 0x09, 0x80, 0x00, 0x1f, 0x40, 0x01, 0x03, 0x00, 0x3e, 0x80, // its sub-TLV 2
    0x87, 0x12, 0x00, 0x00, 0x00, 0x00, 0x60, 0x0a, 0x00, 0x00, 0x01, // TLV 135
    0x08, 0x03, 0x06, 0x40, 0x00, 0x00, 0x00, 0x00, 0x01, // its sub-TLV 3
    0x16, 0x19, 0x00, 0x00, 0x00, 0x00, 0x00, 0x02, 0x00, 0x00, 0x00, 0x01, // TLV 22
    0x0e, 0x1f, 0x05, 0x30, 0x00, 0x00, 0x3a, 0x99, // its sub-TLV 31
    0x1f, 0x05, 0x70, 0x00, 0x00, 0x3a, 0x9a, // and another
    0x16, 0x0b, 0x00, 0x00, 0x00, 0x00, 0x00, 0x04, 0x00, 0x00, 0x00, 0x01, 0x00, // TLV 22
];

/// What node 2 announces: the same labels, the index 2, and links of metric 1 to nodes 1 and 3.
const NODE_2: [u8; 91] = [
    0x83, 0x1b, 0x01, 0x00, 0x14, 0x01, 0x00, 0x00, // the fixed octets
    0x00, 0x5b, 0x04, 0xb0, // PDU length and lifetime
    0x00, 0x00, 0x00, 0x00, 0x00, 0x02, 0x00, 0x00, // system, pseudonode, fragment
    0x00, 0x00, 0x00, 0x01, 0x00, 0x00, 0x03, // sequence number, checksum, flags
    0xf2, 0x10, 0x0a, 0x00, 0x00, 0x02, 0x00, // TLV 242
    0x02, 0x09, 0x80, 0x00, 0x1f, 0x40, 0x01, 0x03, 0x00, 0x3e, 0x80, // its sub-TLV 2
    0x87, 0x12, 0x00, 0x00, 0x00, 0x00, 0x60, 0x0a, 0x00, 0x00, 0x02, // TLV 135
    0x08, 0x03, 0x06, 0x40, 0x00, 0x00, 0x00, 0x00, 0x02, // its sub-TLV 3
    0x16, 0x0b, 0x00, 0x00, 0x00, 0x00, 0x00, 0x01, 0x00, 0x00, 0x00, 0x01, 0x00, // TLV 22
    0x16, 0x0b, 0x00, 0x00, 0x00, 0x00, 0x00, 0x03, 0x00, 0x00, 0x00, 0x01, 0x00, // TLV 22
];

/// The PDU with other octets at some places.
fn pdu(alloc: Global, octets: &[u8], changes: &[(usize, u8)]) -> Result<Lsp, ReadFault>
    ensures { IfOk result (λ lsp. FitsLsp lsp) }
{
    let mut octets = Vec::from_slice(alloc, octets)?;
    for &(at, octet) in changes {
        if let Some(place) = octets.get_mut(at) {
            *place = octet;
        }
    }
    read_lsp(alloc, &octets)
}

/// What node 2 announces as another node says it of itself, of the node before it and of the one
/// behind it.
fn plain(alloc: Global, node: u8, before: u8, behind: u8) -> Result<Lsp, ReadFault>
    ensures { IfOk result (λ lsp. FitsLsp lsp) }
{
    pdu(
        alloc,
        &NODE_2,
        &[
            (17, node),
            (32, node),
            (55, node),
            (64, node),
            (72, before),
            (85, behind),
        ],
    )
}

/// What the node of this number announces, which stands between two others in the ring; node 1 with
/// other octets at some places.
fn announced(
    alloc: Global,
    node: u8,
    before: u8,
    behind: u8,
    changes: &[(usize, u8)],
) -> Result<Lsp, ReadFault>
    ensures { IfOk result (λ lsp. FitsLsp lsp) }
{
    if node == 1 {
        pdu(alloc, &NODE_1, changes)
    } else {
        plain(alloc, node, before, behind)
    }
}

/// The facts that the four nodes announce, accepted; node 1 with other octets at some places.
fn ring(alloc: Global, changes: &[(usize, u8)]) -> Result<Editor, Fail> {
    let mut editor = Editor::new(alloc);
    for (node, before, behind) in [(1, 4, 2), (2, 1, 3), (3, 2, 4), (4, 3, 1)] {
        editor.stage_lsp(announced(alloc, node, before, behind, changes)?)?;
    }
    editor.accept();
    Ok(editor)
}

/// Whether the label is 15002, and a packet under it goes by node 4 to node 3, and on to node 2.
fn is_by_node_4(found: &BackupLabel<'_>) -> bool {
    match &found.answer {
        AdjAnswer::Repair { list, labels } => {
            found.label == 15_002
                && list.first == LinkNo(1)
                && list.segments.list() == [Segment::Node(NodeNo(2))].as_slice()
                && list.cost == 3
                && labels.as_slice() == [16_002, 16_003].as_slice()
        }
        _ => false,
    }
}

/// The net of the facts. In order of key its first two links are 1>2 and 1>4.
fn ring_net(alloc: Global, facts: &Facts) -> Result<Net, Fail>
    requires { AreInRange facts.now }
    ensures { IfOk result (IsNetOf facts.now) }
{
    Ok(net_of(alloc, facts)?)
}

/// Whether the first link's label in the net is 15001.
fn is_labelled(net: &Net) -> bool {
    net.graph().link_count() == 8 && net.adj(LinkNo(0)) == Some(15_001)
}

/// Whether the other label of the first link of the net of the facts is 15002, with its repair, where
/// there is one.
fn is_repaired(
    rt: &(impl Threads + Sync),
    alloc: Global,
    facts: &Facts,
    net: Net,
) -> Result<Option<bool>, AllocError>
    requires { IsNetOf facts.now net }
{
    let version = version_of(rt, alloc, net)?;
    if version.net().graph().link_count() == 0 {
        return Ok(None);
    }
    match backup(alloc, facts, &version, LinkNo(0))? {
        Some(found) => Ok(Some(is_by_node_4(&found))),
        None => Ok(None),
    }
}

/// Whether the other label of the first link is told so.
fn is_told(
    rt: &(impl Threads + Sync),
    alloc: Global,
    facts: &Facts,
    told: Option<bool>,
) -> Result<bool, Fail>
    requires { AreInRange facts.now }
{
    let net = ring_net(alloc, facts)?;
    Ok(is_labelled(&net) && is_repaired(rt, alloc, facts, net)? == told)
}

/// The label with the flag is told beside the other; but where both Adj-SIDs have the label 15001
/// (0x3a99), which is the net's, there is no other.
#[test]
fn the_label_with_the_flag_is_told_beside_the_other(rt: HostRuntime) -> Result<(), Fail> {
    let alloc = rt.alloc();
    let plain = ring(alloc, &[])?;
    assert!(rt; is_told(&rt, alloc, plain.accepted(), Some(true))?);
    let twice = ring(alloc, &[(91, 0x99)])?;
    assert!(rt; is_told(&rt, alloc, twice.accepted(), None)?);
    Ok(())
}
