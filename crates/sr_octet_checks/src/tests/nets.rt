//! Nets of two routers.

use super::fixtures::{PDU, accept, changed, id, key, sent};
use sr_domain::{RiskName, net_of, unnumbered_name};
use sr_labels::Net;
use sr_lsdb::{Announcement, Editor};
use sr_model::{Ident, LinkKey, LinkNo};
use sr_subtlv::LinkIds;
use std::alloc::Global;
use std::process::Abort;
use std::test::Fail;

/// The net of the facts that two PDUs announce, which an editor accepts.
fn net_in(alloc: Global, editor: &mut Editor, first: &[u8], second: &[u8]) -> Result<Net, Fail> {
    accept(alloc, editor, first, second)?;
    Ok(net_of(alloc, editor.accepted())?)
}

/// The net of the facts that two PDUs announce.
fn net(alloc: Global, first: &[u8], second: &[u8]) -> Result<Net, Fail> {
    let mut editor = Editor::new(alloc);
    let net = net_in(alloc, &mut editor, first, second);
    drop(editor);
    net
}

/// The net of two routers that announce each other.
fn plain(alloc: Global) -> Result<Net, Fail> {
    let other = changed(alloc, &[(17, 2), (52, 1)])?;
    net(alloc, &PDU, &other)
}

/// There are two routers, and two links.
fn check_counts(rt: &impl Abort, net: &Net) {
    let graph = net.graph();
    assert_eq!(rt; graph.node_count(), 2);
    assert_eq!(rt; graph.link_count(), 2);
}

/// One link leads from router 1 to router 2.
fn check_names(rt: &impl Abort, net: &Net) {
    assert!(rt; net.named(id(1), id(2), 1) == Some(key(1, 2, Ident::None)));
    assert!(rt; net.named(id(1), id(2), 2) == None);
}

#[test]
fn routers_that_announce_each_other_make_a_net(rt: HostRuntime) -> Result<(), Fail> {
    let net = plain(rt.alloc())?;
    check_counts(&rt, &net);
    check_names(&rt, &net);
    drop(net);
    Ok(())
}

/// The TLVs of router 1: its labels, a link to router 2 between the addresses 10 and 20, one to
/// router 3 without addresses, and the first one's group 9.
const NUMBERED: [u8; 78] = [
    0xf2, 0x10, 0x0a, 0x00, 0x00, 0x01, 0x00, // TLV 242
    0x02, 0x09, 0x80, 0x00, 0x1f, 0x40, 0x01, 0x03, 0x00, 0x3e, 0x80, // its sub-TLV 2
    0x16, 0x17, 0x00, 0x00, 0x00, 0x00, 0x00, 0x02, 0x00, 0x00, 0x00, 0x0a, 0x0c, // TLV 22
    0x06, 0x04, 0x00, 0x00, 0x00, 0x0a, 0x08, 0x04, 0x00, 0x00, 0x00, 0x14, // its addresses
    0x16, 0x0b, 0x00, 0x00, 0x00, 0x00, 0x00, 0x03, 0x00, 0x00, 0x00, 0x0a, 0x00, // TLV 22
    0x8a, 0x14, 0x00, 0x00, 0x00, 0x00, 0x00, 0x02, 0x00, 0x01, // TLV 138
    0x00, 0x00, 0x00, 0x0a, 0x00, 0x00, 0x00, 0x14, 0x00, 0x00, 0x00, 0x09, // and its group
];

/// The TLVs of router 2: its labels, links to router 1 between the addresses 21 and 11, and 20 and
/// 10, and the second one's group 7.
const MIRRORED: [u8; 90] = [
    0xf2, 0x10, 0x0a, 0x00, 0x00, 0x02, 0x00, // TLV 242
    0x02, 0x09, 0x80, 0x00, 0x1f, 0x40, 0x01, 0x03, 0x00, 0x3e, 0x80, // its sub-TLV 2
    0x16, 0x17, 0x00, 0x00, 0x00, 0x00, 0x00, 0x01, 0x00, 0x00, 0x00, 0x0a, 0x0c, // TLV 22
    0x06, 0x04, 0x00, 0x00, 0x00, 0x15, 0x08, 0x04, 0x00, 0x00, 0x00, 0x0b, // its addresses
    0x16, 0x17, 0x00, 0x00, 0x00, 0x00, 0x00, 0x01, 0x00, 0x00, 0x00, 0x0a, 0x0c, // TLV 22
    0x06, 0x04, 0x00, 0x00, 0x00, 0x14, 0x08, 0x04, 0x00, 0x00, 0x00, 0x0a, // its addresses
    0x8a, 0x14, 0x00, 0x00, 0x00, 0x00, 0x00, 0x01, 0x00, 0x01, // TLV 138
    0x00, 0x00, 0x00, 0x14, 0x00, 0x00, 0x00, 0x0a, 0x00, 0x00, 0x00, 0x07, // and its group
];

/// The net of two routers with these TLVs.
fn numbered(alloc: Global) -> Result<Net, Fail> {
    let first = sent(alloc, 1, &NUMBERED)?;
    let second = sent(alloc, 2, &MIRRORED)?;
    net(alloc, &first, &second)
}

/// The two links have mirrored identities, and the metric 10.
fn check_links(rt: &impl Abort, net: &Net) {
    let graph = net.graph();
    assert_eq!(rt; graph.link_count(), 2);
    let (there, back) = (graph.link(LinkNo(0)), graph.link(LinkNo(1)));
    assert!(rt; there.key == key(1, 2, Ident::Addr(10, 20)));
    assert!(rt; back.key == key(2, 1, Ident::Addr(20, 10)));
    assert_eq!(rt; (there.metric, back.metric), (10, 10));
}

#[test]
fn a_link_wants_the_mirrored_identity_from_its_other_end(rt: HostRuntime) -> Result<(), Fail> {
    let net = numbered(rt.alloc())?;
    check_links(&rt, &net);
    drop(net);
    Ok(())
}

/// The link has the groups 7 and 9.
fn check_groups(rt: &impl Abort, net: &Net, link: &LinkKey, name: &str) {
    let graph = net.graph();
    match graph.find(link) {
        Some(number) => assert_eq!(rt; graph.groups(number), [7, 9].as_slice(), "{name}"),
        None => assert!(rt; false, "the link {name} isn't in use"),
    }
}

#[test]
fn a_pair_has_the_groups_that_either_end_gives_it(rt: HostRuntime) -> Result<(), Fail> {
    let net = numbered(rt.alloc())?;
    let there = key(1, 2, Ident::Addr(10, 20));
    check_groups(&rt, &net, &there, "there");
    check_groups(&rt, &net, &there.mirrored(), "back");
    drop(net);
    Ok(())
}

#[test]
fn a_remote_identifier_of_zero_still_names_the_link_in_shared_risk_parts(rt: HostRuntime) {
    let name = unnumbered_name(&Announcement {
        key: key(1, 2, Ident::None),
        metric: 10,
        label: None,
        ids: Some(LinkIds {
            local: 5,
            remote: 0,
        }),
    });
    assert!(rt;
        name == Some(RiskName {
            from: id(1),
            to: id(2),
            numbered: false,
            local: 5,
            remote: 0
        })
    );
}
