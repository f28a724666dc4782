//! The lines of an account: nodes, links, and what isn't used.
use super::fixtures::{expect_text, id, net_of, pairs_graph, ring_graph, ring_net};
use sr_account::{Aside, LinkSource, Matter, Place, Reason};
use sr_labels::Net;
use sr_lsp::LspId;
use sr_print::{put_aside_count, put_asides, put_links, put_nodes};
use sr_subtlv::Sid;
use std::alloc::{AllocError, Global};
use std::process::Abort;
use std::test::Fail;

/// The net of the ring whose node 4 is overloaded.
fn marked_ring(alloc: Global) -> Result<Net, Fail> {
    let mut graph = ring_graph(alloc)?;
    graph.mark(alloc, &[id(4)])?;
    net_of(alloc, graph)
}

/// The nodes of the net have these lines.
fn check_nodes(rt: &impl Abort, alloc: Global, net: &Net, text: &str) -> Result<(), Fail> {
    let mut out = Vec::new(alloc);
    put_nodes(net, &mut out)?;
    expect_text(rt, &out, text);
    Ok(())
}

#[test]
fn nodes_are_printed(rt: HostRuntime) -> Result<(), Fail> {
    let text = "node 0000.0000.0001 index 0 flags none srgb 16000-16099,900-900 msd none links 2\n\
        node 0000.0000.0002 index 1 flags P srgb 16000-16099,900-900 msd none links 2\n\
        node 0000.0000.0003 index 2 flags PE srgb 16000-16099,900-900 msd none links 2\n\
        node 0000.0000.0004 index 3 flags PEO srgb 16000-16099,900-900 msd 10 links 2\n\
        nodes 4\n";
    let net = marked_ring(rt.alloc())?;
    let checked = check_nodes(&rt, rt.alloc(), &net, text);
    drop(net);
    checked
}

/// What is announced of a link: metric 7, and these flags of the SID of its adjacency label.
fn source(flags: Option<u8>) -> LinkSource {
    LinkSource { metric: 7, flags }
}

/// The links of the net, which are announced thus, have these lines.
fn check_links(
    rt: &impl Abort,
    alloc: Global,
    net: &Net,
    sources: &[LinkSource],
    text: &str,
) -> Result<(), Fail> {
    assert_eq!(rt; net.graph().link_count() as usize, sources.len());
    let mut out = Vec::new(alloc);
    put_links(net, sources, &mut out)?;
    expect_text(rt, &out, text);
    Ok(())
}

#[test]
fn links_are_printed(rt: HostRuntime) -> Result<(), Fail> {
    let text =
        "link 0000.0000.0001>0000.0000.0002#1 back 0000.0000.0002>0000.0000.0001#1 metric 1 announced 7 label none flags VL ident none groups none\n\
        link 0000.0000.0001>0000.0000.0004#1 back 0000.0000.0004>0000.0000.0001#1 metric 1 announced 7 label none flags VL ident none groups none\n\
        link 0000.0000.0002>0000.0000.0001#1 back 0000.0000.0001>0000.0000.0002#1 metric 1 announced 7 label none flags VL ident none groups none\n\
        link 0000.0000.0002>0000.0000.0003#1 back 0000.0000.0003>0000.0000.0002#1 metric 1 announced 7 label none flags VL ident none groups none\n\
        link 0000.0000.0003>0000.0000.0002#1 back 0000.0000.0002>0000.0000.0003#1 metric 1 announced 7 label none flags VL ident none groups none\n\
        link 0000.0000.0003>0000.0000.0004#1 back 0000.0000.0004>0000.0000.0003#1 metric 1 announced 7 label none flags VL ident none groups none\n\
        link 0000.0000.0004>0000.0000.0001#1 back 0000.0000.0001>0000.0000.0004#1 metric 1 announced 7 label none flags VL ident none groups none\n\
        link 0000.0000.0004>0000.0000.0003#1 back 0000.0000.0003>0000.0000.0004#1 metric 1 announced 7 label none flags VL ident none groups none\n\
        links 8\n";
    let net = ring_net(rt.alloc())?;
    let checked = check_links(&rt, rt.alloc(), &net, &[source(Some(0x30)); 8], text);
    drop(net);
    checked
}

#[test]
fn parts_of_links_are_printed(rt: HostRuntime) -> Result<(), Fail> {
    let sources = [
        source(Some(0xfc)),
        source(Some(0x43)),
        source(Some(0x03)),
        source(None),
    ];
    let text =
        "link 0000.0000.0001>0000.0000.0002#1 back 0000.0000.0002>0000.0000.0001#1 metric 1 announced 7 label none flags FBVLSP ident addr 192.168.0.1 10.0.0.255 groups 3 700\n\
        link 0000.0000.0001>0000.0000.0002#2 back 0000.0000.0002>0000.0000.0001#2 metric 1 announced 7 label none flags B ident ids 4294967295 0 groups 3 700\n\
        link 0000.0000.0002>0000.0000.0001#1 back 0000.0000.0001>0000.0000.0002#1 metric 1 announced 7 label none flags none ident addr 10.0.0.255 192.168.0.1 groups 3 700\n\
        link 0000.0000.0002>0000.0000.0001#2 back 0000.0000.0001>0000.0000.0002#2 metric 1 announced 7 label none flags none ident ids 0 4294967295 groups 3 700\n\
        links 4\n";
    let net = net_of(rt.alloc(), pairs_graph(rt.alloc())?)?;
    let checked = check_links(&rt, rt.alloc(), &net, &sources, text);
    drop(net);
    checked
}

/// Something that isn't used, at the ninth part of an LSP, or one of the part's SIDs.
fn aside(sid: Option<usize>, matter: Matter, reason: Reason) -> Aside {
    Aside {
        place: Place {
            id: LspId {
                system: id(1),
                pseudonode: 0x0a,
                fragment: 0xf0,
            },
            part: 8,
            sid,
        },
        matter,
        reason,
    }
}

/// One of each kind, with another reason each.
fn asides(alloc: Global) -> Result<Vec<Aside>, AllocError> {
    let asides = vec![in alloc;
        aside(
            None,
            Matter::Reach {
                neighbour: id(2),
                pseudonode: 0xff,
            },
            Reason::Pseudonode,
        ),
        aside(
            None,
            Matter::Prefix {
                prefix: 0xc000_0200,
                length: 24,
            },
            Reason::NotHost,
        ),
        aside(None, Matter::Name, Reason::HostName),
        aside(
            None,
            Matter::Risk {
                neighbour: id(3),
                pseudonode: 0,
            },
            Reason::LinkUnused,
        ),
        aside(
            None,
            Matter::Capability {
                router: 0x0a00_0001
            },
            Reason::Silent
        ),
        aside(Some(0), Matter::AdjSid(Sid::Label(24_001)), Reason::Backup),
        aside(Some(1), Matter::PrefixSid(Sid::Index(17)), Reason::NotLeast),
    ]?;
    Ok(asides)
}

/// The lines of one of each kind, and of their count.
fn aside_lines(alloc: Global, asides: &[Aside]) -> Result<Vec<u8>, AllocError> {
    let mut out = Vec::new(alloc);
    put_asides(asides, &mut out)?;
    put_aside_count(7, &mut out)?;
    Ok(out)
}

#[test]
fn asides_are_printed(rt: HostRuntime) -> Result<(), AllocError> {
    let text = "aside 0000.0000.0001.0a-f0 part 9 reach 0000.0000.0002.ff pseudonode\n\
        aside 0000.0000.0001.0a-f0 part 9 prefix 192.0.2.0/24 length\n\
        aside 0000.0000.0001.0a-f0 part 9 name hostname\n\
        aside 0000.0000.0001.0a-f0 part 9 risk 0000.0000.0003.00 unused\n\
        aside 0000.0000.0001.0a-f0 part 9 capability 10.0.0.1 silent\n\
        aside 0000.0000.0001.0a-f0 part 9 sid 1 adjsid label 24001 backup\n\
        aside 0000.0000.0001.0a-f0 part 9 sid 2 prefixsid index 17 notleast\n\
        asides 7\n";
    let asides = asides(rt.alloc())?;
    let lines = aside_lines(rt.alloc(), &asides)?;
    expect_text(&rt, &lines, text);
    drop(lines);
    drop(asides);
    Ok(())
}
