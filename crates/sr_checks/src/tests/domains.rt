//! Domains at the limits of nodes and links.

use super::{check_last, check_last_answers, check_script, run};
use sr_base::{Runtime, SteadySink, SteadySource};
use sr_lsp::{Capability, Lsp, LspId, Part, Parts, Prefix, Reach, in_range, write_lsp};
use sr_model::{Range, SystemId};
use sr_seq::{Few, Seq};
use sr_subtlv::{LinkIds, PrefixSid, Sid, SrCap};
use std::alloc::{AllocError, AllocGlobal, Global};
use std::process::Abort;

/// A bidirectional link between two nodes, numbered from 1, with one metric both ways.
#[derive(Clone, Copy, Debug)]
struct Pair {
    low: u32,
    high: u32,
    metric: u32,
}

/// The system id of a node's number.
fn system(node: u32) -> SystemId {
    SystemId::new(u64::from(node)).unwrap()
}

/// 8,000 labels from 16000 on.
fn labels(alloc: Global) -> Result<Part, AllocError> {
    let range = Range {
        first: 16000,
        size: 8000,
    };
    Ok(Part::Capability(Capability {
        router: 0x0a00_0001,
        flags: 0,
        srgb: Some(SrCap {
            flags: 0x80,
            ranges: Seq::new(vec![in alloc; range]?),
        }),
        msd: Seq::new(Vec::new(alloc)),
    }))
}

/// A link to a neighbour, whose identifier at both ends is the pair's number.
fn link(alloc: Global, neighbour: u32, number: u32, metric: u32) -> Part {
    Part::Reach(Reach {
        neighbour: system(neighbour),
        pseudonode: 0,
        metric,
        ids: Some(LinkIds {
            local: number,
            remote: number,
        }),
        local: None,
        remote: None,
        adj: Few::new(Vec::new(alloc)),
    })
}

/// A node's prefix, with its number as index of its node SID.
fn prefix(alloc: Global, node: u32) -> Result<Part, AllocError> {
    let sid = PrefixSid {
        flags: 0x40,
        algorithm: 0,
        sid: Sid::Index(node),
    };
    Ok(Part::Prefix(Prefix {
        metric: 0,
        down: false,
        length: 32,
        prefix: 0x0a00_0000 | node,
        sids: Few::new(vec![in alloc; sid]?),
    }))
}

/// Appends a node's links, in the order of the pairs.
fn push_links(
    alloc: Global,
    node: u32,
    pairs: &[Pair],
    parts: &mut Vec<Part>,
) -> Result<(), AllocError> {
    let mut number = 0u32;
    for pair in pairs {
        number = number.wrapping_add(1);
        if pair.low == node {
            parts.push(link(alloc, pair.high, number, pair.metric))?;
        }
        if pair.high == node {
            parts.push(link(alloc, pair.low, number, pair.metric))?;
        }
    }
    Ok(())
}

/// What a node announces: its labels, its prefix, and its links in the order of the pairs.
fn parts_of(alloc: Global, node: u32, pairs: &[Pair]) -> Result<Vec<Part>, AllocError> {
    let mut parts = vec![in alloc; labels(alloc)?, prefix(alloc, node)?]?;
    push_links(alloc, node, pairs, &mut parts)?;
    Ok(parts)
}

/// A node's PDU.
fn lsp_of(alloc: Global, node: u32, pairs: &[Pair]) -> Result<Lsp, AllocError> {
    let parts = parts_of(alloc, node, pairs)?;
    Ok(Lsp {
        lifetime: 1200,
        id: LspId {
            system: system(node),
            pseudonode: 0,
            fragment: 0,
        },
        sequence: 1,
        checksum: 0,
        flags: 3,
        parts: Parts::new(alloc, parts)?,
    })
}

/// Appends the line that gives these octets.
fn put_octets(alloc: Global, octets: &[u8], script: &mut Vec<u8>) -> Result<(), AllocError> {
    script.extend_from_slice(b"lsp ")?;
    script.extend_from_slice(hex::encode(alloc, octets)?.as_bytes())?;
    script.push(b'\n')?;
    Ok(())
}

/// Appends the line that gives the PDU.
fn put_lsp(alloc: Global, lsp: &Lsp, script: &mut Vec<u8>) -> Result<(), AllocError> {
    if !in_range(lsp) {
        return Ok(());
    }
    match write_lsp(alloc, lsp) {
        Ok(octets) => put_octets(alloc, &octets, script),
        Err(_) => Ok(()),
    }
}

/// Appends the line that gives a node's PDU.
fn put_node(
    alloc: Global,
    node: u32,
    pairs: &[Pair],
    script: &mut Vec<u8>,
) -> Result<(), AllocError> {
    let lsp = lsp_of(alloc, node, pairs)?;
    let put = put_lsp(alloc, &lsp, script);
    drop(lsp);
    put
}

/// The script of the nodes' PDUs, a commit, and a question.
fn script_of(
    alloc: Global,
    nodes: u32,
    pairs: &[Pair],
    question: &[u8],
) -> Result<Vec<u8>, AllocError> {
    let mut script = Vec::new(alloc);
    for node in 1..=nodes {
        put_node(alloc, node, pairs, &mut script)?;
    }
    script.extend_from_slice(b"commit\n")?;
    script.extend_from_slice(question)?;
    Ok(script)
}

/// A chain of nodes, each pair at the greatest metric.
fn chain(alloc: Global, nodes: u32) -> Result<Vec<Pair>, AllocError> {
    let mut pairs = Vec::new(alloc);
    for low in 1..nodes {
        pairs.push(Pair {
            low,
            high: low + 1,
            metric: 16_777_214,
        })?;
    }
    Ok(pairs)
}

/// Each pair of nodes once, at metric 1.
fn complete(alloc: Global, nodes: u32) -> Result<Vec<Pair>, AllocError> {
    let mut pairs = Vec::new(alloc);
    for low in 1..nodes {
        for high in low + 1..=nodes {
            pairs.push(Pair {
                low,
                high,
                metric: 1,
            })?;
        }
    }
    Ok(pairs)
}

/// A domain of these nodes and pairs, and a question, with the status and the last answer.
fn check_domain<R: AllocGlobal + Runtime + Abort + 'static>(
    rt: &R,
    nodes: u32,
    pairs: Vec<Pair>,
    question: &[u8],
    expected: (u8, &[u8]),
    name: &str,
) -> Result<(), AllocError> {
    let script = script_of(rt.alloc(), nodes, &pairs, question);
    drop(pairs);
    check_last_answers(rt, script?, expected, name)
}

#[test]
fn chains_have_at_most_256_nodes(rt: HostRuntime) -> Result<(), AllocError> {
    let cases: [(&str, u32, &[u8], u8, &[u8]); 2] = [
        (
            "the longest chain",
            256,
            b"dist 0000.0000.0001 0000.0000.0100\n",
            0,
            b"\ndist 4278189570\n",
        ),
        (
            "a chain of a node more",
            257,
            b"",
            1,
            b"\nrefused 258 18 TooManyNodes 257\n",
        ),
    ];
    for (name, nodes, question, status, answers) in cases {
        let pairs = chain(rt.alloc(), nodes)?;
        check_domain(&rt, nodes, pairs, question, (status, answers), name)?;
    }
    Ok(())
}

#[test]
fn domains_have_at_most_2_048_links(rt: HostRuntime) -> Result<(), AllocError> {
    let pairs = complete(rt.alloc(), 46)?;
    let answers: &[u8] = b"\nrefused 47 19 TooManyLinks 2070\n";
    check_domain(
        &rt,
        46,
        pairs,
        b"",
        (1, answers),
        "46 nodes, each with each",
    )
}

/// A node's system id, as it is written.
fn written(node: u32) -> [u8; 14] {
    const DIGITS: &[u8; 16] = b"0123456789abcdef";
    let mut text = *b"0000.0000.0000";
    text[12] = DIGITS[(node / 16 % 16) as usize];
    text[13] = DIGITS[(node % 16) as usize];
    text
}

/// Appends the line of a node to which no way is left where a link of a chain fails.
fn put_lost_node(
    kind: &[u8],
    from: u32,
    to: u32,
    lost: u32,
    text: &mut Vec<u8>,
) -> Result<(), AllocError> {
    for piece in [
        b"repair ".as_slice(),
        kind,
        b" ",
        &written(from),
        b">",
        &written(to),
        b"#1 to ",
        &written(lost),
        b" uncovered nopath\n",
    ] {
        text.extend_from_slice(piece)?;
    }
    Ok(())
}

/// Appends the lines of the failure of a link of a chain: no way is left to each node behind it. Where the node at its end
/// fails as well, that is no destination.
fn put_lost(
    nodes: u32,
    kind: &[u8],
    from: u32,
    to: u32,
    text: &mut Vec<u8>,
) -> Result<(), AllocError> {
    for lost in 1..=nodes {
        let behind = if to > from { lost > from } else { lost < from };
        let fails = kind == b"node".as_slice() && lost == to;
        if behind && !fails {
            put_lost_node(kind, from, to, lost, text)?;
        }
    }
    Ok(())
}

/// Appends the lines of the audit of a chain.
fn put_lost_lines(nodes: u32, text: &mut Vec<u8>) -> Result<(), AllocError> {
    for kind in [b"link".as_slice(), b"node".as_slice(), b"risk".as_slice()] {
        for from in 1..=nodes {
            if from > 1 {
                put_lost(nodes, kind, from, from.wrapping_sub(1), text)?;
            }
            if from < nodes {
                put_lost(nodes, kind, from, from.wrapping_add(1), text)?;
            }
        }
    }
    Ok(())
}

/// Appends what the program answers to the nodes' PDUs and a commit, with status 0.
fn put_opening<R: AllocGlobal + Runtime + Abort + 'static>(
    rt: &R,
    nodes: u32,
    pairs: &[Pair],
    text: &mut Vec<u8>,
) -> Result<(), AllocError> {
    let mut source = SteadySource::new(script_of(rt.alloc(), nodes, pairs, b"")?);
    let mut sink = SteadySink::new(rt.alloc());
    let ended = run(rt, "run", &mut source, &mut sink);
    drop(source);
    let checked = check_last(rt, ended, sink.bytes(), (0, b""), "the nodes alone");
    let put = text.extend_from_slice(sink.bytes());
    drop(sink);
    checked?;
    put
}

/// The nodes' PDUs, a commit, and the question are answered with this text, and with status 0.
fn check_question<R: AllocGlobal + Runtime + Abort + 'static>(
    rt: &R,
    nodes: u32,
    pairs: &[Pair],
    question: &[u8],
    text: &[u8],
) -> Result<(), AllocError> {
    let script = script_of(rt.alloc(), nodes, pairs, question)?;
    check_script(rt, script, (0, text), "the nodes and a question")
}

/// The text has more bytes than are answered at once.
fn check_long(rt: &impl Abort, text: &[u8]) {
    assert!(rt; text.len() > 8_388_608);
}

/// The audit of a chain is answered whole, as the last line without a line feed, and before another.
fn check_audit<R: AllocGlobal + Runtime + Abort + 'static>(
    rt: &R,
    nodes: u32,
    pairs: &[Pair],
    text: &mut Vec<u8>,
) -> Result<(), AllocError> {
    put_opening(rt, nodes, pairs, text)?;
    put_lost_lines(nodes, text)?;
    text.extend_from_slice(b"audit version 1 covered 0 nopath 119002 nolist 0 toodeep 0\n")?;
    check_question(rt, nodes, pairs, b"audit full", text)?;
    text.extend_from_slice(b"show version 1 nodes 200 links 398 depth 3 staged 0\n")?;
    check_long(rt, text);
    check_question(rt, nodes, pairs, b"audit full\nshow\n", text)
}

/// Such an audit has more than eight million bytes, and is answered in parts; also where it is the last line and has no
/// line feed.
#[test]
fn a_long_audit_is_answered_whole(rt: HostRuntime) -> Result<(), AllocError> {
    let pairs = chain(rt.alloc(), 200)?;
    let mut text = Vec::new(rt.alloc());
    let checked = check_audit(&rt, 200, &pairs, &mut text);
    drop(text);
    drop(pairs);
    checked
}
