//! The longest line, PDU and script, and as many edits and versions as there may be.

use super::{check_last_answers, check_script};
use std::alloc::{AllocError, Global};
use std::process::Abort;

#[test]
fn a_script_has_at_most_33_554_432_bytes(rt: HostRuntime) -> Result<(), AllocError> {
    for (name, bytes, status) in [
        ("the longest script", 33_554_432, 0),
        ("a script of a byte more", 33_554_433, 6),
    ] {
        let script = vec![in rt.alloc(); b'\n'; bytes]?;
        check_script(&rt, script, (status, b""), name)?;
    }
    Ok(())
}

/// A line of that many letters x.
fn letters(alloc: Global, bytes: usize) -> Result<Vec<u8>, AllocError> {
    let mut line = vec![in alloc; b'x'; bytes]?;
    line.push(b'\n')?;
    Ok(line)
}

#[test]
fn a_line_has_at_most_140_000_bytes(rt: HostRuntime) -> Result<(), AllocError> {
    let cases: [(&str, usize, &[u8]); 3] = [
        ("the longest line", 140_000, b"refused 1 1 UnknownWord\n"),
        (
            "a line of a byte more",
            140_001,
            b"refused 1 27 LineTooLong\n",
        ),
        (
            "a line of two bytes more",
            140_002,
            b"refused 1 27 LineTooLong\n",
        ),
    ];
    for (name, bytes, answers) in cases {
        let line = letters(rt.alloc(), bytes)?;
        check_script(&rt, line, (1, answers), name)?;
    }
    Ok(())
}

/// Appends a TLV as hexadecimal digits: its type and length, and a value of that many zeros.
fn push_tlv(line: &mut Vec<u8>, head: &[u8], octets: usize) -> Result<(), AllocError> {
    line.extend_from_slice(head)?;
    for _ in 0..octets {
        line.extend_from_slice(b"00")?;
    }
    Ok(())
}

/// The line of a PDU of 65,535 octets: a header, 254 TLVs of an unknown type with 255 octets, and one with 228.
fn longest_pdu(alloc: Global) -> Result<Vec<u8>, AllocError> {
    let head: &[u8] = b"lsp 831b010014010000ffff04b0000000000001000000000001000003";
    let mut line = Vec::from_slice(alloc, head)?;
    for _ in 0..254 {
        push_tlv(&mut line, b"c8ff", 255)?;
    }
    push_tlv(&mut line, b"c8e4", 228)?;
    Ok(line)
}

/// The line is as long as this.
fn check_length(rt: &impl Abort, line: &[u8], bytes: usize) {
    assert_eq!(rt; line.len(), bytes);
}

#[test]
fn a_pdu_has_at_most_65_535_octets(rt: HostRuntime) -> Result<(), AllocError> {
    let line = longest_pdu(rt.alloc())?;
    check_length(&rt, &line, 131_074);
    check_script(&rt, line, (0, b"staged 1\n"), "the longest PDU")
}

/// A pair of nodes, and a certificate that is opened.
const OPENED: &[u8] =
    b"lsp 831b010014010000005f04b0000000000001000000000001000003f2100a00000100020980001f400103003e80871200000000600a000001080306400000000001161c0000000000020000000a11040800000001000000011f053000005dc1\n\
    lsp 831b010014010000005f04b0000000000002000000000001000003f2100a00000200020980001f400103003e80871200000000600a000002080306400000000002161c0000000000010000000a11040800000001000000011f053000005dc1\n\
    commit\n\
    proof open link 0000.0000.0001 0000.0000.0002 1 0000.0000.0002\n";

/// What begins a script, a line that stands in it many times, what ends it, and the last answers.
struct Repeated {
    name: &'static str,
    first: &'static [u8],
    line: &'static [u8],
    times: usize,
    last: &'static [u8],
    answers: &'static [u8],
}

const REPEATED: [Repeated; 3] = [
    Repeated {
        name: "4,097 edits",
        first: b"",
        line: b"depth 3\n",
        times: 4_097,
        last: b"drop\n",
        answers: b"staged 4096\nrefused 4097 6 StagedFull\ndropped 4096\n",
    },
    Repeated {
        name: "65,536 versions",
        first: b"",
        line: b"commit\n",
        times: 65_536,
        last: b"",
        answers: b"version 65535 nodes 0 links 0\nrefused 65536 28 VersionsFull\n",
    },
    Repeated {
        name: "a certificate of 4,097 lines",
        first: OPENED,
        line: b"proof row 0\n",
        times: 4_096,
        last: b"proof done none\n",
        answers: b"proof 4096\nrefused 4100 31 ProofFull\nrejected 1\n",
    },
];

/// The script of the case.
fn script_of(alloc: Global, case: &Repeated) -> Result<Vec<u8>, AllocError> {
    let mut script = Vec::from_slice(alloc, case.first)?;
    for _ in 0..case.times {
        script.extend_from_slice(case.line)?;
    }
    script.extend_from_slice(case.last)?;
    Ok(script)
}

#[test]
fn edits_versions_and_certificates_have_a_most(rt: HostRuntime) -> Result<(), AllocError> {
    for case in &REPEATED {
        let script = script_of(rt.alloc(), case)?;
        check_last_answers(&rt, script, (1, case.answers), case.name)?;
    }
    Ok(())
}
