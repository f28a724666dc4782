//! PDUs as routers flood them, read and written again.

use super::flooded::FLOODED;
use sr_lsp::{Lsp, in_range, read_lsp, write_lsp};
use std::alloc::{AllocError, Global};
use std::process::Abort;

/// The PDU of these hexadecimal digits, or nothing where it isn't read.
fn read(alloc: Global, digits: &str) -> Result<Option<Lsp>, AllocError> {
    let octets = match hex::decode(alloc, digits.as_bytes()) {
        Ok(octets) => octets,
        Err(_) => return Ok(None),
    };
    let lsp = read_lsp(alloc, &octets);
    drop(octets);
    Ok(lsp.ok())
}

/// The digits of the PDU as it is written, or nothing where it isn't.
fn written(alloc: Global, lsp: &Lsp) -> Result<Option<String>, AllocError> {
    if !in_range(lsp) {
        return Ok(None);
    }
    match write_lsp(alloc, lsp) {
        Ok(octets) => Ok(Some(hex::encode(alloc, &octets)?)),
        Err(_) => Ok(None),
    }
}

/// The PDU as it is read and written again, or nothing where it isn't read or written.
fn again(alloc: Global, digits: &str) -> Result<Option<String>, AllocError> {
    let lsp = match read(alloc, digits)? {
        Some(lsp) => lsp,
        None => return Ok(None),
    };
    let text = written(alloc, &lsp);
    drop(lsp);
    text
}

/// The PDU is written again as it is to be.
fn check_again(rt: &impl Abort, text: Option<&str>, wanted: &str, octets: &str) {
    assert_eq!(rt; text, Some(wanted), "{octets}");
}

/// The line's PDU is written again as the line says.
fn check_line(rt: &impl Abort, alloc: Global, line: &str) -> Result<(), AllocError> {
    let (octets, wanted) = line
        .split_once(' ')
        .expect(rt, "a PDU, and how it is written");
    let text = again(alloc, octets)?;
    check_again(rt, text.as_deref(), wanted, octets);
    drop(text);
    Ok(())
}

/// There are this many lines, and each PDU is written again as its line says.
fn check_lines(
    rt: &impl Abort,
    alloc: Global,
    lines: &str,
    count: usize,
) -> Result<(), AllocError> {
    assert_eq!(rt; lines.lines().count(), count);
    for line in lines.lines() {
        check_line(rt, alloc, line)?;
    }
    Ok(())
}

#[test]
fn flooded_pdus_are_written_again(rt: HostRuntime) -> Result<(), AllocError> {
    check_lines(&rt, rt.alloc(), FLOODED, 13)
}
