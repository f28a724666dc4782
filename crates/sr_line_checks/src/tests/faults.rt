//! Lines that say nothing, and lines that are refused.
use sr_script::{Line, LineFault, read_line};
use std::alloc::{AllocError, Global};
use std::process::Abort;
use std::test::Fail;

/// What came of a line, in a word.
fn outcome(read: &Result<Line, LineFault>) -> &'static str {
    match read {
        Ok(Line::Nothing) => "nothing",
        Ok(Line::Word(_)) => "command",
        Ok(Line::Try(_)) => "try",
        Err(LineFault::TooLong) => "too long",
        Err(LineFault::UnknownWord) => "unknown word",
        Err(LineFault::BadForm) => "bad form",
        Err(LineFault::BadHex) => "bad hex",
        Err(LineFault::Memory(_)) => "memory",
    }
}

/// What comes of reading this line.
fn outcome_of(alloc: Global, line: &[u8]) -> &'static str {
    let read = read_line(alloc, line);
    let outcome = outcome(&read);
    drop(read);
    outcome
}

/// Lines without words, and remarks.
const NOTHING: [&str; 8] = [
    "",
    "\r",
    " \t ",
    "\t\r",
    "# commit",
    "  #commit",
    "#",
    "#\r",
];

/// Lines with another first word than those of a command.
const UNKNOWN: [&str; 15] = [
    "commit\r\r",
    "\rcommit",
    "Commit",
    "COMMIT",
    "commits",
    "commi",
    "lsps 00",
    "full",
    "12",
    "\u{b}",
    "\r\r",
    "0000.0000.0001",
    "commit#",
    "proofs",
    "Prove",
];

/// Numbers out of their ranges, and edits and questions in another form.
const RANGES: [&str; 31] = [
    "depth 13",
    "depth 00000000000",
    "depth 256",
    "depth -1",
    "depth +1",
    "depth 1x",
    "depth",
    "depth 1 1",
    "watch 9 1",
    "watch 0 1",
    "watch 1 0",
    "watch 1 17",
    "watch 1",
    "load 9 1",
    "load 0 1",
    "load 1 0",
    "load 1 5",
    "load 1",
    "load 1 1 1",
    "adjrepair 0000.0000.0001 0000.0000.0002",
    "adjrepair 0000.0000.0001 0000.0000.0002 0",
    "label 0000.0000.0001 1048576",
    "label 0000.0000.0001",
    "cost 0000.0000.0001 0000.0000.0002 0 1",
    "cost 0000.0000.0001 0000.0000.0002 65536 1",
    "cost 0000.0000.0001 0000.0000.0002 1 0",
    "cost 0000.0000.0001 0000.0000.0002 1 16777215",
    "cost 0000.0000.0001 0000.0000.0002 1",
    "cost 0000.0000.0001 0000.0000.0002 1 1 1",
    "down 0000.0000.0001 0000.0000.0002",
    "up 0000.0000.0001 0000.0000.0002 9999999999",
];

/// Names in another form, and too few or too many words.
const COUNTS: [&str; 43] = [
    "dist 0000.0000.0001",
    "dist 0000.0000.001 0000.0000.0002",
    "next 0000.0000.0001 0000.0000.000g",
    "next 0000.0000.0001 0000.0000.0002 0000.0000.0003",
    "commit now",
    "drop \r\r",
    "hold 1",
    "join 1",
    "show 1",
    "audit ful",
    "audit full 1",
    "walk 0000.0000.0001 0000.0000.0002",
    "walk 0000.0000.0001 0000.0000.0002 4294967296",
    "walk Link 0000.0000.0001 0000.0000.0002 1 0000.0000.0004 0",
    "walk link 0000.0000.0001 0000.0000.0002 1 0000.0000.0004",
    "walk link 0000.0000.0001 0000.0000.0002 1 0000.0000.0004 0 0",
    "repair 0000.0000.0001 0000.0000.0002 1 0000.0000.0004",
    "repair link 0000.0000.0001 0000.0000.0002",
    "repair link 0000.0000.0001 0000.0000.0002 0",
    "repair link 0000.0000.0001 0000.0000.0002 1 0000.0000.0004 1",
    "nodes 1",
    "links 0000.0000.0001",
    "aside all",
    "audit by",
    "audit by risk",
    "audit by kind 1",
    "audit full kind",
    "audit labels 1",
    "fails",
    "fails node",
    "fails link 0000.0000.0001",
    "fails node 0000.0000.001",
    "fails node 0000.0000.0001 1",
    "diff",
    "diff 0",
    "diff 65536",
    "diff 1 2",
    "check 1",
    "spaces path 0000.0000.0001 0000.0000.0002 1 0000.0000.0004",
    "lsp",
    "lsp 00 00",
    "lsp 0 0g",
    "lsp 83 \r\r",
];

/// Lines of certificates in another form.
const PROOFS: [&str; 25] = [
    "proof",
    "proof close",
    "proof Row 0",
    "proof row",
    "proof row 8589934592",
    "proof row 00000000000",
    "proof row 0 --",
    "proof row 0 -1",
    "proof row none",
    "proof row 1 2 3 4 5 6 7 x",
    "proof done",
    "proof done none none",
    "proof done 16003 none",
    "proof done none 16003",
    "proof done 1048576",
    "proof done -",
    "proof node",
    "proof node 0000.0000.0003 1",
    "proof via 0000.0000.0001 0000.0000.0004",
    "proof via 0000.0000.0001 0000.0000.0004 0",
    "proof adj 0000.0000.0001 0000.0000.0004 1 1",
    "proof open link 0000.0000.0001 0000.0000.0002 1",
    "proof open path 0000.0000.0001 0000.0000.0002 1 0000.0000.0003",
    "prove link 0000.0000.0001 0000.0000.0002 1",
    "adjbackup 0000.0000.0001 0000.0000.0002 65536",
];

/// Octets that aren't pairs of digits, in blocks of 32 digits and behind them.
const DIGITS: [&str; 11] = [
    "lsp 83f",
    "lsp 8g",
    "lsp 0x83",
    "lsp 8",
    "lsp 00112233445566778899aAbBcCdDeEf/",
    "lsp 00112233445566778899aAbBcCdDeE:F",
    "lsp @0112233445566778899aAbBcCdDeEfF",
    "lsp 0G112233445566778899aAbBcCdDeEfF",
    "lsp 00112233445566`78899aAbBcCdDeEfF",
    "lsp 00112233445566778899aAbBcCdDeEfF0123456789abcdefFEDCBA98765432g0",
    "lsp 00112233445566778899aAbBcCdDeEfF0123456789abcdefFEDCBA98765432107g",
];

/// This comes of each of the lines.
fn expect_each(rt: &impl Abort, alloc: Global, expected: &str, lines: &[&str]) {
    for line in lines {
        assert_eq!(rt; outcome_of(alloc, line.as_bytes()), expected, "{line:?}");
    }
}

/// Lines that say nothing, and lines of unknown words.
fn check_first_words(rt: &impl Abort, alloc: Global) {
    expect_each(rt, alloc, "nothing", &NOTHING);
    expect_each(rt, alloc, "unknown word", &UNKNOWN);
}

/// Lines with numbers out of their ranges.
fn check_ranges(rt: &impl Abort, alloc: Global) {
    expect_each(rt, alloc, "bad form", &RANGES);
}

/// Lines with other names, or another count of words.
fn check_counts(rt: &impl Abort, alloc: Global) {
    expect_each(rt, alloc, "bad form", &COUNTS);
}

/// Lines of certificates in another form.
fn check_proofs(rt: &impl Abort, alloc: Global) {
    expect_each(rt, alloc, "bad form", &PROOFS);
}

#[test]
fn other_lines_are_no_commands(rt: HostRuntime) {
    check_first_words(&rt, rt.alloc());
    check_ranges(&rt, rt.alloc());
    check_counts(&rt, rt.alloc());
    check_proofs(&rt, rt.alloc());
    expect_each(&rt, rt.alloc(), "bad hex", &DIGITS);
}

/// A line that ends with that many times the same word of one letter.
fn repeated(alloc: Global, begin: &str, letter: u8, count: usize) -> Result<Vec<u8>, AllocError> {
    let mut line = Vec::new(alloc);
    line.extend_from_slice(begin.as_bytes())?;
    for _ in 0..count {
        line.push(b' ')?;
        line.push(letter)?;
    }
    Ok(line)
}

/// This comes of a line that ends with that many times the letter.
fn expect_repeated(
    rt: &impl Abort,
    alloc: Global,
    begin: &str,
    letter: u8,
    count: usize,
    expected: &str,
) -> Result<(), AllocError> {
    let line = repeated(alloc, begin, letter, count)?;
    assert_eq!(rt; outcome_of(alloc, &line), expected);
    Ok(())
}

#[test]
fn rows_and_labels_have_limits(rt: HostRuntime) -> Result<(), Fail> {
    for (begin, letter, count, expected) in [
        ("proof row", b'-', 256, "command"),
        ("proof row", b'-', 257, "bad form"),
        ("proof done", b'7', 257, "command"),
        ("proof done", b'7', 258, "bad form"),
    ] {
        expect_repeated(&rt, rt.alloc(), begin, letter, count, expected)?;
    }
    Ok(())
}

/// This comes of a line of that many of the letter, and this end.
fn expect_long(
    rt: &impl Abort,
    alloc: Global,
    letter: u8,
    count: usize,
    end: &[u8],
    expected: &str,
) -> Result<(), AllocError> {
    let mut line = vec![in alloc; letter; count]?;
    line.extend_from_slice(end)?;
    assert_eq!(rt; outcome_of(alloc, &line), expected);
    Ok(())
}

#[test]
fn long_lines_are_refused_first(rt: HostRuntime) -> Result<(), Fail> {
    let lines: [(u8, usize, &[u8], &str); 4] = [
        (b'x', 140_000, b"", "unknown word"),
        (b' ', 140_000, b"", "nothing"),
        (b' ', 140_001, b"", "too long"),
        (b' ', 140_000, b"\r", "too long"),
    ];
    for (letter, count, end, expected) in lines {
        expect_long(&rt, rt.alloc(), letter, count, end, expected)?;
    }
    Ok(())
}
