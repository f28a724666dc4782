//! The engine on sources and sinks of several kinds: how lines are read, and when answers are written.
use super::devices::{Drip, Remarks, Tally, Watch};
use super::echo::echo_all;
use sr_base::{MemorySink, MemorySource, Sink, SteadySink, SteadySource};
use sr_engine::Answers;
use std::alloc::{AllocError, Global};
use std::cell::Cell;
use std::process::Abort;

/// A script whose second line is empty, whose third is refused, and whose last has no line feed.
const SCRIPT: &[u8] = b"one\n\n!three\nfour";

/// What answers it.
const ANSWERS: &[u8] = b"1one\n3!three\n4four\nend\n";

/// Scripts, with the status and the answers of each.
const SCRIPTS: [(&[u8], u8, &[u8]); 6] = [
    (SCRIPT, 1, ANSWERS),
    (b"", 0, b"end\n"),
    (b"one\n", 0, b"1one\nend\n"),
    (b"one\r\n\n\n", 0, b"1one\r\nend\n"),
    (b"one\n!two", 1, b"1one\n2!two\nend\n"),
    (b"one\n?\nthree\n", 5, b"1one\n"),
];

/// A source of these bytes, of which each of that many reads gives one, that fails at the listed calls.
fn bytewise(
    alloc: Global,
    script: &[u8],
    reads: usize,
    failing: &[u64],
) -> Result<MemorySource, AllocError> {
    let pieces = vec![in alloc; 1usize; reads]?;
    let failing = Vec::from_slice(alloc, failing)?;
    let bytes = Vec::from_slice(alloc, script)?;
    Ok(MemorySource::new(bytes, pieces, failing))
}

/// A sink that fails at this call.
fn failing_at(alloc: Global, failing: u64) -> Result<MemorySink, AllocError> {
    let failing = Vec::from_slice(alloc, &[failing])?;
    Ok(MemorySink::new(alloc, failing))
}

/// The status of a script that is read whole.
fn status_of<K: Sink>(alloc: Global, script: Vec<u8>, sink: &mut K) -> u8 {
    let mut source = SteadySource::new(script);
    let end = echo_all(alloc, &mut source, sink);
    drop(source);
    end.status()
}

/// A script ended with this status, and these bytes were written.
fn expect_end(rt: &impl Abort, status: u8, written: &[u8], expected: (u8, &[u8])) {
    assert_eq!(rt; (status, written), expected);
}

/// The sink or the source was called that often.
fn expect_calls(rt: &impl Abort, calls: u64, expected: u64) {
    assert_eq!(rt; calls, expected);
}

/// The status of a script of which a read gives a byte and a write takes two, and what was written.
fn answer_slowly(alloc: Global, script: &[u8]) -> Result<(u8, Vec<u8>), AllocError> {
    let mut source = bytewise(alloc, script, 20, &[])?;
    let mut drip = Drip {
        bytes: Vec::new(alloc),
    };
    let end = echo_all(alloc, &mut source, &mut drip);
    drop(source);
    Ok((end.status(), drip.bytes))
}

/// The status of a script of which a read gives all and a write takes all, and what was written.
fn answer_at_once(alloc: Global, script: &[u8]) -> Result<(u8, SteadySink), AllocError> {
    let bytes = Vec::from_slice(alloc, script)?;
    let mut sink = SteadySink::new(alloc);
    let status = status_of(alloc, bytes, &mut sink);
    Ok((status, sink))
}

/// A script is answered thus, slowly and at once.
fn check_answers(
    rt: &impl Abort,
    alloc: Global,
    script: &[u8],
    expected: (u8, &[u8]),
) -> Result<(), AllocError> {
    let (status, written) = answer_slowly(alloc, script)?;
    expect_end(rt, status, written.as_slice(), expected);
    drop(written);
    let (status, sink) = answer_at_once(alloc, script)?;
    // What was gathered when memory was wanted isn't written any more.
    let written: &[u8] = if expected.0 == 5 { b"" } else { expected.1 };
    expect_end(rt, status, sink.bytes(), (expected.0, written));
    drop(sink);
    Ok(())
}

// All bytes at a read, or one; and a sink that takes all at a write, or two.
#[test]
fn a_script_is_answered(rt: HostRuntime) -> Result<(), AllocError> {
    for (script, status, answers) in SCRIPTS {
        check_answers(&rt, rt.alloc(), script, (status, answers))?;
    }
    Ok(())
}

/// Where this read fails, the script ends thus, and nothing is read any more.
fn check_failed_read(
    rt: &impl Abort,
    alloc: Global,
    failing: u64,
    expected: (u8, &[u8]),
) -> Result<(), AllocError> {
    let mut source = bytewise(alloc, SCRIPT, 17, &[failing])?;
    let mut sink = SteadySink::new(alloc);
    let end = echo_all(alloc, &mut source, &mut sink);
    expect_end(rt, end.status(), sink.bytes(), expected);
    expect_calls(rt, source.calls(), failing.min(16) + 1);
    drop(sink);
    drop(source);
    Ok(())
}

// The read of call 12 follows the line feed of the third line, and that of call 11 comes before it.
#[test]
fn a_read_fails(rt: HostRuntime) -> Result<(), AllocError> {
    let cases: [(u64, u8, &[u8]); 4] = [
        (0, 3, b""),
        (11, 3, b"1one\n"),
        (12, 3, b"1one\n3!three\n"),
        (99, 1, ANSWERS),
    ];
    for (failing, status, answers) in cases {
        check_failed_read(&rt, rt.alloc(), failing, (status, answers))?;
    }
    Ok(())
}

/// Where this write fails, so much is read and these bytes are written.
fn check_failed_write(
    rt: &impl Abort,
    alloc: Global,
    failing: u64,
    reads: u64,
    answers: &[u8],
) -> Result<(), AllocError> {
    let mut sink = failing_at(alloc, failing)?;
    let mut source = bytewise(alloc, SCRIPT, 17, &[])?;
    let end = echo_all(alloc, &mut source, &mut sink);
    expect_end(rt, end.status(), sink.bytes(), (4, answers));
    expect_calls(rt, sink.calls(), failing.saturating_add(1));
    expect_calls(rt, source.calls(), reads);
    drop(source);
    drop(sink);
    Ok(())
}

// The answers to each line come by a write of their own. After a failed one nothing is read or written.
#[test]
fn a_write_fails(rt: HostRuntime) -> Result<(), AllocError> {
    let cases: [(u64, u64, &[u8]); 3] = [
        (0, 4, b""),
        (1, 12, b"1one\n"),
        (2, 17, b"1one\n3!three\n"),
    ];
    for (failing, reads, answers) in cases {
        check_failed_write(&rt, rt.alloc(), failing, reads, answers)?;
    }
    Ok(())
}

/// These bytes, that many times the letter `a`, and those bytes.
fn letters_between(
    alloc: Global,
    before: &[u8],
    count: usize,
    after: &[u8],
) -> Result<Vec<u8>, AllocError> {
    let letters = vec![in alloc; b'a'; count]?;
    let mut text = Vec::from_slice(alloc, before)?;
    text.extend_from_slice(letters.as_slice())?;
    text.extend_from_slice(after)?;
    Ok(text)
}

/// A line of that many letters and a short one are answered by themselves.
fn check_long_line(rt: &impl Abort, alloc: Global, long: usize) -> Result<(), AllocError> {
    let answers = letters_between(alloc, b"1", long, b"\n2b\nend\n")?;
    let text = letters_between(alloc, b"", long, b"\nb\n")?;
    let mut sink = SteadySink::new(alloc);
    let status = status_of(alloc, text, &mut sink);
    expect_end(rt, status, sink.bytes(), (0, answers.as_slice()));
    drop(sink);
    drop(answers);
    Ok(())
}

// A line begins in one piece and ends in the next, or in the one behind it.
#[test]
fn a_line_lies_over_pieces(rt: HostRuntime) -> Result<(), AllocError> {
    for long in [65_535usize, 65_536, 65_537, 131_072, 140_000] {
        check_long_line(&rt, rt.alloc(), long)?;
    }
    Ok(())
}

/// The status of a script that is one line of that many letters, and how many bytes were written.
fn answer_letters(alloc: Global, length: usize) -> Result<(u8, usize), AllocError> {
    let text = vec![in alloc; b'a'; length]?;
    let mut sink = SteadySink::new(alloc);
    let status = status_of(alloc, text, &mut sink);
    let written = sink.bytes().len();
    drop(sink);
    Ok((status, written))
}

// A line that is too long shows by its first 140,001 bytes, however long it is.
#[test]
fn a_long_line_is_cut(rt: HostRuntime) -> Result<(), AllocError> {
    let lines: [(usize, usize); 3] = [(140_000, 140_000), (140_001, 140_001), (300_000, 140_001)];
    for (length, held) in lines {
        assert_eq!(rt; answer_letters(rt.alloc(), length)?, (0, held + 6));
    }
    Ok(())
}

/// A script of that many bytes ends thus, and that many bytes of it are never read.
fn check_remarks(rt: &impl Abort, alloc: Global, left: usize, rest: usize, expected: (u8, &[u8])) {
    let mut source = Remarks { left };
    let mut sink = SteadySink::new(alloc);
    let end = echo_all(alloc, &mut source, &mut sink);
    expect_end(rt, end.status(), sink.bytes(), expected);
    assert_eq!(rt; source.left, rest);
    drop(sink);
}

#[test]
fn a_script_is_too_long(rt: HostRuntime) {
    let lengths: [(usize, u8, usize, &[u8]); 3] = [
        (33_554_432, 0, 0, b"end\n"),
        (33_554_433, 6, 0, b""),
        (40_000_000, 6, 40_000_000 - 33_554_433, b""),
    ];
    for (left, status, rest, answers) in lengths {
        check_remarks(&rt, rt.alloc(), left, rest, (status, answers));
    }
}

// The answer to each line has three bytes. It is written before the next read, and that to the last line at the end.
#[test]
fn answers_come_before_the_next_read(rt: HostRuntime) {
    let alloc = rt.alloc();
    let written = Cell::new(0usize);
    let mut source = Watch {
        written: &written,
        seen: [9; 5],
        calls: 0,
    };
    let mut sink = Tally { written: &written };
    let end = echo_all(alloc, &mut source, &mut sink);
    assert_eq!(rt; end.status(), 0);
    assert_eq!(rt; source.seen, [0, 3, 6, 9, 9]);
    assert_eq!(rt; written.get(), 3 * 3 + 4 + 4);
}

/// A script's status, the count of its writes, and the count of the bytes that were written.
fn answer_in_writes(
    alloc: Global,
    script: &[u8],
    failing: u64,
) -> Result<(u8, u64, usize), AllocError> {
    let bytes = Vec::from_slice(alloc, script)?;
    let mut sink = failing_at(alloc, failing)?;
    let status = status_of(alloc, bytes, &mut sink);
    let answered = (status, sink.calls(), sink.bytes().len());
    drop(sink);
    Ok(answered)
}

// Answers to the lines of one piece are written as soon as more than 65,536 bytes are gathered: stars by the hundred, or
// words with their line feeds. What remains is written before the next read, and the end's answer by a last write.
#[test]
fn long_answers_are_not_gathered(rt: HostRuntime) -> Result<(), AllocError> {
    let cases: [(&[u8], u64, u8, u64, usize); 6] = [
        (b"*\n*\n*\n", 99, 0, 5, 3 * 70_003 + 4),
        (b"*\n*\n*\n", 1, 4, 2, 65_600),
        (b"+\n", 99, 0, 11, 600_004),
        (b"+\n", 4, 4, 5, 4 * 65_538),
        (b"one\n-\n", 99, 5, 1, 65_537),
        (b"one\n-", 99, 5, 2, 5 + 65_538),
    ];
    for (script, failing, status, calls, bytes) in cases {
        let answered = answer_in_writes(rt.alloc(), script, failing)?;
        assert_eq!(rt; answered, (status, calls, bytes));
    }
    Ok(())
}

/// This text is put.
fn expect_put(rt: &impl Abort, out: &mut Answers, sink: &mut MemorySink, text: &[u8]) {
    assert!(rt; out.put(sink, text).is_ok());
}

/// What is gathered is written.
fn expect_flush(rt: &impl Abort, out: &mut Answers, sink: &mut MemorySink) {
    assert!(rt; out.flush(sink).is_ok());
}

/// These letters are gathered, and one more has all written.
fn check_most_gathered(rt: &impl Abort, out: &mut Answers, sink: &mut MemorySink, most: &[u8]) {
    expect_put(rt, out, sink, most);
    expect_calls(rt, sink.calls(), 0);
    expect_put(rt, out, sink, b"b");
    assert_eq!(rt; sink.bytes().len(), 65_537);
}

/// A letter more is gathered, and written once.
fn check_one_gathered(rt: &impl Abort, out: &mut Answers, sink: &mut MemorySink) {
    expect_put(rt, out, sink, b"c");
    expect_flush(rt, out, sink);
    assert!(rt; sink.bytes().ends_with(b"abc"));
    expect_flush(rt, out, sink);
    expect_calls(rt, sink.calls(), 2);
}

// At most 65,536 bytes are gathered, and more are written whole.
#[test]
fn answers_are_gathered(rt: HostRuntime) -> Result<(), AllocError> {
    let most = vec![in rt.alloc(); b'a'; 65_536]?;
    let mut out = Answers::new(rt.alloc());
    let mut sink = MemorySink::new(rt.alloc(), Vec::new(rt.alloc()));
    check_most_gathered(&rt, &mut out, &mut sink, most.as_slice());
    check_one_gathered(&rt, &mut out, &mut sink);
    drop(sink);
    drop(out);
    drop(most);
    Ok(())
}
