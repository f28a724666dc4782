//! A loop that says the lines of a script again, with the engine's reader and its answers.
use sr_base::{Sink, SinkFault, Source};
use sr_engine::{Answers, End, Fill, Script, read_on};
use std::alloc::{AllocError, Global};

/// Says this text `times` times.
fn say_often<K: Sink>(
    text: &[u8],
    times: u32,
    out: &mut Answers,
    sink: &mut K,
) -> Result<(), SinkFault> {
    for _ in 0..times {
        out.put(sink, text)?;
    }
    Ok(())
}

/// Says a line's number, as its last digit, and the line. An empty line and one with `#` are answered by nothing, one
/// with `*` by 70,000 stars more, and one with `+` by 100,000 times the word `piece`. One with `!` is refused. At `?` it is
/// out of memory, and so it is at `-`, behind 20,000 times that word.
fn echo<K: Sink>(
    number: u32,
    line: &[u8],
    out: &mut Answers,
    sink: &mut K,
) -> Result<bool, SinkFault> {
    if line.is_empty() {
        return Ok(false);
    }
    match line[0] {
        b'#' => return Ok(false),
        b'?' => return Err(SinkFault::Memory(AllocError)),
        b'+' => {
            say_often(b"piece\n", 100_000, out, sink)?;
            return Ok(false);
        }
        b'-' => {
            say_often(b"piece\n", 20_000, out, sink)?;
            return Err(SinkFault::Memory(AllocError));
        }
        b'*' => say_often(&[b'*'; 100], 700, out, sink)?,
        _ => {}
    }
    out.put(sink, &[48 + (number % 10) as u8])?;
    out.put(sink, line)?;
    out.put(sink, b"\n")?;
    Ok(line[0] == b'!')
}

/// Says a last line without a line feed, where there is one, and `end`.
fn echo_last<K: Sink>(
    number: u32,
    line: &[u8],
    out: &mut Answers,
    sink: &mut K,
) -> Result<bool, SinkFault> {
    let refused = echo(number, line, out, sink)?;
    out.put(sink, b"end\n")?;
    Ok(refused)
}

/// Says each line of the source again, and then `end`.
pub fn echo_all<S: Source, K: Sink>(alloc: Global, source: &mut S, sink: &mut K) -> End {
    let mut out = Answers::new(alloc);
    let mut script = match Script::new(alloc) {
        Ok(script) => script,
        Err(_) => return End::Memory,
    };
    let mut number = 0u32;
    let mut refused = false;
    'steps: for _ in 0..u64::MAX {
        match script.next() {
            Ok(true) => {
                number = number.saturating_add(1);
                match echo(number, script.line(), &mut out, sink) {
                    Ok(again) => refused |= again,
                    Err(fault) => return End::at(fault),
                }
                script.clear();
            }
            Ok(false) => match read_on(&mut script, &mut out, source, sink) {
                Ok(Fill::More) => {}
                Ok(Fill::End) => {
                    match echo_last(number.saturating_add(1), script.line(), &mut out, sink) {
                        Ok(again) => return out.finish(sink, refused | again),
                        Err(fault) => return End::at(fault),
                    }
                }
                Ok(Fill::Failed) => return End::ReadFailed,
                Ok(Fill::TooMuch) => return End::TooMuch,
                Err(fault) => return End::at(fault),
            },
            Err(_) => return End::Memory,
        }
    }
    End::Memory
}
