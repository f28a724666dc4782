//! Whole runs of the program, over the sources and sinks in memory.
ghost use Rattle.std.specs.Prelude.{◌≡◌, ◌<◌};

mod accounts;
mod active;
mod audits;
mod background;
mod calls;
mod cases;
mod certificates;
mod devices;
mod differences;
mod domains;
mod edits;
mod field;
mod flooded;
mod groups;
mod limits;
mod loads;
mod made;
mod nodes;
mod pairs;
mod reasons;
mod remains;
mod rings;
mod routers;
mod tries;
mod versions;

use accounts::ACCOUNTS;
use active::ACTIVE;
use audits::AUDITS;
use cases::{CASES, Case, first_case};
use certificates::CERTIFICATES;
use differences::DIFFERENCES;
use edits::EDITS;
use field::FIELD;
use groups::GROUPS;
use loads::LOADS;
use nodes::NODES;
use pairs::PAIRS;
use reasons::REASONS;
use rings::RINGS;
use sr_base::{Runtime, Sink, Source, SteadySink, SteadySource};
use sr_run::{Ended, tilfa};
use sr_spf::Steps;
use sr_store::Usage;
use sr_watch::{Gate, OpenGate};
use std::alloc::{AllocError, AllocGlobal, Global};
use std::marker::Brand;
use std::process::Abort;
use std::sync::Arc;
use std::sync::ledger::{Blank, Ledger};
use tries::TRIES;

/// The command words that are these, split at spaces.
fn words(alloc: Global, text: &str) -> Result<Vec<String>, AllocError> {
    let mut words = Vec::new(alloc);
    for word in text.split_whitespace() {
        words.push(String::from_str(alloc, word)?)?;
    }
    Ok(words)
}

/// Runs the program with a counter of searches that begins at 0, and gives its status.
fn run_counted<L: Ledger>(
    rt: &(impl AllocGlobal + Runtime + 'static),
    words: &[String],
    source: &mut impl Source,
    sink: &mut impl Sink,
    gate: &Arc<impl Gate + 'static>,
    usage: &mut Usage,
    blank: Blank,
) -> u8
    requires name { blank.name ≡ L.name }
    requires parts { (blank.parts ≡ L.parts) × (0 < L.parts) }
{
    let steps = Steps::<L>::new(blank);
    let Ended {
        status,
        steps: _counted,
    } = tilfa(rt, words, source, sink, gate, usage, steps);
    status
}

/// Runs the program by this command at this gate with this usage, and gives its status.
fn run_at<R: AllocGlobal + Runtime + 'static, S: Source, K: Sink, G: Gate + 'static>(
    rt: &R,
    command: &str,
    source: &mut S,
    sink: &mut K,
    gate: &Arc<G>,
    usage: &mut Usage,
) -> Result<u8, AllocError> {
    let words = words(rt.alloc(), command)?;
    let status = run_counted::<Brand>(rt, &words, source, sink, gate, usage, Blank::new(1));
    drop(words);
    Ok(status)
}

/// Runs the program by this command at an open gate, and gives its status.
fn run<R: AllocGlobal + Runtime + 'static, S: Source, K: Sink>(
    rt: &R,
    command: &str,
    source: &mut S,
    sink: &mut K,
) -> Result<u8, AllocError> {
    let gate = match Arc::new(rt.alloc(), OpenGate) {
        Ok(gate) => gate,
        Err(_) => return Err(AllocError),
    };
    let mut usage = Usage::new();
    let status = run_at(rt, command, source, sink, &gate, &mut usage);
    drop(gate);
    status
}

/// A run ended with this status, after these answers.
fn check_end(
    rt: &impl Abort,
    ended: Result<u8, AllocError>,
    answers: &[u8],
    expected: (u8, &[u8]),
    name: &str,
) -> Result<(), AllocError> {
    assert_eq!(rt; (ended?, answers), expected, "{name}");
    Ok(())
}

/// A run ended with this status, and these were its last answers.
fn check_last(
    rt: &impl Abort,
    ended: Result<u8, AllocError>,
    answers: &[u8],
    expected: (u8, &[u8]),
    name: &str,
) -> Result<(), AllocError> {
    assert_eq!(rt; ended?, expected.0, "{name}");
    assert!(rt; answers.ends_with(expected.1), "{name}");
    Ok(())
}

/// A run over the source ends with this status, after these answers.
fn check_run<R: AllocGlobal + Runtime + Abort + 'static>(
    rt: &R,
    source: &mut impl Source,
    expected: (u8, &[u8]),
    name: &str,
) -> Result<(), AllocError> {
    let mut sink = SteadySink::new(rt.alloc());
    let ended = run(rt, "run", source, &mut sink);
    let checked = check_end(rt, ended, sink.bytes(), expected, name);
    drop(sink);
    checked
}

/// A run over the script ends with this status, after these answers.
fn check_script<R: AllocGlobal + Runtime + Abort + 'static>(
    rt: &R,
    script: Vec<u8>,
    expected: (u8, &[u8]),
    name: &str,
) -> Result<(), AllocError> {
    let mut source = SteadySource::new(script);
    let checked = check_run(rt, &mut source, expected, name);
    drop(source);
    checked
}

/// A run over the script ends with this status, and these are its last answers.
fn check_last_answers<R: AllocGlobal + Runtime + Abort + 'static>(
    rt: &R,
    script: Vec<u8>,
    expected: (u8, &[u8]),
    name: &str,
) -> Result<(), AllocError> {
    let mut source = SteadySource::new(script);
    let mut sink = SteadySink::new(rt.alloc());
    let ended = run(rt, "run", &mut source, &mut sink);
    drop(source);
    let checked = check_last(rt, ended, sink.bytes(), expected, name);
    drop(sink);
    checked
}

/// The status that a case wants: 0 or 1, as for each script that is read to its end.
fn status_of(rt: &impl Abort, digits: &str) -> u8 {
    assert!(rt; digits == "0" || digits == "1", "{digits}");
    u8::from(digits == "1")
}

/// The script is answered as the case says.
fn check_case<R: AllocGlobal + Runtime + Abort + 'static>(
    rt: &R,
    case: Case<'_>,
) -> Result<(), AllocError> {
    let status = status_of(rt, case.status);
    let script = Vec::from_slice(rt.alloc(), case.script.as_bytes())?;
    check_script(rt, script, (status, case.answers.as_bytes()), case.name)
}

/// The table has this many cases and nothing else, and each script is answered as its case says.
fn check_cases<R: AllocGlobal + Runtime + Abort + 'static>(
    rt: &R,
    table: &str,
    count: usize,
) -> Result<(), AllocError> {
    let mut rest = table;
    for _ in 0..count {
        let (case, behind) = first_case(rest).expect(rt, "a table has fewer cases");
        check_case(rt, case)?;
        rest = behind;
    }
    assert_eq!(rt; rest, "", "a table has more cases");
    Ok(())
}

#[test]
fn scripts_are_answered(rt: HostRuntime) -> Result<(), AllocError> {
    check_cases(&rt, CASES, 24)
}

#[test]
fn rings_are_answered(rt: HostRuntime) -> Result<(), AllocError> {
    check_cases(&rt, RINGS, 7)
}

#[test]
fn pairs_are_answered(rt: HostRuntime) -> Result<(), AllocError> {
    check_cases(&rt, PAIRS, 7)
}

#[test]
fn limits_of_nodes_are_answered(rt: HostRuntime) -> Result<(), AllocError> {
    check_cases(&rt, NODES, 8)
}

#[test]
fn edited_domains_are_answered(rt: HostRuntime) -> Result<(), AllocError> {
    check_cases(&rt, EDITS, 4)
}

#[test]
fn flooded_domains_are_answered(rt: HostRuntime) -> Result<(), AllocError> {
    check_cases(&rt, FIELD, 3)
}

#[test]
fn adjacency_labels_are_answered(rt: HostRuntime) -> Result<(), AllocError> {
    check_cases(&rt, ACTIVE, 12)
}

#[test]
fn certificates_are_answered(rt: HostRuntime) -> Result<(), AllocError> {
    check_cases(&rt, CERTIFICATES, 6)
}

#[test]
fn loads_are_answered(rt: HostRuntime) -> Result<(), AllocError> {
    check_cases(&rt, LOADS, 4)
}

#[test]
fn accounts_are_answered(rt: HostRuntime) -> Result<(), AllocError> {
    check_cases(&rt, ACCOUNTS, 2)
}

#[test]
fn groups_are_answered(rt: HostRuntime) -> Result<(), AllocError> {
    check_cases(&rt, GROUPS, 3)
}

#[test]
fn tries_are_answered(rt: HostRuntime) -> Result<(), AllocError> {
    check_cases(&rt, TRIES, 2)
}

#[test]
fn differences_are_answered(rt: HostRuntime) -> Result<(), AllocError> {
    check_cases(&rt, DIFFERENCES, 2)
}

#[test]
fn reasons_are_answered(rt: HostRuntime) -> Result<(), AllocError> {
    check_cases(&rt, REASONS, 3)
}

#[test]
fn flooded_domains_are_audited(rt: HostRuntime) -> Result<(), AllocError> {
    check_cases(&rt, AUDITS, 2)
}

/// These words are no command: with them nothing is read or written, and the status is 2.
fn check_no_command<R: AllocGlobal + Runtime + Abort + 'static>(
    rt: &R,
    command: &str,
) -> Result<(), AllocError> {
    let script = Vec::from_slice(rt.alloc(), b"commit\n")?;
    let mut source = SteadySource::new(script);
    let mut sink = SteadySink::new(rt.alloc());
    let ended = run(rt, command, &mut source, &mut sink);
    drop(source);
    let checked = check_end(rt, ended, sink.bytes(), (2, b""), command);
    drop(sink);
    checked
}

#[test]
fn other_words_are_no_command(rt: HostRuntime) -> Result<(), AllocError> {
    for command in [
        "fly",
        "",
        "run run",
        "run x",
        "Run",
        "runs",
        "make",
        "make --nodes 2 --start 0",
        "make --nodes 257 --start 0",
    ] {
        check_no_command(&rt, command)?;
    }
    Ok(())
}
