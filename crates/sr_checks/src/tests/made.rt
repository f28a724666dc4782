//! Scripts that are made from two numbers, and then run. The answers are those of an independent program.

use super::{check_end, check_script, run};
use sr_base::{MemorySink, Runtime, SteadySink, SteadySource};
use std::alloc::{AllocError, AllocGlobal};
use std::process::Abort;

/// The answers to the script of three nodes from 0.
const THREE_FROM_0: &str = "staged 1\n\
    staged 2\n\
    staged 3\n\
    version 1 nodes 3 links 6\n\
    audit version 1 covered 12 nopath 0 nolist 0 toodeep 0\n\
    staged 1\n\
    version 2 nodes 3 links 6\n\
    audit version 2 covered 13 nopath 0 nolist 0 toodeep 0\n\
    staged 1\n\
    version 3 nodes 3 links 4\n\
    audit version 3 covered 0 nopath 14 nolist 0 toodeep 0\n\
    show version 3 nodes 3 links 4 depth 3 staged 0\n";

/// The answers to the script of 64 nodes from 7.
const SIXTY_FOUR_FROM_7: &str =
    "staged 1\nstaged 2\nstaged 3\nstaged 4\nstaged 5\nstaged 6\nstaged 7\nstaged 8\n\
    staged 9\nstaged 10\nstaged 11\nstaged 12\nstaged 13\nstaged 14\nstaged 15\nstaged 16\n\
    staged 17\nstaged 18\nstaged 19\nstaged 20\nstaged 21\nstaged 22\nstaged 23\nstaged 24\n\
    staged 25\nstaged 26\nstaged 27\nstaged 28\nstaged 29\nstaged 30\nstaged 31\nstaged 32\n\
    staged 33\nstaged 34\nstaged 35\nstaged 36\nstaged 37\nstaged 38\nstaged 39\nstaged 40\n\
    staged 41\nstaged 42\nstaged 43\nstaged 44\nstaged 45\nstaged 46\nstaged 47\nstaged 48\n\
    staged 49\nstaged 50\nstaged 51\nstaged 52\nstaged 53\nstaged 54\nstaged 55\nstaged 56\n\
    staged 57\nstaged 58\nstaged 59\nstaged 60\nstaged 61\nstaged 62\nstaged 63\nstaged 64\n\
    version 1 nodes 64 links 150\n\
    audit version 1 covered 11705 nopath 253 nolist 0 toodeep 0\n\
    staged 1\n\
    version 2 nodes 64 links 150\n\
    audit version 2 covered 11708 nopath 253 nolist 0 toodeep 0\n\
    staged 1\n\
    version 3 nodes 64 links 148\n\
    audit version 3 covered 11328 nopath 638 nolist 0 toodeep 0\n\
    show version 3 nodes 64 links 148 depth 3 staged 0\n";

/// The script that this command makes has this many bytes, and with it the status is 0.
fn check_making<R: AllocGlobal + Runtime + Abort + 'static>(
    rt: &R,
    command: &str,
    script: &mut SteadySink,
    bytes: usize,
) -> Result<(), AllocError> {
    let mut unread = SteadySource::new(Vec::new(rt.alloc()));
    let ended = run(rt, command, &mut unread, script);
    drop(unread);
    assert_eq!(rt; (ended?, script.bytes().len()), (0, bytes), "{command}");
    Ok(())
}

/// The script that this command makes has this many bytes, and is answered like this. Each status is 0.
fn check_made<R: AllocGlobal + Runtime + Abort + 'static>(
    rt: &R,
    command: &str,
    bytes: usize,
    answers: &str,
) -> Result<(), AllocError> {
    let mut sink = SteadySink::new(rt.alloc());
    let checked = check_making(rt, command, &mut sink, bytes);
    let script = Vec::from_slice(rt.alloc(), sink.bytes());
    drop(sink);
    checked?;
    check_script(rt, script?, (0, answers.as_bytes()), command)
}

#[test]
fn made_scripts_are_answered(rt: HostRuntime) -> Result<(), AllocError> {
    check_made(&rt, "make --nodes 3 --start 0", 1150, THREE_FROM_0)?;
    check_made(&rt, "make --start=7 --nodes=64", 24_361, SIXTY_FOUR_FROM_7)
}

/// Where the first call of the sink fails, nothing is made, and the status is 4. The source is as it was: a run over it
/// and the sink answers its line.
fn check_failed_making<R: AllocGlobal + Runtime + Abort + 'static>(
    rt: &R,
    source: &mut SteadySource,
    sink: &mut MemorySink,
) -> Result<(), AllocError> {
    let made = run(rt, "make --nodes 3 --start 0", source, sink);
    check_end(rt, made, sink.bytes(), (4, b""), "made")?;
    let answered = run(rt, "run", source, sink);
    let answers: &[u8] = b"version 1 nodes 0 links 0\n";
    check_end(rt, answered, sink.bytes(), (0, answers), "answered")
}

/// What is to hold where the first call of the sink fails does.
fn check_first_call<R: AllocGlobal + Runtime + Abort + 'static>(
    rt: &R,
    source: &mut SteadySource,
) -> Result<(), AllocError> {
    let mut sink = MemorySink::new(rt.alloc(), vec![in rt.alloc(); 0u64; 1]?);
    let checked = check_failed_making(rt, source, &mut sink);
    drop(sink);
    checked
}

#[test]
fn a_script_is_made_over_a_failing_sink(rt: HostRuntime) -> Result<(), AllocError> {
    let mut source = SteadySource::new(Vec::from_slice(rt.alloc(), b"commit\n")?);
    let checked = check_first_call(&rt, &mut source);
    drop(source);
    checked
}
