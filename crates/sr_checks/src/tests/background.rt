//! Background work: holds and watches, with the answers that an independent program gives, at gates that make threads
//! meet, and over a source that tells when it is asked for more.
ghost use Rattle.std.specs.Prelude.{None};

use super::devices::bytewise;
use super::{check_cases, check_last, check_run, run_at};
use sr_base::{Failed, Runtime, Source, SteadySink, SteadySource};
use sr_store::Usage;
use sr_watch::Gate;
use std::alloc::{AllocError, AllocGlobal, Global};
use std::process::Abort;
use std::sync::Arc;
use std::sync::atomic::AtomicU64;
use std::sync::atomic::Ordering::SeqCst;
use std::test::Fail;
use std::thread::yield_now;

/// How often a gate looks before it lets a watcher pass all the same.
const MOST_LOOKS: u64 = 10_000_000;

/// Four routers in a ring, and a commit.
const RING: &str =
    "lsp 831b010014010000007d04b0000000000001000000000001000003f2100a00000100020980001f400103003e80871200000000600a000001080306400000000001161c0000000000020000000111040800000001000000011f053000005dc1161c0000000000040000000111040800000004000000041f053000005dc4\n\
                lsp 831b010014010000007d04b0000000000002000000000001000003f2100a00000200020980001f400103003e80871200000000600a000002080306400000000002161c0000000000010000000111040800000001000000011f053000005dc1161c0000000000030000000111040800000002000000021f053000005dc2\n\
                lsp 831b010014010000007d04b0000000000003000000000001000003f2100a00000300020980001f400103003e80871200000000600a000003080306400000000003161c0000000000020000000111040800000002000000021f053000005dc2161c0000000000040000000111040800000003000000031f053000005dc3\n\
                lsp 831b010014010000007d04b0000000000004000000000001000003f2100a00000400020980001f400103003e80871200000000600a000004080306400000000004161c0000000000030000000111040800000003000000031f053000005dc3161c0000000000010000000111040800000004000000041f053000005dc4\n\
                commit\n";

/// A watch of two rounds, and a commit while it runs.
const WATCHED: &str = "watch 1 2\n\
                down 0000.0000.0001 0000.0000.0002 1\n\
                commit\n";

/// Holds and watches: see `cases.rt`.
const BACKGROUND: &str = "a hold, a watch, and what each reports\n\
    lsp 831b010014010000007d04b0000000000001000000000001000003f2100a00000100020980001f400103003e80871200000000600a000001080306400000000001161c0000000000020000000111040800000001000000011f053000005dc1161c0000000000040000000111040800000004000000041f053000005dc4\n\
    lsp 831b010014010000007d04b0000000000002000000000001000003f2100a00000200020980001f400103003e80871200000000600a000002080306400000000002161c0000000000010000000111040800000001000000011f053000005dc1161c0000000000030000000111040800000002000000021f053000005dc2\n\
    lsp 831b010014010000007d04b0000000000003000000000001000003f2100a00000300020980001f400103003e80871200000000600a000003080306400000000003161c0000000000020000000111040800000002000000021f053000005dc2161c0000000000040000000111040800000003000000031f053000005dc3\n\
    lsp 831b010014010000007d04b0000000000004000000000001000003f2100a00000400020980001f400103003e80871200000000600a000004080306400000000004161c0000000000030000000111040800000003000000031f053000005dc3161c0000000000010000000111040800000004000000041f053000005dc4\n\
    commit\n\
    hold\n\
    down 0000.0000.0001 0000.0000.0002 1\n\
    commit\n\
    join\n\
    watch 1 2\n\
    watch 1 1\n\
    join\n\
    join\n\
    repair link 0000.0000.0001 0000.0000.0002 1 0000.0000.0002\n\
    up 0000.0000.0001 0000.0000.0002 1\n\
    commit\n\
    show\n\
    @ 1\n\
    staged 1\n\
    staged 2\n\
    staged 3\n\
    staged 4\n\
    version 1 nodes 4 links 8\n\
    hold version 1\n\
    staged 1\n\
    version 2 nodes 4 links 6\n\
    report hold version 1 covered 40 nopath 0 nolist 0 toodeep 0\n\
    joined 1\n\
    watch 1 2 from version 2\n\
    refused 11 26 WatchRunning\n\
    report watch 1 1 version 2 covered 0 nopath 30 nolist 0 toodeep 0\n\
    report watch 1 2 version 2 covered 0 nopath 30 nolist 0 toodeep 0\n\
    joined 2\n\
    joined 0\n\
    refused 14 22 NoLink 0000.0000.0001 0000.0000.0002 1\n\
    staged 1\n\
    version 3 nodes 4 links 8\n\
    show version 3 nodes 4 links 8 depth 3 staged 0\n\
    @\n\
    a hold at the end of a script is on its own version\n\
    lsp 831b010014010000007d04b0000000000001000000000001000003f2100a00000100020980001f400103003e80871200000000600a000001080306400000000001161c0000000000020000000111040800000001000000011f053000005dc1161c0000000000040000000111040800000004000000041f053000005dc4\n\
    lsp 831b010014010000007d04b0000000000002000000000001000003f2100a00000200020980001f400103003e80871200000000600a000002080306400000000002161c0000000000010000000111040800000001000000011f053000005dc1161c0000000000030000000111040800000002000000021f053000005dc2\n\
    lsp 831b010014010000007d04b0000000000003000000000001000003f2100a00000300020980001f400103003e80871200000000600a000003080306400000000003161c0000000000020000000111040800000002000000021f053000005dc2161c0000000000040000000111040800000003000000031f053000005dc3\n\
    lsp 831b010014010000007d04b0000000000004000000000001000003f2100a00000400020980001f400103003e80871200000000600a000004080306400000000004161c0000000000030000000111040800000003000000031f053000005dc3161c0000000000010000000111040800000004000000041f053000005dc4\n\
    commit\n\
    hold\n\
    down 0000.0000.0001 0000.0000.0002 1\n\
    commit\n\
    @ 0\n\
    staged 1\n\
    staged 2\n\
    staged 3\n\
    staged 4\n\
    version 1 nodes 4 links 8\n\
    hold version 1\n\
    staged 1\n\
    version 2 nodes 4 links 6\n\
    report hold version 1 covered 40 nopath 0 nolist 0 toodeep 0\n\
    joined 1\n\
    @\n\
    a watch begun by a last line without a line feed\n\
    lsp 831b010014010000007d04b0000000000001000000000001000003f2100a00000100020980001f400103003e80871200000000600a000001080306400000000001161c0000000000020000000111040800000001000000011f053000005dc1161c0000000000040000000111040800000004000000041f053000005dc4\n\
    lsp 831b010014010000007d04b0000000000002000000000001000003f2100a00000200020980001f400103003e80871200000000600a000002080306400000000002161c0000000000010000000111040800000001000000011f053000005dc1161c0000000000030000000111040800000002000000021f053000005dc2\n\
    lsp 831b010014010000007d04b0000000000003000000000001000003f2100a00000300020980001f400103003e80871200000000600a000003080306400000000003161c0000000000020000000111040800000002000000021f053000005dc2161c0000000000040000000111040800000003000000031f053000005dc3\n\
    lsp 831b010014010000007d04b0000000000004000000000001000003f2100a00000400020980001f400103003e80871200000000600a000004080306400000000004161c0000000000030000000111040800000003000000031f053000005dc3161c0000000000010000000111040800000004000000041f053000005dc4\n\
    commit\n\
    watch 2 2@ 0\n\
    staged 1\n\
    staged 2\n\
    staged 3\n\
    staged 4\n\
    version 1 nodes 4 links 8\n\
    watch 2 2 from version 1\n\
    report watch 1 1 version 1 covered 40 nopath 0 nolist 0 toodeep 0\n\
    report watch 1 2 version 1 covered 40 nopath 0 nolist 0 toodeep 0\n\
    report watch 2 1 version 1 covered 40 nopath 0 nolist 0 toodeep 0\n\
    report watch 2 2 version 1 covered 40 nopath 0 nolist 0 toodeep 0\n\
    joined 4\n\
    @\n\
    no version, and work that runs already\n\
    hold\n\
    watch 1 1\n\
    join\n\
    commit\n\
    hold\n\
    hold\n\
    watch 8 16\n\
    join\n\
    @ 1\n\
    refused 1 25 NoVersion\n\
    refused 2 25 NoVersion\n\
    joined 0\n\
    version 1 nodes 0 links 0\n\
    hold version 1\n\
    refused 6 26 WatchRunning\n\
    refused 7 26 WatchRunning\n\
    report hold version 1 covered 0 nopath 0 nolist 0 toodeep 0\n\
    joined 1\n\
    @\n";

#[test]
fn background_work_is_answered(rt: HostRuntime) -> Result<(), AllocError> {
    check_cases(&rt, BACKGROUND, 4)
}

/// How a run is to end: its status, its last answers, and what its usage counts.
struct Ended {
    status: u8,
    answers: &'static [u8],
    places: u64,
    given: u64,
    published: u64,
    turns: u64,
}

/// The usage counts thus.
fn check_usage(rt: &impl Abort, usage: &Usage, expected: &Ended) {
    assert_eq!(rt;
        (usage.places(), usage.given()),
        (expected.places, expected.given)
    );
    assert_eq!(rt;
        (usage.published(), usage.turns()),
        (expected.published, expected.turns)
    );
}

/// A run over the source at this gate ends thus.
fn check_ended<R: AllocGlobal + Runtime + Abort + 'static, G: Gate + 'static>(
    rt: &R,
    source: &mut impl Source,
    gate: &Arc<G>,
    expected: &Ended,
) -> Result<(), AllocError> {
    let mut sink = SteadySink::new(rt.alloc());
    let mut usage = Usage::new();
    let ended = run_at(rt, "run", source, &mut sink, gate, &mut usage);
    check_usage(rt, &usage, expected);
    let end = (expected.status, expected.answers);
    let checked = check_last(rt, ended, sink.bytes(), end, "background work");
    drop(sink);
    checked
}

/// The gate saw what it was to wait for.
fn check_met(rt: &impl Abort, met: &AtomicU64) {
    assert_eq!(rt; met.load(SeqCst), 1);
}

/// Holds watcher 1 in its first round until watcher 2 has passed, and keeps whether it saw that.
#[derive(Drop)]
struct Meeting {
    passed: AtomicU64,
    met: AtomicU64,
}

impl Gate for Meeting {
    fn pass(&self, watcher: u32, round: u32) {
        if watcher == 2 {
            self.passed.store(1, SeqCst);
        } else if round == 1 {
            for _ in 0..MOST_LOOKS {
                if self.passed.load(SeqCst) == 1 {
                    self.met.store(1, SeqCst);
                    break;
                }
                yield_now();
            }
        }
    }
}

/// Two watchers of one round.
const TWO_WATCHERS: Ended = Ended {
    status: 0,
    answers: b"",
    places: 2,
    given: 2,
    published: 0,
    turns: 2,
};

#[test]
fn watchers_run_beside_each_other(rt: HostRuntime) -> Result<(), Fail> {
    let script = Vec::from_slice(rt.alloc(), b"commit\nwatch 2 1\njoin\n")?;
    let gate = Arc::new(
        rt.alloc(),
        Meeting {
            passed: AtomicU64::new(0),
            met: AtomicU64::new(0),
        },
    )?;
    let mut source = SteadySource::new(script);
    let checked = check_ended(&rt, &mut source, &gate, &TWO_WATCHERS);
    drop(source);
    check_met(&rt, &gate.met);
    drop(gate);
    Ok(checked?)
}

/// Gives some bytes, raises a flag when it is asked again, and then gives the rest.
#[derive(Drop)]
struct Flagging {
    first: SteadySource,
    rest: SteadySource,
    flag: Arc<Flagged>,
    given: bool,
}

impl Source for Flagging {
    ghost left = { λ s. None };

    ghost faults = { λ s. 0 };

    fn read(&mut self, buf: &mut [u8]) -> Result<usize, Failed> {
        if !self.given {
            self.given = true;
            return self.first.read(buf);
        }
        self.flag.raised.store(1, SeqCst);
        self.rest.read(buf)
    }
}

/// Holds watcher 1 in its second round until a flag is raised, and keeps whether it saw that.
#[derive(Drop)]
struct Flagged {
    raised: AtomicU64,
    met: AtomicU64,
}

impl Gate for Flagged {
    fn pass(&self, _watcher: u32, round: u32) {
        if round == 2 {
            for _ in 0..MOST_LOOKS {
                if self.raised.load(SeqCst) == 1 {
                    self.met.store(1, SeqCst);
                    break;
                }
                yield_now();
            }
        }
    }
}

/// A watcher of two rounds, and the version that is published before the second.
const TWO_ROUNDS: Ended = Ended {
    status: 0,
    answers: b"report watch 1 2 version 2 covered 0 nopath 30 nolist 0 toodeep 0\njoined 2\n",
    places: 1,
    given: 1,
    published: 1,
    turns: 2,
};

/// The ring, and what is watched.
fn watched(alloc: Global) -> Result<Vec<u8>, AllocError> {
    let mut script = Vec::from_slice(alloc, RING.as_bytes())?;
    script.extend_from_slice(WATCHED.as_bytes())?;
    Ok(script)
}

/// What is to hold at a gate that waits until the second version is published.
fn check_flagged<R: AllocGlobal + Runtime + Abort + 'static>(
    rt: &R,
    gate: &Arc<Flagged>,
) -> Result<(), Fail> {
    let first = watched(rt.alloc())?;
    let rest = Vec::from_slice(rt.alloc(), b"join\n")?;
    let mut source = Flagging {
        first: SteadySource::new(first),
        rest: SteadySource::new(rest),
        flag: Arc::try_clone(gate)?,
        given: false,
    };
    let checked = check_ended(rt, &mut source, gate, &TWO_ROUNDS);
    drop(source);
    check_met(rt, &gate.met);
    Ok(checked?)
}

#[test]
fn a_watcher_sees_what_was_published(rt: HostRuntime) -> Result<(), Fail> {
    let gate = Arc::new(
        rt.alloc(),
        Flagged {
            raised: AtomicU64::new(0),
            met: AtomicU64::new(0),
        },
    )?;
    let checked = check_flagged(&rt, &gate);
    drop(gate);
    checked
}

/// What is answered before the read that fails: of the hold no report.
const HELD: &[u8] = b"version 1 nodes 0 links 0\nhold version 1\n";

#[test]
fn a_read_fails_while_a_hold_runs(rt: HostRuntime) -> Result<(), AllocError> {
    let mut source = bytewise(rt.alloc(), b"commit\nhold\n", 0, &[1])?;
    let checked = check_run(&rt, &mut source, (3, HELD), "a hold");
    drop(source);
    checked
}
