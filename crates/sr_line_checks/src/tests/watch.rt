//! Watches of a small store, of one version, and at a gate that makes two watchers meet.
ghost use Rattle.std.specs.Thread.{IsSync};
ghost use Rattle.std.specs.Prelude.{◌≡◌, ◌<◌, ◌≤◌, ◌+◌, ◌^◌, false, [], ◌∷◌, vec_len};

use super::stamps::Stamp;
use sr_base::Runtime;
use sr_store::{Reader, Usage, Writer, abandon, open};
use sr_watch::{Gate, Inspect, Joined, OpenGate, Rota, Round, Watch, hold, start};
use std::alloc::{AllocError, Global};
use std::process::Abort;
use std::sync::atomic::AtomicU64;
use std::sync::atomic::Ordering::SeqCst;
use std::sync::{Arc, Wait};
use std::test::Fail;
use std::thread::{Threads, yield_now};

/// Tells twice the number of a version.
#[derive(Clone, Copy, Drop)]
struct Doubling;

impl Inspect<Stamp> for Doubling {
    type Out = u64;

    ghost use Rattle.std.specs.Prelude.{◌≡◌, ◌*◌};

    ghost means = { λ inspect stamp out. out ≡ 2 * stamp.number };

    fn inspect<R: Runtime>(
        &self,
        _rt: &R,
        _alloc: Global,
        version: &Stamp,
    ) -> Result<u64, AllocError> {
        Ok(2 * u64::from(version.number))
    }
}

/// How often a watcher looks whether the other has passed.
const MOST_TURNS: u64 = 10_000_000;

/// Holds watcher 1 in its first round until watcher 2 has passed, and keeps whether it saw that.
#[derive(Drop)]
struct Meeting {
    passed: AtomicU64,
    met: AtomicU64,
}

impl Gate for Meeting {
    fn pass(&self, watcher: u32, round: u32) {
        if watcher == 2 {
            self.passed.store(1, SeqCst);
        } else if round == 1 {
            for _ in 0..MOST_TURNS {
                if self.passed.load(SeqCst) == 1 {
                    self.met.store(1, SeqCst);
                    break;
                }
                yield_now();
            }
        }
    }
}

/// The join of a watch that was started, or else the readers that came back.
fn join_started(
    rt: &impl Threads,
    started: Result<Watch<Stamp, Doubling>, (AllocError, Vec<Reader<Stamp>>)>,
) -> Joined<Stamp, u64> {
    match started {
        Ok(watch) => watch.join(rt),
        Err((refused, readers)) => Joined {
            readers,
            result: Err(refused),
        },
    }
}

/// The rounds of watchers without readers, which look at version 7.
fn rounds_without_readers<R: Runtime + 'static, G: Gate + 'static>(
    rt: &R,
    alloc: Global,
    gate: &Arc<G>,
    rota: Rota,
) -> Result<Vec<Round<u64>>, AllocError>
    requires shared { IsSync R.row }
{
    let current = Arc::new(alloc, Stamp { number: 7 })?;
    let started = start(rt, alloc, Doubling, gate, Vec::new(alloc), rota, current);
    join_started(rt, started).result
}

/// The round of these numbers looked at version 7.
fn expect_round(rt: &impl Abort, round: &Round<u64>, watcher: usize, number: u32) {
    assert_eq!(rt; (round.watcher as usize, round.round), (watcher, number));
    assert_eq!(rt; (round.number, round.out), (7, 14));
}

/// These are the first rounds of two watchers.
fn check_first_rounds(rt: &impl Abort, rounds: &[Round<u64>]) {
    assert_eq!(rt; rounds.len(), 2);
    for (at, round) in rounds.iter().enumerate() {
        expect_round(rt, round, at + 1, 1);
    }
}

#[test]
fn two_watchers_without_readers(rt: HostRuntime) -> Result<(), Fail> {
    let gate = Arc::new(rt.alloc(), OpenGate)?;
    let rota = Rota {
        watchers: 2,
        rounds: 1,
    };
    let rounds = rounds_without_readers(&rt, rt.alloc(), &gate, rota)?;
    check_first_rounds(&rt, &rounds);
    drop(rounds);
    Ok(())
}

/// How many readers a hold of version 7 gives back, and its rounds.
fn held_rounds<R: Runtime + 'static>(
    rt: &R,
    alloc: Global,
) -> Result<(usize, Vec<Round<u64>>), AllocError>
    requires shared { IsSync R.row }
{
    let version = Arc::new(alloc, Stamp { number: 7 })?;
    let joined = hold(rt, alloc, Doubling, version)?.join(rt);
    let readers = joined.readers.len();
    drop(joined.readers);
    Ok((readers, joined.result?))
}

#[test]
fn a_hold(rt: HostRuntime) -> Result<(), Fail> {
    let (readers, rounds) = held_rounds(&rt, rt.alloc())?;
    assert_eq!(rt; (readers, rounds.len()), (0, 1));
    for round in &rounds {
        expect_round(&rt, round, 0, 0);
    }
    drop(rounds);
    Ok(())
}

#[test]
fn watchers_run_beside_each_other(rt: HostRuntime) -> Result<(), Fail> {
    let meeting = Meeting {
        passed: AtomicU64::new(0),
        met: AtomicU64::new(0),
    };
    let gate = Arc::new(rt.alloc(), meeting)?;
    let rota = Rota {
        watchers: 2,
        rounds: 2,
    };
    let rounds = rounds_without_readers(&rt, rt.alloc(), &gate, rota)?;
    assert_eq!(rt; (rounds.len(), gate.met.load(SeqCst)), (4, 1));
    drop(rounds);
    drop(gate);
    Ok(())
}

/// Publishes as many versions as are asked for, numbered on from the last one.
fn publish_on<R: Wait>(
    rt: &R,
    alloc: Global,
    writer: &mut Writer<Stamp>,
    last: u32,
    count: u32,
    usage: &mut Usage,
) -> Result<(), AllocError>
    requires open { writer.old.stuck ≡ false }
    requires few { last + count < 2 ^ 32 }
    requires list { writer.old.list.versions ≡ record { number = last } ∷ [] }
{
    for past in 0..count {
        let number = last + past + 1;
        let next = Arc::new(alloc, Stamp { number })?;
        writer.publish(rt, next, usage)?;
    }
    Ok(())
}

/// Three watchers make 200 rounds each, with these readers, while versions 6 to 1,005 are published: what they made, and
/// whether memory sufficed to publish.
fn watch_published<R: Runtime + 'static>(
    rt: &R,
    alloc: Global,
    gate: &Arc<OpenGate>,
    readers: Vec<Reader<Stamp>>,
    current: Arc<Stamp>,
    writer: &mut Writer<Stamp>,
    usage: &mut Usage,
) -> (Joined<Stamp, u64>, Result<(), AllocError>)
    requires shared { IsSync R.row }
    requires few { vec_len readers ≤ 3 }
    requires open { writer.old.stuck ≡ false }
    requires list { writer.old.list.versions ≡ record { number = 5 } ∷ [] }
{
    let rota = Rota {
        watchers: 3,
        rounds: 200,
    };
    let started = start(rt, alloc, Doubling, gate, readers, rota, current);
    let published = publish_on(rt, alloc, writer, 5, 1_000, usage);
    (join_started(rt, started), published)
}

/// The rounds, if all versions were published.
fn rounds_after(
    published: Result<(), AllocError>,
    rounds: Result<Vec<Round<u64>>, AllocError>,
) -> Result<Vec<Round<u64>>, AllocError> {
    match published {
        Ok(()) => rounds,
        Err(refused) => Err(refused),
    }
}

/// Gives the store up: whether each of the readers took 200 turns, and the rounds, if all versions were published.
fn give_up<R: Wait>(
    rt: &R,
    writer: Writer<Stamp>,
    joined: Joined<Stamp, u64>,
    published: Result<(), AllocError>,
) -> Result<(bool, Vec<Round<u64>>), AllocError> {
    let turns = joined.readers.iter().all(|reader| reader.turns() == 200);
    abandon(rt, writer, joined.readers);
    Ok((turns, rounds_after(published, joined.result)?))
}

/// Whether each of two readers took 200 turns beside a writer, and the rounds of three watchers, of which the third has
/// no reader.
fn rounds_beside_a_writer<R: Runtime + 'static>(
    rt: &R,
    alloc: Global,
    usage: &mut Usage,
) -> Result<(bool, Vec<Round<u64>>), AllocError>
    requires shared { IsSync R.row }
{
    let gate = Arc::new(alloc, OpenGate)?;
    let first = Arc::new(alloc, Stamp { number: 5 })?;
    let current = Arc::try_clone(&first)?;
    let (mut writer, readers) = open(rt, alloc, first, 2, usage)?;
    let (joined, published) = watch_published(
        rt,
        alloc,
        &gate,
        readers,
        current,
        &mut writer,
        usage,
    );
    give_up(rt, writer, joined, published)
}

/// The rounds are in order of watcher and version, and the third watcher looks at the first version alone.
fn check_rounds(rt: &impl Abort, rounds: &[Round<u64>]) {
    let mut before = (0, 0);
    for round in rounds {
        assert!(rt; 5 <= round.number && round.number <= 1_005);
        assert!(rt; round.watcher != 3 || round.number == 5);
        assert!(rt; before <= (round.watcher, round.number));
        before = (round.watcher, round.number);
    }
}

#[test]
fn readers_beside_a_writer(rt: HostRuntime) -> Result<(), Fail> {
    let mut usage = Usage::new();
    let (turns, rounds) = rounds_beside_a_writer(&rt, rt.alloc(), &mut usage)?;
    assert!(rt; turns);
    assert_eq!(rt; (rounds.len(), usage.published()), (600, 1_000));
    check_rounds(&rt, &rounds);
    drop(rounds);
    Ok(())
}
