//! The program over any source and any sink.
ghost use Rattle.sr_engine.specs.Endings.{devices_of};
ghost use Rattle.sr_run.specs.Handlers.{RunsLent};
ghost use Rattle.sr_run.specs.Program.{RunsTo, RunsThrough};
ghost use Rattle.sr_run.specs.Usage.{lent_of};

use crate::background::ScriptSession;
use crate::lines::run_script;
use sr_base::{Runtime, Sink, Source};
use sr_engine::End;
use sr_make::make;
use sr_spf::Steps;
use sr_store::Usage;
use sr_watch::Gate;
use sr_words::{AskedTask, task_of};
use std::alloc::AllocGlobal;
use std::mem::replace;
use std::sync::Arc;
use std::sync::ledger::Ledger;

/// How a run over a script ended, and the counter of searches, which is given back.
#[derive(Drop)]
struct RunEnded<L: Ledger> {
    end: End,
    steps: Steps<L>,
}

/// The status that the program ends with, and the counter of searches, which is given back.
#[derive(Drop)]
pub struct Ended<L: Ledger> {
    pub status: u8,
    pub steps: Steps<L>,
}

/// Runs a script: reads it from the source, and writes the answers to the sink. Work that still runs at an early end is
/// joined.
fn run_lent<R: AllocGlobal + Runtime + 'static, S: Source, K: Sink, G: Gate + 'static, L: Ledger>(
    rt: &R,
    source: &mut S,
    sink: &mut K,
    gate: &Arc<G>,
    usage: &mut Usage,
    steps: Steps<L>,
) -> RunEnded<L>
    ensures { RunsLent
        (devices_of (S.left source.old) (K.held sink.old) (S.faults source.old) (K.faults sink.old))
        (devices_of (S.left source.new) (K.held sink.new) (S.faults source.new) (K.faults sink.new))
        (lent_of usage.old steps) (lent_of usage.new result.steps) result.end }
{
    let alloc = rt.alloc();
    let gate = match Arc::try_clone(gate) {
        Ok(gate) => gate,
        Err(_) => return RunEnded {
            end: End::Memory,
            steps,
        },
    };
    let mut session = ScriptSession::new(alloc, gate, replace(usage, Usage::new()), steps);
    let end = run_script(rt, alloc, &mut session, source, sink);
    let (used, steps) = session.end(rt);
    *usage = used;
    RunEnded { end, steps }
}

/// The program: where the words ask for `run`, it reads a script from the source and writes the answers to the sink.
/// Where they ask for `make`, it reads nothing, and writes the script that is made from their numbers. The answer is the
/// program's status, with the counter of searches.
///
/// 0: the script was read to its end, and no line was refused, or the script that was asked for was written; 1: it was
/// read to its end, and a line was refused; 2: the words aren't a command, and nothing was read; 3: a read failed; 4: a
/// write failed; 5: memory ran out; 6: the script has more than 33,554,432 bytes.
///
/// A commit splits its cases among threads where there are any: the answers are the same without. Each round of a watch
/// passes the gate before it looks at a version, which tests show and no clause says. The usage counts the places that
/// watches asked for, the readers that they were given, the versions that were published to them and their turns; what it
/// shows is said of a usage that is new, where the status is 0 or 1. The counter counts searches for distances: where the
/// status is 0 or 1 it grew by no more than what the accepted commits may search for, and one for each certificate that
/// was asked for.
pub fn tilfa<R: AllocGlobal + Runtime + 'static, S: Source, K: Sink, G: Gate + 'static, L: Ledger>(
    rt: &R,
    words: &[String],
    source: &mut S,
    sink: &mut K,
    gate: &Arc<G>,
    usage: &mut Usage,
    steps: Steps<L>,
) -> Ended<L>
    ensures outcome { RunsTo words.now
        (devices_of (S.left source.old) (K.held sink.old) (S.faults source.old) (K.faults sink.old))
        (devices_of (S.left source.new) (K.held sink.new) (S.faults source.new) (K.faults sink.new))
        (lent_of usage.old steps) (lent_of usage.new result.steps) result.status }
    ensures completes { RunsThrough words.now
        (devices_of (S.left source.old) (K.held sink.old) (S.faults source.old) (K.faults sink.old))
        (devices_of (S.left source.new) (K.held sink.new) (S.faults source.new) (K.faults sink.new)) result.status }
{
    let alloc = rt.alloc();
    match task_of(alloc, words) {
        Ok(Some(AskedTask::Run)) => {
            let RunEnded { end, steps } = run_lent(rt, source, sink, gate, usage, steps);
            Ended {
                status: end.status(),
                steps,
            }
        }
        Ok(Some(AskedTask::Make { nodes, start })) => Ended {
            status: make(alloc, nodes, start, sink).status(),
            steps,
        },
        Ok(None) => Ended { status: 2, steps },
        Err(_) => Ended {
            status: End::Memory.status(),
            steps,
        },
    }
}
