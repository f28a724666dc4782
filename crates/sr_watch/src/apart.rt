//! A watcher that has no reader, and looks at one version.
ghost use Rattle.std.specs.Prelude.{◌+◌, ◌≤◌, ◌^◌};
ghost use Rattle.std.specs.Arc.{arc_value};
ghost use Rattle.std.specs.Thread.{IsSync};
ghost use Rattle.sr_watch.specs.Rounds.{inspection_by};
ghost use Rattle.sr_watch.specs.Made.{Alone};

use crate::inspect::{Gate, Inspect, Round, inspected};
use crate::task::Task;
use sr_base::{Numbered, Runtime};
use std::alloc::{AllocError, Global};
use std::snapshot::Snapshot;
use std::sync::Arc;
use std::thread::Promise;

/// What such a watcher is given: its task, and the version.
#[derive(Drop)]
pub struct Apart<V: Drop, I: Drop> {
    pub task: Task<I>,
    pub version: Snapshot<V>,
}

/// What it hands back: all its rounds, or out of memory.
#[derive(Drop)]
pub struct Rounds<O> {
    pub result: Result<Vec<Round<O>>, AllocError>,
}

impl<V: Numbered + Drop, I: Inspect<V> + Drop> Promise<Rounds<I::Out>> for Apart<V, I> {
    ghost kept_by = { λ p r. Alone (inspection_by V.number_of I.means) p.task p.version.value r };
}

/// Makes all rounds of such a watcher, in this thread.
pub(crate) fn looks<R: Runtime, V: Numbered + Drop, I: Inspect<V>, G: Gate>(
    rt: R,
    alloc: Global,
    task: Task<I>,
    gate: Arc<G>,
    version: Arc<V>,
) -> Rounds<I::Out>
where
    I::Out: Drop,
    requires shared { IsSync R.row }
    requires few { task.first + task.rounds ≤ 2 ^ 32 }
    ensures { Alone (inspection_by V.number_of I.means) task (arc_value version) result }
{
    let mut made = Vec::new(alloc);
    for past in 0..task.rounds {
        let round = task.first + past;
        gate.pass(task.watcher, round);
        match inspected(&rt, alloc, task, round, &version) {
            Ok(seen) => match made.push(seen) {
                Ok(()) => {}
                Err(_) => {
                    return Rounds {
                        result: Err(AllocError),
                    };
                }
            },
            Err(refused) => {
                return Rounds {
                    result: Err(refused),
                };
            }
        }
    }
    Rounds { result: Ok(made) }
}
