//! A watcher that has a reader.
ghost use Rattle.std.specs.Prelude.{◌≡◌, ◌+◌, ◌≤◌, ◌^◌, IfOk};
ghost use Rattle.std.specs.Thread.{IsSync};
ghost use Rattle.sr_store.specs.Counts.{counted};
ghost use Rattle.sr_watch.specs.Rounds.{IsOf, inspection_by};
ghost use Rattle.sr_watch.specs.Made.{Kept, Made};

use crate::inspect::{Gate, Inspect, Round, inspected};
use crate::task::Task;
use sr_base::{Numbered, Runtime};
use sr_store::Reader;
use std::alloc::{AllocError, Global};
use std::snapshot::Snapshot;
use std::sync::Arc;
use std::thread::Promise;

/// What such a watcher is given: its task, and its reader as it was then.
#[derive(Drop)]
pub struct Seated<V: Numbered + Drop, I: Drop> {
    pub task: Task<I>,
    pub start: Snapshot<Reader<V>>,
}

/// What it hands back: its reader, and all its rounds, or out of memory.
#[derive(Drop)]
pub struct Finished<V: Numbered + Drop, O> {
    pub reader: Reader<V>,
    pub result: Result<Vec<Round<O>>, AllocError>,
}

impl<V: Numbered + Drop, I: Inspect<V> + Drop> Promise<Finished<V, I::Out>> for Seated<V, I> {
    ghost kept_by = { λ p r. Made (inspection_by V.number_of I.means) p.task p.start.value r };
}

/// One round: a grab, and a look at the reader's last version. The error is out of memory; the turn was taken then too.
fn turn<R: Runtime, V: Numbered + Drop, I: Inspect<V>>(
    rt: &R,
    alloc: Global,
    task: Task<I>,
    round: u32,
    reader: &mut Reader<V>,
) -> Result<Round<I::Out>, AllocError>
    requires shared { IsSync R.row }
    ensures kept { Kept reader.old reader.new }
    ensures turns { reader.new.turns ≡ counted (reader.old.turns + 1) }
    ensures round { IfOk result
        (IsOf (inspection_by V.number_of I.means) task round reader.new.list) }
{
    let _grabbed = reader.grab()?;
    inspected(rt, alloc, task, round, reader.last())
}

/// Makes all rounds of such a watcher, in this thread.
pub(crate) fn rounds<R: Runtime, V: Numbered + Drop, I: Inspect<V>, G: Gate>(
    rt: R,
    alloc: Global,
    task: Task<I>,
    gate: Arc<G>,
    reader: Reader<V>,
) -> Finished<V, I::Out>
where
    I::Out: Drop,
    requires shared { IsSync R.row }
    requires few { task.first + task.rounds ≤ 2 ^ 32 }
    ensures { Made (inspection_by V.number_of I.means) task reader result }
{
    let mut reader = reader;
    let mut made = Vec::new(alloc);
    for past in 0..task.rounds {
        let round = task.first + past;
        gate.pass(task.watcher, round);
        match turn(&rt, alloc, task, round, &mut reader) {
            Ok(seen) => match made.push(seen) {
                Ok(()) => {}
                Err(_) => {
                    return Finished {
                        reader,
                        result: Err(AllocError),
                    };
                }
            },
            Err(refused) => {
                return Finished {
                    reader,
                    result: Err(refused),
                };
            }
        }
    }
    reader.list.is_numbered();
    Finished {
        reader,
        result: Ok(made),
    }
}
