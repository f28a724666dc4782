//! How the watchers of a watch are started.
ghost use Rattle.std.specs.Prelude.{◌≡◌, ◌+◌, ◌≤◌, ◌^◌, All, vec_len};
ghost use Rattle.std.specs.Arc.{arc_value};
ghost use Rattle.std.specs.Thread.{IsSync};
ghost use Rattle.sr_watch.specs.Rounds.{inspection_by};
ghost use Rattle.sr_watch.specs.Made.{Alone, Made};
ghost use Rattle.sr_watch.specs.Starts.{IsSeated, IsApart, SeatedFrom, ApartFrom, next_task};
ghost use Rattle.sr_watch.specs.Turns.{AreFew, IsRoomFor};

use crate::apart::{Apart, Rounds, looks};
use crate::inspect::{Gate, Inspect};
use crate::running::Running;
use crate::seated::{Finished, Seated, rounds};
use crate::stock::Outlook;
use crate::task::Task;
use sr_base::{Numbered, Runtime};
use sr_store::Reader;
use std::alloc::Global;
use std::snapshot::Snapshot;
use std::sync::Arc;

// Starts one watcher at its reader.
fn seat_one<R, V, I, G>(
    rt: &R,
    alloc: Global,
    task: Task<I>,
    gate: Arc<G>,
    reader: Reader<V>,
) -> Running<Finished<V, I::Out>, Seated<V, I>>
where
    R: Runtime + 'static,
    V: Numbered + Drop + Send + Sync + 'static,
    I: Inspect<V> + Drop + 'static,
    I::Out: Drop + Send + 'static,
    G: Gate + 'static,
    requires shared { IsSync R.row }
    requires few { task.first + task.rounds ≤ 2 ^ 32 }
    ensures { IsSeated task reader result }
{
    let plan = Seated {
        task,
        start: Snapshot::of(&reader),
    };
    let same = Seated {
        task,
        start: Snapshot::of(&reader),
    };
    let own = *rt;
    Running::begin(
        rt,
        plan,
        same,
        move || -> Finished<V, I::Out>
            requires shared { IsSync R.row }
            requires few { task.first + task.rounds ≤ 2 ^ 32 }
            ensures { Made (inspection_by V.number_of I.means) task reader result }
        { rounds(own, alloc, task, gate, reader) },
    )
}

/// Starts one watcher on a version.
pub(crate) fn set_one_apart<R, V, I, G>(
    rt: &R,
    alloc: Global,
    task: Task<I>,
    gate: Arc<G>,
    version: Arc<V>,
) -> Running<Rounds<I::Out>, Apart<V, I>>
where
    R: Runtime + 'static,
    V: Numbered + Drop + Send + Sync + 'static,
    I: Inspect<V> + Drop + 'static,
    I::Out: Drop + Send + 'static,
    G: Gate + 'static,
    requires shared { IsSync R.row }
    requires few { task.first + task.rounds ≤ 2 ^ 32 }
    ensures { IsApart task (arc_value version) result }
{
    let seen: &V = &version;
    let plan = Apart {
        task,
        version: Snapshot::of(seen),
    };
    let same = Apart {
        task,
        version: Snapshot::of(seen),
    };
    let own = *rt;
    Running::begin(
        rt,
        plan,
        same,
        move || -> Rounds<I::Out>
            requires shared { IsSync R.row }
            requires few { task.first + task.rounds ≤ 2 ^ 32 }
            ensures { Alone (inspection_by V.number_of I.means) task (arc_value version) result }
        { looks(own, alloc, task, gate, version) },
    )
}

/// Starts a watcher at each of these readers, numbered on from the task's watcher. There are as many gates, and there
/// is room.
pub(crate) fn seat_all<R, V, I, G>(
    rt: &R,
    alloc: Global,
    before: Task<I>,
    readers: Vec<Reader<V>>,
    gates: Vec<Arc<G>>,
    room: Vec<Running<Finished<V, I::Out>, Seated<V, I>>>,
) -> Vec<Running<Finished<V, I::Out>, Seated<V, I>>>
where
    R: Runtime + 'static,
    V: Numbered + Drop + Send + Sync + 'static,
    I: Inspect<V> + Drop + 'static,
    I::Out: Drop + Send + 'static,
    G: Gate + 'static,
    requires shared { IsSync R.row }
    requires few { AreFew before (vec_len readers) }
    requires room { IsRoomFor (vec_len readers) room }
    requires gates { vec_len gates ≡ vec_len readers }
    ensures { SeatedFrom (next_task before) readers.items result.items
        × (vec_len result ≡ vec_len readers) }
{
    let mut seated = room;
    let mut gates = gates;
    let mut task = before;
    for reader in readers {
        task.watcher += 1;
        let gate = match gates.pop() {
            Some(gate) => gate,
            None => unreachable!(),
        };
        let one = seat_one(rt, alloc, task, gate, reader);
        seated.push_reserved(one);
    }
    seated
}

/// Starts a watcher on each of these copies of a version, numbered on from the task's watcher. There is room.
pub(crate) fn set_all_apart<R, V, I, G>(
    rt: &R,
    alloc: Global,
    before: Task<I>,
    version: &Arc<V>,
    outlooks: Vec<Outlook<V, G>>,
    room: Vec<Running<Rounds<I::Out>, Apart<V, I>>>,
) -> Vec<Running<Rounds<I::Out>, Apart<V, I>>>
where
    R: Runtime + 'static,
    V: Numbered + Drop + Send + Sync + 'static,
    I: Inspect<V> + Drop + 'static,
    I::Out: Drop + Send + 'static,
    G: Gate + 'static,
    requires shared { IsSync R.row }
    requires few { AreFew before (vec_len outlooks) }
    requires room { IsRoomFor (vec_len outlooks) room }
    requires same { All (λ o. arc_value o.version ≡ arc_value version.now) outlooks.items }
    ensures { ApartFrom (next_task before) (arc_value version.now) result.items
        × (vec_len result ≡ vec_len outlooks) }
{
    let _version = version;
    let mut apart = room;
    let mut task = before;
    for outlook in outlooks {
        let Outlook { gate, version } = outlook;
        task.watcher += 1;
        let one = set_one_apart(rt, alloc, task, gate, version);
        apart.push_reserved(one);
    }
    apart
}
