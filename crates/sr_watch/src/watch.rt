//! A watch: what runs between two calls.
ghost use Rattle.std.specs.Prelude.{◌≡◌, ◌≤◌, IfOk, IfErr, vec_len};
ghost use Rattle.std.specs.Arc.{arc_value};
ghost use Rattle.std.specs.Thread.{IsSync};
ghost use Rattle.sr_watch.specs.Rounds.{inspection_by};
ghost use Rattle.sr_watch.specs.Starts.{Holds, Started};
ghost use Rattle.sr_watch.specs.Joins.{Joins};

use crate::apart::{Apart, Rounds};
use crate::inspect::{Gate, Inspect, OpenGate};
use crate::joined::{Joined, in_order, join_apart, join_seated};
use crate::launch::{seat_all, set_all_apart, set_one_apart};
use crate::running::Running;
use crate::seated::{Finished, Seated};
use crate::stock::{Stock, take_stock};
use crate::task::{Rota, Task};
use sr_base::{Numbered, Runtime};
use sr_store::Reader;
use std::alloc::{AllocError, Global};
use std::marker::Model;
use std::sync::Arc;
use std::thread::Threads;

/// The watchers that run, and room for their readers. Contracts see it as the plans of its watchers: of those that have
/// a reader, and of those that have none. It isn't `Drop`, so whoever has one joins it or hands it on.
pub struct Watch<V: Numbered + Drop, I: Inspect<V> + Drop>
where
    I::Out: Drop,
{
    alloc: Global,
    seated: Vec<Running<Finished<V, I::Out>, Seated<V, I>>>,
    apart: Vec<Running<Rounds<I::Out>, Apart<V, I>>>,
    room: Vec<Reader<V>>,
}

impl<V: Numbered + Drop, I: Inspect<V> + Drop> Model for Watch<V, I>
where
    I::Out: Drop,
{
    ghost use Rattle.std.specs.Prelude.{vec_len};
    ghost use Rattle.sr_watch.specs.Starts.{Plans};
    ghost use Rattle.sr_watch.specs.Turns.{IsRoomFor};

    ghost Value = { Plans V I };

    ghost view = { λ w. record { seated = w.seated.items; apart = w.apart.items } };

    ghost invariant = { λ w. IsRoomFor (vec_len w.seated) w.room };
}

/// Starts the rota's watchers: the first of them at these readers, in their order, and those beyond the readers on the
/// current version. In each round a watcher passes the gate, grabs if it has a reader, and inspects. Where a thread
/// can't be started, this call makes that watcher's rounds itself. The error is out of memory: no watcher was started,
/// and the readers are as they were.
pub fn start<R, V, I, G>(
    rt: &R,
    alloc: Global,
    inspect: I,
    gate: &Arc<G>,
    readers: Vec<Reader<V>>,
    rota: Rota,
    current: Arc<V>,
) -> Result<Watch<V, I>, (AllocError, Vec<Reader<V>>)>
where
    R: Runtime + 'static,
    V: Numbered + Drop + Send + Sync + 'static,
    I: Inspect<V> + Drop + 'static,
    I::Out: Drop + Send + 'static,
    G: Gate + 'static,
    requires shared { IsSync R.row }
    requires few { vec_len readers ≤ rota.watchers }
    ensures started { IfOk result (Started inspect rota readers.items (arc_value current)) }
    ensures refused { IfErr result (λ e. e.1 ≡ readers) }
{
    let Rota { watchers, rounds } = rota;
    let given = readers.len();
    let others = watchers as usize - given;
    let stock = match take_stock(alloc, gate, &current, given, others) {
        Ok(stock) => stock,
        Err(refused) => return Err((refused, readers)),
    };
    let Stock {
        gates,
        outlooks,
        seated,
        apart,
        room,
    } = stock;
    let mut before = Task {
        inspect,
        watcher: 0,
        first: 1,
        rounds,
    };
    let seated = seat_all(rt, alloc, before, readers, gates, seated);
    before.watcher = given as u32;
    let apart = set_all_apart(rt, alloc, before, &current, outlooks, apart);
    Ok(Watch {
        alloc,
        seated,
        apart,
        room,
    })
}

/// Starts one watcher on this version. It is of number 0, and makes one round, of number 0. Where a thread can't be
/// started, this call makes that round itself. The error is out of memory: nothing was started.
pub fn hold<R, V, I>(
    rt: &R,
    alloc: Global,
    inspect: I,
    version: Arc<V>,
) -> Result<Watch<V, I>, AllocError>
where
    R: Runtime + 'static,
    V: Numbered + Drop + Send + Sync + 'static,
    I: Inspect<V> + Drop + 'static,
    I::Out: Drop + Send + 'static,
    requires shared { IsSync R.row }
    ensures { IfOk result (Holds inspect (arc_value version)) }
{
    let gate = Arc::new(alloc, OpenGate)?;
    let mut apart = match Vec::with_capacity(alloc, 1) {
        Ok(apart) => apart,
        Err(refused) => return Err(refused),
    };
    let task = Task {
        inspect,
        watcher: 0,
        first: 0,
        rounds: 1,
    };
    apart.push_reserved(set_one_apart(rt, alloc, task, gate, version));
    Ok(Watch {
        alloc,
        seated: Vec::new(alloc),
        apart,
        room: Vec::new(alloc),
    })
}

impl<V: Numbered + Drop, I: Inspect<V> + Drop> Watch<V, I>
where
    I::Out: Drop,
{
    /// Waits for all watchers. It gives their readers back, in their order, and all rounds, in order of watcher and
    /// round. Where memory ran out, in a watcher's round or here, the result is that error, and the readers come back
    /// all the same.
    pub fn join(self, rt: &impl Threads) -> Joined<V, I::Out>
        ensures { Joins (inspection_by V.number_of I.means) self result }
    {
        let Watch {
            alloc,
            seated,
            apart,
            room,
        } = self;
        let mut readers = room;
        let mut first = Vec::new(alloc);
        let mut last = Vec::new(alloc);
        let whole = join_seated(rt, seated, &mut readers, &mut first);
        let also = join_apart(rt, apart, &mut last);
        if whole && also {
            Joined {
                readers,
                result: in_order(first, last),
            }
        } else {
            Joined {
                readers,
                result: Err(AllocError),
            }
        }
    }
}
