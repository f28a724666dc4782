//! What a watch hands back.
ghost use Rattle.std.specs.Prelude.{◌≡◌, ◌+◌, ◌++◌, [], true, IfOk, IsOkAnd, vec_len};
ghost use Rattle.sr_watch.specs.Rounds.{inspection_by};
ghost use Rattle.sr_watch.specs.Joins.{Back, SeatedRounds, ApartRounds};
ghost use Rattle.sr_watch.specs.Turns.{IsRoomFor};

use crate::apart::{Apart, Rounds};
use crate::inspect::{Inspect, Round};
use crate::running::Running;
use crate::seated::{Finished, Seated};
use sr_base::Numbered;
use sr_store::Reader;
use std::alloc::AllocError;
use std::thread::Threads;

/// The readers that it took, in their order, and all rounds, in order of watcher and round.
#[derive(Drop)]
pub struct Joined<V: Numbered + Drop, O> {
    pub readers: Vec<Reader<V>>,
    pub result: Result<Vec<Round<O>>, AllocError>,
}

// Adds the rounds of one watcher, and says whether all are there so far.
fn gather<O>(all: &mut Vec<Round<O>>, whole: bool, made: Result<Vec<Round<O>>, AllocError>) -> bool
where
    O: Drop,
    ensures { result ≡ true
        → (whole ≡ true) × IsOkAnd made (λ v. all.new.items ≡ all.old.items ++ v.items) }
{
    match made {
        Ok(more) => {
            let mut more = more;
            match all.append(&mut more) {
                Ok(()) => whole,
                Err(_) => false,
            }
        }
        Err(_) => false,
    }
}

/// Joins the watchers that have readers, and says whether memory sufficed for all rounds. There is room for the readers.
pub(crate) fn join_seated<V, I>(
    rt: &impl Threads,
    seated: Vec<Running<Finished<V, I::Out>, Seated<V, I>>>,
    back: &mut Vec<Reader<V>>,
    all: &mut Vec<Round<I::Out>>,
) -> bool
where
    V: Numbered + Drop,
    I: Inspect<V> + Drop,
    I::Out: Drop,
    requires room { IsRoomFor (vec_len seated) back.old }
    requires none { all.old.items ≡ [] }
    ensures back { Back seated.items back.new.items }
    ensures rounds { result ≡ true
        → SeatedRounds (inspection_by V.number_of I.means) seated.items back.new.items all.new.items }
{
    let mut whole = true;
    let count = seated.len();
    let mut left = seated.into_iter();
    for _ in 0..count {
        let one = match left.next() {
            Some(one) => one,
            None => unreachable!(),
        };
        let Finished { reader, result } = one.join(rt);
        back.push_reserved(reader);
        whole = gather(all, whole, result);
    }
    left.destroy_empty();
    whole
}

/// Joins the watchers that have none, and says whether memory sufficed for all rounds.
pub(crate) fn join_apart<V, I>(
    rt: &impl Threads,
    apart: Vec<Running<Rounds<I::Out>, Apart<V, I>>>,
    all: &mut Vec<Round<I::Out>>,
) -> bool
where
    V: Numbered + Drop,
    I: Inspect<V> + Drop,
    I::Out: Drop,
    requires none { all.old.items ≡ [] }
    ensures { result ≡ true
        → ApartRounds (inspection_by V.number_of I.means) apart.items all.new.items }
{
    let mut whole = true;
    let count = apart.len();
    let mut left = apart.into_iter();
    for _ in 0..count {
        let one = match left.next() {
            Some(one) => one,
            None => unreachable!(),
        };
        let Rounds { result } = one.join(rt);
        whole = gather(all, whole, result);
    }
    left.destroy_empty();
    whole
}

/// These rounds, and those after them. The error is out of memory.
pub(crate) fn in_order<O: Drop>(
    first: Vec<Round<O>>,
    later: Vec<Round<O>>,
) -> Result<Vec<Round<O>>, AllocError>
    ensures { IfOk result (λ v. v.items ≡ first.items ++ later.items) }
{
    let mut all = first;
    let mut later = later;
    all.append(&mut later)?;
    Ok(all)
}
