//! What is made of each number below a count, in threads that take numbers until none is left.
ghost use Rattle.std.specs.Prelude.{◌≡◌, ℕ, ◌-◌, ◌<◌, ◌≤◌, ◌++◌, Ok, Some, None, replicate, slice_set, IfOk, IfSome, OnOk};
ghost use Rattle.std.specs.List.{AllZip, range_with_len};
ghost use Rattle.std.specs.Thread.{IsSync, IsSend};
ghost use Rattle.sr_threads.specs.Taking.{IsDone, AreDone, numbers_of, IsAt, AreAt, AreFilledBy, AreTakenFrom};

use rayon::{current_num_threads, join};
use std::alloc::{AllocError, Global};
use std::marker::{Send, Sync};
use std::sync::atomic::{AtomicU64, Ordering};
use std::thread::Threads;

/// How numbers are shared out.
#[derive(Clone, Copy, Debug)]
pub struct Share {
    /// How many a thread takes at once.
    pub at_once: u32,
    /// How many are worth a thread.
    pub worth: u32,
}

/// What a thread says of a number: what it made of it.
#[derive(Drop)]
pub(crate) struct Done<T: Drop> {
    number: u32,
    made: T,
}

/// Makes what belongs to these numbers, and puts it behind the others.
fn do_some<T: Drop, F: Fn(u32) -> Result<T, AllocError>>(
    f: &F,
    begin: u32,
    end: u32,
    count: u32,
    done: &mut Vec<Done<T>>,
) -> Result<(), AllocError>
    requires numbers { end ≤ count }
    requires accepts { (i : ℕ) → i < count → F.pre f.now i }
    requires done { AreDone (λ i made. F.post f.now i (Ok made)) count done.old.items }
    ensures done { OnOk result (AreDone (λ i made. F.post f.now i (Ok made)) count done.new.items) }
    ensures numbers { OnOk result
        (numbers_of done.new.items ≡ numbers_of done.old.items ++ range_with_len begin (end - begin)) }
{
    for number in begin..end {
        let made = f(number)?;
        done.push(Done { number, made })?;
    }
    Ok(())
}

/// Makes what belongs to numbers that no thread has taken, as long as there are any; `next` counts those that are taken. No
/// fact rests on this count: where a number were taken by no thread, its place would be found empty, and where it were taken
/// twice, the second would stand in the place of the first.
fn do_what_is_left<T: Drop, F: Fn(u32) -> Result<T, AllocError>>(
    alloc: Global,
    f: &F,
    count: u32,
    at_once: u32,
    next: &AtomicU64,
) -> Result<Vec<Done<T>>, AllocError>
    requires accepts { (i : ℕ) → i < count → F.pre f.now i }
    ensures { IfOk result (λ done. AreDone (λ i made. F.post f.now i (Ok made)) count done.items) }
{
    let mut done = Vec::new(alloc);
    for _ in 0..count {
        let taken = next.fetch_add(at_once as u64, Ordering::SeqCst);
        if taken >= count as u64 {
            break;
        }
        let begin = taken as u32;
        let end = begin.saturating_add(at_once).min(count);
        do_some(f, begin, end, count, &mut done)?;
    }
    Ok(done)
}

/// What this number of threads does, this one among them.
#[cycle(threads)]
fn do_by<R: Threads + Sync, T: Drop + Send, F: Fn(u32) -> Result<T, AllocError> + Sync>(
    rt: &R,
    alloc: Global,
    f: &F,
    count: u32,
    at_once: u32,
    next: &AtomicU64,
    threads: u32,
) -> Result<Vec<Done<T>>, AllocError>
    requires accepts { (i : ℕ) → i < count → F.pre f.now i }
    ensures { IfOk result (λ done. AreDone (λ i made. F.post f.now i (Ok made)) count done.items) }
{
    if threads <= 1 {
        return do_what_is_left(alloc, f, count, at_once, next);
    }
    let fewer = threads - 1;
    let there = || -> Result<Vec<Done<T>>, AllocError>
        requires accepts { (i : ℕ) → i < count → F.pre f.now i }
        ensures { IfOk result (λ done. AreDone (λ i made. F.post f.entry.now i (Ok made)) count done.items) }
    { do_what_is_left(alloc, f, count, at_once, next) };
    let others = || -> Result<Vec<Done<T>>, AllocError>
        requires shared { IsSync R.row × IsSync F.row × IsSend T.row }
        requires accepts { (i : ℕ) → i < count → F.pre f.now i }
        ensures { IfOk result (λ done. AreDone (λ i made. F.post f.entry.now i (Ok made)) count done.items) }
    { do_by(rt, alloc, f, count, at_once, next, fewer) };
    let (done_there, done_by_others) = join(rt, there, others);
    let mut done = done_there?;
    done.append(&mut done_by_others?)?;
    Ok(done)
}

/// Places with nothing in them, one for each number.
fn no_places<T: Drop>(alloc: Global, count: u32) -> Result<Vec<Option<T>>, AllocError>
    ensures { IfOk result (λ places. places.items ≡ replicate count None) }
{
    let mut places = Vec::with_capacity(alloc, count as usize)?;
    for _number in 0..count {
        places.push(None)?;
    }
    Ok(places)
}

/// Puts what a thread says of a number into its place.
fn put_at_place<T: Drop, F: Fn(u32) -> Result<T, AllocError>>(
    f: &F,
    count: u32,
    one: Done<T>,
    places: &mut Vec<Option<T>>,
)
    requires one { IsDone (λ i made. F.post f.now i (Ok made)) count one }
    requires places { AreAt (λ i made. F.post f.now i (Ok made)) count places.old.items }
    ensures places { AreAt (λ i made. F.post f.now i (Ok made)) count places.new.items }
    ensures put { places.new.items ≡ slice_set places.old.items one.number (Some one.made) }
{
    places[one.number as usize] = Some(one.made);
}

/// What the threads did, each at its place.
fn at_places<T: Drop, F: Fn(u32) -> Result<T, AllocError>>(
    alloc: Global,
    f: &F,
    count: u32,
    all: Vec<Done<T>>,
) -> Result<Vec<Option<T>>, AllocError>
    requires { AreDone (λ i made. F.post f.now i (Ok made)) count all.items }
    ensures places { IfOk result (λ places. AreAt (λ i made. F.post f.now i (Ok made)) count places.items) }
    ensures filled { IfOk result (λ places. AreFilledBy all.items places.items) }
{
    let mut places = no_places(alloc, count)?;
    for one in all {
        put_at_place(f, count, one, &mut places);
    }
    Ok(places)
}

/// What belongs to the number: it is made here where no thread made it.
fn or_made<T: Drop, F: Fn(u32) -> Result<T, AllocError>>(
    f: &F,
    number: u32,
    found: Option<T>,
) -> Result<T, AllocError>
    requires accepts { F.pre f.now number }
    requires found { IsAt (λ i made. F.post f.now i (Ok made)) number found }
    ensures made { IfOk result (λ made. F.post f.now number (Ok made)) }
    ensures kept { IfSome found (λ made. result ≡ Ok made) }
{
    match found {
        Some(made) => Ok(made),
        None => f(number),
    }
}

/// What belongs to each number, in order, from what the threads did.
fn by_number<T: Drop, F: Fn(u32) -> Result<T, AllocError>>(
    alloc: Global,
    f: &F,
    count: u32,
    mut places: Vec<Option<T>>,
) -> Result<Vec<T>, AllocError>
    requires accepts { (i : ℕ) → i < count → F.pre f.now i }
    requires places { AreAt (λ i made. F.post f.now i (Ok made)) count places.items }
    ensures made { IfOk result (λ all. AllZip (λ i made. F.post f.now i (Ok made)) (range_with_len 0 count) all.items) }
    ensures taken { IfOk result (λ all. AreTakenFrom places.items all.items) }
{
    let mut all = Vec::with_capacity(alloc, count as usize)?;
    for number in 0..count {
        let found = places[number as usize].take();
        all.push(or_made(f, number, found)?)?;
    }
    Ok(all)
}

/// What `f` gives at each number below `count`, in order. They are shared among as many threads as there are processors,
/// where there are enough of them. It is proved what is answered, whichever thread asks `f`. That each number is asked
/// once is tested; that more than one thread asks is neither proved nor tested.
pub fn made_of_each<R: Threads + Sync, T: Drop + Send, F: Fn(u32) -> Result<T, AllocError> + Sync>(
    rt: &R,
    alloc: Global,
    count: u32,
    share: Share,
    f: &F,
) -> Result<Vec<T>, AllocError>
    requires accepts { (i : ℕ) → i < count → F.pre f.now i }
    ensures { IfOk result (λ all. AllZip (λ i made. F.post f.now i (Ok made)) (range_with_len 0 count) all.items) }
{
    let most = count / share.worth.max(1);
    let threads = current_num_threads(rt).min(most as usize) as u32;
    let done = do_by(
        rt,
        alloc,
        f,
        count,
        share.at_once,
        &AtomicU64::new(0),
        threads,
    )?;
    let places = at_places(alloc, f, count, done)?;
    by_number(alloc, f, count, places)
}
