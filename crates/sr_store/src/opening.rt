//! How a store is opened.
ghost use Rattle.std.specs.Prelude.{◌≡◌, ◌<◌, ◌≤◌, [], ◌∷◌, All, IfOk, IfSome, MatchResult, false, vec_len};
ghost use Rattle.std.specs.Arc.{arc_value};
ghost use Rattle.sr_store.specs.Counts.{opened};
ghost use Rattle.sr_store.specs.Lists.{EndsWith};
ghost use Rattle.sr_store.specs.Seats.{IsSeat, SeatsFrom};

use crate::history::Author;
use crate::reader::Reader;
use crate::shown::{Informed, Shown, Twice};
use crate::side::new_side;
use crate::usage::Usage;
use crate::writer::Writer;
use sr_base::Numbered;
use std::alloc::{AllocError, Global};
use std::sync::{Arc, Wait};

/// A store whose list is the first version alone, and its readers, at most one for each place, whose seats count up
/// from 0. The only error is out of memory, and leaves nothing but the `usage` as before.
pub fn open<V: Numbered + Drop, R: Wait>(
    rt: &R,
    alloc: Global,
    first: Arc<V>,
    places: u32,
    usage: &mut Usage,
) -> Result<(Writer<V>, Vec<Reader<V>>), AllocError>
    requires { 0 < places }
    ensures usage { MatchResult result (λ t. usage.new ≡ opened usage.old places (vec_len t.1))
        (λ _. usage.new ≡ usage.old) }
    ensures writer { IfOk result (λ t. (t.0.list.versions ≡ arc_value first ∷ []) × (t.0.stuck ≡ false)) }
    ensures readers { IfOk result (λ t. All (IsSeat t.0.list) t.1.items) }
    ensures seats { IfOk result
        (λ t. SeatsFrom t.0.list.store 0 t.1.items × (t.0.given ≡ vec_len t.1) × (vec_len t.1 ≤ places)) }
{
    let mut writer = found(rt, alloc, &first, places)?;
    match seat_readers(alloc, &mut writer, &first, places) {
        Ok(readers) => {
            writer.gave(readers.len());
            usage.count_opened(places, readers.len());
            Ok((writer, readers))
        }
        Err(refused) => {
            writer.end(rt);
            Err(refused)
        }
    }
}

// The writer, once it knows its store.
fn found<V: Numbered + Drop, R: Wait>(
    rt: &R,
    alloc: Global,
    first: &Arc<V>,
    places: u32,
) -> Result<Writer<V>, AllocError>
    requires { 0 < places }
    ensures { IfOk result (λ w. (w.list.versions ≡ arc_value first.now ∷ []) × (w.stuck ≡ false)) }
{
    let (author, list) = begin(first)?;
    let side = new_side(rt, alloc, &list, places)?;
    Ok(Writer::whole(side, author, list, 0))
}

// The author of a store whose only version is this one, and the history so far.
fn begin<V: Numbered + Drop>(first: &Arc<V>) -> Result<(Author<V>, Shown<V>), AllocError>
    ensures list { IfOk result (λ t. (t.1.versions ≡ arc_value first.now ∷ []) × (t.1.closed ≡ false)) }
    ensures author { IfOk result (λ t. t.0 ≡ t.1) }
{
    let last = Arc::try_clone(first)?;
    let mut author = Author::new();
    let version: &V = first;
    if author.add(version) {
        let list = author.front();
        Ok((author, Shown::new(last, list)))
    } else {
        Err(AllocError)
    }
}

// A reader for each place that left_right has.
fn seat_readers<V: Numbered + Drop>(
    alloc: Global,
    writer: &mut Writer<V>,
    last: &Arc<V>,
    places: u32,
) -> Result<Vec<Reader<V>>, AllocError>
    requires { EndsWith writer.old.list.versions (arc_value last.now) }
    ensures readers { IfOk result (λ rs. All (IsSeat writer.old.list) rs.items) }
    ensures seats { IfOk result
        (λ rs. SeatsFrom writer.old.list.store 0 rs.items × (vec_len rs ≤ places)) }
    ensures kept { (writer.new.list ≡ writer.old.list) × (writer.new.stuck ≡ writer.old.stuck) }
{
    let mut readers = Vec::with_capacity(alloc, places as usize)?;
    for number in 0..places {
        match seat(writer, last, number)? {
            Some(reader) => readers.push_reserved(reader),
            None => break,
        }
    }
    Ok(readers)
}

// A reader whose list is the writer's, where left_right has a place for it.
fn seat<V: Numbered + Drop>(
    writer: &mut Writer<V>,
    last: &Arc<V>,
    number: u32,
) -> Result<Option<Reader<V>>, AllocError>
    requires { EndsWith writer.old.list.versions (arc_value last.now) }
    ensures reader { IfOk result (λ o. IfSome o (λ r. IsSeat writer.old.list r × (r.seat ≡ number))) }
    ensures kept { (writer.new.list ≡ writer.old.list) × (writer.new.stuck ≡ writer.old.stuck) }
{
    let last = Arc::try_clone(last)?;
    let Ok(mut place) = writer.inner.factory().reader() else {
        return Ok(None);
    };
    place.learn::<Informed>(writer.inner.tell::<Twice>());
    Ok(Some(Reader::new(place, number, writer.list.again(), last)))
}
