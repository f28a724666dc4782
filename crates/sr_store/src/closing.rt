//! The end of a store: the close mark, and the last turn of each reader.
ghost use Rattle.std.specs.Prelude.{◌≡◌, ◌-◌, true, false, All, [], ◌≤◌, IfOk, IfErr, MatchResult, vec_len, vec_capacity};
ghost use Rattle.std.specs.Arc.{arc_value};
ghost use Rattle.sr_store.specs.Counts.{counted, usage_turned};
ghost use Rattle.sr_store.specs.Closes.{Ended, HaveEnded, turns_of};
ghost use Rattle.sr_store.specs.Histories.{with_mark};
ghost use Rattle.sr_store.specs.Lists.{EndsWith};
ghost use Rattle.sr_store.specs.Seats.{SeatsFrom};

use crate::history::Front;
use crate::reader::Reader;
use crate::usage::Usage;
use crate::writer::Writer;
use sr_base::Numbered;
use std::alloc::{AllocError, Global};
use std::sync::{Arc, Wait};

/// What a store showed at its end: its whole list, the last version of that, the readers after their last turns, and for each
/// of them whether that turn saw the list with its mark, so that the reader's list was a prefix of it.
#[derive(Drop)]
pub struct Closed<V: Numbered + Drop> {
    pub list: Front<V>,
    pub last: Arc<V>,
    pub readers: Vec<Reader<V>>,
    pub ended: Vec<bool>,
}

// How often all these readers took a turn.
fn turns_of_all<V: Numbered + Drop>(readers: &Vec<Reader<V>>) -> u64
    ensures { result ≡ counted (turns_of readers.now.items) }
{
    let mut turns = 0u64;
    for reader in readers {
        turns = turns.saturating_add(reader.turns());
    }
    turns
}

// The last turn of each reader. There is room for the readers after it, and for the answers.
fn last_turns<V: Numbered + Drop>(
    list: &Front<V>,
    readers: Vec<Reader<V>>,
    back: &mut Vec<Reader<V>>,
    ended: &mut Vec<bool>,
)
    requires store { All (λ r. r.list.store ≡ list.now.store) readers.items }
    requires none { (back.old.items ≡ []) × (ended.old.items ≡ []) }
    requires room { (vec_len readers ≤ vec_capacity back.old) × (vec_len readers ≤ vec_capacity ended.old) }
    ensures ended { Ended list.now readers.items ended.new.items }
    ensures marks { HaveEnded readers.items back.new.items ended.new.items }
{
    for one in readers {
        let mut reader = one;
        let given = reader.last_turn(list);
        ended.push_reserved(given);
        back.push_reserved(reader);
    }
}

/// Publishes the close mark, gives each reader a last turn, and gives up the store. The readers are all those that `open` gave
/// with this writer, in their order. The only error is out of memory: all lists are then as before, and the writer is stuck.
pub fn close<V: Numbered + Drop, R: Wait>(
    rt: &R,
    alloc: Global,
    writer: Writer<V>,
    readers: Vec<Reader<V>>,
    usage: &mut Usage,
) -> Result<Closed<V>, (AllocError, Writer<V>, Vec<Reader<V>>)>
    requires free { writer.stuck ≡ false }
    requires seats { SeatsFrom writer.list.store 0 readers.items × (writer.given ≡ vec_len readers) }
    ensures usage { MatchResult result (λ _. usage.new ≡ usage_turned usage.old (turns_of readers.items))
        (λ _. usage.new ≡ usage.old) }
    ensures closed { IfOk result
        (λ c. (c.list ≡ with_mark writer.list) × EndsWith c.list.versions (arc_value c.last)
        × Ended c.list readers.items c.ended.items × HaveEnded readers.items c.readers.items c.ended.items) }
    ensures same { IfErr result
        (λ e. (e.1.list ≡ writer.list) × (e.1.stuck ≡ true) × (e.1.given ≡ writer.given) × (e.2 ≡ readers)) }
{
    let turns = turns_of_all(&readers);
    let mut ended = match Vec::with_capacity(alloc, readers.len()) {
        Ok(ended) => ended,
        Err(refused) => return Err((refused, writer.locked(), readers)),
    };
    let mut back = match Vec::with_capacity(alloc, readers.len()) {
        Ok(back) => back,
        Err(refused) => return Err((refused, writer.locked(), readers)),
    };
    let (writer, done) = writer.mark(rt);
    match done {
        Ok(()) => {
            last_turns(&writer.list, readers, &mut back, &mut ended);
            let (last, list) = writer.end(rt);
            usage.count_turns(turns);
            Ok(Closed {
                list,
                last,
                readers: back,
                ended,
            })
        }
        Err(refused) => Err((refused, writer, readers)),
    }
}

/// Gives up a store. It may wait for readers.
pub fn abandon<V: Numbered + Drop, R: Wait>(rt: &R, writer: Writer<V>, readers: Vec<Reader<V>>) {
    drop(readers);
    writer.end(rt);
}
