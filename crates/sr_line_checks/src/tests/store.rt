//! A store of two readers, from its opening to its end.
ghost use Rattle.std.specs.Prelude.{◌≡◌, ◌<◌, false, [], ◌∷◌, IfOk, vec_len};
ghost use Rattle.sr_store.specs.Seats.{SeatsFrom};

use super::stamps::Stamp;
use sr_base::Numbered;
use sr_store::{Closed, Reader, Told, Usage, Writer, abandon, close, open};
use std::alloc::{AllocError, Global};
use std::process::Abort;
use std::sync::{Arc, Wait};
use std::test::Fail;

/// What a grab answered, and what its reader tells then.
#[derive(Drop)]
struct Look {
    grabbed: bool,
    number: u32,
    turns: u64,
    refused: u64,
}

/// The last reader learns a note and grabs.
fn learn_and_grab(readers: &mut Vec<Reader<Stamp>>, told: Told<Stamp>) -> Result<Look, AllocError>
    requires { SeatsFrom told.list.store 0 readers.old.items }
    ensures seats { IfOk result (λ _. SeatsFrom told.list.store 0 readers.new.items) }
    ensures count { IfOk result (λ _. vec_len readers.new ≡ vec_len readers.old) }
{
    match readers.pop() {
        Some(mut reader) => {
            reader.learn(told);
            let grabbed = reader.grab()?;
            let look = Look {
                grabbed,
                number: reader.last().number(),
                turns: reader.turns(),
                refused: reader.refused(),
            };
            readers.push(reader)?;
            Ok(look)
        }
        None => Err(AllocError),
    }
}

/// Publishes version 6 behind version 5, of which the last reader is told and grabs.
fn publish_and_look<R: Wait>(
    rt: &R,
    alloc: Global,
    writer: &mut Writer<Stamp>,
    readers: &mut Vec<Reader<Stamp>>,
    usage: &mut Usage,
) -> Result<Look, AllocError>
    requires free { writer.old.stuck ≡ false }
    requires list { writer.old.list.versions ≡ record { number = 5 } ∷ [] }
    requires seats { SeatsFrom writer.old.list.store 0 readers.old.items }
    ensures free { IfOk result (λ _. writer.new.stuck ≡ false) }
    ensures seats { IfOk result (λ _. SeatsFrom writer.new.list.store 0 readers.new.items) }
    ensures count { IfOk result (λ _. (vec_len readers.new ≡ vec_len readers.old) × (writer.new.given ≡ writer.old.given)) }
{
    let next = Arc::new(alloc, Stamp { number: 6 })?;
    writer.publish(rt, next, usage)?;
    learn_and_grab(readers, writer.tell())
}

/// A store that has version 5, then 6, of which one reader is told.
fn two_versions<R: Wait>(
    rt: &R,
    alloc: Global,
    usage: &mut Usage,
) -> Result<(Look, Closed<Stamp>), AllocError> {
    let first = Arc::new(alloc, Stamp { number: 5 })?;
    let (mut writer, mut readers) = open(rt, alloc, first, 2, usage)?;
    let look = match publish_and_look(rt, alloc, &mut writer, &mut readers, usage) {
        Ok(look) => look,
        Err(refused) => {
            abandon(rt, writer, readers);
            return Err(refused);
        }
    };
    match close(rt, alloc, writer, readers, usage) {
        Ok(closed) => Ok((look, closed)),
        Err((refused, writer, readers)) => {
            abandon(rt, writer, readers);
            Err(refused)
        }
    }
}

/// The last reader grabbed version 6 at its first turn.
fn check_look(rt: &impl Abort, look: &Look) {
    assert!(rt; look.grabbed);
    assert_eq!(rt; look.number, 6);
    assert_eq!(rt; (look.turns, look.refused), (1, 0));
}

/// The store ended with version 6, which both readers saw.
fn check_closed(rt: &impl Abort, closed: &Closed<Stamp>) {
    assert_eq!(rt; closed.last.number(), 6);
    assert_eq!(rt; closed.ended.as_slice(), [true, true].as_slice());
}

/// Two places and readers, one version that was published, and one turn.
fn check_usage(rt: &impl Abort, usage: &Usage) {
    assert_eq!(rt; (usage.places(), usage.given()), (2, 2));
    assert_eq!(rt; (usage.published(), usage.turns()), (1, 1));
}

#[test]
fn a_told_reader_sees_what_was_published(rt: HostRuntime) -> Result<(), Fail> {
    let mut usage = Usage::new();
    let (look, closed) = two_versions(&rt, rt.alloc(), &mut usage)?;
    check_look(&rt, &look);
    check_closed(&rt, &closed);
    check_usage(&rt, &usage);
    drop(closed);
    Ok(())
}
