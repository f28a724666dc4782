//! The queue of batches, under a rule: no batch is lost, and none is taken twice.
ghost use Rattle.std.specs.Prelude.{◌≡◌, ◌<◌, [], IfOk};
ghost use Rattle.std.specs.List.{range_with_len};
ghost use Rattle.crossbeam_queue.specs.Passes.{view, IsPassOf, ruled_capacity};
ghost use Rattle.sr_loads.specs.Queue.{holding, all_parts};

use crossbeam_queue::protocol::{Join, Lesson, Outcome, Protocol, Split};
use crossbeam_queue::{Pass, RuledArrayQueue};
use std::alloc::{AllocError, Global};
use std::collections::LinkedList;
use std::sync::Wait;

/// What a pass holds: its parts of the right to know the whole, the batches that it pushed, and those that it took. It
/// is of proofs alone: no value of it is made.
pub(crate) struct Hand {
    pub(crate) parts: u32,
    pub(crate) pushed: LinkedList<u32>,
    pub(crate) taken: LinkedList<u32>,
}

/// The rule: the batches that were taken and those in the queue are the batches that were pushed, each as often.
pub(crate) struct EachOnce;

impl Protocol<u32, Hand> for EachOnce {
    ghost use Rattle.std.specs.Prelude.{[]};
    ghost use Rattle.sr_loads.specs.Queue.{holding, all_parts, IsBalanced};

    ghost holds = { IsBalanced };

    ghost first = { holding all_parts [] [] };
}

/// How passes are made of one another: a new one gets one part, and gives back all that it holds.
pub(crate) struct Parting;

impl Split<Hand> for Parting {
    ghost use Rattle.std.specs.Prelude.{◌-◌, []};
    ghost use Rattle.sr_loads.specs.Queue.{holding};

    ghost left = { λ v. holding (v.parts - 1) v.pushed v.taken };

    ghost right = { λ v. holding 1 [] [] };
}

impl Join<Hand> for Parting {
    ghost use Rattle.std.specs.Prelude.{[]};
    ghost use Rattle.sr_loads.specs.Queue.{holding, both};

    ghost both = { both };

    ghost spent = { holding 0 [] [] };
}

/// A batch is pushed.
pub(crate) struct Pushing;

impl Outcome<u32, Hand> for Pushing {
    ghost use Rattle.std.specs.Prelude.{◌≡◌, ◌++◌, [], ◌∷◌};
    ghost use Rattle.sr_loads.specs.Queue.{holding};

    ghost then = { λ v b w. w ≡ holding v.parts (v.pushed ++ b ∷ []) v.taken };
}

impl Lesson<u32, Hand> for Pushing {
    ghost use Rattle.sr_loads.specs.Queue.{KnowsAll};

    ghost fact = { KnowsAll };
}

/// A batch is taken.
pub(crate) struct Taking;

impl Outcome<u32, Hand> for Taking {
    ghost use Rattle.std.specs.Prelude.{◌≡◌, ◌++◌, [], ◌∷◌};
    ghost use Rattle.sr_loads.specs.Queue.{holding};

    ghost then = { λ v b w. w ≡ holding v.parts v.pushed (v.taken ++ b ∷ []) };
}

impl Lesson<u32, Hand> for Taking {
    ghost use Rattle.sr_loads.specs.Queue.{KnowsAll};

    ghost fact = { KnowsAll };
}

/// A queue of batch numbers.
pub(crate) type BatchQueue = RuledArrayQueue<u32, Hand, EachOnce>;

/// Pushes the batches below the count, by the pass with all parts. The queue has room for all of them, and nothing is
/// taken meanwhile, so each push finds room.
fn push_all<R: Wait>(rt: &R, queue: &BatchQueue, pass: &mut Pass<u32, Hand>, batches: u32)
    requires queue { IsPassOf queue.now pass.old }
    requires hand { view pass.old ≡ holding all_parts [] [] }
    requires room { ruled_capacity queue.now ≡ batches }
    ensures queue { IsPassOf queue.now pass.new }
    ensures hand { view pass.new ≡ holding all_parts (range_with_len 0 batches) [] }
{
    for batch in 0..batches {
        match queue.push_as::<Pushing, R>(rt, pass, batch) {
            Ok(()) => {}
            Err(_) => unreachable!(),
        }
    }
}

/// A queue with the batches below the count, and the pass with all parts.
pub(crate) fn queue_of<R: Wait>(
    rt: &R,
    alloc: Global,
    batches: u32,
) -> Result<(BatchQueue, Pass<u32, Hand>), AllocError>
    requires { 0 < batches }
    ensures { IfOk result (λ q. IsPassOf q.0 q.1 × (view q.1 ≡ holding all_parts (range_with_len 0 batches) [])) }
{
    let (queue, mut pass) = BatchQueue::ruled(alloc, batches as usize)?;
    push_all(rt, &queue, &mut pass, batches);
    Ok((queue, pass))
}
