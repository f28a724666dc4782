//! Forwarders, which take batches out of one queue until it is empty.
ghost use Rattle.std.specs.Prelude.{◌≡◌, ◌+◌, ◌-◌, ◌<◌, ◌≤◌, [], length, vec_len, All, IfOk, OnOk};
ghost use Rattle.crossbeam_queue.specs.Passes.{view, IsPassOf};
ghost use Rattle.sr_spf.specs.Trees.{AreTrees};
ghost use Rattle.sr_loads.specs.Loads.{IsLoads};
ghost use Rattle.sr_loads.specs.Queue.{holding, all_parts, KnowsAll};
ghost use Rattle.sr_loads.specs.Tally.{IsTallyOfAll};
ghost use Rattle.sr_loads.specs.Forwarders.{Tally as Tallied, GoesOn, IsOneOf};
ghost use Rattle.sr_loads.specs.declared.pairs.TheConstants.{MOST_PAIRS};
ghost use Rattle.sr_loads.specs.declared.counted.TheConstants.{MOST_FORWARDERS, MOST_CHOICES};

use crate::batch::batch_count;
use crate::counted::Loads;
use crate::pairs::pairs_of;
use crate::queue::{BatchQueue, Hand, Parting, Taking, queue_of};
use crate::tally::Tally;
use crate::traffic::Traffic;
use crossbeam_queue::Pass;
use sr_labels::Net;
use sr_spf::Trees;
use std::alloc::{AllocError, Global};
use std::sync::Wait;
use std::thread;
use std::thread::Threads;

/// Goes on from a tally: takes batches until the queue is empty, and forwards their packets. The pass with all parts then
/// knows that it took each batch that it pushed.
fn forward_on<'a, R: Wait>(rt: &R, queue: &BatchQueue, tally: Tally<'a>) -> Tally<'a>
    requires queue { IsPassOf queue.now tally.pass }
    requires part { 0 < (view tally.pass).parts }
    ensures queue { IsPassOf queue.now result.pass }
    ensures on { GoesOn tally.entry result }
    ensures empty { KnowsAll (view result.pass) [] }
{
    let traffic = tally.traffic;
    let mut pass = tally.pass;
    let mut counts = tally.counts;
    for _ in rt.forever() {
        match queue.pop_as::<Taking, R>(rt, &mut pass) {
            Some(batch) => traffic.forward_batch(batch, &mut counts),
            None => return Tally::new(traffic, pass, counts),
        }
    }
    unreachable!()
}

/// An empty tally for each of these forwarders, with one part of the pass that had all.
fn tallies_of<'a>(
    alloc: Global,
    traffic: &'a Traffic<'a>,
    queue: &BatchQueue,
    pass: &mut Pass<u32, Hand>,
    forwarders: u32,
) -> Result<Vec<Tally<'a>>, AllocError>
    requires forwarders { forwarders ≤ MOST_FORWARDERS }
    requires queue { IsPassOf queue.now pass.old × ((view pass.old).parts ≡ all_parts) }
    ensures queue { IsPassOf queue.now pass.new }
    ensures hand { OnOk result
        (view pass.new ≡ holding (all_parts - forwarders) (view pass.old).pushed (view pass.old).taken) }
    ensures tallies { IfOk result (λ v. (vec_len v ≡ forwarders)
        × All (λ (s : Tallied). IsPassOf queue.now s.pass × IsOneOf traffic.now s) v.items) }
{
    let mut tallies = Vec::new(alloc);
    for _ in 0..forwarders {
        tallies.push(Tally::empty(alloc, traffic, queue.another::<Parting>(pass))?)?;
    }
    Ok(tallies)
}

/// What the forwarders did, together with the caller's tally.
fn gathered<'a>(queue: &BatchQueue, mine: Tally<'a>, others: Vec<Tally<'a>>) -> Tally<'a>
    requires queue { IsPassOf queue.now mine.pass }
    requires parts { (0 < (view mine.pass).parts) × ((view mine.pass).parts + vec_len others ≡ all_parts) }
    requires others { All (λ (s : Tallied). IsPassOf queue.now s.pass × IsOneOf mine.traffic s) others.items }
    ensures queue { IsPassOf queue.now result.pass × (result.traffic ≡ mine.entry.traffic) }
    ensures hand { ((view result.pass).parts ≡ all_parts)
        × ((view result.pass).pushed ≡ (view mine.entry.pass).pushed) }
{
    let mut all = mine;
    for other in others {
        all = all.with(queue, other);
    }
    all
}

/// Forwards all packets. All batches are in the queue before a forwarder begins. Each forwarder takes batches until the
/// queue is empty, in a thread of its own where one can be had, else in the caller's; the caller forwards what is in the
/// queue once they have ended, and so learns that no batch is left.
fn forward_all<R: Threads + Wait + Sync>(
    rt: &R,
    alloc: Global,
    traffic: &Traffic,
    forwarders: u32,
) -> Result<Vec<u64>, AllocError>
    requires few { length traffic.now.pairs ≤ MOST_PAIRS }
    requires forwarders { forwarders ≤ MOST_FORWARDERS }
    ensures { IfOk result (λ counts. IsTallyOfAll traffic.now counts.items) }
{
    let batches = batch_count(traffic.len());
    let (queue, mut pass) = queue_of(rt, alloc, batches)?;
    let tallies = tallies_of(alloc, traffic, &queue, &mut pass, forwarders.min(batches))?;
    let others = thread::map_vec(rt, tallies, &|tally| forward_on(rt, &queue, tally))?;
    let mine = gathered(&queue, Tally::empty(alloc, traffic, pass)?, others);
    Ok(forward_on(rt, &queue, mine).counts)
}

/// How often the packets of the net cross each link, no link being closed: one packet for each two nodes between which
/// packets go, and each choice number below `choices`. At most that many forwarders count, each on a thread where one can be
/// had; the answer is the same for each number of them, and whatever the threads do.
pub fn loads<R: Threads + Wait + Sync>(
    rt: &R,
    alloc: Global,
    net: &Net,
    trees: &Trees,
    forwarders: u32,
    choices: u32,
) -> Result<Loads, AllocError>
    requires trees { AreTrees net.now.graph trees.now }
    requires forwarders { (0 < forwarders) × (forwarders ≤ MOST_FORWARDERS) }
    requires choices { (0 < choices) × (choices ≤ MOST_CHOICES) }
    ensures { IfOk result (IsLoads net.now choices) }
{
    // Tells the proof what each net keeps, as the rules on its labels.
    let _graph = net.graph();
    let pairs = pairs_of(alloc, net, trees)?;
    let traffic = Traffic::new(net, trees, &pairs, choices);
    let counts = forward_all(rt, alloc, &traffic, forwarders)?;
    Ok(Loads::new(pairs.len() as u64 * choices as u64, counts))
}
