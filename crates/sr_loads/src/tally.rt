//! What one forwarder did of the traffic.
ghost use Rattle.std.specs.Prelude.{◌≡◌, ◌<◌, [], IfOk};
ghost use Rattle.crossbeam_queue.specs.Passes.{view, IsPassOf};
ghost use Rattle.sr_loads.specs.Queue.{both};
ghost use Rattle.sr_loads.specs.Tally.{IsTallyOf};

use crate::counts::add_counts;
use crate::queue::{BatchQueue, Hand, Parting};
use crate::traffic::Traffic;
use crossbeam_queue::Pass;
use std::alloc::{AllocError, Global};
use std::marker::Model;

/// What a forwarder did: its pass, which knows the batches that it took, and the counts of their packets. That they are
/// the counts of these and no others is kept in the type.
#[derive(Drop)]
pub(crate) struct Tally<'a> {
    pub(crate) traffic: &'a Traffic<'a>,
    pub(crate) pass: Pass<u32, Hand>,
    pub(crate) counts: Vec<u64>,
}

impl<'a> Model for Tally<'a> {
    ghost use Rattle.crossbeam_queue.specs.Passes.{view as view_of};
    ghost use Rattle.sr_loads.specs.Tally.{IsTallyOf};
    ghost use Rattle.sr_loads.specs.Forwarders.{Tally};

    ghost Value = { Tally };

    ghost view = { λ s. record { traffic = s.traffic.now; pass = s.pass; counts = s.counts.items } };

    ghost invariant = { λ s. IsTallyOf s.traffic.now (view_of s.pass).taken s.counts.items };
}

impl<'a> Tally<'a> {
    /// What a forwarder did, whose pass took the batches that are counted.
    pub(crate) fn new(
        traffic: &'a Traffic<'a>,
        pass: Pass<u32, Hand>,
        counts: Vec<u64>,
    ) -> Tally<'a>
        requires { IsTallyOf traffic.now (view pass).taken counts.items }
        ensures { result ≡ record { traffic = traffic.now; pass = pass; counts = counts.items } }
    {
        Tally {
            traffic,
            pass,
            counts,
        }
    }

    /// What a forwarder did before it took a batch: nothing is counted.
    pub(crate) fn empty(
        alloc: Global,
        traffic: &'a Traffic<'a>,
        pass: Pass<u32, Hand>,
    ) -> Result<Tally<'a>, AllocError>
        requires { (view pass).taken ≡ [] }
        ensures { IfOk result (λ s. (s.traffic ≡ traffic.now) × (s.pass ≡ pass)) }
    {
        let counts = traffic.zeros(alloc)?;
        Ok(Tally::new(traffic, pass, counts))
    }

    /// Both tallies together.
    pub(crate) fn with(self, queue: &BatchQueue, other: Tally<'a>) -> Tally<'a>
        requires queue { IsPassOf queue.now self.pass × IsPassOf queue.now other.pass }
        requires part { 0 < (view self.pass).parts }
        requires traffic { other.traffic ≡ self.traffic }
        ensures of { IsPassOf queue.now result.pass × (result.traffic ≡ self.entry.traffic) }
        ensures hand { view result.pass ≡ both (view self.entry.pass) (view other.entry.pass) }
    {
        let mut pass = self.pass;
        let mut counts = self.counts;
        queue.absorb::<Parting>(&mut pass, other.pass);
        add_counts(&mut counts, &other.counts);
        Tally::new(self.traffic, pass, counts)
    }
}
