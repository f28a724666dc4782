//! The outcomes of a search as they are collected, each once.
ghost use Rattle.std.specs.Prelude.{◌≡◌, ◌≤◌, length, IfOk, OnOk, Some};
ghost use Rattle.sr_encode.specs.Collected.{most_outcomes, IsOutcomeOf, IsOutcomeFor, IsCollected, IsStarted, StandsIn, HasMoreSegments, Gains};
ghost use Rattle.sr_encode.specs.Kept.{HasSegments, outcome_at};
ghost use Rattle.sr_encode.specs.Waypoints.{AreParents};

use crate::kept::{NO_LIST, NO_PATH, Outcome};
use crate::waypoint::{Waypoint, read_segments};
use sr_model::{FAR, LinkNo, Segment};
use std::alloc::{AllocError, Global};

/// The outcomes of a search, whose waypoints stand in `queue`, and the segments of their lists. A waypoint gets its outcome
/// when it first serves a destination, so that no list stands there twice, and none that no destination has.
#[derive(Drop)]
pub(crate) struct Collected<'a> {
    queue: &'a [Waypoint],
    /// The link at which those of the source begin.
    start: LinkNo,
    pub(crate) outcomes: Vec<Outcome>,
    /// The segments of the lists, one list after the other.
    pub(crate) segments: Vec<Segment>,
    /// The place of the outcome of each waypoint, once it has one.
    known: Vec<Option<u16>>,
    /// Room for the segments of a list.
    list: Vec<Segment>,
}

impl<'a> Collected<'a> {
    /// Of a search whose waypoints haven't served any destination yet. The links of its source begin at this one.
    pub(crate) fn new(
        alloc: Global,
        queue: &'a [Waypoint],
        start: LinkNo,
    ) -> Result<Collected<'a>, AllocError>
        requires { AreParents queue.now }
        ensures { IfOk result (IsStarted queue.now start.0) }
    {
        let mut outcomes = Vec::with_capacity(alloc, 8)?;
        outcomes.push(Outcome::NoPath)?;
        outcomes.push(Outcome::NoList)?;
        Ok(Collected {
            queue,
            start,
            outcomes,
            segments: Vec::new(alloc),
            known: vec![in alloc; None; queue.len()]?,
            list: Vec::new(alloc),
        })
    }

    /// The outcome of this waypoint of the queue. The segments of its list are put behind those of the others.
    fn make(&mut self, waypoint: u16) -> Result<Outcome, AllocError>
        requires collected { IsCollected self.old }
        requires few { length self.old.outcomes.items ≤ most_outcomes }
        requires waypoint { StandsIn self.old waypoint }
        ensures adds { OnOk result (HasMoreSegments self.old self.new) }
        ensures outcome { IfOk result (λ made.
            IsOutcomeOf self.new waypoint made × HasSegments self.new.segments.items made) }
    {
        let place = self.queue[waypoint as usize].first.0 - self.start.0;
        read_segments(self.queue, waypoint as usize, &mut self.list)?;
        let begin = self.segments.len() as u32;
        self.segments.extend_from_slice(&self.list)?;
        Ok(Outcome::Least {
            place,
            begin,
            end: self.segments.len() as u32,
        })
    }

    /// The place of the outcome of this waypoint of the queue.
    fn outcome_of(&mut self, waypoint: u16) -> Result<u16, AllocError>
        requires collected { IsCollected self.old }
        requires few { length self.old.outcomes.items ≤ most_outcomes }
        requires waypoint { StandsIn self.old waypoint }
        ensures gains { IfOk result (Gains self.old self.new) }
        ensures outcome { IfOk result (λ r. IsOutcomeOf self.new waypoint (outcome_at self.new.outcomes.items r)) }
    {
        if let Some(known) = self.known[waypoint as usize] {
            return Ok(known);
        }
        let outcome = self.make(waypoint)?;
        let last = self.outcomes.len() as u16;
        self.outcomes.push(outcome)?;
        self.known[waypoint as usize] = Some(last);
        Ok(last)
    }

    /// The place of the outcome for a destination at this distance, which this waypoint of the queue serves, if one does.
    pub(crate) fn outcome_for(
        &mut self,
        cost: u64,
        waypoint: Option<u16>,
    ) -> Result<u16, AllocError>
        requires collected { IsCollected self.old }
        requires few { length self.old.outcomes.items ≤ most_outcomes }
        requires waypoint { (k : _) → waypoint ≡ Some k → StandsIn self.old k }
        ensures gains { IfOk result (Gains self.old self.new) }
        ensures outcome { IfOk result (IsOutcomeFor self.new cost waypoint) }
    {
        match waypoint {
            Some(waypoint) => self.outcome_of(waypoint),
            None if cost >= FAR => Ok(NO_PATH),
            None => Ok(NO_LIST),
        }
    }
}
