//! Repairs: the segments that bring a packet round a failure, and the answer for a destination.
ghost use Rattle.std.specs.Prelude.{◌≡◌};

use crate::link::{LinkNo, NodeNo};
use std::marker::Model;

/// A segment (RFC 8402, 3.2 and 3.4): a node, reached by shortest paths, or a link that the packet is to cross.
#[derive(Clone, Copy, Debug, PartialEq, Eq)]
pub enum Segment {
    Node(NodeNo),
    Adj(LinkNo),
}

/// A segment list, whose first segment is followed first. It stands in memory of its version, and contracts see it as a
/// list.
#[derive(Debug, Drop)]
pub struct Segments<'a> {
    list: &'a [Segment],
}

impl<'a> Model for Segments<'a> {
    ghost use Rattle.std.specs.Prelude.{List};
    ghost use Rattle.sr_model.specs.declared.repair.Segment.{Segment};

    ghost Value = { List Segment };

    ghost view = { λ a. a.list.now };
}

impl<'a> Segments<'a> {
    /// The segment list that a slice holds.
    pub fn new(list: &'a [Segment]) -> Segments<'a>
        ensures { result ≡ list.now }
    {
        Segments { list }
    }

    /// The segments as a slice.
    pub fn list(&self) -> &'a [Segment]
        ensures { result.now ≡ self.now }
    {
        self.list
    }
}

/// A repair: the link on which the packet leaves, the segments from the end of that link on, and the cost of the whole
/// way to the destination.
#[derive(Debug, Drop)]
pub struct RepairList<'a> {
    pub first: LinkNo,
    pub segments: Segments<'a>,
    pub cost: u32,
}

/// The answer of a case for a destination.
#[derive(Debug, Drop)]
pub enum Answer<'a> {
    /// The least repair.
    Least(RepairList<'a>),
    /// The failure leaves no way to the destination.
    NoPath,
    /// There is a way, but no segment list keeps to it.
    NoList,
    /// The least list has this many segments, and they don't fit on a packet at the node.
    TooDeep { needed: u32 },
}
