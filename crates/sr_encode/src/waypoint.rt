//! Waypoints, and the lists that lead to them.
ghost use Rattle.std.specs.Prelude.{◌≡◌, ◌<◌, length, OnOk};
ghost use Rattle.sr_encode.specs.Waypoints.{waypoint_at, segments_to, AreParents};

use sr_model::{LinkNo, NodeNo, Segment};
use std::alloc::AllocError;

/// A node that a search meets, with the least list to it. That is the first link alone where
/// `depth` is 0, and else the list of the waypoint at place `parent` of the queue, with `segment`
/// more.
#[derive(Clone, Copy, Debug)]
pub(crate) struct Waypoint {
    pub(crate) node: NodeNo,
    pub(crate) first: LinkNo,
    /// How many segments the list has.
    pub(crate) depth: u16,
    pub(crate) parent: u16,
    pub(crate) segment: Segment,
}

/// Makes `list` the segments of the list to the waypoint at this place.
pub(crate) fn read_segments(
    queue: &[Waypoint],
    place: usize,
    list: &mut Vec<Segment>,
) -> Result<(), AllocError>
    requires place { place < length queue.now }
    requires parents { AreParents queue.now }
    ensures { OnOk result (list.new.items ≡ segments_to queue.now (waypoint_at queue.now place).depth place) }
{
    let depth = queue[place].depth;
    list.clear();
    let mut at = place;
    for _ in 0..depth {
        let waypoint = queue[at];
        list.push(waypoint.segment)?;
        at = waypoint.parent as usize;
    }
    // They were taken from the last to the first.
    list.reverse();
    Ok(())
}
