//! How what is listed in a case is kept: what destinations share of it once, and eight octets for each destination.
ghost use Rattle.std.specs.Prelude.{◌≡◌};
ghost use Rattle.sr_encode.specs.Kept.{HasSegments, answer_from};
ghost use Rattle.sr_encode.specs.Placed.{HasLinkNumber};
ghost use Rattle.sr_encode.specs.Limited.{limited};

use sr_model::{Answer, LinkNo, NodeNo, RepairList, Segment, Segments};

/// The place of the outcome `NoPath` among those of a search (this project's rule).
pub(crate) const NO_PATH: u16 = 0;

/// The place of the outcome `NoList` among those of a search (this project's rule).
pub(crate) const NO_LIST: u16 = 1;

/// What is listed for a destination, beside its cost: a list, or why there is none. The first link of a list is told by its
/// place among the links of the source, so that links that come and go elsewhere leave it. The segments stand elsewhere from
/// place `begin` on up to place `end`. The destinations that one waypoint serves share it.
#[derive(Clone, Copy, Debug)]
pub(crate) enum Outcome {
    NoPath,
    NoList,
    Least { place: u16, begin: u32, end: u32 },
}

/// What is listed for a destination, by the place of its outcome. A version has some hundred thousand of them, so it takes
/// eight octets.
#[derive(Clone, Copy, Debug)]
pub(crate) struct Kept {
    pub(crate) destination: NodeNo,
    pub(crate) outcome: u16,
    /// The cost of the whole way, where the outcome is a list.
    pub(crate) cost: u32,
}

/// What is listed by an outcome at this cost, where these are the segments of all lists, and the links of the source stand
/// from this one on.
pub(crate) fn listed_answer<'a>(
    start: LinkNo,
    outcome: Outcome,
    cost: u32,
    segments: &'a [Segment],
) -> Answer<'a>
    requires segments { HasSegments segments.now outcome }
    requires number { HasLinkNumber (answer_from start.0 segments.now outcome cost) }
    ensures { result ≡ answer_from start.0 segments.now outcome cost }
{
    match outcome {
        Outcome::NoPath => Answer::NoPath,
        Outcome::NoList => Answer::NoList,
        Outcome::Least { place, begin, end } => Answer::Least(RepairList {
            first: LinkNo(start.0 + place),
            segments: Segments::new(&segments[begin as usize..end as usize]),
            cost,
        }),
    }
}

/// The same, where a list of fewer segments than the limit is let through.
pub(crate) fn limited_answer<'a>(
    start: LinkNo,
    outcome: Outcome,
    cost: u32,
    segments: &'a [Segment],
    limit: u16,
) -> Answer<'a>
    requires segments { HasSegments segments.now outcome }
    requires number { HasLinkNumber (answer_from start.0 segments.now outcome cost) }
    ensures { result ≡ limited limit (answer_from start.0 segments.now outcome cost) }
{
    match outcome {
        Outcome::Least { begin, end, .. } if end - begin >= limit as u32 => Answer::TooDeep {
            needed: end - begin,
        },
        _ => listed_answer(start, outcome, cost, segments),
    }
}
