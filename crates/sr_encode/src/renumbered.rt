//! The answers of a case in a net whose links have other numbers.
ghost use Rattle.std.specs.Prelude.{◌≡◌, ◌+◌, ◌<◌, ◌↔◌, map, All, IfOk, IsTrue};
ghost use Rattle.sr_model.specs.declared.link.TheConstants.{MOST_LINKS as MostLinks};
ghost use Rattle.sr_model.specs.declared.repair.Segment.{Segment as Followed};
ghost use Rattle.sr_spf.specs.Renewed.{moved_link};
ghost use Rattle.sr_encode.specs.Renumbered.{moved_first, moved_outcome, moved_segment, CanMove, HasLinkPlace, KeepsPlace};

use crate::kept::{Kept, Outcome};
use sr_model::{LinkNo, Segment};
use std::alloc::{AllocError, Global};

/// How the links that the lists of a case name are numbered in another net: the number of each link there, where it has one,
/// and the link at which those of the source begin here and there.
#[derive(Clone, Copy, Debug)]
pub struct Renumbering<'a> {
    pub links: &'a [Option<LinkNo>],
    pub before: LinkNo,
    pub after: LinkNo,
}

/// The number of the link in the other net, by the list of these numbers; its own where the list has none.
fn moved(links: &[Option<LinkNo>], link: LinkNo) -> LinkNo
    ensures { result ≡ moved_link links.now link }
{
    match links.get(link.0 as usize) {
        Some(Some(number)) => *number,
        _ => link,
    }
}

/// The segment, its link renumbered.
fn moved_segment(links: &[Option<LinkNo>], segment: Segment) -> Segment
    ensures { result ≡ moved_segment links.now segment }
{
    match segment {
        Segment::Node(node) => Segment::Node(node),
        Segment::Adj(link) => Segment::Adj(moved(links, link)),
    }
}

/// The segments, their links renumbered.
pub(crate) fn moved_segments(
    alloc: Global,
    segments: &[Segment],
    links: &[Option<LinkNo>],
) -> Result<Vec<Segment>, AllocError>
    ensures { IfOk result (λ list. list.items ≡ map (moved_segment links.now) segments.now) }
{
    let mut list = Vec::with_capacity(alloc, segments.len())?;
    for n in 0..segments.len() {
        list.push(moved_segment(links, segments[n]))?;
    }
    Ok(list)
}

/// The number in the other net of the link at this place among those of the source.
fn moved_first(numbers: &Renumbering<'_>, place: u16) -> u16
    requires { numbers.now.before.0 + place < MostLinks }
    ensures { result ≡ moved_first numbers.now place }
{
    moved(numbers.links, LinkNo(numbers.before.0 + place)).0
}

/// The outcome, its first link told by its place in the other net.
fn moved_outcome(numbers: &Renumbering<'_>, outcome: Outcome) -> Outcome
    requires { CanMove numbers.now outcome }
    ensures { result ≡ moved_outcome numbers.now outcome }
{
    match outcome {
        Outcome::Least { place, begin, end } => Outcome::Least {
            place: moved_first(numbers, place) - numbers.after.0,
            begin,
            end,
        },
        Outcome::NoPath => Outcome::NoPath,
        Outcome::NoList => Outcome::NoList,
    }
}

/// The outcomes, their first links told by their places in the other net.
pub(crate) fn moved_outcomes(
    alloc: Global,
    outcomes: &[Outcome],
    numbers: &Renumbering<'_>,
) -> Result<Vec<Outcome>, AllocError>
    requires { All (CanMove numbers.now) outcomes.now }
    ensures { IfOk result (λ list. list.items ≡ map (moved_outcome numbers.now) outcomes.now) }
{
    let mut list = Vec::with_capacity(alloc, outcomes.len())?;
    for n in 0..outcomes.len() {
        list.push(moved_outcome(numbers, outcomes[n]))?;
    }
    Ok(list)
}

/// Whether the outcome is the same in the other net: its first link has its place there.
fn keeps_place(numbers: &Renumbering<'_>, outcome: Outcome) -> bool
    requires { HasLinkPlace numbers.now.before.0 outcome }
    ensures { IsTrue result ↔ KeepsPlace numbers.now outcome }
{
    match outcome {
        Outcome::Least { place, .. } => {
            moved_first(numbers, place) as u32 == numbers.after.0 as u32 + place as u32
        }
        Outcome::NoPath => true,
        Outcome::NoList => true,
    }
}

/// Whether so is each outcome.
pub(crate) fn keep_places(outcomes: &[Outcome], numbers: &Renumbering<'_>) -> bool
    requires { All (HasLinkPlace numbers.now.before.0) outcomes.now }
    ensures { IsTrue result ↔ All (KeepsPlace numbers.now) outcomes.now }
{
    for outcome in outcomes {
        if !keeps_place(numbers, *outcome) {
            return false;
        }
    }
    true
}

/// Whether each segment is the same in the other net.
pub(crate) fn keep_numbers(segments: &[Segment], links: &[Option<LinkNo>]) -> bool
    ensures { IsTrue result ↔ All (λ (s : Followed). moved_segment links.now s ≡ s) segments.now }
{
    for segment in segments {
        if moved_segment(links, *segment) != *segment {
            return false;
        }
    }
    true
}

/// The kept answers once more.
pub(crate) fn copied_answers(alloc: Global, kept: &[Kept]) -> Result<Vec<Kept>, AllocError>
    ensures { IfOk result (λ list. list.items ≡ kept.now) }
{
    let mut list = Vec::with_capacity(alloc, kept.len())?;
    list.extend_from_slice(kept)?;
    Ok(list)
}
