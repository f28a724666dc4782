//! The choice among the hops that may be crossed.
ghost use Rattle.std.specs.Prelude.{◌≡◌, length, slice_get};
ghost use Rattle.sr_forward.specs.Choices.{open_hops, open_links, chosen_hop};

use sr_fib::Hops;
use sr_graph::LinkSet;
use sr_model::{LinkNo, Out};

/// How many of the links aren't closed.
fn open_count(links: &[LinkNo], closed: &LinkSet) -> usize
    ensures { result ≡ length (open_links closed.now links.now) }
{
    links.iter().filter(|link| !closed.has(**link)).count()
}

/// The open hop at the place, counted from 0. None exactly where there are no more than that.
fn open_at(hops: &Hops<'_>, closed: &LinkSet, place: usize) -> Option<(LinkNo, Out)>
    ensures { result ≡ slice_get (open_hops closed.now hops.now) place }
{
    let links = hops.links();
    let mut left = place;
    for at in 0..links.len() {
        if !closed.has(links[at]) {
            if left == 0 {
                return Some(hops.get(at));
            }
            left -= 1;
        }
    }
    None
}

/// Of the open hops, in their order, the one of number `choice` modulo their count, counted from 0.
/// None exactly where no hop is open.
pub(crate) fn chosen(hops: &Hops<'_>, closed: &LinkSet, choice: u32) -> Option<(LinkNo, Out)>
    ensures { result ≡ chosen_hop closed.now choice hops.now }
{
    let count = open_count(hops.links(), closed);
    if count == 0 {
        return None;
    }
    open_at(hops, closed, choice as usize % count)
}
