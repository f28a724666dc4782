//! Counts, one for each link. They wrap; that none wraps is known of the whole, since a run is short.
ghost use Rattle.std.specs.Prelude.{◌≡◌, ◌<◌, [], ◌∷◌, length, replicate, IfOk};
ghost use Rattle.sr_model.specs.Graph.{link_count};
ghost use Rattle.sr_loads.specs.Tally.{AddsRun, AddsCounts};

use sr_labels::Net;
use sr_model::LinkNo;
use std::alloc::{AllocError, Global};

/// Nothing counted for each link.
pub(crate) fn zeros(alloc: Global, net: &Net) -> Result<Vec<u64>, AllocError>
    ensures { IfOk result (λ counts. counts.items ≡ replicate (link_count net.now.graph) 0) }
{
    vec![in alloc; 0; net.graph().link_count() as usize]
}

/// Adds the other counts.
pub(crate) fn add_counts(counts: &mut Vec<u64>, other: &[u64])
    requires { length other.now ≡ length counts.old.items }
    ensures { AddsCounts other.now counts.old.items counts.new.items }
{
    for link in 0..counts.len() {
        counts[link] = counts[link].wrapping_add(other[link]);
    }
}

/// Counts one crossing more of a link.
pub(crate) fn count(counts: &mut Vec<u64>, link: LinkNo)
    requires { link.0 < length counts.old.items }
    ensures { AddsRun (link.0 ∷ []) counts.old.items counts.new.items }
{
    let place = link.0 as usize;
    counts[place] = counts[place].wrapping_add(1);
}
