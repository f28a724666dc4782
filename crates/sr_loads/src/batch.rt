//! Pairs in batches.
ghost use Rattle.std.specs.Prelude.{◌≡◌, ◌*◌, ◌<◌, ◌≤◌, length};
ghost use Rattle.sr_model.specs.Graph.{link_count};
ghost use Rattle.sr_spf.specs.Trees.{AreTrees};
ghost use Rattle.sr_loads.specs.Packets.{packets_of};
ghost use Rattle.sr_loads.specs.Tally.{GoBetweenPeers, AddsPackets, batch_pairs};
ghost use Rattle.sr_loads.specs.declared.batch.TheConstants.{BATCH_PAIRS};
ghost use Rattle.sr_loads.specs.declared.pairs.TheConstants.{MOST_PAIRS};

use crate::counted::MOST_CHOICES;
use crate::forwarding::forward_pair;
use crate::packet::Pair;
use sr_labels::Net;
use sr_spf::Trees;

/// The most packets of a batch (this project's rule).
const BATCH: usize = 4096;

/// The most pairs of a batch, so that there are no more packets between them than that.
const BATCH_PAIRS: usize = BATCH / MOST_CHOICES as usize;

/// How many batches this many pairs make. One is there even where there is no pair.
pub(crate) fn batch_count(pairs: usize) -> u32
    requires { pairs ≤ MOST_PAIRS }
    ensures { (0 < result) × (pairs ≤ result * BATCH_PAIRS) }
{
    (pairs / BATCH_PAIRS + 1) as u32
}

/// The pairs of a batch: the next ones, or those that are left.
pub(crate) fn batch_of(pairs: &[Pair], batch: u32) -> &[Pair]
    ensures { result.now ≡ batch_pairs pairs.now batch }
{
    let begin = (batch as usize * BATCH_PAIRS).min(pairs.len());
    let count = BATCH_PAIRS.min(pairs.len() - begin);
    &pairs[begin..begin + count]
}

/// Forwards the packets between these pairs, and counts the links that they cross.
pub(crate) fn forward_pairs(
    net: &Net,
    trees: &Trees,
    pairs: &[Pair],
    choices: u32,
    counts: &mut Vec<u64>,
)
    requires trees { AreTrees net.now.graph trees.now }
    requires pairs { GoBetweenPeers net.now pairs.now }
    requires counts { length counts.old.items ≡ link_count net.now.graph }
    ensures { AddsPackets net.now (packets_of choices pairs.now) counts.old.items counts.new.items }
{
    for pair in pairs {
        forward_pair(net, trees, *pair, choices, counts);
    }
}
