//! What forwarders work on: the packets of a net, with its trees.
ghost use Rattle.std.specs.Prelude.{◌≡◌, length, replicate, IfOk};
ghost use Rattle.sr_model.specs.Graph.{link_count};
ghost use Rattle.sr_spf.specs.Trees.{AreTrees};
ghost use Rattle.sr_loads.specs.Tally.{GoBetweenPeers, AddsPackets, batch_packets};

use crate::batch::{batch_of, forward_pairs};
use crate::counts::zeros;
use crate::packet::Pair;
use sr_labels::Net;
use sr_spf::Trees;
use std::alloc::{AllocError, Global};
use std::marker::Model;

/// The pairs of a net between which packets go, each of which has a distance, and how many choice numbers they have, with
/// the net's trees. Forwarders share it.
#[derive(Drop)]
pub(crate) struct Traffic<'a> {
    net: &'a Net,
    trees: &'a Trees,
    pairs: &'a [Pair],
    choices: u32,
}

impl<'a> Model for Traffic<'a> {
    ghost use Rattle.sr_spf.specs.Trees.{AreTrees};
    ghost use Rattle.sr_loads.specs.Tally.{Traffic, GoBetweenPeers};

    ghost Value = { Traffic };

    ghost view = { λ t. record { net = t.net.now; pairs = t.pairs.now; choices = t.choices } };

    ghost invariant = { λ t. AreTrees t.net.now.graph t.trees.now × GoBetweenPeers t.net.now t.pairs.now };
}

impl<'a> Traffic<'a> {
    /// The traffic between these pairs, with this many choice numbers.
    pub(crate) fn new(
        net: &'a Net,
        trees: &'a Trees,
        pairs: &'a [Pair],
        choices: u32,
    ) -> Traffic<'a>
        requires trees { AreTrees net.now.graph trees.now }
        requires pairs { GoBetweenPeers net.now pairs.now }
        ensures { result ≡ record { net = net.now; pairs = pairs.now; choices = choices } }
    {
        Traffic {
            net,
            trees,
            pairs,
            choices,
        }
    }

    /// How many pairs there are.
    pub(crate) fn len(&self) -> usize
        ensures { result ≡ length self.now.pairs }
    {
        self.pairs.len()
    }

    /// Nothing counted for each link of the net.
    pub(crate) fn zeros(&self, alloc: Global) -> Result<Vec<u64>, AllocError>
        ensures { IfOk result (λ counts. counts.items ≡ replicate (link_count self.now.net.graph) 0) }
    {
        zeros(alloc, self.net)
    }

    /// Forwards the packets of a batch, and counts the links that they cross.
    pub(crate) fn forward_batch(&self, batch: u32, counts: &mut Vec<u64>)
        requires { length counts.old.items ≡ link_count self.now.net.graph }
        ensures { AddsPackets self.now.net (batch_packets self.now batch) counts.old.items counts.new.items }
    {
        let pairs = batch_of(self.pairs, batch);
        forward_pairs(self.net, self.trees, pairs, self.choices, counts);
    }
}
