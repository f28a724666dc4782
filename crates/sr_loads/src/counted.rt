//! How often packets cross each link, as an answer.
ghost use Rattle.std.specs.Prelude.{◌≡◌};

use std::marker::Model;

/// The most forwarders that are asked for (this project's rule).
pub const MOST_FORWARDERS: u32 = 8;

/// The most choice numbers that are asked for (this project's rule).
pub const MOST_CHOICES: u32 = 4;

/// How many packets were forwarded, and how often each link was crossed, by number.
#[derive(Debug, Drop)]
pub struct Loads {
    packets: u64,
    counts: Vec<u64>,
}

impl Model for Loads {
    ghost use Rattle.sr_loads.specs.Loads.{LinkLoads};

    ghost Value = { LinkLoads };

    ghost view = { λ a. record { packets = a.packets; counts = a.counts.items } };
}

impl Loads {
    /// The loads of that many packets.
    pub(crate) fn new(packets: u64, counts: Vec<u64>) -> Loads
        ensures { result ≡ record { packets = packets; counts = counts.items } }
    {
        Loads { packets, counts }
    }

    /// How many packets were forwarded.
    pub fn packets(&self) -> u64
        ensures { result ≡ self.now.packets }
    {
        self.packets
    }

    /// How often each link was crossed, by number.
    pub fn counts(&self) -> &[u64]
        ensures { result.now ≡ self.now.counts }
    {
        &self.counts
    }
}
