//! Link loads: how often the packets between all nodes cross each link, counted by forwarders on threads.
#![tactic(auto)]

mod batch;
mod counted;
mod counts;
mod forwarders;
mod forwarding;
mod laws;
mod packet;
mod pairs;
mod queue;
mod tally;
mod traffic;

pub use counted::{Loads, MOST_CHOICES, MOST_FORWARDERS};
pub use forwarders::loads;
pub use laws::loads_are_unique;
pub use packet::Packet;
