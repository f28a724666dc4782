//! How many labels repairs push.
use sr_model::Kind;

/// How many repairs of cases of this kind push this many labels on the packet.
#[derive(Clone, Copy, Debug, PartialEq, Eq)]
pub struct StackCount {
    pub kind: Kind,
    pub labels: u32,
    pub repairs: u32,
}
