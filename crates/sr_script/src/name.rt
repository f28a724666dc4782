//! What the words behind the first name: the ends of a way, a link, and a failure with a destination.

use sr_model::{Kind, SystemId};

/// The greatest number of a link: its place among those between its ends.
pub const MOST_LINK_NUMBER: u32 = 65_535;

/// Two system ids: where a way begins, and where it ends.
#[derive(Clone, Copy, Debug, PartialEq, Eq)]
pub struct EndNames {
    pub from: SystemId,
    pub to: SystemId,
}

/// A link by its ends, and its place, from 1, among those between them.
#[derive(Clone, Copy, Debug, PartialEq, Eq)]
pub struct LinkName {
    pub from: SystemId,
    pub to: SystemId,
    pub n: u32,
}

/// A failure by its kind and the protected link, and a destination.
#[derive(Clone, Copy, Debug, PartialEq, Eq)]
pub struct RepairName {
    pub kind: Kind,
    pub link: LinkName,
    pub dest: SystemId,
}
