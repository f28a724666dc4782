//! What differs between the repairs of two versions.

use sr_model::Item;
use sr_seq::Seq;

/// A repair that both versions have, not in the same way: what it was, and what it became.
#[derive(Debug, Drop)]
pub struct Changed<'a> {
    pub before: Item<'a>,
    pub after: Item<'a>,
}

/// What differs between the repairs of two versions, matched by names: what fails, the key of the protected link, and
/// the system id of the destination.
#[derive(Debug, Drop)]
pub struct Diff<'a> {
    /// The old version's repairs under whose names the new version has none, in order of the old audit.
    pub lost: Seq<Item<'a>>,
    /// The new version's repairs under whose names the old version has none, in order of the new audit.
    pub gained: Seq<Item<'a>>,
    /// The repairs that aren't made in the same way, in order of the new audit.
    pub changed: Seq<Changed<'a>>,
    /// How many repairs are made in the same way.
    pub same: u32,
}
