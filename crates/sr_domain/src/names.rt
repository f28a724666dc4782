//! The names by which shared-risk parts speak of the links of a pair.
ghost use Rattle.std.specs.Prelude.{◌≡◌, ◌++◌, IfOk, OnOk};
ghost use Rattle.std.specs.List.Sorted.{IsStrictlySortedBy};
ghost use Rattle.sr_domain.specs.GroupTables.{HaveSameNames, named, names_from, pair_name_cmp};

use crate::risks::{RiskName, numbered_name, unnumbered_name};
use sr_lsdb::Announcement;
use sr_model::PairKey;
use std::alloc::{AllocError, Global};

/// A bidirectional link with a name of one of its two links; in order of pairs, and then of names.
#[derive(Clone, Copy, Debug, PartialEq, Eq, PartialOrd, Ord)]
pub struct PairName {
    pub pair: PairKey,
    pub name: RiskName,
}

/// Appends the pair with the name, where there is one.
fn add_name(
    pair: &PairKey,
    name: Option<RiskName>,
    out: &mut Vec<PairName>,
) -> Result<(), AllocError>
    ensures { OnOk result (out.new.items ≡ out.old.items ++ named pair.now name) }
{
    match name {
        None => Ok(()),
        Some(name) => {
            out.push(PairName { pair: *pair, name })?;
            Ok(())
        }
    }
}

/// The names of all announcements, with repeats.
fn all_names(alloc: Global, announcements: &[Announcement]) -> Result<Vec<PairName>, AllocError>
    ensures { IfOk result (λ v. v.items ≡ names_from announcements.now) }
{
    let mut out = Vec::with_capacity(alloc, announcements.len())?;
    for announcement in announcements {
        let pair = announcement.key.pair();
        add_name(&pair, numbered_name(announcement), &mut out)?;
        add_name(&pair, unnumbered_name(announcement), &mut out)?;
    }
    Ok(out)
}

/// The names of all announcements, in order of pairs. Each is there once, however often its link is announced, so that
/// it takes the groups of its notes once.
pub(crate) fn names_of(
    alloc: Global,
    announcements: &[Announcement],
) -> Result<Vec<PairName>, AllocError>
    ensures same { IfOk result (λ v. HaveSameNames (names_from announcements.now) v.items) }
    ensures once { IfOk result (λ v. IsStrictlySortedBy pair_name_cmp v.items) }
{
    let mut names = all_names(alloc, announcements)?;
    names.sort_unstable();
    names.dedup();
    Ok(names)
}
