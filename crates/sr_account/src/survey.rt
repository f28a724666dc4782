//! What is looked up while the account is taken, made once beforehand.
ghost use Rattle.std.specs.Prelude.{◌≡◌, ◌++◌, map, filter, IfOk, OnOk};
ghost use Rattle.std.specs.Ordering.{eq_by_cmp};
ghost use Rattle.std.specs.List.{list_any};
ghost use Rattle.std.specs.List.Sorted.{IsSorted};
ghost use Rattle.sr_domain.specs.Announced.{AreKeysOf, announcements_of};
ghost use Rattle.sr_domain.specs.Groups.{name_cmp};
ghost use Rattle.sr_domain.specs.Links.{links_of};
ghost use Rattle.sr_account.specs.Steps.{AreSortedFrom, IsSurvey, ends_cmp, ends_of, has_link, link_pair, names_by, names_in};

use sr_domain::{RiskName, announcements, holds, keys_of, link_by, numbered_name, unnumbered_name};
use sr_lsdb::{Announcement, Facts};
use sr_model::{LinkKey, PairKey, SystemId};
use std::alloc::{AllocError, Global};

/// From which node to which a link is announced.
#[derive(Clone, Copy, Debug, PartialEq, Eq, PartialOrd, Ord)]
pub(crate) struct Ends {
    pub from: SystemId,
    pub to: SystemId,
}

/// What is looked up: the keys of what present nodes announce, the ends between which they do, the names by which risks
/// may speak of their announcements, and the names of those whose bidirectional link is in use. Each is in order.
#[derive(Debug, Drop)]
pub(crate) struct Survey {
    pub keys: Vec<LinkKey>,
    pub ends: Vec<Ends>,
    pub names: Vec<RiskName>,
    pub used: Vec<RiskName>,
}

/// Whether the value is among these, which are in order.
pub(crate) fn is_among<T: Ord>(sorted: &[T], value: &T) -> bool
    requires { IsSorted T.cmp sorted.now }
    ensures { result ≡ list_any (eq_by_cmp T.cmp value.now) sorted.now }
{
    match sorted.binary_search(value) {
        Ok(_) => true,
        Err(_) => false,
    }
}

/// The ends of these announcements, in order.
fn sorted_ends(alloc: Global, announcements: &[Announcement]) -> Result<Vec<Ends>, AllocError>
    ensures { IfOk result (λ v. AreSortedFrom ends_cmp (map ends_of announcements.now) v.items) }
{
    let mut ends = list_ends(alloc, announcements)?;
    ends.sort_unstable();
    Ok(ends)
}

/// The ends of these announcements.
fn list_ends(alloc: Global, announcements: &[Announcement]) -> Result<Vec<Ends>, AllocError>
    ensures { IfOk result (λ v. v.items ≡ map ends_of announcements.now) }
{
    let mut ends = Vec::with_capacity(alloc, announcements.len())?;
    for announcement in announcements {
        ends.push(Ends {
            from: announcement.key.from,
            to: announcement.key.to,
        })?;
    }
    Ok(ends)
}

/// Appends the names of the announcement.
fn add_names(announcement: &Announcement, out: &mut Vec<RiskName>) -> Result<(), AllocError>
    ensures { OnOk result (out.new.items ≡ out.old.items ++ names_by announcement.now) }
{
    match numbered_name(announcement) {
        Some(name) => out.push(name)?,
        None => {}
    }
    match unnumbered_name(announcement) {
        Some(name) => out.push(name)?,
        None => {}
    }
    Ok(())
}

/// The names of these announcements.
fn list_names(alloc: Global, announcements: &[Announcement]) -> Result<Vec<RiskName>, AllocError>
    ensures { IfOk result (λ v. v.items ≡ names_in announcements.now) }
{
    let mut names = Vec::with_capacity(alloc, announcements.len())?;
    for announcement in announcements {
        add_names(announcement, &mut names)?;
    }
    Ok(names)
}

/// The names of these announcements, in order.
fn sorted_names(alloc: Global, announcements: &[Announcement]) -> Result<Vec<RiskName>, AllocError>
    ensures { IfOk result (λ v. AreSortedFrom name_cmp (names_in announcements.now) v.items) }
{
    let mut names = list_names(alloc, announcements)?;
    names.sort_unstable();
    Ok(names)
}

/// The pairs of the links in use, with repeats.
fn list_pairs(
    alloc: Global,
    facts: &Facts,
    announcements: &[Announcement],
    keys: &[LinkKey],
) -> Result<Vec<PairKey>, AllocError>
    requires said { announcements.now ≡ announcements_of facts.now }
    requires keys { AreKeysOf announcements.now keys.now }
    ensures { IfOk result (λ v. v.items ≡ map link_pair (links_of facts.now)) }
{
    let mut pairs = Vec::with_capacity(alloc, announcements.len())?;
    for announcement in announcements {
        if holds(keys, &announcement.key.mirrored()) {
            match link_by(facts, announcement) {
                Some(link) => pairs.push(link.key.pair())?,
                None => {}
            }
        }
    }
    Ok(pairs)
}

/// The announcements whose bidirectional link is in use.
fn with_links(
    alloc: Global,
    facts: &Facts,
    announcements: &[Announcement],
    keys: &[LinkKey],
) -> Result<Vec<Announcement>, AllocError>
    requires said { announcements.now ≡ announcements_of facts.now }
    requires keys { AreKeysOf announcements.now keys.now }
    ensures { IfOk result (λ v. v.items ≡ filter (has_link facts.now) announcements.now) }
{
    let mut pairs = list_pairs(alloc, facts, announcements, keys)?;
    pairs.sort_unstable();
    let mut out = Vec::with_capacity(alloc, announcements.len())?;
    for announcement in announcements {
        if is_among(&pairs, &announcement.key.pair()) {
            out.push(*announcement)?;
        }
    }
    Ok(out)
}

/// What is looked up of the facts.
pub(crate) fn survey_of(alloc: Global, facts: &Facts) -> Result<Survey, AllocError>
    ensures { IfOk result (IsSurvey facts.now) }
{
    // Nothing is done with the count. What `len` promises says that the database is in order, which `as_map` doesn't.
    let _count = facts.database.as_map().len();
    let announced = announcements(alloc, facts)?;
    let keys = keys_of(alloc, &announced)?;
    let linked = with_links(alloc, facts, &announced, &keys)?;
    let ends = sorted_ends(alloc, &announced)?;
    let names = sorted_names(alloc, &announced)?;
    let used = sorted_names(alloc, &linked)?;
    Ok(Survey {
        keys,
        ends,
        names,
        used,
    })
}
