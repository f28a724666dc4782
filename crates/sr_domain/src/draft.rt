//! The links of a domain as a graph takes them, with their shared-risk groups.
ghost use Rattle.std.specs.Prelude.{◌≡◌, ℕ, ◌≤◌, false, [], List, length, map, All, IfOk, IfSome};
ghost use Rattle.std.specs.List.Sorted.{IsPermutation, IsSortedByKey, IsStrictlyIncreasing};
ghost use Rattle.sr_model.specs.declared.name.PairKey.{PairKey as Pair};
ghost use Rattle.sr_model.specs.Key.{pair_of};
ghost use Rattle.sr_model.specs.KeyOrder.{key_cmp};
ghost use Rattle.sr_graph.specs.declared.draft.DraftLink.{DraftLink as Drafted};
ghost use Rattle.sr_domain.specs.Announced.{announcements_of};
ghost use Rattle.sr_domain.specs.Groups.{notes_of};
ghost use Rattle.sr_domain.specs.GroupTables.{GivesGroups, HasItsGroups, IsRiskTable, draft_link, groups_in};
ghost use Rattle.sr_model.specs.declared.link.TheConstants.{MOST_LINKS};
ghost use Rattle.sr_domain.specs.Links.{KeysAscend, link_key, link_label};

use crate::groups::{RiskTable, by_name, groups_of};
use crate::links::FoundLink;
use crate::names::names_of;
use crate::risks::notes;
use sr_graph::DraftLink;
use sr_lsdb::{Announcement, Facts};
use sr_model::{LinkKey, MOST_LINKS};
use sr_seq::Seq;
use std::alloc::{AllocError, Global};
use std::cmp::Ordering;

/// Sorts the links by key.
pub fn sort_links(links: &mut [FoundLink])
    ensures same { IsPermutation links.old links.new }
    ensures ascending { IsSortedByKey link_key key_cmp links.new }
{
    links.sort_unstable_by_key(|link| link.key);
}

/// Whether some link's key isn't above that of the link before.
fn has_repeat(links: &[FoundLink]) -> bool
    ensures { KeysAscend links.now → result ≡ false }
{
    for i in 1..links.len() {
        match links[i - 1].key.cmp(&links[i].key) {
            Ordering::Less => {}
            _ => return true,
        }
    }
    false
}

/// Whether no graph has these links, which are in order of key: there are too many, or some stand twice.
fn are_refused(links: &[FoundLink]) -> bool
    ensures { length links.now ≤ MOST_LINKS → KeysAscend links.now → result ≡ false }
{
    if links.len() > MOST_LINKS {
        return true;
    }
    has_repeat(links)
}

/// The table without names and notes, which gives no groups.
fn no_table(alloc: Global) -> RiskTable
    ensures names { result.names.items ≡ [] }
    ensures notes { result.notes.items ≡ [] }
{
    RiskTable {
        names: Vec::new(alloc),
        notes: Vec::new(alloc),
    }
}

/// What is said of the risks of pairs, where the links are in order of key. Links that no graph has get an empty table,
/// so that they cost no groups.
pub(crate) fn risk_table(
    alloc: Global,
    facts: &Facts,
    announced: &[Announcement],
    links: &[FoundLink],
) -> Result<RiskTable, AllocError>
    requires { announced.now ≡ announcements_of facts.now }
    ensures order { IfOk result IsRiskTable }
    ensures groups { IfOk result (λ t. length links.now ≤ MOST_LINKS → KeysAscend links.now →
        GivesGroups (groups_in t) (announcements_of facts.now) (notes_of facts.now)) }
{
    if are_refused(links) {
        return Ok(no_table(alloc));
    }
    let said = notes(alloc, facts)?;
    if said.as_slice().is_empty() {
        return Ok(no_table(alloc));
    }
    let notes = by_name(said);
    let names = names_of(alloc, announced)?;
    Ok(RiskTable { names, notes })
}

/// The groups of the link's pair, of a link back that has them. It stands before the link where its node does.
fn groups_back<'a>(drafted: &'a [DraftLink], key: &LinkKey) -> Option<&'a [u32]>
    ensures { (groups : Pair → List ℕ) → All (HasItsGroups groups) drafted.now →
        IfSome result (λ found. found.now ≡ groups (pair_of key.now)) }
{
    let back = key.mirrored();
    let at = drafted.partition_point(|link| link.key < back);
    if at < drafted.len() && drafted[at].key.pair() == key.pair() {
        Some(drafted[at].groups.as_slice())
    } else {
        None
    }
}

/// The groups of the link's pair, ascending: as a link back has them, and else as the table gives them.
fn groups_for(
    alloc: Global,
    table: &RiskTable,
    drafted: &[DraftLink],
    key: &LinkKey,
) -> Result<Vec<u32>, AllocError>
    requires table { IsRiskTable table.now }
    requires drafted { All (HasItsGroups (groups_in table.now)) drafted.now }
    ensures ascending { IfOk result (λ v. IsStrictlyIncreasing v.items) }
    ensures groups { IfOk result (λ v. v.items ≡ groups_in table.now (pair_of key.now)) }
{
    match groups_back(drafted, key) {
        Some(groups) => Vec::from_slice(alloc, groups),
        None => groups_of(alloc, table, &key.pair()),
    }
}

/// The links with the groups of their pairs.
pub(crate) fn draft_links(
    alloc: Global,
    table: &RiskTable,
    links: &[FoundLink],
) -> Result<Vec<DraftLink>, AllocError>
    requires { IsRiskTable table.now }
    ensures links { IfOk result (λ v. v.items ≡ map (draft_link (groups_in table.now)) links.now) }
    ensures groups { IfOk result
        (λ v. All (λ (d : Drafted). IsStrictlyIncreasing d.groups) v.items) }
{
    let mut out = Vec::with_capacity(alloc, links.len())?;
    for link in links {
        let groups = groups_for(alloc, table, &out, &link.key)?;
        out.push(DraftLink {
            key: link.key,
            metric: link.metric,
            groups: Seq::new(groups),
        })?;
    }
    Ok(out)
}

/// The adjacency labels of the links.
pub(crate) fn label_list(alloc: Global, links: &[FoundLink]) -> Result<Vec<Option<u32>>, AllocError>
    ensures { IfOk result (λ v. v.items ≡ map link_label links.now) }
{
    let mut out = Vec::with_capacity(alloc, links.len())?;
    for link in links {
        out.push(link.label)?;
    }
    Ok(out)
}
