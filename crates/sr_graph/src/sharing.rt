//! Which links share a group.
ghost use Rattle.std.specs.Prelude.{◌≡◌, ◌↔◌, ℕ, ◌<◌, ◌≤◌, ◌/◌, ◌++◌, ◌⊎◌, [], length, map, replicate, IfOk, OnOk};
ghost use Rattle.std.specs.List.Sorted.{IsPermutation, IsNonDecreasingBy};
ghost use Rattle.sr_graph.specs.Bits.{IsIn};
ghost use Rattle.sr_graph.specs.Sharing.{set_at, AreSharing};
ghost use Rattle.sr_model.specs.declared.link.TheConstants.{MOST_LINKS};
ghost use Rattle.sr_graph.specs.Holdings.{held_by, held_group, holder_at, AreHoldings, IsGroupRun, HasHolder, AreJoined};

use crate::link_bits::LinkBits;
use sr_model::LinkNo;
use sr_seq::Seq;
use std::alloc::{AllocError, Global};

/// A group with a link that has it.
#[derive(Clone, Copy, Debug, PartialEq, Eq)]
struct Holding {
    group: u32,
    link: LinkNo,
}

/// Appends the link with each of its groups.
fn add_holdings(link: LinkNo, groups: &[u32], out: &mut Vec<Holding>) -> Result<(), AllocError>
    ensures { OnOk result (out.new.items ≡ out.old.items ++ map (held_by link) groups.now) }
{
    for group in groups {
        out.push(Holding {
            group: *group,
            link,
        })?;
    }
    Ok(())
}

/// Each link with each of its groups.
fn holdings(alloc: Global, groups: &[Seq<u32>]) -> Result<Vec<Holding>, AllocError>
    requires { length groups.now ≤ MOST_LINKS }
    ensures { IfOk result (λ list. AreHoldings groups.now (length groups.now) list.items) }
{
    let mut list = Vec::new(alloc);
    for link in 0..groups.len() {
        add_holdings(LinkNo(link as u16), groups[link].as_slice(), &mut list)?;
    }
    Ok(list)
}

/// The same in order of groups.
fn by_group(mut list: Vec<Holding>) -> Vec<Holding>
    ensures same { IsPermutation list.items result.items }
    ensures order { IsNonDecreasingBy held_group result.items }
{
    list.sort_unstable_by_key(|holding| holding.group);
    list
}

/// Where those of the group that stands at the place end.
fn run_end(list: &[Holding], start: usize) -> usize
    requires order { IsNonDecreasingBy held_group list.now }
    requires within { start < length list.now }
    ensures { IsGroupRun list.now start result }
{
    for place in start + 1..list.len() {
        if list[place].group != list[start].group {
            return place;
        }
    }
    list.len()
}

/// Makes it the set of the links that stand from one place to below another.
fn collect(set: &mut LinkBits, list: &[Holding], start: usize, end: usize)
    requires ordered { start ≤ end }
    requires inside { end ≤ length list.now }
    requires room { (k : ℕ) → k < length list.now → holder_at list.now k / 64 < length set.old }
    ensures long { length set.new ≡ length set.old }
    ensures links { (l : ℕ) → IsIn set.new l ↔ HasHolder list.now start end l }
{
    set.clear();
    for place in start..end {
        set.add(list[place].link);
    }
}

/// Adds the links to the set of each link that stands from one place to below another.
fn add_to_each(
    sets: &mut [LinkBits],
    links: &LinkBits,
    list: &[Holding],
    start: usize,
    end: usize,
) -> Result<(), AllocError>
    requires ordered { start ≤ end }
    requires inside { end ≤ length list.now }
    requires room { (k : ℕ) → k < length list.now → holder_at list.now k < length sets.old }
    ensures { OnOk result ((p l : ℕ) → IsIn (set_at sets.new p) l
        ↔ (IsIn (set_at sets.old p) l ⊎ (HasHolder list.now start end p × IsIn links.now l))) }
{
    for place in start..end {
        let set = &mut sets[list[place].link.0 as usize];
        set.add_all(links)?;
    }
    Ok(())
}

/// As many empty sets as `count` says.
fn empty_sets(alloc: Global, count: usize) -> Result<Vec<LinkBits>, AllocError>
    ensures { IfOk result (λ sets. sets.items ≡ replicate count []) }
{
    let mut sets = Vec::with_capacity(alloc, count)?;
    for _link in 0..count {
        sets.push(LinkBits::empty(alloc))?;
    }
    Ok(sets)
}

/// For each of the links, those that have a group of it. The time is a union of two sets for each entry of the list.
fn joined(alloc: Global, list: &[Holding], links: usize) -> Result<Vec<LinkBits>, AllocError>
    requires order { IsNonDecreasingBy held_group list.now }
    requires links { (k : ℕ) → k < length list.now → holder_at list.now k < links }
    ensures { IfOk result (λ sets. AreJoined list.now (length list.now) sets.items) }
{
    let mut sets = empty_sets(alloc, links)?;
    let mut common = LinkBits::with_room(alloc, links)?;
    let mut start = 0;
    while start < list.len() {
        let end = run_end(list, start);
        collect(&mut common, list, start, end);
        add_to_each(&mut sets, &common, list, start, end)?;
        start = end;
    }
    Ok(sets)
}

/// For each link, the links that share a group with it, by the groups of each link. Where no link has a group, there are
/// no sets.
pub(crate) fn sharing(alloc: Global, groups: &[Seq<u32>]) -> Result<Vec<LinkBits>, AllocError>
    requires { length groups.now ≤ MOST_LINKS }
    ensures { IfOk result (λ sets. AreSharing groups.now sets.items) }
{
    let list = by_group(holdings(alloc, groups)?);
    // Most graphs have no group.
    if list.is_empty() {
        return Ok(Vec::new(alloc));
    }
    joined(alloc, &list, groups.len())
}
