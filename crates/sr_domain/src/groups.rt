//! The shared-risk groups of bidirectional links.
ghost use Rattle.std.specs.Prelude.{◌≡◌, ◌≤◌, ◌++◌, length, map, IfOk, OnOk};
ghost use Rattle.std.specs.List.{filter};
ghost use Rattle.std.specs.List.Sorted.{IsStrictlyIncreasing, IsStrictlySortedBy};
ghost use Rattle.sr_domain.specs.GroupTables.{NamesAscend, AreNotesInOrder, HaveSameNotes, IsRiskTable, groups_in, groups_said, is_of, is_under, note_group, pair_name_cmp};

use crate::names::PairName;
use crate::risks::{RiskName, RiskNote};
use sr_model::PairKey;
use std::alloc::{AllocError, Global};

/// The names of bidirectional links, in order, each once, and what is said of risks, in order of names.
#[derive(Debug, Drop)]
pub(crate) struct RiskTable {
    pub names: Vec<PairName>,
    pub notes: Vec<RiskNote>,
}

/// The notes in order of names, each once.
pub(crate) fn by_name(mut notes: Vec<RiskNote>) -> Vec<RiskNote>
    ensures same { HaveSameNotes notes.items result.items }
    ensures ascending { AreNotesInOrder result.items }
{
    notes.sort_unstable();
    notes.dedup();
    notes
}

/// The notes under the name, of notes in order of names. Their end is searched for only where there are any.
fn notes_under<'a>(notes: &'a [RiskNote], name: &RiskName) -> &'a [RiskNote]
    requires { AreNotesInOrder notes.now }
    ensures { result.now ≡ filter (is_under name.now) notes.now }
{
    let start = notes.partition_point(|note| note.name.cmp(name).is_lt());
    if start == notes.len() || notes[start].name.cmp(name).is_gt() {
        return &[];
    }
    let rest = &notes[start..];
    let count = rest.partition_point(|note| note.name.cmp(name).is_le());
    &rest[..count]
}

/// The names of the pair, of names in order.
fn names_with<'a>(names: &'a [PairName], pair: &PairKey) -> &'a [PairName]
    requires { IsStrictlySortedBy pair_name_cmp names.now }
    ensures { result.now ≡ filter (is_of pair.now) names.now }
{
    let start = names.partition_point(|named| named.pair.cmp(pair).is_lt());
    let rest = &names[start..];
    let count = rest.partition_point(|named| named.pair.cmp(pair).is_le());
    &rest[..count]
}

/// Appends the group of each note.
fn add_groups(notes: &[RiskNote], out: &mut Vec<u32>) -> Result<(), AllocError>
    ensures { OnOk result (out.new.items ≡ out.old.items ++ map note_group notes.now) }
{
    for note in notes {
        out.push(note.group)?;
    }
    Ok(())
}

/// The groups that the notes, in order of names, give these names, with repeats. No two names are alike, so that each
/// note is taken once at most.
fn groups_said(
    alloc: Global,
    names: &[PairName],
    notes: &[RiskNote],
) -> Result<Vec<u32>, AllocError>
    requires order { AreNotesInOrder notes.now }
    requires apart { NamesAscend names.now }
    ensures groups { IfOk result (λ v. v.items ≡ groups_said names.now notes.now) }
    ensures bound { IfOk result (λ v. length v.items ≤ length notes.now) }
{
    let mut out = Vec::new(alloc);
    for named in names {
        let under = notes_under(notes, &named.name);
        add_groups(under, &mut out)?;
    }
    Ok(out)
}

/// The groups of the pair, ascending.
pub(crate) fn groups_of(
    alloc: Global,
    table: &RiskTable,
    pair: &PairKey,
) -> Result<Vec<u32>, AllocError>
    requires { IsRiskTable table.now }
    ensures ascending { IfOk result (λ v. IsStrictlyIncreasing v.items) }
    ensures groups { IfOk result (λ v. v.items ≡ groups_in table.now pair.now) }
{
    let names = names_with(&table.names, pair);
    let mut groups = groups_said(alloc, names, &table.notes)?;
    groups.sort_unstable();
    groups.dedup();
    Ok(groups)
}
