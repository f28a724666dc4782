//! The records of all cases.
ghost use Rattle.std.specs.Prelude.{◌≡◌, ℕ, ◌+◌, ◌≤◌, [], map, IfOk, OnOk};
ghost use Rattle.sr_model.specs.declared.case.Kind.TheVariants.{Link as LinkKind};
ghost use Rattle.sr_model.specs.Case.{IsCase};
ghost use Rattle.sr_encode.specs.Placed.{listed_from, ArePlacedLists};
ghost use Rattle.sr_repair.specs.Answers.{case_count, kept_of, searches_of, pass_searches, AreAllFound, IsFound};

use crate::cases::{link_case, slot_of};
use crate::known_case::KnownCase;
use crate::passes::Passed;
use sr_encode::CaseLists;
use sr_labels::Net;
use sr_model::Case;
use sr_spf::Steps;
use std::alloc::{AllocError, Global};
use std::sync::ledger::Ledger;

/// The record of a case.
#[derive(Drop)]
pub(crate) enum Found {
    /// That it affects no destination.
    Nothing,
    /// That its lists are those of the link case.
    AsLink,
    /// What is known of it.
    Own(KnownCase),
}

/// The record of a case after the pass over it. The search that was made for it is taken in.
fn kept<L: Ledger>(passed: Passed, steps: &mut Steps<L>) -> Found
    ensures found { result ≡ kept_of passed }
    ensures steps { steps.new ≡ steps.old + searches_of passed }
{
    match passed {
        Passed::Nothing => Found::Nothing,
        Passed::AsLink => Found::AsLink,
        Passed::Stays(known) => Found::Own(known),
        Passed::Told(solved) => Found::Own(KnownCase::new(solved)),
        Passed::Listed(solved, searched) => {
            steps.take_in(searched);
            Found::Own(KnownCase::new(solved))
        }
    }
}

/// The records of all cases after the passes over them. The searches that were made for them are taken in.
pub(crate) fn all_kept<L: Ledger>(
    alloc: Global,
    passed: Vec<Passed>,
    steps: &mut Steps<L>,
) -> Result<Vec<Found>, AllocError>
    ensures found { IfOk result (λ found. found.items ≡ map kept_of passed.items) }
    ensures steps { OnOk result (steps.new ≡ steps.old + pass_searches passed.items) }
    ensures most { steps.new ≤ steps.old + pass_searches passed.items }
    ensures least { steps.old ≤ steps.new }
{
    let mut found = Vec::with_capacity(alloc, passed.len())?;
    for one in passed {
        found.push(kept(one, steps))?;
    }
    Ok(found)
}

/// The record of the case.
pub(crate) fn found_of<'a>(net: &Net, found: &'a [Found], case: Case) -> &'a Found
    requires case { IsCase net.now.graph case }
    requires found { AreAllFound net.now (case_count net.now.graph) found.now }
    ensures { IsFound net.now case result.now }
{
    &found[slot_of(net.graph(), case) as usize]
}

/// What is listed in a link case, among the records. `none` is what is in a case that affects no destination.
fn lists_of_link<'a>(
    net: &Net,
    found: &'a [Found],
    none: &'a CaseLists,
    case: Case,
) -> &'a CaseLists
    requires case { IsCase net.now.graph case }
    requires kind { case.kind ≡ LinkKind }
    requires found { AreAllFound net.now (case_count net.now.graph) found.now }
    requires none { (start : ℕ) → listed_from start none.now ≡ [] }
    ensures { ArePlacedLists net.now case result.now }
{
    match found_of(net, found, case) {
        Found::Nothing => none,
        Found::Own(known) => known.solved.lists(),
        Found::AsLink => unreachable!(),
    }
}

/// What is listed in the case, among the records. `none` is what is in a case that affects no destination.
pub(crate) fn lists_of<'a>(
    net: &Net,
    found: &'a [Found],
    none: &'a CaseLists,
    case: Case,
) -> &'a CaseLists
    requires case { IsCase net.now.graph case }
    requires found { AreAllFound net.now (case_count net.now.graph) found.now }
    requires none { (start : ℕ) → listed_from start none.now ≡ [] }
    ensures { ArePlacedLists net.now case result.now }
{
    match found_of(net, found, case) {
        Found::Nothing => none,
        Found::Own(known) => known.solved.lists(),
        Found::AsLink => lists_of_link(net, found, none, link_case(case)),
    }
}
