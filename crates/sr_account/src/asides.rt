//! What of the facts isn't used, in order of places.
ghost use Rattle.std.specs.Prelude.{◌≡◌, ◌++◌, IfOk, OnOk};
ghost use Rattle.sr_lsp.specs.declared.table.Part.TheVariants as part;
ghost use Rattle.sr_lsp.specs.Parts.{part_of};
ghost use Rattle.sr_lsdb.specs.declared.facts.Facts.{Facts as Domain};
ghost use Rattle.sr_account.specs.Items.{parts_under};
ghost use Rattle.sr_account.specs.Items.Item.{OfPart};
ghost use Rattle.sr_account.specs.Reasons.{HoldsFor, LspFails};
ghost use Rattle.sr_account.specs.Asides.{AreAsides, IsAsideCount};
ghost use Rattle.sr_account.specs.Steps.{AddsTold, IsChoice, IsStanding, IsSurvey, IsFoundReason, PartStands, adj_item, at_part, each_from, asides_for, part_items, prefix_item};

use crate::aside::{Aside, Matter, Place, Reason};
use crate::choice::{Choice, Memo, Standing, choice_for};
use crate::entries::adj_sid_reason;
use crate::parts::{matter_of, part_reason};
use crate::prefixes::prefix_sid_reason;
use crate::survey::{Survey, survey_of};
use sr_domain::is_present;
use sr_lsdb::{Facts, Stored};
use sr_lsp::{LspId, PartRef, Parts, Prefix, Reach};
use std::alloc::{AllocError, Global};

/// Appends a line with the reason, if there is one.
fn tell(
    place: Place,
    matter: Matter,
    reason: Option<Reason>,
    out: &mut Vec<Aside>,
) -> Result<(), AllocError>
    ensures { OnOk result (out.new.items ≡ out.old.items ++ asides_for place matter reason) }
{
    match reason {
        Some(reason) => {
            out.push(Aside {
                place,
                matter,
                reason,
            })?;
            Ok(())
        }
        None => Ok(()),
    }
}

/// Why nothing of the LSP is used.
fn lsp_reason(facts: &Facts, id: &LspId) -> Option<Reason>
    ensures { IsFoundReason (LspFails facts.now id.now) result }
{
    if id.pseudonode != 0 {
        Some(Reason::Lan)
    } else if !is_present(facts, id.system) {
        Some(Reason::Absent)
    } else {
        None
    }
}

/// Appends what is told of the adjacency SIDs of an entry, for which this is the first reason.
fn add_adj_sids(
    id: &LspId,
    at: usize,
    reach: &Reach,
    entry: Option<Reason>,
    out: &mut Vec<Aside>,
) -> Result<(), AllocError>
    ensures { OnOk result ((facts : Domain)
        → IsFoundReason (HoldsFor facts (OfPart (at_part id.now at) (part.Reach reach.now))) entry
        → AddsTold facts (each_from (adj_item (at_part id.now at) reach.now) 0 reach.now.adj)
        out.old.items out.new.items) }
{
    let sids = reach.adj.as_slice();
    for (k, sid) in sids.iter().enumerate() {
        let reason = adj_sid_reason(entry, sids, k, *sid);
        let place = Place {
            id: *id,
            part: at,
            sid: Some(k),
        };
        tell(place, Matter::AdjSid(sid.sid), reason, out)?;
    }
    Ok(())
}

/// Appends what is told of the Prefix-SIDs of a prefix.
fn add_prefix_sids(
    standing: &Standing,
    id: &LspId,
    at: usize,
    prefix: &Prefix,
    out: &mut Vec<Aside>,
) -> Result<(), AllocError>
    ensures { OnOk result ((facts : Domain)
        → PartStands facts standing.now (at_part id.now at) (part.Prefix prefix.now)
        → AddsTold facts (each_from (prefix_item (at_part id.now at) prefix.now) 0 prefix.now.sids)
        out.old.items out.new.items) }
{
    for (k, sid) in prefix.sids.as_slice().iter().enumerate() {
        let reason = prefix_sid_reason(standing, id, at, prefix, k, *sid);
        let place = Place {
            id: *id,
            part: at,
            sid: Some(k),
        };
        tell(place, Matter::PrefixSid(sid.sid), reason, out)?;
    }
    Ok(())
}

/// Appends what is told of a part and its SIDs.
fn add_part(
    survey: &Survey,
    facts: &Facts,
    standing: &Standing,
    id: &LspId,
    at: usize,
    part: PartRef<'_>,
    out: &mut Vec<Aside>,
) -> Result<(), AllocError>
    requires survey { IsSurvey facts.now survey.now }
    requires stands { PartStands facts.now standing.now (at_part id.now at) (part_of part) }
    ensures { OnOk result (AddsTold facts.now (part_items id.now at (part_of part.entry)) out.old.items out.new.items) }
{
    let reason = part_reason(survey, facts, standing, id, at, part);
    let place = Place {
        id: *id,
        part: at,
        sid: None,
    };
    tell(place, matter_of(part), reason, out)?;
    match part {
        PartRef::Reach(reach) => add_adj_sids(id, at, reach, reason, out),
        PartRef::Prefix(prefix) => add_prefix_sids(standing, id, at, prefix, out),
        _ => Ok(()),
    }
}

/// Appends what is told of the parts of an LSP.
fn add_parts(
    survey: &Survey,
    facts: &Facts,
    standing: &Standing,
    id: &LspId,
    parts: &Parts,
    out: &mut Vec<Aside>,
) -> Result<(), AllocError>
    requires survey { IsSurvey facts.now survey.now }
    requires stands { IsStanding facts.now id.now standing.now }
    requires parts { parts.now ≡ parts_under facts.now id.now }
    ensures { OnOk result (AddsTold facts.now (each_from (part_items id.now) 0 parts.now) out.old.items out.new.items) }
{
    for at in 0..parts.count() {
        add_part(survey, facts, standing, id, at, parts.at(at), out)?;
    }
    Ok(())
}

/// Appends what is told of an LSP, whose node chose so.
fn add_lsp(
    survey: &Survey,
    facts: &Facts,
    choice: &Choice,
    id: &LspId,
    parts: &Parts,
    out: &mut Vec<Aside>,
) -> Result<(), AllocError>
    requires survey { IsSurvey facts.now survey.now }
    requires choice { IsChoice facts.now id.now.system choice.now }
    requires parts { parts.now ≡ parts_under facts.now id.now }
    ensures { OnOk result (AddsTold facts.now (each_from (part_items id.now) 0 parts.now) out.old.items out.new.items) }
{
    match lsp_reason(facts, id) {
        Some(reason) => add_parts(survey, facts, &Standing::SetAside(reason), id, parts, out),
        None => add_parts(survey, facts, &Standing::Own(*choice), id, parts, out),
    }
}

/// What the account of facts goes by while it is taken, LSP by LSP: what is looked up in them, and what the node of the
/// last LSP chose.
#[derive(Debug, Drop)]
pub struct Account {
    survey: Survey,
    last: Option<Memo>,
}

impl Account {
    ghost use Rattle.std.specs.Prelude.{Contains};
    ghost use Rattle.sr_account.specs.Steps.{IsReady, entry_items};

    /// What the account of these facts goes by, before their first LSP. Fails only out of memory.
    pub fn of(alloc: Global, facts: &Facts) -> Result<Account, AllocError>
        ensures { IfOk result (IsReady facts.now) }
    {
        let survey = survey_of(alloc, facts)?;
        Ok(Account { survey, last: None })
    }

    /// Appends what is told of an LSP of these facts: of each part of a live one, and of each adjacency SID and each
    /// Prefix-SID, the first reason that holds, in order of part and SID. Fails only out of memory.
    pub fn add(
        &mut self,
        facts: &Facts,
        id: &LspId,
        stored: &Stored,
        out: &mut Vec<Aside>,
    ) -> Result<(), AllocError>
        requires ready { IsReady facts.now self.old }
        requires entry { Contains facts.now.database (id.now, stored.now) }
        ensures ready { IsReady facts.now self.new }
        ensures told { OnOk result (AddsTold facts.now (entry_items (id.now, stored.now)) out.old.items out.new.items) }
    {
        match &stored.live {
            Some(shared) => {
                let choice = choice_for(facts, id.system, &self.last);
                self.last = Some(Memo {
                    node: id.system,
                    choice,
                });
                let parts = &shared.lsp().parts;
                add_lsp(&self.survey, facts, &choice, id, parts, out)
            }
            None => Ok(()),
        }
    }
}

/// How much is told of all that the facts have. No more than what is told of one LSP is held at a time. Fails only out of
/// memory: none holds facts of which more is told than this counts.
pub fn aside_count(alloc: Global, facts: &Facts) -> Result<u64, AllocError>
    ensures { IfOk result (IsAsideCount facts.now) }
{
    let mut account = Account::of(alloc, facts)?;
    let mut told = Vec::new(alloc);
    let mut count: u64 = 0;
    let database = facts.database.as_map();
    for (id, stored) in database {
        told.clear();
        account.add(facts, id, stored, &mut told)?;
        count = match count.checked_add(told.len() as u64) {
            Some(sum) => sum,
            None => return Err(AllocError),
        };
    }
    Ok(count)
}

/// All that the facts have and their net doesn't use: each part of a live LSP, each adjacency SID and each Prefix-SID, with
/// the first reason that holds, in order of LSP id, part and SID (this project's rule). Fails only out of memory.
pub fn asides_of(alloc: Global, facts: &Facts) -> Result<Vec<Aside>, AllocError>
    ensures { IfOk result (λ v. AreAsides facts.now v.items) }
{
    let mut account = Account::of(alloc, facts)?;
    let mut out = Vec::new(alloc);
    let database = facts.database.as_map();
    for (id, stored) in database {
        account.add(facts, id, stored, &mut out)?;
    }
    Ok(out)
}
