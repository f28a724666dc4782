//! Why an entry of extended IS reachability gives no link, and why its SIDs don't give the adjacency label.
ghost use Rattle.std.specs.Prelude.{◌≡◌, ◌≢◌, ◌↔◌, ◌≤◌, ◌⊎◌, true, false, length, IsTrue};
ghost use Rattle.sr_subtlv.specs.declared.sid.Sid.TheVariants.{Label};
ghost use Rattle.sr_lsdb.specs.declared.facts.Facts.{Facts as Domain};
ghost use Rattle.sr_lsdb.specs.Announcement.{adj_label, adj_sid_labels, is_for_one, least};
ghost use Rattle.sr_account.specs.Reasons.{AdjFails, ReachFails};
ghost use Rattle.sr_account.specs.Steps.{AnnouncementFails, GivesOne, IsAdjReason, IsFirstOf, IsRepeatedSid, IsSurvey, IsFoundReason};

use crate::aside::Reason;
use crate::survey::{Ends, Survey, is_among};
use sr_domain::{effective_metric, holds, is_present};
use sr_lsdb::{Announcement, Facts, adj_sid_label, least_label};
use sr_lsp::Reach;
use sr_model::SystemId;
use sr_subtlv::{AdjSid, Sid};
use sr_wire::registry::{ADJ_SID_BACKUP, ADJ_SID_IPV6, ADJ_SID_SET, MAXIMUM_METRIC};

/// Why the announcement gives no link.
pub(crate) fn announcement_reason(
    survey: &Survey,
    facts: &Facts,
    announcement: &Announcement,
) -> Option<Reason>
    requires { IsSurvey facts.now survey.now }
    ensures { IsFoundReason (AnnouncementFails facts.now announcement.now) result }
{
    let key = &announcement.key;
    let back = Ends {
        from: key.to,
        to: key.from,
    };
    if !is_present(facts, key.to) {
        Some(Reason::NeighbourAbsent)
    } else if !is_among(&survey.ends, &back) {
        Some(Reason::OneWay)
    } else if !holds(&survey.keys, &key.mirrored()) {
        Some(Reason::Identity)
    } else if effective_metric(facts, announcement) == MAXIMUM_METRIC {
        Some(Reason::MaximumMetric)
    } else if facts.downs.contains(&key.pair()) {
        Some(Reason::Down)
    } else {
        None
    }
}

/// Why the entry is no announcement.
pub(crate) fn unannounced_reason(node: SystemId, reach: &Reach) -> Reason
    requires { (reach.now.pseudonode ≢ 0) ⊎ (reach.now.neighbour ≡ node) }
    ensures { (facts : Domain) → IsFirstOf (ReachFails facts node reach.now) result }
{
    if reach.pseudonode != 0 {
        Reason::Pseudonode
    } else {
        Reason::Itself
    }
}

/// Whether one of these SIDs gives the label, with the flag B as asked.
fn gives(sids: &[AdjSid], backup: bool, label: u32) -> bool
    ensures { IsTrue result ↔ GivesOne sids.now backup label }
{
    for sid in sids {
        match adj_sid_label(backup, *sid) {
            Some(other) => {
                if other == label {
                    return true;
                }
            }
            None => {}
        }
    }
    false
}

/// Whether a SID before place k gives the same label as this one, with the flag B as asked.
fn is_repeated_sid(sids: &[AdjSid], k: usize, sid: AdjSid, backup: bool) -> bool
    requires { k ≤ length sids.now }
    ensures { IsTrue result ↔ IsRepeatedSid sids.now k sid backup }
{
    match adj_sid_label(backup, sid) {
        Some(label) => gives(&sids[..k], backup, label),
        None => false,
    }
}

/// The adjacency label of an entry whose least label without the flag B is known.
fn label_of(sids: &[AdjSid], clear: Option<u32>) -> Option<u32>
    requires { clear ≡ least (adj_sid_labels false sids.now) }
    ensures { result ≡ adj_label sids.now }
{
    match clear {
        Some(label) => Some(label),
        None => least_label(true, sids),
    }
}

/// Why the SID at place k, which may give the label, isn't the first that gives the adjacency label.
fn label_reason(sids: &[AdjSid], k: usize, sid: AdjSid, label: u32) -> Option<Reason>
    requires place { k ≤ length sids.now }
    requires label { sid.sid ≡ Label label }
    requires one { is_for_one sid.flags ≡ true }
    ensures { IsFoundReason (AdjFails sids.now k sid) result }
{
    let backup = sid.flags & ADJ_SID_BACKUP == ADJ_SID_BACKUP;
    let clear = least_label(false, sids);
    if backup && clear.is_some() {
        return Some(Reason::Backup);
    }
    match label_of(sids, clear) {
        Some(least) => {
            if least != label {
                Some(Reason::NotLeast)
            } else if is_repeated_sid(sids, k, sid, false) || is_repeated_sid(sids, k, sid, true) {
                Some(Reason::NotFirst)
            } else {
                None
            }
        }
        None => Some(Reason::NotLeast),
    }
}

/// Why the adjacency SID at place k of those of its entry doesn't give the adjacency label. An entry has no more than
/// fit 255 octets, so that each may look at all of them.
fn adj_reason(sids: &[AdjSid], k: usize, sid: AdjSid) -> Option<Reason>
    requires { k ≤ length sids.now }
    ensures { IsFoundReason (AdjFails sids.now k sid) result }
{
    match sid.sid {
        Sid::Index(_) => Some(Reason::WrongForm),
        Sid::Label(label) => {
            if sid.flags & (ADJ_SID_IPV6 | ADJ_SID_SET) != 0 {
                Some(Reason::Flags)
            } else {
                label_reason(sids, k, sid, label)
            }
        }
    }
}

/// Why the adjacency SID at place k of those of an entry isn't used, by why the entry isn't.
pub(crate) fn adj_sid_reason(
    entry: Option<Reason>,
    sids: &[AdjSid],
    k: usize,
    sid: AdjSid,
) -> Option<Reason>
    requires { k ≤ length sids.now }
    ensures { IsAdjReason entry sids.now k sid result }
{
    match entry {
        Some(reason) => Some(reason),
        None => adj_reason(sids, k, sid),
    }
}
