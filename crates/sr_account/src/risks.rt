//! Why a shared-risk part gives no link a group.
ghost use Rattle.std.specs.List.Sorted.{IsSorted};
ghost use Rattle.sr_lsdb.specs.declared.facts.Facts.{Facts};
ghost use Rattle.sr_domain.specs.Groups.{name_cmp};
ghost use Rattle.sr_account.specs.Reasons.{RiskFails};
ghost use Rattle.sr_account.specs.Steps.{IsSurvey, IsFoundReason};

use crate::aside::Reason;
use crate::survey::{Survey, is_among};
use sr_domain::RiskName;
use sr_lsp::Risk;
use sr_model::SystemId;

/// Why the shared-risk part of the node gives no link a group.
pub(crate) fn risk_reason(survey: &Survey, node: SystemId, risk: &Risk) -> Option<Reason>
    requires names { IsSorted name_cmp survey.now.names.items }
    requires used { IsSorted name_cmp survey.now.used.items }
    ensures { (facts : Facts) → IsSurvey facts survey.now → IsFoundReason (RiskFails facts node risk.now) result }
{
    let name = RiskName {
        from: node,
        to: risk.neighbour,
        numbered: risk.numbered,
        local: risk.local,
        remote: risk.remote,
    };
    if risk.pseudonode != 0 {
        Some(Reason::Pseudonode)
    } else if risk.groups.as_slice().is_empty() {
        Some(Reason::NoGroups)
    } else if !is_among(&survey.names, &name) {
        Some(Reason::NoLink)
    } else if !is_among(&survey.used, &name) {
        Some(Reason::LinkUnused)
    } else {
        None
    }
}
