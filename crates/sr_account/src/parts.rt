//! Why a part isn't used, and what it is by name.
ghost use Rattle.std.specs.Prelude.{◌≡◌};
ghost use Rattle.sr_lsp.specs.Parts.{part_of};
ghost use Rattle.sr_account.specs.Items.{matter_of_part};
ghost use Rattle.sr_account.specs.Items.Item.{OfPart};
ghost use Rattle.sr_account.specs.Reasons.{HoldsFor, PartFails};
ghost use Rattle.sr_account.specs.Steps.{IsOwnPart, IsSurvey, IsFoundReason, PartStands, at_part};

use crate::aside::{Matter, Reason};
use crate::capabilities::capability_reason;
use crate::choice::{Choice, Standing};
use crate::entries::{announcement_reason, unannounced_reason};
use crate::prefixes::prefix_reason;
use crate::risks::risk_reason;
use crate::survey::Survey;
use sr_lsdb::{Facts, announced_by};
use sr_lsp::{LspId, PartRef};

/// What the part is, by name.
pub(crate) fn matter_of(part: PartRef<'_>) -> Matter
    ensures { result ≡ matter_of_part (part_of part.entry) }
{
    match part {
        PartRef::Reach(reach) => Matter::Reach {
            neighbour: reach.neighbour,
            pseudonode: reach.pseudonode,
        },
        PartRef::Prefix(prefix) => Matter::Prefix {
            prefix: prefix.prefix,
            length: prefix.length,
        },
        PartRef::Name(_) => Matter::Name,
        PartRef::Risk(risk) => Matter::Risk {
            neighbour: risk.neighbour,
            pseudonode: risk.pseudonode,
        },
        PartRef::Capability(capability) => Matter::Capability {
            router: capability.router,
        },
    }
}

/// Why a part of an LSP of the node's own isn't used.
fn own_reason(
    survey: &Survey,
    facts: &Facts,
    choice: &Choice,
    id: &LspId,
    at: usize,
    part: PartRef<'_>,
) -> Option<Reason>
    requires survey { IsSurvey facts.now survey.now }
    requires own { IsOwnPart facts.now choice.now (at_part id.now at) (part_of part) }
    ensures { IsFoundReason (PartFails facts.now (at_part id.now at) (part_of part.entry)) result }
{
    match part {
        PartRef::Reach(reach) => match announced_by(id.system, part) {
            Some(announcement) => announcement_reason(survey, facts, &announcement),
            None => Some(unannounced_reason(id.system, reach)),
        },
        PartRef::Prefix(prefix) => prefix_reason(choice, id, at, prefix),
        PartRef::Name(_) => Some(Reason::HostName),
        PartRef::Risk(risk) => risk_reason(survey, id.system, risk),
        PartRef::Capability(capability) => capability_reason(choice, id, at, capability),
    }
}

/// Why the part at this place of the LSP isn't used.
pub(crate) fn part_reason(
    survey: &Survey,
    facts: &Facts,
    standing: &Standing,
    id: &LspId,
    at: usize,
    part: PartRef<'_>,
) -> Option<Reason>
    requires survey { IsSurvey facts.now survey.now }
    requires stands { PartStands facts.now standing.now (at_part id.now at) (part_of part) }
    ensures { IsFoundReason (HoldsFor facts.now (OfPart (at_part id.now at) (part_of part.entry))) result }
{
    match standing {
        Standing::SetAside(reason) => Some(*reason),
        Standing::Own(choice) => own_reason(survey, facts, choice, id, at, part),
    }
}
