//! Why a router capability tells nothing of its node that counts.
ghost use Rattle.std.specs.Prelude.{◌≡◌, Some, ◌↔◌, IsTrue};
ghost use Rattle.sr_lsp.specs.declared.table.Part.TheVariants as part;
ghost use Rattle.sr_lsdb.specs.declared.facts.Facts.{Facts};
ghost use Rattle.sr_account.specs.Reasons.{CapabilityFails};
ghost use Rattle.sr_account.specs.Steps.{IsOwnPart, IsFoundReason, at_part, own_part};

use crate::aside::Reason;
use crate::choice::{Choice, OwnPart, Saying, tells};
use sr_lsp::{Capability, LspId};

/// Whether this part is the one that was chosen.
fn is_chosen(chosen: Option<OwnPart>, id: &LspId, at: usize) -> bool
    ensures { IsTrue result ↔ (chosen ≡ Some (own_part id.now at)) }
{
    match chosen {
        Some(other) => other.fragment == id.fragment && other.part == at,
        None => false,
    }
}

/// Why the router capability tells nothing that counts. It is the part at this place of an LSP of the node's own.
pub(crate) fn capability_reason(
    choice: &Choice,
    id: &LspId,
    at: usize,
    capability: &Capability,
) -> Option<Reason>
    ensures { (facts : Facts) → IsOwnPart facts choice.now (at_part id.now at) (part.Capability capability.now)
        → IsFoundReason (CapabilityFails facts (at_part id.now at) capability.now) result }
{
    let ranges = tells(Saying::Ranges, capability);
    let imposition = tells(Saying::Imposition, capability);
    if !ranges && !imposition {
        return Some(Reason::Silent);
    }
    if is_chosen(choice.ranges, id, at) || is_chosen(choice.imposition, id, at) {
        None
    } else {
        Some(Reason::NotFirst)
    }
}
