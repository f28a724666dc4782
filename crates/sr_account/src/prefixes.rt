//! Why an entry of extended IP reachability gives its node no index, and why its SIDs don't.
ghost use Rattle.std.specs.Prelude.{◌≡◌, Some, slice_get};
ghost use Rattle.sr_lsp.specs.declared.table.Part.TheVariants as part;
ghost use Rattle.sr_lsdb.specs.declared.facts.Facts.{Facts};
ghost use Rattle.sr_account.specs.Items.Item.{OfPrefix};
ghost use Rattle.sr_account.specs.Reasons.{HoldsFor, PrefixFails, PrefixSidFails};
ghost use Rattle.sr_account.specs.Steps.{IsAnyUsed, IsOfferReason, IsOwnPart, IsFoundReason, PartStands, at_part};

use crate::aside::Reason;
use crate::choice::{Choice, Offer, Standing};
use sr_lsp::{LspId, Prefix};
use sr_subtlv::{PrefixSid, Sid};
use sr_wire::registry::{ADDRESS_BITS, PREFIX_SID_NODE, PREFIX_SID_READVERTISED};

/// Why a SID that offers this index isn't the one that its node chose.
fn offer_reason(
    chosen: Option<Offer>,
    id: &LspId,
    at: usize,
    k: usize,
    index: u32,
) -> Option<Reason>
    ensures { IsOfferReason chosen (at_part id.now at) k index result }
{
    match chosen {
        Some(offer) => {
            if offer.index < index {
                Some(Reason::NotLeast)
            } else if offer.fragment == id.fragment && offer.part == at && offer.sid == k {
                None
            } else {
                Some(Reason::NotFirst)
            }
        }
        None => None,
    }
}

/// Why the Prefix-SID at place k of those of the prefix doesn't give the node its index. The prefix is the part at this
/// place of an LSP of the node's own.
fn own_sid_reason(
    choice: &Choice,
    id: &LspId,
    at: usize,
    prefix: &Prefix,
    k: usize,
    sid: PrefixSid,
) -> Option<Reason>
    ensures { (facts : Facts) → IsOwnPart facts choice.now (at_part id.now at) (part.Prefix prefix.now)
        → slice_get prefix.now.sids k ≡ Some sid
        → IsFoundReason (PrefixSidFails facts (at_part id.now at) prefix.now k sid) result }
{
    if prefix.length != ADDRESS_BITS {
        return Some(Reason::NotHost);
    }
    if sid.algorithm != 0 {
        return Some(Reason::Algorithm);
    }
    match sid.sid {
        Sid::Label(_) => Some(Reason::WrongForm),
        Sid::Index(index) => {
            if sid.flags & (PREFIX_SID_READVERTISED | PREFIX_SID_NODE) != PREFIX_SID_NODE {
                Some(Reason::Flags)
            } else {
                offer_reason(choice.offer, id, at, k, index)
            }
        }
    }
}

/// Why the Prefix-SID at place k of those of the prefix isn't used. The prefix is the part at this place of an LSP of this
/// standing.
pub(crate) fn prefix_sid_reason(
    standing: &Standing,
    id: &LspId,
    at: usize,
    prefix: &Prefix,
    k: usize,
    sid: PrefixSid,
) -> Option<Reason>
    ensures { (facts : Facts) → PartStands facts standing.now (at_part id.now at) (part.Prefix prefix.now)
        → slice_get prefix.now.sids k ≡ Some sid
        → IsFoundReason (HoldsFor facts (OfPrefix (at_part id.now at) prefix.now k sid)) result }
{
    match standing {
        Standing::SetAside(reason) => Some(*reason),
        Standing::Own(choice) => own_sid_reason(choice, id, at, prefix, k, sid),
    }
}

/// Whether some SID of the prefix gives the node its index.
fn is_any_used(choice: &Choice, id: &LspId, at: usize, prefix: &Prefix) -> bool
    ensures { (facts : Facts) → IsOwnPart facts choice.now (at_part id.now at) (part.Prefix prefix.now)
        → IsAnyUsed facts (at_part id.now at) prefix.now result }
{
    for (k, sid) in prefix.sids.as_slice().iter().enumerate() {
        match own_sid_reason(choice, id, at, prefix, k, *sid) {
            Some(_) => {}
            None => return true,
        }
    }
    false
}

/// Why the prefix gives the node no index. It is the part at this place of an LSP of the node's own.
pub(crate) fn prefix_reason(
    choice: &Choice,
    id: &LspId,
    at: usize,
    prefix: &Prefix,
) -> Option<Reason>
    ensures { (facts : Facts) → IsOwnPart facts choice.now (at_part id.now at) (part.Prefix prefix.now)
        → IsFoundReason (PrefixFails facts (at_part id.now at) prefix.now) result }
{
    if prefix.length != ADDRESS_BITS {
        Some(Reason::NotHost)
    } else if prefix.sids.as_slice().is_empty() {
        Some(Reason::NoSid)
    } else if !is_any_used(choice, id, at, prefix) {
        Some(Reason::NoneUsed)
    } else {
        None
    }
}
