//! What the nodes announce of their links.
ghost use Rattle.std.specs.Prelude.{◌≡◌, IfOk};
ghost use Rattle.sr_lsdb.specs.Facts.{StandsUnderItsId};
ghost use Rattle.sr_domain.specs.Announced.{first_id, is_present as is_present_in, announced_under, announcements_of};

use sr_lsdb::{Announcement, Facts, Stored};
use sr_lsp::LspId;
use sr_model::{MOST_LINKS, SystemId};
use std::alloc::{AllocError, Global};

/// The id of the node's LSP with pseudonode 0 and fragment 0.
pub(crate) fn first_id(node: SystemId) -> LspId
    ensures { result ≡ first_id node }
{
    LspId {
        system: node,
        pseudonode: 0,
        fragment: 0,
    }
}

/// Whether the node's LSP with pseudonode 0 and fragment 0 is live.
pub fn is_present(facts: &Facts, node: SystemId) -> bool
    ensures { result ≡ is_present_in facts.now node }
{
    match facts.database.get(&first_id(node)) {
        Some(stored) => stored.live.is_some(),
        None => false,
    }
}

/// What an LSP announces where it is live and its node is present.
fn announced_under<'a>(facts: &Facts, id: &LspId, stored: &'a Stored) -> &'a [Announcement]
    requires { StandsUnderItsId (id.now, stored.now) }
    ensures { result.now ≡ announced_under facts.now (id.now, stored.now) }
{
    if id.pseudonode == 0 && is_present(facts, id.system) {
        match &stored.live {
            Some(shared) => shared.announced(),
            None => &[],
        }
    } else {
        &[]
    }
}

/// All announcements of present nodes, in order of LSP id and place. Each PDU keeps its own, so that none is read anew.
pub fn announcements(alloc: Global, facts: &Facts) -> Result<Vec<Announcement>, AllocError>
    ensures { IfOk result (λ v. v.items ≡ announcements_of facts.now) }
{
    // Room for as many as there are links at most, so that it seldom grows.
    let mut out = Vec::with_capacity(alloc, MOST_LINKS)?;
    let database = facts.database.as_map();
    for (id, stored) in database {
        out.extend_from_slice(announced_under(facts, id, stored))?;
    }
    Ok(out)
}
