//! The rules on the SRGB of each node by itself.
ghost use Rattle.std.specs.Prelude.{◌≡◌, IfOk};
ghost use Rattle.std.specs.List.Sorted.{IsStrictlyIncreasing};
ghost use Rattle.sr_domain.specs.Nodes.{nodes_of};
ghost use Rattle.sr_rules.specs.Broken.{IsFinding};

use sr_domain::srgb_of;
use sr_labels::Srgb;
use sr_lsdb::Facts;
use sr_model::{DomainRule, SystemId};
use std::alloc::{AllocError, Global};

/// The least node that announces no SR-Capabilities (RFC 8667, 3.1), if there is one.
pub(crate) fn no_srgb(
    alloc: Global,
    facts: &Facts,
    nodes: &[SystemId],
) -> Result<Option<DomainRule>, AllocError>
    requires nodes { nodes.now ≡ nodes_of facts.now }
    requires ascending { IsStrictlyIncreasing nodes.now }
    ensures { IfOk result (IsFinding facts.now 0) }
{
    for node in nodes {
        match srgb_of(alloc, facts, *node)? {
            Some(_) => {}
            None => return Ok(Some(DomainRule::NoSrgb { node: *node })),
        }
    }
    Ok(None)
}

/// The least node whose label ranges are no SRGB (RFC 8667, 3.1), if there is one. A node that announces none breaks
/// the rule before, and not this one.
pub(crate) fn srgb_bad(
    alloc: Global,
    facts: &Facts,
    nodes: &[SystemId],
) -> Result<Option<DomainRule>, AllocError>
    requires nodes { nodes.now ≡ nodes_of facts.now }
    requires ascending { IsStrictlyIncreasing nodes.now }
    ensures { IfOk result (IsFinding facts.now 1) }
{
    for node in nodes {
        match srgb_of(alloc, facts, *node)? {
            None => {}
            Some(ranges) => match Srgb::new(ranges) {
                Ok(_) => {}
                Err(_) => return Ok(Some(DomainRule::SrgbBad { node: *node })),
            },
        }
    }
    Ok(None)
}
