//! The repairs of one version that another one hasn't.
ghost use Rattle.std.specs.Prelude.{◌≡◌, ◌↔◌, IsTrue, IfOk};
ghost use Rattle.sr_model.specs.Audit.{IsItem, is_least};
ghost use Rattle.sr_diff.specs.Diff.{IsLost, AreSuch};
ghost use Rattle.sr_diff.specs.Matched.{AreItems};

use crate::copied::copied_item;
use crate::there::repair_there;
use sr_labels::Net;
use sr_model::{Answer, Item};
use sr_repair::Version;
use sr_seq::Seq;
use std::alloc::{AllocError, Global};

/// Whether the item is a repair.
pub(crate) fn is_repair(item: &Item<'_>) -> bool
    ensures { result ≡ is_least item.now.answer }
{
    match item.answer {
        Answer::Least(_) => true,
        Answer::NoPath | Answer::NoList | Answer::TooDeep { .. } => false,
    }
}

/// Whether the item is a repair, and the other version has none under its name.
fn is_lost(alloc: Global, net: &Net, item: &Item<'_>, other: &Version) -> Result<bool, AllocError>
    requires { IsItem net.now item.now }
    ensures { IfOk result (λ lost. IsTrue lost ↔ IsLost net.now other.now.net item.now) }
{
    if !is_repair(item) {
        return Ok(false);
    }
    let found = repair_there(alloc, net, item, other)?;
    Ok(found.is_none())
}

/// The repairs among the items of the net under whose names the other version has none, in their order.
pub(crate) fn lost_of<'a>(
    alloc: Global,
    net: &Net,
    items: &[Item<'a>],
    other: &Version,
) -> Result<Seq<Item<'a>>, AllocError>
    requires { AreItems net.now items.now }
    ensures { IfOk result (AreSuch (IsLost net.now other.now.net) items.now) }
{
    let mut lost = Vec::new(alloc);
    for item in items {
        if is_lost(alloc, net, item, other)? {
            lost.push(copied_item(alloc, item)?)?;
        }
    }
    Ok(Seq::new(lost))
}
