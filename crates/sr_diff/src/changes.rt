//! The repairs that two versions have, compared.
ghost use Rattle.std.specs.Prelude.{◌<◌, ◌^◌, length, IfOk};
ghost use Rattle.sr_model.specs.Audit.{IsItem};
ghost use Rattle.sr_diff.specs.Matched.{AreItems, IsLikeness, AreCompared};

use crate::alike::same_repair;
use crate::copied::copied_item;
use crate::differences::Changed;
use crate::lost::is_repair;
use crate::there::repair_there;
use sr_labels::Net;
use sr_model::Item;
use sr_repair::Version;
use sr_seq::Seq;
use std::alloc::{AllocError, Global};

/// How the repair of an item is like that of the old version under the same name.
#[derive(Debug, Drop)]
pub(crate) enum Likeness<'a> {
    /// One of the versions has no repair under this name.
    Apart,
    /// They are made in the same way.
    Same,
    /// The old version has this other repair.
    Other(Item<'a>),
}

/// The repairs that aren't made in the same way in both versions, and how many are.
#[derive(Debug, Drop)]
pub(crate) struct Compared<'a> {
    pub changed: Seq<Changed<'a>>,
    pub same: u32,
}

/// How the repair of an item of the new net is like that of the old version.
fn likeness_of<'a>(
    alloc: Global,
    old: &'a Version,
    new: &Net,
    item: &Item<'_>,
) -> Result<Likeness<'a>, AllocError>
    requires { IsItem new.now item.now }
    ensures { IfOk result (IsLikeness old.now.net new.now item.now) }
{
    if !is_repair(item) {
        return Ok(Likeness::Apart);
    }
    match repair_there(alloc, new, item, old)? {
        None => Ok(Likeness::Apart),
        Some(before) => {
            if same_repair(old.net(), &before, new, item) {
                Ok(Likeness::Same)
            } else {
                Ok(Likeness::Other(before))
            }
        }
    }
}

/// The items of the new net with another repair than the old version has, each with that one, and how many have the
/// same.
pub(crate) fn compared_items<'a>(
    alloc: Global,
    old: &'a Version,
    new: &Net,
    items: &[Item<'a>],
) -> Result<Compared<'a>, AllocError>
    requires items { AreItems new.now items.now }
    requires few { length items.now < 2 ^ 32 }
    ensures { IfOk result (AreCompared old.now.net new.now items.now) }
{
    let mut changed = Vec::new(alloc);
    let mut same = 0;
    for item in items {
        match likeness_of(alloc, old, new, item)? {
            Likeness::Apart => {}
            Likeness::Same => same += 1,
            Likeness::Other(before) => changed.push(Changed {
                before,
                after: copied_item(alloc, item)?,
            })?,
        }
    }
    Ok(Compared {
        changed: Seq::new(changed),
        same,
    })
}
