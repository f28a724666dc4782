//! What differs between the repairs of two versions, by names.
ghost use Rattle.std.specs.Prelude.{IfOk};
ghost use Rattle.sr_diff.specs.Diff.{IsDiff};

use crate::changes::compared_items;
use crate::differences::Diff;
use crate::lost::lost_of;
use sr_audit::audit;
use sr_repair::Version;
use std::alloc::{AllocError, Global};
use std::thread::Threads;

/// What differs between the repairs of two versions: which of the old ones are lost, which of the new ones are gained,
/// which are made in another way, and how many are made in the same way.
///
/// Numbers of nodes and links differ between versions, so repairs are matched by names (this project's rule): by what
/// fails, the key of the protected link, and the system id of the destination. They are the same where the keys of the
/// first links are, the system ids and keys of the segments, the labels, and the costs.
///
/// The two audits are made on threads where there are any. Fails only out of memory.
pub fn diff<'a>(
    rt: &(impl Threads + Sync),
    alloc: Global,
    old: &'a Version,
    new: &'a Version,
) -> Result<Diff<'a>, AllocError>
    ensures { IfOk result (IsDiff old.now.net new.now.net) }
{
    let before = audit(rt, alloc, old)?;
    let after = audit(rt, alloc, new)?;
    let lost = lost_of(alloc, old.net(), before.items(), new)?;
    let gained = lost_of(alloc, new.net(), after.items(), old)?;
    let both = compared_items(alloc, old, new.net(), after.items())?;
    Ok(Diff {
        lost,
        gained,
        changed: both.changed,
        same: both.same,
    })
}
