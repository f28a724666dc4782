//! Announcements that both ends make.
ghost use Rattle.std.specs.Prelude.{◌≡◌, map, IfOk};
ghost use Rattle.std.specs.List.{list_any};
ghost use Rattle.std.specs.List.Sorted.{IsStrictlySortedBy};
ghost use Rattle.sr_model.specs.KeyOrder.{key_cmp, same_key};
ghost use Rattle.sr_domain.specs.Announced.{two_way as two_way_in, AreKeysOf, announced_key};

use sr_lsdb::Announcement;
use sr_model::LinkKey;
use std::alloc::{AllocError, Global};

/// The keys of these announcements, with repeats.
fn key_list(alloc: Global, announcements: &[Announcement]) -> Result<Vec<LinkKey>, AllocError>
    ensures { IfOk result (λ v. v.items ≡ map announced_key announcements.now) }
{
    let mut keys = Vec::with_capacity(alloc, announcements.len())?;
    for announcement in announcements {
        keys.push(announcement.key)?;
    }
    Ok(keys)
}

/// The distinct keys of these announcements, ascending.
pub fn keys_of(alloc: Global, announcements: &[Announcement]) -> Result<Vec<LinkKey>, AllocError>
    ensures { IfOk result (λ v. AreKeysOf announcements.now v.items) }
{
    let mut keys = key_list(alloc, announcements)?;
    keys.sort_unstable();
    keys.dedup();
    Ok(keys)
}

/// Whether the key is among these.
pub fn holds(keys: &[LinkKey], key: &LinkKey) -> bool
    requires { IsStrictlySortedBy key_cmp keys.now }
    ensures { result ≡ list_any (same_key key.now) keys.now }
{
    match keys.binary_search(key) {
        Ok(_) => true,
        Err(_) => false,
    }
}

/// Those whose other end announces the mirrored key.
pub(crate) fn two_way(
    alloc: Global,
    announcements: &[Announcement],
) -> Result<Vec<Announcement>, AllocError>
    ensures { IfOk result (λ v. v.items ≡ two_way_in announcements.now) }
{
    let keys = keys_of(alloc, announcements)?;
    let mut out = Vec::with_capacity(alloc, announcements.len())?;
    for announcement in announcements {
        if holds(&keys, &announcement.key.mirrored()) {
            out.push(*announcement)?;
        }
    }
    Ok(out)
}
