//! The numbers of links among the announced keys of their two nodes.
ghost use Rattle.std.specs.Prelude.{◌≡◌, ℕ, ◌<◌, ◌≤◌, true, false, length, slice_index_or};
ghost use Rattle.sr_model.specs.declared.name.LinkKey.{LinkKey as Key};
ghost use Rattle.sr_model.specs.Label.{key_named, IsPlace};
ghost use Rattle.sr_labels.specs.Keys.{Ascend, Hold, is_before, joins};

use sr_model::{LinkKey, SystemId};

/// Whether the ends of the key come before these.
fn is_before(key: &LinkKey, from: SystemId, to: SystemId) -> bool
    ensures { result ≡ is_before from to key.now }
{
    let begins = key.from.value();
    begins < from.value() || (begins == from.value() && key.to.value() < to.value())
}

/// Whether the key leads from the one node to the other.
fn joins(key: &LinkKey, from: SystemId, to: SystemId) -> bool
    ensures { result ≡ joins from to key.now }
{
    key.from.value() == from.value() && key.to.value() == to.value()
}

/// The place of the first key whose ends don't come before these.
fn first_between(keys: &[LinkKey], from: SystemId, to: SystemId) -> usize
    requires { Ascend keys.now }
    ensures within { result ≤ length keys.now }
    ensures before { (k : ℕ) (d : Key) → k < result → is_before from to (slice_index_or keys.now k d) ≡ true }
    ensures after { (k : ℕ) (d : Key) → result ≤ k → k < length keys.now
        → is_before from to (slice_index_or keys.now k d) ≡ false }
{
    keys.partition_point(|key| is_before(key, from, to))
}

/// The key of this number, counted from 1, among those from the one node to the other.
pub(crate) fn named(keys: &[LinkKey], from: SystemId, to: SystemId, n: u64) -> Option<LinkKey>
    requires { Ascend keys.now }
    ensures { result ≡ key_named keys.now from to n }
{
    if n == 0 {
        return None;
    }
    let first = first_between(keys, from, to);
    if n - 1 >= (keys.len() - first) as u64 {
        return None;
    }
    let key = keys[first + (n - 1) as usize];
    if joins(&key, from, to) {
        return Some(key);
    }
    None
}

/// The number of a key, counted from 1, among those between its nodes.
pub(crate) fn place(keys: &[LinkKey], key: &LinkKey) -> u64
    requires ascending { Ascend keys.now }
    requires there { Hold keys.now key.now }
    ensures { IsPlace keys.now key.now result }
{
    let first = first_between(keys, key.from, key.to);
    match keys.binary_search(key) {
        Ok(at) => (at - first) as u64 + 1,
        Err(_) => 0,
    }
}
