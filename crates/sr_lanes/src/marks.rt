//! Marks at the nodes to which the way over another node is a shortest one.

ghost use Rattle.std.specs.Prelude.{◌≡◌, ℕ, ◌+◌, ◌*◌, ◌<◌, ◌≤◌, length, slice_index};
ghost use Rattle.sr_lanes.specs.Passes.{AreCells, marked};
ghost use Rattle.sr_lanes.specs.Marks.{AreMarked, CanBeMarked};

use crate::limits::{CELL_AT_MOST, LANES};
use std::simd::prelude::*;

/// Marks eight cells from this place on.
#[inline(always)]
fn mark_eight(row: &[u64], cost: u64, base: &[u64], hits: &mut [u64], at: usize)
    requires rows { CanBeMarked row.now cost base.now hits.old }
    requires room { at + LANES ≤ length hits.old }
    ensures inside { (v : ℕ) → at ≤ v → v < at + LANES
        → slice_index hits.new v ≡ marked row.now cost base.now hits.old v }
    ensures below { (v : ℕ) → v < at → slice_index hits.new v ≡ slice_index hits.old v }
    ensures above { (v : ℕ) → at + LANES ≤ v → slice_index hits.new v ≡ slice_index hits.old v }
{
    let sums = u64x8::splat(cost) + u64x8::from_slice(&base[at..]);
    let tight = sums.simd_eq(u64x8::from_slice(&row[at..]));
    let before = u64x8::from_slice(&hits[at..]);
    tight
        .select(u64x8::splat(1), before)
        .copy_to_slice(&mut hits[at..]);
}

/// Marks whole groups of eight cells.
#[inline(always)]
fn mark_groups(row: &[u64], cost: u64, base: &[u64], hits: &mut [u64], groups: usize)
    requires rows { CanBeMarked row.now cost base.now hits.old }
    requires room { LANES * groups ≤ length hits.old }
    ensures { AreMarked row.now cost base.now hits.old (LANES * groups) hits.new }
{
    for group in 0..groups {
        mark_eight(row, cost, base, hits, LANES * group);
    }
}

/// Writes 1 at the nodes to which the way over the base's node, to which it costs `cost`, costs what the row says.
/// The other places stay as they are.
pub fn tight_mask(row: &[u64], cost: u64, base: &[u64], hits: &mut [u64])
    requires lengths { (length row.now ≡ length hits.old) × (length base.now ≡ length hits.old) }
    requires cost { cost ≤ CELL_AT_MOST }
    requires base { AreCells base.now }
    ensures { (v : ℕ) → slice_index hits.new v ≡ marked row.now cost base.now hits.old v }
{
    let groups = hits.len() / LANES;
    mark_groups(row, cost, base, hits, groups);
    for v in LANES * groups..hits.len() {
        if cost + base[v] == row[v] {
            hits[v] = 1;
        }
    }
}
