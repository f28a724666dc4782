//! Whether two rows are equal.

ghost use Rattle.std.specs.Prelude.{◌≡◌, ◌+◌, ◌*◌, ◌/◌, ◌≤◌, ◌↔◌, IsTrue, length, take, drop};

use crate::limits::LANES;
use std::simd::prelude::*;

/// Whether eight cells from this place on are equal.
#[inline(always)]
fn eight_equal(a: &[u64], b: &[u64], at: usize) -> bool
    requires a { at + LANES ≤ length a.now }
    requires b { at + LANES ≤ length b.now }
    ensures { IsTrue result ↔ (take LANES (drop at a.now) ≡ take LANES (drop at b.now)) }
{
    let x = u64x8::from_slice(&a[at..]);
    let y = u64x8::from_slice(&b[at..]);
    x.simd_eq(y).all()
}

/// Whether whole groups of eight cells are equal.
#[inline(always)]
fn groups_equal(a: &[u64], b: &[u64], groups: usize) -> bool
    requires a { LANES * groups ≤ length a.now }
    requires b { LANES * groups ≤ length b.now }
    ensures { IsTrue result ↔ (take (LANES * groups) a.now ≡ take (LANES * groups) b.now) }
{
    for group in 0..groups {
        if !eight_equal(a, b, LANES * group) {
            return false;
        }
    }
    true
}

/// Whether the rows are equal.
pub fn rows_equal(a: &[u64], b: &[u64]) -> bool
    ensures { IsTrue result ↔ (a.now ≡ b.now) }
{
    if a.len() != b.len() {
        return false;
    }
    let groups = a.len() / LANES;
    let done = LANES * groups;
    groups_equal(a, b, groups) && a[done..] == b[done..]
}
