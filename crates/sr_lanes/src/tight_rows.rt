//! The nodes to which the way over another node is a shortest one.

ghost use Rattle.std.specs.Prelude.{◌≡◌, ◌≤◌, ◌==◌, ◌+◌, length, slice_index};
ghost use Rattle.sr_lanes.specs.Passes.{AreCells};
ghost use Rattle.sr_lanes.specs.declared.limits.TheConstants.{CELL_AT_MOST};

use crate::place_test::PlaceTest;
use std::simd::prelude::*;

/// Two rows and what it costs to come from the node of the first to that of the second.
#[derive(Clone, Copy)]
pub(crate) struct TightRows<'a> {
    pub(crate) row: &'a [u64],
    pub(crate) cost: u64,
    pub(crate) base: &'a [u64],
    ghost lengths: { length base.now ≡ length row.now },
    ghost small: { cost ≤ CELL_AT_MOST },
    ghost cells: { AreCells base.now },
}

impl<'a> PlaceTest for TightRows<'a> {
    ghost count = { λ t. length t.row.now };

    ghost test = { λ t v. t.cost + slice_index t.base.now v == slice_index t.row.now v };

    #[inline(always)]
    fn places(&self) -> usize {
        self.row.len()
    }

    #[inline(always)]
    fn at_one(&self, at: usize) -> bool {
        self.cost + self.base[at] == self.row[at]
    }

    #[inline(always)]
    fn at_eight(&self, at: usize) -> u64 {
        let sums = u64x8::splat(self.cost) + u64x8::from_slice(&self.base[at..]);
        sums.simd_eq(u64x8::from_slice(&self.row[at..]))
            .to_bitmask()
    }
}
