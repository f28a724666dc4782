//! Tests of one row, and of two.

ghost use Rattle.std.specs.Prelude.{◌≡◌, ◌==◌, not, nat_lt, length, slice_index};
ghost use Rattle.sr_lanes.specs.declared.limits.TheConstants.{CELL_AT_MOST};

use crate::limits::CELL_AT_MOST;
use crate::place_test::PlaceTest;
use std::simd::prelude::*;

/// Two rows that may differ.
#[derive(Clone, Copy)]
pub(crate) struct TwoRows<'a> {
    pub(crate) a: &'a [u64],
    pub(crate) b: &'a [u64],
    ghost lengths: { length b.now ≡ length a.now },
}

impl<'a> PlaceTest for TwoRows<'a> {
    ghost count = { λ t. length t.a.now };

    ghost test = { λ t v. not (slice_index t.a.now v == slice_index t.b.now v) };

    #[inline(always)]
    fn places(&self) -> usize {
        self.a.len()
    }

    #[inline(always)]
    fn at_one(&self, at: usize) -> bool {
        self.a[at] != self.b[at]
    }

    #[inline(always)]
    fn at_eight(&self, at: usize) -> u64 {
        let a = u64x8::from_slice(&self.a[at..]);
        a.simd_ne(u64x8::from_slice(&self.b[at..])).to_bitmask()
    }
}

/// A row some of whose cells are distances.
#[derive(Clone, Copy)]
pub(crate) struct OneRow<'a> {
    pub(crate) row: &'a [u64],
}

impl<'a> PlaceTest for OneRow<'a> {
    ghost count = { λ t. length t.row.now };

    ghost test = { λ t v. nat_lt (slice_index t.row.now v) CELL_AT_MOST };

    #[inline(always)]
    fn places(&self) -> usize {
        self.row.len()
    }

    #[inline(always)]
    fn at_one(&self, at: usize) -> bool {
        self.row[at] < CELL_AT_MOST
    }

    #[inline(always)]
    fn at_eight(&self, at: usize) -> u64 {
        let row = u64x8::from_slice(&self.row[at..]);
        row.simd_lt(u64x8::splat(CELL_AT_MOST)).to_bitmask()
    }
}
