//! The SRGB of a node: label ranges, and the way between indices and labels.
ghost use Rattle.std.specs.Prelude.{◌≡◌, ◌<◌, ◌↔◌, length, IfOk, IfErr, IsTrue};
ghost use Rattle.sr_model.specs.Label.{label_of, sizes, IsIndexOf, IsWithin, AreApart, IsGoodAt, IsSrgb};
ghost use Rattle.sr_labels.specs.Ranges.{IsSrgbRefusal};

use sr_model::Range;
use std::alloc::{AllocError, Global};
use std::marker::Model;

/// The first label that isn't reserved (RFC 3032, 2.1).
pub const FIRST_FREE: u32 = 16;

/// How many labels there are: a label has 20 bits (RFC 3032, 2.1).
const LABELS: u32 = 1 << 20;

/// Whether the range isn't empty, and lies within the labels that aren't reserved.
fn is_within(range: Range) -> bool
    ensures { IsTrue result ↔ IsWithin range }
{
    range.size > 0
        && range.first >= FIRST_FREE
        && range.first <= LABELS
        && range.size <= LABELS - range.first
}

/// Whether no label is in both ranges.
fn are_apart(one: Range, other: Range) -> bool
    ensures { IsTrue result ↔ AreApart one other }
{
    one.first as u64 + one.size as u64 <= other.first as u64
        || other.first as u64 + other.size as u64 <= one.first as u64
}

/// Whether the range at this place is within the labels, and apart from all earlier ones.
fn is_good_at(ranges: &[Range], place: usize) -> bool
    requires { place < length ranges.now }
    ensures { IsTrue result ↔ IsGoodAt ranges.now place }
{
    if !is_within(ranges[place]) {
        return false;
    }
    for earlier in 0..place {
        if !are_apart(ranges[earlier], ranges[place]) {
            return false;
        }
    }
    true
}

/// The sum of the sizes.
fn size_of(ranges: &[Range]) -> u32
    requires { IsSrgb ranges.now }
    ensures { result ≡ sizes ranges.now }
{
    let mut size: u32 = 0;
    for range in ranges {
        size += range.size;
    }
    size
}

/// Why ranges are no SRGB.
#[derive(Clone, Copy, Debug, PartialEq, Eq)]
pub enum SrgbBad {
    /// The range at this place, counted from 0, is the first that is empty, reaches outside the labels 16 to 1,048,575,
    /// or overlaps an earlier one; or there is no range, and the place is 0.
    Bad { range: usize },
}

/// The label ranges of a node (RFC 8667, 3.1), in the order in which it announces them. Contracts see them as the list.
#[derive(Debug, Drop)]
pub struct Srgb {
    ranges: Vec<Range>,
    size: u32,
}

impl Model for Srgb {
    ghost use Rattle.std.specs.Prelude.{◌≡◌, List};
    ghost use Rattle.sr_model.specs.declared.label.Range.{Range};
    ghost use Rattle.sr_model.specs.Label.{IsSrgb, sizes};

    ghost Value = { List Range };

    ghost view = { λ a. a.ranges.items };

    ghost invariant = { λ a. IsSrgb a.ranges.items × (a.size ≡ sizes a.ranges.items) };
}

impl Srgb {
    /// The SRGB of these ranges. Refused is the first range that is empty, that reaches outside the labels 16 to
    /// 1,048,575, or that overlaps an earlier one; and an empty list, as place 0.
    pub fn new(ranges: Vec<Range>) -> Result<Srgb, SrgbBad>
        ensures value { IfOk result (λ srgb. srgb ≡ ranges.items) }
        ensures good { IfOk result (λ srgb. IsSrgb srgb) }
        ensures bad { IfErr result (IsSrgbRefusal ranges.items) }
    {
        if ranges.is_empty() {
            return Err(SrgbBad::Bad { range: 0 });
        }
        for place in 0..ranges.len() {
            if !is_good_at(&ranges, place) {
                return Err(SrgbBad::Bad { range: place });
            }
        }
        let size = size_of(&ranges);
        Ok(Srgb { ranges, size })
    }

    /// The same ranges again.
    pub fn copied(&self, alloc: Global) -> Result<Srgb, AllocError>
        ensures { IfOk result (λ srgb. srgb ≡ self.now) }
    {
        let ranges = self.ranges.to_vec(alloc)?;
        Ok(Srgb {
            ranges,
            size: self.size,
        })
    }

    /// The ranges, in the order in which they are announced.
    pub fn ranges(&self) -> &[Range]
        ensures value { result.now ≡ self.now }
        ensures good { IsSrgb self.now }
    {
        &self.ranges
    }

    /// How many labels there are. Indices are counted from 0 to below this number.
    pub fn size(&self) -> u32
        ensures value { result ≡ sizes self.now }
        ensures good { IsSrgb self.now }
    {
        self.size
    }

    /// The label of an index (RFC 8660, 2.4). None exactly where no range has it.
    pub fn label(&self, index: u32) -> Option<u32>
        ensures value { result ≡ label_of self.now index }
        ensures good { IsSrgb self.now }
    {
        let mut left = index;
        for range in &self.ranges {
            if left < range.size {
                return Some(range.first + left);
            }
            left -= range.size;
        }
        None
    }

    /// The index of a label. None exactly where the label is outside all ranges.
    pub fn index(&self, label: u32) -> Option<u32>
        ensures value { IsIndexOf self.now label result }
        ensures good { IsSrgb self.now }
    {
        let mut below: u32 = 0;
        for range in &self.ranges {
            if label >= range.first && label - range.first < range.size {
                return Some(below + (label - range.first));
            }
            below += range.size;
        }
        None
    }
}
