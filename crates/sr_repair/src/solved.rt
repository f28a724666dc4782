//! What is computed for a case that affects some destination.
ghost use Rattle.std.specs.Prelude.{◌≡◌, true, IfOk, IsTrue};
ghost use Rattle.std.specs.Arc.{arc_value};
ghost use Rattle.sr_encode.specs.Placed.{listed_from, HaveLinkNumbers, AreNotBefore};
ghost use Rattle.sr_encode.specs.Renumbered.{moved_entries};
ghost use Rattle.sr_spf.specs.Renewed.{AreInPlace};
ghost use Rattle.sr_repair.specs.Solutions.{IsMovedSolution};

use crate::row::CaseRow;
use sr_encode::{CaseLists, Renumbering};
use std::alloc::{AllocError, Global};
use std::marker::Model;
use std::sync::Arc;

/// What is computed for a case: the distances from the source without the failed links, by which the next version tells
/// whether the case stays, and what is listed.
#[derive(Drop)]
pub(crate) struct Solved {
    cells: CaseRow,
    lists: CaseLists,
}

impl Model for Solved {
    ghost use Rattle.sr_repair.specs.Solutions.{Solution};

    ghost Value = { Solution };

    ghost view = { λ s. record { cells = s.cells; lists = s.lists } };
}

impl Solved {
    /// These distances and lists.
    pub(crate) fn new(
        alloc: Global,
        cells: CaseRow,
        lists: CaseLists,
    ) -> Result<Arc<Solved>, AllocError>
        ensures { IfOk result (λ solved. arc_value solved ≡ record { cells = cells; lists = lists }) }
    {
        Ok(Arc::new(alloc, Solved { cells, lists })?)
    }

    /// The distances from the source without the failed links, by number; `FAR` where there is no walk.
    pub(crate) fn cells(&self, alloc: Global) -> Result<Vec<u64>, AllocError>
        ensures { IfOk result (λ cells. cells.items ≡ self.now.cells) }
    {
        self.cells.restored(alloc)
    }

    /// What is listed.
    pub(crate) fn lists(&self) -> &CaseLists
        ensures { result.now ≡ self.now.lists }
    {
        &self.lists
    }

    /// Whether the same is kept so where links have these numbers. Where each link is `in_place`, its number is the old one,
    /// so that nobody need look whether the lists keep theirs.
    pub(crate) fn keeps_numbers(&self, numbers: &Renumbering<'_>, in_place: bool) -> bool
        requires place { in_place ≡ true → AreInPlace numbers.now.links.now }
        requires numbers { HaveLinkNumbers (listed_from numbers.now.before.0 self.now.lists) }
        ensures { IsTrue result → IsMovedSolution numbers.now self.now self.now }
    {
        if in_place && numbers.before.0 == numbers.after.0 {
            return true;
        }
        self.lists.keeps_numbers(numbers)
    }

    /// The same where links have these numbers, and the distances are kept in this row.
    pub(crate) fn renumbered(
        &self,
        alloc: Global,
        numbers: &Renumbering<'_>,
        cells: CaseRow,
    ) -> Result<Arc<Solved>, AllocError>
        requires cells { cells ≡ self.now.cells }
        requires numbers { HaveLinkNumbers (listed_from numbers.now.before.0 self.now.lists) }
        requires begin { AreNotBefore numbers.now.after.0
            (moved_entries numbers.now.links.now (listed_from numbers.now.before.0 self.now.lists)) }
        ensures { IfOk result (λ solved. IsMovedSolution numbers.now self.now (arc_value solved)) }
    {
        let lists = self.lists.renumbered(alloc, numbers)?;
        Solved::new(alloc, cells, lists)
    }
}
