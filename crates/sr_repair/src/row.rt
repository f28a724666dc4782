//! The distances that a case leaves, kept by what differs from those of the whole graph.
ghost use Rattle.std.specs.Prelude.{◌≡◌, ℕ, ◌<◌, ◌≤◌, length, IfOk};
ghost use Rattle.std.specs.Arc.{arc_value};
ghost use Rattle.sr_model.specs.declared.link.TheConstants.{MOST_NODES as MostNodes};
ghost use Rattle.sr_repair.specs.Rows.{LieInRow, AreNarrowCells, IsNarrowCell, narrowed, widened, overwritten};

use sr_lanes::differ;
use sr_model::{FAR, NodeNo};
use sr_seq::Seq;
use std::alloc::{AllocError, Global};
use std::marker::Model;
use std::sync::Arc;

/// Stands for `FAR` among costs of 32 bits: no distance is as great (this project's choice).
const NO_WALK: u32 = u32::MAX;

/// The cell in 32 bits.
fn narrowed(cell: u64) -> u32
    requires { IsNarrowCell cell }
    ensures { result ≡ narrowed cell }
{
    if cell >= FAR {
        return NO_WALK;
    }
    cell as u32
}

/// The cell that stands so in 32 bits.
fn widened(cost: u32) -> u64
    ensures { result ≡ widened cost }
{
    if cost == NO_WALK {
        return FAR;
    }
    cost as u64
}

/// A node to which a failure changes the distance, and the distance that it leaves, in 32 bits.
#[derive(Clone, Copy, Debug)]
pub(crate) struct ChangedCell {
    node: NodeNo,
    cost: u32,
}

/// The distances from the source of a case without its failed links. A failure changes few of them, so the others are those
/// of the whole graph, which the trees hold too. Contracts see the row.
#[derive(Drop)]
pub(crate) struct CaseRow {
    base: Arc<Seq<u64>>,
    changed: Vec<ChangedCell>,
}

impl Model for CaseRow {
    ghost use Rattle.std.specs.Prelude.{List, ℕ};
    ghost use Rattle.std.specs.Arc.{arc_value};
    ghost use Rattle.sr_repair.specs.Rows.{LieInRow, overwritten};

    ghost Value = { List ℕ };

    ghost view = { λ r. overwritten (arc_value r.base) r.changed.items };

    ghost invariant = { λ r. LieInRow (arc_value r.base) r.changed.items };
}

/// The nodes at which the cells differ from the base, with the cells there.
fn changed_from(alloc: Global, base: &[u64], cells: &[u64]) -> Result<Vec<ChangedCell>, AllocError>
    requires long { length cells.now ≡ length base.now }
    requires few { length base.now ≤ MostNodes }
    requires narrow { AreNarrowCells cells.now }
    ensures inside { IfOk result (λ changed. LieInRow base.now changed.items) }
    ensures written { IfOk result (λ changed. overwritten base.now changed.items ≡ cells.now) }
{
    let mut left = differ(base, cells);
    let mut changed = Vec::with_capacity(alloc, left.count())?;
    'left: while let Some(node) = left.take_first() {
        changed.push(ChangedCell {
            node: NodeNo(node as u16),
            cost: narrowed(cells[node]),
        })?;
    }
    Ok(changed)
}

/// Writes the changed cells over those of their nodes.
fn write_over(cells: &mut [u64], changed: &[ChangedCell])
    requires { LieInRow cells.old changed.now }
    ensures { cells.new ≡ overwritten cells.old changed.now }
{
    for one in changed {
        cells[one.node.0 as usize] = widened(one.cost);
    }
}

impl CaseRow {
    /// The row with these cells, where the base has those of the whole graph.
    pub(crate) fn new(
        alloc: Global,
        base: Arc<Seq<u64>>,
        cells: &[u64],
    ) -> Result<CaseRow, AllocError>
        requires long { length cells.now ≡ length (arc_value base) }
        requires few { length cells.now ≤ MostNodes }
        requires narrow { AreNarrowCells cells.now }
        ensures { IfOk result (λ row. row ≡ cells.now) }
    {
        let changed = changed_from(alloc, base.as_slice(), cells)?;
        Ok(CaseRow { base, changed })
    }

    /// The row as it was given.
    pub(crate) fn restored(&self, alloc: Global) -> Result<Vec<u64>, AllocError>
        ensures { IfOk result (λ cells. cells.items ≡ self.now) }
    {
        let mut cells = Vec::with_capacity(alloc, self.base.as_slice().len())?;
        cells.extend_from_slice(self.base.as_slice())?;
        write_over(&mut cells, &self.changed);
        Ok(cells)
    }
}
