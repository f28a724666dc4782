//! Rows of distances without those of lost nodes, from which a search goes on.
ghost use Rattle.std.specs.Prelude.{◌≡◌, ℕ, ◌<◌, true, length, IfOk};
ghost use Rattle.sr_lanes.specs.Bits.{is_in};
ghost use Rattle.sr_spf.specs.Lost.{AreListedNodes, AreCellsWithout};

use sr_lanes::NodeBits;
use sr_model::{FAR, NodeNo};
use std::alloc::{AllocError, Global};

/// The nodes of the set, ascending.
pub fn all_listed(alloc: Global, set: NodeBits) -> Result<Vec<NodeNo>, AllocError>
    ensures { IfOk result (λ nodes. AreListedNodes set nodes.items) }
{
    let mut nodes = Vec::with_capacity(alloc, set.count())?;
    let mut left = set;
    'left: while let Some(node) = left.take_first() {
        nodes.push(NodeNo(node as u16))?;
    }
    Ok(nodes)
}

/// The cells of the row, but `FAR` at the lost nodes.
pub fn cells_without(alloc: Global, row: &[u64], lost: NodeBits) -> Result<Vec<u64>, AllocError>
    requires { (v : ℕ) → is_in lost v ≡ true → v < length row.now }
    ensures { IfOk result (λ cells. AreCellsWithout row.now lost cells.items) }
{
    let mut cells = Vec::with_capacity(alloc, row.len())?;
    cells.extend_from_slice(row)?;
    let mut left = lost;
    'left: while let Some(node) = left.take_first() {
        cells[node] = FAR;
    }
    Ok(cells)
}
