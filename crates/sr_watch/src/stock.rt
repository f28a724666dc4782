//! The memory of a watch, taken before its first thread starts.
ghost use Rattle.std.specs.Prelude.{◌≡◌, All, IfOk, vec_len};
ghost use Rattle.std.specs.Arc.{arc_value};
ghost use Rattle.sr_watch.specs.Turns.{IsStock};

use crate::apart::{Apart, Rounds};
use crate::inspect::Round;
use crate::running::Running;
use crate::seated::{Finished, Seated};
use sr_base::Numbered;
use sr_store::Reader;
use std::alloc::{AllocError, Global};
use std::sync::Arc;

/// A gate and a version for one watcher that has no reader.
#[derive(Drop)]
pub struct Outlook<V: Drop, G: Drop> {
    pub gate: Arc<G>,
    pub version: Arc<V>,
}

/// Gates for the watchers that have a reader, gates and versions for those that have none, and room for both.
pub struct Stock<V: Numbered + Drop, W, X, G: Drop> {
    pub gates: Vec<Arc<G>>,
    pub outlooks: Vec<Outlook<V, G>>,
    pub seated: Vec<W>,
    pub apart: Vec<X>,
    pub room: Vec<Reader<V>>,
}

/// Copies of a shared value, as many as are asked for.
fn copies<T: Drop>(alloc: Global, of: &Arc<T>, count: usize) -> Result<Vec<Arc<T>>, AllocError>
    ensures { IfOk result (λ v. vec_len v ≡ count) }
{
    let mut made = Vec::new(alloc);
    for _ in 0..count {
        made.push(Arc::try_clone(of)?)?;
    }
    Ok(made)
}

/// Copies of a shared gate and of a shared version, as many as are asked for.
fn outlooks<V: Drop, G: Drop>(
    alloc: Global,
    gate: &Arc<G>,
    version: &Arc<V>,
    count: usize,
) -> Result<Vec<Outlook<V, G>>, AllocError>
    ensures len { IfOk result (λ v. vec_len v ≡ count) }
    ensures all { IfOk result
        (λ v. All (λ o. arc_value o.version ≡ arc_value version.now) v.items) }
{
    let mut made = Vec::new(alloc);
    for _ in 0..count {
        let one = one_outlook(gate, version)?;
        made.push(one)?;
    }
    Ok(made)
}

// One copy of each.
fn one_outlook<V: Drop, G: Drop>(
    gate: &Arc<G>,
    version: &Arc<V>,
) -> Result<Outlook<V, G>, AllocError>
    ensures { IfOk result (λ o. arc_value o.version ≡ arc_value version.now) }
{
    Ok(Outlook {
        gate: Arc::try_clone(gate)?,
        version: Arc::try_clone(version)?,
    })
}

/// Takes all memory that these numbers of watchers are started with: `given` with a reader, and `others` on this version.
/// The error is out of memory.
pub(crate) fn take_stock<V: Numbered + Drop, W, X, G: Drop>(
    alloc: Global,
    gate: &Arc<G>,
    version: &Arc<V>,
    given: usize,
    others: usize,
) -> Result<Stock<V, W, X, G>, AllocError>
    ensures { IfOk result (IsStock given others (arc_value version.now)) }
{
    let gates = copies(alloc, gate, given)?;
    let outlooks = outlooks(alloc, gate, version, others)?;
    let room = Vec::with_capacity(alloc, given)?;
    let seated = Vec::with_capacity(alloc, given)?;
    match Vec::with_capacity(alloc, others) {
        Ok(apart) => Ok(Stock {
            gates,
            outlooks,
            seated,
            apart,
            room,
        }),
        Err(refused) => {
            seated.destroy_empty();
            Err(refused)
        }
    }
}
