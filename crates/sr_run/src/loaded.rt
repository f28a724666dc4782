//! How often packets cross the links of the last version: `load`.
ghost use Rattle.std.specs.Prelude.{◌<◌, ◌≤◌, IfOk};
ghost use Rattle.sr_script.specs.declared.command.TheConstants.{MOST_EACH, MOST_WORKERS};
ghost use Rattle.sr_loads.specs.Loads.{IsLoads};
ghost use Rattle.sr_run.specs.Session.{TellsOf};
ghost use Rattle.sr_run.specs.Questions.{TellsLoads};
ghost use Rattle.sr_run.specs.Handlers.{Carries};

use crate::kept::{KeptVersion, last_version};
use crate::stop::{Stop, found};
use sr_base::Runtime;
use sr_loads::{Loads, loads};
use sr_print::put_loads;
use sr_repair::Version;
use std::alloc::{AllocError, Global};

/// How often each link of the version is crossed by that many packets from each node to each other.
fn loads_of(
    rt: &impl Runtime,
    alloc: Global,
    version: &Version,
    workers: u32,
    each: u32,
) -> Result<Loads, AllocError>
    requires workers { (0 < workers) × (workers ≤ MOST_WORKERS) }
    requires each { (0 < each) × (each ≤ MOST_EACH) }
    ensures { IfOk result (IsLoads version.now.net each) }
{
    loads(rt, alloc, version.net(), version.trees(), workers, each)
}

/// `load W K`: appends how often each link is crossed by K packets from each node to each other. W forwarders forward
/// them on threads, and the answer is the same for each number of them.
pub(crate) fn load(
    rt: &impl Runtime,
    alloc: Global,
    current: &KeptVersion,
    workers: u32,
    each: u32,
    out: &mut Vec<u8>,
) -> Result<(), Stop>
    requires workers { (0 < workers) × (workers ≤ MOST_WORKERS) }
    requires each { (0 < each) × (each ≤ MOST_EACH) }
    ensures { Carries (TellsOf (TellsLoads each) current.now) out.old.items out.new.items result }
{
    let version = found!(last_version(current));
    let made = loads_of(rt, alloc, version, workers, each)?;
    put_loads(version.net(), &made, out)?;
    Ok(())
}
