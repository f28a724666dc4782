//! Questions about distances in the last version: `dist` and `next`.
ghost use Rattle.sr_run.specs.Session.{TellsOf};
ghost use Rattle.sr_run.specs.Questions.{TellsDistance, TellsNextHops};
ghost use Rattle.sr_run.specs.Handlers.{Carries};

use crate::kept::{KeptVersion, last_version};
use crate::names::find_ends;
use crate::stop::{Stop, found};
use crate::version::{distance, next_hops};
use sr_print::{put_dist, put_next};
use sr_script::EndNames;

/// `dist A B`: appends the distance from A to B.
pub(crate) fn dist(current: &KeptVersion, ends: &EndNames, out: &mut Vec<u8>) -> Result<(), Stop>
    ensures { Carries (TellsOf (TellsDistance ends.now) current.now) out.old.items out.new.items result }
{
    let version = found!(last_version(current));
    let nodes = found!(find_ends(version, ends));
    put_dist(distance(version, nodes.from, nodes.to), out)?;
    Ok(())
}

/// `next A B`: appends the next hops of A towards B.
pub(crate) fn next(current: &KeptVersion, ends: &EndNames, out: &mut Vec<u8>) -> Result<(), Stop>
    ensures { Carries (TellsOf (TellsNextHops ends.now) current.now) out.old.items out.new.items result }
{
    let version = found!(last_version(current));
    let nodes = found!(find_ends(version, ends));
    put_next(version.net(), next_hops(version, nodes.from, nodes.to), out)?;
    Ok(())
}
