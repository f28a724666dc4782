//! Whether nodes on shortest walks after a failure are kept.
ghost use Rattle.std.specs.Prelude.{◌↔◌, IsTrue};
ghost use Rattle.sr_model.specs.Label.{Net};
ghost use Rattle.sr_delta.specs.Stayers.{AreStaying};
ghost use Rattle.sr_delta.specs.Cases.{AreWalksKept};

use crate::old_case::OldCase;
use crate::staying::Staying;

/// Whether each node on the shortest walks of the old case is kept.
pub(crate) fn are_walks_kept(staying: &Staying, old: &OldCase<'_>) -> bool
    ensures { (m : Net) → AreStaying old.now.net m staying.now
        → IsTrue result ↔ AreWalksKept old.now.net m old.now.case }
{
    old.walks().and_not(staying.nodes).is_empty()
}
