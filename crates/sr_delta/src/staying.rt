//! The nodes that stay.
ghost use Rattle.std.specs.Prelude.{◌≡◌, ◌≤◌, true, length};
ghost use Rattle.sr_model.specs.Label.{Net};
ghost use Rattle.sr_lanes.specs.declared.limits.TheConstants.{NODES_AT_MOST as Most};
ghost use Rattle.sr_delta.specs.Changes.{AreChanges};
ghost use Rattle.sr_delta.specs.KeptTrees.{AreKeptTrees};
ghost use Rattle.sr_delta.specs.Stayers.{AreStaying};

use crate::differences::Changes;
use sr_lanes::NodeBits;

/// The nodes whose trees stay from an old net to a new one, and those of them that have the same labels in both. They are
/// made once, and asked for each case.
#[derive(Clone, Copy, Debug)]
pub struct Staying {
    pub(crate) trees: NodeBits,
    pub(crate) nodes: NodeBits,
}

impl Staying {
    /// The nodes that stay. `kept` are the tests of the old net's trees that do.
    pub fn new(changes: &Changes, kept: &[bool]) -> Staying
        requires { length kept.now ≤ Most }
        ensures { (n m : Net) → AreChanges n m changes.now → changes.now.same ≡ true → AreKeptTrees n m kept.now
            → AreStaying n m result }
    {
        let trees = NodeBits::from_tests(kept);
        Staying {
            trees,
            nodes: trees.and(changes.labels_alike()),
        }
    }
}
