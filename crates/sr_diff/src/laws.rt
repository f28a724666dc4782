//! Laws of differences, with nothing to run.
ghost use Rattle.sr_diff.specs.Laws.{DiffsAreDetermined, DiffsAddUp, ANetIsItsOwn};

/// Two nets have one diff.
pub fn diffs_are_determined()
    ensures { DiffsAreDetermined }
{}

/// What the old net covers is lost, changed or the same, and what the new net covers is gained, changed or the same.
pub fn diffs_add_up()
    ensures { DiffsAddUp }
{}

/// A net differs in nothing from itself.
pub fn a_net_is_its_own()
    ensures { ANetIsItsOwn }
{}
