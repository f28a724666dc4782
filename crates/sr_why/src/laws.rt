//! The law of reasons.
ghost use Rattle.sr_why.specs.Laws.{ReasonsAreDetermined};

/// A law with nothing to run: a case has one reason for a destination.
pub fn reasons_are_determined()
    ensures { ReasonsAreDetermined }
{}
