//! Laws of the definitions, which no value stands behind.
ghost use Rattle.sr_engine.specs.Lines.{LinesAreDetermined};

/// A law of the definitions, with nothing to run: a text has at most one list of lines, and at most one rest.
pub fn lines_are_determined()
    ensures { LinesAreDetermined }
{}
