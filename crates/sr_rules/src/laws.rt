//! Laws of the broken rules, which no value stands behind.
ghost use Rattle.sr_rules.specs.Laws.{BrokenRulesAreDetermined, TheFirstIsRefused, NothingToldIsKept};

/// A law with nothing to run: facts have one list of broken rules.
pub fn broken_rules_are_determined()
    ensures { BrokenRulesAreDetermined }
{}

/// A law with nothing to run: the first of the broken rules is that by which facts are refused a net, and where there
/// is none all nine are kept.
pub fn the_first_is_refused()
    ensures first { TheFirstIsRefused }
    ensures nothing { NothingToldIsKept }
{}
