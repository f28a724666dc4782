//! Laws of link loads.
ghost use Rattle.sr_loads.specs.Laws.{LoadsAreUnique};

/// A net has one answer to each number of choices.
pub fn loads_are_unique()
    ensures { LoadsAreUnique }
{}
