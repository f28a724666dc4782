//! The law of repairs, proved over the definitions alone: what a function with an empty body ensures.
ghost use Rattle.sr_repair.specs.Delivery.{RepairsDeliver};

/// Every repair of every case has a stack, and delivers under it, whichever equal-cost link each node takes, and no node is
/// met twice.
pub fn repairs_deliver()
    ensures { RepairsDeliver }
{}
