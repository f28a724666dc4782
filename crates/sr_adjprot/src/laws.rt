//! Laws of active adjacency segments, with nothing to run.
ghost use Rattle.sr_adjprot.specs.Laws.{AdjAnswersAreUnique, AdjAnswersDeliver, BackupsAreUnique, EligibleIsDetermined};

/// Facts and their net tell in one way which labels are eligible, and a link has at most one answer for its label, and one
/// for its other label.
pub fn adj_answers_are_determined()
    ensures eligible { EligibleIsDetermined }
    ensures answers { AdjAnswersAreUnique }
    ensures backups { BackupsAreUnique }
{}

/// In every net each answer for an active adjacency segment delivers its packet to the link's end, whichever equal-cost
/// links the nodes take.
pub fn adj_answers_deliver()
    ensures { AdjAnswersDeliver }
{}
