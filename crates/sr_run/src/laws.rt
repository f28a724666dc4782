//! Laws of sessions and of numbers, proved over the definitions alone. Each is what a function with an empty body ensures; its statement
//! stands in `specs/`.
ghost use Rattle.sr_run.specs.Laws.{AcceptedNetsDeliver, AdjSidFlags, LinesHaveOneAnswer, LinkStateNumbers, PrefixSidFlags, ProjectLimits, ScriptsHaveOneOutput};

/// From a state whose nets give what accepted ones do, a line has at most one next state, and at most one answer unless it
/// joins a watch during which a commit was accepted. A script has at most one last state, and at most one output unless a
/// commit was accepted while a watch ran.
pub fn answers_are_determined()
    ensures lines { LinesHaveOneAnswer }
    ensures scripts { ScriptsHaveOneOutput }
{}

/// Whatever lines were answered, in the net of each accepted commit every repair of every case has a stack, and delivers
/// under it.
pub fn accepted_nets_deliver()
    ensures { AcceptedNetsDeliver }
{}

/// The constants that definitions cite are the numbers of the RFCs and of this project's rules. They are written out here,
/// so that a wrong one is refused, though code and definitions follow it.
pub fn cited_numbers_are_right()
    ensures prefix_sid { PrefixSidFlags }
    ensures adj_sid { AdjSidFlags }
    ensures link_state { LinkStateNumbers }
    ensures limits { ProjectLimits }
{}
