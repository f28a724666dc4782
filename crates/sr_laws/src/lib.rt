//! Laws over every graph and every net, proved over the definitions alone. Each is what a function with an empty body
//! ensures; its statement stands in `specs/`.
#![tactic(auto)]

ghost use Rattle.sr_laws.specs.Delivery.{SoundListsDeliver, SoundListsAreLoopFree, StacksAreUnique, StacksAreThere, PacketsDeliver, SteeredPacketsAvoid, SoundListsArrive, PacketsArrive, WalksByChoiceAreUnique};
ghost use Rattle.sr_laws.specs.Tables.{LookupsAreSteps, LookupsAreUnique};
ghost use Rattle.sr_laws.specs.Auditing.{AuditsAreUnique};
ghost use Rattle.sr_laws.specs.Order.{ListsAreOrdered, OrderIsStrict, LeastListsAreUnique, AnswersAreUnique};
ghost use Rattle.sr_laws.specs.Labels.{IndicesHaveLabels, LabelsHaveIndices, IndicesAreUnique, LabelsAreFree, AcceptedNetsAreNets};
ghost use Rattle.sr_laws.specs.Keys.{KeysAreOrdered, KeysAreTold, PairsAgree, PlacesAreUnique};
ghost use Rattle.sr_laws.specs.Staying.{RowsStay, NextHopsStay, NextHopsAreThere, NextHopsAreOld, PostRowsStay, AffectedStay, RepairWaysStay, AnswersStay, AnswersAreThere, AnswersCarryOver, NothingChangesInItself, NetsAreUnchanged, UnchangedTreesStay, UnchangedCasesStay};
ghost use Rattle.sr_laws.specs.Steady.{KeptCasesAreSteady, SteadyRowsStay, SteadyWaysStay, SteadyListsStay};
ghost use Rattle.sr_laws.specs.Listed.{SameListsStay, SameAffectedStay};

/// Every sound list delivers, whichever equal-cost link each node takes, and the way of the packet is loop-free.
pub fn sound_lists_deliver()
    ensures deliver { SoundListsDeliver }
    ensures distinct { SoundListsAreLoopFree }
{}

/// A list has at most one stack, and a sound list to a destination with an index has one.
pub fn stacks_are_unique()
    ensures unique { StacksAreUnique }
    ensures there { StacksAreThere }
{}

/// A packet under a node's label follows a shortest walk to that node, and one to the end of a protected link that is no
/// next hop towards it avoids the link's pair.
pub fn packets_deliver()
    ensures deliver { PacketsDeliver }
    ensures steered { SteeredPacketsAvoid }
{}

/// By each choice number the stack of a sound list, and a packet under a node's label, arrive; a choice number has at
/// most one walk.
pub fn walks_arrive()
    ensures lists { SoundListsArrive }
    ensures packets { PacketsArrive }
    ensures unique { WalksByChoiceAreUnique }
{}

/// What a label table says of a label are just the steps on it, and it says at most one thing.
pub fn lookups_are_steps()
    ensures steps { LookupsAreSteps }
    ensures unique { LookupsAreUnique }
{}

/// The order of lists is total and strict, there is at most one least list, and at most one answer of a case for a
/// destination.
pub fn answers_are_unique()
    ensures total { ListsAreOrdered }
    ensures strict { OrderIsStrict }
    ensures least { LeastListsAreUnique }
    ensures answers { AnswersAreUnique }
{}

/// The label of an index and the index of a label are inverse.
pub fn labels_and_indices()
    ensures labels { IndicesHaveLabels }
    ensures indices { LabelsHaveIndices }
    ensures unique { IndicesAreUnique }
    ensures free { LabelsAreFree }
{}

/// What an accepted net gives follows from its ranges and the rules on labels.
pub fn accepted_nets()
    ensures { AcceptedNetsAreNets }
{}

/// Trees that stay have the same distances and next hops, and each next hop is a link of both graphs.
pub fn trees_stay()
    ensures rows { RowsStay }
    ensures hops { NextHopsStay }
    ensures there { NextHopsAreThere }
    ensures old { NextHopsAreOld }
{}

/// Cases that stay have the same distances after the failure, affected destinations, and nodes on repair ways.
pub fn cases_stay()
    ensures rows { PostRowsStay }
    ensures affected { AffectedStay }
    ensures ways { RepairWaysStay }
{}

/// And they have the same answers, links matched by key.
pub fn answers_stay()
    ensures answers { AnswersStay }
    ensures there { AnswersAreThere }
    ensures carried { AnswersCarryOver }
{}

/// Steady cases have the same distances after the failure, nodes on repair ways and lists, however deep. Cases that stay are
/// steady, and others too: on their walks a tree may change elsewhere.
pub fn steady_cases_stay()
    ensures kept { KeptCasesAreSteady }
    ensures rows { SteadyRowsStay }
    ensures ways { SteadyWaysStay }
    ensures lists { SteadyListsStay }
{}

/// Where two nets differ at most in how deep lists may be, and in what no list depends on, what is listed in one is listed
/// in the other, for the same destinations.
pub fn same_lists_stay()
    ensures lists { SameListsStay }
    ensures affected { SameAffectedStay }
{}

/// Where nothing changed, each tree and each case stays; nothing changes from a graph or a net to itself.
pub fn unchanged_stays()
    ensures graphs { NothingChangesInItself }
    ensures nets { NetsAreUnchanged }
    ensures trees { UnchangedTreesStay }
    ensures cases { UnchangedCasesStay }
{}

/// A net has at most one audit.
pub fn audits_are_unique()
    ensures { AuditsAreUnique }
{}

/// The order of link keys that the program tests is their order, and its test of equal keys is equality.
pub fn keys_are_ordered()
    ensures order { KeysAreOrdered }
    ensures told { KeysAreTold }
{}

/// Two links are of one pair, by their names, exactly where the names of their pairs are the same.
pub fn pairs_agree()
    ensures { PairsAgree }
{}

/// The key of each link has exactly one place among the announced keys.
pub fn places_are_unique()
    ensures { PlacesAreUnique }
{}
