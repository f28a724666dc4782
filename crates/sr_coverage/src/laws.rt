//! Laws of groups and of stacks, with nothing to run.
ghost use Rattle.sr_insight.specs.Groups.{GroupsAddUp, GroupsAreDetermined};
ghost use Rattle.sr_insight.specs.Stacks.{StackCountsAddUp, StackCountsAreDetermined};

/// The groups of an audit are a partition of it: their counts add up to those of the audit.
pub fn groups_add_up()
    ensures { GroupsAddUp }
{}

/// The repairs that are counted by the labels that they push are those that the audit covers.
pub fn stack_counts_add_up()
    ensures { StackCountsAddUp }
{}

/// The items of an audit have one list of groups, and one list of stack counts.
pub fn groups_are_determined()
    ensures groups { GroupsAreDetermined }
    ensures stacks { StackCountsAreDetermined }
{}
