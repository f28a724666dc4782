//! Sets of nodes.
ghost use Rattle.std.specs.Prelude.{◌≡◌};
ghost use Rattle.sr_model.specs.Graph.{has};

use sr_model::NodeNo;
use std::marker::Model;

/// A set of nodes of a graph. Contracts see it as a list of tests, one for each node number; past the list's end no node
/// is in the set.
#[derive(Debug, Drop)]
pub struct NodeSet {
    tests: Vec<bool>,
}

impl Model for NodeSet {
    ghost use Rattle.std.specs.Prelude.{List, Bool};

    ghost Value = { List Bool };

    ghost view = { λ a. a.tests.items };
}

impl NodeSet {
    /// The set of the nodes whose test is true.
    pub(crate) fn of(tests: Vec<bool>) -> NodeSet
        ensures { result ≡ tests.items }
    {
        NodeSet { tests }
    }

    /// Whether the node is in the set.
    pub fn has(&self, node: NodeNo) -> bool
        ensures { result ≡ has self.now node.0 }
    {
        let place = node.0 as usize;
        place < self.tests.len() && self.tests[place]
    }
}
