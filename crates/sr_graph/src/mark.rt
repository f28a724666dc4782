//! Overloaded nodes.
ghost use Rattle.std.specs.Prelude.{◌≡◌, ◌↔◌, true, Contains, IfOk, OnOk, OnErr};
ghost use Rattle.std.specs.List.Sorted.{IsStrictlyIncreasing};
ghost use Rattle.sr_graph.specs.Marks.{AreMarks, IsMarked};

use crate::graph::Graph;
use sr_model::SystemId;
use std::alloc::{AllocError, Global};

/// Whether the system id stands in the list.
fn is_listed(ids: &[SystemId], id: SystemId) -> bool
    requires { IsStrictlyIncreasing ids.now }
    ensures { (result ≡ true) ↔ Contains ids.now id }
{
    match ids.binary_search(&id) {
        Ok(_) => true,
        Err(_) => false,
    }
}

/// Tests whether each of the systems is one of the overloaded ones.
fn marks(
    alloc: Global,
    systems: &[SystemId],
    overloaded: &[SystemId],
) -> Result<Vec<bool>, AllocError>
    requires { IsStrictlyIncreasing overloaded.now }
    ensures { IfOk result (λ tests. AreMarks systems.now overloaded.now tests.items) }
{
    let mut tests = Vec::with_capacity(alloc, systems.len())?;
    for node in 0..systems.len() {
        tests.push(is_listed(overloaded, systems[node]))?;
    }
    Ok(tests)
}

impl Graph {
    /// Marks just the nodes with these system ids as overloaded, so that no walk passes through them (ISO 10589, 7.2.8.1).
    /// The ids ascend; one that no node has marks none. After an error the graph is as before.
    pub fn mark(&mut self, alloc: Global, overloaded: &[SystemId]) -> Result<(), AllocError>
        requires { IsStrictlyIncreasing overloaded.now }
        ensures marked { OnOk result (IsMarked self.old overloaded.now self.new) }
        ensures stays { OnErr result (self.new ≡ self.old) }
    {
        let tests = marks(alloc, &self.systems, overloaded)?;
        self.overloaded = tests;
        Ok(())
    }
}
