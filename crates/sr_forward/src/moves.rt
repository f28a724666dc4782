//! One step of a packet.
ghost use Rattle.std.specs.Prelude.{◌≡◌, ℕ, ◌<◌, List, IfSome, IfNone, drop, reverse, vec_len};
ghost use Rattle.sr_model.specs.Graph.{node_count};
ghost use Rattle.sr_model.specs.Forward.{Step, StepBy};
ghost use Rattle.sr_model.specs.Table.{leaves};
ghost use Rattle.sr_fib.specs.Tables.{IsFib};
ghost use Rattle.sr_forward.specs.Steps.{node_after, IsAction, HasNoAction};

use crate::hops::chosen;
use sr_fib::{Fib, FibEntry};
use sr_graph::LinkSet;
use sr_labels::Net;
use sr_model::{LinkNo, Move, NodeNo, Out};

/// What the node does with a packet under this label: its move, and what becomes of the label.
/// None exactly where no step is lawful.
fn action(
    net: &Net,
    fib: &Fib<'_>,
    closed: &LinkSet,
    node: NodeNo,
    label: u32,
    choice: u32,
) -> Option<(Move, Out)>
    requires fib { IsFib net.now fib.now }
    requires node { node.0 < node_count net.now.graph }
    ensures some { IfSome result (IsAction net.now closed.now choice node.0 label) }
    ensures none { IfNone result (HasNoAction net.now closed.now node.0 label) }
{
    // Nothing is read from the graph: that it is there says that the net breaks no rule.
    let _graph = net.graph();
    match fib.look(node, label) {
        None => None,
        Some(FibEntry::Own) => Some((Move::Popped, Out::Pop)),
        Some(FibEntry::Null) => Some((Move::Popped, Out::Pop)),
        Some(FibEntry::Adj(link)) => {
            if closed.has(link) {
                None
            } else {
                Some((Move::Crossed(link), Out::Pop))
            }
        }
        Some(FibEntry::Node(_, hops)) => match chosen(&hops, closed, choice) {
            None => None,
            Some((link, out)) => Some((Move::Crossed(link), out)),
        },
    }
}

/// Leaves of the label on top what is said: nothing, explicit null, or another label.
fn leave(stack: &mut Vec<u32>, out: Out)
    requires { 0 < vec_len stack.old }
    ensures { reverse stack.new.items ≡ leaves out (drop 1 (reverse stack.old.items)) }
{
    let top = stack.len() - 1;
    match out {
        Out::Pop => {
            let _label = stack.pop();
        }
        Out::Null => stack[top] = 0,
        Out::Swap(label) => stack[top] = label,
    }
}

/// One step of a packet at the node (RFC 8660, 2.10 and 2.11). The top of its stack is the last
/// label.
///
/// Of the links that it may cross under the label of another node, the one of number `choice`
/// modulo their count is crossed, counted from 0 in order of links (this project's rule). A closed
/// link isn't crossed. None exactly where no step is lawful; the stack then stays.
pub fn step(
    net: &Net,
    fib: &Fib<'_>,
    closed: &LinkSet,
    node: NodeNo,
    stack: &mut Vec<u32>,
    choice: u32,
) -> Option<Move>
    requires fib { IsFib net.now fib.now }
    requires node { node.0 < node_count net.now.graph }
    ensures step { IfSome result (λ m. StepBy net.now closed.now choice node.0
        (reverse stack.old.items) m (node_after net.now node.0 m) (reverse stack.new.items)) }
    ensures none { IfNone result ((m : Move) (v : ℕ) (after : List ℕ) →
        Step net.now closed.now node.0 (reverse stack.old.items) m v after → ⊥) }
    ensures stays { IfNone result (stack.new.items ≡ stack.old.items) }
{
    let count = stack.len();
    if count == 0 {
        return None;
    }
    match action(net, fib, closed, node, stack[count - 1], choice) {
        None => None,
        Some((moved, out)) => {
            leave(stack, out);
            Some(moved)
        }
    }
}
