//! The lines of the spaces.
ghost use Rattle.std.specs.Prelude.{◌≡◌, ◌<◌, ◌++◌, cond, [], OnOk, OnErr};
ghost use Rattle.sr_model.specs.Graph.{node_count, system_at, has};
ghost use Rattle.sr_print.specs.Printed.{BeginsWith, node_word};
ghost use Rattle.sr_print.specs.Spaces.{members, node_words, set_line, spaces_lines};

use crate::line::end;
use crate::number::put_node;
use sr_graph::Graph;
use sr_labels::Net;
use sr_model::NodeNo;
use sr_spaces::NodeSet;
use std::alloc::AllocError;

/// Appends a node's system id as one more word, where the node is in the set.
/// After an error a part of it may stand there; what stood before stays.
fn put_member(
    graph: &Graph,
    set: &NodeSet,
    node: NodeNo,
    out: &mut Vec<u8>,
) -> Result<(), AllocError>
    requires { node.0 < node_count graph.now }
    ensures line { OnOk result (out.new.items
        ≡ out.old.items ++ cond (has set.now node.0) (node_word (system_at graph.now node.0)) []) }
    ensures err { OnErr result (BeginsWith out.old.items out.new.items) }
{
    if set.has(node) {
        put_node(graph.system(node), out)
    } else {
        Ok(())
    }
}

/// Appends the system ids of the set's nodes, ascending, each as one more word.
/// After an error a part of them may stand there; what stood before stays.
fn put_members(graph: &Graph, set: &NodeSet, out: &mut Vec<u8>) -> Result<(), AllocError>
    ensures line { OnOk result (out.new.items ≡ out.old.items ++ node_words graph.now (members graph.now set.now)) }
    ensures err { OnErr result (BeginsWith out.old.items out.new.items) }
{
    for node in 0..graph.node_count() as u16 {
        put_member(graph, set, NodeNo(node), out)?;
    }
    Ok(())
}

/// Appends the line of a set: its name, and its nodes.
/// After an error a part of the line may stand there; what stood before stays.
fn put_set(name: &[u8], graph: &Graph, set: &NodeSet, out: &mut Vec<u8>) -> Result<(), AllocError>
    ensures line { OnOk result (out.new.items ≡ out.old.items ++ set_line name.now graph.now set.now) }
    ensures err { OnErr result (BeginsWith out.old.items out.new.items) }
{
    out.extend_from_slice(name)?;
    put_members(graph, set, out)?;
    end(out)
}

/// Appends three lines, `p NODE NODE ..`, `extended NODE NODE ..` and `q NODE NODE ..`: the nodes of
/// P, extended P and Q by system id, ascending.
/// After an error a part of the lines may stand there; what stood before stays.
pub fn put_spaces(
    net: &Net,
    p: &NodeSet,
    extended: &NodeSet,
    q: &NodeSet,
    out: &mut Vec<u8>,
) -> Result<(), AllocError>
    ensures line { OnOk result (out.new.items ≡ out.old.items ++ spaces_lines net.now.graph p.now extended.now q.now) }
    ensures err { OnErr result (BeginsWith out.old.items out.new.items) }
{
    let graph = net.graph();
    put_set(b"p", graph, p, out)?;
    put_set(b"extended", graph, extended, out)?;
    put_set(b"q", graph, q, out)
}
