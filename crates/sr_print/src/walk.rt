//! The line of a walk.
ghost use Rattle.std.specs.Prelude.{◌≡◌, ◌<◌, ◌^◌, ◌++◌, IfSome, OnOk, OnErr};
ghost use Rattle.std.specs.Option.{option_copied};
ghost use Rattle.sr_model.specs.Graph.{node_count};
ghost use Rattle.sr_model.specs.Walk.{cost};
ghost use Rattle.sr_fib.specs.Entries.{numbers};
ghost use Rattle.sr_print.specs.Forwarding.{nodes_text, walk_line};
ghost use Rattle.sr_print.specs.Links.{AreLinks};
ghost use Rattle.sr_print.specs.Printed.{BeginsWith};

use crate::line::end;
use crate::number::{put_node, put_wide};
use sr_graph::Graph;
use sr_labels::Net;
use sr_model::{LinkNo, NodeNo};
use std::alloc::AllocError;

/// The sum of the links' metrics: each is below 2^24, and there are fewer than 2^64 of them.
fn cost(graph: &Graph, links: &[LinkNo]) -> u128
    requires { AreLinks graph.now links.now }
    ensures { result ≡ cost graph.now (numbers links.now) }
{
    let mut sum = 0;
    for link in links {
        sum += u128::from(graph.link(*link).metric);
    }
    sum
}

/// Appends the node at which a walk starts, and the end of each of its links.
/// After an error a part of them may stand there; what stood before stays.
fn put_nodes(
    graph: &Graph,
    start: NodeNo,
    links: &[LinkNo],
    out: &mut Vec<u8>,
) -> Result<(), AllocError>
    requires start { start.0 < node_count graph.now }
    requires links { AreLinks graph.now links.now }
    ensures line { OnOk result (out.new.items ≡ out.old.items ++ nodes_text graph.now start.0 links.now) }
    ensures err { OnErr result (BeginsWith out.old.items out.new.items) }
{
    put_node(graph.system(start), out)?;
    for link in links {
        put_node(graph.system(graph.link(*link).to), out)?;
    }
    Ok(())
}

/// Appends `walk NODE NODE .. cost C`: the node at which the walk starts, the end of each of its
/// links, and the sum of their metrics; `walk none` where there is no walk.
/// After an error a part of the line may stand there; what stood before stays.
pub fn put_walk(
    net: &Net,
    start: NodeNo,
    links: Option<&[LinkNo]>,
    out: &mut Vec<u8>,
) -> Result<(), AllocError>
    requires start { start.0 < node_count net.now.graph }
    requires links { IfSome (option_copied links) (AreLinks net.now.graph) }
    ensures line { OnOk result
        (out.new.items ≡ out.old.items ++ walk_line net.now start.0 (option_copied links.entry)) }
    ensures err { OnErr result (BeginsWith out.old.items out.new.items) }
{
    match links {
        None => out.extend_from_slice(b"walk none\n"),
        Some(walk) => {
            let graph = net.graph();
            out.extend_from_slice(b"walk")?;
            put_nodes(graph, start, walk, out)?;
            out.extend_from_slice(b" cost ")?;
            put_wide(cost(graph, walk), out)?;
            end(out)
        }
    }
}
