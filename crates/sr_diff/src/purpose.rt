//! What a repair is for, matched by names.
ghost use Rattle.std.specs.Prelude.{◌<◌, IfSome, IfNone};
ghost use Rattle.sr_model.specs.Case.{IsCase};
ghost use Rattle.sr_model.specs.Graph.{node_count};
ghost use Rattle.sr_diff.specs.Named.{name_at};
ghost use Rattle.sr_diff.specs.Matched.{IsPurposeNamed, IsNoName};

use sr_graph::Graph;
use sr_model::{Case, NodeNo};

/// What a repair is for: a case, and a destination.
#[derive(Clone, Copy, Debug, PartialEq, Eq)]
pub(crate) struct Purpose {
    pub case: Case,
    pub dest: NodeNo,
}

/// The case and the destination of the other graph under the name of these: the protected link has the same key there,
/// and the destination the same system id. None exactly where the other graph has no such link or node.
pub(crate) fn purpose_there(
    graph: &Graph,
    case: Case,
    dest: NodeNo,
    other: &Graph,
) -> Option<Purpose>
    requires case { IsCase graph.now case }
    requires dest { dest.0 < node_count graph.now }
    ensures found { IfSome result (IsPurposeNamed other.now (name_at graph.now case dest.0)) }
    ensures none { IfNone result (IsNoName other.now (name_at graph.now case dest.0)) }
{
    match other.find(&graph.link(case.link).key) {
        None => None,
        Some(link) => match other.node(graph.system(dest)) {
            None => None,
            Some(node) => Some(Purpose {
                case: Case {
                    kind: case.kind,
                    link,
                },
                dest: node,
            }),
        },
    }
}
