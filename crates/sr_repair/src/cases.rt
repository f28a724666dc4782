//! Cases, with their places and slots.
ghost use Rattle.std.specs.Prelude.{◌≡◌, ◌*◌, ◌<◌, ◌≤◌};
ghost use Rattle.sr_model.specs.Case.{IsCase};
ghost use Rattle.sr_repair.specs.Answers.{place_of, slot_of, case_count, link_case};

use sr_graph::Graph;
use sr_model::{Case, Kind, LinkNo};

/// The slot in which the answers of the case are kept. The cases of a link stand together: with all cases of one kind
/// after another, some threads would have the easy ones alone.
pub(crate) fn slot_of(graph: &Graph, case: Case) -> u32
    requires { IsCase graph.now case }
    ensures slot { result ≡ slot_of case }
    ensures within { result < case_count graph.now }
{
    let _links = graph.link_count();
    let rank = match case.kind {
        Kind::Link => 0,
        Kind::Node => 1,
        Kind::Risk => 2,
    };
    3 * case.link.0 as u32 + rank
}

/// How many cases there are: one of each kind for each link.
pub fn case_count(graph: &Graph) -> u32
    ensures count { result ≡ case_count graph.now }
    ensures few { result ≤ 6144 }
{
    3 * graph.link_count()
}

/// The case at this place: by kind (link, node, risk), then by protected link.
pub fn case_at(graph: &Graph, place: u32) -> Case
    requires { place < case_count graph.now }
    ensures case { IsCase graph.now result }
    ensures place { place_of graph.now result ≡ place }
{
    let links = graph.link_count();
    if place < links {
        return Case {
            kind: Kind::Link,
            link: LinkNo(place as u16),
        };
    }
    if place < 2 * links {
        return Case {
            kind: Kind::Node,
            link: LinkNo((place - links) as u16),
        };
    }
    Case {
        kind: Kind::Risk,
        link: LinkNo((place - 2 * links) as u16),
    }
}

/// The link case that protects the same link.
pub(crate) fn link_case(case: Case) -> Case
    ensures { result ≡ link_case case }
{
    Case {
        kind: Kind::Link,
        link: case.link,
    }
}
