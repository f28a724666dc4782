//! The lists of the ring of four where links have other numbers. What is wanted is from the
//! definitions.
ghost use Rattle.std.specs.Prelude.{IfOk};
ghost use Rattle.sr_model.specs.Case.{IsCase};
ghost use Rattle.sr_spf.specs.Trees.{AreTrees};
ghost use Rattle.sr_encode.specs.Placed.{ArePlacedLists};

use super::changes::left_of;
use super::fixtures::{RING, net_of, trees_of};
use sr_encode::{CaseLists, Renumbering, lists};
use sr_labels::Net;
use sr_model::{Case, Kind, LinkNo};
use sr_post::affected_set;
use sr_spf::Trees;
use std::alloc::{AllocError, Global};
use std::test::Fail;

/// The number of each link of the ring once it has a chord: 1>3 stands behind 1>2, and 3>1 before
/// 3>2.
const WITH_CHORD: [Option<LinkNo>; 8] = [
    Some(LinkNo(0)),
    Some(LinkNo(2)),
    Some(LinkNo(3)),
    Some(LinkNo(4)),
    Some(LinkNo(6)),
    Some(LinkNo(7)),
    Some(LinkNo(8)),
    Some(LinkNo(9)),
];

/// A link of the ring, the number at which the links of its beginning stand once there is the chord,
/// and whether the other link there, by which all lists of the link's case go, has its place among
/// these still.
const CASES: [(u16, u16, bool); 8] = [
    (0, 0, false),
    (1, 0, true),
    (2, 3, true),
    (3, 3, true),
    (4, 5, false),
    (5, 5, false),
    (6, 8, true),
    (7, 8, true),
];

/// What is listed in the case.
fn lists_of(alloc: Global, net: &Net, trees: &Trees, case: Case) -> Result<CaseLists, AllocError>
    requires trees { AreTrees net.now.graph trees.now }
    requires case { IsCase net.now.graph case }
    ensures { IfOk result (ArePlacedLists net.now case) }
{
    let post = left_of(alloc, net, trees, case)?;
    let wanted = affected_set(net, trees, case);
    lists(alloc, net, trees, &post, case, wanted)
}

/// Whether these lists of the case are the same where the ring has the chord, and the links of the
/// source stand from this number on.
fn keeps(net: &Net, case: Case, lists: &CaseLists, after: LinkNo) -> bool
    requires case { IsCase net.now.graph case }
    requires lists { ArePlacedLists net.now case lists.now }
{
    let source = net.graph().edge(case.link).from;
    let before = LinkNo(net.graph().links_from(source).first);
    lists.keeps_numbers(&Renumbering {
        links: WITH_CHORD.as_slice(),
        before,
        after,
    })
}

#[test]
fn lists_stay_where_first_links_keep_their_places(rt: HostRuntime) -> Result<(), Fail> {
    let alloc = rt.alloc();
    let net = net_of(alloc, 4, &RING)?;
    let trees = trees_of(&rt, alloc, net.graph())?;
    for (link, after, wanted) in CASES {
        if link as u32 >= net.graph().link_count() {
            return Err(Fail::new("no such link"));
        }
        let case = Case {
            kind: Kind::Link,
            link: LinkNo(link),
        };
        let lists = lists_of(alloc, &net, &trees, case)?;
        assert_eq!(rt;
            keeps(&net, case, &lists, LinkNo(after)),
            wanted,
            "of link {link}"
        );
    }
    Ok(())
}
