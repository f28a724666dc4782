//! The lines of an audit in groups.
ghost use Rattle.std.specs.Prelude.{◌<◌};
ghost use Rattle.sr_insight.specs.Groups.{group_count};

use super::fixtures::{expect_text, ring_net};
use sr_insight::{Group, Grouping};
use sr_labels::Net;
use sr_model::Counts;
use sr_print::put_coverage;
use std::alloc::{AllocError, Global};
use std::test::Fail;

/// Appends how much is covered of groups 1 and 0, for each way to group but kinds: of the first two thirds, of the other
/// all, since it is empty.
fn put_groups_of(net: &Net, grouping: Grouping, out: &mut Vec<u8>) -> Result<(), AllocError>
    requires { 1 < group_count grouping net.now.graph }
{
    let some = Counts {
        covered: 2,
        nopath: 0,
        nolist: 1,
        toodeep: 0,
    };
    let none = Counts {
        covered: 0,
        nopath: 0,
        nolist: 0,
        toodeep: 0,
    };
    let groups = [
        Group {
            number: 1,
            counts: some,
        },
        Group {
            number: 0,
            counts: none,
        },
    ];
    put_coverage(net, grouping, &groups, out)
}

/// Appends the same for each way to group, where the net has two nodes and two links.
fn put_all_groups(net: &Net, out: &mut Vec<u8>) -> Result<(), AllocError> {
    if net.graph().node_count() > 1 && net.graph().link_count() > 1 {
        put_groups_of(net, Grouping::Kind, out)?;
        put_groups_of(net, Grouping::Node, out)?;
        put_groups_of(net, Grouping::Link, out)?;
        put_groups_of(net, Grouping::Destination, out)?;
    }
    Ok(())
}

/// The lines of the groups of the net.
fn group_lines(alloc: Global, net: &Net) -> Result<Vec<u8>, AllocError> {
    let mut out = Vec::new(alloc);
    put_all_groups(net, &mut out)?;
    Ok(out)
}

#[test]
fn groups_are_printed(rt: HostRuntime) -> Result<(), Fail> {
    let text = "coverage kind node 6666 covered 2 nopath 0 nolist 1 toodeep 0\n\
        coverage kind link 10000 covered 0 nopath 0 nolist 0 toodeep 0\n\
        coverage node 0000.0000.0002 6666 covered 2 nopath 0 nolist 1 toodeep 0\n\
        coverage node 0000.0000.0001 10000 covered 0 nopath 0 nolist 0 toodeep 0\n\
        coverage link 0000.0000.0001>0000.0000.0004#1 6666 covered 2 nopath 0 nolist 1 toodeep 0\n\
        coverage link 0000.0000.0001>0000.0000.0002#1 10000 covered 0 nopath 0 nolist 0 toodeep 0\n\
        coverage destination 0000.0000.0002 6666 covered 2 nopath 0 nolist 1 toodeep 0\n\
        coverage destination 0000.0000.0001 10000 covered 0 nopath 0 nolist 0 toodeep 0\n";
    let net = ring_net(rt.alloc())?;
    let lines = group_lines(rt.alloc(), &net);
    drop(net);
    expect_text(&rt, &lines?, text);
    Ok(())
}
