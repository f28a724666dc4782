//! The choice among next hops, by walks of packets.
ghost use Rattle.sr_fib.specs.Tables.{IsFib};

use super::fixtures::{Line, net_of, trees_of};
use sr_fib::{Fib, Sids};
use sr_forward::walk;
use sr_labels::Net;
use sr_model::{LinkNo, NodeNo};
use std::alloc::{AllocError, Global};
use std::test::Fail;

/// From node 1 by nodes 2, 3 and 4 to node 5; node 6 has no link. In order of key the links are
/// 1>2, 1>3, 1>4, 2>5, 3>5 and 4>5.
const THREE_WAYS: [Line; 6] = [
    (1, 2, 1),
    (1, 3, 1),
    (1, 4, 1),
    (2, 5, 1),
    (3, 5, 1),
    (4, 5, 1),
];

/// A packet at node 1: its label, its choice number, the node where it ends, and the links that it
/// crosses.
struct Told {
    label: u32,
    choice: u32,
    end: NodeNo,
    links: &'static [LinkNo],
}

/// To node 5 the way is that of the choice number, modulo three; to node 6 there is none.
const TOLD: [Told; 6] = [
    Told {
        label: 16_005,
        choice: 0,
        end: NodeNo(4),
        links: &[LinkNo(0), LinkNo(3)],
    },
    Told {
        label: 16_005,
        choice: 1,
        end: NodeNo(4),
        links: &[LinkNo(1), LinkNo(4)],
    },
    Told {
        label: 16_005,
        choice: 2,
        end: NodeNo(4),
        links: &[LinkNo(2), LinkNo(5)],
    },
    Told {
        label: 16_005,
        choice: 3,
        end: NodeNo(4),
        links: &[LinkNo(0), LinkNo(3)],
    },
    Told {
        label: 16_005,
        choice: u32::MAX,
        end: NodeNo(4),
        links: &[LinkNo(0), LinkNo(3)],
    },
    Told {
        label: 16_006,
        choice: 7,
        end: NodeNo(0),
        links: &[],
    },
];

/// Whether the packet goes as it is told.
fn goes(alloc: Global, net: &Net, fib: &Fib<'_>, told: &Told) -> Result<bool, AllocError>
    requires { IsFib net.now fib.now }
{
    if net.graph().node_count() == 0 {
        return Ok(false);
    }
    let closed = net.graph().nothing(alloc)?;
    let stack = [told.label].to_vec(alloc)?;
    let walked = walk(alloc, net, fib, &closed, NodeNo(0), stack, told.choice)?;
    Ok(walked.end == told.end && walked.links.as_slice() == told.links)
}

#[test]
fn the_choice_is_taken_modulo_the_hops(rt: HostRuntime) -> Result<(), Fail> {
    let alloc = rt.alloc();
    let net = net_of(alloc, 6, &THREE_WAYS)?;
    let trees = trees_of(&rt, alloc, net.graph())?;
    let sids = Sids::build(alloc, &net)?;
    let fib = Fib::new(&net, &trees, &sids);
    for told in &TOLD {
        assert!(rt; goes(alloc, &net, &fib, told)?, "of choice {}", told.choice);
    }
    Ok(())
}
