//! Reasons in domains of two routers, of which the second sends a link back to the first.

use super::fixtures::{accept, changed, sent};
use sr_account::{Aside, Reason, asides_of};
use sr_lsdb::Editor;
use std::alloc::{AllocError, Global};
use std::process::Abort;
use std::test::Fail;

/// The reason of each.
fn reasons(alloc: Global, asides: &[Aside]) -> Result<Vec<Reason>, AllocError> {
    let mut reasons = Vec::new(alloc);
    for aside in asides {
        reasons.push(aside.reason)?;
    }
    Ok(reasons)
}

/// What is told of a domain whose facts an editor accepts, in which router 1 sends these octets.
fn told_in(alloc: Global, editor: &mut Editor, first: &[u8]) -> Result<Vec<Aside>, Fail> {
    let second = changed(alloc, &[(17, 2), (52, 1)])?;
    accept(alloc, editor, first, &second)?;
    Ok(asides_of(alloc, editor.accepted())?)
}

/// What is told of a domain in which router 1 sends these octets.
fn told(alloc: Global, first: &[u8]) -> Result<Vec<Aside>, Fail> {
    let mut editor = Editor::new(alloc);
    let asides = told_in(alloc, &mut editor, first);
    drop(editor);
    asides
}

/// These reasons are told of a domain in which router 1 sends these octets.
fn check_reasons(
    rt: &impl Abort,
    alloc: Global,
    first: &[u8],
    wanted: &[Reason],
    name: &str,
) -> Result<(), Fail> {
    let asides = told(alloc, first)?;
    let reasons = reasons(alloc, &asides)?;
    assert_eq!(rt; reasons.as_slice(), wanted, "{name}");
    Ok(())
}

/// Changed octets of what router 1 sends, and the reasons that are then told.
struct Change {
    name: &'static str,
    changes: &'static [(usize, u8)],
    reasons: &'static [Reason],
}

const CHANGES: [Change; 7] = [
    Change {
        name: "routers that announce each other",
        changes: &[],
        reasons: &[],
    },
    Change {
        name: "the LSP of a pseudonode",
        changes: &[(18, 1)],
        reasons: &[Reason::Lan, Reason::Lan, Reason::NeighbourAbsent],
    },
    Change {
        name: "another fragment alone",
        changes: &[(19, 1)],
        reasons: &[Reason::Absent, Reason::Absent, Reason::NeighbourAbsent],
    },
    Change {
        name: "a link to a pseudonode",
        changes: &[(53, 1)],
        reasons: &[Reason::Pseudonode, Reason::OneWay],
    },
    Change {
        name: "a link to the router itself",
        changes: &[(52, 1)],
        reasons: &[Reason::Itself, Reason::OneWay],
    },
    Change {
        name: "a link to an absent router",
        changes: &[(52, 3)],
        reasons: &[Reason::NeighbourAbsent, Reason::OneWay],
    },
    Change {
        name: "a link of the maximum metric",
        changes: &[(54, 255), (55, 255), (56, 255)],
        reasons: &[Reason::MaximumMetric],
    },
];

#[test]
fn parts_are_told_with_the_first_reason(rt: HostRuntime) -> Result<(), Fail> {
    for case in &CHANGES {
        let first = changed(rt.alloc(), case.changes)?;
        check_reasons(&rt, rt.alloc(), &first, case.reasons, case.name)?;
    }
    Ok(())
}

/// A link with six adjacency SIDs: of the labels 100, 101 and 100; of the label 99 with the flag B;
/// of the label 98 with the flag F; and of the index 7.
const ADJ_SIDS: [u8; 56] = [
    0x16, 0x36, 0x00, 0x00, 0x00, 0x00, 0x00, 0x02, 0x00, 0x00, 0x00, 0x0a, 0x2b, // TLV 22
    0x1f, 0x05, 0x30, 0x00, 0x00, 0x00, 0x64, // its sub-TLVs 31
    0x1f, 0x05, 0x30, 0x00, 0x00, 0x00, 0x65, //
    0x1f, 0x05, 0x30, 0x00, 0x00, 0x00, 0x64, //
    0x1f, 0x05, 0x70, 0x00, 0x00, 0x00, 0x63, //
    0x1f, 0x05, 0xb0, 0x00, 0x00, 0x00, 0x62, //
    0x1f, 0x06, 0x00, 0x00, 0x00, 0x00, 0x00, 0x07, //
];

/// The address 10.0.0.1 with six Prefix-SIDs: of the indices 5, 6 and 5; of the index 4 for
/// algorithm 1; of the index 3 without the flag N; and of the label 99.
const PREFIX_SIDS: [u8; 59] = [
    0x87, 0x39, 0x00, 0x00, 0x00, 0x0a, 0x60, 0x0a, 0x00, 0x00, 0x01, 0x2f, // TLV 135
    0x03, 0x06, 0x40, 0x00, 0x00, 0x00, 0x00, 0x05, // its sub-TLVs 3
    0x03, 0x06, 0x40, 0x00, 0x00, 0x00, 0x00, 0x06, //
    0x03, 0x06, 0x40, 0x00, 0x00, 0x00, 0x00, 0x05, //
    0x03, 0x06, 0x40, 0x01, 0x00, 0x00, 0x00, 0x04, //
    0x03, 0x06, 0x00, 0x00, 0x00, 0x00, 0x00, 0x03, //
    0x03, 0x05, 0x4c, 0x00, 0x00, 0x00, 0x63, //
];

#[test]
fn an_adjacency_sid_is_told_with_the_first_reason(rt: HostRuntime) -> Result<(), Fail> {
    let first = sent(rt.alloc(), 1, &ADJ_SIDS)?;
    let wanted = [
        Reason::NotLeast,
        Reason::NotFirst,
        Reason::Backup,
        Reason::Flags,
        Reason::WrongForm,
    ];
    check_reasons(&rt, rt.alloc(), &first, &wanted, "adjacency SIDs")
}

#[test]
fn a_prefix_sid_is_told_with_the_first_reason(rt: HostRuntime) -> Result<(), Fail> {
    let first = sent(rt.alloc(), 1, &PREFIX_SIDS)?;
    // Router 2's link is told last: router 1 announces none to it.
    let wanted = [
        Reason::NotLeast,
        Reason::NotFirst,
        Reason::Algorithm,
        Reason::Flags,
        Reason::WrongForm,
        Reason::OneWay,
    ];
    check_reasons(&rt, rt.alloc(), &first, &wanted, "Prefix-SIDs")
}
