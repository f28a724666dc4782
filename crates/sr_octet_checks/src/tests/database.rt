//! Edits that are staged, accepted and dropped.

use super::fixtures::{changed, key};
use sr_lsdb::{Editor, StageFault};
use sr_lsp::read_lsp;
use sr_model::{Ident, LinkKey};
use std::alloc::{AllocError, Global};
use std::process::Abort;

/// The PDU with these changes is staged, or memory ran out before.
fn stage(alloc: Global, editor: &mut Editor, changes: &[(usize, u8)]) -> Result<u32, StageFault> {
    let octets = changed(alloc, changes)?;
    match read_lsp(alloc, &octets) {
        Ok(lsp) => editor.stage_lsp(lsp),
        Err(_) => Err(StageFault::Memory(AllocError)),
    }
}

/// The count that staging answered.
fn count(answer: &Result<u32, StageFault>) -> Option<u32> {
    match answer {
        Ok(count) => Some(*count),
        Err(_) => None,
    }
}

/// The stored and the given number of a stale PDU.
fn stale(answer: &Result<u32, StageFault>) -> Option<(u32, u32)> {
    match answer {
        Err(StageFault::Stale { stored, given }) => Some((*stored, *given)),
        _ => None,
    }
}

fn is_full(answer: &Result<u32, StageFault>) -> bool {
    match answer {
        Err(StageFault::Full) => true,
        _ => false,
    }
}

/// A PDU as changed octets of the first, and what its staging answers: a count, or a stored and a
/// given number.
struct Step {
    changes: &'static [(usize, u8)],
    count: Option<u32>,
    stale: Option<(u32, u32)>,
}

/// The first PDU; its purge; a PDU with sequence number 2.
const STEPS: [Step; 7] = [
    Step {
        changes: &[],
        count: Some(1),
        stale: None,
    },
    Step {
        changes: &[],
        count: None,
        stale: Some((1, 1)),
    },
    Step {
        changes: &[(10, 0), (11, 0)],
        count: Some(2),
        stale: None,
    },
    Step {
        changes: &[(10, 0), (11, 0)],
        count: None,
        stale: Some((1, 1)),
    },
    Step {
        changes: &[],
        count: None,
        stale: Some((1, 1)),
    },
    Step {
        changes: &[(23, 2)],
        count: Some(3),
        stale: None,
    },
    Step {
        changes: &[],
        count: None,
        stale: Some((2, 1)),
    },
];

/// What the staging of each step answers.
fn check_steps(rt: &impl Abort, alloc: Global, editor: &mut Editor) {
    for step in &STEPS {
        let answer = stage(alloc, editor, step.changes);
        assert_eq!(rt; (count(&answer), stale(&answer)), (step.count, step.stale));
    }
}

#[test]
fn a_stale_pdu_is_refused_and_a_purge_leaves_its_number(rt: HostRuntime) {
    let mut editor = Editor::new(rt.alloc());
    check_steps(&rt, rt.alloc(), &mut editor);
    assert_eq!(rt; editor.drop_staged(), 3);
    assert_eq!(rt; editor.tentative().database.as_map().len(), 0);
    drop(editor);
}

/// Depths are staged until 4096 edits are.
fn fill(rt: &impl Abort, editor: &mut Editor) {
    for staged in 0..4096 {
        assert_eq!(rt; count(&editor.stage_depth(5)), Some(staged + 1));
    }
}

/// No further edit is staged, and all are dropped.
fn check_full(rt: &impl Abort, editor: &mut Editor) {
    assert!(rt; is_full(&editor.stage_depth(6)));
    assert_eq!(rt; editor.drop_staged(), 4096);
    assert_eq!(rt; editor.tentative().depth, 3);
}

#[test]
fn edits_are_staged_up_to_4096(rt: HostRuntime) {
    let mut editor = Editor::new(rt.alloc());
    fill(&rt, &mut editor);
    check_full(&rt, &mut editor);
    drop(editor);
}

/// What the staging of a PDU answers, and its staging once more after the first is accepted.
fn stage_twice(alloc: Global, editor: &mut Editor) -> (Option<u32>, Option<(u32, u32)>) {
    let first = count(&stage(alloc, editor, &[]));
    editor.accept();
    let second = stale(&stage(alloc, editor, &[]));
    (first, second)
}

#[test]
fn a_pdu_of_an_accepted_batch_is_stale_in_the_next(rt: HostRuntime) {
    let mut editor = Editor::new(rt.alloc());
    let staged = stage_twice(rt.alloc(), &mut editor);
    assert_eq!(rt; staged, (Some(1), Some((1, 1))));
    assert_eq!(rt; editor.staged(), 0);
    drop(editor);
}

/// The tentative metric of a link, and whether its pair is down.
fn facts(editor: &Editor, key: &LinkKey) -> (Option<u32>, bool) {
    let tentative = editor.tentative();
    (
        tentative.costs.get(key),
        tentative.downs.contains(&key.pair()),
    )
}

/// A metric and a pair that is down are staged.
fn stage_first(rt: &impl Abort, editor: &mut Editor, key: &LinkKey) {
    let first = (
        count(&editor.stage_cost(key, 10)),
        count(&editor.stage_down(key.pair())),
    );
    assert_eq!(rt; first, (Some(1), Some(2)));
}

/// Another metric and a pair that is up are staged.
fn stage_second(rt: &impl Abort, editor: &mut Editor, key: &LinkKey) {
    let second = (
        count(&editor.stage_cost(key, 20)),
        count(&editor.stage_up(key.pair())),
    );
    assert_eq!(rt; second, (Some(1), Some(2)));
    assert_eq!(rt; facts(editor, key), (Some(20), false));
}

/// The staged edits are dropped, and the next batch begins with what was accepted.
fn stage_third(rt: &impl Abort, editor: &mut Editor, key: &LinkKey) {
    assert_eq!(rt; editor.drop_staged(), 2);
    assert_eq!(rt; count(&editor.stage_depth(4)), Some(1));
    assert_eq!(rt; facts(editor, key), (Some(10), true));
}

#[test]
fn dropped_edits_of_a_link_are_not_in_the_next_batch(rt: HostRuntime) {
    let mut editor = Editor::new(rt.alloc());
    let key = key(1, 2, Ident::None);
    stage_first(&rt, &mut editor, &key);
    editor.accept();
    stage_second(&rt, &mut editor, &key);
    stage_third(&rt, &mut editor, &key);
    drop(editor);
}

/// A PDU as changed octets of the first, and whether it says the same as the first.
struct Renewal {
    changes: &'static [(usize, u8)],
    is_same: bool,
}

/// The first PDU with another sequence number, and then: another lifetime and checksum; another
/// metric; the overload bit; another size of the label range; no lifetime.
const RENEWALS: [Renewal; 5] = [
    Renewal {
        changes: &[(23, 2), (10, 3), (24, 0x5a), (25, 1)],
        is_same: true,
    },
    Renewal {
        changes: &[(23, 2), (56, 11)],
        is_same: false,
    },
    Renewal {
        changes: &[(23, 2), (26, 7)],
        is_same: false,
    },
    Renewal {
        changes: &[(23, 2), (39, 0x41)],
        is_same: false,
    },
    Renewal {
        changes: &[(23, 2), (10, 0), (11, 0)],
        is_same: false,
    },
];

/// The first PDU is accepted.
fn accept_first(rt: &impl Abort, alloc: Global, editor: &mut Editor) {
    let first = count(&stage(alloc, editor, &[]));
    assert_eq!(rt; (first, editor.says_the_same()), (Some(1), false));
    editor.accept();
    assert!(rt; editor.says_the_same());
}

/// Each renewal is staged by itself, and dropped.
fn check_renewals(rt: &impl Abort, alloc: Global, editor: &mut Editor) {
    for renewal in &RENEWALS {
        let staged = count(&stage(alloc, editor, renewal.changes));
        assert_eq!(rt;
            (staged, editor.says_the_same()),
            (Some(1), renewal.is_same)
        );
        assert_eq!(rt; editor.drop_staged(), 1);
        assert!(rt; editor.says_the_same());
    }
}

/// The PDU is replaced by one of another metric, and that by one that says what was said.
fn replace_twice(rt: &impl Abort, alloc: Global, editor: &mut Editor) {
    let changed = count(&stage(alloc, editor, &[(23, 2), (56, 11)]));
    assert_eq!(rt; (changed, editor.says_the_same()), (Some(1), false));
    let back = count(&stage(alloc, editor, &[(23, 3)]));
    assert_eq!(rt; (back, editor.says_the_same()), (Some(2), true));
}

/// A depth says the same, and a metric that is set doesn't.
fn stage_depth_and_cost(rt: &impl Abort, editor: &mut Editor) {
    let depth = count(&editor.stage_depth(5));
    assert_eq!(rt; (depth, editor.says_the_same()), (Some(3), true));
    let cost = count(&editor.stage_cost(&key(1, 2, Ident::None), 10));
    assert_eq!(rt; (cost, editor.says_the_same()), (Some(4), false));
}

#[test]
fn a_pdu_that_is_only_flooded_anew_says_the_same(rt: HostRuntime) {
    let mut editor = Editor::new(rt.alloc());
    accept_first(&rt, rt.alloc(), &mut editor);
    check_renewals(&rt, rt.alloc(), &mut editor);
    replace_twice(&rt, rt.alloc(), &mut editor);
    stage_depth_and_cost(&rt, &mut editor);
    drop(editor);
}
