//! Lists by calls of both kinds.

use sr_seq::{Few, Seq};
use std::alloc::{AllocError, Global};
use std::process::Abort;
use std::test::Fail;

/// The values are these.
fn check(rt: &impl Abort, values: &[u32], wanted: &[u32], name: &str) {
    assert_eq!(rt; values, wanted, "{name}");
}

/// The values are pushed one by one, and then stand at the end of the list.
fn push(
    rt: &impl Abort,
    few: &mut Few<u32>,
    values: &[u32],
    wanted: &[u32],
) -> Result<(), AllocError> {
    for &value in values {
        few.push(value)?;
    }
    check(rt, few.as_slice(), wanted, "pushed");
    Ok(())
}

/// A list that has no room at first.
fn check_empty(rt: &impl Abort, alloc: Global) -> Result<(), AllocError> {
    let mut few = Few::empty(alloc);
    push(rt, &mut few, &[], &[])?;
    push(rt, &mut few, &[7], &[7])?;
    push(rt, &mut few, &[8, 9], &[7, 8, 9])
}

/// A list that has room for two values at first.
fn check_room(rt: &impl Abort, alloc: Global) -> Result<(), AllocError> {
    let mut room = Few::with_room(alloc, 2)?;
    push(rt, &mut room, &[7, 8], &[7, 8])
}

#[test]
fn few_values(rt: HostRuntime) -> Result<(), Fail> {
    let alloc = rt.alloc();
    check_empty(&rt, alloc)?;
    check_room(&rt, alloc)?;
    let given = Few::new(vec![in alloc; 7; 3]?);
    check(&rt, given.as_slice(), &[7, 7, 7], "given");
    Ok(())
}

#[test]
fn values_in_order(rt: HostRuntime) -> Result<(), Fail> {
    let alloc = rt.alloc();
    let mut values = Seq::new(vec![in alloc; 7; 2]?);
    values.push(8)?;
    check(&rt, values.as_slice(), &[7, 7, 8], "in a list");
    check(&rt, values.into_vec().as_slice(), &[7, 7, 8], "taken out");
    check(&rt, Seq::<u32>::empty(alloc).as_slice(), &[], "none");
    Ok(())
}
