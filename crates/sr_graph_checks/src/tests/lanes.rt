//! Each pass over rows beside the plain loop, at lengths about a group of eight and about a whole
//! set; and sets of nodes.
ghost use Rattle.std.specs.Prelude.{◌≡◌, ◌≤◌, IfOk, length};
ghost use Rattle.sr_lanes.specs.Passes.{AreCells};

use sr_lanes::{
    CELL_AT_MOST, NODES_AT_MOST, NodeBits, differ, finite, rows_equal, tight, tight_mask,
};
use std::alloc::{AllocError, Global};
use std::test::Fail;

/// A row of small cells, each fifth of which says that there is no walk.
fn cells(alloc: Global, count: usize, step: u64) -> Result<Vec<u64>, AllocError>
    ensures length { IfOk result (λ row. length row.items ≡ count) }
    ensures cells { IfOk result (λ row. AreCells row.items) }
{
    let mut row = Vec::with_capacity(alloc, count)?;
    for v in 0..count {
        let near = (v as u64).wrapping_mul(step) % 11;
        row.push(if v % 5 == 2 { CELL_AT_MOST } else { near })?;
    }
    Ok(row)
}

/// Whether `tight` says what the plain loop says, at each number.
fn tight_is_plain(alloc: Global, count: usize) -> Result<bool, AllocError>
    requires { count ≤ NODES_AT_MOST }
{
    let row = cells(alloc, count, 7)?;
    let base = cells(alloc, count, 3)?;
    let set = tight(&row, 4, &base);
    let mut same = true;
    for v in 0..NODES_AT_MOST {
        let plain = v < count && 4 + base[v] == row[v];
        same = same && set.has(v) == plain;
    }
    Ok(same)
}

/// Whether `differ` says what the plain loop says, at each number.
fn differ_is_plain(alloc: Global, count: usize) -> Result<bool, AllocError>
    requires { count ≤ NODES_AT_MOST }
{
    let a = cells(alloc, count, 7)?;
    let b = cells(alloc, count, 3)?;
    let set = differ(&a, &b);
    let mut same = true;
    for v in 0..NODES_AT_MOST {
        let plain = v < count && a[v] != b[v];
        same = same && set.has(v) == plain;
    }
    Ok(same)
}

/// Whether `finite` says what the plain loop says, at each number.
fn finite_is_plain(alloc: Global, count: usize) -> Result<bool, AllocError>
    requires { count ≤ NODES_AT_MOST }
{
    let row = cells(alloc, count, 7)?;
    let set = finite(&row);
    let mut same = true;
    for v in 0..NODES_AT_MOST {
        same = same && set.has(v) == (v < count && v % 5 != 2);
    }
    Ok(same)
}

/// Whether `tight_mask` writes what the plain loop writes, and leaves the rest.
fn mask_is_plain(alloc: Global, count: usize) -> Result<bool, AllocError> {
    let row = cells(alloc, count, 7)?;
    let base = cells(alloc, count, 3)?;
    let mut hits = vec![in alloc; 9; count]?;
    tight_mask(&row, 4, &base, &mut hits);
    let mut same = true;
    for v in 0..count {
        let plain = if 4 + base[v] == row[v] { 1 } else { 9 };
        same = same && hits[v] == plain;
    }
    Ok(same)
}

/// Whether a row is equal to itself, and to no row that has another cell or another length.
fn equality_is_plain(alloc: Global, count: usize) -> Result<bool, AllocError> {
    let row = cells(alloc, count, 7)?;
    let mut other = cells(alloc, count, 7)?;
    let mut same = rows_equal(&row, &other);
    for v in 0..count {
        other[v] += 1;
        same = same && !rows_equal(&row, &other);
        other[v] = row[v];
    }
    other.push(0)?;
    Ok(same && !rows_equal(&row, &other))
}

/// Whether each pass is the plain loop at this length.
fn passes_are_plain(alloc: Global, count: usize) -> Result<bool, AllocError>
    requires { count ≤ NODES_AT_MOST }
{
    Ok(
        tight_is_plain(alloc, count)?
            && differ_is_plain(alloc, count)?
            && finite_is_plain(alloc, count)?
            && mask_is_plain(alloc, count)?
            && equality_is_plain(alloc, count)?,
    )
}

#[test]
fn passes_at_lengths(rt: HostRuntime) -> Result<(), Fail> {
    let alloc = rt.alloc();
    for count in [0, 1, 7, 8, 9, 71, 255, NODES_AT_MOST] {
        assert!(rt; count <= NODES_AT_MOST);
        assert!(rt; passes_are_plain(alloc, count)?, "at {count}");
    }
    Ok(())
}

#[test]
fn members_in_order(rt: HostRuntime) {
    let mut set = NodeBits::none()
        .with(255)
        .with(64)
        .with(0)
        .with(63)
        .with(200);
    assert!(rt; !set.is_empty());
    assert_eq!(rt; set.first(), Some(0));
    for next in [Some(0), Some(63), Some(64), Some(200), Some(255), None] {
        assert_eq!(rt; set.take_first(), next);
    }
    assert!(rt; set.is_empty());
}

#[test]
fn sets_of_sets(rt: HostRuntime) {
    let low = NodeBits::below(65);
    let some = NodeBits::from_tests(&[true, false, true]).with(64).with(65);
    assert_eq!(rt; low.and(some), NodeBits::none().with(0).with(2).with(64));
    assert_eq!(rt; some.and_not(low), NodeBits::none().with(65));
    assert_eq!(rt; low.or(some), NodeBits::below(66));
    assert_eq!(rt;
        NodeBits::below(256).and_not(NodeBits::below(255)).first(),
        Some(255)
    );
    assert!(rt; some.has(2) && !some.has(1) && !some.without(2).has(2));
    assert!(rt; NodeBits::below(0).is_empty());
}
