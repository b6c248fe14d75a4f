ghost use Rattle.std.specs.Prelude.{◌≡◌, ◌++◌, [], ◌∷◌, OnOk};

use crate::{Delta, RowChange};
use lama_base::Edge;
use lama_model::{PlainRows, Write};
use std::alloc::{AllocError, Global};
use std::test::Fail;

// Puts a write at the end of the pending ones.
fn put(delta: &mut Delta, write: Write) -> Result<(), AllocError>
    ensures { OnOk result (delta.new.writes ≡ delta.old.writes ++ write ∷ []) }
{
    delta.reserve(1)?;
    delta.push(write);
    Ok(())
}

fn row(
    alloc: Global,
    source: u32,
    added: &[(u32, u64)],
    killed: &[u32],
    set: &[(u32, u64)],
) -> Result<RowChange, AllocError> {
    Ok(RowChange {
        source,
        added: added.to_vec(alloc)?,
        killed: killed.to_vec(alloc)?,
        set: set.to_vec(alloc)?,
    })
}

#[test]
fn adds_become_rows_with_the_newest_first(rt: HostRuntime) -> Result<(), Fail> {
    let alloc = rt.alloc();
    let rows = PlainRows::from_edges(alloc, 3, &[])?;
    let mut delta = Delta::new(alloc);
    put(&mut delta, Write::Add(2, 0, 5))?;
    put(&mut delta, Write::Add(0, 1, 4_294_967_296))?;
    put(&mut delta, Write::Add(2, 3, 6))?;
    put(&mut delta, Write::Add(2, 2, 7))?;
    let change = delta.change(alloc, &rows, 9, 4)?;
    let wanted = vec![in alloc;
        row(alloc, 0, &[(1, 4_294_967_296)], &[], &[])?,
        row(alloc, 2, &[(2, 7), (3, 6), (0, 5)], &[], &[])?,
    ]?;
    assert_eq!(rt; change.number, 9);
    assert_eq!(rt; change.count, 4);
    assert_eq!(rt; change.rows, wanted);
    delta.clear();
    let none = delta.change(alloc, &rows, 1, 3)?;
    assert_eq!(rt; none.rows.len(), 0);
    Ok(())
}

// Row 0 is 2/1 1/1 2/5, the newest edge first.
#[test]
fn indexes_count_the_row_before(rt: HostRuntime) -> Result<(), Fail> {
    let alloc = rt.alloc();
    let edges = [
        Edge {
            source: 0,
            target: 2,
            weight: 5,
        },
        Edge {
            source: 0,
            target: 1,
            weight: 1,
        },
        Edge {
            source: 0,
            target: 2,
            weight: 1,
        },
    ];
    let rows = PlainRows::from_edges(alloc, 3, &edges)?;
    let mut delta = Delta::new(alloc);
    put(&mut delta, Write::Add(0, 2, 3))?;
    put(&mut delta, Write::Remove(0, 1))?;
    put(&mut delta, Write::Weigh(0, 2, 5))?;
    put(&mut delta, Write::Add(0, 1, 4))?;
    let change = delta.change(alloc, &rows, 1, 3)?;
    let wanted = vec![in alloc; row(alloc, 0, &[(1, 4), (2, 5)], &[1], &[(0, 5)])?]?;
    assert_eq!(rt; change.rows, wanted);
    Ok(())
}

// An edge that never stood, one that goes before the checkpoint, and a weight that is the old one.
#[test]
fn what_changes_nothing_has_no_row(rt: HostRuntime) -> Result<(), Fail> {
    let alloc = rt.alloc();
    let rows = PlainRows::from_edges(
        alloc,
        3,
        &[Edge {
            source: 1,
            target: 0,
            weight: 7,
        }],
    )?;
    let mut delta = Delta::new(alloc);
    put(&mut delta, Write::Remove(0, 2))?;
    put(&mut delta, Write::Weigh(2, 2, 9))?;
    put(&mut delta, Write::Add(1, 1, 1))?;
    put(&mut delta, Write::Remove(1, 1))?;
    put(&mut delta, Write::Weigh(1, 0, 8))?;
    put(&mut delta, Write::Weigh(1, 0, 7))?;
    let change = delta.change(alloc, &rows, 1, 3)?;
    assert_eq!(rt; change.rows.len(), 0);
    Ok(())
}

// A loop that is deleted and added again leaves the old one killed and a new one.
#[test]
fn an_edge_goes_and_comes_again(rt: HostRuntime) -> Result<(), Fail> {
    let alloc = rt.alloc();
    let edges = [
        Edge {
            source: 0,
            target: 0,
            weight: 1,
        },
        Edge {
            source: 0,
            target: 1,
            weight: 2,
        },
        Edge {
            source: 0,
            target: 0,
            weight: 3,
        },
    ];
    let rows = PlainRows::from_edges(alloc, 2, &edges)?;
    let mut delta = Delta::new(alloc);
    put(&mut delta, Write::Remove(0, 0))?;
    put(&mut delta, Write::Add(0, 0, 4))?;
    put(&mut delta, Write::Weigh(0, 1, 6))?;
    let change = delta.change(alloc, &rows, 1, 2)?;
    let wanted = vec![in alloc; row(alloc, 0, &[(0, 4)], &[0, 2], &[(1, 6)])?]?;
    assert_eq!(rt; change.rows, wanted);
    Ok(())
}
