ghost use Rattle.std.specs.Prelude.{◌≡◌, ◌+◌, ◌<◌, ◌≤◌, [], ◌∷◌, IfOk, length};
ghost use Rattle.lama_delta.specs.Seen.{seen_row};
ghost use Rattle.lama_snapshot.specs.Loops.{loop_at};

use crate::{Base, Snapshot};
use lama_delta::{Change, RowChange};
use lama_model::{PlainRows, Rows};
use lama_pages::Steps;
use std::alloc::{AllocError, Global};
use std::marker::Brand;
use std::sync::Arc;
use std::sync::ledger::{Blank, Ledger};
use std::test::Fail;

fn crosses_threads<X: Send + Sync>() {}

#[test]
fn snapshots_cross_threads(_rt: HostRuntime) -> Result<(), Fail> {
    crosses_threads::<Base>();
    crosses_threads::<Snapshot>();
    Ok(())
}

// The edges of the rows, by their sources and then the newest first.
fn edges_of<R: Rows>(alloc: Global, rows: &R) -> Result<Vec<(u32, u32, u64)>, AllocError> {
    let mut all = Vec::new(alloc);
    for v in 0..rows.count() {
        let mut at = rows.start(v);
        while let Some((target, weight, rest)) = rows.next(at) {
            all.push((v, target, weight))?;
            at = rest;
        }
    }
    Ok(all)
}

// A row change that adds one loop of weight 1.
fn one_loop(alloc: Global, v: u32) -> Result<RowChange, AllocError>
    ensures { IfOk result (λ row. seen_row row ≡ loop_at v) }
{
    Ok(RowChange {
        source: v,
        added: vec![in alloc; (v, 1)]?,
        killed: Vec::new(alloc),
        set: Vec::new(alloc),
    })
}

// The snapshot after a loop at vertex 0 of 65,536. It takes nine pages at most.
fn loop_added<L: Ledger>(
    alloc: Global,
    old: &Snapshot,
    number: u32,
    pages: &mut Steps<L>,
) -> Result<Option<Snapshot>, AllocError>
    ensures { pages.new ≤ pages.old + 9 }
{
    let change = Change {
        number,
        count: 65_536,
        rows: vec![in alloc; one_loop(alloc, 0)?]?,
    };
    if !old.fits(&change) {
        return Ok(None);
    }
    Ok(Some(old.apply(alloc, Arc::new(alloc, change)?, pages)?))
}

// The snapshot after loops at 255, 256 and 511 of 600 vertices. It takes eleven pages at most.
fn loops_added<L: Ledger>(
    alloc: Global,
    old: &Snapshot,
    pages: &mut Steps<L>,
) -> Result<Option<Snapshot>, AllocError>
    ensures { pages.new ≤ pages.old + 11 }
{
    let change = Change {
        number: 1,
        count: 600,
        rows: vec![in alloc;
            one_loop(alloc, 255)?,
            one_loop(alloc, 256)?,
            one_loop(alloc, 511)?,
        ]?,
    };
    if !old.fits(&change) {
        return Ok(None);
    }
    Ok(Some(old.apply(alloc, Arc::new(alloc, change)?, pages)?))
}

// A snapshot of so many vertices and no edge.
fn without_edges<L: Ledger>(
    alloc: Global,
    count: u32,
    pages: &mut Steps<L>,
) -> Result<Snapshot, AllocError>
    requires { count ≤ 65536 }
{
    let rows = PlainRows::from_edges(alloc, count, &[])?;
    let base = Base::build(alloc, 0, &rows, pages)?;
    Snapshot::from_base(alloc, Arc::new(alloc, base)?)
}

// What the tests look at: the edges of the old snapshot and of the new one, and the count of the new one's vertices.
#[derive(Drop)]
struct Seen {
    before: Vec<(u32, u32, u64)>,
    after: Vec<(u32, u32, u64)>,
    count: u32,
}

fn three_loops<L: Ledger>(alloc: Global, blank: Blank) -> Result<Option<Seen>, AllocError>
    requires name { blank.name ≡ L.name }
    requires parts { blank.parts ≡ L.parts }
    requires one { blank.parts ≡ 1 }
{
    let mut pages = Steps::<L>::open(blank);
    let old = without_edges(alloc, 600, &mut pages)?;
    let Some(new) = loops_added(alloc, &old, &mut pages)? else {
        return Ok(None);
    };
    Ok(Some(Seen {
        before: edges_of(alloc, &old)?,
        after: edges_of(alloc, &new)?,
        count: new.count(),
    }))
}

#[test]
fn a_change_leaves_the_old_snapshot(rt: HostRuntime) -> Result<(), Fail> {
    let alloc = rt.alloc();
    match three_loops::<Brand>(alloc, Blank::new(1))? {
        None => assert_eq!(rt; true, false),
        Some(seen) => {
            assert_eq!(rt; seen.before.len(), 0);
            assert_eq!(rt;
                seen.after,
                vec![in alloc; (255, 255, 1), (256, 256, 1), (511, 511, 1)]?
            );
            assert_eq!(rt; seen.count, 600);
        }
    }
    Ok(())
}

// Whether a change of number 3 fits snapshot 1, and what the first two changes left.
fn one_after_another<L: Ledger>(
    alloc: Global,
    blank: Blank,
) -> Result<Option<(bool, bool, Vec<(u32, u32, u64)>, u32, u32)>, AllocError>
    requires name { blank.name ≡ L.name }
    requires parts { blank.parts ≡ L.parts }
    requires one { blank.parts ≡ 1 }
{
    let mut pages = Steps::<L>::open(blank);
    let base = without_edges(alloc, 65_536, &mut pages)?;
    let Some(first) = loop_added(alloc, &base, 1, &mut pages)? else {
        return Ok(None);
    };
    let third = loop_added(alloc, &first, 3, &mut pages)?;
    let Some(second) = loop_added(alloc, &first, 2, &mut pages)? else {
        return Ok(None);
    };
    let edges = edges_of(alloc, &second)?;
    Ok(Some((
        third.is_none(),
        first.number() == 1,
        edges,
        second.number(),
        second.floor(),
    )))
}

#[test]
fn a_change_fits_the_snapshot_before_it(rt: HostRuntime) -> Result<(), Fail> {
    let alloc = rt.alloc();
    match one_after_another::<Brand>(alloc, Blank::new(1))? {
        None => assert_eq!(rt; true, false),
        Some((refused, first, edges, number, floor)) => {
            assert_eq!(rt; refused, true);
            assert_eq!(rt; first, true);
            assert_eq!(rt; edges, vec![in alloc; (0, 0, 1), (0, 0, 1)]?);
            assert_eq!(rt; number, 2);
            assert_eq!(rt; floor, 0);
        }
    }
    Ok(())
}
