// Rows as compressed sparse rows of targets alone.
ghost use Rattle.std.specs.Prelude.{◌≡◌, ◌+◌, ◌-◌, ◌<◌, ◌≤◌, ◌++◌, IfOk, OnOk, drop, length, map, take};
ghost use Rattle.std.specs.List.{flat_map, range_with_len};
ghost use Rattle.lama_model.specs.Row.{edges_in, row_at};
ghost use Rattle.lama_bfs.specs.Flat.{edges_below, firsts, IsFlat};
ghost use Rattle.lama_bfs.specs.Frontier.{targets_of};

use lama_base::Gate;
use lama_model::Rows;
use lama_work::map_pieces;
use std::alloc::{AllocError, Global};
use std::thread::Threads;

// The targets of all edges in one array, and the place in it where each vertex's row starts.
#[derive(Drop)]
pub(crate) struct Flat {
    pub starts: Vec<u32>,
    pub targets: Vec<u32>,
}

impl Flat {
    // Those of these rows, which costs a walk over all of them in the order in which they lie, in a piece for each worker.
    pub(crate) fn of<T: Threads + Sync, R: Rows + Sync, G: Gate + Sync>(
        rt: &T,
        alloc: Global,
        rows: &R,
        workers: u32,
        gate: &G,
    ) -> Result<Flat, AllocError>
    where
        R::At: Send,
        requires some { 1 ≤ workers }
        requires few { workers ≤ 16 }
        requires edges { edges_in (R.rows rows.now) ≤ 33554432 }
        ensures { IfOk result (λ flat. IsFlat (R.rows rows.now) flat.starts.items flat.targets.items) }
    {
        let starts = starts_of(alloc, rows)?;
        let targets = all_targets(rt, alloc, rows, &starts, workers, gate)?;
        Ok(Flat { starts, targets })
    }

    // The targets of a vertex's edges. The rows are there for the contract alone.
    #[inline(always)]
    pub(crate) fn row<R: Rows>(&self, rows: &R, u: u32) -> &[u32]
        requires flat { IsFlat (R.rows rows.now) self.now.starts.items self.now.targets.items }
        requires within { u < length (R.rows rows.now) }
        ensures { result.now ≡ firsts (row_at (R.rows rows.now) u) }
    {
        let start = self.starts[u as usize] as usize;
        let end = self.starts[u as usize + 1] as usize;
        &self.targets[start..end]
    }
}

// Where each row starts, and where the last one ends.
fn starts_of<R: Rows>(alloc: Global, rows: &R) -> Result<Vec<u32>, AllocError>
    requires { edges_in (R.rows rows.now) ≤ 33554432 }
    ensures { IfOk result (λ v. v.items ≡ map (edges_below (R.rows rows.now)) (range_with_len 0 (length (R.rows rows.now) + 1))) }
{
    let count = rows.count();
    let mut starts = Vec::with_capacity(alloc, count as usize + 1)?;
    let mut end = 0;
    starts.push(end)?;
    for u in 0..count {
        end += rows.degree(u);
        starts.push(end)?;
    }
    Ok(starts)
}

// The targets of all rows, found in a piece of the vertices for each worker, and then joined.
fn all_targets<T: Threads + Sync, R: Rows + Sync, G: Gate + Sync>(
    rt: &T,
    alloc: Global,
    rows: &R,
    starts: &[u32],
    workers: u32,
    gate: &G,
) -> Result<Vec<u32>, AllocError>
where
    R::At: Send,
    requires some { 1 ≤ workers }
    requires few { workers ≤ 16 }
    requires starts { length (R.rows rows.now) < length starts.now }
    ensures { IfOk result (λ v. v.items ≡ flat_map firsts (R.rows rows.now)) }
{
    if workers == 1 {
        return targets_between(alloc, rows, starts, 0, rows.count());
    }
    let pieces = map_pieces(
        rt,
        alloc,
        rows.count(),
        workers,
        gate,
        &|_: u32, start: u32, end: u32| -> Result<Vec<u32>, AllocError>
            requires { (start ≤ end) × (end ≤ length (R.rows rows.now)) × (length (R.rows rows.now) < length starts.now) }
            ensures { IfOk result (λ v. v.items ≡ targets_of (R.rows rows.entry.now) (take (end - start) (drop start (range_with_len 0 (length (R.rows rows.entry.now)))))) }
        { targets_between(alloc, rows, starts, start, end) },
    )?;
    let total = starts[rows.count() as usize];
    joined(alloc, &pieces, total)
}

// The lists one after another, in room for so many items at once.
fn joined(alloc: Global, pieces: &[Vec<u32>], room: u32) -> Result<Vec<u32>, AllocError>
    ensures { IfOk result (λ v. v.items ≡ flat_map (λ piece. piece.items) pieces.now) }
{
    let mut all = Vec::with_capacity(alloc, room as usize)?;
    for piece in pieces {
        all.extend_from_slice(piece)?;
    }
    Ok(all)
}

// The targets of the edges that leave the vertices from `start` to before `end`. Where each row starts tells how much room
// they take.
fn targets_between<R: Rows>(
    alloc: Global,
    rows: &R,
    starts: &[u32],
    start: u32,
    end: u32,
) -> Result<Vec<u32>, AllocError>
    requires order { start ≤ end }
    requires within { end ≤ length (R.rows rows.now) }
    requires starts { length (R.rows rows.now) < length starts.now }
    ensures { IfOk result (λ v. v.items ≡ targets_of (R.rows rows.now) (take (end - start) (drop start (range_with_len 0 (length (R.rows rows.now)))))) }
{
    let room = starts[end as usize].wrapping_sub(starts[start as usize]);
    let mut targets = Vec::with_capacity(alloc, room as usize)?;
    for u in start..end {
        push_targets(rows, u, &mut targets)?;
    }
    Ok(targets)
}

// Puts the targets of a vertex's edges at the end.
fn push_targets<R: Rows>(rows: &R, u: u32, targets: &mut Vec<u32>) -> Result<(), AllocError>
    requires { u < length (R.rows rows.now) }
    ensures { OnOk result (targets.new.items ≡ targets.old.items ++ firsts (row_at (R.rows rows.now) u)) }
{
    let mut at = rows.start(u);
    while let Some((target, _, rest)) = rows.next(at) {
        targets.push(target)?;
        at = rest;
    }
    Ok(())
}
