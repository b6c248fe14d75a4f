//! The edges of rows as one list.

ghost use Rattle.std.specs.Prelude.{◌≡◌, ◌<◌, ◌-◌, ◌≤◌, ◌++◌, IfOk, OnOk, drop, length, map, take};
ghost use Rattle.std.specs.List.{range_with_len};
ghost use Rattle.lama_model.specs.Row.{row_at, edges_from};

use crate::adjacency::Rows;
use std::alloc::{AllocError, Global};

/// The edges that leave the vertices from `start` to before `end`, each as source and target: the sources rise, and the
/// edges of one stand in the order of its row. It takes eight bytes for each edge, at once, and costs the vertices and
/// edges. The only error is want of memory.
pub fn edges_between<R: Rows>(
    alloc: Global,
    rows: &R,
    start: u32,
    end: u32,
) -> Result<Vec<(u32, u32)>, AllocError>
    requires order { start ≤ end }
    requires within { end ≤ length (R.rows rows.now) }
    ensures { IfOk result (λ v. v.items ≡ edges_from (R.rows rows.now) (take (end - start) (drop start (range_with_len 0 (length (R.rows rows.now)))))) }
{
    let mut found = Vec::with_capacity(alloc, count_between(rows, start, end))?;
    for u in start..end {
        push_row(rows, u, &mut found)?;
    }
    Ok(found)
}

// Puts the edges that leave a vertex at the end.
fn push_row<R: Rows>(rows: &R, u: u32, found: &mut Vec<(u32, u32)>) -> Result<(), AllocError>
    requires { u < length (R.rows rows.now) }
    ensures { OnOk result (found.new.items ≡ found.old.items ++ map (λ p. (u, p.0)) (row_at (R.rows rows.now) u)) }
{
    let mut at = rows.start(u);
    while let Some((target, _, rest)) = rows.next(at) {
        found.push((u, target))?;
        at = rest;
    }
    Ok(())
}

// How many edges leave the vertices from `first` to before `end`, so that there is room for them at once.
fn count_between<R: Rows>(rows: &R, first: u32, end: u32) -> usize
    requires { end ≤ length (R.rows rows.now) }
{
    let mut total = 0;
    for v in first..end {
        total += rows.degree(v) as usize;
    }
    total
}
