//! Labels, lowered in rounds until nothing changes.

ghost use Rattle.std.specs.Prelude.{◌≡◌, ◌≤◌, IfOk, length};
ghost use Rattle.std.specs.List.{range_with_len};
ghost use Rattle.lama_model.specs.Row.{graph_of_rows};
ghost use Rattle.lama_model.specs.Labels.{labels};

use crate::lowering::{lower, total};
use lama_base::Gate;
use lama_model::Rows;
use lama_work::{FEW, edges_in_pieces};
use std::alloc::{AllocError, Global};
use std::thread::Threads;

/// The label of each vertex, by its number: the least vertex of its weak component, which is all that walks lead to that
/// may take each edge in either direction.
///
/// The edges are put into lists first, of eight bytes for each, in a piece of the vertices for each worker, or in one where
/// there are few vertices. In each round every edge offers to its ends, and to their labels, the lower one of the labels of
/// their labels (after FastSV: Zhang, Azad and Hu, FastSV: A Distributed-Memory Connected Component Algorithm with Fast
/// Convergence, 2020). A round costs the vertices and the edges. It is done in place and takes no memory where there is one
/// list, or where the lists are short beside the vertices; else in a piece for each list, with a copy of the labels. Each piece
/// reaches the gate before its work. The only error is want of memory.
pub fn labels<T: Threads + Sync, R: Rows + Sync, G: Gate + Sync>(
    rt: &T,
    alloc: Global,
    rows: &R,
    workers: u32,
    gate: &G,
) -> Result<Vec<u32>, AllocError>
where
    R::At: Send,
    requires vertices { length (R.rows rows.now) ≤ 4194304 }
    requires some { 1 ≤ workers }
    requires few { workers ≤ 16 }
    ensures { IfOk result (λ v. v.items ≡ labels (graph_of_rows (R.rows rows.now))) }
{
    let count = rows.count();
    let pieces = if count < FEW { 1 } else { workers };
    let edges = edges_in_pieces(rt, alloc, rows, pieces, gate)?;
    let mut labels = numbers_below(alloc, count)?;
    let mut sum = total(&labels);
    let mut changed = true;
    while changed {
        lower(rt, alloc, &edges, &mut labels, gate)?;
        let now = total(&labels);
        changed = now < sum;
        sum = now;
    }
    Ok(labels)
}

// The numbers below a bound, rising.
fn numbers_below(alloc: Global, count: u32) -> Result<Vec<u32>, AllocError>
    ensures { IfOk result (λ v. v.items ≡ range_with_len 0 count) }
{
    let mut numbers = Vec::with_capacity(alloc, count as usize)?;
    for v in 0..count {
        numbers.push(v)?;
    }
    Ok(numbers)
}
