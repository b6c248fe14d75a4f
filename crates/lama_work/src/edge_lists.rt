//! The edges of rows as lists, made in pieces.

ghost use Rattle.std.specs.Prelude.{◌≡◌, ◌-◌, ◌≤◌, IfOk, drop, length, take};
ghost use Rattle.std.specs.List.{flat_map, range_with_len};
ghost use Rattle.lama_model.specs.Row.{edges_from};

use crate::pieces::map_pieces;
use lama_base::Gate;
use lama_model::{Rows, edges_between};
use std::alloc::{AllocError, Global};
use std::thread::Threads;

/// All edges, each as source and target, in a list for each piece of the vertices that they leave: in each the sources rise,
/// and the edges of one stand in the order of its row. It takes eight bytes for each edge, and costs the vertices and edges.
///
/// The lists are made beside each other, each at the gate before its work. One worker makes no thread. The only error is
/// want of memory.
pub fn edges_in_pieces<T: Threads + Sync, R: Rows + Sync, G: Gate + Sync>(
    rt: &T,
    alloc: Global,
    rows: &R,
    workers: u32,
    gate: &G,
) -> Result<Vec<Vec<(u32, u32)>>, AllocError>
where
    R::At: Send,
    requires some { 1 ≤ workers }
    requires few { workers ≤ 16 }
    ensures pieces { IfOk result (λ v. length v.items ≡ workers) }
    ensures edges { IfOk result (λ v. flat_map (λ piece. piece.items) v.items ≡ edges_from (R.rows rows.now) (range_with_len 0 (length (R.rows rows.now)))) }
{
    map_pieces(
        rt,
        alloc,
        rows.count(),
        workers,
        gate,
        &|_: u32, start: u32, end: u32| -> Result<Vec<(u32, u32)>, AllocError>
            requires { (start ≤ end) × (end ≤ length (R.rows rows.now)) }
            ensures { IfOk result (λ v. v.items ≡ edges_from (R.rows rows.entry.now) (take (end - start) (drop start (range_with_len 0 (length (R.rows rows.entry.now)))))) }
        { edges_between(alloc, rows, start, end) },
    )
}
