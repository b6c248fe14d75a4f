//! Levels, found from frontier to frontier.

ghost use Rattle.std.specs.Prelude.{◌≡◌, ◌<◌, ◌≤◌, IfOk, IfSome, OnOk, length};
ghost use Rattle.lama_model.specs.Row.{edges_in, graph_of_rows};
ghost use Rattle.lama_model.specs.Levels.{levels};
ghost use Rattle.lama_bfs.specs.Flat.{IsFlat};

use crate::flat::Flat;
use crate::frontier::Search;
use crate::kept::Kept;
use lama_base::Gate;
use lama_model::Rows;
use std::alloc::{AllocError, Global};
use std::thread::Threads;

/// The level of each vertex from `source`, by its number: the least number of edges of a walk to it, and None where no
/// walk leads to it. The source itself has level 0.
///
/// Breadth-first search: from one frontier, the vertices of a level, to the next. Each vertex is marked when it is found,
/// so the time is by the vertices of the graph and the edges that are reached. A large frontier is cut into a piece for
/// each worker, and a piece reaches the gate before its work; a small one, and every one where there is one worker, is
/// expanded by the caller. Where a frontier is a large part of the graph, the targets of all rows are first put into one
/// array, in a piece for each worker too, which costs all vertices and edges once, and four bytes for each. The only error
/// is want of memory.
pub fn levels<T: Threads + Sync, R: Rows + Sync, G: Gate + Sync>(
    rt: &T,
    alloc: Global,
    rows: &R,
    source: u32,
    workers: u32,
    gate: &G,
) -> Result<Vec<Option<u32>>, AllocError>
where
    R::At: Send,
    requires source { source < length (R.rows rows.now) }
    requires vertices { length (R.rows rows.now) ≤ 4194304 }
    requires edges { edges_in (R.rows rows.now) ≤ 33554432 }
    requires some { 1 ≤ workers }
    requires few { workers ≤ 16 }
    ensures { IfOk result (λ v. v.items ≡ levels (graph_of_rows (R.rows rows.now)) source) }
{
    let count = rows.count();
    let mut levels = vec![in alloc; None; count as usize]?;
    levels[source as usize] = Some(0);
    let mut seen = vec![in alloc; false; count as usize]?;
    seen[source as usize] = true;
    let mut next = Kept::new(alloc);
    next.put(source, true)?;
    let mut search = Search { seen, next };
    let mut frontier = Kept::new(alloc);
    let mut flat = None;
    let mut level = 0;
    while search.next.len() > 0 {
        level = search.follow(rows, source, level, &mut levels)? + 1;
        search.next_level(
            rt,
            alloc,
            rows,
            &mut flat,
            level,
            &mut frontier,
            &mut levels,
            workers,
            gate,
        )?;
    }
    Ok(levels)
}
