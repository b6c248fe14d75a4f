//! Ranks, found round by round.

ghost use Rattle.std.specs.Prelude.{◌≡◌, ◌+◌, ◌<◌, ◌≤◌, ◌++◌, [], ◌∷◌, IfOk, OnOk, length, map};
ghost use Rattle.std.specs.List.{flat_map};
ghost use Rattle.lama_model.specs.Row.{graph_of_rows};
ghost use Rattle.lama_model.specs.Ranks.{ranks};
ghost use Rattle.lama_rank.specs.Rounds.{share, edges_to, all_edges, AreByTarget};

use crate::blocks::edges_by_block;
use crate::round::{round, share};
use lama_base::Gate;
use lama_model::Rows;
use lama_work::FEW;
use std::alloc::{AllocError, Global};
use std::thread::Threads;

// How many blocks the vertices make where they are not few. Of 500,000 vertices, the sums of a block take 250 kB.
const BLOCKS: u32 = 16;

/// The PageRank of each vertex, by its number, after so many rounds, in whole numbers (after Page, Brin, Motwani and
/// Winograd, The PageRank Citation Ranking: Bringing Order to the Web, 1999, with a damping factor of 85 hundredths).
/// At first each vertex has 1,000,000. In a round each vertex divides its rank, rounded down, among its out-edges, and then
/// has 150,000 and 85 hundredths, rounded down, of what was handed to it. One without out-edges hands on nothing.
///
/// The edges are put into lists first, of eight bytes for each, by the block of the vertices that they lead to: sixteen blocks,
/// or one where there are few vertices. So a round costs the vertices and the edges, and what it adds to stays near the
/// processor. A round takes memory for the ranks alone, and gives back what the one before took. There is a piece for each
/// worker, or one where there are few vertices; each reaches the gate before its work. The only error is want of memory.
pub fn rank<T: Threads + Sync, R: Rows + Sync, G: Gate + Sync>(
    rt: &T,
    alloc: Global,
    rows: &R,
    rounds: u32,
    workers: u32,
    gate: &G,
) -> Result<Vec<u64>, AllocError>
where
    R::At: Send,
    requires vertices { length (R.rows rows.now) ≤ 4194304 }
    requires some { 1 ≤ workers }
    requires few { workers ≤ 16 }
    ensures { IfOk result (λ v. v.items ≡ ranks (graph_of_rows (R.rows rows.now)) rounds) }
{
    let count = rows.count();
    if rounds == 0 {
        return Ok(vec![in alloc; 1_000_000; count as usize]?);
    }
    let blocks = if count < FEW { 1 } else { BLOCKS };
    let pieces = if count < FEW { 1 } else { workers };
    let degrees = degrees_of(alloc, rows)?;
    let parts = edges_by_block(rt, alloc, rows, blocks, pieces, gate)?;
    let mut shares = first_shares(alloc, &degrees)?;
    let mut left = rounds - 1;
    while left > 0 {
        shares = round(
            rt, alloc, rows, &parts, blocks, pieces, &shares, &degrees, false, gate,
        )?;
        left -= 1;
    }
    round(
        rt, alloc, rows, &parts, blocks, pieces, &shares, &degrees, true, gate,
    )
}

// The out-degree of each vertex.
fn degrees_of<R: Rows>(alloc: Global, rows: &R) -> Result<Vec<u32>, AllocError>
    ensures { IfOk result (λ v. v.items ≡ map (λ r. length r) (R.rows rows.now)) }
{
    let count = rows.count();
    let mut degrees = Vec::with_capacity(alloc, count as usize)?;
    for v in 0..count {
        degrees.push(rows.degree(v))?;
    }
    Ok(degrees)
}

// What each vertex hands on at first along each of its edges.
fn first_shares(alloc: Global, degrees: &[u32]) -> Result<Vec<u64>, AllocError>
    ensures { IfOk result (λ v. v.items ≡ map (λ d. share d 1000000) degrees.now) }
{
    let mut shares = Vec::with_capacity(alloc, degrees.len())?;
    for &degree in degrees {
        shares.push(share(degree, 1_000_000))?;
    }
    Ok(shares)
}
