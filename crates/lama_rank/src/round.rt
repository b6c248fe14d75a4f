// A round of ranks.
//
// Each piece has some blocks of the vertices, and of each the edges to it, as source and target. It adds up what they hand on,
// and answers what the round leaves of its vertices: their ranks, or, where another round follows, what each hands on along
// each of its edges.
ghost use Rattle.std.specs.Prelude.{◌≡◌, ℕ, ◌+◌, ◌-◌, ◌*◌, ◌/◌, ◌<◌, ◌≤◌, ◌^◌, ◌++◌, All, IfOk, List, OnOk, drop, length, map, slice_index, slice_index_or, take};
ghost use Rattle.std.specs.List.{flat_map, range_with_len};
ghost use Rattle.lama_model.specs.Ranks.{rank_of_sum};
ghost use Rattle.lama_rank.specs.Rounds.{handed, share, left_of, all_edges, after_block, after_round, blocks_of, edges_of_block, AreInPiece, AreByTarget};
ghost use Rattle.lama_work.specs.Pieces.{piece_start};
ghost use Rattle.lama_model.specs.Row.{AreTargetsBelow};

use lama_base::Gate;
use lama_model::Rows;
use lama_work::{cut, map_pieces};
use std::alloc::{AllocError, Global};
use std::thread::Threads;

// What a vertex of this rank hands on along each of so many edges.
#[inline(always)]
pub(crate) fn share(degree: u32, rank: u64) -> u64
    ensures { result ≡ share degree rank }
{
    if degree == 0 {
        0
    } else {
        rank / u64::from(degree)
    }
}

// Adds the share of each edge's source to the sum of its target. The first of the sums is that of the vertex `start`.
fn add_shares(sums: &mut [u64], start: u32, edges: &[(u32, u32)], shares: &[u64])
    requires ends { All (λ e. (e.0 < length shares.now) × (start ≤ e.1) × (e.1 < start + length sums.old)) edges.now }
    requires fits { (i : ℕ) → i < length sums.old → slice_index sums.old i + handed shares.now edges.now (start + i) < 2 ^ 64 }
    ensures each { (i : ℕ) → i < length sums.new → slice_index sums.new i ≡ slice_index sums.old i + handed shares.now edges.now (start + i) }
{
    for &(u, v) in edges {
        sums[(v - start) as usize] += shares[u as usize];
    }
}

// Puts what a round leaves of each vertex in place of what was handed to it.
fn end_round(sums: &mut [u64], start: u32, degrees: &[u32], last: bool)
    requires few { All (λ s. s ≤ 4194304000000) sums.old }
    requires within { start + length sums.old ≤ length degrees.now }
    ensures each { (i : ℕ) → i < length sums.new → slice_index sums.new i ≡ left_of last (slice_index degrees.now (start + i)) (rank_of_sum (slice_index sums.old i)) }
{
    for i in 0..sums.len() {
        let rank = 150_000 + 85 * sums[i] / 100;
        sums[i] = if last {
            rank
        } else {
            share(degrees[start as usize + i], rank)
        };
    }
}

// Adds the shares of the edges of block `k` in each of the parts.
fn add_parts(sums: &mut [u64], start: u32, k: u32, parts: &[Vec<Vec<(u32, u32)>>], shares: &[u64])
    requires lists { All (λ part. k < length part.items) parts.now }
    requires ends { All (λ e. (e.0 < length shares.now) × (start ≤ e.1) × (e.1 < start + length sums.old)) (edges_of_block (map (λ part. map (λ list. list.items) part.items) parts.now) k) }
    requires fits { (i : ℕ) → i < length sums.old → slice_index sums.old i + handed shares.now (edges_of_block (map (λ part. map (λ list. list.items) part.items) parts.now) k) (start + i) < 2 ^ 64 }
    ensures each { (i : ℕ) → i < length sums.new → slice_index sums.new i ≡ slice_index sums.old i + handed shares.now (edges_of_block (map (λ part. map (λ list. list.items) part.items) parts.now) k) (start + i) }
{
    for part in parts {
        add_shares(sums, start, &part[k as usize], shares);
    }
}

// What a round leaves of the vertices of block `k`, which are those from `start` to before `end`.
fn round_of_block(
    alloc: Global,
    start: u32,
    end: u32,
    k: u32,
    parts: &[Vec<Vec<(u32, u32)>>],
    shares: &[u64],
    degrees: &[u32],
    last: bool,
) -> Result<Vec<u64>, AllocError>
    requires order { start ≤ end }
    requires within { end ≤ length degrees.now }
    requires lists { All (λ part. k < length part.items) parts.now }
    requires block { AreInPiece (length shares.now) start end shares.now (edges_of_block (map (λ part. map (λ list. list.items) part.items) parts.now) k) }
    ensures { IfOk result (λ v. v.items ≡ after_round last degrees.now shares.now (edges_of_block (map (λ part. map (λ list. list.items) part.items) parts.now) k) (range_with_len start (end - start))) }
{
    let mut sums = vec![in alloc; 0; (end - start) as usize]?;
    add_parts(&mut sums, start, k, parts, shares);
    end_round(&mut sums, start, degrees, last);
    Ok(sums)
}

// What a round leaves of the vertices of the blocks from `first` to before `end`, a list for each.
fn round_of_blocks(
    alloc: Global,
    first: u32,
    end: u32,
    parts: &[Vec<Vec<(u32, u32)>>],
    blocks: u32,
    shares: &[u64],
    degrees: &[u32],
    last: bool,
) -> Result<Vec<Vec<u64>>, AllocError>
    requires some { 1 ≤ blocks }
    requires few { blocks ≤ 16 }
    requires room { length degrees.now < 2 ^ 32 }
    requires order { first ≤ end }
    requires within { end ≤ blocks }
    requires lists { All (λ part. length part.items ≡ blocks) parts.now }
    requires blocks { (k : ℕ) (d : List (ℕ × ℕ)) → k < blocks →
        AreInPiece (length shares.now) (piece_start (length degrees.now) blocks k) (piece_start (length degrees.now) blocks (k + 1)) shares.now (slice_index_or (blocks_of blocks (map (λ part. map (λ list. list.items) part.items) parts.now)) k d) }
    ensures { IfOk result (λ v. map (λ block. block.items) v.items ≡ map (after_block last degrees.now shares.now (blocks_of blocks (map (λ part. map (λ list. list.items) part.items) parts.now))) (take (end - first) (drop first (range_with_len 0 blocks)))) }
{
    let mut all = Vec::with_capacity(alloc, (end - first) as usize)?;
    for k in first..end {
        let (start, end) = cut(degrees.len() as u32, blocks, k);
        all.push(round_of_block(alloc, start, end, k, parts, shares, degrees, last)?)?;
    }
    Ok(all)
}

// What a round leaves of all vertices, in a piece of the blocks for each worker. The rows are there for the contract alone.
pub(crate) fn round<T: Threads + Sync, R: Rows, G: Gate + Sync>(
    rt: &T,
    alloc: Global,
    rows: &R,
    parts: &[Vec<Vec<(u32, u32)>>],
    blocks: u32,
    workers: u32,
    shares: &[u64],
    degrees: &[u32],
    last: bool,
    gate: &G,
) -> Result<Vec<u64>, AllocError>
    requires vertices { length (R.rows rows.now) ≤ 4194304 }
    requires any { 1 ≤ blocks }
    requires blocks { blocks ≤ 16 }
    requires some { 1 ≤ workers }
    requires workers { workers ≤ 16 }
    requires parts { All (λ part. length part.items ≡ blocks) parts.now }
    requires lists { AreByTarget (R.rows rows.now) (blocks_of blocks (map (λ part. map (λ list. list.items) part.items) parts.now)) }
    requires below { AreTargetsBelow (length (R.rows rows.now)) (R.rows rows.now) }
    requires shares { length shares.now ≡ length (R.rows rows.now) }
    requires degrees { length degrees.now ≡ length (R.rows rows.now) }
    requires few { (v : ℕ) → v < length (R.rows rows.now) → handed shares.now (all_edges (R.rows rows.now)) v ≤ 4194304000000 }
    ensures { IfOk result (λ v. v.items ≡ after_round last degrees.now shares.now (all_edges (R.rows rows.now)) (range_with_len 0 (length (R.rows rows.now)))) }
{
    let pieces = pieces_of_round(
        rt, alloc, parts, blocks, workers, shares, degrees, last, gate,
    )?;
    joined(alloc, &pieces, degrees.len())
}

// The same, a list for each block, in a list for each piece.
fn pieces_of_round<T: Threads + Sync, G: Gate + Sync>(
    rt: &T,
    alloc: Global,
    parts: &[Vec<Vec<(u32, u32)>>],
    blocks: u32,
    workers: u32,
    shares: &[u64],
    degrees: &[u32],
    last: bool,
    gate: &G,
) -> Result<Vec<Vec<Vec<u64>>>, AllocError>
    requires any { 1 ≤ blocks }
    requires blocks { blocks ≤ 16 }
    requires some { 1 ≤ workers }
    requires few { workers ≤ 16 }
    requires room { length degrees.now < 2 ^ 32 }
    requires lists { All (λ part. length part.items ≡ blocks) parts.now }
    requires pieces { (k : ℕ) (d : List (ℕ × ℕ)) → k < blocks →
        AreInPiece (length shares.now) (piece_start (length degrees.now) blocks k) (piece_start (length degrees.now) blocks (k + 1)) shares.now (slice_index_or (blocks_of blocks (map (λ part. map (λ list. list.items) part.items) parts.now)) k d) }
    ensures { IfOk result (λ v. flat_map (λ piece. map (λ block. block.items) piece.items) v.items ≡ map (after_block last degrees.now shares.now (blocks_of blocks (map (λ part. map (λ list. list.items) part.items) parts.now))) (range_with_len 0 blocks)) }
{
    map_pieces(
        rt,
        alloc,
        blocks,
        workers,
        gate,
        &|_: u32, first: u32, end: u32| -> Result<Vec<Vec<u64>>, AllocError>
            requires { (1 ≤ blocks) × (blocks ≤ 16) × (length degrees.now < 2 ^ 32) × (first ≤ end) × (end ≤ blocks) × All (λ part. length part.items ≡ blocks) parts.now × ((k : ℕ) (d : List (ℕ × ℕ)) → k < blocks →
                AreInPiece (length shares.now) (piece_start (length degrees.now) blocks k) (piece_start (length degrees.now) blocks (k + 1)) shares.now (slice_index_or (blocks_of blocks (map (λ part. map (λ list. list.items) part.items) parts.now)) k d)) }
            ensures { IfOk result (λ v. map (λ block. block.items) v.items ≡ map (after_block last degrees.entry.now shares.entry.now (blocks_of blocks (map (λ part. map (λ list. list.items) part.items) parts.entry.now))) (take (end - first) (drop first (range_with_len 0 blocks)))) }
        { round_of_blocks(alloc, first, end, parts, blocks, shares, degrees, last) },
    )
}

// The lists of all pieces one after another.
fn joined(alloc: Global, pieces: &[Vec<Vec<u64>>], count: usize) -> Result<Vec<u64>, AllocError>
    ensures { IfOk result (λ v. v.items ≡ flat_map (λ piece. flat_map (λ block. block.items) piece.items) pieces.now) }
{
    let mut all = Vec::with_capacity(alloc, count)?;
    for piece in pieces {
        push_blocks(piece, &mut all)?;
    }
    Ok(all)
}

// Puts these lists at the end, one after another.
fn push_blocks(blocks: &[Vec<u64>], all: &mut Vec<u64>) -> Result<(), AllocError>
    ensures { OnOk result (all.new.items ≡ all.old.items ++ flat_map (λ block. block.items) blocks.now) }
{
    for block in blocks {
        all.extend_from_slice(block)?;
    }
    Ok(())
}
