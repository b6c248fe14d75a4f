// A round in which labels are lowered.
//
// The edges are put into lists first, one for each piece of the vertices, so that no round walks the rows again. A round
// is done in place where there is one list, or where there are few edges. Else each list is done in a copy of the labels,
// and then the lower one of what the copies have is taken for each vertex.
ghost use Rattle.std.specs.Prelude.{◌≡◌, ◌<◌, ◌-◌, ◌≤◌, ℕ, List, All, IfOk, OnOk, drop, length, map, slice_index, slice_index_or, sum, take};
ghost use Rattle.std.specs.List.{flat_map, range_with_len};
ghost use Rattle.lama_model.specs.Graph.{Graph};
ghost use Rattle.lama_model.specs.Row.{edges_from};
ghost use Rattle.lama_label.specs.Lowering.{second, take_all, take_own, offered, AreLow, AreEdgesOf, AreSettled, IsLowered};
ghost use Rattle.lama_label.specs.Lowering as seen;

use lama_base::Gate;
use lama_work::map_pieces;
use std::alloc::{AllocError, Global};
use std::thread::Threads;

// The label of a vertex that is there, and else 0.
#[inline(always)]
fn label_of(labels: &[u32], v: u32) -> u32
    ensures { result ≡ slice_index labels.now v }
{
    match labels.get(v as usize) {
        Some(&label) => label,
        None => 0,
    }
}

// The label of the label of a vertex.
#[inline(always)]
fn second(labels: &[u32], v: u32) -> u32
    ensures { result ≡ second labels.now v }
{
    label_of(labels, label_of(labels, v))
}

// Takes an offer, where it is lower than the label of its vertex. It writes in any case: which offers are lower follows no
// pattern, so a branch would be foreseen wrong.
#[inline(always)]
fn take_one(labels: &mut [u32], v: u32, label: u32)
    ensures { labels.new ≡ seen.take_one (v, label) labels.old }
{
    if (v as usize) < labels.len() {
        labels[v as usize] = label.min(labels[v as usize]);
    }
}

// Takes the offers of an edge. There is nothing to take where both ends have one label that is its own.
#[inline(always)]
fn take_edge(labels: &mut [u32], u: u32, v: u32)
    ensures { labels.new ≡ seen.take_edge u v labels.old }
{
    let first = label_of(labels, u);
    let other = label_of(labels, v);
    let second = label_of(labels, first);
    if first == other && first == second {
        return;
    }
    let low = second.min(label_of(labels, other));
    take_one(labels, u, low);
    take_one(labels, first, low);
    take_one(labels, v, low);
    take_one(labels, other, low);
}

// Takes the offers of these edges, one edge after another.
fn take_edges(labels: &mut [u32], edges: &[(u32, u32)])
    ensures { labels.new ≡ seen.take_edges edges.now labels.old }
{
    for &(u, v) in edges {
        take_edge(labels, u, v);
    }
}

// Takes the offers of these lists of edges, one list after another.
fn take_lists(labels: &mut [u32], lists: &[Vec<(u32, u32)>])
    ensures { labels.new ≡ seen.take_edges (flat_map (λ list. list.items) lists.now) labels.old }
{
    for list in lists {
        take_edges(labels, list);
    }
}

// Whether a list has so many edges that a copy of the labels of so many vertices, and what is seen later in copies, cost less
// than doing the lists one after another.
fn are_many(lists: &[Vec<(u32, u32)>], vertices: usize) -> bool
    requires { 0 < length lists.now }
{
    lists[0].len() / 2 >= vertices
}

// Gives each vertex the label of its label, in rising order. A label is no greater than its vertex, so it got its own last
// label before, and one time is enough.
fn shorten(labels: &mut [u32])
    requires { length labels.old ≤ 4194304 }
    ensures { labels.new ≡ take_own (range_with_len 0 (length labels.old)) labels.old }
{
    for v in 0..labels.len() as u32 {
        let label = second(labels, v);
        take_one(labels, v, label);
    }
}

// The labels after these edges, as a copy.
fn lowered_copy(alloc: Global, labels: &[u32], edges: &[(u32, u32)]) -> Result<Vec<u32>, AllocError>
    ensures { IfOk result (λ v. v.items ≡ seen.take_edges edges.now labels.now) }
{
    let mut copy = Vec::from_slice(alloc, labels)?;
    take_edges(&mut copy, edges);
    Ok(copy)
}

// Takes each label of the copy, where it is lower than that of its vertex.
fn take_copy(labels: &mut [u32], copy: &[u32])
    requires { length copy.now < 4294967296 }
    ensures { labels.new ≡ take_all (offered 0 copy.now) labels.old }
{
    for v in 0..copy.len() {
        take_one(labels, v as u32, copy[v]);
    }
}

// Takes those of each of these copies.
fn take_copies(labels: &mut [u32], copies: &[Vec<u32>])
    requires { All (λ copy. length copy.items < 4294967296) copies.now }
    ensures { labels.new ≡ take_all (flat_map (λ copy. offered 0 copy.items) copies.now) labels.old }
{
    for copy in copies {
        take_copy(labels, copy);
    }
}

// The labels after each of these lists of edges, each as a copy.
fn copies_of<T: Threads + Sync, G: Gate + Sync>(
    rt: &T,
    alloc: Global,
    edges: &[Vec<(u32, u32)>],
    labels: &[u32],
    gate: &G,
) -> Result<Vec<Vec<u32>>, AllocError>
    requires some { 1 ≤ length edges.now }
    requires few { length edges.now ≤ 16 }
    ensures { IfOk result (λ v. map (λ copy. copy.items) v.items ≡ map (λ piece. seen.take_edges piece.items labels.now) edges.now) }
{
    let pieces = edges.len() as u32;
    map_pieces(
        rt,
        alloc,
        pieces,
        pieces,
        gate,
        &|i: u32, _: u32, _: u32| -> Result<Vec<u32>, AllocError>
            requires { i < length edges.now }
            ensures { IfOk result (λ v. (d : List (ℕ × ℕ)) → v.items ≡ seen.take_edges (slice_index_or (map (λ piece. piece.items) edges.entry.now) i d) labels.entry.now) }
        { lowered_copy(alloc, labels, &edges[i as usize]) },
    )
}

// A round: the labels are lower afterwards, or no edge offers a lower one.
pub(crate) fn lower<T: Threads + Sync, G: Gate + Sync>(
    rt: &T,
    alloc: Global,
    edges: &[Vec<(u32, u32)>],
    labels: &mut [u32],
    gate: &G,
) -> Result<(), AllocError>
    requires some { 1 ≤ length edges.now }
    requires few { length edges.now ≤ 16 }
    requires small { length labels.old ≤ 4194304 }
    ensures low { OnOk result ((g : Graph) → AreLow g labels.old → AreEdgesOf g (flat_map (λ piece. piece.items) edges.now) → AreLow g labels.new) }
    ensures lowered { OnOk result (IsLowered labels.old labels.new (AreSettled (flat_map (λ piece. piece.items) edges.now) labels.old)) }
{
    lower_ends(rt, alloc, edges, labels, gate)?;
    shorten(labels);
    Ok(())
}

// Takes what the edges offer, in place or, where there are many of them, in pieces.
fn lower_ends<T: Threads + Sync, G: Gate + Sync>(
    rt: &T,
    alloc: Global,
    edges: &[Vec<(u32, u32)>],
    labels: &mut [u32],
    gate: &G,
) -> Result<(), AllocError>
    requires some { 1 ≤ length edges.now }
    requires few { length edges.now ≤ 16 }
    requires small { length labels.old ≤ 4194304 }
    ensures len { OnOk result (length labels.new ≡ length labels.old) }
    ensures low { OnOk result ((g : Graph) → AreLow g labels.old → AreEdgesOf g (flat_map (λ piece. piece.items) edges.now) → AreLow g labels.new) }
    ensures lowered { OnOk result (IsLowered labels.old labels.new (AreSettled (flat_map (λ piece. piece.items) edges.now) labels.old)) }
{
    if edges.len() == 1 || !are_many(edges, labels.len()) {
        take_lists(labels, edges);
        return Ok(());
    }
    let copies = copies_of(rt, alloc, edges, labels, gate)?;
    take_copies(labels, &copies);
    Ok(())
}

// The sum of the labels.
pub(crate) fn total(labels: &[u32]) -> u64
    requires { length labels.now ≤ 4194304 }
    ensures { result ≡ sum labels.now }
{
    let mut total = 0;
    for &label in labels {
        total += u64::from(label);
    }
    total
}
