//! Whether an answer has the distances, told by the answer alone.

ghost use Rattle.std.specs.Prelude.{◌≡◌, ◌+◌, ◌/◌, ◌^◌, ◌<◌, ◌≤◌, ◌↔◌, ◌||◌, ℕ, true, IsTrue, Some, length};
ghost use Rattle.std.specs.Bool.{OnTrue};
ghost use Rattle.std.specs.List.{list_all, list_any};
ghost use Rattle.lama_model.specs.Row.{edges_in, row_at};
ghost use Rattle.lama_model.specs.Distances.{reach_at, IsCertified};
ghost use Rattle.lama_paths.specs.Marks.{is_set};
ghost use Rattle.lama_paths.specs.Certificate.{holds_at, leads_at, row_holds, row_leads, leads_below, is_within, is_led};

use crate::marks::{clear, is_set, set, words};
use lama_model::{Reach, Rows};

// Sums of fewer weights of 64 bits than a graph has vertices are below this.
const SUM_END: u128 = 1 << 86;

/// Whether an answer for `source` meets the four conditions of the certificate, so that it has the distances: there is an
/// entry for each vertex and the source costs nothing, no cost is greater than that of a walk that meets each vertex once,
/// each vertex that is reached is reached from its parent, and no edge leads to a vertex more cheaply than the answer says.
///
/// It goes over the vertices and the edges once, and takes no memory but half a megabyte of the stack, a bit for each
/// vertex that a graph may have.
pub fn check<R: Rows>(rows: &R, source: u32, reach: &[Option<Reach>]) -> bool
    requires source { source < length (R.rows rows.now) }
    requires vertices { length (R.rows rows.now) ≤ 4194304 }
    requires edges { edges_in (R.rows rows.now) ≤ 33554432 }
    ensures { IsTrue result ↔ IsCertified (row_at (R.rows rows.now)) (length (R.rows rows.now)) source reach.now }
{
    let count = rows.count();
    if reach.len() != count as usize {
        return false;
    }
    if !costs_nothing(reach, source) {
        return false;
    }
    if !are_within(count, reach) {
        return false;
    }
    are_settled(rows, source, reach)
}

// The source costs nothing, and is its own parent.
fn costs_nothing(reach: &[Option<Reach>], source: u32) -> bool
    ensures { IsTrue result ↔ (reach_at reach.now source ≡ Some (record { sum = 0; hops = 0; parent = source })) }
{
    match entry(reach, source) {
        None => false,
        Some(r) => r.sum == 0 && r.hops == 0 && r.parent == source,
    }
}

// What is said of a vertex, or None behind the end.
#[inline(always)]
fn entry(reach: &[Option<Reach>], v: u32) -> Option<Reach>
    ensures value { result ≡ reach_at reach.now v }
{
    if (v as usize) < reach.len() {
        reach[v as usize]
    } else {
        None
    }
}

// No cost is too great.
fn are_within(count: u32, reach: &[Option<Reach>]) -> bool
    ensures { IsTrue result ↔ ((v : ℕ) → v < length reach.now → is_within count (reach_at reach.now v) ≡ true) }
{
    for v in 0..reach.len() {
        if let Some(r) = reach[v] {
            if r.hops >= count || r.sum >= SUM_END {
                return false;
            }
        }
    }
    true
}

// Each vertex that is reached is so from its parent, and no edge makes a vertex cheaper.
fn are_settled<R: Rows>(rows: &R, source: u32, reach: &[Option<Reach>]) -> bool
    requires vertices { length (R.rows rows.now) ≤ 4194304 }
    requires len { length reach.now ≡ length (R.rows rows.now) }
    requires within { (v : ℕ) → v < length reach.now → is_within (length (R.rows rows.now)) (reach_at reach.now v) ≡ true }
    ensures { IsTrue result ↔ (((u : ℕ) → u < length reach.now → row_holds (R.rows rows.now) reach.now u ≡ true)
        × ((v : ℕ) → v < length reach.now → (v ≡ source → ⊥) → (r : Reach) → reach_at reach.now v ≡ Some r → leads_below (R.rows rows.now) reach.now v (length reach.now) ≡ true)) }
{
    let mut words = words();
    clear(&mut words);
    rows_hold(rows, reach, &mut words) && are_led(source, reach, &words)
}

// No edge makes a vertex cheaper. Each vertex that an edge leads to from its parent is marked.
fn rows_hold<R: Rows>(rows: &R, reach: &[Option<Reach>], words: &mut [u64]) -> bool
    requires vertices { length (R.rows rows.now) ≤ 4194304 }
    requires len { length reach.now ≡ length (R.rows rows.now) }
    requires within { (v : ℕ) → v < length reach.now → is_within (length (R.rows rows.now)) (reach_at reach.now v) ≡ true }
    requires room { 65536 ≤ length words.old }
    ensures holds { IsTrue result ↔ ((u : ℕ) → u < length reach.now → row_holds (R.rows rows.now) reach.now u ≡ true) }
    ensures marks { OnTrue result ((v : ℕ) → is_set words.new v ≡ (is_set words.old v || leads_below (R.rows rows.now) reach.now v (length reach.now))) }
{
    for u in 0..rows.count() {
        if let Some(from) = reach[u as usize] {
            if !row_holds(rows, reach, u, &from, words) {
                return false;
            }
        }
    }
    true
}

// The same for the edges of one vertex.
fn row_holds<R: Rows>(
    rows: &R,
    reach: &[Option<Reach>],
    u: u32,
    from: &Reach,
    words: &mut [u64],
) -> bool
    requires within { u < length (R.rows rows.now) }
    requires few { length reach.now ≤ 4194304 }
    requires small { from.now.sum < 2 ^ 86 }
    requires short { from.now.hops < 4194304 }
    requires room { 65536 ≤ length words.old }
    ensures holds { result ≡ list_all (holds_at reach.now from.now) (row_at (R.rows rows.now) u) }
    ensures marks { OnTrue result ((v : ℕ) → is_set words.new v ≡ (is_set words.old v || list_any (leads_at reach.now u from.now v) (row_at (R.rows rows.now) u))) }
{
    let mut at = rows.start(u);
    while let Some((target, weight, rest)) = rows.next(at) {
        if !edge_holds(reach, u, from, target, weight, words) {
            return false;
        }
        at = rest;
    }
    true
}

// The same for one edge.
#[inline(always)]
fn edge_holds(
    reach: &[Option<Reach>],
    u: u32,
    from: &Reach,
    target: u32,
    weight: u64,
    words: &mut [u64],
) -> bool
    requires few { length reach.now ≤ 4194304 }
    requires small { from.now.sum < 2 ^ 86 }
    requires short { from.now.hops < 4194304 }
    requires room { 65536 ≤ length words.old }
    ensures holds { result ≡ holds_at reach.now from.now (target, weight) }
    ensures marks { (v : ℕ) → is_set words.new v ≡ (is_set words.old v || leads_at reach.now u from.now v (target, weight)) }
{
    match entry(reach, target) {
        None => false,
        Some(to) => {
            let sum = from.sum + u128::from(weight);
            let hops = from.hops + 1;
            if to.parent == u && to.sum == sum && to.hops == hops {
                set(words, target);
            }
            to.sum < sum || to.sum == sum && to.hops <= hops
        }
    }
}

// Each vertex but the source that is reached is marked.
fn are_led(source: u32, reach: &[Option<Reach>], words: &[u64]) -> bool
    requires few { length reach.now ≤ 4194304 }
    requires room { 65536 ≤ length words.now }
    ensures { IsTrue result ↔ ((v : ℕ) → v < length reach.now → is_led source reach.now words.now v ≡ true) }
{
    for v in 0..reach.len() {
        if v != source as usize && reach[v].is_some() && !is_set(words, v as u32) {
            return false;
        }
    }
    true
}
