//! Distances, found from the nearest vertex to the farthest.

ghost use Rattle.std.specs.Prelude.{◌≡◌, ◌+◌, ◌*◌, ◌<◌, ◌≤◌, ◌^◌, ◌∷◌, ℕ, List, IfOk, IfErr, OnOk, length, slice_set, Some, IsPermutation};
ghost use Rattle.std.specs.Bool.{OnTrue, OnFalse};
ghost use Rattle.std.specs.BinaryHeap.{heap_items, IsHeap};
ghost use Rattle.lama_model.specs.Row.{edges_in, graph_of_rows, row_at};
ghost use Rattle.lama_model.specs.Distances.{cost_of, distances, IsCertified, IsNoMore};
ghost use Rattle.lama_paths.specs.Search.{offer, work, tell, told, bids, IsCause, IsBetween, IsTaken, IsAt};

use crate::sums::Sum;
use lama_model::{Reach, Rows};
use std::alloc::{AllocError, Global};
use std::cmp::Reverse;
use std::collections::BinaryHeap;

/// How each vertex is reached from `source`: by the least sum of weights of a walk to it, of such walks by the fewest edges,
/// and from the least vertex that is the last but one on such a walk; or None, where no walk leads there.
///
/// Dijkstra's search: the vertex that costs least of those that wait is settled, and each of its edges may make its target
/// cheaper. A vertex waits in a heap as often as it became cheaper, and is settled at the first of these, so the time is
/// by the edges and vertices that are reached times the logarithm of the edges. The only error is want of memory.
pub fn distances<R: Rows>(
    alloc: Global,
    rows: &R,
    source: u32,
) -> Result<Vec<Option<Reach>>, AllocError>
    requires source { source < length (R.rows rows.now) }
    requires vertices { length (R.rows rows.now) ≤ 4194304 }
    requires edges { edges_in (R.rows rows.now) ≤ 33554432 }
    ensures found { IfOk result (λ v. v.items ≡ distances (graph_of_rows (R.rows rows.now)) source) }
    ensures certified { IfOk result (λ v. IsCertified (row_at (R.rows rows.now)) (length (R.rows rows.now)) source v.items) }
{
    match search_by::<u64, R>(alloc, rows, source) {
        Ok(found) => Ok(found),
        Err(Stop::NoMemory) => Err(AllocError),
        Err(Stop::TooGreat) => match search_by::<u128, R>(alloc, rows, source) {
            Ok(found) => Ok(found),
            Err(Stop::NoMemory) => Err(AllocError),
            // A sum has at most 86 bits.
            Err(Stop::TooGreat) => unreachable!(),
        },
    }
}

/// Why a search does not end.
#[derive(Drop)]
pub(crate) enum Stop {
    NoMemory,
    // A sum is greater than its type has room for.
    TooGreat,
}

impl From<AllocError> for Stop {
    ghost use Rattle.lama_paths.specs.declared.search.Stop.TheVariants.{NoMemory};

    ghost from_gives = { λ e stop. stop ≡ NoMemory };

    fn from(_: AllocError) -> Stop {
        Stop::NoMemory
    }
}

/// The same, with sums of such a type.
fn search_by<S: Sum, R: Rows>(
    alloc: Global,
    rows: &R,
    source: u32,
) -> Result<Vec<Option<Reach>>, Stop>
    requires source { source < length (R.rows rows.now) }
    requires vertices { length (R.rows rows.now) ≤ 4194304 }
    requires edges { edges_in (R.rows rows.now) ≤ 33554432 }
    ensures found { IfOk result (λ v. v.items ≡ distances (graph_of_rows (R.rows rows.now)) source) }
    ensures certified { IfOk result (λ v. IsCertified (row_at (R.rows rows.now)) (length (R.rows rows.now)) source v.items) }
    ensures too_great { IfErr result (IsCause S.most) }
{
    let mut search: Search<S> = Search::start(alloc, rows.count(), source)?;
    while let Some(Reverse(nearest)) = search.offers.pop() {
        search.settle(rows, nearest.vertex)?;
    }
    Ok(search.finish(alloc)?)
}

/// A walk that leads to a vertex at this cost.
#[derive(Clone, Copy, PartialEq, Eq, PartialOrd, Ord)]
pub(crate) struct Offer<S> {
    pub sum: S,
    pub hops: u32,
    pub vertex: u32,
}

/// How a vertex is reached.
#[derive(Clone, Copy)]
pub(crate) struct Step<S> {
    pub sum: S,
    pub hops: u32,
    pub parent: u32,
}

// What was found so far.
#[derive(Drop)]
pub(crate) struct Search<S: Sum> {
    // How each vertex is reached by the walks that were found.
    pub reach: Vec<Option<Step<S>>>,
    // Which vertices are reached by no cheaper walk any more.
    pub settled: Vec<bool>,
    // The cheapest one comes first. An offer that has become too dear stays until it is taken.
    pub offers: BinaryHeap<Reverse<Offer<S>>>,
}

impl<S: Sum> Search<S> {
    // Only the source is reached.
    fn start(alloc: Global, count: u32, source: u32) -> Result<Search<S>, AllocError>
        requires within { source < count }
        ensures between { IfOk result (λ x. (rows : List (List (ℕ × ℕ))) → length rows ≡ count → IsBetween rows source (told S.value x.reach.items) x.settled.items (bids S.value (heap_items x.offers))) }
        ensures heap { IfOk result (λ x. IsHeap ⟦<Reverse<Offer<S>> as Ord>⟧.cmp (heap_items x.offers)) }
    {
        let mut reach = vec![in alloc; None; count as usize]?;
        reach[source as usize] = Some(Step {
            sum: S::zero(),
            hops: 0,
            parent: source,
        });
        let settled = vec![in alloc; false; count as usize]?;
        let mut offers = BinaryHeap::new(alloc);
        offers.push(Reverse(Offer {
            sum: S::zero(),
            hops: 0,
            vertex: source,
        }))?;
        Ok(Search {
            reach,
            settled,
            offers,
        })
    }

    // How each vertex is reached.
    fn finish(self, alloc: Global) -> Result<Vec<Option<Reach>>, AllocError>
        ensures { IfOk result (λ v. v.items ≡ told S.value self.reach.items) }
    {
        let mut reach = Vec::with_capacity(alloc, self.reach.len())?;
        for step in &self.reach {
            let told = match step {
                None => None,
                Some(step) => Some(Reach {
                    sum: step.sum.wide(),
                    hops: step.hops,
                    parent: step.parent,
                }),
            };
            reach.push(told)?;
        }
        Ok(reach)
    }

    // Settles the vertex of the offer that was taken, unless it is settled already.
    fn settle<R: Rows>(&mut self, rows: &R, u: u32) -> Result<(), Stop>
        requires taken { (s : ℕ) × IsTaken (R.rows rows.now) s u (told S.value self.old.reach.items) self.old.settled.items (bids S.value (heap_items self.old.offers)) }
        requires heap { IsHeap ⟦<Reverse<Offer<S>> as Ord>⟧.cmp (heap_items self.old.offers) }
        requires vertices { length (R.rows rows.now) ≤ 4194304 }
        ensures between { OnOk result ((s : ℕ) → IsTaken (R.rows rows.now) s u (told S.value self.old.reach.items) self.old.settled.items (bids S.value (heap_items self.old.offers)) → IsBetween (R.rows rows.now) s (told S.value self.new.reach.items) self.new.settled.items (bids S.value (heap_items self.new.offers))) }
        ensures heap { OnOk result (IsHeap ⟦<Reverse<Offer<S>> as Ord>⟧.cmp (heap_items self.new.offers)) }
        ensures less { OnOk result (work (R.rows rows.now) self.new.settled.items (bids S.value (heap_items self.new.offers)) ≤ work (R.rows rows.now) self.old.settled.items (bids S.value (heap_items self.old.offers))) }
        ensures err { IfErr result (IsCause S.most) }
    {
        if self.settled[u as usize] {
            return Ok(());
        }
        match self.reach[u as usize] {
            None => Ok(()),
            Some(from) => {
                self.settled[u as usize] = true;
                self.relax_row(rows, u, &from)
            }
        }
    }

    // Takes each edge of a vertex that was just settled.
    fn relax_row<R: Rows>(&mut self, rows: &R, u: u32, from: &Step<S>) -> Result<(), Stop>
        requires at { (s : ℕ) × IsAt (R.rows rows.now) s u (tell S.value from.now) (row_at (R.rows rows.now) u) (told S.value self.old.reach.items) self.old.settled.items (bids S.value (heap_items self.old.offers)) }
        requires heap { IsHeap ⟦<Reverse<Offer<S>> as Ord>⟧.cmp (heap_items self.old.offers) }
        requires inside { u < length (R.rows rows.now) }
        requires vertices { length (R.rows rows.now) ≤ 4194304 }
        ensures between { OnOk result ((s : ℕ) → IsAt (R.rows rows.now) s u (tell S.value from.now) (row_at (R.rows rows.now) u) (told S.value self.old.reach.items) self.old.settled.items (bids S.value (heap_items self.old.offers)) → IsBetween (R.rows rows.now) s (told S.value self.new.reach.items) self.new.settled.items (bids S.value (heap_items self.new.offers))) }
        ensures heap { OnOk result (IsHeap ⟦<Reverse<Offer<S>> as Ord>⟧.cmp (heap_items self.new.offers)) }
        ensures same { OnOk result (self.new.settled.items ≡ self.old.settled.items) }
        ensures few { OnOk result (length (bids S.value (heap_items self.new.offers)) ≤ length (bids S.value (heap_items self.old.offers)) + length (row_at (R.rows rows.now) u)) }
        ensures err { IfErr result (IsCause S.most) }
    {
        let _count = rows.count();
        let mut at = rows.start(u);
        while let Some((v, weight, rest)) = rows.next(at) {
            self.relax(u, from, v, weight)?;
            at = rest;
        }
        Ok(())
    }

    // Takes an edge from `u`, which was just settled, to `v`.
    #[inline(always)]
    fn relax(&mut self, u: u32, from: &Step<S>, v: u32, weight: u64) -> Result<(), Stop>
        requires inside { v < length self.old.reach.items }
        requires short { from.now.hops < 4194304 }
        requires small { S.value from.now.sum ≤ from.now.hops * 18446744073709551615 }
        requires heap { IsHeap ⟦<Reverse<Offer<S>> as Ord>⟧.cmp (heap_items self.old.offers) }
        ensures at { OnOk result ((rows : List (List (ℕ × ℕ))) (s : ℕ) (edges : List (ℕ × ℕ)) → IsAt rows s u (tell S.value from.now) ((v, weight) ∷ edges) (told S.value self.old.reach.items) self.old.settled.items (bids S.value (heap_items self.old.offers)) → IsAt rows s u (tell S.value from.now) edges (told S.value self.new.reach.items) self.new.settled.items (bids S.value (heap_items self.new.offers))) }
        ensures heap { OnOk result (IsHeap ⟦<Reverse<Offer<S>> as Ord>⟧.cmp (heap_items self.new.offers)) }
        ensures same { self.new.settled.items ≡ self.old.settled.items }
        ensures len { length self.new.reach.items ≡ length self.old.reach.items }
        ensures few { OnOk result (length (bids S.value (heap_items self.new.offers)) ≤ length (bids S.value (heap_items self.old.offers)) + 1) }
        ensures err { IfErr result (IsCause S.most) }
    {
        let sum = match from.sum.plus(weight) {
            Some(sum) => sum,
            None => return Err(Stop::TooGreat),
        };
        let found = Step {
            sum,
            hops: from.hops + 1,
            parent: u,
        };
        match self.reach[v as usize] {
            None => {
                self.offer(v, found)?;
                Ok(())
            }
            Some(known) => {
                if found.costs_less(&known) {
                    self.offer(v, found)?;
                    return Ok(());
                }
                if known.costs_less(&found) {
                    return Ok(());
                }
                if known.parent <= u {
                    return Ok(());
                }
                self.reach[v as usize] = Some(found);
                Ok(())
            }
        }
    }

    // The vertex is reached more cheaply, and waits for being settled.
    #[inline(always)]
    fn offer(&mut self, v: u32, found: Step<S>) -> Result<(), AllocError>
        requires inside { v < length self.old.reach.items }
        requires heap { IsHeap ⟦<Reverse<Offer<S>> as Ord>⟧.cmp (heap_items self.old.offers) }
        ensures reach { self.new.reach.items ≡ slice_set self.old.reach.items v (Some found) }
        ensures same { self.new.settled.items ≡ self.old.settled.items }
        ensures heap { OnOk result (IsHeap ⟦<Reverse<Offer<S>> as Ord>⟧.cmp (heap_items self.new.offers)) }
        ensures offers { OnOk result (IsPermutation (offer (cost_of (tell S.value found)) v ∷ bids S.value (heap_items self.old.offers)) (bids S.value (heap_items self.new.offers))) }
    {
        self.reach[v as usize] = Some(found);
        self.offers.push(Reverse(Offer {
            sum: found.sum,
            hops: found.hops,
            vertex: v,
        }))?;
        Ok(())
    }
}

impl<S: Sum> Step<S> {
    // Whether it costs less than the other one.
    #[inline(always)]
    fn costs_less(&self, other: &Step<S>) -> bool
        ensures less { OnTrue result (IsNoMore (cost_of (tell S.value self.now)) (cost_of (tell S.value other.now)) × (IsNoMore (cost_of (tell S.value other.now)) (cost_of (tell S.value self.now)) → ⊥)) }
        ensures not_less { OnFalse result (IsNoMore (cost_of (tell S.value other.now)) (cost_of (tell S.value self.now))) }
    {
        if self.sum.is_less(&other.sum) {
            return true;
        }
        if other.sum.is_less(&self.sum) {
            return false;
        }
        self.hops < other.hops
    }
}
