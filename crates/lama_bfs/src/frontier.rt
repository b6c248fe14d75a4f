// From one level to the next.
ghost use Rattle.std.specs.Prelude.{◌≡◌, ◌-◌, ◌<◌, ◌≤◌, ◌^◌, ◌++◌, [], ◌∷◌, All, IfOk, IfSome, OnOk, drop, filter, flat_map, length, map, take, if◌then◌else◌, is_some};
ghost use Rattle.lama_model.specs.Row.{edges_in, row_at};
ghost use Rattle.lama_bfs.specs.Frontier.{is_unseen, targets_of, new_targets, see_one, see_all, give, AreMarked};
ghost use Rattle.lama_bfs.specs.Flat.{IsFlat};

use crate::flat::Flat;
use crate::kept::Kept;
use lama_base::Gate;
use lama_base::limits::MAX_VERTICES;
use lama_model::Rows;
use lama_work::{FEW, map_pieces};
use std::alloc::{AllocError, Global};
use std::mem::swap;
use std::thread::Threads;

// A frontier of fewer vertices is not worth laying the rows flat for.
const LARGE: usize = 400;

// Nor is one that has less than this part of all vertices: one in so many.
const PART: usize = 32;

// The first edges of so many vertices are looked up before the first of them is used, so that a machine may wait for all
// of them at once.
const AHEAD: usize = 16;

// No frontier has more vertices than a graph.
const MANY: usize = MAX_VERTICES as usize;

// What was found so far.
#[derive(Drop)]
pub(crate) struct Search {
    // Whether each vertex was found: a byte for each, so that much of it stays near the processor.
    pub seen: Vec<bool>,
    // The vertices that were found last.
    pub next: Kept,
}

impl Search {
    // Marks a vertex as found, where it was not yet. No branch asks for that, since it follows no pattern.
    #[inline(always)]
    fn mark(&mut self, v: u32) -> Result<(), AllocError>
        ensures { OnOk result ((self.new.seen.items, self.new.next) ≡ see_one v (self.old.seen.items, self.old.next)) }
    {
        if (v as usize) < self.seen.len() {
            let is_new = !self.seen[v as usize];
            self.seen[v as usize] = true;
            self.next.put(v, is_new)?;
        }
        Ok(())
    }

    // The same for the targets of a vertex's edges.
    #[inline(always)]
    fn mark_row<R: Rows>(&mut self, rows: &R, u: u32) -> Result<(), AllocError>
        requires { u < length (R.rows rows.now) }
        ensures { OnOk result ((self.new.seen.items, self.new.next) ≡ see_all (map (λ p. p.0) (row_at (R.rows rows.now) u)) (self.old.seen.items, self.old.next)) }
    {
        self.mark_rest(rows, rows.start(u))
    }

    // The same for the targets of a row from a place on.
    #[inline(always)]
    fn mark_rest<R: Rows>(&mut self, rows: &R, start: R::At) -> Result<(), AllocError>
        requires { R.is_place rows.now start }
        ensures { OnOk result ((self.new.seen.items, self.new.next) ≡ see_all (map (λ p. p.0) (R.suffix rows.now start)) (self.old.seen.items, self.old.next)) }
    {
        let mut at = start;
        while let Some((target, _, rest)) = rows.next(at) {
            self.mark(target)?;
            at = rest;
        }
        Ok(())
    }

    // The same for a target and those of the row from a place on.
    #[inline(always)]
    fn mark_first<R: Rows>(&mut self, rows: &R, first: u32, rest: R::At) -> Result<(), AllocError>
        requires { R.is_place rows.now rest }
        ensures { OnOk result ((self.new.seen.items, self.new.next) ≡ see_all (first ∷ map (λ p. p.0) (R.suffix rows.now rest)) (self.old.seen.items, self.old.next)) }
    {
        self.mark(first)?;
        self.mark_rest(rows, rest)
    }

    // The same for each of these vertices.
    fn mark_list(&mut self, vs: &[u32]) -> Result<(), AllocError>
        ensures { OnOk result ((self.new.seen.items, self.new.next) ≡ see_all vs.now (self.old.seen.items, self.old.next)) }
    {
        for &v in vs {
            self.mark(v)?;
        }
        Ok(())
    }

    // The same for the targets of the edges that leave these vertices.
    pub(crate) fn expand<R: Rows>(
        &mut self,
        alloc: Global,
        rows: &R,
        us: &[u32],
    ) -> Result<(), AllocError>
        requires { All (λ u. u < length (R.rows rows.now)) us.now }
        ensures { OnOk result ((self.new.seen.items, self.new.next) ≡ see_all (targets_of (R.rows rows.now) us.now) (self.old.seen.items, self.old.next)) }
    {
        if us.len() < AHEAD {
            self.expand_each(rows, us)
        } else {
            self.expand_ahead(alloc, rows, us)
        }
    }

    // One vertex after another.
    fn expand_each<R: Rows>(&mut self, rows: &R, us: &[u32]) -> Result<(), AllocError>
        requires { All (λ u. u < length (R.rows rows.now)) us.now }
        ensures { OnOk result ((self.new.seen.items, self.new.next) ≡ see_all (targets_of (R.rows rows.now) us.now) (self.old.seen.items, self.old.next)) }
    {
        for &u in us {
            self.mark_row(rows, u)?;
        }
        Ok(())
    }

    // Some vertices after others, where the rows lie flat. The rows are there for the contract alone.
    fn expand_flat<R: Rows>(
        &mut self,
        alloc: Global,
        rows: &R,
        flat: &Flat,
        us: &[u32],
    ) -> Result<(), AllocError>
        requires within { All (λ u. u < length (R.rows rows.now)) us.now }
        requires flat { IsFlat (R.rows rows.now) flat.now.starts.items flat.now.targets.items }
        ensures { OnOk result ((self.new.seen.items, self.new.next) ≡ see_all (targets_of (R.rows rows.now) us.now) (self.old.seen.items, self.old.next)) }
    {
        if us.len() < AHEAD {
            self.expand_flat_each(rows, flat, us)
        } else {
            self.expand_flat_ahead(alloc, rows, flat, us)
        }
    }

    // One vertex after another.
    fn expand_flat_each<R: Rows>(
        &mut self,
        rows: &R,
        flat: &Flat,
        us: &[u32],
    ) -> Result<(), AllocError>
        requires within { All (λ u. u < length (R.rows rows.now)) us.now }
        requires flat { IsFlat (R.rows rows.now) flat.now.starts.items flat.now.targets.items }
        ensures { OnOk result ((self.new.seen.items, self.new.next) ≡ see_all (targets_of (R.rows rows.now) us.now) (self.old.seen.items, self.old.next)) }
    {
        for &u in us {
            self.mark_list(flat.row(rows, u))?;
        }
        Ok(())
    }

    // Some vertices after others, with their rows looked up before.
    fn expand_flat_ahead<R: Rows>(
        &mut self,
        alloc: Global,
        rows: &R,
        flat: &Flat,
        us: &[u32],
    ) -> Result<(), AllocError>
        requires within { All (λ u. u < length (R.rows rows.now)) us.now }
        requires flat { IsFlat (R.rows rows.now) flat.now.starts.items flat.now.targets.items }
        ensures { OnOk result ((self.new.seen.items, self.new.next) ≡ see_all (targets_of (R.rows rows.now) us.now) (self.old.seen.items, self.old.next)) }
    {
        let mut firsts = Vec::with_capacity(alloc, AHEAD)?;
        let mut start = 0;
        while start < us.len() {
            let len = AHEAD.min(us.len() - start);
            firsts.clear();
            look_up_flat(rows, flat, &us[start..start + len], &mut firsts)?;
            self.expand_flat_each(rows, flat, &us[start..start + len])?;
            start += len;
        }
        Ok(())
    }

    // Some vertices after others, with their first edges looked up before.
    fn expand_ahead<R: Rows>(
        &mut self,
        alloc: Global,
        rows: &R,
        us: &[u32],
    ) -> Result<(), AllocError>
        requires { All (λ u. u < length (R.rows rows.now)) us.now }
        ensures { OnOk result ((self.new.seen.items, self.new.next) ≡ see_all (targets_of (R.rows rows.now) us.now) (self.old.seen.items, self.old.next)) }
    {
        let mut firsts = Vec::with_capacity(alloc, AHEAD)?;
        let mut start = 0;
        while start < us.len() {
            let len = AHEAD.min(us.len() - start);
            firsts.clear();
            look_up(rows, &us[start..start + len], &mut firsts)?;
            self.mark_firsts(rows, &firsts)?;
            start += len;
        }
        Ok(())
    }

    // Each of these targets, and those of the row from the place with it on.
    fn mark_firsts<R: Rows>(&mut self, rows: &R, firsts: &[(u32, R::At)]) -> Result<(), AllocError>
        requires { All (λ first. R.is_place rows.now first.1) firsts.now }
        ensures { OnOk result ((self.new.seen.items, self.new.next) ≡ see_all (flat_map (λ first. first.0 ∷ map (λ p. p.0) (R.suffix rows.now first.1)) firsts.now) (self.old.seen.items, self.old.next)) }
    {
        for &(first, rest) in firsts {
            self.mark_first(rows, first, rest)?;
        }
        Ok(())
    }

    // From the frontier, the vertices that were found last, to the next one, which gets that level. What `frontier` held
    // before gives room for the next one.
    pub(crate) fn next_level<T: Threads + Sync, R: Rows + Sync, G: Gate + Sync>(
        &mut self,
        rt: &T,
        alloc: Global,
        rows: &R,
        flat: &mut Option<Flat>,
        level: u32,
        frontier: &mut Kept,
        levels: &mut Vec<Option<u32>>,
        workers: u32,
        gate: &G,
    ) -> Result<(), AllocError>
    where
        R::At: Send,
        requires some { 1 ≤ workers }
        requires few { workers ≤ 16 }
        requires whole { length levels.old.items ≡ length (R.rows rows.now) }
        requires seen { self.old.seen.items ≡ map is_some levels.old.items }
        requires within { All (λ u. u < length (R.rows rows.now)) self.old.next }
        requires edges { edges_in (R.rows rows.now) ≤ 33554432 }
        requires flat { IfSome flat.old (λ f. IsFlat (R.rows rows.now) f.starts.items f.targets.items) }
        ensures seen { OnOk result (self.new.seen.items ≡ map is_some levels.new.items) }
        ensures flat { OnOk result (IfSome flat.new (λ f. IsFlat (R.rows rows.now) f.starts.items f.targets.items)) }
        ensures levels { OnOk result (AreMarked level (targets_of (R.rows rows.now) self.old.next) levels.old.items levels.new.items self.new.next) }
    {
        // Its value is not used: `count` promises that each target is below the number of vertices, and the proof needs that.
        let _count = rows.count();
        lay_flat(rt, alloc, rows, flat, self.next.len(), workers, gate)?;
        swap(frontier, &mut self.next);
        self.next.clear();
        self.from_frontier(rt, alloc, rows, flat, frontier.as_slice(), workers, gate)?;
        give_levels(levels, level, self.next.as_slice());
        Ok(())
    }

    // Marks the next frontier as found, where nothing of it was found yet.
    fn from_frontier<T: Threads + Sync, R: Rows + Sync, G: Gate + Sync>(
        &mut self,
        rt: &T,
        alloc: Global,
        rows: &R,
        flat: &Option<Flat>,
        frontier: &[u32],
        workers: u32,
        gate: &G,
    ) -> Result<(), AllocError>
    where
        R::At: Send,
        requires some { 1 ≤ workers }
        requires few { workers ≤ 16 }
        requires within { All (λ u. u < length (R.rows rows.now)) frontier.now }
        requires flat { IfSome flat.now (λ f. IsFlat (R.rows rows.now) f.starts.items f.targets.items) }
        ensures { OnOk result ((self.new.seen.items, self.new.next) ≡ see_all (targets_of (R.rows rows.now) frontier.now) (self.old.seen.items, self.old.next)) }
    {
        if workers > 1 && frontier.len() >= FEW as usize && frontier.len() <= MANY {
            self.expand_in_pieces(rt, alloc, rows, flat, frontier, workers, gate)
        } else if let Some(flat) = flat {
            self.expand_flat(alloc, rows, flat, frontier)
        } else {
            self.expand(alloc, rows, frontier)
        }
    }

    // The same, in a piece for each worker: the pieces find the targets, which are marked after them.
    pub(crate) fn expand_in_pieces<T: Threads + Sync, R: Rows + Sync, G: Gate + Sync>(
        &mut self,
        rt: &T,
        alloc: Global,
        rows: &R,
        flat: &Option<Flat>,
        us: &[u32],
        workers: u32,
        gate: &G,
    ) -> Result<(), AllocError>
    where
        R::At: Send,
        requires some { 1 ≤ workers }
        requires few { workers ≤ 16 }
        requires within { All (λ u. u < length (R.rows rows.now)) us.now }
        requires flat { IfSome flat.now (λ f. IsFlat (R.rows rows.now) f.starts.items f.targets.items) }
        requires room { length us.now < 2 ^ 32 }
        ensures { OnOk result ((self.new.seen.items, self.new.next) ≡ see_all (targets_of (R.rows rows.now) us.now) (self.old.seen.items, self.old.next)) }
    {
        let pieces = in_pieces(rt, alloc, rows, flat, &self.seen, us, workers, gate)?;
        for piece in &pieces {
            self.mark_list(piece.as_slice())?;
        }
        Ok(())
    }
}

// Lays the rows flat, where they are not so yet and a frontier is so large a part of all vertices that most of them may be
// expected to follow it.
#[inline(always)]
fn lay_flat<T: Threads + Sync, R: Rows + Sync, G: Gate + Sync>(
    rt: &T,
    alloc: Global,
    rows: &R,
    flat: &mut Option<Flat>,
    frontier: usize,
    workers: u32,
    gate: &G,
) -> Result<(), AllocError>
where
    R::At: Send,
    requires some { 1 ≤ workers }
    requires few { workers ≤ 16 }
    requires edges { edges_in (R.rows rows.now) ≤ 33554432 }
    requires flat { IfSome flat.old (λ f. IsFlat (R.rows rows.now) f.starts.items f.targets.items) }
    ensures { OnOk result (IfSome flat.new (λ f. IsFlat (R.rows rows.now) f.starts.items f.targets.items)) }
{
    if frontier < LARGE || flat.is_some() || frontier < rows.count() as usize / PART {
        return Ok(());
    }
    *flat = Some(Flat::of(rt, alloc, rows, workers, gate)?);
    Ok(())
}

// Puts the target of the first edge of each of these vertices that has one at the end, with the place behind it.
fn look_up<R: Rows>(rows: &R, us: &[u32], firsts: &mut Vec<(u32, R::At)>) -> Result<(), AllocError>
    requires within { All (λ u. u < length (R.rows rows.now)) us.now }
    requires places { All (λ first. R.is_place rows.now first.1) firsts.old.items }
    ensures places { OnOk result (All (λ first. R.is_place rows.now first.1) firsts.new.items) }
    ensures targets { OnOk result (flat_map (λ first. first.0 ∷ map (λ p. p.0) (R.suffix rows.now first.1)) firsts.new.items
        ≡ flat_map (λ first. first.0 ∷ map (λ p. p.0) (R.suffix rows.now first.1)) firsts.old.items ++ targets_of (R.rows rows.now) us.now) }
{
    for &u in us {
        if let Some((target, _, rest)) = rows.next(rows.start(u)) {
            firsts.push((target, rest))?;
        }
    }
    Ok(())
}

// Puts the first target of each of these vertices that has one at the end. They are not used: a machine that was asked for
// them has their rows near when these are gone through.
fn look_up_flat<R: Rows>(
    rows: &R,
    flat: &Flat,
    us: &[u32],
    firsts: &mut Vec<u32>,
) -> Result<(), AllocError>
    requires within { All (λ u. u < length (R.rows rows.now)) us.now }
    requires flat { IsFlat (R.rows rows.now) flat.now.starts.items flat.now.targets.items }
{
    for &u in us {
        if let Some(&first) = flat.row(rows, u).first() {
            firsts.push(first)?;
        }
    }
    Ok(())
}

// The targets of the edges that leave these vertices that were not found, a list for each piece of the vertices.
fn in_pieces<T: Threads + Sync, R: Rows + Sync, G: Gate + Sync>(
    rt: &T,
    alloc: Global,
    rows: &R,
    flat: &Option<Flat>,
    seen: &[bool],
    us: &[u32],
    workers: u32,
    gate: &G,
) -> Result<Vec<Kept>, AllocError>
where
    R::At: Send,
    requires some { 1 ≤ workers }
    requires few { workers ≤ 16 }
    requires within { All (λ u. u < length (R.rows rows.now)) us.now }
    requires flat { IfSome flat.now (λ f. IsFlat (R.rows rows.now) f.starts.items f.targets.items) }
    requires room { length us.now < 2 ^ 32 }
    ensures { IfOk result (λ v. flat_map (λ piece. piece) v.items ≡ new_targets (R.rows rows.now) seen.now us.now) }
{
    map_pieces(
        rt,
        alloc,
        us.len() as u32,
        workers,
        gate,
        &|_: u32, start: u32, end: u32| -> Result<Kept, AllocError>
            requires { (start ≤ end) × (end ≤ length us.now) × All (λ u. u < length (R.rows rows.now)) us.now × IfSome flat.now (λ f. IsFlat (R.rows rows.now) f.starts.items f.targets.items) }
            ensures { IfOk result (λ v. v ≡ new_targets (R.rows rows.entry.now) seen.entry.now (take (end - start) (drop start us.entry.now))) }
        { new_of_piece(alloc, rows, flat, seen, &us[start as usize..end as usize]) },
    )
}

// The targets of the edges that leave these vertices that were not found, from the flat rows where they lie so.
fn new_of_piece<R: Rows>(
    alloc: Global,
    rows: &R,
    flat: &Option<Flat>,
    seen: &[bool],
    us: &[u32],
) -> Result<Kept, AllocError>
    requires within { All (λ u. u < length (R.rows rows.now)) us.now }
    requires flat { IfSome flat.now (λ f. IsFlat (R.rows rows.now) f.starts.items f.targets.items) }
    ensures { IfOk result (λ v. v ≡ new_targets (R.rows rows.now) seen.now us.now) }
{
    match flat {
        Some(flat) => new_flat_targets(alloc, rows, flat, seen, us),
        None => new_targets(alloc, rows, seen, us),
    }
}

// The same, from the flat rows.
fn new_flat_targets<R: Rows>(
    alloc: Global,
    rows: &R,
    flat: &Flat,
    seen: &[bool],
    us: &[u32],
) -> Result<Kept, AllocError>
    requires within { All (λ u. u < length (R.rows rows.now)) us.now }
    requires flat { IsFlat (R.rows rows.now) flat.now.starts.items flat.now.targets.items }
    ensures { IfOk result (λ v. v ≡ new_targets (R.rows rows.now) seen.now us.now) }
{
    let mut found = Kept::new(alloc);
    let mut firsts = Vec::with_capacity(alloc, AHEAD)?;
    let mut start = 0;
    while start < us.len() {
        let len = AHEAD.min(us.len() - start);
        firsts.clear();
        look_up_flat(rows, flat, &us[start..start + len], &mut firsts)?;
        push_rows(rows, flat, seen, &us[start..start + len], &mut found)?;
        start += len;
    }
    Ok(found)
}

// Puts the targets of the edges that leave these vertices, where they were not found, at the end.
fn push_rows<R: Rows>(
    rows: &R,
    flat: &Flat,
    seen: &[bool],
    us: &[u32],
    found: &mut Kept,
) -> Result<(), AllocError>
    requires within { All (λ u. u < length (R.rows rows.now)) us.now }
    requires flat { IsFlat (R.rows rows.now) flat.now.starts.items flat.now.targets.items }
    ensures { OnOk result (found.new ≡ found.old ++ new_targets (R.rows rows.now) seen.now us.now) }
{
    for &u in us {
        push_all_new(seen, flat.row(rows, u), found)?;
    }
    Ok(())
}

// Puts those of these vertices that were not found at the end.
fn push_all_new(seen: &[bool], vs: &[u32], found: &mut Kept) -> Result<(), AllocError>
    ensures { OnOk result (found.new ≡ found.old ++ filter (is_unseen seen.now) vs.now) }
{
    for &v in vs {
        push_if_new(seen, v, found)?;
    }
    Ok(())
}

// The targets of the edges that leave these vertices that were not found, from the rows as they stand.
fn new_targets<R: Rows>(
    alloc: Global,
    rows: &R,
    seen: &[bool],
    us: &[u32],
) -> Result<Kept, AllocError>
    requires { All (λ u. u < length (R.rows rows.now)) us.now }
    ensures { IfOk result (λ v. v ≡ new_targets (R.rows rows.now) seen.now us.now) }
{
    let mut found = Kept::new(alloc);
    let mut firsts = Vec::with_capacity(alloc, AHEAD)?;
    let mut start = 0;
    while start < us.len() {
        let len = AHEAD.min(us.len() - start);
        firsts.clear();
        look_up(rows, &us[start..start + len], &mut firsts)?;
        push_firsts(rows, seen, &firsts, &mut found)?;
        start += len;
    }
    Ok(found)
}

// Puts those of these targets, and of the row from the place with each on, at the end.
fn push_firsts<R: Rows>(
    rows: &R,
    seen: &[bool],
    firsts: &[(u32, R::At)],
    found: &mut Kept,
) -> Result<(), AllocError>
    requires { All (λ first. R.is_place rows.now first.1) firsts.now }
    ensures { OnOk result (found.new ≡ found.old ++ filter (is_unseen seen.now) (flat_map (λ first. first.0 ∷ map (λ p. p.0) (R.suffix rows.now first.1)) firsts.now)) }
{
    for &(first, rest) in firsts {
        push_first(rows, seen, first, rest, found)?;
    }
    Ok(())
}

// Puts those of a target and of the row from a place on at the end.
#[inline(always)]
fn push_first<R: Rows>(
    rows: &R,
    seen: &[bool],
    first: u32,
    rest: R::At,
    found: &mut Kept,
) -> Result<(), AllocError>
    requires { R.is_place rows.now rest }
    ensures { OnOk result (found.new ≡ found.old ++ filter (is_unseen seen.now) (first ∷ map (λ p. p.0) (R.suffix rows.now rest))) }
{
    push_if_new(seen, first, found)?;
    let mut at = rest;
    while let Some((target, _, rest)) = rows.next(at) {
        push_if_new(seen, target, found)?;
        at = rest;
    }
    Ok(())
}

// Puts a vertex at the end, where it was not found.
#[inline(always)]
fn push_if_new(seen: &[bool], v: u32, found: &mut Kept) -> Result<(), AllocError>
    ensures { OnOk result (found.new ≡ (if is_unseen seen.now v then found.old ++ v ∷ [] else found.old)) }
{
    let is_seen = match seen.get(v as usize) {
        Some(&is_seen) => is_seen,
        None => false,
    };
    found.put(v, !is_seen)
}

// Gives the level to each of these vertices.
fn give_levels(levels: &mut Vec<Option<u32>>, level: u32, vs: &[u32])
    ensures { levels.new.items ≡ give level vs.now levels.old.items }
{
    for &v in vs {
        if (v as usize) < levels.len() {
            levels[v as usize] = Some(level);
        }
    }
}
