// What the writes of one source make of its row.
ghost use Rattle.std.specs.Prelude.{◌≡◌, ◌+◌, ◌<◌, ◌++◌, ◌==◌, [], ◌∷◌, ℕ, IfOk, OnOk, Some, length, if◌then◌else◌};
ghost use Rattle.std.specs.Ordering.{nat_cmp};
ghost use Rattle.std.specs.BTreeMap.{get};
ghost use Rattle.lama_model.specs.Row.{row_at};
ghost use Rattle.lama_delta.specs.Seen.{seen_row};
ghost use Rattle.lama_delta.specs.declared.edge_writes.Act.TheVariants.{Add as SeenAdd, Weigh as SeenWeigh};
ghost use Rattle.lama_delta.specs.declared.row_writes.Fate.TheVariants.{Weight as SeenWeight};
ghost use Rattle.lama_delta.specs.RowWrites.{fate_before, fate_of, new_pair, left_of, gone_here, set_here, gone_from, set_from, change_of};
ghost use Rattle.lama_delta.specs.Sieve.{IsSieve};

use crate::RowChange;
use crate::edge_writes::{Act, EdgeWrite};
use crate::sieve::{fate_to, mark};
use lama_model::Rows;
use std::alloc::{AllocError, Global};
use std::collections::BTreeMap;

// What becomes of the edges to a target that are there already.
#[derive(Clone, Copy, Debug)]
pub(crate) enum Fate {
    Gone,
    // They have that weight.
    Weight(u64),
}

// What writes do, read from the newest of them back: to the edges that were there before them, by their targets, and
// what they leave of the edges that they add, newest first.
#[derive(Drop)]
struct Later {
    fates: BTreeMap<u32, Fate>,
    // The sieve of the fates.
    marks: Vec<bool>,
    added: Vec<(u32, u64)>,
}

// The edges of a row that are gone, by their indexes, and those with another weight.
#[derive(Drop)]
struct OldEdges {
    killed: Vec<u32>,
    set: Vec<(u32, u64)>,
}

// What the writes, oldest first, make of the row of their source. Where they only add, the row isn't walked.
pub(crate) fn row_change<R: Rows>(
    alloc: Global,
    rows: &R,
    source: u32,
    writes: &[EdgeWrite],
) -> Result<RowChange, AllocError>
    ensures { IfOk result (λ row. seen_row row ≡ change_of source writes.now (row_at (R.rows rows.now) source)) }
{
    let Later {
        fates,
        marks,
        added,
    } = later_of(alloc, writes)?;
    let OldEdges { killed, set } = old_edges(alloc, rows, source, &marks, &fates)?;
    Ok(RowChange {
        source,
        added,
        killed,
        set,
    })
}

fn later_of(alloc: Global, writes: &[EdgeWrite]) -> Result<Later, AllocError>
    ensures fates { IfOk result (λ l. (v : ℕ) → get nat_cmp l.fates v ≡ fate_of writes.now v) }
    ensures sieve { IfOk result (λ l. IsSieve l.marks.items (get nat_cmp l.fates)) }
    ensures added { IfOk result (λ l. l.added.items ≡ left_of writes.now) }
{
    let mut later = Later {
        fates: BTreeMap::new(alloc),
        marks: Vec::new(alloc),
        added: Vec::with_capacity(alloc, additions_in(writes))?,
    };
    for i in 0..writes.len() {
        later.put_before(writes[writes.len() - 1 - i])?;
    }
    Ok(later)
}

// How many of the writes add an edge.
fn additions_in(writes: &[EdgeWrite]) -> usize {
    writes
        .iter()
        .filter(|write| matches!(write.act, Act::Add(_)))
        .count()
}

impl Later {
    // Puts a write before these.
    fn put_before(&mut self, write: EdgeWrite) -> Result<(), AllocError>
        requires { IsSieve self.old.marks.items (get nat_cmp self.old.fates) }
        ensures sieve { OnOk result (IsSieve self.new.marks.items (get nat_cmp self.new.fates)) }
        ensures fates { OnOk result ((v : ℕ) → get nat_cmp self.new.fates v ≡
            (if write.target == v then fate_before write.act (get nat_cmp self.old.fates v) else get nat_cmp self.old.fates v)) }
        ensures added { OnOk result (self.new.added.items ≡ self.old.added.items ++ new_pair write.act write.target (get nat_cmp self.old.fates write.target)) }
    {
        let fate = fate_to(&self.marks, &self.fates, write.target);
        match write.act {
            Act::Add(weight) => self.put_edge(write.target, weight, fate),
            Act::Remove => self.put_fate(write.target, Fate::Gone),
            Act::Weigh(weight) => self.put_weight(write.target, weight, fate),
        }
    }

    // Puts an edge before these writes, of which that is the fate.
    fn put_edge(&mut self, target: u32, weight: u64, fate: Option<Fate>) -> Result<(), AllocError>
        ensures marks { self.new.marks ≡ self.old.marks }
        ensures fates { self.new.fates ≡ self.old.fates }
        ensures added { OnOk result (self.new.added.items ≡ self.old.added.items ++ new_pair (SeenAdd weight) target fate) }
    {
        match fate {
            None => self.push_edge(target, weight),
            Some(Fate::Weight(later)) => self.push_edge(target, later),
            Some(Fate::Gone) => Ok(()),
        }
    }

    fn push_edge(&mut self, target: u32, weight: u64) -> Result<(), AllocError>
        ensures marks { self.new.marks ≡ self.old.marks }
        ensures fates { self.new.fates ≡ self.old.fates }
        ensures added { OnOk result (self.new.added.items ≡ self.old.added.items ++ (target, weight) ∷ []) }
    {
        self.added.push((target, weight))?;
        Ok(())
    }

    fn put_fate(&mut self, target: u32, fate: Fate) -> Result<(), AllocError>
        requires { IsSieve self.old.marks.items (get nat_cmp self.old.fates) }
        ensures sieve { OnOk result (IsSieve self.new.marks.items (get nat_cmp self.new.fates)) }
        ensures fates { OnOk result ((v : ℕ) → get nat_cmp self.new.fates v ≡ (if target == v then Some fate else get nat_cmp self.old.fates v)) }
        ensures added { self.new.added ≡ self.old.added }
    {
        mark(&mut self.marks, target)?;
        self.fates.insert(target, fate)?;
        Ok(())
    }

    // A weight counts where no later write has decided.
    fn put_weight(&mut self, target: u32, weight: u64, fate: Option<Fate>) -> Result<(), AllocError>
        requires fate { fate ≡ get nat_cmp self.old.fates target }
        requires sieve { IsSieve self.old.marks.items (get nat_cmp self.old.fates) }
        ensures sieve { OnOk result (IsSieve self.new.marks.items (get nat_cmp self.new.fates)) }
        ensures fates { OnOk result ((v : ℕ) → get nat_cmp self.new.fates v ≡
            (if target == v then fate_before (SeenWeigh weight) (get nat_cmp self.old.fates v) else get nat_cmp self.old.fates v)) }
        ensures added { self.new.added ≡ self.old.added }
    {
        if fate.is_some() {
            return Ok(());
        }
        self.put_fate(target, Fate::Weight(weight))
    }
}

// What becomes of the edges of the row of `source`.
fn old_edges<R: Rows>(
    alloc: Global,
    rows: &R,
    source: u32,
    marks: &[bool],
    fates: &BTreeMap<u32, Fate>,
) -> Result<OldEdges, AllocError>
    requires { IsSieve marks.now (get nat_cmp fates.now) }
    ensures killed { IfOk result (λ o. o.killed.items ≡ gone_from 0 (get nat_cmp fates.now) (row_at (R.rows rows.now) source)) }
    ensures set { IfOk result (λ o. o.set.items ≡ set_from 0 (get nat_cmp fates.now) (row_at (R.rows rows.now) source)) }
{
    let mut old = OldEdges {
        killed: Vec::new(alloc),
        set: Vec::new(alloc),
    };
    if fates.is_empty() {
        return Ok(old);
    }
    if source >= rows.count() {
        return Ok(old);
    }
    old.walk(rows, source, marks, fates)?;
    Ok(old)
}

impl OldEdges {
    // Walks the row of `source`, the newest edge first. It stands apart, so that its loop has the registers for itself.
    #[inline(never)]
    fn walk<R: Rows>(
        &mut self,
        rows: &R,
        source: u32,
        marks: &[bool],
        fates: &BTreeMap<u32, Fate>,
    ) -> Result<(), AllocError>
        requires source { source < length (R.rows rows.now) }
        requires sieve { IsSieve marks.now (get nat_cmp fates.now) }
        ensures killed { OnOk result (self.new.killed.items ≡ self.old.killed.items ++ gone_from 0 (get nat_cmp fates.now) (row_at (R.rows rows.now) source)) }
        ensures set { OnOk result (self.new.set.items ≡ self.old.set.items ++ set_from 0 (get nat_cmp fates.now) (row_at (R.rows rows.now) source)) }
    {
        let degree = rows.degree(source);
        let mut left = degree;
        let mut at = rows.start(source);
        while let Some((target, weight, rest)) = rows.next(at) {
            self.note(degree - left, weight, fate_to(marks, fates, target))?;
            left -= 1;
            at = rest;
        }
        Ok(())
    }

    // Notes what becomes of the edge of that index and weight.
    #[inline(always)]
    fn note(&mut self, index: u32, weight: u64, fate: Option<Fate>) -> Result<(), AllocError>
        ensures killed { OnOk result (self.new.killed.items ≡ self.old.killed.items ++ gone_here index fate) }
        ensures set { OnOk result (self.new.set.items ≡ self.old.set.items ++ set_here index weight fate) }
    {
        match fate {
            None => Ok(()),
            Some(Fate::Gone) => self.note_gone(index),
            Some(Fate::Weight(new)) => self.note_weight(index, weight, new),
        }
    }

    fn note_gone(&mut self, index: u32) -> Result<(), AllocError>
        ensures killed { OnOk result (self.new.killed.items ≡ self.old.killed.items ++ index ∷ []) }
        ensures set { self.new.set ≡ self.old.set }
    {
        self.killed.push(index)?;
        Ok(())
    }

    fn note_weight(&mut self, index: u32, weight: u64, new: u64) -> Result<(), AllocError>
        ensures killed { self.new.killed ≡ self.old.killed }
        ensures set { OnOk result (self.new.set.items ≡ self.old.set.items ++ set_here index weight (Some (SeenWeight new))) }
    {
        if new == weight {
            return Ok(());
        }
        self.set.push((index, new))?;
        Ok(())
    }
}
