// Fragments written one after another into the tables of a base or a level.
ghost use Rattle.std.specs.Prelude.{◌≡◌, ◌+◌, ◌*◌, ◌/◌, ◌<◌, ◌≤◌, ◌++◌, [], ◌∷◌, ℕ, List, IfOk, OnOk, length};
ghost use Rattle.lama_edges.specs.Table.{IsTail};
ghost use Rattle.lama_edges.specs.declared.records.Slot.TheVariants.{End};
ghost use Rattle.lama_model.specs.Row.{row_at};
ghost use Rattle.lama_snapshot.specs.Fragments.{fragment_slots, fragment_weights};

use lama_edges::{EdgeTable, Slot, TableBuilder};
use lama_marks::{Weights, WeightsBuilder};
use lama_model::Rows;
use lama_pages::Steps;
use std::alloc::{AllocError, Global};
use std::sync::ledger::Ledger;

// The slots of an edge table and the weights beside them, in the order in which they are written.
#[derive(Drop)]
pub(crate) struct Writer {
    pub slots: TableBuilder,
    pub weights: WeightsBuilder,
    // How many of each there are.
    pub len: u32,
}

impl Writer {
    ghost use Rattle.lama_snapshot.specs.Written.{IsEven, Wrote};
    ghost use Rattle.lama_edges.specs.declared.records.Slot.TheVariants.{Edge};

    pub(crate) fn new(alloc: Global) -> Writer
        ensures slots { result.slots ≡ [] }
        ensures weights { result.weights ≡ [] }
        ensures even { IsEven result }
    {
        Writer {
            slots: TableBuilder::new(alloc),
            weights: WeightsBuilder::new(alloc),
            len: 0,
        }
    }

    // Writes a slot with its weight.
    fn put<L: Ledger>(
        &mut self,
        slot: Slot,
        weight: u64,
        pages: &mut Steps<L>,
    ) -> Result<(), AllocError>
        requires even { IsEven self.old }
        requires room { length self.old.slots < 67108864 }
        ensures ok { OnOk result (Wrote self.old self.new (slot ∷ []) (weight ∷ [])) }
        ensures made { OnOk result (pages.new + 2 * ((length self.old.slots + 255) / 256) ≡ pages.old + 2 * ((length self.old.slots + 256) / 256)) }
        ensures at_most { pages.new + 2 * ((length self.old.slots + 255) / 256) ≤ pages.old + 2 * ((length self.old.slots + 256) / 256) }
    {
        self.slots.push(slot, pages)?;
        self.weights.push(weight, pages)?;
        self.len += 1;
        Ok(())
    }

    // Writes a tail, and what is said of the number of the next one.
    fn put_tail<L: Ledger>(
        &mut self,
        tail: Slot,
        next: u32,
        pages: &mut Steps<L>,
    ) -> Result<(), AllocError>
        requires even { IsEven self.old }
        requires room { length self.old.slots < 67108864 }
        requires tail { IsTail tail }
        ensures ok { OnOk result (Wrote self.old self.new (tail ∷ []) (0 ∷ [])) }
        ensures made { OnOk result (pages.new + 2 * ((length self.old.slots + 255) / 256) ≡ pages.old + 2 * ((length self.old.slots + 256) / 256)) }
        ensures at_most { pages.new + 2 * ((length self.old.slots + 255) / 256) ≤ pages.old + 2 * ((length self.old.slots + 256) / 256) }
    {
        self.slots.push_tail(tail, next, pages)?;
        self.weights.push(0, pages)?;
        self.len += 1;
        Ok(())
    }

    // Writes the edges, newest first, and then the tail, with what is said of the number of the next one.
    pub(crate) fn fragment<L: Ledger>(
        &mut self,
        edges: &[(u32, u64)],
        tail: Slot,
        next: u32,
        pages: &mut Steps<L>,
    ) -> Result<(), AllocError>
        requires even { IsEven self.old }
        requires room { length self.old.slots + length edges.now < 67108864 }
        requires tail { IsTail tail }
        ensures ok { OnOk result (Wrote self.old self.new (fragment_slots edges.now tail) (fragment_weights edges.now)) }
        ensures made { OnOk result (pages.new + 2 * ((length self.old.slots + 255) / 256) ≡ pages.old + 2 * ((length self.old.slots + length edges.now + 256) / 256)) }
        ensures at_most { pages.new + 2 * ((length self.old.slots + 255) / 256) ≤ pages.old + 2 * ((length self.old.slots + length edges.now + 256) / 256) }
    {
        for &(target, weight) in edges {
            self.put(Slot::Edge { target }, weight, pages)?;
        }
        self.put_tail(tail, next, pages)
    }

    // Writes the row of a vertex, and says how many edges it has.
    pub(crate) fn row<R: Rows, L: Ledger>(
        &mut self,
        rows: &R,
        v: u32,
        pages: &mut Steps<L>,
    ) -> Result<u32, AllocError>
        requires even { IsEven self.old }
        requires vertex { v < length (R.rows rows.now) }
        requires room { length self.old.slots + length (row_at (R.rows rows.now) v) < 67108864 }
        ensures ok { OnOk result (Wrote self.old self.new (fragment_slots (row_at (R.rows rows.now) v) End) (fragment_weights (row_at (R.rows rows.now) v))) }
        ensures len { IfOk result (λ len. len ≡ length (row_at (R.rows rows.now) v)) }
        ensures made { OnOk result (pages.new + 2 * ((length self.old.slots + 255) / 256) ≡ pages.old + 2 * ((length self.old.slots + length (row_at (R.rows rows.now) v) + 256) / 256)) }
        ensures at_most { pages.new + 2 * ((length self.old.slots + 255) / 256) ≤ pages.old + 2 * ((length self.old.slots + length (row_at (R.rows rows.now) v) + 256) / 256) }
    {
        let mut at = rows.start(v);
        let mut len = 0;
        while let Some((target, weight, rest)) = rows.next(at) {
            self.put(Slot::Edge { target }, weight, pages)?;
            len += 1;
            at = rest;
        }
        self.put(Slot::End, 0, pages)?;
        Ok(len)
    }

    // The tables with what was written. It makes no page.
    pub(crate) fn finish(self) -> Result<(EdgeTable, Weights), AllocError>
        ensures slots { IfOk result (λ tables. tables.0 ≡ self.slots) }
        ensures weights { IfOk result (λ tables. tables.1 ≡ self.weights) }
    {
        let Writer {
            slots,
            weights,
            len: _,
        } = self;
        Ok((slots.finish()?, weights.finish()?))
    }
}
