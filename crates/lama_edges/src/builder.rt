ghost use Rattle.std.specs.Prelude.{◌≡◌, ◌+◌, ◌%◌, ◌<◌, ◌++◌, ◌==◌, ◌&&◌, [], ◌∷◌, IfOk, if◌then◌else◌, is_ok, length};
ghost use Rattle.lama_edges.specs.Table.{IsTail};
ghost use Rattle.lama_edges.specs.declared.records.Slot.TheVariants.{Edge};

use crate::records::Slot;
use crate::table::EdgeTable;
use crate::tails::Tail;
use lama_array::Builder;
use lama_pages::Steps;
use std::alloc::{AllocError, Global};
use std::marker::Model;
use std::sync::ledger::Ledger;

/// Builds an edge table slot by slot, each written once. A contract sees it as the list of slots so far.
#[derive(Drop)]
pub struct TableBuilder {
    words: Builder<u32>,
    tails: Vec<Tail>,
    // How many slots there are.
    len: u32,
}

impl Model for TableBuilder {
    ghost use Rattle.std.specs.Prelude.{◌≡◌, List, length};
    ghost use Rattle.lama_edges.specs.declared.records.Slot.{Slot};
    ghost use Rattle.lama_edges.specs.Placed.{slots_from, AreNumbered, AreTails};

    ghost Value = { List Slot };

    ghost view = { λ builder. slots_from builder.tails.items 0 builder.words };

    ghost invariant = { λ builder. (builder.len ≡ length builder.words) × AreTails (length builder.words) builder.tails.items × AreNumbered builder.words builder.tails.items };
}

impl TableBuilder {
    /// With no slot yet.
    pub fn new(alloc: Global) -> TableBuilder
        ensures { result ≡ [] }
    {
        TableBuilder {
            words: Builder::new(alloc),
            tails: Vec::new(alloc),
            len: 0,
        }
    }

    /// Adds a slot at the end. It makes a page at each 256th slot, from the first on, and none where it is refused.
    /// The only error is want of memory.
    pub fn push<L: Ledger>(&mut self, slot: Slot, pages: &mut Steps<L>) -> Result<(), AllocError>
        requires { length self.old < 67108864 }
        ensures items { self.new ≡ (if is_ok result then self.old ++ slot ∷ [] else self.old) }
        ensures made { pages.new ≡ pages.old + (if is_ok result && (length self.old % 256 == 0) then 1 else 0) }
    {
        match slot {
            Slot::Edge { target } => self.push_edge(target, pages),
            tail => self.push_tail(tail, 0, pages),
        }
    }

    // Adds an edge at the end.
    fn push_edge<L: Ledger>(&mut self, target: u32, pages: &mut Steps<L>) -> Result<(), AllocError>
        requires { length self.old < 67108864 }
        ensures items { self.new ≡ (if is_ok result then self.old ++ Edge target ∷ [] else self.old) }
        ensures made { pages.new ≡ pages.old + (if is_ok result && (length self.old % 256 == 0) then 1 else 0) }
    {
        self.words.push(target, pages)?;
        self.len += 1;
        Ok(())
    }

    /// The same for a tail. Where it leads on to an older fragment, `next` says what number that one's tail has in its
    /// table ([`EdgeTable::tail_number`]), so that a reader finds it at once; a wrong number does no harm.
    pub fn push_tail<L: Ledger>(
        &mut self,
        slot: Slot,
        next: u32,
        pages: &mut Steps<L>,
    ) -> Result<(), AllocError>
        requires room { length self.old < 67108864 }
        requires tail { IsTail slot }
        ensures items { self.new ≡ (if is_ok result then self.old ++ slot ∷ [] else self.old) }
        ensures made { pages.new ≡ pages.old + (if is_ok result && (length self.old % 256 == 0) then 1 else 0) }
    {
        self.tails.reserve(1)?;
        self.words.push(self.tails.len() as u32, pages)?;
        self.tails.push_reserved(Tail {
            place: self.len,
            slot,
            next,
        });
        self.len += 1;
        Ok(())
    }

    /// The table with the slots pushed. It copies no slot and makes no page. The only error is want of memory, and
    /// then the slots are given up.
    pub fn finish(self) -> Result<EdgeTable, AllocError>
        ensures { IfOk result (λ table. table ≡ self) }
    {
        let TableBuilder {
            words,
            tails,
            len: _,
        } = self;
        Ok(EdgeTable {
            words: words.finish()?,
            tails,
        })
    }
}
