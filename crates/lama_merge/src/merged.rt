ghost use Rattle.std.specs.Prelude.{◌≡◌, ◌+◌, ◌≤◌, IfOk, length};
ghost use Rattle.std.specs.Arc.{arc_value};
ghost use Rattle.lama_model.specs.Row.{edges_in};
ghost use Rattle.lama_model.specs.Bounds.{base_pages};

use lama_pages::Steps;
use lama_snapshot::{Base, Snapshot};
use std::alloc::{AllocError, Global};
use std::marker::Model;
use std::sync::Arc;
use std::sync::ledger::Ledger;

/// A base that was built from a snapshot. A contract sees its number and its rows.
#[derive(Drop)]
pub struct Merged {
    base: Arc<Base, Global>,
}

impl Model for Merged {
    ghost use Rattle.std.specs.Arc.{arc_value};
    ghost use Rattle.lama_snapshot.specs.BaseRows.{Numbered};

    ghost Value = { Numbered };

    ghost view = { λ m. arc_value m.base };
}

impl Merged {
    /// The rows of the snapshot, under its number. Costs its vertices and its edges, and those that are gone since its base.
    pub fn build<L: Ledger>(
        alloc: Global,
        snapshot: &Snapshot,
        pages: &mut Steps<L>,
    ) -> Result<Merged, AllocError>
        ensures number { IfOk result (λ m. m.number ≡ snapshot.now.number) }
        ensures rows { IfOk result (λ m. m.rows ≡ snapshot.now.rows) }
        ensures made { pages.new ≤ pages.old + base_pages (length snapshot.now.rows) (edges_in snapshot.now.rows) }
    {
        // Its value is not used: `edge_count` promises that the rows are within the limits.
        let _count = snapshot.edge_count();
        let base = Base::build(alloc, snapshot.number(), snapshot, pages)?;
        Ok(Merged {
            base: Arc::new(alloc, base)?,
        })
    }

    /// Its number.
    pub fn number(&self) -> u32
        ensures is { result ≡ self.now.number }
        ensures limit { result ≤ 100000000 }
    {
        self.base.number()
    }

    /// The base.
    pub fn base(&self) -> &Arc<Base, Global>
        ensures { arc_value result.now ≡ self.now }
    {
        &self.base
    }
}
