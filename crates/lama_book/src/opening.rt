ghost use Rattle.std.specs.Prelude.{◌≡◌, ◌+◌, ◌≤◌, IfOk, length};
ghost use Rattle.lama_model.specs.Graph.{Graph, IsGraph};
ghost use Rattle.lama_model.specs.Row.{AreRowsOf, edges_in};
ghost use Rattle.lama_model.specs.Bounds.{base_pages};
ghost use Rattle.lama_model.specs.Opening.{opening_of};
ghost use Rattle.lama_book.specs.Relation.{Opens};

use lama_model::Rows;
use lama_pages::Steps;
use lama_snapshot::{Base, Snapshot};
use std::alloc::{AllocError, Global};
use std::marker::Model;
use std::sync::Arc;
use std::sync::ledger::Ledger;

/// Where a book begins: one graph, under its number. A contract sees the snapshot of it.
#[derive(Drop)]
pub struct Opening {
    pub(crate) snapshot: Arc<Snapshot, Global>,
}

impl Model for Opening {
    ghost use Rattle.std.specs.Arc.{arc_value};
    ghost use Rattle.lama_snapshot.specs.Snap.{Snap};

    ghost Value = { Snap };

    ghost view = { λ o. arc_value o.snapshot };
}

impl Opening {
    /// The graph with these rows: its number is the floor, the oldest kept and the newest number at once. Costs the
    /// vertices and the edges.
    pub fn from_rows<R: Rows, L: Ledger>(
        alloc: Global,
        number: u32,
        rows: &R,
        pages: &mut Steps<L>,
    ) -> Result<Opening, AllocError>
        requires number { number ≤ 100000000 }
        requires vertices { length (R.rows rows.now) ≤ 4194304 }
        requires edges { edges_in (R.rows rows.now) ≤ 33554432 }
        ensures rows { IfOk result (λ x. x.rows ≡ R.rows rows.now) }
        ensures opens { IfOk result (λ x. (g : Graph) → IsGraph g → AreRowsOf (R.rows rows.now) g → Opens (opening_of number g) x) }
        ensures made { pages.new ≤ pages.old + base_pages (length (R.rows rows.now)) (edges_in (R.rows rows.now)) }
    {
        let base = Base::build(alloc, number, rows, pages)?;
        let snapshot = Snapshot::from_base(alloc, Arc::new(alloc, base)?)?;
        Ok(Opening {
            snapshot: Arc::new(alloc, snapshot)?,
        })
    }
}
