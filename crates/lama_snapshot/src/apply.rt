// The level that a change makes above a snapshot.
ghost use Rattle.std.specs.Prelude.{◌≡◌, ◌+◌, ◌-◌, ◌≤◌, ◌↔◌, ◌++◌, [], ◌∷◌, All, IfOk, IsTrue, length, map, replicate, sum_by};
ghost use Rattle.std.specs.Arc.{arc_value};
ghost use Rattle.lama_edges.specs.declared.records.VertexRec.{VertexRec as SeenRec};
ghost use Rattle.lama_model.specs.Change.{RowChange as SeenRow};
ghost use Rattle.lama_model.specs.Bounds.{added_edges, killed_edges, set_edges, touched};
ghost use Rattle.lama_delta.specs.Seen.{seen_rows};
ghost use Rattle.lama_snapshot.specs.Snap.{no_record};
ghost use Rattle.lama_snapshot.specs.Written.{IsWithin, pages_for};
ghost use Rattle.lama_snapshot.specs.NewLevel.{IsNewLevel};

use crate::level::{Level, NO_RECORD, Older, write_rows};
use lama_array::VArray;
use lama_delta::{Change, RowChange};
use lama_edges::{EdgeTable, VertexRec};
use lama_marks::Weights;
use lama_pages::Steps;
use std::alloc::{AllocError, Global};
use std::sync::Arc;
use std::sync::ledger::Ledger;

// The tables of a new level, the version of the vertex table that goes with it, and how many edges come and go.
#[derive(Drop)]
pub(crate) struct NewLevel {
    pub vertices: VArray<VertexRec>,
    pub edges: EdgeTable,
    pub weights: Weights,
    pub added: u32,
    pub killed: u32,
}

// Writes what the change adds, above the version of the vertex table that stands before it.
pub(crate) fn write_level<L: Ledger>(
    alloc: Global,
    vertices: &VArray<VertexRec>,
    older: Older<'_>,
    change: &Change,
    pages: &mut Steps<L>,
) -> Result<NewLevel, AllocError>
    requires grows { length vertices.now ≤ change.now.count }
    requires few_vertices { change.now.count ≤ 4194304 }
    requires few_edges { sum_by (λ (r : SeenRec). r.degree) vertices.now ≤ 33554432 }
    requires said { added_edges change.now + killed_edges change.now + set_edges change.now ≤ 33554432 }
    requires within { All (IsWithin (vertices.now ++ replicate (change.now.count - length vertices.now) no_record)) change.now.rows }
    ensures level { IfOk result (λ l. IsNewLevel vertices.now change.now l) }
    ensures made { pages.new ≤ pages.old + touched change.now + pages_for (added_edges change.now + touched change.now) + 2 }
{
    let rows = change.rows();
    let mut edit = vertices.edit()?;
    edit.extend_filled(change.count - vertices.len(), NO_RECORD, pages)?;
    let writer = write_rows(alloc, &mut edit, older, change.number, rows, pages)?;
    let (added, killed) = edges_of(rows);
    let (edges, weights) = writer.finish()?;
    let vertices = edit.freeze()?;
    Ok(NewLevel {
        vertices,
        edges,
        weights,
        added,
        killed,
    })
}

// How many edges the rows add, and how many go.
pub(crate) fn edges_of(rows: &[RowChange]) -> (u32, u32)
    requires { sum_by (λ (r : SeenRow). length r.added) (seen_rows rows.now) + sum_by (λ (r : SeenRow). length r.killed) (seen_rows rows.now) ≤ 33554432 }
    ensures added { result.0 ≡ sum_by (λ (r : SeenRow). length r.added) (seen_rows rows.now) }
    ensures killed { result.1 ≡ sum_by (λ (r : SeenRow). length r.killed) (seen_rows rows.now) }
{
    let mut added = 0;
    let mut killed = 0;
    for row in rows {
        added += row.added.len() as u32;
        killed += row.killed.len() as u32;
    }
    (added, killed)
}

// Whether the rows name no more edges than that: those that come, those that go and those with a new weight.
pub(crate) fn edges_at_most(rows: &[RowChange], most: u32) -> bool
    ensures { IsTrue result ↔ (sum_by (λ (r : SeenRow). length r.added + length r.killed + length r.set) (seen_rows rows.now) ≤ most) }
{
    let mut total = 0u128;
    for row in rows {
        let edges = row.added.len() as u128 + row.killed.len() as u128;
        total += edges + row.set.len() as u128;
        if total > most as u128 {
            return false;
        }
    }
    true
}

// The levels and one more above them. Shares each.
pub(crate) fn push_level(
    alloc: Global,
    levels: &[Arc<Level, Global>],
    level: Arc<Level, Global>,
) -> Result<Vec<Arc<Level, Global>>, AllocError>
    ensures { IfOk result (λ v. map arc_value v.items ≡ map arc_value levels.now ++ arc_value level ∷ []) }
{
    let mut all = Vec::new(alloc);
    for older in levels {
        all.push(Arc::try_clone(older)?)?;
    }
    all.push(level)?;
    Ok(all)
}
