ghost use Rattle.std.specs.Prelude.{◌≡◌, ◌+◌, ◌<◌, ◌≤◌, IfOk, length, replicate, take};
ghost use Rattle.lama_edges.specs.declared.records.VertexRec.{VertexRec as SeenRec};
ghost use Rattle.lama_model.specs.Row.{AreTargetsBelow, edges_in, row_at};
ghost use Rattle.lama_model.specs.Bounds.{base_pages};
ghost use Rattle.lama_snapshot.specs.BaseRows.{base_records, base_slots, base_weights};

use crate::writer::Writer;
use lama_array::{Builder, VArray};
use lama_edges::{EdgeTable, Slot, VertexRec};
use lama_marks::{Hidden, Weights};
use lama_model::Rows;
use lama_pages::Steps;
use std::alloc::{AllocError, Global};
use std::marker::Model;
use std::sync::ledger::Ledger;

/// The rows of a whole graph in compressed sparse rows: the floor on which snapshots stand. A contract sees its number
/// and its rows.
#[derive(Drop)]
pub struct Base {
    number: u32,
    vertices: VArray<VertexRec>,
    edges: EdgeTable,
    hidden: Hidden,
    weights: Weights,
}

impl Model for Base {
    ghost use Rattle.lama_snapshot.specs.BaseRows.{Numbered, base_rows, IsBase};

    ghost Value = { Numbered };

    ghost view = { λ b. record { number = b.number; rows = base_rows b.vertices b.edges b.weights } };

    ghost invariant = { λ b. IsBase b.number b.vertices b.edges b.hidden b.weights (base_rows b.vertices b.edges b.weights) };
}

/// A place in a row of a [`Base`]: where its next edge is, and how many are left.
#[derive(Clone, Copy, Debug)]
pub struct BaseAt {
    pub(crate) offset: u32,
    pub(crate) left: u32,
}

impl Base {
    /// The base with these rows, under that number. Costs the vertices and the edges; each record and each slot is
    /// written once.
    pub fn build<R: Rows, L: Ledger>(
        alloc: Global,
        number: u32,
        rows: &R,
        pages: &mut Steps<L>,
    ) -> Result<Base, AllocError>
        requires number { number ≤ 100000000 }
        requires vertices { length (R.rows rows.now) ≤ 4194304 }
        requires edges { edges_in (R.rows rows.now) ≤ 33554432 }
        ensures number { IfOk result (λ base. base.number ≡ number) }
        ensures rows { IfOk result (λ base. base.rows ≡ R.rows rows.now) }
        ensures made { pages.new ≤ pages.old + base_pages (length (R.rows rows.now)) (edges_in (R.rows rows.now)) }
    {
        let mut writer = Writer::new(alloc);
        let mut vertices = Builder::new(alloc);
        let count = rows.count();
        for v in 0..count {
            let offset = writer.len;
            let len = writer.row(rows, v, pages)?;
            let record = VertexRec {
                level: number,
                offset,
                len,
                degree: len,
            };
            vertices.push(record, pages)?;
        }
        let (edges, weights) = writer.finish()?;
        let vertices = vertices.finish()?;
        let hidden = Hidden::standing_above(alloc, edges.len(), number, pages)?;
        Ok(Base {
            number,
            vertices,
            edges,
            hidden,
            weights,
        })
    }

    /// Its number.
    pub fn number(&self) -> u32
        ensures is { result ≡ self.now.number }
        ensures limit { result ≤ 100000000 }
    {
        self.number
    }

    // The records of its vertices.
    pub(crate) fn vertices(&self) -> &VArray<VertexRec>
        ensures { result.now ≡ base_records self.now.number 0 self.now.rows }
    {
        &self.vertices
    }

    // The slots of its rows.
    pub(crate) fn edges(&self) -> &EdgeTable
        ensures slots { result.now ≡ base_slots self.now.rows }
        ensures few { length result.now ≤ 67108864 }
    {
        &self.edges
    }

    // The marks of its slots, of which all stand.
    pub(crate) fn hidden(&self) -> &Hidden
        ensures { result.now ≡ replicate (length (base_slots self.now.rows)) 0 }
    {
        &self.hidden
    }

    // The weights of its slots.
    pub(crate) fn weights(&self) -> &Weights
        ensures { result.now ≡ base_weights self.now.rows }
    {
        &self.weights
    }

    // Where the row of `v` is.
    pub(crate) fn fragment(&self, v: u32) -> BaseAt
        requires { v < length self.now.rows }
        ensures offset { result.offset ≡ length (base_slots (take v self.now.rows)) }
        ensures left { result.left ≡ length (row_at self.now.rows v) }
    {
        let record = self.vertices.get(v);
        BaseAt {
            offset: record.offset,
            left: record.len,
        }
    }

    // How many edges it has.
    pub(crate) fn edge_count(&self) -> u32
        ensures edges { result ≡ edges_in self.now.rows }
        ensures few { result ≤ 33554432 }
        ensures vertices { length self.now.rows ≤ 4194304 }
        ensures targets { AreTargetsBelow (length self.now.rows) self.now.rows }
    {
        self.edges.len() - self.vertices.len()
    }
}

impl Rows for Base {
    ghost use Rattle.std.specs.Prelude.{[], IsSome, unwrap_or};
    ghost use Rattle.lama_snapshot.specs.BaseRows.{base_suffix};

    type At = BaseAt;

    ghost rows = { λ b. b.rows };

    ghost is_place = { λ b p. IsSome (base_suffix b.rows p.offset p.left) };

    ghost suffix = { λ b p. unwrap_or (base_suffix b.rows p.offset p.left) [] };

    fn count(&self) -> u32 {
        self.vertices.len()
    }

    fn degree(&self, v: u32) -> u32 {
        self.vertices.get(v).degree
    }

    fn start(&self, v: u32) -> BaseAt {
        self.fragment(v)
    }

    fn next(&self, at: BaseAt) -> Option<(u32, u64, BaseAt)> {
        if at.left == 0 {
            return None;
        }
        let target = self.edges.target(at.offset);
        let rest = BaseAt {
            offset: at.offset + 1,
            left: at.left - 1,
        };
        Some((target, self.weights.weight(at.offset), rest))
    }
}
