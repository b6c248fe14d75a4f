//! What out-degrees add up to.

ghost use Rattle.std.specs.Prelude.{◌≡◌, ◌<◌, ◌≤◌, length};
ghost use Rattle.lama_model.specs.Row.{row_at, edges_in, graph_of_rows};
ghost use Rattle.lama_model.specs.Lines.{greatest};
ghost use Rattle.lama_model.specs.Degrees.{out_degrees, count_sinks};
ghost use Rattle.lama_rank.specs.Counts.{of_one, of_none, of_both};

use lama_model::Rows;
use rayon::prelude::*;
use std::thread::Threads;

// Fewer vertices are not worth a thread: to count them takes no longer than to start one.
const LEAST_PIECE: usize = 65_536;

/// The totals of the out-degrees of a graph.
#[derive(Clone, Copy, Debug, PartialEq, Eq)]
pub struct Totals {
    /// How many vertices there are.
    pub vertices: u32,
    /// How many edges there are.
    pub edges: u32,
    /// The greatest out-degree, or 0 where there is no vertex.
    pub greatest: u32,
    /// How many vertices have no out-edges.
    pub sinks: u32,
}

/// The totals of a graph's out-degrees, counted in threads where there are many vertices, each of them for no fewer than
/// 65,536. It costs the vertices, and can't be refused.
pub fn degrees<T: Threads + Sync, R: Rows + Sync>(rt: &T, rows: &R) -> Totals
where
    R::At: Send,
    requires vertices { length (R.rows rows.now) ≤ 4194304 }
    requires edges { edges_in (R.rows rows.now) ≤ 33554432 }
    ensures vertices { result.vertices ≡ length (R.rows rows.now) }
    ensures edges { result.edges ≡ length (graph_of_rows (R.rows rows.now)).edges }
    ensures greatest { result.greatest ≡ greatest (out_degrees (graph_of_rows (R.rows rows.now))) }
    ensures sinks { result.sinks ≡ count_sinks (graph_of_rows (R.rows rows.now)) }
{
    (0..rows.count())
        .into_par_iter()
        .with_min_len(LEAST_PIECE)
        .map(
            |v: u32| -> Totals
                requires { v < length (R.rows rows.now) }
                ensures { result ≡ of_one (length (row_at (R.rows rows.entry.now) v)) }
            { of_one(rows.degree(v)) },
        )
        .reduce(
            rt,
            || -> Totals
                ensures { result ≡ of_none }
            { of_none() },
            |a: Totals, b: Totals| -> Totals
                ensures { result ≡ of_both a b }
            { of_both(a, b) },
        )
}

// Those of one vertex.
#[inline(always)]
fn of_one(degree: u32) -> Totals
    ensures { result ≡ of_one degree }
{
    Totals {
        vertices: 1,
        edges: degree,
        greatest: degree,
        sinks: u32::from(degree == 0),
    }
}

// Those of no vertices.
fn of_none() -> Totals
    ensures { result ≡ of_none }
{
    Totals {
        vertices: 0,
        edges: 0,
        greatest: 0,
        sinks: 0,
    }
}

// Those of both. No sum leaves 32 bits within the limits of a graph, and one that did would go on from 0.
#[inline(always)]
fn of_both(a: Totals, b: Totals) -> Totals
    ensures { result ≡ of_both a b }
{
    Totals {
        vertices: a.vertices.wrapping_add(b.vertices),
        edges: a.edges.wrapping_add(b.edges),
        greatest: a.greatest.max(b.greatest),
        sinks: a.sinks.wrapping_add(b.sinks),
    }
}
