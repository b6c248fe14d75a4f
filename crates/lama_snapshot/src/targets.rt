//! The rows of a snapshot without their weights.

ghost use Rattle.std.specs.Prelude.{◌≡◌, length, map};
ghost use Rattle.lama_snapshot.specs.Cells.{visible};
ghost use Rattle.lama_snapshot.specs.Chains.{IsPlace, place_cells};
ghost use Rattle.lama_snapshot.specs.Targets.{targets_of, all_targets};

use crate::snapshot::{RowAt, Snapshot};
use lama_model::Rows;
use std::marker::Model;

/// The rows of a snapshot for work that asks for targets alone: each weight is 0, and no weight is looked up.
#[derive(Drop)]
pub struct Targets<'a> {
    snapshot: &'a Snapshot,
}

impl<'a> Model for Targets<'a> {
    ghost use Rattle.lama_snapshot.specs.Snap.{Snap};

    ghost Value = { Snap };

    ghost view = { λ t. t.snapshot.now };
}

impl<'a> Targets<'a> {
    /// Those of the snapshot.
    pub fn new(snapshot: &'a Snapshot) -> Targets<'a>
        ensures { result ≡ snapshot.now }
    {
        Targets { snapshot }
    }
}

impl<'a> Rows for Targets<'a> {
    type At = RowAt;

    ghost rows = { λ s. all_targets s.rows };

    ghost is_place = { λ s p. IsPlace s.layout (length s.rows) p.place.v p.place.level p.place.offset p.place.left
        × (p.left ≡ length (visible s.columns (place_cells s.layout p.place.v p.place.level p.place.offset p.place.left))) };

    ghost suffix = { λ s p. targets_of (visible s.columns (place_cells s.layout p.place.v p.place.level p.place.offset p.place.left)) };

    fn count(&self) -> u32 {
        self.snapshot.count()
    }

    fn degree(&self, v: u32) -> u32 {
        self.snapshot.degree(v)
    }

    fn start(&self, v: u32) -> RowAt {
        self.snapshot.start(v)
    }

    #[inline(always)]
    fn next(&self, at: RowAt) -> Option<(u32, u64, RowAt)> {
        let (target, _, rest) = self.snapshot.next_edge(at)?;
        Some((target, 0, rest))
    }
}
