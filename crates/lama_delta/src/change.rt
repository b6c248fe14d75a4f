ghost use Rattle.std.specs.Prelude.{◌≡◌};
ghost use Rattle.lama_model.specs.Change.{IsChange};
ghost use Rattle.lama_delta.specs.Seen.{seen_rows};

use std::marker::Model;

/// What changes in the row of one source. An index counts the edges of the row before, 0 being its newest.
#[derive(Debug, PartialEq, Eq, Drop)]
pub struct RowChange {
    /// The vertex whose row changes.
    pub source: u32,
    /// The new edges as (target, weight), newest first.
    pub added: Vec<(u32, u64)>,
    /// The indexes of the edges that are gone, rising.
    pub killed: Vec<u32>,
    /// The edges that have a new weight, as (index, weight), their indexes rising.
    pub set: Vec<(u32, u64)>,
}

/// What changes from one graph to the next. A contract sees it as a plain record of lists.
///
/// Its sources rise and are below `count`, and the targets are below it too. In each row the killed indexes rise, and so
/// do those that are set, no index is in both, and no row change is empty.
#[derive(Drop)]
pub struct Change {
    /// The number of the graph after the change.
    pub number: u32,
    /// How many vertices that graph has.
    pub count: u32,
    /// The changed rows, by rising sources.
    pub rows: Vec<RowChange>,
}

impl Model for Change {
    ghost use Rattle.lama_model.specs.Change.{Change, IsChange};
    ghost use Rattle.lama_delta.specs.Seen.{seen_change};

    ghost Value = { Change };

    ghost view = { λ c. seen_change c.number c.count c.rows.items };

    ghost invariant = { λ c. IsChange (seen_change c.number c.count c.rows.items) };
}

impl Change {
    /// The changed rows, by rising sources.
    pub fn rows(&self) -> &[RowChange]
        ensures rows { seen_rows result.now ≡ self.now.rows }
        ensures valid { IsChange self.now }
    {
        &self.rows
    }
}
