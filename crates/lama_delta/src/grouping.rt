// Writes that are sorted by their sources, as changes of rows.
ghost use Rattle.std.specs.Prelude.{◌≡◌, ◌≢◌, ◌<◌, ◌≤◌, ◌++◌, [], ◌∷◌, ℕ, All, IfOk, OnOk, length, slice_index_or, if◌then◌else◌};
ghost use Rattle.std.specs.List.{AllWithin};
ghost use Rattle.std.specs.List.Sorted.{IsNonDecreasingBy};
ghost use Rattle.lama_model.specs.Change.{is_empty_change};
ghost use Rattle.lama_delta.specs.declared.edge_writes.EdgeWrite.{EdgeWrite as SeenWrite};
ghost use Rattle.lama_delta.specs.Seen.{seen_row, seen_rows};
ghost use Rattle.lama_delta.specs.RowWrites.{changes_below};

use crate::RowChange;
use crate::edge_writes::EdgeWrite;
use crate::row_writes::row_change;
use lama_model::Rows;
use std::alloc::{AllocError, Global};

// The changes that these writes make of the rows, the writes being sorted by their sources, and for one source oldest
// first.
pub(crate) fn group_by_source<R: Rows>(
    alloc: Global,
    rows: &R,
    writes: &[EdgeWrite],
) -> Result<Vec<RowChange>, AllocError>
    requires { IsNonDecreasingBy (λ e. e.source) writes.now }
    ensures { IfOk result (λ changes. (count : ℕ) → All (λ e. e.source < count) writes.now →
        seen_rows changes.items ≡ changes_below (R.rows rows.now) writes.now count) }
{
    let mut changes = Vec::new(alloc);
    let mut start = 0;
    while start < writes.len() {
        let end = group_end(writes, start);
        let change = row_change(alloc, rows, writes[start].source, &writes[start..end])?;
        push_some(&mut changes, change)?;
        start = end;
    }
    Ok(changes)
}

// Where the writes end that have the source of the one at `start` and follow it.
fn group_end(writes: &[EdgeWrite], start: usize) -> usize
    requires { start < length writes.now }
    ensures after { start < result }
    ensures within { result ≤ length writes.now }
    ensures same { (d : SeenWrite) → AllWithin (λ e. e.source ≡ (slice_index_or writes.now start d).source) writes.now start result }
    ensures other { (d : SeenWrite) → result < length writes.now → (slice_index_or writes.now result d).source ≢ (slice_index_or writes.now start d).source }
{
    let source = writes[start].source;
    let mut end = start + 1;
    while end < writes.len() && writes[end].source == source {
        end += 1;
    }
    end
}

// Puts a change at the end, unless it says nothing.
fn push_some(changes: &mut Vec<RowChange>, change: RowChange) -> Result<(), AllocError>
    ensures { OnOk result (seen_rows changes.new.items ≡
        (if is_empty_change (seen_row change) then seen_rows changes.old.items else seen_rows changes.old.items ++ seen_row change ∷ [])) }
{
    if change.added.is_empty() && change.killed.is_empty() && change.set.is_empty() {
        return Ok(());
    }
    changes.push(change)?;
    Ok(())
}
