// The levels above a base.
ghost use Rattle.std.specs.Prelude.{◌≡◌, ◌+◌, ◌-◌, ◌*◌, ◌<◌, ◌≤◌, ◌++◌, ◌^◌, [], ◌∷◌, ℕ, All, IfOk, OnOk, Some, length, map, slice_get, slice_index_or, slice_set, sum_by};
ghost use Rattle.std.specs.Arc.{arc_value};
ghost use Rattle.lama_edges.specs.declared.records.Slot.TheVariants.{Edge as SeenEdge};
ghost use Rattle.lama_model.specs.Change.{RowChange as SeenRow};
ghost use Rattle.lama_delta.specs.Seen.{seen_row, seen_rows};
ghost use Rattle.lama_snapshot.specs.Chains.{Layout, no_table, chain, place_row};
ghost use Rattle.lama_snapshot.specs.Fragments.{fragment_slots, fragment_weights};

use crate::base::Base;
use crate::writer::Writer;
use lama_array::Edit;
use lama_delta::{Change, RowChange};
use lama_edges::{EdgeTable, Slot, VertexRec};
use lama_model::Rows;
use lama_pages::Steps;
use std::alloc::{AllocError, Global};
use std::sync::Arc;
use std::sync::ledger::Ledger;

// What one checkpoint added: the fragments of the rows that it touched, and its change.
#[derive(Drop)]
pub(crate) struct Level {
    pub edges: EdgeTable,
    pub change: Arc<Change, Global>,
}

/// A place in a row of a [`crate::Snapshot`]: the vertex, the level of the fragment, where its next edge is, how many
/// edges of the fragment are left, and where its tail is looked for first.
#[derive(Clone, Copy, Debug)]
pub struct SnapshotAt {
    pub(crate) v: u32,
    pub(crate) level: u32,
    pub(crate) offset: u32,
    pub(crate) left: u32,
    // What number the fragment's tail is said to have in its table.
    pub(crate) tail: u32,
}

// Where a slot is: in the table of the base, which is 0, or in that of a level, counted from the base.
#[derive(Clone, Copy, Debug)]
pub(crate) struct Cell {
    pub table: u32,
    pub place: u32,
}

// A new vertex has no edges.
pub(crate) const NO_RECORD: VertexRec = VertexRec {
    level: 0,
    offset: 0,
    len: 0,
    degree: 0,
};

ghost use Rattle.lama_snapshot.specs.Levels.{table_of};
ghost use Rattle.lama_snapshot.specs.Written.{IsEven, Wrote, next_of, record_with, pages_for, IsWritten, IsWithin, slots_of};
ghost use Rattle.std.specs.List.Sorted.{IsStrictlyIncreasing};
ghost use Rattle.lama_edges.specs.declared.records.VertexRec.{VertexRec as SeenRec};
ghost use Rattle.lama_snapshot.specs.Snap.{no_record};

// The level of that number.
pub(crate) fn level_at(levels: &[Arc<Level, Global>], floor: u32, level: u32) -> &Level
    requires above { floor < level }
    requires within { level ≤ floor + length levels.now }
    ensures { table_of result.now ≡ slice_index_or (map table_of (map arc_value levels.now)) (level - floor - 1) no_table }
{
    &levels[(level - floor - 1) as usize]
}

// Where the row goes on that such a record or continuation leads to: up to the floor it is the whole row in the base.
#[inline(always)]
pub(crate) fn place_of(
    base: &Base,
    v: u32,
    level: u32,
    offset: u32,
    len: u32,
    tail: u32,
) -> SnapshotAt
    ensures v { result.v ≡ v }
    ensures in_base { level ≤ base.now.number → result.level ≡ base.now.number }
    ensures in_level { base.now.number < level → result.level ≡ level }
    ensures row { (l : Layout) → l.floor ≡ base.now.number → l.base ≡ base.now.rows →
        place_row l v result.level result.offset result.left ≡ chain l v (length l.levels) (level - l.floor) offset len }
{
    let floor = base.number();
    if floor < level {
        return SnapshotAt {
            v,
            level,
            offset,
            left: len,
            tail,
        };
    }
    if v < base.count() {
        let at = base.fragment(v);
        return SnapshotAt {
            v,
            level: floor,
            offset: at.offset,
            left: at.left,
            tail: 0,
        };
    }
    SnapshotAt {
        v,
        level: floor,
        offset: 0,
        left: 0,
        tail: 0,
    }
}

// The cell of the edge at a place in the table of that number, and the place behind it.
#[inline(always)]
pub(crate) fn cell_at(table: u32, at: SnapshotAt) -> (Cell, SnapshotAt)
    requires left { 0 < at.left }
    requires few { at.offset < 67108864 }
    ensures table { result.0.table ≡ table }
    ensures place { result.0.place ≡ at.offset }
    ensures v { result.1.v ≡ at.v }
    ensures level { result.1.level ≡ at.level }
    ensures offset { result.1.offset ≡ at.offset + 1 }
    ensures rest { result.1.left ≡ at.left - 1 }
{
    (
        Cell {
            table,
            place: at.offset,
        },
        SnapshotAt {
            v: at.v,
            level: at.level,
            offset: at.offset + 1,
            left: at.left - 1,
            tail: at.tail,
        },
    )
}

// The levels above the base of a snapshot, and the number of that base.
#[derive(Clone, Copy)]
pub(crate) struct Older<'a> {
    pub levels: &'a [Arc<Level, Global>],
    pub floor: u32,
}

impl Older<'_> {
    // What number the tail of the fragment has in the table of its level, where it is in one.
    fn tail_number(&self, fragment: VertexRec) -> u32 {
        if fragment.level <= self.floor {
            return 0;
        }
        match self.levels.get((fragment.level - self.floor - 1) as usize) {
            Some(level) => level
                .edges
                .tail_number(fragment.offset.wrapping_add(fragment.len)),
            None => 0,
        }
    }
}

// Writes the fragment of a row that changes, and gives its vertex the record of it.
fn write_row<L: Ledger>(
    writer: &mut Writer,
    edit: &mut Edit<VertexRec>,
    older: Older<'_>,
    number: u32,
    row: &RowChange,
    pages: &mut Steps<L>,
) -> Result<(), AllocError>
    requires even { IsEven writer.old }
    requires source { row.now.source < length edit.old.items }
    requires room { length writer.old.slots + length row.now.added.items < 67108864 }
    requires degree { (slice_index_or edit.old.items row.now.source no_record).degree + length row.now.added.items < 2 ^ 32 }
    requires killed { length row.now.killed.items ≤ (slice_index_or edit.old.items row.now.source no_record).degree }
    ensures wrote { OnOk result (Wrote writer.old writer.new (fragment_slots row.now.added.items (next_of (slice_index_or edit.old.items row.now.source no_record))) (fragment_weights row.now.added.items)) }
    ensures records { OnOk result (edit.new.items ≡ slice_set edit.old.items row.now.source (record_with number (length writer.old.slots) (length row.now.added.items) (length row.now.killed.items) (slice_index_or edit.old.items row.now.source no_record))) }
    ensures made { OnOk result (pages.new + pages_for (length writer.old.slots) ≤ pages.old + pages_for (length writer.new.slots) + 1) }
    ensures at_most { pages.new + pages_for (length writer.old.slots) ≤ pages.old + pages_for (length writer.old.slots + length row.now.added.items + 1) + 1 }
{
    let old = edit.get(row.source);
    let offset = writer.len;
    let tail = Slot::Next {
        level: old.level,
        offset: old.offset,
        len: old.len,
    };
    writer.fragment(&row.added, tail, older.tail_number(old), pages)?;
    let added = row.added.len() as u32;
    let record = VertexRec {
        level: number,
        offset,
        len: added,
        degree: old.degree + added - row.killed.len() as u32,
    };
    edit.set(row.source, record, pages)
}

// Writes the fragments of the rows that change, their sources rising, and gives their vertices the records of them.
pub(crate) fn write_rows<L: Ledger>(
    alloc: Global,
    edit: &mut Edit<VertexRec>,
    older: Older<'_>,
    number: u32,
    rows: &[RowChange],
    pages: &mut Steps<L>,
) -> Result<Writer, AllocError>
    requires sources { All (λ r. r.source < length edit.old.items) (seen_rows rows.now) }
    requires rising { IsStrictlyIncreasing (map (λ (r : SeenRow). r.source) (seen_rows rows.now)) }
    requires room { slots_of (seen_rows rows.now) ≤ 67108864 }
    requires degrees { sum_by (λ (r : SeenRec). r.degree) edit.old.items ≤ 33554432 }
    requires added { sum_by (λ (r : SeenRow). length r.added) (seen_rows rows.now) ≤ 33554432 }
    requires killed { All (IsWithin edit.old.items) (seen_rows rows.now) }
    ensures even { IfOk result IsEven }
    ensures written { IfOk result (λ w. IsWritten number edit.old.items (seen_rows rows.now) w.slots w.weights edit.new.items) }
    ensures made { pages.new ≤ pages.old + length rows.now + pages_for (slots_of (seen_rows rows.now)) }
{
    let mut writer = Writer::new(alloc);
    for row in rows {
        write_row(&mut writer, edit, older, number, row, pages)?;
    }
    Ok(writer)
}
