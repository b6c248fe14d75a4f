ghost use Rattle.std.specs.Prelude.{◌≡◌, ◌+◌, ◌-◌, ◌<◌, ◌≤◌, ◌↔◌, ◌++◌, [], ◌∷◌, ℕ, List, All, IfOk, IsTrue, MatchOption, OnOk, Some, map, length, slice_index_or, sum_by};
ghost use Rattle.std.specs.Arc.{arc_value};
ghost use Rattle.std.specs.List.Sorted.{IsStrictlyIncreasing};
ghost use Rattle.lama_model.specs.Row.{row_at, edges_in};
ghost use Rattle.lama_model.specs.Change.{RowChange as SeenRow, row_after};
ghost use Rattle.lama_delta.specs.Seen.{seen_row, seen_rows};
ghost use Rattle.lama_model.specs.Bounds.{added_edges, killed_edges, checkpoint_pages};
ghost use Rattle.lama_model.specs.Fits.{Fits, HasIndexes};
ghost use Rattle.lama_snapshot.specs.Cells.{standing, stands, visible, weight_at};
ghost use Rattle.lama_edges.specs.declared.records.Slot.TheVariants.{Edge as SeenEdge};
ghost use Rattle.lama_snapshot.specs.Chains.{IsPlace, place_cells, slot_at, IsEdgeCell, IsAtCell};
ghost use Rattle.lama_snapshot.specs.Snap.{floor_of, change_at, IsCell};
ghost use Rattle.lama_snapshot.specs.History.{was_there, row_then};
ghost use Rattle.lama_snapshot.specs.Levels.{change_of};
ghost use Rattle.lama_snapshot.specs.Found.{cells_at, killed_slot, set_slot, killed_slots, set_slots, AreHidden, AreSet};

use crate::apply::{NewLevel, edges_at_most, edges_of, push_level, write_level};
use crate::base::Base;
use crate::found::{FoundSlots, by_table, find_killed, find_set, hide_all, weigh_all};
use crate::level::{Cell, Level, Older, SnapshotAt, cell_at, level_at, place_of};
use lama_array::VArray;
use lama_base::limits::{MAX_EDGES, MAX_NUMBER, MAX_VERTICES};
use lama_delta::{Change, RowChange};
use lama_edges::{Slot, VertexRec};
use lama_marks::{Hidden, Weights};
use lama_model::Rows;
use lama_pages::Steps;
use std::alloc::{AllocError, Global};
use std::marker::Model;
use std::sync::Arc;
use std::sync::ledger::Ledger;

/// A graph at one checkpoint. A contract sees its number, its base, its rows, its changes above the base, and how
/// many edges it has.
///
/// Its vertex table shares with other snapshots each page that no change between them touched, and its base and its
/// levels are shared wholly. Of the marks and weights of each table it has a version, which is its own where its
/// change touched that table and shared otherwise. It never changes.
#[derive(Drop)]
pub struct Snapshot {
    pub(crate) number: u32,
    pub(crate) edge_count: u32,
    pub(crate) vertices: VArray<VertexRec>,
    pub(crate) base: Arc<Base, Global>,
    // The level above the floor first.
    pub(crate) levels: Vec<Arc<Level, Global>>,
    // Those of the base first, and then those of each level.
    pub(crate) hidden: Vec<Hidden>,
    pub(crate) weights: Vec<Weights>,
}

impl Model for Snapshot {
    ghost use Rattle.lama_snapshot.specs.Snap.{Snap};

    ghost Value = { Snap };

    ghost use Rattle.lama_snapshot.specs.Shown.{shown, IsShown};

    ghost view = { shown };

    ghost invariant = { IsShown };
}

impl Snapshot {
    /// The snapshot that the base is: its number and its floor are the base's.
    pub fn from_base(alloc: Global, base: Arc<Base, Global>) -> Result<Snapshot, AllocError>
        ensures number { IfOk result (λ s. s.number ≡ (arc_value base).number) }
        ensures base { IfOk result (λ s. s.base ≡ arc_value base) }
        ensures rows { IfOk result (λ s. s.rows ≡ (arc_value base).rows) }
        ensures changes { IfOk result (λ s. s.changes ≡ []) }
    {
        let floor: &Base = &base;
        let number = floor.number();
        let edge_count = floor.edge_count();
        let vertices = floor.vertices().share()?;
        let hidden = vec![in alloc; floor.hidden().share()?]?;
        let weights = vec![in alloc; floor.weights().share()?]?;
        Ok(Snapshot {
            number,
            edge_count,
            vertices,
            base,
            levels: Vec::new(alloc),
            hidden,
            weights,
        })
    }

    /// Its number.
    pub fn number(&self) -> u32
        ensures is { result ≡ self.now.number }
        ensures limit { result ≤ 100000000 }
        ensures changes { length self.now.changes + floor_of self.now ≡ result }
    {
        self.number
    }

    /// The number of its base: the oldest graph whose changes it still knows.
    pub fn floor(&self) -> u32
        ensures { result ≡ floor_of self.now }
    {
        let base: &Base = &self.base;
        base.number()
    }

    /// How many edges it has, repeats and loops among them.
    pub fn edge_count(&self) -> u32
        ensures is { result ≡ self.now.edge_count }
        ensures edges { result ≡ edges_in self.now.rows }
        ensures few { result ≤ 33554432 }
        ensures vertices { length self.now.rows ≤ 4194304 }
    {
        self.edge_count
    }

    /// The graph after the change: its rows are these rows with the change done, and new vertices have empty rows.
    ///
    /// Costs the changed rows, of a row where edges go or get another weight one walk over all its edges, and
    /// a pointer for each page of the vertex table, for each level, and for each page of the marks or the weights of a
    /// table that is touched. A page of the vertex table is made for each page that has a changed row, and a page of
    /// marks or weights for each page that is touched.
    pub fn apply<L: Ledger>(
        &self,
        alloc: Global,
        change: Arc<Change, Global>,
        pages: &mut Steps<L>,
    ) -> Result<Snapshot, AllocError>
        requires { Fits self.now.number self.now.rows (arc_value change) }
        ensures number { IfOk result (λ s. s.number ≡ (arc_value change).number) }
        ensures count { IfOk result (λ s. length s.rows ≡ (arc_value change).count) }
        ensures rows { IfOk result (λ s. (v : ℕ) → v < (arc_value change).count →
            row_at s.rows v ≡ row_after (arc_value change).rows v (row_at self.now.rows v)) }
        ensures base { IfOk result (λ s. s.base ≡ self.now.base) }
        ensures changes { IfOk result (λ s. s.changes ≡ self.now.changes ++ arc_value change ∷ []) }
        ensures edges { IfOk result (λ s. edges_in s.rows + killed_edges (arc_value change) ≡ edges_in self.now.rows + added_edges (arc_value change)) }
        ensures made { pages.new ≤ pages.old + checkpoint_pages (arc_value change) }
    {
        let wanted: &Change = &change;
        let number = wanted.number;
        let (mut hidden, mut marked) = self.columns_after(alloc, wanted.rows(), number, pages)?;
        let NewLevel {
            vertices,
            edges,
            weights,
            added,
            killed,
        } = write_level(alloc, &self.vertices, self.older(), wanted, pages)?;
        hidden.push(Hidden::standing_above(alloc, edges.len(), number, pages)?)?;
        marked.push(weights)?;
        let level = Level { edges, change };
        let levels = push_level(alloc, &self.levels, Arc::new(alloc, level)?)?;
        Ok(Snapshot {
            number,
            edge_count: self.edge_count + added - killed,
            vertices,
            base: Arc::try_clone(&self.base)?,
            levels,
            hidden,
            weights: marked,
        })
    }

    /// The targets of the row of `v` in the graph of the number `k`, newest first: a vertex that came later has none. The
    /// weights of then are not kept. Costs the row with its edges that are gone since the base. The only error is want
    /// of memory.
    pub fn row_as_of(&self, alloc: Global, v: u32, k: u32) -> Result<Vec<u32>, AllocError>
        requires vertex { v < length self.now.rows }
        requires from_floor { floor_of self.now ≤ k }
        requires to_number { k ≤ self.now.number }
        ensures { IfOk result (λ targets. targets.items ≡ map (λ p. p.0) (row_then (floor_of self.now) self.now.base.rows self.now.changes k v)) }
    {
        let base: &Base = &self.base;
        let tables = k - base.number();
        let mut targets = Vec::new(alloc);
        let mut at = self.row_place(v);
        while let Some((cell, rest)) = self.next_cell(at) {
            if self.was_there(cell, tables, k) {
                targets.push(self.target_at(cell))?;
            }
            at = rest;
        }
        Ok(targets)
    }

    // Whether the edge in the cell was in the graph of the number `k`, to which the tables up to that number lead.
    fn was_there(&self, cell: Cell, tables: u32, k: u32) -> bool
        requires cell { IsCell self.now.columns cell }
        requires tables { tables ≡ k - floor_of self.now }
        ensures { (t : ℕ) → result ≡ was_there (floor_of self.now) self.now.columns k (t, cell) }
    {
        if cell.table > tables {
            return false;
        }
        let mark = self.hidden[cell.table as usize].hidden_at(cell.place);
        mark == 0 || k < mark
    }

    // Its levels, which are older than the next one.
    fn older(&self) -> Older<'_> {
        let base: &Base = &self.base;
        Older {
            levels: &self.levels,
            floor: base.number(),
        }
    }

    // The marks of each table, with that number where an edge goes, and the weights, with the new ones where an edge
    // gets another.
    fn columns_after<L: Ledger>(
        &self,
        alloc: Global,
        rows: &[RowChange],
        number: u32,
        pages: &mut Steps<L>,
    ) -> Result<(Vec<Hidden>, Vec<Weights>), AllocError>
        requires { All (HasIndexes self.now.rows) (seen_rows rows.now) }
        ensures marks { IfOk result (λ v. AreHidden (killed_slots self.now (seen_rows rows.now)) number self.now.columns.marks v.0.items) }
        ensures weights { IfOk result (λ v. AreSet (set_slots self.now (seen_rows rows.now)) self.now.columns.weights v.1.items) }
        ensures made { pages.new ≤ pages.old + sum_by (λ (r : SeenRow). length r.killed) (seen_rows rows.now) + sum_by (λ (r : SeenRow). length r.set) (seen_rows rows.now) }
    {
        let found = self.find_changed(alloc, rows)?;
        let hidden = self.hide_killed(alloc, &found.killed, number, pages)?;
        let weights = self.weigh_set(alloc, &found.set, pages)?;
        Ok((hidden, weights))
    }

    // The marks of each table, with that number where an edge goes.
    fn hide_killed<L: Ledger>(
        &self,
        alloc: Global,
        found: &[(u32, u32)],
        number: u32,
        pages: &mut Steps<L>,
    ) -> Result<Vec<Hidden>, AllocError>
        requires { (rows : List SeenRow) × All (HasIndexes self.now.rows) rows × (found.now ≡ killed_slots self.now rows) }
        ensures marks { IfOk result (λ v. AreHidden found.now number self.now.columns.marks v.items) }
        ensures made { pages.new ≤ pages.old + length found.now }
    {
        let places = by_table(alloc, self.hidden.len(), found)?;
        let hidden = hide_all(alloc, &self.hidden, &places, number, pages)?;
        Ok(hidden)
    }

    // The weights of each table, with the new ones where an edge gets another.
    fn weigh_set<L: Ledger>(
        &self,
        alloc: Global,
        found: &[(u32, (u32, u64))],
        pages: &mut Steps<L>,
    ) -> Result<Vec<Weights>, AllocError>
        requires { (rows : List SeenRow) × All (HasIndexes self.now.rows) rows × (found.now ≡ set_slots self.now rows) }
        ensures weights { IfOk result (λ v. AreSet found.now self.now.columns.weights v.items) }
        ensures made { pages.new ≤ pages.old + length found.now }
    {
        let places = by_table(alloc, self.weights.len(), found)?;
        let weights = weigh_all(alloc, &self.weights, &places, pages)?;
        Ok(weights)
    }

    // The slots that these changes of rows hide, and those that get another weight.
    fn find_changed(&self, alloc: Global, rows: &[RowChange]) -> Result<FoundSlots, AllocError>
        requires { All (HasIndexes self.now.rows) (seen_rows rows.now) }
        ensures killed { IfOk result (λ f. f.killed.items ≡ killed_slots self.now (seen_rows rows.now)) }
        ensures set { IfOk result (λ f. f.set.items ≡ set_slots self.now (seen_rows rows.now)) }
    {
        let mut found = FoundSlots {
            killed: Vec::new(alloc),
            set: Vec::new(alloc),
        };
        for row in rows {
            self.find_row(alloc, row, &mut found)?;
        }
        Ok(found)
    }

    // Finds the slots of one row. Walks it once, and not where it only gets new edges.
    fn find_row(
        &self,
        alloc: Global,
        row: &RowChange,
        found: &mut FoundSlots,
    ) -> Result<(), AllocError>
        requires { HasIndexes self.now.rows (seen_row row.now) }
        ensures killed { OnOk result (found.new.killed.items ≡ found.old.killed.items ++ map (killed_slot self.now (seen_row row.now).source) (seen_row row.now).killed) }
        ensures set { OnOk result (found.new.set.items ≡ found.old.set.items ++ map (set_slot self.now (seen_row row.now).source) (seen_row row.now).set) }
    {
        if row.killed.is_empty() && row.set.is_empty() {
            return Ok(());
        }
        let cells = self.row_cells(alloc, row.source)?;
        find_killed(&cells, &row.killed, &mut found.killed)?;
        find_set(&cells, &row.set, &mut found.set)
    }

    // The cells of the edges of the row of `v`, newest first; a vertex that is not there has none. Where the row goes on
    // is looked up before the marks of a fragment are read, so that a machine may wait for both at once.
    #[inline(never)]
    fn row_cells(&self, alloc: Global, v: u32) -> Result<Vec<Cell>, AllocError>
        ensures cells { IfOk result (λ cells. cells.items ≡ cells_at self.now v) }
        ensures len { IfOk result (λ cells. length cells.items ≡ length (row_at self.now.rows v)) }
    {
        let mut cells = Vec::with_capacity(alloc, self.row_len(v) as usize)?;
        if v >= self.vertices.len() {
            return Ok(cells);
        }
        let mut next = Some(self.row_place(v));
        while let Some(at) = next {
            next = self.behind(at);
            self.take_fragment(at, &mut cells)?;
        }
        Ok(cells)
    }

    // Where the row goes on behind what is left of a fragment.
    #[inline(always)]
    fn behind(&self, at: SnapshotAt) -> Option<SnapshotAt>
        requires { IsPlace self.now.layout (length self.now.rows) at.v at.level at.offset at.left }
        ensures { MatchOption result (place_cells self.now.layout at.v at.level (at.offset + at.left) 0 ≡ []) (λ next.
            IsPlace self.now.layout (length self.now.rows) next.v next.level next.offset next.left
            × (next.level < at.level)
            × (next.v ≡ at.v)
            × (place_cells self.now.layout next.v next.level next.offset next.left ≡ place_cells self.now.layout at.v at.level (at.offset + at.left) 0)) }
    {
        let base: &Base = &self.base;
        let floor = base.number();
        if at.level <= floor {
            return None;
        }
        let level = level_at(&self.levels, floor, at.level);
        let (slot, next) = level.edges.tail(at.offset + at.left, at.tail);
        match slot {
            Slot::Next { level, offset, len } => Some(place_of(
                base, at.v, level, offset, len, next,
            )),
            _ => None,
        }
    }

    // Puts the cells of the edges that stand in what is left of a fragment at the end.
    #[inline(always)]
    fn take_fragment(&self, start: SnapshotAt, cells: &mut Vec<Cell>) -> Result<(), AllocError>
        requires { IsPlace self.now.layout (length self.now.rows) start.v start.level start.offset start.left }
        ensures { OnOk result (cells.new.items ++ map (λ p. p.1) (standing self.now.columns (place_cells self.now.layout start.v start.level (start.offset + start.left) 0))
            ≡ cells.old.items ++ map (λ p. p.1) (standing self.now.columns (place_cells self.now.layout start.v start.level start.offset start.left))) }
    {
        let base: &Base = &self.base;
        let table = start.level.saturating_sub(base.number());
        let marks = &self.hidden[table as usize];
        let mut place = start.offset;
        let mut left = start.left;
        while left > 0 {
            if marks.stands(place) {
                cells.push(Cell { table, place })?;
            }
            place += 1;
            left -= 1;
        }
        Ok(())
    }

    // Where the row of `v` begins.
    fn row_place(&self, v: u32) -> SnapshotAt
        requires { v < length self.now.rows }
        ensures place { IsPlace self.now.layout (length self.now.rows) result.v result.level result.offset result.left }
        ensures cells { place_cells self.now.layout result.v result.level result.offset result.left ≡ slice_index_or self.now.cells v [] }
        ensures row { visible self.now.columns (slice_index_or self.now.cells v []) ≡ row_at self.now.rows v }
    {
        let record = self.vertices.get(v);
        place_of(&self.base, v, record.level, record.offset, record.len, 0)
    }

    // The cell of the next edge from a place on, hidden or not, and the place behind it. Inside a fragment no slot is read.
    #[inline(always)]
    fn next_cell(&self, start: SnapshotAt) -> Option<(Cell, SnapshotAt)>
        requires { IsPlace self.now.layout (length self.now.rows) start.v start.level start.offset start.left }
        ensures { MatchOption result (place_cells self.now.layout start.v start.level start.offset start.left ≡ []) (λ found.
            IsPlace self.now.layout (length self.now.rows) found.1.v found.1.level found.1.offset found.1.left
            × IsCell self.now.columns found.0
            × (found.1.v ≡ start.v)
            × IsAtCell self.now.layout found.0 (place_cells self.now.layout start.v start.level start.offset start.left)
            (place_cells self.now.layout found.1.v found.1.level found.1.offset found.1.left)) }
    {
        let base: &Base = &self.base;
        let mut at = start;
        if at.left == 0 {
            at = self.next_fragment(at.v, at.level, at.offset, at.tail);
            if at.left == 0 {
                return None;
            }
        }
        Some(cell_at(at.level.saturating_sub(base.number()), at))
    }

    // The place that has an edge in its fragment, from one on at the end of its own, or one at the end of the row.
    #[inline(always)]
    fn next_fragment(&self, v: u32, level: u32, offset: u32, tail: u32) -> SnapshotAt
        requires { IsPlace self.now.layout (length self.now.rows) v level offset 0 }
        ensures place { IsPlace self.now.layout (length self.now.rows) result.v result.level result.offset result.left }
        ensures v { result.v ≡ v }
        ensures cells { place_cells self.now.layout result.v result.level result.offset result.left ≡ place_cells self.now.layout v level offset 0 }
        ensures end { result.left ≡ 0 → place_cells self.now.layout v level offset 0 ≡ [] }
    {
        let mut at = SnapshotAt {
            v,
            level,
            offset,
            left: 0,
            tail,
        };
        while at.left == 0 {
            match self.behind(at) {
                Some(next) => at = next,
                None => return at,
            }
        }
        at
    }

    // Whether the edge in the cell is not hidden.
    #[inline(always)]
    fn stands(&self, cell: Cell) -> bool
        requires { IsCell self.now.columns cell }
        ensures { (t : ℕ) → result ≡ stands self.now.columns (t, cell) }
    {
        self.hidden[cell.table as usize].stands(cell.place)
    }

    // The cell of the next edge that stands, from a place on, and the place behind it.
    #[inline(always)]
    fn next_standing(&self, start: SnapshotAt) -> Option<(Cell, SnapshotAt)>
        requires { IsPlace self.now.layout (length self.now.rows) start.v start.level start.offset start.left }
        ensures { MatchOption result (standing self.now.columns (place_cells self.now.layout start.v start.level start.offset start.left) ≡ []) (λ found.
            IsPlace self.now.layout (length self.now.rows) found.1.v found.1.level found.1.offset found.1.left
            × IsCell self.now.columns found.0
            × (found.1.v ≡ start.v)
            × IsAtCell self.now.layout found.0 (standing self.now.columns (place_cells self.now.layout start.v start.level start.offset start.left))
            (standing self.now.columns (place_cells self.now.layout found.1.v found.1.level found.1.offset found.1.left))) }
    {
        let mut at = start;
        while let Some((cell, rest)) = self.next_cell(at) {
            if self.stands(cell) {
                return Some((cell, rest));
            }
            at = rest;
        }
        None
    }

    // The target and the cell of the next edge that stands, from a place on, and the place behind it.
    #[inline(always)]
    pub(crate) fn next_edge(&self, at: RowAt) -> Option<(u32, Cell, RowAt)>
        requires place { IsPlace self.now.layout (length self.now.rows) at.place.v at.place.level at.place.offset at.place.left }
        requires left { at.left ≡ length (visible self.now.columns (place_cells self.now.layout at.place.v at.place.level at.place.offset at.place.left)) }
        ensures { MatchOption result (visible self.now.columns (place_cells self.now.layout at.place.v at.place.level at.place.offset at.place.left) ≡ []) (λ found.
            IsPlace self.now.layout (length self.now.rows) found.2.place.v found.2.place.level found.2.place.offset found.2.place.left
            × (found.2.left ≡ length (visible self.now.columns (place_cells self.now.layout found.2.place.v found.2.place.level found.2.place.offset found.2.place.left)))
            × IsCell self.now.columns found.1
            × (visible self.now.columns (place_cells self.now.layout at.place.v at.place.level at.place.offset at.place.left)
            ≡ (found.0, weight_at self.now.columns found.1) ∷ visible self.now.columns (place_cells self.now.layout found.2.place.v found.2.place.level found.2.place.offset found.2.place.left))) }
    {
        if at.left == 0 {
            return None;
        }
        let (cell, place) = self.next_standing(at.place)?;
        let rest = RowAt {
            place,
            left: at.left - 1,
        };
        Some((self.target_at(cell), cell, rest))
    }

    // The target of the edge in the cell. Where there is one level alone, its table is read without a look at the number of the
    // cell's table: a walk from row to row would wait for that.
    #[inline(always)]
    fn target_at(&self, cell: Cell) -> u32
        requires { IsEdgeCell self.now.layout cell }
        ensures { slot_at self.now.layout cell ≡ Some (SeenEdge result) }
    {
        let base: &Base = &self.base;
        if cell.table == 0 {
            return base.edges().target(cell.place);
        }
        if self.levels.len() == 1 {
            let only: &Level = &self.levels[0];
            return only.edges.target(cell.place);
        }
        let level: &Level = &self.levels[(cell.table - 1) as usize];
        level.edges.target(cell.place)
    }

    /// Whether the change goes on from this snapshot: its number is the next one, its indexes are places of these
    /// rows, and what it leaves is within the limits. Costs the changed rows.
    pub fn fits(&self, change: &Change) -> bool
        ensures { IsTrue result ↔ Fits self.now.number self.now.rows change.now }
    {
        let rows = change.rows();
        if change.number != self.number + 1 {
            return false;
        }
        if change.number > MAX_NUMBER {
            return false;
        }
        if change.count < self.vertices.len() {
            return false;
        }
        if change.count > MAX_VERTICES {
            return false;
        }
        if !edges_at_most(rows, MAX_EDGES) {
            return false;
        }
        let (added, killed) = edges_of(rows);
        if self.edge_count + added > MAX_EDGES + killed {
            return false;
        }
        self.have_indexes(rows)
    }

    // Whether the rows name only indexes that these rows have.
    fn have_indexes(&self, rows: &[RowChange]) -> bool
        requires { All (λ r. IsStrictlyIncreasing r.killed × IsStrictlyIncreasing (map (λ p. p.0) r.set)) (seen_rows rows.now) }
        ensures { IsTrue result ↔ All (HasIndexes self.now.rows) (seen_rows rows.now) }
    {
        for row in rows {
            if !self.has_indexes(row) {
                return false;
            }
        }
        true
    }

    // Whether the row change names only indexes that its row has. The last index is the greatest.
    fn has_indexes(&self, row: &RowChange) -> bool
        requires killed { IsStrictlyIncreasing (seen_row row.now).killed }
        requires set { IsStrictlyIncreasing (map (λ p. p.0) (seen_row row.now).set) }
        ensures { IsTrue result ↔ HasIndexes self.now.rows (seen_row row.now) }
    {
        let len = self.row_len(row.source);
        if !all_below(&row.killed, len) {
            return false;
        }
        all_set_below(&row.set, len)
    }

    // How many edges the row of `v` has; a vertex that is not there has none.
    fn row_len(&self, v: u32) -> u32
        ensures { result ≡ length (row_at self.now.rows v) }
    {
        if v < self.vertices.len() {
            return self.vertices.get(v).degree;
        }
        0
    }

    /// Its change of the number `k`, by its place: there is no search.
    pub fn change(&self, k: u32) -> &Change
        requires above { floor_of self.now < k }
        requires within { k ≤ self.now.number }
        ensures { result.now ≡ change_at self.now k }
    {
        &self.level_of(k).change
    }

    /// The same, shared. The only error is want of memory.
    pub fn share_change(&self, k: u32) -> Result<Arc<Change, Global>, AllocError>
        requires above { floor_of self.now < k }
        requires within { k ≤ self.now.number }
        ensures { IfOk result (λ change. arc_value change ≡ change_at self.now k) }
    {
        Arc::try_clone(&self.level_of(k).change)
    }

    // Its level of the number `k`.
    fn level_of(&self, k: u32) -> &Level
        requires above { floor_of self.now < k }
        requires within { k ≤ self.now.number }
        ensures { change_of result.now ≡ change_at self.now k }
    {
        let base: &Base = &self.base;
        &self.levels[(k - base.number() - 1) as usize]
    }

    /// Its base.
    pub fn base(&self) -> &Base
        ensures { result.now ≡ self.now.base }
    {
        &self.base
    }
}

// Whether the indexes, which rise, are all below `len`: the last is the greatest.
fn all_below(indexes: &[u32], len: u32) -> bool
    requires { IsStrictlyIncreasing indexes.now }
    ensures { IsTrue result ↔ All (λ k. k < len) indexes.now }
{
    if indexes.is_empty() {
        return true;
    }
    indexes[indexes.len() - 1] < len
}

// Whether the indexes of these pairs, which rise, are all below `len`.
fn all_set_below(set: &[(u32, u64)], len: u32) -> bool
    requires { IsStrictlyIncreasing (map (λ p. p.0) set.now) }
    ensures { IsTrue result ↔ All (λ p. p.0 < len) set.now }
{
    if set.is_empty() {
        return true;
    }
    set[set.len() - 1].0 < len
}

/// A place in a row of a [`Snapshot`]: where its next edge is to be looked for, and how many edges are still to come. So at
/// the end of a row nothing is looked up.
#[derive(Clone, Copy, Debug)]
pub struct RowAt {
    pub(crate) place: SnapshotAt,
    pub(crate) left: u32,
}

impl Rows for Snapshot {
    type At = RowAt;

    ghost rows = { λ s. s.rows };

    ghost is_place = { λ s p. IsPlace s.layout (length s.rows) p.place.v p.place.level p.place.offset p.place.left
        × (p.left ≡ length (visible s.columns (place_cells s.layout p.place.v p.place.level p.place.offset p.place.left))) };

    ghost suffix = { λ s p. visible s.columns (place_cells s.layout p.place.v p.place.level p.place.offset p.place.left) };

    fn count(&self) -> u32 {
        self.vertices.len()
    }

    fn degree(&self, v: u32) -> u32 {
        self.vertices.get(v).degree
    }

    fn start(&self, v: u32) -> RowAt {
        RowAt {
            place: self.row_place(v),
            left: self.degree(v),
        }
    }

    #[inline(always)]
    fn next(&self, at: RowAt) -> Option<(u32, u64, RowAt)> {
        let (target, cell, rest) = self.next_edge(at)?;
        let weights = &self.weights[cell.table as usize];
        Some((target, weights.weight(cell.place), rest))
    }
}
