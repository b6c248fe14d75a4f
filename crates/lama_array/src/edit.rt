ghost use Rattle.std.specs.Prelude.{◌≡◌, ℕ, ◌+◌, ◌/◌, ◌%◌, ◌<◌, ◌≤◌, ◌&&◌, ◌++◌, [], ◌∷◌, IfOk, OnErr, OnOk, if◌then◌else◌, is_ok, length, not, replicate, slice_index_or, slice_set, true};
ghost use Rattle.lama_array.specs.Draft.{owns};

use crate::VArray;
use crate::grow::grow;
use crate::held::Held;
use crate::table::Table;
use lama_pages::{PAGE_RECORDS, Page, Steps};
use std::alloc::{AllocError, Global};
use std::marker::Model;
use std::sync::ledger::Ledger;

/// A list under change. It shares pages with the version that it began with, and has pages of its own.
///
/// A contract sees it as a `Draft`: its list, and of each page whether it is the edit's own. No call changes a version.
#[derive(Drop)]
pub struct Edit<T: Copy> {
    pub(crate) held: Vec<Held<T>>,
    pub(crate) len: u32,
}

impl<T: Copy> Model for Edit<T> {
    ghost use Rattle.std.specs.Prelude.{map, take};
    ghost use Rattle.lama_array.specs.Draft.{Draft, draft_code};
    ghost use Rattle.lama_array.specs.Held.{is_own, records_of};
    ghost use Rattle.lama_array.specs.Paged.{IsPaged, joined};

    ghost Value = { Draft T };

    ghost coded = { draft_code T.code };

    ghost view = { λ edit. record { items = take edit.len (joined (map records_of edit.held.items)); owned = map is_own edit.held.items } };

    ghost invariant = { λ edit. IsPaged edit.len (map records_of edit.held.items) };
}

impl<T: Copy> Edit<T> {
    // An empty list.
    pub(crate) fn new(alloc: Global) -> Edit<T>
        ensures items { result.items ≡ [] }
        ensures owned { result.owned ≡ [] }
    {
        Edit {
            held: Vec::new(alloc),
            len: 0,
        }
    }

    // Adds `x` at the end, as the first record of a page of its own.
    pub(crate) fn begin_page<L: Ledger>(
        &mut self,
        x: T,
        pages: &mut Steps<L>,
    ) -> Result<(), AllocError>
        requires room { length self.old.items < 67108864 }
        requires at_edge { length self.old.items % 256 ≡ 0 }
        ensures items { OnOk result (self.new.items ≡ self.old.items ++ x ∷ []) }
        ensures owned { OnOk result (self.new.owned ≡ self.old.owned ++ true ∷ []) }
        ensures refused { OnErr result (self.new ≡ self.old) }
        ensures made { pages.new ≡ pages.old + (if is_ok result then 1 else 0) }
    {
        self.held.reserve(1)?;
        let page = Page::fill(*self.held.allocator(), x, pages)?;
        self.held.push(Held::Own(page))?;
        self.len += 1;
        Ok(())
    }

    // Adds `x` at the end, in the last page.
    pub(crate) fn push_in_page<L: Ledger>(
        &mut self,
        x: T,
        pages: &mut Steps<L>,
    ) -> Result<(), AllocError>
        requires room { length self.old.items < 67108864 }
        requires inside { 0 < length self.old.items % 256 }
        ensures items { OnOk result (self.new.items ≡ self.old.items ++ x ∷ []) }
        ensures owned { OnOk result (self.new.owned ≡ slice_set self.old.owned (length self.old.items / 256) true) }
        ensures refused { OnErr result (self.new ≡ self.old) }
        ensures made { pages.new ≡ pages.old + (if is_ok result && not (owns self.old (length self.old.items / 256)) then 1 else 0) }
    {
        let i = self.len as usize;
        let tail = &mut self.held[i / PAGE_RECORDS];
        tail.own(pages)?;
        tail.set(i % PAGE_RECORDS, x);
        self.len += 1;
        Ok(())
    }

    /// How many records the list has.
    pub fn len(&self) -> u32
        ensures { result ≡ length self.now.items }
    {
        self.len
    }

    /// The record at `i`: the page is looked up by its number and read there, with no search.
    pub fn get(&self, i: u32) -> T
        requires { i < length self.now.items }
        ensures { result ≡ slice_index_or self.now.items i result }
    {
        let i = i as usize;
        self.held[i / PAGE_RECORDS].page().get(i % PAGE_RECORDS)
    }

    /// Writes `x` over the record at `i`. A page that is not the edit's own is copied first, which makes one page; a
    /// write to an own page makes none. Where it is refused, the edit is as before.
    pub fn set<L: Ledger>(&mut self, i: u32, x: T, pages: &mut Steps<L>) -> Result<(), AllocError>
        requires { i < length self.old.items }
        ensures items { OnOk result (self.new.items ≡ slice_set self.old.items i x) }
        ensures owned { OnOk result (self.new.owned ≡ slice_set self.old.owned (i / 256) true) }
        ensures now_owned { OnOk result (owns self.new (i / 256) ≡ true) }
        ensures refused { OnErr result (self.new ≡ self.old) }
        ensures made { pages.new ≡ pages.old + (if is_ok result && not (owns self.old (i / 256)) then 1 else 0) }
    {
        let i = i as usize;
        let held = &mut self.held[i / PAGE_RECORDS];
        held.own(pages)?;
        held.set(i % PAGE_RECORDS, x);
        Ok(())
    }

    /// Adds `n` records `x` at the end. Pages that are wholly `x` are one page, however many there are.
    /// Where it is refused, the edit is as before.
    pub fn extend_filled<L: Ledger>(
        &mut self,
        n: u32,
        x: T,
        pages: &mut Steps<L>,
    ) -> Result<(), AllocError>
        requires { length self.old.items + n ≤ 67108864 }
        ensures items { OnOk result (self.new.items ≡ self.old.items ++ replicate n x) }
        ensures still_owned { OnOk result ((k : ℕ) → owns self.old k ≡ true → owns self.new k ≡ true) }
        ensures refused { OnErr result (self.new ≡ self.old) }
        ensures made { pages.new ≤ pages.old + 2 }
    {
        if n == 0 {
            return Ok(());
        }
        grow(&mut self.held, self.len, n, x, pages)?;
        self.len += n;
        Ok(())
    }

    /// The version with the edit's list. It copies no record and makes no page. Where it is refused, the edit is
    /// given up, and every version stays.
    pub fn freeze(self) -> Result<VArray<T>, AllocError>
        ensures { IfOk result (λ version. version ≡ self.items) }
    {
        let Edit { held, len } = self;
        let alloc = *held.allocator();
        let mut table = Vec::with_capacity(alloc, held.len())?;
        for page in held {
            table.push(page.into_shared(alloc)?)?;
        }
        let table = Table::new(alloc, table)?;
        Ok(VArray { table, len })
    }
}
