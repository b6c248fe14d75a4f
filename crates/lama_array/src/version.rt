ghost use Rattle.std.specs.Prelude.{◌≡◌, ◌+◌, ◌/◌, ◌<◌, ◌≤◌, IfOk, OnOk, false, length, replicate, slice_index_or};

use crate::Edit;
use crate::builder::Builder;
use crate::grow::{pages_for, push_filled};
use crate::held::Held;
use crate::table::Table;
use lama_pages::{PAGE_RECORDS, Steps};
use std::alloc::{AllocError, Global};
use std::marker::Model;
use std::sync::Arc;
use std::sync::ledger::Ledger;

/// One version of an array. A contract sees it as its list, which never changes.
///
/// Its indirection table and its pages are shared with other versions and with edits.
#[derive(Drop)]
pub struct VArray<T: Copy> {
    pub(crate) table: Table<T>,
    pub(crate) len: u32,
}

impl<T: Copy> Model for VArray<T> {
    ghost use Rattle.std.specs.Prelude.{List, take};
    ghost use Rattle.lama_array.specs.Paged.{IsPaged, joined};

    ghost Value = { List T };

    ghost view = { λ version. take version.len (joined version.table) };

    ghost invariant = { λ version. IsPaged version.len version.table };
}

impl<T: Copy> VArray<T> {
    /// `n` records `x`. All pages of the version are one page, so it makes at most one.
    pub fn filled<L: Ledger>(
        alloc: Global,
        n: u32,
        x: T,
        pages: &mut Steps<L>,
    ) -> Result<VArray<T>, AllocError>
        ensures items { IfOk result (λ version. version ≡ replicate n x) }
        ensures made { pages.new ≤ pages.old + 1 }
    {
        let mut held = Vec::new(alloc);
        push_filled(&mut held, pages_for(n), x, pages)?;
        Edit { held, len: n }.freeze()
    }

    /// The version with these records. Each is written once.
    pub fn build<L: Ledger>(
        alloc: Global,
        items: &[T],
        pages: &mut Steps<L>,
    ) -> Result<VArray<T>, AllocError>
        requires { length items.now ≤ 67108864 }
        ensures items { IfOk result (λ version. version ≡ items.now) }
        ensures made { OnOk result (pages.new ≡ pages.old + (length items.now + 255) / 256) }
        ensures at_most { pages.new ≤ pages.old + (length items.now + 255) / 256 }
    {
        let mut builder = Builder::new(alloc);
        for x in items {
            builder.push(*x, pages)?;
        }
        builder.finish()
    }

    /// How many records the version has.
    pub fn len(&self) -> u32
        ensures { result ≡ length self.now }
    {
        self.len
    }

    /// The record at `i`: the page is looked up in the indirection table and read there, with no search.
    pub fn get(&self, i: u32) -> T
        requires { i < length self.now }
        ensures { result ≡ slice_index_or self.now i result }
    {
        let i = i as usize;
        self.table.page(i / PAGE_RECORDS).get(i % PAGE_RECORDS)
    }

    /// The same version once more. It makes no page and copies no table.
    pub fn share(&self) -> Result<VArray<T>, AllocError>
        ensures { IfOk result (λ version. version ≡ self.now) }
    {
        Ok(VArray {
            table: self.table.share()?,
            len: self.len,
        })
    }

    /// An edit with the version's list, which owns no page yet. It copies the indirection table, of one entry for
    /// 256 records, and no page.
    pub fn edit(&self) -> Result<Edit<T>, AllocError>
        ensures items { IfOk result (λ edit. edit.items ≡ self.now) }
        ensures owned { IfOk result (λ edit. edit.owned ≡ replicate ((length self.now + 255) / 256) false) }
    {
        let table = self.table.entries();
        let mut held = Vec::with_capacity(*table.allocator(), table.len())?;
        for page in table {
            held.push(Held::Shared(Arc::try_clone(page)?))?;
        }
        Ok(Edit {
            held,
            len: self.len,
        })
    }
}
