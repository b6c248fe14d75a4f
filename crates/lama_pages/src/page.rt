ghost use Rattle.std.specs.Prelude.{◌≡◌, ◌+◌, ◌<◌, [], IfOk, if◌then◌else◌, is_ok, length, replicate, slice_index_or, slice_set};

use crate::Steps;
use crate::block::{Block, free, make};
use std::alloc::{AllocError, Global};
use std::marker::Model;
use std::sync::ledger::Ledger;
use std_alloc::room::may_hold;

/// How many records a page has.
pub const PAGE_RECORDS: usize = 256;

/// A block of 256 records. A contract sees it as the list of them.
///
/// The block is raw memory, written record by record and handed out once all are written; a page is its pointer. Only
/// `fill` and `copy` make a page, and each counts it in `pages` where it answers Ok. The page's memory is given back
/// when it is dropped.
pub struct Page<T: Copy> {
    block: Block<T, Global>,
    alloc: Global,
}

impl<T: Copy> Model for Page<T> {
    ghost use Rattle.std.specs.Prelude.{◌≡◌, List, length};

    ghost Value = { List T };

    ghost view = { λ page. page.block.written };

    ghost invariant = { λ page. (length page.block.written ≡ 256) × (page.block.alloc ≡ page.alloc) };
}

impl<T: Copy> Drop for Page<T> {
    fn drop(self) {
        let Page { block, alloc } = self;
        free(&alloc, block);
    }
}

// A block for records of this type, with no place written. A record may be too large for any block.
fn begin<T>(alloc: Global) -> Result<Block<T, Global>, AllocError>
    ensures written { IfOk result (λ block. block.written ≡ []) }
    ensures alloc { IfOk result (λ block. block.alloc ≡ alloc) }
{
    if !may_hold::<T>(PAGE_RECORDS) {
        return Err(AllocError);
    }
    make(&alloc)
}

impl<T: Copy> Page<T> {
    // The page of a block that is written to its end. Here alone a page is made, and counted.
    fn counted<L: Ledger>(block: Block<T, Global>, alloc: Global, pages: &mut Steps<L>) -> Page<T>
        requires full { length block.written ≡ 256 }
        requires from { block.alloc ≡ alloc }
        ensures records { result ≡ block.written }
        ensures made { pages.new ≡ pages.old + 1 }
    {
        pages.tick();
        Page { block, alloc }
    }

    /// A page whose records are all `x`.
    pub fn fill<L: Ledger>(alloc: Global, x: T, pages: &mut Steps<L>) -> Result<Page<T>, AllocError>
        ensures records { IfOk result (λ page. page ≡ replicate 256 x) }
        ensures made { pages.new ≡ pages.old + (if is_ok result then 1 else 0) }
    {
        let mut block = begin(alloc)?;
        for at in 0..PAGE_RECORDS {
            block.put(at, x);
        }
        Ok(Page::counted(block, alloc, pages))
    }

    /// A page of its own with the same records.
    pub fn copy<L: Ledger>(&self, pages: &mut Steps<L>) -> Result<Page<T>, AllocError>
        ensures records { IfOk result (λ page. page ≡ self.now) }
        ensures made { pages.new ≡ pages.old + (if is_ok result then 1 else 0) }
    {
        let mut block = begin(self.alloc)?;
        for i in 0..PAGE_RECORDS {
            block.put(i, *self.block.get(i));
        }
        Ok(Page::counted(block, self.alloc, pages))
    }

    /// The record at `i`. It takes no memory.
    pub fn get(&self, i: usize) -> T
        requires { i < 256 }
        ensures whole { length self.now ≡ 256 }
        ensures record_at { result ≡ slice_index_or self.now i result }
    {
        *self.block.get(i)
    }

    /// Writes `x` over the record at `i`. It takes no memory.
    pub fn set(&mut self, i: usize, x: T)
        requires { i < 256 }
        ensures whole { length self.old ≡ 256 }
        ensures records { self.new ≡ slice_set self.old i x }
    {
        self.block.put(i, x);
    }
}
