// The block of raw memory behind a page. Only this file touches its pointer.
//
// A block has 256 places for records. The first places are written, in their order, and `written` says with what; the
// others are room that nobody reads. `make` takes the block from the allocator with no place written, `put` writes the
// first place that is not, or one that is, `get` reads a written place, and `free` gives the block back. A block is not
// `Drop`: whoever has one must give it to `free`, with the allocator that it came from.
ghost use Rattle.std.specs.Prelude.{◌≡◌, List, [], ◌<◌, ◌≤◌, IfOk, length, slice_index_or};
ghost use Rattle.std.specs.Vec.Ownership.{FitsInBlock};
ghost use Rattle.lama_pages.specs.Block.{block_owns, block_lends, with_record};

use crate::PAGE_RECORDS;
use std::alloc::{AllocError, Allocator};
use std::marker::{Model, PhantomData, Send, Sync};
use std::mem::{align_of, size_of};

pub(crate) struct Block<T, A: Allocator> {
    start: *mut T,
    by: PhantomData<A>,
    ghost written: { List T },
    ghost alloc: { A },
}

impl<T, A: Allocator> Model for Block<T, A> {
    ghost also_owns = { λ b. block_owns (A.dealloc_token b.alloc) T.row b.start b.written };

    ghost also_shares = { λ b _ κ. block_lends T.row b.start b.written κ };
}

// The block goes where its records and its allocator may go. A `&` to it reaches the records alone.
unsafe impl<T: Send, A: Allocator + Send> Send for Block<T, A> {}

unsafe impl<T: Sync, A: Allocator> Sync for Block<T, A> {}

pub(crate) fn make<T, A: Allocator>(alloc: &A) -> Result<Block<T, A>, AllocError>
    requires { FitsInBlock T.row 256 }
    ensures { IfOk result (λ b. (b.written ≡ []) × (b.alloc ≡ alloc.now)) }
{
    match alloc.allocate(PAGE_RECORDS * size_of::<T>(), align_of::<T>()) {
        Ok(start) => Ok(Block {
            start: start as *mut T,
            by: PhantomData,
        }),
        Err(refused) => Err(refused),
    }
}

// The records are forgotten, so they must be of a type whose values need no drop.
pub(crate) fn free<T, A: Allocator>(alloc: &A, block: Block<T, A>)
    requires { (length block.written ≤ 256) × (block.alloc ≡ alloc.now) }
{
    let Block { start, by: _ } = block;
    unsafe {
        alloc.deallocate(
            start as *mut u8,
            PAGE_RECORDS * size_of::<T>(),
            align_of::<T>(),
        );
    }
}

impl<T, A: Allocator> Block<T, A> {
    // A record that the place holds is forgotten.
    pub(crate) fn put(&mut self, i: usize, x: T)
        requires { (i < 256) × (i ≤ length self.old.written) }
        ensures { (self.new.written ≡ with_record self.old.written i x) × (self.new.alloc ≡ self.old.alloc) }
    {
        unsafe { self.start.add(i).write(x) }
    }

    pub(crate) fn get(&self, i: usize) -> &T
        requires { (i < 256) × (i < length self.now.written) }
        ensures { result.now ≡ slice_index_or self.now.written i result.now }
    {
        unsafe { &*self.start.add(i) }
    }
}
