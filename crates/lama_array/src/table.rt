// The table of a version: for each 256 records one entry, which is the page that they stand in.
ghost use Rattle.std.specs.Prelude.{◌≡◌, ◌<◌, IfOk, length, map, slice_index_or, vec_len};
ghost use Rattle.std.specs.Arc.{arc_value};
ghost use Rattle.std.specs.Vec.{vec_ptr};

use lama_pages::Page;
use std::alloc::{AllocError, Allocator, Global};
use std::marker::{Model, Send, Sync};
use std::sync::Arc;

// Where the entries of a table begin. It owns nothing.
#[derive(Drop)]
pub(crate) struct First<E> {
    at: *const E,
}

unsafe impl<E> Send for First<E> {}

unsafe impl<E> Sync for First<E> {}

// The entries stand in a vector that versions share. `first` is where they begin, so that an entry is found without a
// look into the vector: a version stands behind this one pointer.
#[derive(Drop)]
pub(crate) struct Table<T: Copy> {
    entries: Arc<Vec<Arc<Page<T>, Global>>, Global>,
    first: First<Arc<Page<T>, Global>>,
}

// A contract sees a table as the records of its pages, page by page.
impl<T: Copy> Model for Table<T> {
    ghost use Rattle.std.specs.Prelude.{◌≡◌, List, map};
    ghost use Rattle.std.specs.Arc.{arc_value};
    ghost use Rattle.std.specs.Vec.{vec_ptr};

    ghost Value = { List (List T) };

    ghost view = { λ table. map arc_value (arc_value table.entries).items };

    ghost invariant = { λ table. table.first.at ≡ vec_ptr (arc_value table.entries) };
}

// The item at `i` of a vector whose items begin at `first`. It reads no field of the vector.
fn item_at<E, A: Allocator>(items: &Vec<E, A>, first: *const E, i: usize) -> &E
    requires { (first ≡ vec_ptr items.now) × (i < vec_len items.now) }
    ensures { result.now ≡ slice_index_or items.now.items i result.now }
{
    unsafe { &*first.add(i) }
}

impl<T: Copy> Table<T> {
    pub(crate) fn new(
        alloc: Global,
        entries: Vec<Arc<Page<T>, Global>>,
    ) -> Result<Table<T>, AllocError>
        ensures { IfOk result (λ table. table ≡ map arc_value entries.items) }
    {
        let first = First {
            at: entries.as_ptr(),
        };
        let entries = Arc::new(alloc, entries)?;
        Ok(Table { entries, first })
    }

    // The page of entry `k`.
    pub(crate) fn page(&self, k: usize) -> &Page<T>
        requires { k < length self.now }
        ensures { result.now ≡ slice_index_or self.now k result.now }
    {
        let entry: &Arc<Page<T>, Global> = item_at(&*self.entries, self.first.at, k);
        &**entry
    }

    // The same table once more.
    pub(crate) fn share(&self) -> Result<Table<T>, AllocError>
        ensures { IfOk result (λ table. table ≡ self.now) }
    {
        Ok(Table {
            entries: Arc::try_clone(&self.entries)?,
            first: First { at: self.first.at },
        })
    }

    pub(crate) fn entries(&self) -> &Vec<Arc<Page<T>, Global>>
        ensures { map arc_value result.now.items ≡ self.now }
    {
        &*self.entries
    }
}
