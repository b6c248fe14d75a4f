// Pages at the end of an edit's list of pages.
ghost use Rattle.std.specs.Prelude.{◌≡◌, ℕ, ◌+◌, ◌-◌, ◌/◌, ◌<◌, ◌≤◌, ◌++◌, [], ◌∷◌, OnErr, OnOk, false, map, replicate, slice_index_or, slice_set, take, true, vec_len};
ghost use Rattle.std.specs.Arc.{arc_value};
ghost use Rattle.lama_array.specs.Held.{is_own, records_of};
ghost use Rattle.lama_array.specs.Paged.{IsPaged, joined};

use crate::held::Held;
use lama_pages::{PAGE_RECORDS, Page, Steps};
use std::alloc::{AllocError, Global};
use std::sync::Arc;
use std::sync::ledger::Ledger;

// How many pages that many records need.
pub(crate) fn pages_for(len: u32) -> usize
    ensures { result ≡ (len + 255) / 256 }
{
    (len as usize).div_ceil(PAGE_RECORDS)
}

// One more owner of the page, at the end.
fn push_shared<T: Copy>(
    held: &mut Vec<Held<T>>,
    page: &Arc<Page<T>, Global>,
) -> Result<(), AllocError>
    ensures records { OnOk result (map records_of held.new.items ≡ map records_of held.old.items ++ arc_value page.now ∷ []) }
    ensures owned { OnOk result (map is_own held.new.items ≡ map is_own held.old.items ++ false ∷ []) }
    ensures before { OnOk result (take (vec_len held.old) held.new.items ≡ held.old.items) }
    ensures refused { OnErr result (held.new.items ≡ held.old.items) }
{
    held.push(Held::Shared(Arc::try_clone(page)?))?;
    Ok(())
}

// The page that many times at the end. Where it is refused, the list is as before.
fn push_times<T: Copy>(
    held: &mut Vec<Held<T>>,
    page: &Arc<Page<T>, Global>,
    count: usize,
) -> Result<(), AllocError>
    ensures records { OnOk result (map records_of held.new.items ≡ map records_of held.old.items ++ replicate count (arc_value page.now)) }
    ensures owned { OnOk result (map is_own held.new.items ≡ map is_own held.old.items ++ replicate count false) }
    ensures before { OnOk result (take (vec_len held.old) held.new.items ≡ held.old.items) }
    ensures refused { OnErr result (held.new.items ≡ held.old.items) }
{
    let before = held.len();
    for _ in 0..count {
        if push_shared(held, page).is_err() {
            held.truncate(before);
            return Err(AllocError);
        }
    }
    Ok(())
}

// That many pages of records `x` at the end, which are one page. Where it is refused, the list is as before.
pub(crate) fn push_filled<T: Copy, L: Ledger>(
    held: &mut Vec<Held<T>>,
    count: usize,
    x: T,
    pages: &mut Steps<L>,
) -> Result<(), AllocError>
    ensures records { OnOk result (map records_of held.new.items ≡ map records_of held.old.items ++ replicate count (replicate 256 x)) }
    ensures owned { OnOk result (map is_own held.new.items ≡ map is_own held.old.items ++ replicate count false) }
    ensures before { OnOk result (take (vec_len held.old) held.new.items ≡ held.old.items) }
    ensures refused { OnErr result (held.new.items ≡ held.old.items) }
    ensures made { pages.new ≤ pages.old + 1 }
{
    if count == 0 {
        return Ok(());
    }
    held.reserve_exact(count)?;
    let alloc = *held.allocator();
    let page = Arc::new(alloc, Page::fill(alloc, x, pages)?)?;
    push_times(held, &page, count)
}

// Writes `x` over the records from `from` on of the page at `at`, which becomes the edit's own.
fn fill_tail<T: Copy, L: Ledger>(
    held: &mut Vec<Held<T>>,
    at: usize,
    from: usize,
    x: T,
    pages: &mut Steps<L>,
) -> Result<(), AllocError>
    requires at_page { at < vec_len held.old }
    requires within { from < 256 }
    ensures records { OnOk result (map records_of held.new.items ≡ slice_set (map records_of held.old.items) at (take from (slice_index_or (map records_of held.old.items) at []) ++ replicate (256 - from) x)) }
    ensures owned { OnOk result (map is_own held.new.items ≡ slice_set (map is_own held.old.items) at true) }
    ensures refused { OnErr result (held.new.items ≡ held.old.items) }
    ensures made { pages.new ≤ pages.old + 1 }
{
    let tail = &mut held[at];
    tail.own(pages)?;
    tail.fill_from(from, x);
    Ok(())
}

// `n` records `x` after the first `len`. Where it is refused, the list is as before.
pub(crate) fn grow<T: Copy, L: Ledger>(
    held: &mut Vec<Held<T>>,
    len: u32,
    n: u32,
    x: T,
    pages: &mut Steps<L>,
) -> Result<(), AllocError>
    requires some { 0 < n }
    requires room { len + n ≤ 67108864 }
    requires paged { IsPaged len (map records_of held.old.items) }
    ensures paged { OnOk result (IsPaged (len + n) (map records_of held.new.items)) }
    ensures items { OnOk result (take (len + n) (joined (map records_of held.new.items)) ≡ take len (joined (map records_of held.old.items)) ++ replicate n x) }
    ensures still_owned { OnOk result ((k : ℕ) → slice_index_or (map is_own held.old.items) k false ≡ true → slice_index_or (map is_own held.new.items) k false ≡ true) }
    ensures refused { OnErr result (held.new.items ≡ held.old.items) }
    ensures made { pages.new ≤ pages.old + 2 }
{
    let old_pages = held.len();
    let filled = len as usize % PAGE_RECORDS;
    push_filled(held, pages_for(len + n) - old_pages, x, pages)?;
    if filled == 0 {
        return Ok(());
    }
    match fill_tail(held, old_pages - 1, filled, x, pages) {
        Ok(()) => Ok(()),
        Err(refused) => {
            held.truncate(old_pages);
            Err(refused)
        }
    }
}
