// A page as an edit holds it.
ghost use Rattle.std.specs.Prelude.{◌≡◌, ◌+◌, ◌-◌, ◌<◌, ◌&&◌, ◌++◌, IfOk, OnErr, OnOk, if◌then◌else◌, is_ok, not, replicate, slice_set, take, true};
ghost use Rattle.std.specs.Arc.{arc_value};
ghost use Rattle.lama_array.specs.Held.{is_own, records_of};

use lama_pages::{PAGE_RECORDS, Page, Steps};
use std::alloc::{AllocError, Global};
use std::sync::Arc;
use std::sync::ledger::Ledger;

// A page of an edit: shared with versions, or its own.
#[derive(Drop)]
pub(crate) enum Held<T: Copy> {
    Shared(Arc<Page<T>, Global>),
    Own(Page<T>),
}

// Writes `x` over the records from `from` on.
fn fill_from<T: Copy>(page: &mut Page<T>, from: usize, x: T)
    requires { from < 256 }
    ensures { page.new ≡ take from page.old ++ replicate (256 - from) x }
{
    for i in from..PAGE_RECORDS {
        page.set(i, x);
    }
}

impl<T: Copy> Held<T> {
    pub(crate) fn page(&self) -> &Page<T>
        ensures { result.now ≡ records_of self.now }
    {
        match self {
            Held::Shared(page) => &**page,
            Held::Own(page) => page,
        }
    }

    // A shared page is copied, so that the page is the edit's own.
    pub(crate) fn own<L: Ledger>(&mut self, pages: &mut Steps<L>) -> Result<(), AllocError>
        ensures records { records_of self.new ≡ records_of self.old }
        ensures own { OnOk result (is_own self.new ≡ true) }
        ensures refused { OnErr result (self.new ≡ self.old) }
        ensures made { pages.new ≡ pages.old + (if is_ok result && not (is_own self.old) then 1 else 0) }
    {
        let copied = match &*self {
            Held::Shared(page) => page.copy(pages)?,
            Held::Own(_) => return Ok(()),
        };
        *self = Held::Own(copied);
        Ok(())
    }

    pub(crate) fn set(&mut self, i: usize, x: T)
        requires own { is_own self.old ≡ true }
        requires within { i < 256 }
        ensures records { records_of self.new ≡ slice_set (records_of self.old) i x }
        ensures own { is_own self.new ≡ true }
    {
        match self {
            Held::Own(page) => page.set(i, x),
            Held::Shared(_) => unreachable!(),
        }
    }

    pub(crate) fn fill_from(&mut self, from: usize, x: T)
        requires own { is_own self.old ≡ true }
        requires within { from < 256 }
        ensures records { records_of self.new ≡ take from (records_of self.old) ++ replicate (256 - from) x }
        ensures own { is_own self.new ≡ true }
    {
        match self {
            Held::Own(page) => fill_from(page, from, x),
            Held::Shared(_) => unreachable!(),
        }
    }

    pub(crate) fn into_shared(self, alloc: Global) -> Result<Arc<Page<T>, Global>, AllocError>
        ensures { IfOk result (λ page. arc_value page ≡ records_of self) }
    {
        match self {
            Held::Shared(page) => Ok(page),
            Held::Own(page) => Ok(Arc::new(alloc, page)?),
        }
    }
}
