ghost use Rattle.std.specs.Prelude.{◌≡◌, ◌+◌, ◌%◌, ◌<◌, ◌++◌, ◌==◌, ◌&&◌, [], ◌∷◌, IfOk, if◌then◌else◌, is_ok, length};

use crate::{Edit, VArray};
use lama_pages::{PAGE_RECORDS, Steps};
use std::alloc::{AllocError, Global};
use std::marker::Model;
use std::sync::ledger::Ledger;

/// Builds a version record by record, each written once into its page. A contract sees it as the list so far.
#[derive(Drop)]
pub struct Builder<T: Copy> {
    edit: Edit<T>,
}

impl<T: Copy> Model for Builder<T> {
    ghost use Rattle.std.specs.Prelude.{◌≡◌, List, ◌+◌, ◌/◌, length, replicate, true};

    ghost Value = { List T };

    ghost view = { λ builder. builder.edit.items };

    ghost invariant = { λ builder. builder.edit.owned ≡ replicate ((length builder.edit.items + 255) / 256) true };
}

impl<T: Copy> Builder<T> {
    /// With no record yet.
    pub fn new(alloc: Global) -> Builder<T>
        ensures { result ≡ [] }
    {
        Builder {
            edit: Edit::new(alloc),
        }
    }

    /// Adds `x` at the end. It makes a page at each 256th record, from the first on, and none where it is refused.
    pub fn push<L: Ledger>(&mut self, x: T, pages: &mut Steps<L>) -> Result<(), AllocError>
        requires { length self.old < 67108864 }
        ensures items { self.new ≡ (if is_ok result then self.old ++ x ∷ [] else self.old) }
        ensures made { pages.new ≡ pages.old + (if is_ok result && (length self.old % 256 == 0) then 1 else 0) }
    {
        if self.edit.len() as usize % PAGE_RECORDS == 0 {
            self.edit.begin_page(x, pages)
        } else {
            self.edit.push_in_page(x, pages)
        }
    }

    /// The version with the records pushed. It copies no record and makes no page. Where it is refused, the records
    /// are given up.
    pub fn finish(self) -> Result<VArray<T>, AllocError>
        ensures { IfOk result (λ version. version ≡ self) }
    {
        let Builder { edit } = self;
        edit.freeze()
    }
}
