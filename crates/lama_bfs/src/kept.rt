// A list that is written ahead of its end.
ghost use Rattle.std.specs.Prelude.{◌≡◌, ◌++◌, [], ◌∷◌, OnOk, if◌then◌else◌, length};

use std::alloc::{AllocError, Global};
use std::marker::Model;

// A list of vertices. What is put there is written behind its end first, and then kept or not, so no branch is needed for
// that. A contract sees it as what was kept.
#[derive(Drop)]
pub(crate) struct Kept {
    items: Vec<u32>,
    len: usize,
}

impl Model for Kept {
    ghost use Rattle.std.specs.Prelude.{ℕ, List, ◌≤◌, length, take};

    ghost Value = { List ℕ };

    ghost view = { λ kept. take kept.len kept.items.items };

    ghost invariant = { λ kept. kept.len ≤ length kept.items.items };
}

impl Kept {
    // With nothing kept.
    pub(crate) fn new(alloc: Global) -> Kept
        ensures { result ≡ [] }
    {
        Kept {
            items: Vec::new(alloc),
            len: 0,
        }
    }

    // How many are kept.
    pub(crate) fn len(&self) -> usize
        ensures { result ≡ length self.now }
    {
        self.len
    }

    // Gives up all.
    pub(crate) fn clear(&mut self)
        ensures { self.new ≡ [] }
    {
        self.len = 0;
    }

    // Puts a vertex at the end, to be kept or not.
    #[inline(always)]
    pub(crate) fn put(&mut self, v: u32, keep: bool) -> Result<(), AllocError>
        ensures { OnOk result (self.new ≡ (if keep then self.old ++ v ∷ [] else self.old)) }
    {
        if self.len < self.items.len() {
            self.items[self.len] = v;
        } else {
            self.items.push(v)?;
        }
        self.len += usize::from(keep);
        Ok(())
    }

    // Those that are kept.
    pub(crate) fn as_slice(&self) -> &[u32]
        ensures { result.now ≡ self.now }
    {
        &self.items[..self.len]
    }
}
