ghost use Rattle.std.specs.Prelude.{◌≡◌, ◌+◌, ◌/◌, ◌<◌, ◌≤◌, ◌++◌, All, IfOk, OnOk, Some, length, slice_get};
ghost use Rattle.lama_edges.specs.Table.{fragment_slots, table_slots, HasTail, HasEdge};
ghost use Rattle.lama_edges.specs.declared.records.Slot.TheVariants.{Edge};

use crate::builder::TableBuilder;
use crate::records::{Fragment, Slot};
use crate::tails::{Tail, next_of, slot_of};
use lama_array::VArray;
use lama_pages::Steps;
use std::alloc::{AllocError, Global};
use std::marker::Model;
use std::sync::ledger::Ledger;

/// The edge table of one level: fragments of adjacency lists, one after another. A contract sees it as the list of its
/// slots.
///
/// It never changes. It takes a page for each 256 slots, of four bytes for each, and beside them 24 for the tail of
/// each fragment.
#[derive(Drop)]
pub struct EdgeTable {
    // Of an edge its target, and of a tail its number in `tails`.
    pub(crate) words: VArray<u32>,
    pub(crate) tails: Vec<Tail>,
}

impl Model for EdgeTable {
    ghost use Rattle.std.specs.Prelude.{List, length};
    ghost use Rattle.lama_edges.specs.declared.records.Slot.{Slot};
    ghost use Rattle.lama_edges.specs.Placed.{slots_from, AreNumbered, AreTails};

    ghost Value = { List Slot };

    ghost view = { λ table. slots_from table.tails.items 0 table.words };

    ghost invariant = { λ table. AreTails (length table.words) table.tails.items × AreNumbered table.words table.tails.items };
}

impl EdgeTable {
    /// The table of these fragments, in their order: for each its targets as `Edge` slots, and then its tail.
    ///
    /// The time is by the number of slots, each of which is written once. The only error is want of memory, and then
    /// the pages that were made are given back.
    pub fn build<L: Ledger>(
        alloc: Global,
        fragments: &[Fragment],
        pages: &mut Steps<L>,
    ) -> Result<EdgeTable, AllocError>
        requires tails { All HasTail fragments.now }
        requires room { length (table_slots fragments.now) ≤ 67108864 }
        ensures slots { IfOk result (λ table. table ≡ table_slots fragments.now) }
        ensures made { OnOk result
            (pages.new ≡ pages.old + (length (table_slots fragments.now) + 255) / 256) }
        ensures at_most { pages.new ≤ pages.old + (length (table_slots fragments.now) + 255) / 256 }
    {
        let mut slots = TableBuilder::new(alloc);
        for fragment in fragments {
            push_fragment(&mut slots, fragment, pages)?;
        }
        slots.finish()
    }

    /// How many slots the table has, tails among them.
    pub fn len(&self) -> u32
        ensures { result ≡ length self.now }
    {
        self.words.len()
    }

    /// The slot at place `i`, counted from 0, with no search. It takes no memory.
    pub fn slot(&self, i: u32) -> Slot
        requires { i < length self.now }
        ensures { slice_get self.now i ≡ Some result }
    {
        slot_of(&self.tails, i, self.words.get(i))
    }

    /// The tail at place `i`, counted from 0, where its number is `near`, and else the slot that is there; and what number
    /// the tail is said to have to which that one leads. A right `near` saves a look at the slots. It takes no memory.
    #[inline(always)]
    pub fn tail(&self, i: u32, near: u32) -> (Slot, u32)
        requires { i < length self.now }
        ensures { slice_get self.now i ≡ Some result.0 }
    {
        if let Some(tail) = self.tails.get(near as usize) {
            if tail.place == i {
                return (tail.slot, tail.next);
            }
        }
        let word = self.words.get(i);
        (slot_of(&self.tails, i, word), next_of(&self.tails, word))
    }

    /// The number of the tail at place `i`, counted from 0, or anything where no tail is there. It takes no memory.
    pub fn tail_number(&self, i: u32) -> u32 {
        if i < self.len() { self.words.get(i) } else { 0 }
    }

    /// The target of the edge at place `i`, counted from 0, with no search. It takes no memory.
    #[inline(always)]
    pub fn target(&self, i: u32) -> u32
        requires { HasEdge self.now i }
        ensures { slice_get self.now i ≡ Some (Edge result) }
    {
        self.words.get(i)
    }
}

// Adds the slots of a fragment at the end.
fn push_fragment<L: Ledger>(
    slots: &mut TableBuilder,
    fragment: &Fragment,
    pages: &mut Steps<L>,
) -> Result<(), AllocError>
    requires { length slots.old + length (fragment_slots fragment.now) ≤ 67108864 }
    ensures ok { OnOk result (slots.new ≡ slots.old ++ fragment_slots fragment.now) }
    ensures made { OnOk result
        (pages.new + (length slots.old + 255) / 256 ≡ pages.old + (length slots.new + 255) / 256) }
    ensures at_most { pages.new + (length slots.old + 255) / 256
        ≤ pages.old + (length slots.old + length (fragment_slots fragment.now) + 255) / 256 }
{
    for &target in &fragment.targets {
        slots.push(Slot::Edge { target }, pages)?;
    }
    slots.push(fragment.tail, pages)
}

#[cfg(test)]
mod tests {
    use super::*;
    use std::marker::Brand;
    use std::sync::ledger::Blank;
    use std::test::Fail;

    // Compiles only at a type that threads may pass on and share.
    fn require_shared<T: Send + Sync>() {}

    // A table of two fragments. Its contract, which is proved, counts the page: exactly one.
    fn two_fragments<L: Ledger>(
        alloc: Global,
        pages: &mut Steps<L>,
    ) -> Result<EdgeTable, AllocError>
        ensures slots { IfOk result (λ table. length table ≡ 5) }
        ensures made { OnOk result (pages.new ≡ pages.old + 1) }
    {
        let first = Fragment {
            targets: vec![in alloc; 2, 1]?,
            tail: Slot::End,
        };
        let second = Fragment {
            targets: vec![in alloc; 5]?,
            tail: Slot::Next {
                level: 0,
                offset: 0,
                len: 2,
            },
        };
        let fragments = vec![in alloc; first, second]?;
        EdgeTable::build(alloc, &fragments, pages)
    }

    // The same, with a counter of its own.
    fn two_fragments_counted<L: Ledger>(
        alloc: Global,
        blank: Blank,
    ) -> Result<EdgeTable, AllocError>
        requires name { blank.name ≡ L.name }
        requires parts { blank.parts ≡ L.parts }
        requires one { blank.parts ≡ 1 }
        ensures { IfOk result (λ table. length table ≡ 5) }
    {
        let mut pages = Steps::<L>::open(blank);
        two_fragments(alloc, &mut pages)
    }

    #[test]
    fn each_fragment_is_its_targets_and_then_its_tail(rt: HostRuntime) -> Result<(), Fail> {
        let table = two_fragments_counted::<Brand>(rt.alloc(), Blank::new(1))?;
        assert_eq!(rt; table.len(), 5);
        assert_eq!(rt; table.slot(0), Slot::Edge { target: 2 });
        assert_eq!(rt; table.slot(1), Slot::Edge { target: 1 });
        assert_eq!(rt; table.slot(2), Slot::End);
        assert_eq!(rt; table.slot(3), Slot::Edge { target: 5 });
        let older = Slot::Next {
            level: 0,
            offset: 0,
            len: 2,
        };
        assert_eq!(rt; table.slot(4), older);
        Ok(())
    }

    #[test]
    fn threads_may_share_a_table(_rt: HostRuntime) -> Result<(), Fail> {
        require_shared::<EdgeTable>();
        Ok(())
    }
}
