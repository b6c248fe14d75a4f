ghost use Rattle.std.specs.Prelude.{◌≡◌, ℕ, ◌+◌, ◌-◌, ◌<◌, ◌≤◌, ◌==◌, ◌&&◌, All, IfOk, OnOk, Some, if◌then◌else◌, length, replicate, slice_index};
ghost use Rattle.std.specs.Ordering.{nat_cmp};
ghost use Rattle.std.specs.BTreeMap.{get};
ghost use Rattle.std.specs.Arc.{arc_value};
ghost use Rattle.lama_marks.specs.Places.{AreMarked, is_place};
ghost use Rattle.lama_marks.specs.Narrow.{wide_at, mark_word};

use crate::wide::{Wide, put};
use lama_array::VArray;
use lama_pages::Steps;
use std::alloc::{AllocError, Global};
use std::marker::Model;
use std::sync::ledger::Ledger;

// The word of a mark that stands beside the words.
const WIDE: u16 = u16::MAX;

// The greatest number that marks are counted from.
const GREATEST_BELOW: u32 = u32::MAX - WIDE as u32;

/// One version of the deletion vector of a level: a mark for each slot of its edge table, by the slot's place. A
/// contract sees it as the list of the marks.
///
/// Mark 0 says that the edge stands, and a mark from 1 on is the number of the first snapshot that has not got it.
/// A version never changes. It shares each page that `hide` did not touch with the version that it came from. A mark
/// takes two bytes where its number is not far above that from which the marks are counted, and stands in a map beside
/// the pages too where it is.
#[derive(Drop)]
pub struct Hidden {
    // Of each mark how far above `below` it is, and 0 for mark 0.
    words: VArray<u16>,
    below: u32,
    wide: Wide,
}

impl Model for Hidden {
    ghost use Rattle.std.specs.Prelude.{List, ℕ, ◌<◌, ◌≤◌};
    ghost use Rattle.std.specs.Option.{unwrap_or};
    ghost use Rattle.std.specs.Ordering.{nat_cmp};
    ghost use Rattle.std.specs.BTreeMap.{get};
    ghost use Rattle.std.specs.Arc.{arc_value};
    ghost use Rattle.lama_marks.specs.Narrow.{wide_at, marks_in};

    ghost Value = { List ℕ };

    ghost view = { λ hidden. marks_in hidden.below (wide_at (λ a. get nat_cmp (arc_value a)) hidden.wide.values) hidden.words };

    ghost invariant = { λ hidden. (hidden.below ≤ 4294901760)
        × ((i : ℕ) → unwrap_or (wide_at (λ a. get nat_cmp (arc_value a)) hidden.wide.values i) 0 < 4294967295) };
}

impl Hidden {
    /// The marks of `n` slots, of which all stand. They are one page, however many there are. The only error is want
    /// of memory.
    pub fn standing<L: Ledger>(
        alloc: Global,
        n: u32,
        pages: &mut Steps<L>,
    ) -> Result<Hidden, AllocError>
        ensures marks { IfOk result (λ hidden. hidden ≡ replicate n 0) }
        ensures made { pages.new ≤ pages.old + 1 }
    {
        Hidden::standing_above(alloc, n, 0, pages)
    }

    /// The same, for marks that will be numbers above `below`: those less than 65,535 above it take two bytes.
    pub fn standing_above<L: Ledger>(
        alloc: Global,
        n: u32,
        below: u32,
        pages: &mut Steps<L>,
    ) -> Result<Hidden, AllocError>
        ensures marks { IfOk result (λ hidden. hidden ≡ replicate n 0) }
        ensures made { pages.new ≤ pages.old + 1 }
    {
        Ok(Hidden {
            words: VArray::filled(alloc, n, 0, pages)?,
            below: below.min(GREATEST_BELOW),
            wide: Wide::none(alloc),
        })
    }

    /// The mark of the slot at place `i`, counted from 0, with no search where it takes two bytes. It takes no memory.
    #[inline(always)]
    pub fn hidden_at(&self, i: u32) -> u32
        requires { i < length self.now }
        ensures { result ≡ slice_index self.now i }
    {
        let word = self.words.get(i);
        if word == 0 {
            return 0;
        }
        if word == WIDE {
            return self.wide.get(i) as u32 + 1;
        }
        self.below + u32::from(word)
    }

    /// Whether the slot at place `i`, counted from 0, has mark 0, with no search. It takes no memory.
    #[inline(always)]
    pub fn stands(&self, i: u32) -> bool
        requires { i < length self.now }
        ensures { result ≡ (slice_index self.now i == 0) }
    {
        self.words.get(i) == 0
    }

    /// The same marks once more, in constant time: it makes no page and copies no table. The only error is want of
    /// memory.
    pub fn share(&self) -> Result<Hidden, AllocError>
        ensures { IfOk result (λ hidden. hidden ≡ self.now) }
    {
        Ok(Hidden {
            words: self.words.share()?,
            below: self.below,
            wide: self.wide.share()?,
        })
    }

    /// The version in which the slots at these places are hidden from snapshot `number` on, in place of what was
    /// marked there.
    ///
    /// Costs the places, and a pointer for each page of the version; a page is copied at the first place in it. Where
    /// the number doesn't fit into two bytes, it costs all such marks of the version besides. The only error is want of
    /// memory.
    pub fn hide<L: Ledger>(
        &self,
        places: &[u32],
        number: u32,
        pages: &mut Steps<L>,
    ) -> Result<Hidden, AllocError>
        requires { All (λ place. place < length self.now) places.now }
        ensures marks { IfOk result (λ hidden. AreMarked places.now number self.now hidden) }
        ensures made { pages.new ≤ pages.old + length places.now }
    {
        let word = word_of(self.below, number);
        let words = with_word(&self.words, places, word, pages)?;
        let wide = with_wide(&self.wide, places, word, number)?;
        Ok(Hidden {
            words,
            below: self.below,
            wide,
        })
    }
}

// The word of a mark.
fn word_of(below: u32, number: u32) -> u16
    ensures { result ≡ mark_word below number }
{
    if number == 0 {
        return 0;
    }
    if below < number && number - below < u32::from(WIDE) {
        return (number - below) as u16;
    }
    WIDE
}

// The words with that one at each of these places.
fn with_word<L: Ledger>(
    words: &VArray<u16>,
    places: &[u32],
    word: u16,
    pages: &mut Steps<L>,
) -> Result<VArray<u16>, AllocError>
    requires { All (λ place. place < length words.now) places.now }
    ensures words { IfOk result (λ new. AreMarked places.now word words.now new) }
    ensures made { pages.new ≤ pages.old + length places.now }
{
    let mut edit = words.edit()?;
    for &place in places {
        edit.set(place, word, pages)?;
    }
    edit.freeze()
}

// What stands beside the words, with what stands for this number at each of these places, where its word says so.
fn with_wide(wide: &Wide, places: &[u32], word: u16, number: u32) -> Result<Wide, AllocError>
    ensures { IfOk result (λ new. (i : ℕ) → wide_at (λ a. get nat_cmp (arc_value a)) new.values i ≡
        (if (word == 65535) && is_place i places.now then Some (number - 1) else wide_at (λ a. get nat_cmp (arc_value a)) wide.now.values i)) }
{
    if word != WIDE {
        return wide.share();
    }
    let mut all = wide.thaw()?;
    for &place in places {
        put(&mut all, place, u64::from(number).saturating_sub(1))?;
    }
    Wide::freeze(wide.alloc, all)
}

#[cfg(test)]
mod tests {
    use super::*;
    use std::marker::Brand;
    use std::sync::ledger::Blank;
    use std::test::Fail;

    // Compiles only at a type that threads may pass on and share.
    fn require_shared<T: Send + Sync>() {}

    // 600 marks that stand, and two of them hidden from 3 on. It takes three pages at most.
    fn two_hidden<L: Ledger>(
        alloc: Global,
        pages: &mut Steps<L>,
    ) -> Result<(Hidden, Hidden), AllocError>
        ensures old { IfOk result (λ both. length both.0 ≡ 600) }
        ensures new { IfOk result (λ both. length both.1 ≡ 600) }
        ensures made { pages.new ≤ pages.old + 3 }
    {
        let old = Hidden::standing(alloc, 600, pages)?;
        let new = old.hide(&[255, 511], 3, pages)?;
        Ok((old, new))
    }

    fn two_hidden_counted<L: Ledger>(
        alloc: Global,
        blank: Blank,
    ) -> Result<(Hidden, Hidden), AllocError>
        requires name { blank.name ≡ L.name }
        requires parts { blank.parts ≡ L.parts }
        requires one { blank.parts ≡ 1 }
        ensures old { IfOk result (λ both. length both.0 ≡ 600) }
        ensures new { IfOk result (λ both. length both.1 ≡ 600) }
    {
        let mut pages = Steps::<L>::open(blank);
        two_hidden(alloc, &mut pages)
    }

    #[test]
    fn a_place_is_hidden_in_the_new_version_alone(rt: HostRuntime) -> Result<(), Fail> {
        let (old, new) = two_hidden_counted::<Brand>(rt.alloc(), Blank::new(1))?;
        let shared = new.share()?;
        drop(new);
        for (place, mark) in [(0, 0), (254, 0), (255, 3), (256, 0), (511, 3), (599, 0)] {
            assert_eq!(rt; old.hidden_at(place), 0);
            assert_eq!(rt; shared.hidden_at(place), mark);
        }
        Ok(())
    }

    // Eight marks that are counted from 10, of which two are hidden: the second number takes more than two bytes.
    fn far_numbers<L: Ledger>(
        alloc: Global,
        pages: &mut Steps<L>,
    ) -> Result<(Hidden, Hidden), AllocError>
        ensures old { IfOk result (λ both. length both.0 ≡ 8) }
        ensures new { IfOk result (λ both. length both.1 ≡ 8) }
    {
        let standing = Hidden::standing_above(alloc, 8, 10, pages)?;
        let old = standing.hide(&[1, 7], 65_544, pages)?;
        let new = old.hide(&[2, 7], 65_545, pages)?;
        Ok((old, new))
    }

    fn far_numbers_counted<L: Ledger>(
        alloc: Global,
        blank: Blank,
    ) -> Result<(Hidden, Hidden), AllocError>
        requires name { blank.name ≡ L.name }
        requires parts { blank.parts ≡ L.parts }
        requires one { blank.parts ≡ 1 }
        ensures old { IfOk result (λ both. length both.0 ≡ 8) }
        ensures new { IfOk result (λ both. length both.1 ≡ 8) }
    {
        let mut pages = Steps::<L>::open(blank);
        far_numbers(alloc, &mut pages)
    }

    #[test]
    fn marks_of_any_number_are_read_back(rt: HostRuntime) -> Result<(), Fail> {
        let (old, new) = far_numbers_counted::<Brand>(rt.alloc(), Blank::new(1))?;
        for (place, before, after) in [
            (0, 0, 0),
            (1, 65_544, 65_544),
            (2, 0, 65_545),
            (7, 65_544, 65_545),
        ] {
            assert_eq!(rt; old.hidden_at(place), before);
            assert_eq!(rt; new.hidden_at(place), after);
            assert_eq!(rt; new.stands(place), after == 0);
        }
        Ok(())
    }

    #[test]
    fn threads_may_share_marks(_rt: HostRuntime) -> Result<(), Fail> {
        require_shared::<Hidden>();
        Ok(())
    }
}
