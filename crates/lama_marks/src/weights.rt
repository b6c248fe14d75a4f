ghost use Rattle.std.specs.Prelude.{◌≡◌, ℕ, ◌+◌, ◌/◌, ◌%◌, ◌<◌, ◌≤◌, ◌++◌, ◌==◌, ◌&&◌, [], ◌∷◌, All, IfOk, IsTrue, OnErr, OnOk, Some, if◌then◌else◌, is_ok, length, map, slice_index};
ghost use Rattle.std.specs.Ordering.{nat_cmp};
ghost use Rattle.std.specs.BTreeMap.{get};
ghost use Rattle.std.specs.Arc.{arc_value};
ghost use Rattle.lama_marks.specs.Places.{AreWritten};
ghost use Rattle.lama_marks.specs.Narrow.{wide_at, weight_word, worded, is_wide, wide_after};

use crate::wide::{Wide, put};
use lama_array::{Builder, VArray};
use lama_pages::Steps;
use std::alloc::{AllocError, Global};
use std::collections::BTreeMap;
use std::marker::Model;
use std::sync::ledger::Ledger;

// The word of a weight that stands beside the words.
const WIDE: u32 = u32::MAX;

/// One version of the property column of a level: the weight of each slot of its edge table, by the slot's place. A
/// contract sees it as the list of the weights.
///
/// It never changes. It shares its pages, one for each 256 weights, with all that come from it by `share`, and with
/// those that come from it by `with` each page that is not touched. A weight takes four bytes, and one of 2^32 - 1 or
/// more stands in a map beside the pages too.
#[derive(Drop)]
pub struct Weights {
    words: VArray<u32>,
    wide: Wide,
}

impl Model for Weights {
    ghost use Rattle.std.specs.Prelude.{List, ℕ};
    ghost use Rattle.std.specs.Ordering.{nat_cmp};
    ghost use Rattle.std.specs.BTreeMap.{get};
    ghost use Rattle.std.specs.Arc.{arc_value};
    ghost use Rattle.lama_marks.specs.Narrow.{wide_at, weights_in};

    ghost Value = { List ℕ };

    ghost view = { λ column. weights_in (wide_at (λ a. get nat_cmp (arc_value a)) column.wide.values) column.words };
}

impl Weights {
    /// The column of these weights.
    ///
    /// The time is by their number, and each is written once. The only error is want of memory, and then the pages
    /// that were made are given back.
    pub fn build<L: Ledger>(
        alloc: Global,
        weights: &[u64],
        pages: &mut Steps<L>,
    ) -> Result<Weights, AllocError>
        requires { length weights.now ≤ 67108864 }
        ensures weights { IfOk result (λ column. column ≡ weights.now) }
        ensures made { OnOk result (pages.new ≡ pages.old + (length weights.now + 255) / 256) }
        ensures at_most { pages.new ≤ pages.old + (length weights.now + 255) / 256 }
    {
        let mut builder = WeightsBuilder::new(alloc);
        for &weight in weights {
            builder.push(weight, pages)?;
        }
        builder.finish()
    }

    /// The weight at place `i`, counted from 0, with no search where it is less than 2^32 - 1. It takes no memory.
    #[inline(always)]
    pub fn weight(&self, i: u32) -> u64
        requires { i < length self.now }
        ensures { result ≡ slice_index self.now i }
    {
        let word = self.words.get(i);
        if word == WIDE {
            return self.wide.get(i);
        }
        u64::from(word)
    }

    /// The same column once more, in constant time: it makes no page and copies no table. The only error is want of
    /// memory.
    pub fn share(&self) -> Result<Weights, AllocError>
        ensures { IfOk result (λ column. column ≡ self.now) }
    {
        Ok(Weights {
            words: self.words.share()?,
            wide: self.wide.share()?,
        })
    }

    /// The version with a new weight at each of these places, given as (place, weight). Where a place comes more than
    /// once, its last weight counts.
    ///
    /// Costs the places, and a pointer for each page of the version; a page is copied at the first place in it. Where a
    /// new weight is 2^32 - 1 or more, it costs all such weights of the version besides. The only error is want of
    /// memory.
    pub fn with<L: Ledger>(
        &self,
        places: &[(u32, u64)],
        pages: &mut Steps<L>,
    ) -> Result<Weights, AllocError>
        requires { All (λ p. p.0 < length self.now) places.now }
        ensures weights { IfOk result (λ column. AreWritten places.now self.now column) }
        ensures made { pages.new ≤ pages.old + length places.now }
    {
        let words = with_words(&self.words, places, pages)?;
        let wide = with_wide(&self.wide, places)?;
        Ok(Weights { words, wide })
    }
}

// The word of a weight.
fn word_of(weight: u64) -> u32
    ensures { result ≡ weight_word weight }
{
    if weight < u64::from(WIDE) {
        return weight as u32;
    }
    WIDE
}

// The words with that of the new weight at each of these places.
fn with_words<L: Ledger>(
    words: &VArray<u32>,
    places: &[(u32, u64)],
    pages: &mut Steps<L>,
) -> Result<VArray<u32>, AllocError>
    requires { All (λ p. p.0 < length words.now) places.now }
    ensures words { IfOk result (λ new. AreWritten (map worded places.now) words.now new) }
    ensures made { pages.new ≤ pages.old + length places.now }
{
    let mut edit = words.edit()?;
    for &(place, weight) in places {
        edit.set(place, word_of(weight), pages)?;
    }
    edit.freeze()
}

// The weights beside the words, with those of these places that don't fit into a word.
fn with_wide(wide: &Wide, places: &[(u32, u64)]) -> Result<Wide, AllocError>
    ensures { IfOk result (λ new. (i : ℕ) → wide_at (λ a. get nat_cmp (arc_value a)) new.values i ≡ wide_after i places.now (wide_at (λ a. get nat_cmp (arc_value a)) wide.now.values i)) }
{
    if all_fit(places) {
        return wide.share();
    }
    let mut all = wide.thaw()?;
    for &(place, weight) in places {
        put_wide(&mut all, place, weight)?;
    }
    Wide::freeze(wide.alloc, all)
}

// Whether each weight fits into a word.
fn all_fit(places: &[(u32, u64)]) -> bool
    ensures { IsTrue result → All (λ p. p.1 < 4294967295) places.now }
{
    places.iter().all(|place| place.1 < u64::from(WIDE))
}

// Puts the weight of a place among the wide ones, where it is one.
fn put_wide(all: &mut BTreeMap<u32, u64>, place: u32, weight: u64) -> Result<(), AllocError>
    ensures ok { OnOk result ((i : ℕ) → get nat_cmp all.new i ≡ (if (place == i) && is_wide weight then Some weight else get nat_cmp all.old i)) }
    ensures err { OnErr result ((i : ℕ) → get nat_cmp all.new i ≡ get nat_cmp all.old i) }
{
    if weight < u64::from(WIDE) {
        return Ok(());
    }
    put(all, place, weight)
}

/// Builds a column weight by weight, each written once. A contract sees it as the list of weights so far.
#[derive(Drop)]
pub struct WeightsBuilder {
    alloc: Global,
    words: Builder<u32>,
    wide: BTreeMap<u32, u64>,
    // How many weights there are.
    len: u32,
}

impl Model for WeightsBuilder {
    ghost use Rattle.std.specs.Prelude.{◌≡◌, List, ℕ, length};
    ghost use Rattle.std.specs.Ordering.{nat_cmp};
    ghost use Rattle.std.specs.BTreeMap.{get};
    ghost use Rattle.lama_marks.specs.Narrow.{weights_in};

    ghost Value = { List ℕ };

    ghost view = { λ builder. weights_in (get nat_cmp builder.wide) builder.words };

    ghost invariant = { λ builder. builder.len ≡ length builder.words };
}

impl WeightsBuilder {
    /// With no weight yet.
    pub fn new(alloc: Global) -> WeightsBuilder
        ensures { result ≡ [] }
    {
        WeightsBuilder {
            alloc,
            words: Builder::new(alloc),
            wide: BTreeMap::new(alloc),
            len: 0,
        }
    }

    /// Adds a weight at the end. It makes a page at each 256th weight, from the first on, and none where it is refused.
    /// The only error is want of memory.
    pub fn push<L: Ledger>(&mut self, weight: u64, pages: &mut Steps<L>) -> Result<(), AllocError>
        requires { length self.old < 67108864 }
        ensures items { self.new ≡ (if is_ok result then self.old ++ weight ∷ [] else self.old) }
        ensures made { pages.new ≡ pages.old + (if is_ok result && (length self.old % 256 == 0) then 1 else 0) }
    {
        put_wide(&mut self.wide, self.len, weight)?;
        self.words.push(word_of(weight), pages)?;
        self.len += 1;
        Ok(())
    }

    /// The column with the weights pushed. It copies no weight and makes no page. The only error is want of memory,
    /// and then the weights are given up.
    pub fn finish(self) -> Result<Weights, AllocError>
        ensures { IfOk result (λ column. column ≡ self) }
    {
        let WeightsBuilder {
            alloc,
            words,
            wide,
            len: _,
        } = self;
        Ok(Weights {
            words: words.finish()?,
            wide: Wide::freeze(alloc, wide)?,
        })
    }
}

#[cfg(test)]
mod tests {
    use super::*;
    use std::marker::Brand;
    use std::sync::ledger::Blank;
    use std::test::Fail;

    // Compiles only at a type that threads may pass on and share.
    fn require_shared<T: Send + Sync>() {}

    // The column of `weights`, built with a counter of its own.
    fn column<L: Ledger>(
        alloc: Global,
        blank: Blank,
        weights: &[u64],
    ) -> Result<Weights, AllocError>
        requires name { blank.name ≡ L.name }
        requires parts { blank.parts ≡ L.parts }
        requires one { blank.parts ≡ 1 }
        requires room { length weights.now ≤ 67108864 }
        ensures { IfOk result (λ column. column ≡ weights.now) }
    {
        let mut pages = Steps::<L>::open(blank);
        Weights::build(alloc, weights, &mut pages)
    }

    // A column one longer than a page. Its contract, which is proved, counts the pages: exactly two.
    fn two_pages<L: Ledger>(alloc: Global, pages: &mut Steps<L>) -> Result<Weights, AllocError>
        ensures weights { IfOk result (λ column. length column ≡ 257) }
        ensures made { OnOk result (pages.new ≡ pages.old + 2) }
    {
        let mut weights = [4; 257];
        weights[256] = 9;
        Weights::build(alloc, &weights, pages)
    }

    fn two_pages_counted<L: Ledger>(alloc: Global, blank: Blank) -> Result<Weights, AllocError>
        requires name { blank.name ≡ L.name }
        requires parts { blank.parts ≡ L.parts }
        requires one { blank.parts ≡ 1 }
        ensures { IfOk result (λ column. length column ≡ 257) }
    {
        let mut pages = Steps::<L>::open(blank);
        two_pages(alloc, &mut pages)
    }

    // 300 times the weight 4, and that with new weights. It takes five pages at most.
    fn three_written<L: Ledger>(
        alloc: Global,
        pages: &mut Steps<L>,
    ) -> Result<(Weights, Weights), AllocError>
        ensures old { IfOk result (λ both. length both.0 ≡ 300) }
        ensures new { IfOk result (λ both. length both.1 ≡ 300) }
        ensures made { pages.new ≤ pages.old + 5 }
    {
        let old = Weights::build(alloc, &[4; 300], pages)?;
        let new = old.with(&[(0, 5), (299, 6), (0, 4_294_967_296)], pages)?;
        Ok((old, new))
    }

    fn three_written_counted<L: Ledger>(
        alloc: Global,
        blank: Blank,
    ) -> Result<(Weights, Weights), AllocError>
        requires name { blank.name ≡ L.name }
        requires parts { blank.parts ≡ L.parts }
        requires one { blank.parts ≡ 1 }
        ensures old { IfOk result (λ both. length both.0 ≡ 300) }
        ensures new { IfOk result (λ both. length both.1 ≡ 300) }
    {
        let mut pages = Steps::<L>::open(blank);
        three_written(alloc, &mut pages)
    }

    #[test]
    fn new_weights_stand_in_the_new_version_alone(rt: HostRuntime) -> Result<(), Fail> {
        let (old, new) = three_written_counted::<Brand>(rt.alloc(), Blank::new(1))?;
        for (place, weight) in [(0, 4_294_967_296), (1, 4), (298, 4), (299, 6)] {
            assert_eq!(rt; old.weight(place), 4);
            assert_eq!(rt; new.weight(place), weight);
        }
        Ok(())
    }

    #[test]
    fn each_weight_is_at_its_place_and_a_share_has_the_same(rt: HostRuntime) -> Result<(), Fail> {
        let column = column::<Brand>(rt.alloc(), Blank::new(1), &[7, 4294967295, 0])?;
        assert_eq!(rt; column.weight(0), 7);
        assert_eq!(rt; column.weight(1), 4294967295);
        assert_eq!(rt; column.weight(2), 0);
        let shared = column.share()?;
        drop(column);
        assert_eq!(rt; shared.weight(0), 7);
        assert_eq!(rt; shared.weight(1), 4294967295);
        assert_eq!(rt; shared.weight(2), 0);
        Ok(())
    }

    // Weights that fit into a word and weights that don't, and the same with others in their places.
    fn wide_written<L: Ledger>(
        alloc: Global,
        pages: &mut Steps<L>,
    ) -> Result<(Weights, Weights), AllocError>
        ensures old { IfOk result (λ both. length both.0 ≡ 4) }
        ensures new { IfOk result (λ both. length both.1 ≡ 4) }
    {
        let old = Weights::build(alloc, &[u64::MAX, 4294967294, 4294967295, 1], pages)?;
        let new = old.with(&[(0, 3), (1, 4294967296), (3, 4294967294)], pages)?;
        Ok((old, new))
    }

    fn wide_written_counted<L: Ledger>(
        alloc: Global,
        blank: Blank,
    ) -> Result<(Weights, Weights), AllocError>
        requires name { blank.name ≡ L.name }
        requires parts { blank.parts ≡ L.parts }
        requires one { blank.parts ≡ 1 }
        ensures old { IfOk result (λ both. length both.0 ≡ 4) }
        ensures new { IfOk result (λ both. length both.1 ≡ 4) }
    {
        let mut pages = Steps::<L>::open(blank);
        wide_written(alloc, &mut pages)
    }

    #[test]
    fn weights_of_64_bits_are_read_back(rt: HostRuntime) -> Result<(), Fail> {
        let (old, new) = wide_written_counted::<Brand>(rt.alloc(), Blank::new(1))?;
        let before = [u64::MAX, 4294967294, 4294967295, 1];
        let after = [3, 4294967296, 4294967295, 4294967294];
        for place in 0..4 {
            assert_eq!(rt; old.weight(place), before[place as usize]);
            assert_eq!(rt; new.weight(place), after[place as usize]);
        }
        Ok(())
    }

    #[test]
    fn a_column_goes_on_past_a_page(rt: HostRuntime) -> Result<(), Fail> {
        let column = two_pages_counted::<Brand>(rt.alloc(), Blank::new(1))?;
        assert_eq!(rt; column.weight(0), 4);
        assert_eq!(rt; column.weight(255), 4);
        assert_eq!(rt; column.weight(256), 9);
        Ok(())
    }

    #[test]
    fn threads_may_share_a_column(_rt: HostRuntime) -> Result<(), Fail> {
        require_shared::<Weights>();
        Ok(())
    }
}
