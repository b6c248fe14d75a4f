// The values of a column that don't fit into its words.
ghost use Rattle.std.specs.Prelude.{◌≡◌, ◌==◌, ℕ, None, Some, IfOk, OnErr, OnOk, if◌then◌else◌};
ghost use Rattle.std.specs.Option.{unwrap_or};
ghost use Rattle.std.specs.Ordering.{nat_cmp};
ghost use Rattle.std.specs.BTreeMap.{get};
ghost use Rattle.std.specs.Arc.{arc_value};
ghost use Rattle.lama_marks.specs.Narrow.{wide_at};

use std::alloc::{AllocError, Global};
use std::collections::BTreeMap;
use std::sync::Arc;

// Such values by their places. Versions share them.
#[derive(Drop)]
pub(crate) struct Wide {
    pub alloc: Global,
    // None where there are none.
    pub values: Option<Arc<BTreeMap<u32, u64>, Global>>,
}

impl Wide {
    pub(crate) fn none(alloc: Global) -> Wide
        ensures { result.values ≡ None }
    {
        Wide {
            alloc,
            values: None,
        }
    }

    // The value at a place, or 0 where there is none.
    #[inline(never)]
    pub(crate) fn get(&self, i: u32) -> u64
        ensures { result ≡ unwrap_or (wide_at (λ a. get nat_cmp (arc_value a)) self.now.values i) 0 }
    {
        let Some(values) = &self.values else {
            return 0;
        };
        values.get(&i).copied().unwrap_or(0)
    }

    pub(crate) fn share(&self) -> Result<Wide, AllocError>
        ensures { IfOk result (λ wide. wide_at (λ a. get nat_cmp (arc_value a)) wide.values ≡ wide_at (λ a. get nat_cmp (arc_value a)) self.now.values) }
    {
        let values = match &self.values {
            None => None,
            Some(values) => Some(Arc::try_clone(values)?),
        };
        Ok(Wide {
            alloc: self.alloc,
            values,
        })
    }

    // The values in a map of their own.
    pub(crate) fn thaw(&self) -> Result<BTreeMap<u32, u64>, AllocError>
        ensures { IfOk result (λ map. (i : ℕ) → get nat_cmp map i ≡ wide_at (λ a. get nat_cmp (arc_value a)) self.now.values i) }
    {
        match &self.values {
            None => Ok(BTreeMap::new(self.alloc)),
            Some(values) => {
                let values: &BTreeMap<u32, u64> = values;
                values.clone()
            }
        }
    }

    pub(crate) fn freeze(alloc: Global, map: BTreeMap<u32, u64>) -> Result<Wide, AllocError>
        ensures { IfOk result (λ wide. (i : ℕ) → wide_at (λ a. get nat_cmp (arc_value a)) wide.values i ≡ get nat_cmp map i) }
    {
        if map.is_empty() {
            return Ok(Wide::none(alloc));
        }
        Ok(Wide {
            alloc,
            values: Some(Arc::new(alloc, map)?),
        })
    }
}

// Puts a value of a place into the map, in place of one that is there.
pub(crate) fn put(map: &mut BTreeMap<u32, u64>, place: u32, value: u64) -> Result<(), AllocError>
    ensures ok { OnOk result ((i : ℕ) → get nat_cmp map.new i ≡ (if place == i then Some value else get nat_cmp map.old i)) }
    ensures err { OnErr result ((i : ℕ) → get nat_cmp map.new i ≡ get nat_cmp map.old i) }
{
    map.insert(place, value)?;
    Ok(())
}
