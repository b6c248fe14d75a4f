// A quick look for the targets that writes name.
ghost use Rattle.std.specs.Prelude.{◌≡◌, ◌%◌, ◌≤◌, ℕ, true, false, OnOk, length, slice_index_or};
ghost use Rattle.std.specs.Ordering.{nat_cmp};
ghost use Rattle.std.specs.BTreeMap.{get};
ghost use Rattle.lama_delta.specs.Sieve.{IsSieve};

use crate::row_writes::Fate;
use std::alloc::AllocError;
use std::collections::BTreeMap;

// How many marks there are, once there are any.
const MARKS: usize = 4096;

// Marks the remainder of a target. A target whose remainder is not marked has no fate, and that is known without a
// search.
pub(crate) fn mark(marks: &mut Vec<bool>, target: u32) -> Result<(), AllocError>
    ensures marked { OnOk result (slice_index_or marks.new.items (target % 4096) false ≡ true) }
    ensures kept { OnOk result ((i : ℕ) → slice_index_or marks.old.items i false ≡ true → slice_index_or marks.new.items i false ≡ true) }
{
    widen(marks)?;
    marks[(target % 4096) as usize] = true;
    Ok(())
}

// Makes room for all marks.
fn widen(marks: &mut Vec<bool>) -> Result<(), AllocError>
    ensures len { OnOk result (4096 ≤ length marks.new.items) }
    ensures kept { OnOk result ((i : ℕ) → slice_index_or marks.old.items i false ≡ true → slice_index_or marks.new.items i false ≡ true) }
{
    if marks.len() >= MARKS {
        return Ok(());
    }
    marks.resize(MARKS, false)?;
    Ok(())
}

#[inline(always)]
fn is_marked(marks: &[bool], target: u32) -> bool
    ensures { result ≡ slice_index_or marks.now (target % 4096) false }
{
    let i = (target % 4096) as usize;
    if i < marks.len() {
        return marks[i];
    }
    false
}

// What becomes of the edges to a target.
#[inline(always)]
pub(crate) fn fate_to(marks: &[bool], fates: &BTreeMap<u32, Fate>, target: u32) -> Option<Fate>
    requires { IsSieve marks.now (get nat_cmp fates.now) }
    ensures { result ≡ get nat_cmp fates.now target }
{
    if !is_marked(marks, target) {
        return None;
    }
    fates.get(&target).copied()
}
