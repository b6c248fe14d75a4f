ghost use Rattle.std.specs.Prelude.{◌≡◌, ◌+◌, ◌<◌, ◌≤◌, ℕ, IfOk, length, map};
ghost use Rattle.std.specs.Arc.{arc_value};
ghost use Rattle.lama_model.specs.Change.{Change};
ghost use Rattle.lama_snapshot.specs.Snap.{floor_of};
ghost use Rattle.lama_merge.specs.Rebase.{snap_of, AreOneRun, IsAmong, IsRebased, IsReady};

use crate::Merged;
use lama_pages::Steps;
use lama_snapshot::Snapshot;
use std::alloc::{AllocError, Global};
use std::sync::Arc;
use std::sync::ledger::Ledger;

/// The kept snapshots, oldest first, those from the merged number on with the merged base. One that has that base or a newer
/// one stays, and so do those before it.
///
/// Each snapshot that changes is made anew, by the changes that it had above the merged number. Costs for each of them what
/// its checkpoint cost, and a pointer for each of the others. The only error is want of memory.
pub fn rebase<L: Ledger>(
    alloc: Global,
    kept: &[Arc<Snapshot, Global>],
    merged: &Arc<Merged, Global>,
    pages: &mut Steps<L>,
) -> Result<Vec<Arc<Snapshot, Global>>, AllocError>
    requires kept { AreOneRun (map arc_value kept.now) }
    requires among { IsAmong (arc_value merged.now) (map arc_value kept.now) }
    ensures len { IfOk result (λ v. length v.items ≡ length kept.now) }
    ensures each { IfOk result (λ v. (i : ℕ) → i < length kept.now → IsRebased (arc_value merged.now) (snap_of (map arc_value kept.now) i) (snap_of (map arc_value v.items) i)) }
{
    let onto: &Merged = merged;
    let mut all = Vec::with_capacity(alloc, kept.len())?;
    for i in 0..kept.len() {
        let next = rebased(alloc, &kept[i], &all, onto, pages)?;
        all.push(next)?;
    }
    Ok(all)
}

// One of them, where those before it are there already.
fn rebased<L: Ledger>(
    alloc: Global,
    old: &Arc<Snapshot, Global>,
    before: &[Arc<Snapshot, Global>],
    merged: &Merged,
    pages: &mut Steps<L>,
) -> Result<Arc<Snapshot, Global>, AllocError>
    requires { (changes : ℕ → Change) × IsReady changes merged.now (map arc_value before.now) (arc_value old.now) }
    ensures { IfOk result (λ s. IsRebased merged.now (arc_value old.now) (arc_value s)) }
{
    let snapshot: &Snapshot = old;
    if snapshot.number() < merged.number() || merged.number() <= snapshot.floor() {
        return Arc::try_clone(old);
    }
    let next = put_onto(alloc, snapshot, before, merged, pages)?;
    Ok(Arc::new(alloc, next)?)
}

// One of them on the merged base, from which it is made by its changes above.
fn put_onto<L: Ledger>(
    alloc: Global,
    old: &Snapshot,
    before: &[Arc<Snapshot, Global>],
    merged: &Merged,
    pages: &mut Steps<L>,
) -> Result<Snapshot, AllocError>
    requires number { merged.now.number ≤ old.now.number }
    requires floor { floor_of old.now < merged.now.number }
    requires ready { (changes : ℕ → Change) × IsReady changes merged.now (map arc_value before.now) old.now }
    ensures { IfOk result (λ s. IsRebased merged.now old.now s) }
{
    let number = old.number();
    if number == merged.number() {
        return Snapshot::from_base(alloc, Arc::try_clone(merged.base())?);
    }
    let last: &Snapshot = &before[before.len() - 1];
    let next = last.apply(alloc, old.share_change(number)?, pages)?;
    Ok(next)
}
