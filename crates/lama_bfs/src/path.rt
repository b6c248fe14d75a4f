// From frontier to frontier along a path.
ghost use Rattle.std.specs.Prelude.{◌≡◌, ◌<◌, ◌≤◌, [], ◌∷◌, IfOk, IfSome, OnOk, is_some, length, map, true};
ghost use Rattle.lama_model.specs.Row.{row_at, AreTargetsBelow};
ghost use Rattle.lama_bfs.specs.Flat.{firsts};
ghost use Rattle.lama_bfs.specs.Frontier.{is_unseen, IsRound};

use crate::frontier::Search;
use lama_model::Rows;
use std::alloc::AllocError;

impl Search {
    // From a frontier of one vertex to the next one, as long as the only edge of that vertex leads to one that was not found, and
    // gives back the level of the frontier where it stops. Such a vertex stands in no list meanwhile: the look at its row would
    // wait for that. The source is there for the contract alone.
    pub(crate) fn follow<R: Rows>(
        &mut self,
        rows: &R,
        source: u32,
        from: u32,
        levels: &mut Vec<Option<u32>>,
    ) -> Result<u32, AllocError>
        requires vertices { length (R.rows rows.now) ≤ 4194304 }
        requires targets { AreTargetsBelow (length (R.rows rows.now)) (R.rows rows.now) }
        requires some { 0 < length self.old.next }
        requires seen { self.old.seen.items ≡ map is_some levels.old.items }
        requires round { IsRound (R.rows rows.now) source from levels.old.items self.old.next }
        ensures some { OnOk result (0 < length self.new.next) }
        ensures seen { OnOk result (self.new.seen.items ≡ map is_some levels.new.items) }
        ensures on { IfOk result (λ level. from ≤ level) }
        ensures round { IfOk result (λ level. IsRound (R.rows rows.now) source level levels.new.items self.new.next) }
    {
        if self.next.len() != 1 {
            return Ok(from);
        }
        let mut level = from;
        let mut u = self.next.as_slice()[0];
        while let Some(v) = only_new(rows, &self.seen, u) {
            level += 1;
            levels[v as usize] = Some(level);
            self.seen[v as usize] = true;
            u = v;
        }
        self.next.clear();
        self.next.put(u, true)?;
        Ok(level)
    }
}

// The target of a vertex's only edge, where it has but one and that one leads to a vertex that was not found.
#[inline(always)]
fn only_new<R: Rows>(rows: &R, seen: &[bool], u: u32) -> Option<u32>
    requires { u < length (R.rows rows.now) }
    ensures { IfSome result (λ v. (firsts (row_at (R.rows rows.now) u) ≡ v ∷ []) × (v < length seen.now) × (is_unseen seen.now v ≡ true)) }
{
    let (target, _, rest) = rows.next(rows.start(u))?;
    if rows.next(rest).is_some() {
        return None;
    }
    match seen.get(target as usize) {
        Some(false) => Some(target),
        _ => None,
    }
}
