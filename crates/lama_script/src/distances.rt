//! Printers of distances.

ghost use Rattle.std.specs.Prelude.{◌≡◌, ◌≤◌, ◌<◌, ◌^◌, ◌++◌, ℕ, Some, length, codes, decimal, sum, take, true, false, vec_len, OnOk, OnErr};
ghost use Rattle.lama_model.specs.declared.reach.Reach.{Reach};
ghost use Rattle.lama_model.specs.Distances.{reach_at};
ghost use Rattle.lama_model.specs.Lines.{reach_text, vertex_lines, distances_text, found_sums, greatest};

use crate::printers::{append_named, append_number, append_text};
use itoa::Buffer;
use lama_model::Reach;
use std::alloc::AllocError;

/// Appends how each vertex is reached from the vertex `s` in snapshot `k`: a line for each vertex with the sum of the
/// weights, the number of edges and the parent, or, where `sum` is true, one line with the number of vertices that are
/// reached, their greatest sum and all sums together. Linear in the vertices. Without memory the output stays as it was.
pub fn print_dist(
    out: &mut Vec<u8>,
    k: u32,
    s: u32,
    reach: &[Option<Reach>],
    sum: bool,
) -> Result<(), AllocError>
    requires few { length reach.now ≤ 4194304 }
    requires small { (v : ℕ) (r : Reach) → reach_at reach.now v ≡ Some r → r.sum < 2 ^ 86 }
    ensures ok { OnOk result (out.new.items ≡ out.old.items ++ distances_text k s reach.now sum) }
    ensures err { OnErr result (out.new.items ≡ out.old.items) }
{
    let before = out.len();
    let printed = if sum {
        append_distance_sum(out, k, s, reach)
    } else {
        append_distances(out, k, s, reach)
    };
    if printed.is_err() {
        out.truncate(before);
    }
    printed
}

// Each function below may leave a part of its text behind the output where there is no memory for the rest.

#[tactic(auto, unfolding(lama_model::specs::Lines::distances_text))]
fn append_distances(
    out: &mut Vec<u8>,
    k: u32,
    s: u32,
    reach: &[Option<Reach>],
) -> Result<(), AllocError>
    ensures ok { OnOk result (out.new.items ≡ out.old.items ++ distances_text k s reach.now false) }
    ensures begins { take (vec_len out.old) out.new.items ≡ out.old.items }
{
    append_number(out, b"dist ", u64::from(k))?;
    append_named(out, b" ", u64::from(s))?;
    append_reach_lines(out, reach)
}

/// A line for each vertex, with how it is reached.
fn append_reach_lines(out: &mut Vec<u8>, reach: &[Option<Reach>]) -> Result<(), AllocError>
    ensures ok { OnOk result (out.new.items ≡ out.old.items ++ vertex_lines reach_text 0 reach.now) }
    ensures begins { take (vec_len out.old) out.new.items ≡ out.old.items }
{
    for v in 0..reach.len() {
        append_reach(out, v as u64, reach[v])?;
    }
    Ok(())
}

fn append_reach(out: &mut Vec<u8>, v: u64, reach: Option<Reach>) -> Result<(), AllocError>
    ensures ok { OnOk result (out.new.items ≡ out.old.items ++ (decimal v ++ codes " " ++ reach_text reach ++ codes "\n")) }
    ensures begins { take (vec_len out.old) out.new.items ≡ out.old.items }
{
    append_number(out, b"", v)?;
    match reach {
        None => append_text(out, b" -\n"),
        Some(r) => append_found(out, r),
    }
}

/// A sum, a number of edges and a parent, which end a line.
fn append_found(out: &mut Vec<u8>, r: Reach) -> Result<(), AllocError>
    ensures ok { OnOk result (out.new.items ≡ out.old.items ++ (codes " " ++ reach_text (Some r) ++ codes "\n")) }
    ensures begins { take (vec_len out.old) out.new.items ≡ out.old.items }
{
    append_wide(out, b" ", r.sum)?;
    append_number(out, b" ", u64::from(r.hops))?;
    append_named(out, b" ", u64::from(r.parent))
}

/// A text and a number of up to 128 bits.
fn append_wide(out: &mut Vec<u8>, text: &[u8], number: u128) -> Result<(), AllocError>
    ensures ok { OnOk result (out.new.items ≡ out.old.items ++ (text.now ++ decimal number)) }
    ensures begins { take (vec_len out.old) out.new.items ≡ out.old.items }
{
    let mut digits = Buffer::new();
    append_text(out, text)?;
    append_text(out, digits.format(number).as_bytes())
}

/// What the sums of distances come to.
#[derive(Clone, Copy)]
struct SumTotals {
    reached: u32,
    greatest: u128,
    total: u128,
}

/// How many sums there are, the greatest of them, or 0, and all together.
fn sum_totals(reach: &[Option<Reach>]) -> SumTotals
    requires few { length reach.now ≤ 4194304 }
    requires small { (v : ℕ) (r : Reach) → reach_at reach.now v ≡ Some r → r.sum < 2 ^ 86 }
    ensures reached { result.reached ≡ length (found_sums reach.now) }
    ensures greatest { result.greatest ≡ greatest (found_sums reach.now) }
    ensures total { result.total ≡ sum (found_sums reach.now) }
{
    let mut reached = 0;
    let mut greatest = 0;
    let mut total = 0;
    for entry in reach {
        if let Some(r) = entry {
            reached += 1;
            greatest = greatest.max(r.sum);
            total += r.sum;
        }
    }
    SumTotals {
        reached,
        greatest,
        total,
    }
}

fn append_distance_sum(
    out: &mut Vec<u8>,
    k: u32,
    s: u32,
    reach: &[Option<Reach>],
) -> Result<(), AllocError>
    requires few { length reach.now ≤ 4194304 }
    requires small { (v : ℕ) (r : Reach) → reach_at reach.now v ≡ Some r → r.sum < 2 ^ 86 }
    ensures ok { OnOk result (out.new.items ≡ out.old.items ++ distances_text k s reach.now true) }
    ensures begins { take (vec_len out.old) out.new.items ≡ out.old.items }
{
    let totals = sum_totals(reach);
    append_number(out, b"dist ", u64::from(k))?;
    append_number(out, b" ", u64::from(s))?;
    append_number(out, b" sum ", u64::from(totals.reached))?;
    append_wide(out, b" ", totals.greatest)?;
    append_wide(out, b" ", totals.total)?;
    append_text(out, b"\n")
}
