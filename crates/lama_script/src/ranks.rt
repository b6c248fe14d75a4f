//! Printers of ranks and of degree totals.

ghost use Rattle.std.specs.Prelude.{◌≡◌, ◌≤◌, ◌==◌, ◌++◌, sum, length, codes, decimal, slice_index, take, true, false, vec_len, OnOk, OnErr};
ghost use Rattle.lama_model.specs.Levels.{first_from};
ghost use Rattle.lama_model.specs.Lines.{vertex_lines, number_text, greatest, first_greatest, degrees_line, ranks_text};

use crate::printers::{append_named, append_number, append_text, append_vertex};
use itoa::Buffer;
use lama_rank::Totals;
use std::alloc::AllocError;

/// Appends the totals of the out-degrees in snapshot `k`. Without memory the output stays as it was.
pub fn print_degrees(out: &mut Vec<u8>, k: u32, d: &Totals) -> Result<(), AllocError>
    ensures ok { OnOk result (out.new.items ≡ out.old.items ++ degrees_line k d.now.vertices d.now.edges d.now.greatest d.now.sinks) }
    ensures err { OnErr result (out.new.items ≡ out.old.items) }
{
    let before = out.len();
    let printed = append_degrees(out, k, d);
    if printed.is_err() {
        out.truncate(before);
    }
    printed
}

/// Appends the ranks after so many rounds in snapshot `k`: a line for each vertex, or, where `sum` is true, one line with
/// the sum of the ranks, the least vertex of the greatest rank and that rank. Linear in the vertices. Without memory the
/// output stays as it was.
pub fn print_rank(
    out: &mut Vec<u8>,
    k: u32,
    rounds: u32,
    ranks: &[u64],
    sum: bool,
) -> Result<(), AllocError>
    requires { length ranks.now ≤ 4194304 }
    ensures ok { OnOk result (out.new.items ≡ out.old.items ++ ranks_text k rounds ranks.now sum) }
    ensures err { OnErr result (out.new.items ≡ out.old.items) }
{
    let before = out.len();
    let printed = if sum {
        append_rank_sum(out, k, rounds, ranks)
    } else {
        append_ranks(out, k, rounds, ranks)
    };
    if printed.is_err() {
        out.truncate(before);
    }
    printed
}

// Each function below may leave a part of its text behind the output where there is no memory for the rest.

#[tactic(auto, unfolding(lama_model::specs::Lines::degrees_line))]
fn append_degrees(out: &mut Vec<u8>, k: u32, d: &Totals) -> Result<(), AllocError>
    ensures ok { OnOk result (out.new.items ≡ out.old.items ++ degrees_line k d.now.vertices d.now.edges d.now.greatest d.now.sinks) }
    ensures begins { take (vec_len out.old) out.new.items ≡ out.old.items }
{
    append_number(out, b"degrees ", u64::from(k))?;
    append_number(out, b" ", u64::from(d.vertices))?;
    append_number(out, b" ", u64::from(d.edges))?;
    append_number(out, b" ", u64::from(d.greatest))?;
    append_named(out, b" ", u64::from(d.sinks))
}

#[tactic(auto, unfolding(lama_model::specs::Lines::ranks_text))]
fn append_ranks(out: &mut Vec<u8>, k: u32, rounds: u32, ranks: &[u64]) -> Result<(), AllocError>
    ensures ok { OnOk result (out.new.items ≡ out.old.items ++ ranks_text k rounds ranks.now false) }
    ensures begins { take (vec_len out.old) out.new.items ≡ out.old.items }
{
    append_number(out, b"rank ", u64::from(k))?;
    append_named(out, b" ", u64::from(rounds))?;
    append_rank_lines(out, ranks)
}

/// A line for each vertex, with its rank.
fn append_rank_lines(out: &mut Vec<u8>, ranks: &[u64]) -> Result<(), AllocError>
    ensures ok { OnOk result (out.new.items ≡ out.old.items ++ vertex_lines decimal 0 ranks.now) }
    ensures begins { take (vec_len out.old) out.new.items ≡ out.old.items }
{
    for v in 0..ranks.len() {
        append_vertex(out, v as u64, ranks[v])?;
    }
    Ok(())
}

#[tactic(auto, unfolding(lama_model::specs::Lines::ranks_text))]
fn append_rank_sum(out: &mut Vec<u8>, k: u32, rounds: u32, ranks: &[u64]) -> Result<(), AllocError>
    requires { length ranks.now ≤ 4194304 }
    ensures ok { OnOk result (out.new.items ≡ out.old.items ++ ranks_text k rounds ranks.now true) }
    ensures begins { take (vec_len out.old) out.new.items ≡ out.old.items }
{
    append_number(out, b"rank ", u64::from(k))?;
    append_number(out, b" ", u64::from(rounds))?;
    append_sum(out, ranks)?;
    append_greatest(out, ranks)
}

/// The sum of the ranks.
fn append_sum(out: &mut Vec<u8>, ranks: &[u64]) -> Result<(), AllocError>
    requires { length ranks.now ≤ 4194304 }
    ensures ok { OnOk result (out.new.items ≡ out.old.items ++ (codes " sum " ++ decimal (sum ranks.now))) }
    ensures begins { take (vec_len out.old) out.new.items ≡ out.old.items }
{
    let mut digits = Buffer::new();
    append_text(out, b" sum ")?;
    append_text(out, digits.format(sum_of(ranks)).as_bytes())
}

/// The least vertex of the greatest rank, or a dash, and that rank.
fn append_greatest(out: &mut Vec<u8>, ranks: &[u64]) -> Result<(), AllocError>
    ensures ok { OnOk result (out.new.items ≡ out.old.items ++ (codes " " ++ number_text (first_greatest ranks.now) ++ codes " " ++ decimal (greatest ranks.now) ++ codes "\n")) }
    ensures begins { take (vec_len out.old) out.new.items ≡ out.old.items }
{
    let most = greatest_of(ranks);
    match first_of(ranks, most) {
        None => append_text(out, b" -")?,
        Some(v) => append_number(out, b" ", v)?,
    }
    append_named(out, b" ", most)
}

/// The sum of the ranks, which may leave 64 bits where they are any numbers.
fn sum_of(ranks: &[u64]) -> u128
    requires { length ranks.now ≤ 4194304 }
    ensures { result ≡ sum ranks.now }
{
    let mut total = 0;
    for &rank in ranks {
        total += u128::from(rank);
    }
    total
}

/// The greatest rank, or 0 where there is none.
fn greatest_of(ranks: &[u64]) -> u64
    ensures { result ≡ greatest ranks.now }
{
    let mut greatest = 0;
    for &rank in ranks {
        greatest = greatest.max(rank);
    }
    greatest
}

/// The first vertex of that rank.
fn first_of(ranks: &[u64], rank: u64) -> Option<u64>
    ensures { result ≡ first_from (λ v. slice_index ranks.now v == rank) 0 (length ranks.now) }
{
    for v in 0..ranks.len() {
        if ranks[v] == rank {
            return Some(v as u64);
        }
    }
    None
}
