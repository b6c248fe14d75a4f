//! Printers of what is read of a whole graph: levels and labels.

ghost use Rattle.std.specs.Prelude.{◌≡◌, ◌≤◌, ◌<◌, ◌++◌, ℕ, All, max, map, sum, length, codes, decimal, slice_index, take, true, false, vec_len, IfOk, OnOk, OnErr};
ghost use Rattle.lama_model.specs.Lines.{number_text, vertex_lines, levels_text, labels_text, found_levels, greatest, occurrences, count_labels, most_with_one};
ghost use Rattle.lama_model.specs.Labels.{AreFirst};
ghost use Rattle.lama_script.specs.Totals.{AreTotals};

use crate::printers::{append_named, append_number, append_text, append_vertex};
use std::alloc::{AllocError, Global};

/// Appends the levels from the vertex `s` in snapshot `k`: a line for each vertex, or, where `sum` is true, one line with
/// the number of vertices that have a level, their greatest level and the sum of their levels. Linear in the vertices.
/// Without memory the output stays as it was.
pub fn print_levels(
    out: &mut Vec<u8>,
    k: u32,
    s: u32,
    levels: &[Option<u32>],
    sum: bool,
) -> Result<(), AllocError>
    requires { length levels.now ≤ 4194304 }
    ensures ok { OnOk result (out.new.items ≡ out.old.items ++ levels_text k s levels.now sum) }
    ensures err { OnErr result (out.new.items ≡ out.old.items) }
{
    let before = out.len();
    let printed = if sum {
        append_level_sum(out, k, s, levels)
    } else {
        append_levels(out, k, s, levels)
    };
    if printed.is_err() {
        out.truncate(before);
    }
    printed
}

/// Appends the labels in snapshot `k`: how many there are and a line for each vertex, or, where `sum` is true, one line
/// with the number of labels, the greatest number of vertices with one label and the sum of the labels. Linear in the
/// vertices. Without memory the output stays as it was.
pub fn print_labels(
    alloc: Global,
    out: &mut Vec<u8>,
    k: u32,
    labels: &[u32],
    sum: bool,
) -> Result<(), AllocError>
    requires few { length labels.now ≤ 4194304 }
    requires first { AreFirst labels.now }
    ensures ok { OnOk result (out.new.items ≡ out.old.items ++ labels_text k labels.now sum) }
    ensures err { OnErr result (out.new.items ≡ out.old.items) }
{
    let before = out.len();
    let printed = if sum {
        append_label_sum(alloc, out, k, labels)
    } else {
        append_labels(out, k, labels)
    };
    if printed.is_err() {
        out.truncate(before);
    }
    printed
}

// Each function below may leave a part of its text behind the output where there is no memory for the rest.

#[tactic(auto, unfolding(lama_model::specs::Lines::levels_text))]
fn append_levels(
    out: &mut Vec<u8>,
    k: u32,
    s: u32,
    levels: &[Option<u32>],
) -> Result<(), AllocError>
    ensures ok { OnOk result (out.new.items ≡ out.old.items ++ levels_text k s levels.now false) }
    ensures begins { take (vec_len out.old) out.new.items ≡ out.old.items }
{
    append_number(out, b"bfs ", u64::from(k))?;
    append_named(out, b" ", u64::from(s))?;
    append_level_lines(out, levels)
}

/// A line for each vertex, with its level.
fn append_level_lines(out: &mut Vec<u8>, levels: &[Option<u32>]) -> Result<(), AllocError>
    ensures ok { OnOk result (out.new.items ≡ out.old.items ++ vertex_lines number_text 0 levels.now) }
    ensures begins { take (vec_len out.old) out.new.items ≡ out.old.items }
{
    for v in 0..levels.len() {
        append_level(out, v as u64, levels[v])?;
    }
    Ok(())
}

fn append_level(out: &mut Vec<u8>, v: u64, level: Option<u32>) -> Result<(), AllocError>
    ensures ok { OnOk result (out.new.items ≡ out.old.items ++ (decimal v ++ codes " " ++ number_text level ++ codes "\n")) }
    ensures begins { take (vec_len out.old) out.new.items ≡ out.old.items }
{
    append_number(out, b"", v)?;
    match level {
        None => append_text(out, b" -\n"),
        Some(level) => append_named(out, b" ", u64::from(level)),
    }
}

/// What the levels sum up to.
#[derive(Clone, Copy)]
pub(crate) struct LevelTotals {
    reached: u32,
    greatest: u32,
    total: u64,
}

/// How many levels there are, the greatest of them, or 0, and their sum.
fn level_totals(levels: &[Option<u32>]) -> LevelTotals
    requires { length levels.now ≤ 4194304 }
    ensures { AreTotals (found_levels levels.now) result }
{
    let mut reached = 0;
    let mut greatest = 0;
    let mut total = 0;
    for level in levels {
        if let Some(level) = level {
            reached += 1;
            greatest = greatest.max(*level);
            total += u64::from(*level);
        }
    }
    LevelTotals {
        reached,
        greatest,
        total,
    }
}

fn append_level_sum(
    out: &mut Vec<u8>,
    k: u32,
    s: u32,
    levels: &[Option<u32>],
) -> Result<(), AllocError>
    requires { length levels.now ≤ 4194304 }
    ensures ok { OnOk result (out.new.items ≡ out.old.items ++ levels_text k s levels.now true) }
    ensures begins { take (vec_len out.old) out.new.items ≡ out.old.items }
{
    let totals = level_totals(levels);
    append_number(out, b"bfs ", u64::from(k))?;
    append_number(out, b" ", u64::from(s))?;
    append_totals(
        out,
        u64::from(totals.reached),
        u64::from(totals.greatest),
        totals.total,
    )
}

/// The end of a line that sums something up in three numbers.
fn append_totals(out: &mut Vec<u8>, first: u64, second: u64, third: u64) -> Result<(), AllocError>
    ensures ok { OnOk result (out.new.items ≡ out.old.items ++ (codes " sum " ++ decimal first ++ codes " " ++ decimal second ++ codes " " ++ decimal third ++ codes "\n")) }
    ensures begins { take (vec_len out.old) out.new.items ≡ out.old.items }
{
    append_number(out, b" sum ", first)?;
    append_number(out, b" ", second)?;
    append_named(out, b" ", third)
}

fn append_labels(out: &mut Vec<u8>, k: u32, labels: &[u32]) -> Result<(), AllocError>
    requires few { length labels.now ≤ 4194304 }
    requires first { AreFirst labels.now }
    ensures ok { OnOk result (out.new.items ≡ out.old.items ++ labels_text k labels.now false) }
    ensures begins { take (vec_len out.old) out.new.items ≡ out.old.items }
{
    append_number(out, b"labels ", u64::from(k))?;
    append_named(out, b" ", u64::from(count_labels(labels)))?;
    append_label_lines(out, labels)
}

/// A line for each vertex, with its label.
fn append_label_lines(out: &mut Vec<u8>, labels: &[u32]) -> Result<(), AllocError>
    ensures ok { OnOk result (out.new.items ≡ out.old.items ++ vertex_lines decimal 0 labels.now) }
    ensures begins { take (vec_len out.old) out.new.items ≡ out.old.items }
{
    for v in 0..labels.len() {
        append_vertex(out, v as u64, u64::from(labels[v]))?;
    }
    Ok(())
}

fn append_label_sum(
    alloc: Global,
    out: &mut Vec<u8>,
    k: u32,
    labels: &[u32],
) -> Result<(), AllocError>
    requires few { length labels.now ≤ 4194304 }
    requires first { AreFirst labels.now }
    ensures ok { OnOk result (out.new.items ≡ out.old.items ++ labels_text k labels.now true) }
    ensures begins { take (vec_len out.old) out.new.items ≡ out.old.items }
{
    let count = count_labels(labels);
    let most = most_with_one(alloc, labels)?;
    append_number(out, b"labels ", u64::from(k))?;
    append_totals(out, u64::from(count), u64::from(most), sum_of(labels))
}

/// How many labels there are: the vertices that are their own label.
fn count_labels(labels: &[u32]) -> u32
    requires few { length labels.now ≤ 4194304 }
    requires first { AreFirst labels.now }
    ensures { result ≡ count_labels labels.now }
{
    let mut count = 0;
    for v in 0..labels.len() {
        if labels[v] as usize == v {
            count += 1;
        }
    }
    count
}

/// The greatest number of vertices with one label.
fn most_with_one(alloc: Global, labels: &[u32]) -> Result<u32, AllocError>
    requires few { length labels.now ≤ 4194304 }
    requires first { AreFirst labels.now }
    ensures { IfOk result (λ n. n ≡ most_with_one labels.now) }
{
    let mut counts = vec![in alloc; 0; labels.len()]?;
    Ok(most_counted(labels, &mut counts))
}

/// The same, with a count of 0 for each vertex to begin with.
fn most_counted(labels: &[u32], counts: &mut [u32]) -> u32
    requires few { length labels.now ≤ 4194304 }
    requires below { All (λ l. l < length counts.old) labels.now }
    requires zero { (v : ℕ) → v < length counts.old → slice_index counts.old v ≡ 0 }
    ensures { result ≡ most_with_one labels.now }
{
    count_each(labels, counts);
    greatest_of(labels, counts)
}

/// Counts how many vertices have each label.
fn count_each(labels: &[u32], counts: &mut [u32])
    requires few { length labels.now ≤ 4194304 }
    requires below { All (λ l. l < length counts.old) labels.now }
    requires zero { (v : ℕ) → v < length counts.old → slice_index counts.old v ≡ 0 }
    ensures len { length counts.new ≡ length counts.old }
    ensures each { (v : ℕ) → v < length counts.new → slice_index counts.new v ≡ occurrences labels.now v }
{
    for &label in labels {
        counts[label as usize] += 1;
    }
}

/// The greatest of the counts of these labels, or 0 where there is none.
fn greatest_of(labels: &[u32], counts: &[u32]) -> u32
    requires { All (λ l. l < length counts.now) labels.now }
    ensures { result ≡ greatest (map (slice_index counts.now) labels.now) }
{
    let mut greatest = 0;
    for &label in labels {
        greatest = greatest.max(counts[label as usize]);
    }
    greatest
}

/// The sum of the labels.
fn sum_of(labels: &[u32]) -> u64
    requires { length labels.now ≤ 4194304 }
    ensures { result ≡ sum labels.now }
{
    let mut total = 0;
    for &label in labels {
        total += u64::from(label);
    }
    total
}
