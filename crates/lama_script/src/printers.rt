//! Printers: each appends the lines of one answer to the output.

ghost use Rattle.std.specs.Prelude.{◌≡◌, ◌<◌, ◌++◌, take, length, codes, decimal, vec_len, OnOk, OnErr};
ghost use Rattle.std.specs.List.{flat_map};
ghost use Rattle.lama_model.specs.Lines.{reply_line, refusal_line, row_line, pair_text, as_of_line, target_text, edges_lines, edge_lines, edge_line};
ghost use Rattle.lama_model.specs.Row.{row_at, edges_in};

use itoa::Buffer;
use lama_model::{Command, Refusal, Reply, Rows, Write};
use std::alloc::AllocError;

/// Appends what is printed for a reply: a refusal's line for any command, and otherwise the line of
/// that command and reply, if they have one. Without memory the output stays as it was.
pub fn print_reply(out: &mut Vec<u8>, command: &Command, reply: &Reply) -> Result<(), AllocError>
    ensures ok { OnOk result (out.new.items ≡ out.old.items ++ reply_line command.now reply.now) }
    ensures err { OnErr result (out.new.items ≡ out.old.items) }
{
    let before = out.len();
    let printed = append_reply(out, command, reply);
    if printed.is_err() {
        out.truncate(before);
    }
    printed
}

/// Appends the line of the row of the vertex `v` in snapshot `k`, newest edge first. Linear in the
/// row. Without memory the output stays as it was.
pub fn print_row<R: Rows>(out: &mut Vec<u8>, k: u32, rows: &R, v: u32) -> Result<(), AllocError>
    requires { v < length (R.rows rows.now) }
    ensures ok { OnOk result (out.new.items ≡ out.old.items ++ row_line k v (row_at (R.rows rows.now) v)) }
    ensures err { OnErr result (out.new.items ≡ out.old.items) }
{
    let before = out.len();
    let printed = append_row(out, k, rows, v);
    if printed.is_err() {
        out.truncate(before);
    }
    printed
}

/// Appends the line of the targets that the row of the vertex `v` has in the graph of the number `j`, as snapshot `k` tells
/// them, newest first. Linear in them. Without memory the output stays as it was.
pub fn print_asof(
    out: &mut Vec<u8>,
    k: u32,
    j: u32,
    v: u32,
    targets: &[u32],
) -> Result<(), AllocError>
    ensures ok { OnOk result (out.new.items ≡ out.old.items ++ as_of_line k j v targets.now) }
    ensures err { OnErr result (out.new.items ≡ out.old.items) }
{
    let before = out.len();
    let printed = append_asof(out, k, j, v, targets);
    if printed.is_err() {
        out.truncate(before);
    }
    printed
}

/// Appends the line that counts the edges of snapshot `k`, and a line for each of them, sources
/// rising and each row newest edge first. Linear in vertices and edges. Without memory the output
/// stays as it was.
pub fn print_edges<R: Rows>(out: &mut Vec<u8>, k: u32, rows: &R) -> Result<(), AllocError>
    ensures ok { OnOk result (out.new.items ≡ out.old.items ++ edges_lines k (R.rows rows.now)) }
    ensures err { OnErr result (out.new.items ≡ out.old.items) }
{
    let before = out.len();
    let printed = append_edges(out, k, rows);
    if printed.is_err() {
        out.truncate(before);
    }
    printed
}

/// Appends a line that is a text and a number. Without memory the output stays as it was.
pub fn print_numbered(out: &mut Vec<u8>, text: &[u8], number: u64) -> Result<(), AllocError>
    ensures ok { OnOk result (out.new.items ≡ out.old.items ++ (text.now ++ decimal number ++ codes "\n")) }
    ensures err { OnErr result (out.new.items ≡ out.old.items) }
{
    let before = out.len();
    let printed = append_named(out, text, number);
    if printed.is_err() {
        out.truncate(before);
    }
    printed
}

// Each function below may leave a part of its text behind the output where there is no memory for the rest.

#[tactic(auto, unfolding(lama_model::specs::Lines::reply_line))]
fn append_reply(out: &mut Vec<u8>, command: &Command, reply: &Reply) -> Result<(), AllocError>
    ensures ok { OnOk result (out.new.items ≡ out.old.items ++ reply_line command.now reply.now) }
    ensures begins { take (vec_len out.old) out.new.items ≡ out.old.items }
{
    match (command, reply) {
        (_, Reply::Refused(refusal)) => append_refusal(out, refusal),
        (Command::Write(Write::Vertices(_)), Reply::Count { count }) => append_named(
            out,
            b"vertices ",
            u64::from(*count),
        ),
        (Command::Checkpoint, Reply::Snapshot { number }) => append_named(
            out,
            b"snapshot ",
            u64::from(*number),
        ),
        (Command::Merge, Reply::Snapshot { number }) => append_named(
            out,
            b"merged ",
            u64::from(*number),
        ),
        (Command::Retire { .. }, Reply::Kept { oldest, newest }) => append_kept(
            out, *oldest, *newest,
        ),
        _ => Ok(()),
    }
}

fn append_kept(out: &mut Vec<u8>, oldest: u32, newest: u32) -> Result<(), AllocError>
    ensures ok { OnOk result (out.new.items ≡ out.old.items ++ (codes "kept " ++ decimal oldest ++ codes " " ++ decimal newest ++ codes "\n")) }
    ensures begins { take (vec_len out.old) out.new.items ≡ out.old.items }
{
    append_number(out, b"kept ", u64::from(oldest))?;
    append_named(out, b" ", u64::from(newest))
}

fn append_refusal(out: &mut Vec<u8>, refusal: &Refusal) -> Result<(), AllocError>
    ensures ok { OnOk result (out.new.items ≡ out.old.items ++ refusal_line refusal.now) }
    ensures begins { take (vec_len out.old) out.new.items ≡ out.old.items }
{
    match refusal {
        Refusal::UnknownVertex { vertex, count } => append_unknown(out, *vertex, *count),
        Refusal::FullVertices => append_text(out, b"full vertices\n"),
        Refusal::FullEdges => append_text(out, b"full edges\n"),
        Refusal::FullKept => append_text(out, b"full snapshots\n"),
        Refusal::FullNumbers => append_text(out, b"full numbers\n"),
        Refusal::NoSnapshot {
            asked,
            oldest,
            newest,
        } => append_missing(out, *asked, *oldest, *newest),
    }
}

fn append_unknown(out: &mut Vec<u8>, vertex: u32, count: u32) -> Result<(), AllocError>
    ensures ok { OnOk result (out.new.items ≡ out.old.items ++ refusal_line (Refusal.UnknownVertex vertex count)) }
    ensures begins { take (vec_len out.old) out.new.items ≡ out.old.items }
{
    append_number(out, b"unknown vertex ", u64::from(vertex))?;
    append_number(out, b" of ", u64::from(count))?;
    append_text(out, b"\n")
}

fn append_missing(out: &mut Vec<u8>, asked: u32, oldest: u32, newest: u32) -> Result<(), AllocError>
    ensures ok { OnOk result (out.new.items ≡ out.old.items ++ refusal_line (Refusal.NoSnapshot asked oldest newest)) }
    ensures begins { take (vec_len out.old) out.new.items ≡ out.old.items }
{
    append_number(out, b"no snapshot ", u64::from(asked))?;
    append_number(out, b" of ", u64::from(oldest))?;
    append_number(out, b" ", u64::from(newest))?;
    append_text(out, b"\n")
}

pub(crate) fn append_text(out: &mut Vec<u8>, text: &[u8]) -> Result<(), AllocError>
    ensures ok { OnOk result (out.new.items ≡ out.old.items ++ text.now) }
    ensures begins { take (vec_len out.old) out.new.items ≡ out.old.items }
{
    out.extend_from_slice(text)
}

/// A text and a number.
pub(crate) fn append_number(out: &mut Vec<u8>, text: &[u8], number: u64) -> Result<(), AllocError>
    ensures ok { OnOk result (out.new.items ≡ out.old.items ++ (text.now ++ decimal number)) }
    ensures begins { take (vec_len out.old) out.new.items ≡ out.old.items }
{
    let mut digits = Buffer::new();
    append_text(out, text)?;
    append_text(out, digits.format(number).as_bytes())
}

/// A text, a number and the line's end.
pub(crate) fn append_named(out: &mut Vec<u8>, text: &[u8], number: u64) -> Result<(), AllocError>
    ensures ok { OnOk result (out.new.items ≡ out.old.items ++ (text.now ++ decimal number ++ codes "\n")) }
    ensures begins { take (vec_len out.old) out.new.items ≡ out.old.items }
{
    append_number(out, text, number)?;
    append_text(out, b"\n")
}

/// A vertex and what it has, which end a line.
pub(crate) fn append_vertex(out: &mut Vec<u8>, v: u64, number: u64) -> Result<(), AllocError>
    ensures ok { OnOk result (out.new.items ≡ out.old.items ++ (decimal v ++ codes " " ++ decimal number ++ codes "\n")) }
    ensures begins { take (vec_len out.old) out.new.items ≡ out.old.items }
{
    append_number(out, b"", v)?;
    append_named(out, b" ", number)
}

#[tactic(auto, unfolding(lama_model::specs::Lines::row_line))]
fn append_row<R: Rows>(out: &mut Vec<u8>, k: u32, rows: &R, v: u32) -> Result<(), AllocError>
    requires { v < length (R.rows rows.now) }
    ensures ok { OnOk result (out.new.items ≡ out.old.items ++ row_line k v (row_at (R.rows rows.now) v)) }
    ensures begins { take (vec_len out.old) out.new.items ≡ out.old.items }
{
    append_number(out, b"row ", u64::from(k))?;
    append_number(out, b" ", u64::from(v))?;
    append_text(out, b" :")?;
    append_pairs(out, rows, rows.start(v))?;
    append_text(out, b"\n")
}

/// The edges of a row from a place on. Linear in them.
fn append_pairs<R: Rows>(out: &mut Vec<u8>, rows: &R, start: R::At) -> Result<(), AllocError>
    requires { R.is_place rows.now start }
    ensures ok { OnOk result (out.new.items ≡ out.old.items ++ flat_map pair_text (R.suffix rows.now start)) }
    ensures begins { take (vec_len out.old) out.new.items ≡ out.old.items }
{
    let mut at = start;
    while let Some((target, weight, rest)) = rows.next(at) {
        append_number(out, b" ", u64::from(target))?;
        append_number(out, b"/", weight)?;
        at = rest;
    }
    Ok(())
}

#[tactic(auto, unfolding(lama_model::specs::Lines::as_of_line))]
fn append_asof(out: &mut Vec<u8>, k: u32, j: u32, v: u32, targets: &[u32]) -> Result<(), AllocError>
    ensures ok { OnOk result (out.new.items ≡ out.old.items ++ as_of_line k j v targets.now) }
    ensures begins { take (vec_len out.old) out.new.items ≡ out.old.items }
{
    append_number(out, b"asof ", u64::from(k))?;
    append_number(out, b" ", u64::from(j))?;
    append_number(out, b" ", u64::from(v))?;
    append_text(out, b" :")?;
    append_targets(out, targets)?;
    append_text(out, b"\n")
}

/// The targets. Linear in them.
fn append_targets(out: &mut Vec<u8>, targets: &[u32]) -> Result<(), AllocError>
    ensures ok { OnOk result (out.new.items ≡ out.old.items ++ flat_map target_text targets.now) }
    ensures begins { take (vec_len out.old) out.new.items ≡ out.old.items }
{
    for i in 0..targets.len() {
        append_number(out, b" ", u64::from(targets[i]))?;
    }
    Ok(())
}

/// How many edges the rows have. Linear in the vertices.
fn count_edges<R: Rows>(rows: &R) -> u64
    ensures { result ≡ edges_in (R.rows rows.now) }
{
    let mut total = 0u64;
    for v in 0..rows.count() {
        total += u64::from(rows.degree(v));
    }
    total
}

fn append_edges<R: Rows>(out: &mut Vec<u8>, k: u32, rows: &R) -> Result<(), AllocError>
    ensures ok { OnOk result (out.new.items ≡ out.old.items ++ edges_lines k (R.rows rows.now)) }
    ensures begins { take (vec_len out.old) out.new.items ≡ out.old.items }
{
    append_number(out, b"edges ", u64::from(k))?;
    append_named(out, b" ", count_edges(rows))?;
    append_rows(out, rows)
}

/// A line for each edge of the rows.
fn append_rows<R: Rows>(out: &mut Vec<u8>, rows: &R) -> Result<(), AllocError>
    ensures ok { OnOk result (out.new.items ≡ out.old.items ++ edge_lines 0 (R.rows rows.now)) }
    ensures begins { take (vec_len out.old) out.new.items ≡ out.old.items }
{
    for v in 0..rows.count() {
        append_edges_of(out, rows, v, rows.start(v))?;
    }
    Ok(())
}

/// A line for each edge of the row of `u` from a place on.
fn append_edges_of<R: Rows>(
    out: &mut Vec<u8>,
    rows: &R,
    u: u32,
    start: R::At,
) -> Result<(), AllocError>
    requires { R.is_place rows.now start }
    ensures ok { OnOk result (out.new.items ≡ out.old.items ++ flat_map (edge_line u) (R.suffix rows.now start)) }
    ensures begins { take (vec_len out.old) out.new.items ≡ out.old.items }
{
    let mut at = start;
    while let Some((target, weight, rest)) = rows.next(at) {
        append_edge(out, u, target, weight)?;
        at = rest;
    }
    Ok(())
}

fn append_edge(out: &mut Vec<u8>, u: u32, target: u32, weight: u64) -> Result<(), AllocError>
    ensures ok { OnOk result (out.new.items ≡ out.old.items ++ edge_line u (target, weight)) }
    ensures begins { take (vec_len out.old) out.new.items ≡ out.old.items }
{
    append_number(out, b"", u64::from(u))?;
    append_number(out, b" ", u64::from(target))?;
    append_named(out, b" ", weight)
}
