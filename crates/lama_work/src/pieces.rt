ghost use denote.Param.Send.{IsSync, IsSend};
ghost use Rattle.std.specs.Prelude.{◌≡◌, ℕ, ◌+◌, ◌*◌, ◌/◌, ◌<◌, ◌≤◌, IfOk, Ok, length, map};
ghost use Rattle.lama_work.specs.Pieces.{piece_start, AreFrom, AreOfPieces, GivesPiece, GivesPieces};

use lama_base::{Gate, PIECE_BEGINS};
use std::alloc::{AllocError, Global};
use std::thread::{Threads, join};

/// Fewer items than these are not worth a thread: it takes longer to start than it would save. A caller with fewer does them in
/// one piece.
pub const FEW: u32 = 400;

/// Piece `i` of the numbers below `n`, cut for so many workers: where it begins, and where it ends, which is no longer in
/// it. The pieces lie one after another, and none is more than one longer than another. It takes no memory.
pub fn cut(n: u32, workers: u32, i: u32) -> (u32, u32)
    requires some { 1 ≤ workers }
    requires few { workers ≤ 16 }
    requires within { i < workers }
    ensures start { result.0 ≡ n * i / workers }
    ensures end { result.1 ≡ n * (i + 1) / workers }
{
    let start = u64::from(n) * u64::from(i) / u64::from(workers);
    let end = u64::from(n) * (u64::from(i) + 1) / u64::from(workers);
    (start as u32, end as u32)
}

/// Calls `f` with each piece of the numbers below `n`, beside each other: with its index, where it begins and where it
/// ends. One piece for each worker, an empty one too. The answers come in the order of the pieces.
///
/// One worker makes no thread. The only errors are want of memory and what `f` answers, the first piece's first.
pub fn map_pieces<
    R: Threads + Sync,
    T: Send + Drop,
    F: Fn(u32, u32, u32) -> Result<T, AllocError> + Sync,
    G: Gate + Sync,
>(rt: &R, alloc: Global, n: u32, workers: u32, gate: &G, f: &F) -> Result<Vec<T>, AllocError>
    requires some { 1 ≤ workers }
    requires few { workers ≤ 16 }
    requires accepts { (i : ℕ) → i < workers → F.pre f.now i (piece_start n workers i) (piece_start n workers (i + 1)) }
    ensures len { IfOk result (λ v. length v.items ≡ workers) }
    ensures each { IfOk result (λ v. GivesPieces F.Fn f.now n workers v.items) }
{
    let answers = answers_of(rt, alloc, n, workers, gate, f)?;
    all_ok(alloc, answers)
}

// What `f` answers with each piece, in the order of the pieces.
fn answers_of<
    R: Threads + Sync,
    T: Send + Drop,
    F: Fn(u32, u32, u32) -> Result<T, AllocError> + Sync,
    G: Gate + Sync,
>(
    rt: &R,
    alloc: Global,
    n: u32,
    workers: u32,
    gate: &G,
    f: &F,
) -> Result<Vec<Result<T, AllocError>>, AllocError>
    requires some { 1 ≤ workers }
    requires few { workers ≤ 16 }
    requires accepts { (i : ℕ) → i < workers → F.pre f.now i (piece_start n workers i) (piece_start n workers (i + 1)) }
    ensures len { IfOk result (λ v. length v.items ≡ workers) }
    ensures each { IfOk result (λ v. AreOfPieces F.Fn f.now n workers v.items) }
{
    if workers == 1 {
        let mut only = Vec::new(alloc);
        only.push(on_piece(n, workers, 0, gate, f))?;
        return Ok(only);
    }
    answers_from(rt, alloc, n, workers, 0, gate, f)
}

// The same for the pieces from one on, each in a thread of its own where one can be made.
//
// The caller starts the thread of each piece itself and then waits. Where threads start threads, and work themselves, some
// systems leave the new one to wait for the processor of the one that started it.
#[cycle(starts)]
fn answers_from<
    R: Threads + Sync,
    T: Send + Drop,
    F: Fn(u32, u32, u32) -> Result<T, AllocError> + Sync,
    G: Gate + Sync,
>(
    rt: &R,
    alloc: Global,
    n: u32,
    workers: u32,
    from: u32,
    gate: &G,
    f: &F,
) -> Result<Vec<Result<T, AllocError>>, AllocError>
    requires few { workers ≤ 16 }
    requires from { from ≤ workers }
    requires accepts { (i : ℕ) → i < workers → F.pre f.now i (piece_start n workers i) (piece_start n workers (i + 1)) }
    ensures { IfOk result (λ v. AreFrom F.Fn f.now n workers from v.items) }
{
    if from == workers {
        return Ok(Vec::new(alloc));
    }
    let piece = || -> Result<T, AllocError>
        requires { IsSync F.row × IsSync G.row × IsSend T.row × (workers ≤ 16) × (from < workers) × F.pre f.now from (piece_start n workers from) (piece_start n workers (from + 1)) }
        ensures { GivesPiece F.Fn f.entry.now n workers from result }
    { on_piece(n, workers, from, gate, f) };
    let others = || -> Result<Vec<Result<T, AllocError>>, AllocError>
        requires { IsSync R.row × IsSync F.row × IsSync G.row × IsSend T.row × (workers ≤ 16) × (from < workers) × ((i : ℕ) → i < workers → F.pre f.now i (piece_start n workers i) (piece_start n workers (i + 1))) }
        ensures { IfOk result (λ v. AreFrom F.Fn f.entry.now n workers (from + 1) v.items) }
    { answers_from(rt, alloc, n, workers, from + 1, gate, f) };
    let (answer, rest) = join(rt, piece, others);
    let mut rest = rest?;
    let mut answers = Vec::new(alloc);
    answers.push(answer)?;
    answers.append(&mut rest)?;
    Ok(answers)
}

// What the answers hold, or the first error among them.
fn all_ok<T: Drop>(alloc: Global, answers: Vec<Result<T, AllocError>>) -> Result<Vec<T>, AllocError>
    ensures { IfOk result (λ v. map Ok v.items ≡ answers.items) }
{
    let mut all = Vec::with_capacity(alloc, answers.len())?;
    for answer in answers {
        all.push(answer?)?;
    }
    Ok(all)
}

// Calls `f` with piece `i`, at the gate first.
fn on_piece<T, F: Fn(u32, u32, u32) -> Result<T, AllocError>, G: Gate>(
    n: u32,
    workers: u32,
    i: u32,
    gate: &G,
    f: &F,
) -> Result<T, AllocError>
    requires few { workers ≤ 16 }
    requires within { i < workers }
    requires accepts { F.pre f.now i (piece_start n workers i) (piece_start n workers (i + 1)) }
    ensures { GivesPiece F.Fn f.now n workers i result }
{
    gate.reach(PIECE_BEGINS, i);
    let (start, end) = cut(n, workers, i);
    f(i, start, end)
}
