ghost use Rattle.std.specs.Prelude.{◌≡◌, ◌≤◌, ◌<◌, ℕ, All, IfOk, map, slice_index_or, vec_len};
ghost use Rattle.lama_model.specs.Opening.{empty_opening};
ghost use Rattle.lama_book.specs.Relation.{IsBookOf};
ghost use Rattle.lama_lock.specs.Hall.{IsPassOf, AreAll, numbers};
ghost use Rattle.lama_engine.specs.Ran.{IsRanOf};

use crate::{Engine, Pass};
use lama_book::{Book, CallFault, Opening};
use lama_model::{Call, Entry, PlainRows, Refusal, Reply, Write};
use lama_pages::Steps;
use std::alloc::{AllocError, Global};
use std::marker::Brand;
use std::sync::Wait;
use std::sync::ledger::{Blank, Ledger};
use std::test::Fail;
use std::thread::{Threads, map_vec};

fn is_shared<X: Send + Sync>() {}

fn is_sent<X: Send>() {}

#[test]
fn engines_cross_threads(_rt: HostRuntime) -> Result<(), Fail> {
    is_shared::<Engine>();
    is_sent::<Pass>();
    Ok(())
}

// A book of no vertices, before any call.
fn empty_book<L: Ledger>(alloc: Global, pages: &mut Steps<L>) -> Result<Book, AllocError>
    ensures { IfOk result (λ b. IsBookOf empty_opening b) }
{
    let rows = PlainRows::from_edges(alloc, 0, &[])?;
    let opening = Opening::from_rows(alloc, 0, &rows, pages)?;
    let book = Book::new(alloc, opening)?;
    Ok(book)
}

// The engine of such a book, with room for so many calls, and its passes.
fn begin<L: Ledger>(
    alloc: Global,
    lanes: u16,
    calls: u32,
    pages: &mut Steps<L>,
) -> Result<(Engine, Vec<Pass>), AllocError>
    requires some { 1 ≤ lanes }
    requires few { lanes ≤ 16 }
    requires calls { calls ≤ 4194304 }
    ensures ours { IfOk result (λ r. All (IsPassOf r.0) r.1.items) }
    ensures all { IfOk result (λ r. AreAll r.0 r.1.items) }
{
    let mut book = empty_book(alloc, pages)?;
    book.reserve(calls)?;
    match Engine::start(alloc, book, lanes) {
        Ok((engine, passes)) => Ok((engine, passes)),
        Err(_book) => Err(AllocError),
    }
}

// Makes a call, and answers its place and its reply.
fn make<R: Wait, L: Ledger>(
    rt: &R,
    engine: &Engine,
    pass: &mut Pass,
    call: Call,
    pages: &mut Steps<L>,
) -> Result<(u32, Reply), CallFault>
    requires ours { IsPassOf engine.now pass.old }
    ensures ours { IsPassOf engine.now pass.new }
    ensures caller { pass.new.known.caller ≡ pass.old.known.caller }
{
    match call {
        Call::Write(w) => match engine.write(rt, pass, w) {
            Ok(placed) => Ok((placed.place, placed.answer)),
            Err(fault) => Err(fault),
        },
        Call::Checkpoint => match engine.checkpoint(rt, pass, pages) {
            Ok(placed) => Ok((placed.place, placed.answer)),
            Err(fault) => Err(fault),
        },
        Call::Look => match engine.look(rt, pass) {
            Ok(placed) => Ok((
                placed.place,
                Reply::Snapshot {
                    number: placed.answer.number(),
                },
            )),
            Err(fault) => Err(fault),
        },
        Call::LookAt { k } => match engine.look_at(rt, pass, k) {
            Ok(placed) => Ok((placed.place, placed.answer.reply)),
            Err(fault) => Err(fault),
        },
        Call::Retire { k } => match engine.retire(rt, pass, k) {
            Ok(placed) => Ok((placed.place, placed.answer)),
            Err(fault) => Err(fault),
        },
        // No lane of these tests installs.
        Call::Install { .. } => Err(CallFault::NoMemory),
    }
}

// The same, of the pass at that place of the list.
fn make_at<R: Wait, L: Ledger>(
    rt: &R,
    engine: &Engine,
    passes: &mut Vec<Pass>,
    at: usize,
    call: Call,
    pages: &mut Steps<L>,
) -> Result<(u32, Reply), CallFault>
    requires at { at < vec_len passes.old }
    requires ours { All (IsPassOf engine.now) passes.old.items }
    ensures ours { All (IsPassOf engine.now) passes.new.items }
    ensures numbers { numbers passes.new.items ≡ numbers passes.old.items }
{
    make(rt, engine, &mut passes[at], call, pages)
}

// The places and replies of calls that passes of one thread make in turn, each by the pass at the place beside it, and the
// callers of the journal.
fn in_turn<R: Wait, L: Ledger>(
    rt: &R,
    alloc: Global,
    lanes: u16,
    calls: &[(usize, Call)],
    blank: Blank,
) -> Result<Option<(Vec<(u32, Reply)>, Vec<u16>)>, AllocError>
    requires name { blank.name ≡ L.name }
    requires parts { blank.parts ≡ L.parts }
    requires one { blank.parts ≡ 1 }
    requires some { 1 ≤ lanes }
    requires few { lanes ≤ 16 }
{
    let mut pages = Steps::<L>::open(blank);
    let (engine, mut passes) = begin(alloc, lanes, 16, &mut pages)?;
    let mut told = Vec::new(alloc);
    for &(at, call) in calls {
        if at >= passes.len() {
            return Ok(None);
        }
        let Ok(reply) = make_at(rt, &engine, &mut passes, at, call, &mut pages) else {
            return Ok(None);
        };
        told.push(reply)?;
    }
    let book = engine.finish(passes)?;
    Ok(Some((told, callers(alloc, book.journal())?)))
}

fn callers(alloc: Global, journal: &[Entry]) -> Result<Vec<u16>, AllocError> {
    let mut found = Vec::new(alloc);
    for entry in journal {
        found.push(entry.caller)?;
    }
    Ok(found)
}

#[test]
fn passes_of_one_thread_share_a_journal(rt: HostRuntime) -> Result<(), Fail> {
    let calls = [
        (0, Call::Write(Write::Vertices(2))),
        (1, Call::Write(Write::Add(0, 1, 1))),
        (0, Call::Checkpoint),
        (1, Call::Look),
    ];
    let found = in_turn::<_, Brand>(&rt, rt.alloc(), 2, &calls, Blank::new(1))?;
    let wanted = [
        (0, Reply::Count { count: 2 }),
        (1, Reply::Accepted),
        (2, Reply::Snapshot { number: 1 }),
        (3, Reply::Snapshot { number: 1 }),
    ];
    let Some((told, callers)) = found else {
        return Err(Fail::new("a call was refused"));
    };
    assert!(rt; told.as_slice() == wanted.as_slice());
    assert!(rt; callers.as_slice() == [1, 2, 1, 2].as_slice());
    Ok(())
}

#[test]
fn a_lane_retires_and_looks(rt: HostRuntime) -> Result<(), Fail> {
    let calls = [
        (0, Call::Checkpoint),
        (0, Call::Checkpoint),
        (0, Call::Checkpoint),
        (0, Call::Checkpoint),
        (0, Call::Retire { k: 3 }),
        (0, Call::LookAt { k: 2 }),
        (0, Call::Retire { k: 9 }),
    ];
    let missing = |asked| Reply::Refused(Refusal::NoSnapshot {
        asked,
        oldest: 3,
        newest: 4,
    });
    let found = in_turn::<_, Brand>(&rt, rt.alloc(), 1, &calls, Blank::new(1))?;
    let wanted = [
        (0, Reply::Snapshot { number: 1 }),
        (1, Reply::Snapshot { number: 2 }),
        (2, Reply::Snapshot { number: 3 }),
        (3, Reply::Snapshot { number: 4 }),
        (
            4,
            Reply::Kept {
                oldest: 3,
                newest: 4,
            },
        ),
        (5, missing(2)),
        (6, missing(9)),
    ];
    let Some((told, _callers)) = found else {
        return Err(Fail::new("a call was refused"));
    };
    assert!(rt; told.as_slice() == wanted.as_slice());
    Ok(())
}

// Whether a book of one call is the same after a start, be it refused for want of memory or begun and finished at once.
fn comes_back<L: Ledger>(alloc: Global, blank: Blank) -> Result<bool, AllocError>
    requires name { blank.name ≡ L.name }
    requires parts { blank.parts ≡ L.parts }
    requires one { blank.parts ≡ 1 }
{
    let mut pages = Steps::<L>::open(blank);
    let mut book = empty_book(alloc, &mut pages)?;
    let Ok(_) = book.write(7, Write::Vertices(3)) else {
        return Err(AllocError);
    };
    let book = match Engine::start(alloc, book, 2) {
        Ok((engine, passes)) => engine.finish(passes)?,
        Err(book) => book,
    };
    let only = Entry {
        caller: 7,
        call: Call::Write(Write::Vertices(3)),
    };
    Ok(book.journal() == [only].as_slice())
}

#[test]
fn a_start_hands_its_book_back(rt: HostRuntime) -> Result<(), Fail> {
    assert!(rt; comes_back::<Brand>(rt.alloc(), Blank::new(1))?);
    Ok(())
}

// What a lane was told: its number, and the places and replies of its calls.
#[derive(Drop)]
struct Told {
    caller: u16,
    replies: Vec<(u32, Reply)>,
}

// The calls of a lane: the same write each time, or all kinds of calls.
#[derive(Clone, Copy)]
struct Plan {
    calls: u32,
    mixed: bool,
}

impl Plan {
    fn call(self, caller: u16, i: u32) -> Call {
        if !self.mixed {
            return Call::Write(Write::Add(0, 1, 1));
        }
        let n = i % 64 * 7 + caller as u32;
        match i % 9 {
            0 => Call::Write(Write::Vertices(n % 3)),
            1 => Call::Write(Write::Remove(n % 5, n % 7)),
            2 => Call::Write(Write::Weigh(n % 5, n % 3, 9)),
            3 => Call::Look,
            4 if i % 4 == 0 => Call::Checkpoint,
            5 => Call::LookAt { k: n % 40 },
            6 if i % 11 == 0 => Call::Retire { k: n % 30 },
            _ => Call::Write(Write::Add(n % 6, n % 5, n as u64)),
        }
    }
}

// A lane makes the calls of its plan, and hands back its pass and what it was told.
fn run_lane<R: Wait, L: Ledger>(
    rt: &R,
    alloc: Global,
    engine: &Engine,
    mut pass: Pass,
    plan: Plan,
    blank: Blank,
) -> (Pass, Told)
    requires name { blank.name ≡ L.name }
    requires parts { blank.parts ≡ L.parts }
    requires one { blank.parts ≡ 1 }
    requires ours { IsPassOf engine.now pass }
    ensures ours { IsPassOf engine.now result.0 }
    ensures caller { result.0.known.caller ≡ pass.known.caller }
{
    let mut pages = Steps::<L>::open(blank);
    let caller = pass.caller();
    let mut replies = Vec::new(alloc);
    for i in 0..plan.calls {
        let call = plan.call(caller, i);
        let Ok(reply) = make(rt, engine, &mut pass, call, &mut pages) else {
            break;
        };
        let Ok(()) = replies.push(reply) else {
            break;
        };
    }
    (pass, Told { caller, replies })
}

fn run_uncounted<R: Wait>(
    rt: &R,
    alloc: Global,
    engine: &Engine,
    pass: Pass,
    plan: Plan,
) -> (Pass, Told)
    requires ours { IsPassOf engine.now pass }
    ensures ours { IsPassOf engine.now result.0 }
    ensures caller { result.0.known.caller ≡ pass.known.caller }
{
    run_lane::<R, Brand>(rt, alloc, engine, pass, plan, Blank::new(1))
}

// Each lane in a thread.
fn run_beside<R: Threads + Wait + Sync>(
    rt: &R,
    alloc: Global,
    engine: &Engine,
    passes: Vec<Pass>,
    plan: Plan,
) -> Result<Vec<(Pass, Told)>, AllocError>
    requires ours { All (IsPassOf engine.now) passes.items }
    ensures len { IfOk result (λ v. vec_len v ≡ vec_len passes) }
    ensures each { IfOk result (λ v. (i : ℕ) (d : _) → i < vec_len passes → IsRanOf engine.now passes.items i (slice_index_or v.items i d).0) }
{
    map_vec(
        rt,
        passes,
        &|pass: Pass| -> (Pass, Told)
            requires { IsPassOf engine.now pass }
            ensures ours { IsPassOf engine.entry.now result.0 }
            ensures caller { result.0.known.caller ≡ pass.known.caller }
        { run_uncounted(rt, alloc, engine, pass, plan) },
    )
}

// The passes apart from what was told.
fn apart(alloc: Global, ran: Vec<(Pass, Told)>) -> Result<(Vec<Pass>, Vec<Told>), AllocError>
    ensures { IfOk result (λ r. r.0.items ≡ map (λ t. t.0) ran.items) }
{
    let mut passes = Vec::new(alloc);
    let mut all = Vec::new(alloc);
    for (pass, told) in ran {
        passes.push(pass)?;
        all.push(told)?;
    }
    Ok((passes, all))
}

// The lanes of these passes, each in a thread, and what they were told.
fn beside<R: Threads + Wait + Sync>(
    rt: &R,
    alloc: Global,
    engine: &Engine,
    passes: Vec<Pass>,
    plan: Plan,
) -> Result<(Vec<Pass>, Vec<Told>), AllocError>
    requires ours { All (IsPassOf engine.now) passes.items }
    ensures ours { IfOk result (λ r. All (IsPassOf engine.now) r.0.items) }
    ensures numbers { IfOk result (λ r. numbers r.0.items ≡ numbers passes.items) }
{
    let ran = run_beside(rt, alloc, engine, passes, plan)?;
    let (passes, all) = apart(alloc, ran)?;
    Ok((passes, all))
}

// The replies to the calls of a journal, made one at a time on a book of no vertices.
fn replayed<L: Ledger>(
    alloc: Global,
    journal: &[Entry],
    pages: &mut Steps<L>,
) -> Option<Vec<Reply>> {
    let mut book = empty_book(alloc, pages).ok()?;
    let mut replies = Vec::new(alloc);
    for entry in journal {
        replies.push(reply_of(&mut book, *entry, pages)?).ok()?;
    }
    Some(replies)
}

fn reply_of<L: Ledger>(book: &mut Book, entry: Entry, pages: &mut Steps<L>) -> Option<Reply> {
    match entry.call {
        Call::Write(w) => book.write(entry.caller, w).ok(),
        Call::Checkpoint => book.checkpoint(entry.caller, pages).ok(),
        Call::Look => Some(Reply::Snapshot {
            number: book.look(entry.caller).ok()?.number(),
        }),
        Call::LookAt { k } => Some(book.look_at(entry.caller, k).ok()?.reply),
        Call::Retire { k } => book.retire(entry.caller, k).ok(),
        Call::Install { .. } => None,
    }
}

// Whether each lane was told, at places that rise, what the replies have there, and the journal names it there.
fn agrees(told: &Told, journal: &[Entry], replies: &[Reply]) -> bool {
    let mut last = None;
    for &(place, reply) in &told.replies {
        let here = Some(place);
        if here <= last || replies.get(place as usize) != Some(&reply) {
            return false;
        }
        if journal.get(place as usize).map(|entry| entry.caller) != Some(told.caller) {
            return false;
        }
        last = here;
    }
    true
}

// How many calls of the caller the journal has.
fn made_by(caller: u16, journal: &[Entry]) -> usize {
    journal
        .iter()
        .filter(|entry| entry.caller == caller)
        .count()
}

// How many calls the finished journal has, and how many of each lane, where every lane was told what a book answers to that journal.
fn lanes_agree<R: Threads + Wait + Sync, L: Ledger>(
    rt: &R,
    alloc: Global,
    lanes: u16,
    plan: Plan,
    blank: Blank,
) -> Result<Option<(usize, Vec<usize>)>, AllocError>
    requires name { blank.name ≡ L.name }
    requires parts { blank.parts ≡ L.parts }
    requires one { blank.parts ≡ 1 }
    requires some { 1 ≤ lanes }
    requires few { lanes ≤ 16 }
{
    let mut pages = Steps::<L>::open(blank);
    let (engine, mut passes) = begin(alloc, lanes, 4096, &mut pages)?;
    if passes.is_empty() {
        return Ok(None);
    }
    let two = Call::Write(Write::Vertices(2));
    let Ok(_) = make_at(rt, &engine, &mut passes, 0, two, &mut pages) else {
        return Ok(None);
    };
    let (passes, told) = beside(rt, alloc, &engine, passes, plan)?;
    let book = engine.finish(passes)?;
    let Some(replies) = replayed(alloc, book.journal(), &mut pages) else {
        return Ok(None);
    };
    let mut counts = Vec::new(alloc);
    for lane in &told {
        if lane.replies.len() != plan.calls as usize || !agrees(lane, book.journal(), &replies) {
            return Ok(None);
        }
        counts.push(made_by(lane.caller, book.journal()))?;
    }
    Ok(Some((book.journal().len(), counts)))
}

#[test]
fn two_lanes_write_a_thousand_times_each(rt: HostRuntime) -> Result<(), Fail> {
    let plan = Plan {
        calls: 1000,
        mixed: false,
    };
    let found = lanes_agree::<_, Brand>(&rt, rt.alloc(), 2, plan, Blank::new(1))?;
    let Some((entries, counts)) = found else {
        return Err(Fail::new("the lanes and the journal differ"));
    };
    assert_eq!(rt; entries, 2001);
    assert!(rt; counts.as_slice() == [1001, 1000].as_slice());
    Ok(())
}

#[test]
fn sixteen_lanes_make_all_kinds_of_calls(rt: HostRuntime) -> Result<(), Fail> {
    let plan = Plan {
        calls: 200,
        mixed: true,
    };
    let found = lanes_agree::<_, Brand>(&rt, rt.alloc(), 16, plan, Blank::new(1))?;
    let Some((entries, counts)) = found else {
        return Err(Fail::new("the lanes and the journal differ"));
    };
    assert_eq!(rt; entries, 3201);
    assert!(rt;
        counts.as_slice()
            == [
                201, 200, 200, 200, 200, 200, 200, 200, 200, 200, 200, 200, 200, 200, 200, 200
            ]
            .as_slice()
    );
    Ok(())
}
