ghost use Rattle.std.specs.Prelude.{◌≡◌, ◌<◌, ◌≤◌, [], ◌∷◌, drop, IfOk, IfSome};
ghost use Rattle.std.specs.Arc.{arc_value};
ghost use Rattle.lama_model.specs.Opening.{empty_opening};
ghost use Rattle.lama_model.specs.Journal.{standing};
ghost use Rattle.lama_snapshot.specs.BaseRows.{Numbered};
ghost use Rattle.lama_book.specs.Relation.{IsBookOf, IsMergedOf};

use crate::{Book, CallFault, Looked, Opening};
use lama_base::limits::MAX_JOURNAL;
use lama_merge::Merged;
use lama_model::{Call, Entry, PlainRows, Refusal, Reply, Rows, Write};
use lama_pages::Steps;
use lama_snapshot::Snapshot;
use std::alloc::{AllocError, Global};
use std::marker::Brand;
use std::sync::Arc;
use std::sync::ledger::{Blank, Ledger};
use std::test::Fail;

fn crosses_threads<X: Send + Sync>() {}

#[test]
fn books_cross_threads(_rt: HostRuntime) -> Result<(), Fail> {
    crosses_threads::<Book>();
    crosses_threads::<Opening>();
    Ok(())
}

// A book of no vertices, before any call.
fn empty_book<L: Ledger>(alloc: Global, pages: &mut Steps<L>) -> Result<Book, AllocError> {
    let rows = PlainRows::from_edges(alloc, 0, &[])?;
    Book::new(alloc, Opening::from_rows(alloc, 0, &rows, pages)?)
}

// Whether a look is refused after as many as a journal has, and the entries that there are then.
fn looks<L: Ledger>(alloc: Global, blank: Blank) -> Result<Option<(bool, usize)>, AllocError>
    requires name { blank.name ≡ L.name }
    requires parts { blank.parts ≡ L.parts }
    requires one { blank.parts ≡ 1 }
{
    let mut pages = Steps::<L>::open(blank);
    let mut book = empty_book(alloc, &mut pages)?;
    for _ in 0..MAX_JOURNAL {
        if book.look(0).is_err() {
            return Ok(None);
        }
    }
    let full = matches!(book.look(0), Err(CallFault::JournalFull));
    Ok(Some((full, book.journal().len())))
}

#[test]
fn a_full_journal_takes_no_look(rt: HostRuntime) -> Result<(), Fail> {
    assert_eq!(rt;
        looks::<Brand>(rt.alloc(), Blank::new(1))?,
        Some((true, 4_194_304))
    );
    Ok(())
}

// The replies to these writes with a checkpoint behind each, the journal, and the row of vertex 0 in
// each kept snapshot that has it.
fn run<L: Ledger>(
    alloc: Global,
    writes: &[Write],
    blank: Blank,
) -> Result<Option<(Vec<Reply>, Vec<Entry>, Vec<Vec<(u32, u64)>>)>, AllocError>
    requires name { blank.name ≡ L.name }
    requires parts { blank.parts ≡ L.parts }
    requires one { blank.parts ≡ 1 }
{
    let mut pages = Steps::<L>::open(blank);
    let mut book = empty_book(alloc, &mut pages)?;
    let mut replies = Vec::new(alloc);
    for &w in writes {
        let Ok(reply) = book.write(1, w) else {
            return Ok(None);
        };
        replies.push(reply)?;
        let Ok(reply) = book.checkpoint(2, &mut pages) else {
            return Ok(None);
        };
        replies.push(reply)?;
    }
    let mut entries = Vec::new(alloc);
    entries.extend_from_slice(book.journal())?;
    Ok(Some((replies, entries, first_rows(alloc, &book)?)))
}

// The row of vertex 0 in each kept snapshot.
fn first_rows(alloc: Global, book: &Book) -> Result<Vec<Vec<(u32, u64)>>, AllocError> {
    let mut rows = Vec::new(alloc);
    for snapshot in book.kept() {
        rows.push(first_row(alloc, &**snapshot)?)?;
    }
    Ok(rows)
}

// The row of vertex 0, newest edge first; empty where there is no vertex.
fn first_row<R: Rows>(alloc: Global, rows: &R) -> Result<Vec<(u32, u64)>, AllocError> {
    let mut row = Vec::new(alloc);
    if rows.count() == 0 {
        return Ok(row);
    }
    let mut at = rows.start(0);
    while let Some((target, weight, rest)) = rows.next(at) {
        row.push((target, weight))?;
        at = rest;
    }
    Ok(row)
}

#[test]
fn each_call_has_its_reply_and_its_entry(rt: HostRuntime) -> Result<(), Fail> {
    let alloc = rt.alloc();
    let writes = [
        Write::Vertices(2),
        Write::Add(0, 1, 7),
        Write::Add(2, 0, 7),
        Write::Add(0, 0, 7),
        Write::Weigh(0, 1, 9),
        Write::Remove(0, 2),
        Write::Remove(0, 1),
        Write::Weigh(1, 1, 5),
    ];
    match run::<Brand>(alloc, &writes, Blank::new(1))? {
        None => assert_eq!(rt; true, false),
        Some((replies, entries, rows)) => {
            let refused = Reply::Refused(Refusal::UnknownVertex {
                vertex: 2,
                count: 2,
            });
            let wanted = [
                Reply::Count { count: 2 },
                Reply::Accepted,
                refused,
                Reply::Accepted,
                Reply::Accepted,
                refused,
                Reply::Accepted,
                Reply::Accepted,
            ];
            let mut each_reply = Vec::new(alloc);
            let mut each_entry = Vec::new(alloc);
            for i in 0..8 {
                each_reply.push(wanted[i])?;
                each_reply.push(Reply::Snapshot {
                    number: i as u32 + 1,
                })?;
                each_entry.push(Entry {
                    caller: 1,
                    call: Call::Write(writes[i]),
                })?;
                each_entry.push(Entry {
                    caller: 2,
                    call: Call::Checkpoint,
                })?;
            }
            assert_eq!(rt; replies, each_reply);
            assert_eq!(rt; entries, each_entry);
            let in_each = vec![in alloc;
                Vec::new(alloc),
                Vec::new(alloc),
                vec![in alloc; (1, 7)]?,
                vec![in alloc; (1, 7)]?,
                vec![in alloc; (0, 7), (1, 7)]?,
                vec![in alloc; (0, 7), (1, 9)]?,
                vec![in alloc; (0, 7), (1, 9)]?,
                vec![in alloc; (0, 7)]?,
                vec![in alloc; (0, 7)]?,
            ]?;
            assert_eq!(rt; rows, in_each);
        }
    }
    Ok(())
}

// Two vertices, with an edge from 0 to 1.
struct OneEdge;

impl Rows for OneEdge {
    type At = u32;

    ghost rows = { λ _. ((1, 5) ∷ []) ∷ [] ∷ [] };

    ghost is_place = { λ _ at. at ≤ 1 };

    ghost suffix = { λ _ at. drop at ((1, 5) ∷ []) };

    fn count(&self) -> u32 {
        2
    }

    fn degree(&self, v: u32) -> u32 {
        match v {
            0 => 1,
            _ => 0,
        }
    }

    fn start(&self, v: u32) -> u32 {
        match v {
            0 => 0,
            _ => 1,
        }
    }

    fn next(&self, at: u32) -> Option<(u32, u64, u32)> {
        match at {
            0 => Some((1, 5, 1)),
            _ => None,
        }
    }
}

// The row of vertex 0 in each snapshot where these writes follow the one edge of the base, with a
// checkpoint behind each.
fn after_base<L: Ledger>(
    alloc: Global,
    writes: &[Write],
    blank: Blank,
) -> Result<Option<Vec<Vec<(u32, u64)>>>, AllocError>
    requires name { blank.name ≡ L.name }
    requires parts { blank.parts ≡ L.parts }
    requires one { blank.parts ≡ 1 }
{
    let mut pages = Steps::<L>::open(blank);
    let mut book = Book::new(alloc, Opening::from_rows(alloc, 0, &OneEdge, &mut pages)?)?;
    for &w in writes {
        if book.write(0, w).is_err() {
            return Ok(None);
        }
        if book.checkpoint(0, &mut pages).is_err() {
            return Ok(None);
        }
    }
    Ok(Some(first_rows(alloc, &book)?))
}

#[test]
fn parallel_edges_of_the_base_and_a_level(rt: HostRuntime) -> Result<(), Fail> {
    let alloc = rt.alloc();
    let writes = [
        Write::Add(0, 1, 6),
        Write::Weigh(0, 1, 9),
        Write::Remove(0, 1),
    ];
    let wanted = vec![in alloc;
        vec![in alloc; (1, 5)]?,
        vec![in alloc; (1, 6), (1, 5)]?,
        vec![in alloc; (1, 9), (1, 9)]?,
        Vec::new(alloc),
    ]?;
    assert_eq!(rt;
        after_base::<Brand>(alloc, &writes, Blank::new(1))?,
        Some(wanted)
    );
    Ok(())
}

// What is answered where these numbers are retired one after another, the row of vertex 0 in each snapshot that is kept then,
// and in one that was held from before. Snapshot 1 has no edge, 2 has 0 to 1, 3 has 0 to 0 besides, and 4 has that alone.
fn retire_each<L: Ledger>(
    alloc: Global,
    numbers: &[u32],
    blank: Blank,
) -> Result<Option<(Vec<Reply>, Vec<Vec<(u32, u64)>>, Vec<(u32, u64)>)>, AllocError>
    requires name { blank.name ≡ L.name }
    requires parts { blank.parts ≡ L.parts }
    requires one { blank.parts ≡ 1 }
{
    let mut pages = Steps::<L>::open(blank);
    let mut book = empty_book(alloc, &mut pages)?;
    let writes = [
        Write::Vertices(2),
        Write::Add(0, 1, 7),
        Write::Add(0, 0, 3),
        Write::Remove(0, 1),
    ];
    for w in writes {
        if book.write(1, w).is_err() || book.checkpoint(1, &mut pages).is_err() {
            return Ok(None);
        }
    }
    let Ok(
        Looked {
            snapshot: Some(held),
            ..
        },
    ) = book.look_at(1, 2)
    else {
        return Ok(None);
    };
    let mut replies = Vec::new(alloc);
    for &k in numbers {
        let Ok(reply) = book.retire(1, k) else {
            return Ok(None);
        };
        replies.push(reply)?;
    }
    let rows = first_rows(alloc, &book)?;
    Ok(Some((replies, rows, first_row(alloc, &*held)?)))
}

#[test]
fn a_retirement_lets_the_older_snapshots_go(rt: HostRuntime) -> Result<(), Fail> {
    let alloc = rt.alloc();
    let missing = |asked, oldest| {
        Reply::Refused(Refusal::NoSnapshot {
            asked,
            oldest,
            newest: 4,
        })
    };
    let found = retire_each::<Brand>(alloc, &[5, 3, 2, 9, 3], Blank::new(1))?;
    let replies = vec![in alloc;
        missing(5, 0),
        Reply::Kept {
            oldest: 3,
            newest: 4
        },
        missing(2, 3),
        missing(9, 3),
        Reply::Kept {
            oldest: 3,
            newest: 4
        },
    ]?;
    let rows = vec![in alloc; vec![in alloc; (0, 3), (1, 7)]?, vec![in alloc; (0, 3)]?]?;
    let held = vec![in alloc; (1, 7)]?;
    assert_eq!(rt; found, Some((replies, rows, held)));
    Ok(())
}

// What the checkpoint past the last one is answered, a retirement of the first, and a checkpoint after it.
fn make_room<L: Ledger>(alloc: Global, blank: Blank) -> Result<Option<[Reply; 3]>, AllocError>
    requires name { blank.name ≡ L.name }
    requires parts { blank.parts ≡ L.parts }
    requires one { blank.parts ≡ 1 }
{
    let mut pages = Steps::<L>::open(blank);
    let mut book = empty_book(alloc, &mut pages)?;
    for _ in 0..4095u32 {
        if book.checkpoint(0, &mut pages).is_err() {
            return Ok(None);
        }
    }
    let Ok(full) = book.checkpoint(0, &mut pages) else {
        return Ok(None);
    };
    let Ok(kept) = book.retire(0, 1) else {
        return Ok(None);
    };
    let Ok(made) = book.checkpoint(0, &mut pages) else {
        return Ok(None);
    };
    Ok(Some([full, kept, made]))
}

#[test]
fn a_retirement_makes_room_for_a_snapshot(rt: HostRuntime) -> Result<(), Fail> {
    assert_eq!(rt;
        make_room::<Brand>(rt.alloc(), Blank::new(1))?,
        Some([
            Reply::Refused(Refusal::FullKept),
            Reply::Kept {
                oldest: 1,
                newest: 4095
            },
            Reply::Snapshot { number: 4096 },
        ])
    );
    Ok(())
}

// The targets of the row of `v` in the graph of the number `k`, where the snapshot tells them.
fn told(alloc: Global, s: &Snapshot, v: u32, k: u32) -> Result<Option<Vec<u32>>, AllocError> {
    if v >= s.count() || k < s.floor() || s.number() < k {
        return Ok(None);
    }
    Ok(Some(s.row_as_of(alloc, v, k)?))
}

// What each kept snapshot tells of the row of `v` under the numbers 0 to 3.
fn all_told(alloc: Global, book: &Book, v: u32) -> Result<Vec<Option<Vec<u32>>>, AllocError> {
    let mut rows = Vec::new(alloc);
    for snapshot in book.kept() {
        for k in 0..4 {
            rows.push(told(alloc, &**snapshot, v, k)?)?;
        }
    }
    Ok(rows)
}

// What the snapshots of these writes tell of the rows of vertices 0 and 3. A checkpoint is made where no write is.
fn earlier_rows<L: Ledger>(
    alloc: Global,
    writes: &[Option<Write>],
    blank: Blank,
) -> Result<Option<(Vec<Option<Vec<u32>>>, Vec<Option<Vec<u32>>>)>, AllocError>
    requires name { blank.name ≡ L.name }
    requires parts { blank.parts ≡ L.parts }
    requires one { blank.parts ≡ 1 }
{
    let mut pages = Steps::<L>::open(blank);
    let mut book = empty_book(alloc, &mut pages)?;
    for &next in writes {
        let reply = match next {
            Some(w) => book.write(0, w),
            None => book.checkpoint(0, &mut pages),
        };
        if reply.is_err() {
            return Ok(None);
        }
    }
    Ok(Some((all_told(alloc, &book, 0)?, all_told(alloc, &book, 3)?)))
}

// Rows of targets, where there are some.
fn rows_of(alloc: Global, lists: &[Option<&[u32]>]) -> Result<Vec<Option<Vec<u32>>>, AllocError> {
    let mut rows = Vec::new(alloc);
    for &list in lists {
        match list {
            Some(targets) => rows.push(Some(Vec::from_slice(alloc, targets)?))?,
            None => rows.push(None)?,
        }
    }
    Ok(rows)
}

// Edges of two levels go and are weighed anew, and vertex 3 comes with the second checkpoint.
#[test]
fn each_snapshot_tells_the_graphs_from_its_floor_on(rt: HostRuntime) -> Result<(), Fail> {
    let alloc = rt.alloc();
    let writes = [
        Some(Write::Vertices(3)),
        Some(Write::Add(0, 1, 5)),
        Some(Write::Add(0, 2, 6)),
        None,
        Some(Write::Vertices(1)),
        Some(Write::Add(3, 0, 1)),
        Some(Write::Remove(0, 1)),
        Some(Write::Weigh(0, 2, 9)),
        Some(Write::Add(0, 0, 7)),
        None,
        Some(Write::Remove(0, 0)),
        None,
    ];
    let none: [Option<&[u32]>; 4] = [None, None, None, None];
    match earlier_rows::<Brand>(alloc, &writes, Blank::new(1))? {
        None => assert_eq!(rt; true, false),
        Some((first, last)) => {
            let mut of_first: Vec<Option<&[u32]>> = Vec::from_slice(alloc, &none)?;
            of_first.extend_from_slice(&[Some(&[]), Some(&[2, 1]), None, None])?;
            of_first.extend_from_slice(&[Some(&[]), Some(&[2, 1]), Some(&[0, 2]), None])?;
            of_first.extend_from_slice(&[Some(&[]), Some(&[2, 1]), Some(&[0, 2]), Some(&[2])])?;
            assert_eq!(rt; first, rows_of(alloc, &of_first)?);
            let mut of_last: Vec<Option<&[u32]>> = Vec::from_slice(alloc, &none)?;
            of_last.extend_from_slice(&none)?;
            of_last.extend_from_slice(&[Some(&[]), Some(&[]), Some(&[0]), None])?;
            of_last.extend_from_slice(&[Some(&[]), Some(&[]), Some(&[0]), Some(&[0])])?;
            assert_eq!(rt; last, rows_of(alloc, &of_last)?);
        }
    }
    Ok(())
}

// A book of no vertices that stands for its journal, before any call.
fn opened_book<L: Ledger>(alloc: Global, pages: &mut Steps<L>) -> Result<Book, AllocError>
    ensures { IfOk result (λ book. IsBookOf empty_opening book) }
{
    let rows = PlainRows::from_edges(alloc, 0, &[])?;
    let book = Book::new(alloc, Opening::from_rows(alloc, 0, &rows, pages)?)?;
    Ok(book)
}

// Whether the book takes the write, or a checkpoint where there is none.
fn takes<L: Ledger>(book: &mut Book, next: Option<Write>, pages: &mut Steps<L>) -> bool
    requires { IsBookOf empty_opening book.old }
    ensures book { IsBookOf empty_opening book.new }
    ensures merged { (m : Numbered) → IsMergedOf empty_opening (standing empty_opening book.old.journal) m → IsMergedOf empty_opening (standing empty_opening book.new.journal) m }
{
    match next {
        Some(w) => book.write(0, w).is_ok(),
        None => book.checkpoint(0, pages).is_ok(),
    }
}

// Whether it takes all of them.
fn takes_all<L: Ledger>(book: &mut Book, calls: &[Option<Write>], pages: &mut Steps<L>) -> bool
    requires { IsBookOf empty_opening book.old }
    ensures book { IsBookOf empty_opening book.new }
    ensures merged { (m : Numbered) → IsMergedOf empty_opening (standing empty_opening book.old.journal) m → IsMergedOf empty_opening (standing empty_opening book.new.journal) m }
{
    for &next in calls {
        if !takes(book, next, pages) {
            return false;
        }
    }
    true
}

// A base that is merged from the newest snapshot.
fn newest_merged<L: Ledger>(
    alloc: Global,
    book: &mut Book,
    pages: &mut Steps<L>,
) -> Result<Option<Arc<Merged, Global>>, AllocError>
    requires { IsBookOf empty_opening book.old }
    ensures book { IsBookOf empty_opening book.new }
    ensures old { (m : Numbered) → IsMergedOf empty_opening (standing empty_opening book.old.journal) m → IsMergedOf empty_opening (standing empty_opening book.new.journal) m }
    ensures new { IfOk result (λ found. IfSome found (λ m. IsMergedOf empty_opening (standing empty_opening book.new.journal) (arc_value m))) }
{
    let Ok(newest) = book.look(0) else {
        return Ok(None);
    };
    let merged = Merged::build(alloc, &newest, pages)?;
    Ok(Some(Arc::new(alloc, merged)?))
}

// The reply to an install of it.
fn install<L: Ledger>(
    book: &mut Book,
    merged: &Arc<Merged, Global>,
    pages: &mut Steps<L>,
) -> Option<Reply>
    requires book { IsBookOf empty_opening book.old }
    requires merged { IsMergedOf empty_opening (standing empty_opening book.old.journal) (arc_value merged.now) }
    ensures book { IsBookOf empty_opening book.new }
    ensures merged { (m : Numbered) → IsMergedOf empty_opening (standing empty_opening book.old.journal) m → IsMergedOf empty_opening (standing empty_opening book.new.journal) m }
{
    book.install(0, merged, pages).ok()
}

// What the tests look at: the rows of vertex 0 in the kept snapshots, and their floors.
fn rows_and_floors(
    alloc: Global,
    book: &Book,
) -> Result<(Vec<Vec<(u32, u64)>>, Vec<u32>), AllocError> {
    let mut floors = Vec::new(alloc);
    for snapshot in book.kept() {
        floors.push(snapshot.floor())?;
    }
    Ok((first_rows(alloc, book)?, floors))
}

#[derive(Drop)]
struct Installed {
    before: Vec<Vec<(u32, u64)>>,
    after: Vec<Vec<(u32, u64)>>,
    floors: Vec<u32>,
    reply: Option<Reply>,
    floor: u32,
}

// A base is merged after the first calls and installed after the later ones.
fn installed_late<L: Ledger>(
    alloc: Global,
    first: &[Option<Write>],
    later: &[Option<Write>],
    blank: Blank,
) -> Result<Option<Installed>, AllocError>
    requires name { blank.name ≡ L.name }
    requires parts { blank.parts ≡ L.parts }
    requires one { blank.parts ≡ 1 }
{
    let mut pages = Steps::<L>::open(blank);
    let mut book = opened_book(alloc, &mut pages)?;
    if !takes_all(&mut book, first, &mut pages) {
        return Ok(None);
    }
    let Some(merged) = newest_merged(alloc, &mut book, &mut pages)? else {
        return Ok(None);
    };
    if !takes_all(&mut book, later, &mut pages) {
        return Ok(None);
    }
    let (before, _) = rows_and_floors(alloc, &book)?;
    let reply = install(&mut book, &merged, &mut pages);
    let (after, floors) = rows_and_floors(alloc, &book)?;
    Ok(Some(Installed {
        before,
        after,
        floors,
        reply,
        floor: book.floor(),
    }))
}

// Edges that were deleted and weighed anew above the merged number stay so.
#[test]
fn an_install_changes_no_row(rt: HostRuntime) -> Result<(), Fail> {
    let alloc = rt.alloc();
    let first = [
        Some(Write::Vertices(3)),
        Some(Write::Add(0, 1, 1)),
        Some(Write::Add(0, 2, 1)),
        None,
        Some(Write::Add(0, 0, 1)),
        None,
    ];
    let later = [Some(Write::Remove(0, 1)), Some(Write::Weigh(0, 2, 9)), None];
    match installed_late::<Brand>(alloc, &first, &later, Blank::new(1))? {
        None => assert_eq!(rt; true, false),
        Some(seen) => {
            let rows = vec![in alloc;
                Vec::new(alloc),
                vec![in alloc; (2, 1), (1, 1)]?,
                vec![in alloc; (0, 1), (2, 1), (1, 1)]?,
                vec![in alloc; (0, 1), (2, 9)]?,
            ]?;
            assert_eq!(rt; seen.before, rows);
            assert_eq!(rt; seen.after, rows);
            assert_eq!(rt; seen.reply, Some(Reply::Snapshot { number: 2 }));
            assert_eq!(rt; seen.floors, vec![in alloc; 0, 0, 2, 2]?);
            assert_eq!(rt; seen.floor, 2);
        }
    }
    Ok(())
}

// Bases are merged from snapshots 2 and 3, and the older one is installed last.
fn older_last<L: Ledger>(
    alloc: Global,
    blank: Blank,
) -> Result<Option<(Option<Reply>, Option<Reply>, Vec<u32>, u32)>, AllocError>
    requires name { blank.name ≡ L.name }
    requires parts { blank.parts ≡ L.parts }
    requires one { blank.parts ≡ 1 }
{
    let mut pages = Steps::<L>::open(blank);
    let mut book = opened_book(alloc, &mut pages)?;
    if !takes_all(&mut book, &[None, None], &mut pages) {
        return Ok(None);
    }
    let Some(second) = newest_merged(alloc, &mut book, &mut pages)? else {
        return Ok(None);
    };
    if !takes_all(&mut book, &[None], &mut pages) {
        return Ok(None);
    }
    let Some(third) = newest_merged(alloc, &mut book, &mut pages)? else {
        return Ok(None);
    };
    let one = install(&mut book, &third, &mut pages);
    let two = install(&mut book, &second, &mut pages);
    let (_, floors) = rows_and_floors(alloc, &book)?;
    Ok(Some((one, two, floors, book.floor())))
}

#[test]
fn an_older_base_leaves_newer_floors(rt: HostRuntime) -> Result<(), Fail> {
    let alloc = rt.alloc();
    match older_last::<Brand>(alloc, Blank::new(1))? {
        None => assert_eq!(rt; true, false),
        Some((one, two, floors, floor)) => {
            assert_eq!(rt; one, Some(Reply::Snapshot { number: 3 }));
            assert_eq!(rt; two, Some(Reply::Snapshot { number: 2 }));
            assert_eq!(rt; floors, vec![in alloc; 0, 0, 2, 3]?);
            assert_eq!(rt; floor, 3);
        }
    }
    Ok(())
}
