//! Lines and what they are answered, and answers and what is printed, all worked out by hand.

ghost use Rattle.std.specs.Prelude.{◌≤◌, [], ◌∷◌, drop};

use crate::analyses::{print_labels, print_levels};
use crate::item::{Item, ScriptFault};
use crate::parser::Parser;
use crate::printers::{print_asof, print_edges, print_reply, print_row};
use crate::ranks::{print_degrees, print_rank};
use lama_model::{Command, Read, Refusal, Reply, Rows, Write};
use lama_rank::Totals;
use std::alloc::AllocError;

type Answer = Result<Option<Item>, ScriptFault>;

const SKIPPED: Answer = Ok(None);

const BAD: Answer = Err(ScriptFault::BadLine { line: 1 });

fn says(command: Command) -> Answer {
    Ok(Some(Item::One(command)))
}

fn vertices(count: u32) -> Answer {
    says(Command::Write(Write::Vertices(count)))
}

fn add(source: u32, target: u32, weight: u64) -> Answer {
    says(Command::Write(Write::Add(source, target, weight)))
}

fn del(source: u32, target: u32) -> Answer {
    says(Command::Write(Write::Remove(source, target)))
}

fn weigh(source: u32, target: u32, weight: u64) -> Answer {
    says(Command::Write(Write::Weigh(source, target, weight)))
}

fn edges(at: Option<u32>) -> Answer {
    says(Command::Read {
        at,
        what: Read::Edges,
    })
}

fn row(v: u32) -> Answer {
    says(Command::Read {
        at: None,
        what: Read::Row { v },
    })
}

fn row_at(k: u32, v: u32) -> Answer {
    says(Command::Read {
        at: Some(k),
        what: Read::Row { v },
    })
}

fn bfs(at: Option<u32>, s: u32, sum: bool) -> Answer {
    says(Command::Read {
        at,
        what: Read::Bfs { s, sum },
    })
}

fn labels(at: Option<u32>, sum: bool) -> Answer {
    says(Command::Read {
        at,
        what: Read::Labels { sum },
    })
}

#[test]
fn levels_and_labels_are_asked_for_whole_or_summed_up(rt: HostRuntime) {
    assert_eq!(rt; answer(b"bfs 3"), bfs(None, 3, false));
    assert_eq!(rt; answer(b" bfs\t003  sum\r"), bfs(None, 3, true));
    assert_eq!(rt; answer(b"@7 bfs 3"), bfs(Some(7), 3, false));
    assert_eq!(rt; answer(b"@7 bfs 3 sum"), bfs(Some(7), 3, true));
    assert_eq!(rt; answer(b"bfs"), BAD);
    assert_eq!(rt; answer(b"bfs sum"), BAD);
    assert_eq!(rt; answer(b"bfs sum 3"), BAD);
    assert_eq!(rt; answer(b"bfs 3 Sum"), BAD);
    assert_eq!(rt; answer(b"bfs 3 4"), BAD);
    assert_eq!(rt; answer(b"bfs 3 sum sum"), BAD);
    assert_eq!(rt; answer(b"bfs 4294967296"), BAD);
    assert_eq!(rt; answer(b"labels"), labels(None, false));
    assert_eq!(rt; answer(b"labels sum"), labels(None, true));
    assert_eq!(rt; answer(b"@4 labels"), labels(Some(4), false));
    assert_eq!(rt; answer(b"@4 labels sum"), labels(Some(4), true));
    assert_eq!(rt; answer(b"labels 0"), BAD);
    assert_eq!(rt; answer(b"labels sum 0"), BAD);
    assert_eq!(rt; answer(b"label"), BAD);
}

fn rank(at: Option<u32>, rounds: u32, sum: bool) -> Answer {
    says(Command::Read {
        at,
        what: Read::Rank { rounds, sum },
    })
}

fn degrees(at: Option<u32>) -> Answer {
    says(Command::Read {
        at,
        what: Read::Degrees,
    })
}

#[test]
fn ranks_are_asked_for_after_at_most_a_hundred_rounds(rt: HostRuntime) {
    assert_eq!(rt; answer(b"rank 0"), rank(None, 0, false));
    assert_eq!(rt; answer(b"rank 100"), rank(None, 100, false));
    assert_eq!(rt; answer(b"\trank 0020 sum "), rank(None, 20, true));
    assert_eq!(rt; answer(b"@7 rank 3"), rank(Some(7), 3, false));
    assert_eq!(rt; answer(b"@7 rank 3 sum"), rank(Some(7), 3, true));
    assert_eq!(rt; answer(b"rank 101"), BAD);
    assert_eq!(rt; answer(b"rank 101 sum"), BAD);
    assert_eq!(rt; answer(b"rank 4294967296"), BAD);
    assert_eq!(rt; answer(b"rank"), BAD);
    assert_eq!(rt; answer(b"rank sum"), BAD);
    assert_eq!(rt; answer(b"rank 3 sums"), BAD);
    assert_eq!(rt; answer(b"rank 3 4"), BAD);
    assert_eq!(rt; answer(b"rank 3 sum 4"), BAD);
    assert_eq!(rt; answer(b"ranks 3"), BAD);
    assert_eq!(rt; answer(b"degrees"), degrees(None));
    assert_eq!(rt; answer(b"@2  degrees"), degrees(Some(2)));
    assert_eq!(rt; answer(b"degrees sum"), BAD);
    assert_eq!(rt; answer(b"degrees 0"), BAD);
    assert_eq!(rt; answer(b"degree"), BAD);
}

fn dist(at: Option<u32>, s: u32, sum: bool) -> Answer {
    says(Command::Read {
        at,
        what: Read::Dist { s, sum },
    })
}

#[test]
fn distances_name_a_source(rt: HostRuntime) {
    assert_eq!(rt; answer(b"dist 3"), dist(None, 3, false));
    assert_eq!(rt; answer(b"@7\tdist 003 sum \r"), dist(Some(7), 3, true));
    assert_eq!(rt;
        answer(b"dist 4294967295"),
        dist(None, 4_294_967_295, false)
    );
    assert_eq!(rt; answer(b"dist 4294967296"), BAD);
    assert_eq!(rt; answer(b"dist"), BAD);
    assert_eq!(rt; answer(b"dist sum"), BAD);
    assert_eq!(rt; answer(b"dist 3 4"), BAD);
    assert_eq!(rt; answer(b"dist 3 sum 4"), BAD);
    assert_eq!(rt; answer(b"dist 3 sums"), BAD);
    assert_eq!(rt; answer(b"dists 3"), BAD);
}

fn retire(k: u32) -> Answer {
    says(Command::Retire { k })
}

fn as_of(at: Option<u32>, j: u32, v: u32) -> Answer {
    says(Command::Read {
        at,
        what: Read::AsOf { j, v },
    })
}

#[test]
fn retirements_name_a_snapshot(rt: HostRuntime) {
    assert_eq!(rt; answer(b"retire 3"), retire(3));
    assert_eq!(rt; answer(b"\tretire  0003 \r"), retire(3));
    assert_eq!(rt; answer(b"retire 4294967295"), retire(4_294_967_295));
    assert_eq!(rt; answer(b"retire 4294967296"), BAD);
    assert_eq!(rt; answer(b"retire"), BAD);
    assert_eq!(rt; answer(b"retire 3 4"), BAD);
    assert_eq!(rt; answer(b"retire sum"), BAD);
    assert_eq!(rt; answer(b"@7 retire 3"), BAD);
    assert_eq!(rt; answer(b"retired 3"), BAD);
}

#[test]
fn merges_have_no_words(rt: HostRuntime) {
    assert_eq!(rt; answer(b"merge"), says(Command::Merge));
    assert_eq!(rt; answer(b" merge\t\r"), says(Command::Merge));
    assert_eq!(rt; answer(b"merge 3"), BAD);
    assert_eq!(rt; answer(b"@3 merge"), BAD);
    assert_eq!(rt; answer(b"merged"), BAD);
}

#[test]
fn earlier_rows_name_a_number_and_a_vertex(rt: HostRuntime) {
    assert_eq!(rt; answer(b"asof 3 5"), as_of(None, 3, 5));
    assert_eq!(rt; answer(b" asof\t03  05 "), as_of(None, 3, 5));
    assert_eq!(rt; answer(b"@7 asof 3 5"), as_of(Some(7), 3, 5));
    assert_eq!(rt; answer(b"asof 4294967295 0"), as_of(None, 4_294_967_295, 0));
    assert_eq!(rt; answer(b"asof 4294967296 0"), BAD);
    assert_eq!(rt; answer(b"asof 0 4294967296"), BAD);
    assert_eq!(rt; answer(b"asof"), BAD);
    assert_eq!(rt; answer(b"asof 3"), BAD);
    assert_eq!(rt; answer(b"asof 3 5 sum"), BAD);
    assert_eq!(rt; answer(b"asof 3 x"), BAD);
    assert_eq!(rt; answer(b"as of 3 5"), BAD);
}

#[test]
fn a_number_behind_an_at_sign_names_a_snapshot(rt: HostRuntime) {
    assert_eq!(rt; answer(b"@7 row 3"), row_at(7, 3));
    assert_eq!(rt; answer(b" @007\trow  0003 "), row_at(7, 3));
    assert_eq!(rt; answer(b"@4294967295 row 0"), row_at(4_294_967_295, 0));
    assert_eq!(rt; answer(b"@4294967296 row 0"), BAD);
    assert_eq!(rt; answer(b"@ row 0"), BAD);
    assert_eq!(rt; answer(b"@ 7 row 0"), BAD);
    assert_eq!(rt; answer(b"@7"), BAD);
    assert_eq!(rt; answer(b"@7 row"), BAD);
    assert_eq!(rt; answer(b"@7 row 0 0"), BAD);
    assert_eq!(rt; answer(b"@7 @7 row 0"), BAD);
    assert_eq!(rt; answer(b"@7 checkpoint"), BAD);
    assert_eq!(rt; answer(b"7 row 0"), BAD);
    assert_eq!(rt; answer(b"@7 edges"), edges(Some(7)));
    assert_eq!(rt; answer(b"@7 del 0 1"), BAD);
}

fn answer(line: &[u8]) -> Answer {
    Parser::plain().line(line)
}

#[test]
fn numbers_have_digits_alone_and_fit_32_bits(rt: HostRuntime) {
    assert_eq!(rt; answer(b"vertices 0"), vertices(0));
    assert_eq!(rt; answer(b"vertices 4294967295"), vertices(4_294_967_295));
    assert_eq!(rt; answer(b"vertices 4294967296"), BAD);
    assert_eq!(rt;
        answer(b"vertices 00000000000000000000000000000007"),
        vertices(7)
    );
    assert_eq!(rt; answer(b"vertices 99999999999999999999999999999999"), BAD);
    assert_eq!(rt; answer(b"vertices +5"), BAD);
    assert_eq!(rt; answer(b"vertices 5x"), BAD);
}

#[test]
fn blanks_tabs_and_one_return_part_words(rt: HostRuntime) {
    assert_eq!(rt; answer(b" \tvertices\t  9\t \r"), vertices(9));
    assert_eq!(rt; answer(b"vertices 9\r\r"), BAD);
    assert_eq!(rt; answer(b""), SKIPPED);
    assert_eq!(rt; answer(b"\r"), SKIPPED);
    assert_eq!(rt; answer(b" \t "), SKIPPED);
    assert_eq!(rt; answer(b"\t#vertices 1"), SKIPPED);
    assert_eq!(rt; answer(b"vertices 1 #"), BAD);
}

#[test]
fn each_command_has_its_words(rt: HostRuntime) {
    assert_eq!(rt; answer(b"vertices"), BAD);
    assert_eq!(rt; answer(b"vertices 1 2"), BAD);
    assert_eq!(rt; answer(b"Vertices 1"), BAD);
    assert_eq!(rt; answer(b"add 2 3"), add(2, 3, 1));
    assert_eq!(rt; answer(b"add 2 3 5"), add(2, 3, 5));
    assert_eq!(rt; answer(b"add 2"), BAD);
    assert_eq!(rt; answer(b"add 2 3 5 7"), BAD);
    assert_eq!(rt; answer(b"del 2 3"), del(2, 3));
    assert_eq!(rt; answer(b"del 2"), BAD);
    assert_eq!(rt; answer(b"del 2 3 5"), BAD);
    assert_eq!(rt; answer(b"weigh 2 3 4294967295"), weigh(2, 3, 4_294_967_295));
    assert_eq!(rt; answer(b"weigh 2 3"), BAD);
    assert_eq!(rt; answer(b"weigh 2 3 5 7"), BAD);
    assert_eq!(rt; answer(b"checkpoint"), says(Command::Checkpoint));
    assert_eq!(rt; answer(b"checkpoint 1"), BAD);
    assert_eq!(rt; answer(b"edges"), edges(None));
    assert_eq!(rt; answer(b"edges 1"), BAD);
    assert_eq!(rt; answer(b"row 2"), row(2));
    assert_eq!(rt; answer(b"row"), BAD);
    assert_eq!(rt; answer(b"row 2 3"), BAD);
    assert_eq!(rt; answer(b"par"), BAD);
}

/// The return at a line's end counts for its length.
#[test]
fn a_line_has_at_most_1024_bytes(rt: HostRuntime) -> Result<(), AllocError> {
    let mut line = Vec::new(rt.alloc());
    line.resize(1_023, b' ')?;
    line.extend_from_slice(b"\r")?;
    assert_eq!(rt; answer(&line), SKIPPED);
    line.extend_from_slice(b"\r")?;
    assert_eq!(rt; answer(&line), BAD);
    Ok(())
}

#[test]
fn a_fault_is_given_again(rt: HostRuntime) {
    let mut parser = Parser::new();
    assert_eq!(rt; parser.line(b"checkpoint"), says(Command::Checkpoint));
    assert_eq!(rt; parser.finish(), Ok(()));
    let fault = ScriptFault::BadLine { line: 2 };
    assert_eq!(rt; parser.line(b"x"), Err(fault));
    assert_eq!(rt; parser.line(b"checkpoint"), Err(fault));
    assert_eq!(rt; parser.finish(), Err(fault));
    assert_eq!(rt; parser.taken(), 1);
}

#[test]
fn replies_print_their_lines(rt: HostRuntime) -> Result<(), AllocError> {
    let mut out = Vec::new(rt.alloc());
    let growth = Command::Write(Write::Vertices(3));
    let edge = Command::Write(Write::Add(0, 1, 1));
    let unknown = Refusal::UnknownVertex {
        vertex: 7,
        count: 3,
    };
    let missing = Refusal::NoSnapshot {
        asked: 5,
        oldest: 0,
        newest: 1,
    };
    print_reply(&mut out, &growth, &Reply::Count { count: 12 })?;
    print_reply(&mut out, &edge, &Reply::Accepted)?;
    print_reply(
        &mut out,
        &Command::Checkpoint,
        &Reply::Snapshot { number: 1 },
    )?;
    print_reply(&mut out, &edge, &Reply::Refused(unknown))?;
    print_reply(&mut out, &growth, &Reply::Refused(Refusal::FullVertices))?;
    print_reply(&mut out, &edge, &Reply::Refused(Refusal::FullEdges))?;
    print_reply(
        &mut out,
        &Command::Checkpoint,
        &Reply::Refused(Refusal::FullKept),
    )?;
    print_reply(
        &mut out,
        &Command::Checkpoint,
        &Reply::Refused(Refusal::FullNumbers),
    )?;
    print_reply(&mut out, &edge, &Reply::Refused(missing))?;
    let text =
        b"vertices 12\nsnapshot 1\nunknown vertex 7 of 3\nfull vertices\nfull edges\nfull snapshots\nfull numbers\nno snapshot 5 of 0 1\n";
    assert_eq!(rt; out.as_slice(), text.as_slice());
    Ok(())
}

/// Three vertices, with edges from vertex 0 to 1 and then to 2.
struct Fork;

impl Rows for Fork {
    type At = u32;

    ghost rows = { λ _. ((2, 1) ∷ (1, 1) ∷ []) ∷ [] ∷ [] ∷ [] };

    ghost is_place = { λ _ at. at ≤ 2 };

    ghost suffix = { λ _ at. drop at ((2, 1) ∷ (1, 1) ∷ []) };

    fn count(&self) -> u32 {
        3
    }

    fn degree(&self, v: u32) -> u32 {
        match v {
            0 => 2,
            1 => 0,
            _ => 0,
        }
    }

    fn start(&self, v: u32) -> u32 {
        match v {
            0 => 0,
            1 => 2,
            _ => 2,
        }
    }

    fn next(&self, at: u32) -> Option<(u32, u64, u32)> {
        match at {
            0 => Some((2, 1, 1)),
            1 => Some((1, 1, 2)),
            _ => None,
        }
    }
}

#[test]
fn rows_print_newest_first(rt: HostRuntime) -> Result<(), AllocError> {
    let mut out = Vec::new(rt.alloc());
    print_row(&mut out, 1, &Fork, 0)?;
    print_row(&mut out, 10, &Fork, 2)?;
    assert_eq!(rt;
        out.as_slice(),
        b"row 1 0 : 2/1 1/1\nrow 10 2 :\n".as_slice()
    );
    Ok(())
}

#[test]
fn earlier_targets_print_newest_first(rt: HostRuntime) -> Result<(), AllocError> {
    let mut out = Vec::new(rt.alloc());
    print_asof(&mut out, 3, 2, 0, &[2, 1, 2])?;
    print_asof(&mut out, 30, 0, 4_194_303, &[])?;
    assert_eq!(rt;
        out.as_slice(),
        b"asof 3 2 0 : 2 1 2\nasof 30 0 4194303 :\n".as_slice()
    );
    Ok(())
}

#[test]
fn retirements_and_merges_print_their_numbers(rt: HostRuntime) -> Result<(), AllocError> {
    let mut out = Vec::new(rt.alloc());
    let kept = Reply::Kept {
        oldest: 3,
        newest: 12,
    };
    let missing = Refusal::NoSnapshot {
        asked: 9,
        oldest: 3,
        newest: 4,
    };
    print_reply(&mut out, &Command::Retire { k: 3 }, &kept)?;
    print_reply(
        &mut out,
        &Command::Retire { k: 9 },
        &Reply::Refused(missing),
    )?;
    print_reply(&mut out, &Command::Checkpoint, &kept)?;
    print_reply(&mut out, &Command::Merge, &Reply::Snapshot { number: 12 })?;
    assert_eq!(rt;
        out.as_slice(),
        b"kept 3 12\nno snapshot 9 of 3 4\nmerged 12\n".as_slice()
    );
    Ok(())
}

#[test]
fn edges_are_counted_and_print_source_target_and_weight(rt: HostRuntime) -> Result<(), AllocError> {
    let mut out = Vec::new(rt.alloc());
    print_edges(&mut out, 4, &Fork)?;
    assert_eq!(rt; out.as_slice(), b"edges 4 2\n0 2 1\n0 1 1\n".as_slice());
    Ok(())
}

#[test]
fn accepted_deletions_and_weights_print_nothing(rt: HostRuntime) -> Result<(), AllocError> {
    let mut out = Vec::new(rt.alloc());
    let del = Command::Write(Write::Remove(0, 1));
    let weigh = Command::Write(Write::Weigh(0, 1, 5));
    let unknown = Refusal::UnknownVertex {
        vertex: 7,
        count: 3,
    };
    print_reply(&mut out, &del, &Reply::Accepted)?;
    print_reply(&mut out, &weigh, &Reply::Accepted)?;
    assert_eq!(rt; out.len(), 0);
    print_reply(&mut out, &del, &Reply::Refused(unknown))?;
    print_reply(&mut out, &weigh, &Reply::Refused(unknown))?;
    let text = b"unknown vertex 7 of 3\nunknown vertex 7 of 3\n";
    assert_eq!(rt; out.as_slice(), text.as_slice());
    Ok(())
}

#[test]
fn levels_print_a_line_for_each_vertex_or_their_sum(rt: HostRuntime) -> Result<(), AllocError> {
    let mut out = Vec::new(rt.alloc());
    let levels = [None, Some(0), Some(7), Some(3)];
    print_levels(&mut out, 12, 1, &levels, false)?;
    print_levels(&mut out, 12, 1, &levels, true)?;
    print_levels(&mut out, 0, 5, &[], true)?;
    let text = b"bfs 12 1\n0 -\n1 0\n2 7\n3 3\nbfs 12 1 sum 3 7 10\nbfs 0 5 sum 0 0 0\n";
    assert_eq!(rt; out.as_slice(), text.as_slice());
    Ok(())
}

/// Three components: {0, 3}, {1} and {2, 4, 5}.
const COMPONENTS: [u32; 6] = [0, 1, 2, 0, 2, 2];

#[test]
fn labels_print_a_line_for_each_vertex_or_their_sum(rt: HostRuntime) -> Result<(), AllocError> {
    let mut out = Vec::new(rt.alloc());
    print_labels(rt.alloc(), &mut out, 9, &COMPONENTS, false)?;
    print_labels(rt.alloc(), &mut out, 9, &COMPONENTS, true)?;
    let text = b"labels 9 3\n0 0\n1 1\n2 2\n3 0\n4 2\n5 2\nlabels 9 sum 3 3 7\n";
    assert_eq!(rt; out.as_slice(), text.as_slice());
    Ok(())
}

// Of equal ranks the first vertex is named. The sum of the last ones has 65 bits.
#[test]
fn ranks_print_a_line_for_each_vertex_or_their_sum(rt: HostRuntime) -> Result<(), AllocError> {
    let mut out = Vec::new(rt.alloc());
    let ranks = [150_000, 702_500, 702_500];
    print_rank(&mut out, 4, 2, &ranks, false)?;
    print_rank(&mut out, 4, 2, &ranks, true)?;
    print_rank(&mut out, 0, 100, &[], true)?;
    print_rank(&mut out, 0, 0, &[], false)?;
    let greatest = [1, 18_446_744_073_709_551_615];
    print_rank(&mut out, 9, 1, &greatest, true)?;
    let text =
        b"rank 4 2\n0 150000\n1 702500\n2 702500\nrank 4 2 sum 1555000 1 702500\nrank 0 100 sum 0 - 0\nrank 0 0\nrank 9 1 sum 18446744073709551616 1 18446744073709551615\n";
    assert_eq!(rt; out.as_slice(), text.as_slice());
    Ok(())
}

#[test]
fn degrees_print_their_four_totals(rt: HostRuntime) -> Result<(), AllocError> {
    let mut out = Vec::new(rt.alloc());
    let totals = Totals {
        vertices: 5,
        edges: 3,
        greatest: 1,
        sinks: 2,
    };
    print_degrees(&mut out, 1, &totals)?;
    assert_eq!(rt; out.as_slice(), b"degrees 1 5 3 1 2\n".as_slice());
    Ok(())
}
