ghost use Rattle.std.specs.Prelude.{◌≡◌};

use crate::run_llama::run_llama;
use crate::status::Status;
use lama_base::Gate;
use lama_base::limits::{MAX_LINE_BYTES, MAX_LINES};
use lama_outside::{Meeting, MemSink, MemSource, NoGate};
use lama_pages::Steps;
use lama_script::print_numbered;
use std::alloc::{AllocError, Global};
use std::marker::Brand;
use std::process::Abort;
use std::sync::ledger::{Blank, Ledger};
use std::test::Fail;
use std::thread::Threads;

/// Runs the script of the source, which counts the pages in the ledger that the blank opens.
fn run<L: Ledger, R: AllocGlobal + Threads + Sync, G: Gate + Sync>(
    rt: &R,
    words: &[String],
    source: &mut MemSource,
    sink: &mut MemSink,
    gate: &G,
    blank: Blank,
) -> Status
    requires name { blank.name ≡ L.name }
    requires parts { blank.parts ≡ L.parts }
    requires one { blank.parts ≡ 1 }
{
    let mut pages: Steps<L> = Steps::open(blank);
    run_llama(rt, rt.alloc(), words, source, sink, gate, &mut pages).status
}

/// These words of a command line.
fn words_of(alloc: Global, list: &[&str]) -> Result<Vec<String>, AllocError> {
    let mut words = Vec::new(alloc);
    for word in list {
        words.push(String::from_str(alloc, word)?)?;
    }
    Ok(words)
}

/// Runs a script without words, in so many bytes at a time. Reads and writes of these numbers fail.
fn run_script<R: AllocGlobal + Threads + Sync>(
    rt: &R,
    script: &[u8],
    most: usize,
    bad_reads: &[u32],
    bad_writes: &[u32],
) -> Result<(Status, Vec<u8>), AllocError> {
    let alloc = rt.alloc();
    let mut source = MemSource::new(
        Vec::from_slice(alloc, script)?,
        most,
        Vec::from_slice(alloc, bad_reads)?,
    );
    let mut sink = MemSink::new(Vec::new(alloc), most, Vec::from_slice(alloc, bad_writes)?);
    let words = Vec::new(alloc);
    let status = run::<Brand, R, NoGate>(
        rt,
        &words,
        &mut source,
        &mut sink,
        &NoGate,
        Blank::new(1),
    );
    let text = Vec::from_slice(alloc, sink.bytes())?;
    Ok((status, text))
}

/// The script gives this text and ends so, whatever the sizes of reads and writes are.
fn gives<R: AllocGlobal + Abort + Threads + Sync>(
    rt: &R,
    script: &[u8],
    text: &[u8],
    status: Status,
) -> Result<(), Fail> {
    for most in [1, 3, 1_000_000] {
        let (ended, written) = run_script(rt, script, most, &[], &[])?;
        assert_eq!(rt; ended, status);
        assert_eq!(rt; written.as_slice(), text);
    }
    Ok(())
}

#[test]
fn scripts_give_their_texts(rt: HostRuntime) -> Result<(), Fail> {
    let done: [(&[u8], &[u8]); 8] = [
        (
            b"vertices 1\ncheckpoint\n@1 row 0\n@5 row 0\n",
            b"vertices 1\nsnapshot 1\nrow 1 0 :\nno snapshot 5 of 0 1\nend 4\n",
        ),
        (
            b"vertices 2\nadd 0 1 5\ncheckpoint\nadd 0 1 6\nvertices 1\ncheckpoint\n@1 row 0\n@2 row 0\n@1 row 2\n@0 row 0\nrow 2\n",
            b"vertices 2\nsnapshot 1\nvertices 3\nsnapshot 2\nrow 1 0 : 1/5\nrow 2 0 : 1/6 1/5\nunknown vertex 2 of 2\nunknown vertex 0 of 0\nrow 2 2 :\nend 11\n",
        ),
        (b"", b"end 0\n"),
        (
            b"vertices 3\nadd 0 1\nadd 0 2\ncheckpoint\nrow 0\n",
            b"vertices 3\nsnapshot 1\nrow 1 0 : 2/1 1/1\nend 5\n",
        ),
        (b"row 0\n", b"unknown vertex 0 of 0\nend 1\n"),
        (
            b"vertices 2\ncheckpoint\nadd 0 1\nrow 0\n",
            b"vertices 2\nsnapshot 1\nrow 1 0 :\nend 4\n",
        ),
        (
            b"vertices 3\nvertices 4194304\n",
            b"vertices 3\nfull vertices\nend 2\n",
        ),
        // The first vertex is refused before the second, and a last line without its line feed counts.
        (
            b"vertices 1\nadd 5 6\nadd 0 2 9\nrow 1",
            b"vertices 1\nunknown vertex 5 of 1\nunknown vertex 2 of 1\nunknown vertex 1 of 0\nend 4\n",
        ),
    ];
    for (script, text) in done {
        gives(&rt, script, text, Status::Done)?;
    }
    Ok(())
}

#[test]
fn retired_snapshots_are_gone(rt: HostRuntime) -> Result<(), Fail> {
    let done: [(&[u8], &[u8]); 3] = [
        (
            b"checkpoint\ncheckpoint\ncheckpoint\ncheckpoint\nretire 3\n@2 row 0\nretire 9\n",
            b"snapshot 1\nsnapshot 2\nsnapshot 3\nsnapshot 4\nkept 3 4\nno snapshot 2 of 3 4\nno snapshot 9 of 3 4\nend 7\n",
        ),
        // The oldest may be named again, and no older one.
        (
            b"vertices 1\nadd 0 0 3\ncheckpoint\nretire 1\nretire 1\nretire 0\n@1 row 0\nadd 0 0 4\ncheckpoint\n@1 row 0\nrow 0\n",
            b"vertices 1\nsnapshot 1\nkept 1 1\nkept 1 1\nno snapshot 0 of 1 1\nrow 1 0 : 0/3\nsnapshot 2\nrow 1 0 : 0/3\nrow 2 0 : 0/4 0/3\nend 11\n",
        ),
        // What waits for a checkpoint waits on.
        (
            b"vertices 2\nadd 0 1\nretire 0\ncheckpoint\nretire 1\nrow 0\n",
            b"vertices 2\nkept 0 0\nsnapshot 1\nkept 1 1\nrow 1 0 : 1/1\nend 6\n",
        ),
    ];
    for (script, text) in done {
        gives(&rt, script, text, Status::Done)?;
    }
    Ok(())
}

#[test]
fn merges_change_no_snapshot(rt: HostRuntime) -> Result<(), Fail> {
    let done: [(&[u8], &[u8]); 4] = [
        (
            b"vertices 3\nadd 0 1\ncheckpoint\nadd 0 2\ncheckpoint\nmerge\ndel 0 1\ncheckpoint\nasof 2 0\nasof 1 0\nasof 3 0\n",
            b"vertices 3\nsnapshot 1\nsnapshot 2\nmerged 2\nsnapshot 3\nasof 3 2 0 : 2 1\nno snapshot 1 of 2 3\nasof 3 3 0 : 2\nend 12\n",
        ),
        // Twice in a row, and on the opening.
        (
            b"vertices 2\nadd 0 1\ncheckpoint\nmerge\nmerge\nrow 0\nasof 0 0\nasof 1 0\n",
            b"vertices 2\nsnapshot 1\nmerged 1\nmerged 1\nrow 1 0 : 1/1\nno snapshot 0 of 1 1\nasof 1 1 0 : 1\nend 10\n",
        ),
        (
            b"merge\nrow 0\nvertices 1\nadd 0 0\ncheckpoint\nmerge\nedges\n",
            b"merged 0\nunknown vertex 0 of 0\nvertices 1\nsnapshot 1\nmerged 1\nedges 1 1\n0 0 1\nend 9\n",
        ),
        // Deletions and new weights above the merged number, an older snapshot with its own floor, and a merge after a
        // retirement.
        (
            b"vertices 3\nadd 0 1 5\nadd 0 2 6\ncheckpoint\nadd 0 0 7\ncheckpoint\nmerge\ndel 0 1\nweigh 0 2 9\ncheckpoint\n@1 row 0\n@2 row 0\nrow 0\n@1 asof 1 0\n@2 asof 1 0\nretire 2\nmerge\ndel 0 0\ncheckpoint\n@2 row 0\n@3 row 0\nrow 0\nasof 3 0\nasof 2 0\n",
            b"vertices 3\nsnapshot 1\nsnapshot 2\nmerged 2\nsnapshot 3\nrow 1 0 : 2/6 1/5\nrow 2 0 : 0/7 2/6 1/5\nrow 3 0 : 0/7 2/9\nasof 1 1 0 : 2 1\nno snapshot 1 of 2 2\nkept 2 3\nmerged 3\nsnapshot 4\nrow 2 0 : 0/7 2/6 1/5\nrow 3 0 : 0/7 2/9\nrow 4 0 : 2/9\nasof 4 3 0 : 0 2\nno snapshot 2 of 3 4\nend 26\n",
        ),
    ];
    for (script, text) in done {
        gives(&rt, script, text, Status::Done)?;
    }
    Ok(())
}

#[test]
fn distances_are_told_of_each_snapshot(rt: HostRuntime) -> Result<(), Fail> {
    let done: [(&[u8], &[u8]); 5] = [
        (
            b"vertices 4\nadd 0 1 5\nadd 0 2 1\nadd 2 1 4\nadd 1 3 0\ncheckpoint\ndist 0\ndist 0 sum\n",
            b"vertices 4\nsnapshot 1\ndist 1 0\n0 0 0 0\n1 5 1 0\n2 1 1 0\n3 5 2 1\ndist 1 0 sum 4 5 11\nend 8\n",
        ),
        // The greatest weights in a row of three.
        (
            b"vertices 5\nadd 0 1 4294967295\nadd 1 2 4294967295\nadd 2 3 4294967295\ncheckpoint\ndist 0\n",
            b"vertices 5\nsnapshot 1\ndist 1 0\n0 0 0 0\n1 4294967295 1 0\n2 8589934590 2 1\n3 12884901885 3 2\n4 -\nend 6\n",
        ),
        // A circle of edges that cost nothing.
        (
            b"vertices 3\nadd 0 1 0\nadd 1 2 0\nadd 2 0 0\ncheckpoint\ndist 0\n",
            b"vertices 3\nsnapshot 1\ndist 1 0\n0 0 0 0\n1 0 1 0\n2 0 2 1\nend 6\n",
        ),
        // After a deletion, a new weight and a merge, and of an older snapshot.
        (
            b"vertices 4\nadd 0 1 5\nadd 1 2 5\nadd 0 2 20\ncheckpoint\ndel 0 1\nweigh 0 2 7\nadd 2 3 1\ncheckpoint\nmerge\ndist 0\n@1 dist 0 sum\ndist 0 sum\n",
            b"vertices 4\nsnapshot 1\nsnapshot 2\nmerged 2\ndist 2 0\n0 0 0 0\n1 -\n2 7 1 0\n3 8 2 2\ndist 1 0 sum 3 10 15\ndist 2 0 sum 3 8 15\nend 14\n",
        ),
        // The snapshot is looked for before the vertex.
        (
            b"vertices 1\ncheckpoint\n@0 dist 0\ndist 9 sum\n@7 dist 9\ndist 0\ndist 0 sum\n",
            b"vertices 1\nsnapshot 1\nunknown vertex 0 of 0\nunknown vertex 9 of 1\nno snapshot 7 of 0 1\ndist 1 0\n0 0 0 0\ndist 1 0 sum 1 0 0\nend 7\n",
        ),
    ];
    for (script, text) in done {
        gives(&rt, script, text, Status::Done)?;
    }
    Ok(())
}

#[test]
fn earlier_rows_are_read_through_later_snapshots(rt: HostRuntime) -> Result<(), Fail> {
    let done: [(&[u8], &[u8]); 4] = [
        (
            b"vertices 3\nadd 0 1\ncheckpoint\nadd 0 2\ncheckpoint\ndel 0 1\ncheckpoint\nasof 2 0\nasof 3 0\nasof 1 0\nasof 0 0\nasof 4 0\nasof 1 3\n@1 asof 2 0\n@2 asof 1 0\n",
            b"vertices 3\nsnapshot 1\nsnapshot 2\nsnapshot 3\nasof 3 2 0 : 2 1\nasof 3 3 0 : 2\nasof 3 1 0 : 1\nasof 3 0 0 :\nno snapshot 4 of 0 3\nunknown vertex 3 of 3\nno snapshot 2 of 0 1\nasof 2 1 0 : 1\nend 15\n",
        ),
        // An edge that is deleted and added again, parallel edges, and a new weight, which changes no target.
        (
            b"vertices 2\nadd 0 1\nadd 0 0\nadd 0 1\ncheckpoint\ndel 0 1\nadd 0 1 5\ncheckpoint\nweigh 0 0 9\ndel 0 1\ncheckpoint\nasof 1 0\nasof 2 0\nasof 3 0\n",
            b"vertices 2\nsnapshot 1\nsnapshot 2\nsnapshot 3\nasof 3 1 0 : 1 0 1\nasof 3 2 0 : 1 0\nasof 3 3 0 : 0\nend 14\n",
        ),
        // The number is looked at before the vertex, and a retirement lets no earlier graph go.
        (
            b"vertices 1\nadd 0 0\ncheckpoint\ncheckpoint\nretire 2\nasof 3 7\nasof 1 7\nasof 1 0\n@1 asof 1 0\n@1 asof 9 9\n",
            b"vertices 1\nsnapshot 1\nsnapshot 2\nkept 2 2\nno snapshot 3 of 0 2\nunknown vertex 7 of 1\nasof 2 1 0 : 0\nno snapshot 1 of 2 2\nno snapshot 1 of 2 2\nend 10\n",
        ),
        (
            b"asof 0 0\nvertices 1\ncheckpoint\nasof 0 0\n",
            b"unknown vertex 0 of 0\nvertices 1\nsnapshot 1\nasof 1 0 0 :\nend 4\n",
        ),
    ];
    for (script, text) in done {
        gives(&rt, script, text, Status::Done)?;
    }
    Ok(())
}

#[test]
fn deletions_and_weights_wait_for_a_checkpoint(rt: HostRuntime) -> Result<(), Fail> {
    let done: [(&[u8], &[u8]); 9] = [
        // Parallel edges go together, and what is added after the deletion stays.
        (
            b"vertices 2\nadd 0 0\nadd 0 1\nadd 0 1\ndel 0 1\nadd 0 1 7\ncheckpoint\nrow 0\n",
            b"vertices 2\nsnapshot 1\nrow 1 0 : 1/7 0/1\nend 8\n",
        ),
        (
            b"vertices 2\nadd 0 1 5\ncheckpoint\nadd 0 1 6\nweigh 0 1 9\ncheckpoint\n@1 row 0\nrow 0\n",
            b"vertices 2\nsnapshot 1\nsnapshot 2\nrow 1 0 : 1/5\nrow 2 0 : 1/9 1/9\nend 8\n",
        ),
        (
            b"vertices 2\ndel 0 1\ncheckpoint\nedges\n",
            b"vertices 2\nsnapshot 1\nedges 1 0\nend 4\n",
        ),
        (
            b"checkpoint\ncheckpoint\n@1 edges\nedges\n",
            b"snapshot 1\nsnapshot 2\nedges 1 0\nedges 2 0\nend 4\n",
        ),
        // A loop is deleted and added again between two checkpoints.
        (
            b"vertices 1\nadd 0 0 3\ncheckpoint\ndel 0 0\nadd 0 0 4\ncheckpoint\nrow 0\n@1 row 0\nedges\n",
            b"vertices 1\nsnapshot 1\nsnapshot 2\nrow 2 0 : 0/4\nrow 1 0 : 0/3\nedges 2 1\n0 0 4\nend 9\n",
        ),
        // Two parallel edges of two levels get one weight, and are deleted a checkpoint later.
        (
            b"vertices 2\nadd 0 1 5\ncheckpoint\nadd 0 1 6\ncheckpoint\nweigh 0 1 9\ncheckpoint\ndel 0 1\ncheckpoint\n@1 row 0\n@2 row 0\n@3 row 0\nrow 0\n",
            b"vertices 2\nsnapshot 1\nsnapshot 2\nsnapshot 3\nsnapshot 4\nrow 1 0 : 1/5\nrow 2 0 : 1/6 1/5\nrow 3 0 : 1/9 1/9\nrow 4 0 :\nend 13\n",
        ),
        // An edge that a later snapshot has no more is still in the earlier one.
        (
            b"vertices 2\nadd 0 1 5\nadd 1 0\ncheckpoint\ndel 0 1\ncheckpoint\nedges\n@1 edges\n",
            b"vertices 2\nsnapshot 1\nsnapshot 2\nedges 2 1\n1 0 1\nedges 1 2\n0 1 5\n1 0 1\nend 8\n",
        ),
        // What names no edge changes nothing.
        (
            b"vertices 2\nadd 0 0\ncheckpoint\ndel 0 1\nweigh 1 0 3\ncheckpoint\nedges\n",
            b"vertices 2\nsnapshot 1\nsnapshot 2\nedges 2 1\n0 0 1\nend 7\n",
        ),
        (
            b"vertices 1\ndel 0 1\nweigh 2 0 5\n@1 edges\n",
            b"vertices 1\nunknown vertex 1 of 1\nunknown vertex 2 of 1\nno snapshot 1 of 0 0\nend 4\n",
        ),
    ];
    for (script, text) in done {
        gives(&rt, script, text, Status::Done)?;
    }
    Ok(())
}

#[test]
fn a_bad_line_is_named(rt: HostRuntime) -> Result<(), Fail> {
    gives(&rt, b"x\n", b"bad line 1\n", Status::BadLine { line: 1 })?;
    let text = b"vertices 1\nbad line 2\n";
    gives(
        &rt,
        b"vertices 1\npar\nlane\n",
        text,
        Status::BadLine { line: 2 },
    )
}

#[test]
fn a_line_is_judged_after_its_length(rt: HostRuntime) -> Result<(), Fail> {
    let mut line = vec![in rt.alloc(); b'#'; MAX_LINE_BYTES - 1]?;
    line.push(b'\r')?;
    gives(&rt, &line, b"end 0\n", Status::Done)?;
    // With one byte more the line is too long, though the carriage return at its end is dropped.
    line.push(b'\r')?;
    gives(&rt, &line, b"bad line 1\n", Status::BadLine { line: 1 })
}

#[test]
fn the_last_line_that_is_taken(rt: HostRuntime) -> Result<(), Fail> {
    let mut script = vec![in rt.alloc(); b'\n'; MAX_LINES as usize]?;
    let (status, text) = run_script(&rt, &script, 1_000_000, &[], &[])?;
    assert_eq!(rt; status, Status::Done);
    assert_eq!(rt; text.as_slice(), b"end 0\n".as_slice());
    script.push(b'#')?;
    let (status, text) = run_script(&rt, &script, 1_000_000, &[], &[])?;
    assert_eq!(rt; status.code(), 10);
    assert_eq!(rt; text.as_slice(), b"too many lines\n".as_slice());
    Ok(())
}

#[test]
fn faults_cut_the_text_short(rt: HostRuntime) -> Result<(), Fail> {
    let (status, text) = run_script(&rt, b"vertices 1\n", 64, &[1], &[])?;
    assert_eq!(rt; status.code(), 4);
    assert_eq!(rt; text.as_slice(), b"vertices 1\n".as_slice());
    let (status, text) = run_script(&rt, b"", 64, &[], &[0])?;
    assert_eq!(rt; status.code(), 5);
    assert_eq!(rt; text.len(), 0);
    Ok(())
}

#[test]
fn so_many_snapshots_are_kept(rt: HostRuntime) -> Result<(), Fail> {
    let mut script = Vec::new(rt.alloc());
    for _ in 0..4096 {
        script.extend_from_slice(b"checkpoint\n")?;
    }
    script.extend_from_slice(b"retire 1\ncheckpoint\n")?;
    let (status, text) = run_script(&rt, &script, 1_000_000, &[], &[])?;
    assert_eq!(rt; status, Status::Done);
    assert!(rt; text.as_slice().starts_with(b"snapshot 1\nsnapshot 2\n"));
    assert!(rt;
        text.as_slice().ends_with(
            b"\nsnapshot 4095\nfull snapshots\nkept 1 4095\nsnapshot 4096\nend 4098\n"
        )
    );
    Ok(())
}

/// Words that are not in the grammar are refused, and nothing is read.
fn refuses<R: AllocGlobal + Abort + Threads + Sync>(rt: &R, list: &[&str]) -> Result<(), Fail> {
    let alloc = rt.alloc();
    let words = words_of(alloc, list)?;
    let mut source = MemSource::new(Vec::from_slice(alloc, b"row 0\n")?, 4, Vec::new(alloc));
    let mut sink = MemSink::new(Vec::new(alloc), 2, Vec::new(alloc));
    let status = run::<Brand, R, NoGate>(
        rt,
        &words,
        &mut source,
        &mut sink,
        &NoGate,
        Blank::new(1),
    );
    assert_eq!(rt; status.code(), 2);
    assert_eq!(rt; sink.bytes(), b"usage\n".as_slice());
    assert_eq!(rt; source.bytes(), b"row 0\n".as_slice());
    Ok(())
}

#[test]
fn words_are_refused_and_nothing_is_read(rt: HostRuntime) -> Result<(), Fail> {
    let refused: [&[&str]; 13] = [
        &["--workers", "17"],
        &["--open", "--load", "x"],
        &["--"],
        &["--workers"],
        &["--workers", "0"],
        &["--workers", ""],
        &["--workers", "+4"],
        &["--workers", "4294967297"],
        &["--workers=4"],
        &["4", "--workers"],
        &["--worker", "4"],
        &["--workers", "4", "4"],
        &[""],
    ];
    for list in refused {
        refuses(&rt, list)?;
    }
    Ok(())
}

/// The script gives this text for each number of workers.
fn gives_with_workers<R: AllocGlobal + Abort + Threads + Sync>(
    rt: &R,
    script: &[u8],
    text: &[u8],
) -> Result<(), Fail> {
    for workers in ["1", "2", "16", "0016"] {
        let (status, written) = run_with(rt, &["--workers", workers], script, &NoGate)?;
        assert_eq!(rt; status, Status::Done);
        assert_eq!(rt; written.as_slice(), text);
    }
    Ok(())
}

/// Runs a script with these words, at that gate.
fn run_with<R: AllocGlobal + Threads + Sync, G: Gate + Sync>(
    rt: &R,
    list: &[&str],
    script: &[u8],
    gate: &G,
) -> Result<(Status, Vec<u8>), AllocError> {
    let alloc = rt.alloc();
    let words = words_of(alloc, list)?;
    let mut source = MemSource::new(Vec::from_slice(alloc, script)?, 1_000_000, Vec::new(alloc));
    let mut sink = MemSink::new(Vec::new(alloc), 1_000_000, Vec::new(alloc));
    let status = run::<Brand, R, G>(rt, &words, &mut source, &mut sink, gate, Blank::new(1));
    let text = Vec::from_slice(alloc, sink.bytes())?;
    Ok((status, text))
}

#[test]
fn levels_and_labels_are_the_same_for_every_number_of_workers(rt: HostRuntime) -> Result<(), Fail> {
    let done: [(&[u8], &[u8]); 4] = [
        (
            b"vertices 5\nadd 0 1\nadd 1 2\nadd 2 3\ncheckpoint\nbfs 0\nbfs 0 sum\nlabels\nlabels sum\n",
            b"vertices 5\nsnapshot 1\nbfs 1 0\n0 0\n1 1\n2 2\n3 3\n4 -\nbfs 1 0 sum 4 3 6\nlabels 1 2\n0 0\n1 0\n2 0\n3 0\n4 4\nlabels 1 sum 2 4 4\nend 9\n",
        ),
        // A deletion parts what was joined, and the older snapshot stays as it was. Its edges are of three levels.
        (
            b"vertices 6\nadd 0 1\nadd 1 2\ncheckpoint\nadd 2 3\nadd 4 5\ncheckpoint\nadd 3 4\ncheckpoint\ndel 1 2\ncheckpoint\n@3 bfs 0 sum\nbfs 0 sum\n@3 labels sum\nlabels sum\nbfs 2\nlabels\n@2 bfs 2 sum\n@2 labels sum\n",
            b"vertices 6\nsnapshot 1\nsnapshot 2\nsnapshot 3\nsnapshot 4\nbfs 3 0 sum 6 5 15\nbfs 4 0 sum 2 1 1\nlabels 3 sum 1 6 0\nlabels 4 sum 2 4 8\nbfs 4 2\n0 -\n1 -\n2 0\n3 1\n4 2\n5 3\nlabels 4 2\n0 0\n1 0\n2 2\n3 2\n4 2\n5 2\nbfs 2 2 sum 2 1 1\nlabels 2 sum 2 4 8\nend 19\n",
        ),
        (
            b"bfs 0\nbfs 0 sum\nlabels\nlabels sum\n@1 bfs 0\n@1 labels\n",
            b"unknown vertex 0 of 0\nunknown vertex 0 of 0\nlabels 0 0\nlabels 0 sum 0 0 0\nno snapshot 1 of 0 0\nno snapshot 1 of 0 0\nend 6\n",
        ),
        // Walks go along edges, and components do not ask for their direction. A loop and parallel edges change nothing.
        (
            b"vertices 4\nadd 3 1\nadd 3 1 9\nadd 1 1\nadd 2 1\ncheckpoint\nbfs 3\nbfs 1 sum\nlabels\nbfs 4\n",
            b"vertices 4\nsnapshot 1\nbfs 1 3\n0 -\n1 1\n2 -\n3 0\nbfs 1 1 sum 1 0 0\nlabels 1 2\n0 0\n1 1\n2 1\n3 1\nunknown vertex 4 of 4\nend 10\n",
        ),
    ];
    for (script, text) in done {
        gives_with_workers(&rt, script, text)?;
    }
    Ok(())
}

/// Vertex 0 has edges to 1,000 vertices, from which the next level is looked for in pieces.
#[test]
fn pieces_of_levels_meet_at_the_gate(rt: HostRuntime) -> Result<(), Fail> {
    let mut script = Vec::new(rt.alloc());
    script.extend_from_slice(b"vertices 1001\n")?;
    for i in 1..1001 {
        print_numbered(&mut script, b"add 0 ", i)?;
    }
    script.extend_from_slice(b"checkpoint\nbfs 0 sum\n")?;
    let gate = Meeting::new();
    let (_, text) = run_with(&rt, &["--workers", "2"], &script, &gate)?;
    assert!(rt; gate.met());
    assert_eq!(rt;
        text.as_slice(),
        b"vertices 1001\nsnapshot 1\nbfs 1 0 sum 1001 1 1000\nend 1003\n".as_slice()
    );
    Ok(())
}

#[test]
fn ranks_and_totals_are_the_same_for_every_number_of_workers(rt: HostRuntime) -> Result<(), Fail> {
    let done: [(&[u8], &[u8]); 6] = [
        (
            b"vertices 3\nadd 0 1\nadd 0 2\nadd 1 2\ncheckpoint\nrank 1\nrank 2 sum\nrank 0 sum\n",
            b"vertices 3\nsnapshot 1\nrank 1 1\n0 150000\n1 575000\n2 1425000\nrank 1 2 sum 1066250 2 702500\nrank 1 0 sum 3000000 0 1000000\nend 8\n",
        ),
        (
            b"vertices 2\nadd 0 1\nadd 0 1\nadd 0 1\ncheckpoint\nrank 1\n",
            b"vertices 2\nsnapshot 1\nrank 1 1\n0 150000\n1 999999\nend 6\n",
        ),
        (
            b"vertices 5\nadd 0 1\nadd 1 2\nadd 2 3\ncheckpoint\nbfs 0\nbfs 0 sum\nlabels\nlabels sum\ndegrees\n",
            b"vertices 5\nsnapshot 1\nbfs 1 0\n0 0\n1 1\n2 2\n3 3\n4 -\nbfs 1 0 sum 4 3 6\nlabels 1 2\n0 0\n1 0\n2 0\n3 0\n4 4\nlabels 1 sum 2 4 4\ndegrees 1 5 3 1 2\nend 10\n",
        ),
        (
            b"vertices 4194304\nvertices 1\ncheckpoint\ndegrees\n",
            b"vertices 4194304\nfull vertices\nsnapshot 1\ndegrees 1 4194304 0 0 4194304\nend 4\n",
        ),
        // An edge that was deleted hands on nothing, and a weight counts for nothing. Of the ranks 150000, 1000000 and
        // 1000000 the first is named. In the older snapshot 0 hands on its rank in two halves.
        (
            b"vertices 3\nadd 0 1\nadd 0 2 9\nadd 1 1\ncheckpoint\ndel 0 1\nweigh 0 2 4\ncheckpoint\nrank 1\nrank 1 sum\n@1 rank 1\ndegrees\n@1 degrees\n",
            b"vertices 3\nsnapshot 1\nsnapshot 2\nrank 2 1\n0 150000\n1 1000000\n2 1000000\nrank 2 1 sum 2150000 1 1000000\nrank 1 1\n0 150000\n1 1425000\n2 575000\ndegrees 2 3 2 1 1\ndegrees 1 3 3 2 1\nend 13\n",
        ),
        // Without vertices nothing is ranked.
        (
            b"rank 0 sum\nrank 3\ndegrees\n@1 degrees\nrank 100 sum\n",
            b"rank 0 0 sum 0 - 0\nrank 0 3\ndegrees 0 0 0 0 0\nno snapshot 1 of 0 0\nrank 0 100 sum 0 - 0\nend 5\n",
        ),
    ];
    for (script, text) in done {
        gives_with_workers(&rt, script, text)?;
    }
    Ok(())
}
