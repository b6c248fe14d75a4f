ghost use Rattle.std.specs.Prelude.{◌≡◌, ◌<◌, ◌≤◌, IfOk, length};
ghost use Rattle.lama_model.specs.Row.{edges_in};

use crate::{Totals, degrees, rank};
use lama_base::Edge;
use lama_model::PlainRows;
use lama_outside::{Meeting, NoGate};
use std::alloc::{AllocError, Global};
use std::test::Fail;

// The rows of that many vertices and those of these edges that are within them.
fn rows_of(alloc: Global, count: u32, pairs: &[(u32, u32)]) -> Result<PlainRows, AllocError>
    ensures count { IfOk result (λ rows. length rows ≡ count) }
    ensures few { IfOk result (λ rows. edges_in rows ≤ 33554432) }
{
    let mut edges = Vec::new(alloc);
    for &(source, target) in pairs {
        if source < count && target < count {
            edges.push(Edge {
                source,
                target,
                weight: 1,
            })?;
        }
    }
    if edges.len() > 1_000_000 {
        return Err(AllocError);
    }
    PlainRows::from_edges(alloc, count, &edges)
}

// An edge from each of 1,000 vertices to the next one, and one from each odd vertex to 0.
fn ring(alloc: Global) -> Result<Vec<(u32, u32)>, AllocError> {
    let mut pairs = Vec::new(alloc);
    for u in 0..1000 {
        pairs.push((u, (u + 1) % 1000))?;
        if u % 2 == 1 {
            pairs.push((u, 0))?;
        }
    }
    Ok(pairs)
}

#[test]
fn what_a_vertex_hands_on_is_rounded_down(rt: HostRuntime) -> Result<(), Fail> {
    let alloc = rt.alloc();
    let rows = rows_of(alloc, 3, &[(0, 1), (0, 2), (1, 2)])?;
    let expected = [
        vec![in alloc; 1_000_000, 1_000_000, 1_000_000]?,
        vec![in alloc; 150_000, 575_000, 1_425_000]?,
        vec![in alloc; 150_000, 213_750, 702_500]?,
    ];
    for rounds in 0..3u32 {
        for workers in [1, 2, 16] {
            let found = rank(&rt, alloc, &rows, rounds, workers, &NoGate)?;
            assert_eq!(rt; Some(&found), expected.get(rounds as usize));
        }
    }
    let thirds = rows_of(alloc, 2, &[(0, 1), (0, 1), (0, 1)])?;
    let found = rank(&rt, alloc, &thirds, 1, 1, &NoGate)?;
    let expected = vec![in alloc; 150_000, 999_999]?;
    assert_eq!(rt; found, expected);
    Ok(())
}

#[test]
fn each_of_many_equal_edges_hands_on_its_share(rt: HostRuntime) -> Result<(), Fail> {
    let alloc = rt.alloc();
    let mut pairs = Vec::new(alloc);
    for _ in 0..100_000u32 {
        pairs.push((0, 1))?;
    }
    let rows = rows_of(alloc, 2, &pairs)?;
    // 100,000 times 10, and then 100,000 times 1, since 150,000 is divided.
    let found = rank(&rt, alloc, &rows, 1, 2, &NoGate)?;
    let expected = vec![in alloc; 150_000, 1_000_000]?;
    assert_eq!(rt; found, expected);
    let found = rank(&rt, alloc, &rows, 2, 2, &NoGate)?;
    let expected = vec![in alloc; 150_000, 235_000]?;
    assert_eq!(rt; found, expected);
    Ok(())
}

// 0 is handed 500,000 by each of 500 odd vertices, and once more by 999. An odd vertex is handed 1,000,000 by the even one
// before it, and an even one 500,000 by the odd one before it.
#[test]
fn pieces_find_what_one_finds(rt: HostRuntime) -> Result<(), Fail> {
    let alloc = rt.alloc();
    let pairs = ring(alloc)?;
    let rows = rows_of(alloc, 1000, &pairs)?;
    for workers in [1, 2, 3, 16] {
        let found = rank(&rt, alloc, &rows, 1, workers, &NoGate)?;
        assert_eq!(rt; found.len(), 1000);
        for v in 0..1000usize {
            let expected = if v == 0 {
                213_075_000
            } else if v % 2 == 1 {
                1_000_000
            } else {
                575_000
            };
            assert_eq!(rt; found.get(v), Some(&expected));
        }
    }
    Ok(())
}

// Pieces that are done one after another don't meet.
#[test]
fn two_pieces_of_a_ring_meet(rt: HostRuntime) -> Result<(), Fail> {
    let alloc = rt.alloc();
    let pairs = ring(alloc)?;
    let rows = rows_of(alloc, 1000, &pairs)?;
    let meeting = Meeting::new();
    let beside = rank(&rt, alloc, &rows, 5, 2, &meeting)?;
    let alone = rank(&rt, alloc, &rows, 5, 1, &NoGate)?;
    assert_eq!(rt; beside, alone);
    assert!(rt; meeting.met());
    Ok(())
}

#[test]
fn no_vertices_have_no_ranks(rt: HostRuntime) -> Result<(), Fail> {
    let rows = rows_of(rt.alloc(), 0, &[])?;
    for rounds in [0, 1, 100] {
        let found = rank(&rt, rt.alloc(), &rows, rounds, 2, &NoGate)?;
        assert_eq!(rt; found.len(), 0);
    }
    let expected = Totals {
        vertices: 0,
        edges: 0,
        greatest: 0,
        sinks: 0,
    };
    assert_eq!(rt; degrees(&rt, &rows), expected);
    Ok(())
}

// Few vertices are counted in one thread, and many in several.
#[test]
fn totals_of_few_and_of_many_vertices(rt: HostRuntime) -> Result<(), Fail> {
    let alloc = rt.alloc();
    let few = rows_of(alloc, 5, &[(0, 1), (1, 2), (1, 1), (2, 3)])?;
    let expected = Totals {
        vertices: 5,
        edges: 4,
        greatest: 2,
        sinks: 2,
    };
    assert_eq!(rt; degrees(&rt, &few), expected);
    // One edge leaves each of 1, 4, .., 4999, and two leave each of 2, 5, .., 4997.
    let mut pairs = Vec::new(alloc);
    for u in 0..5000 {
        for _ in 0..u % 3 {
            pairs.push((u, 0))?;
        }
    }
    let many = rows_of(alloc, 5000, &pairs)?;
    let expected = Totals {
        vertices: 5000,
        edges: 4999,
        greatest: 2,
        sinks: 1667,
    };
    assert_eq!(rt; degrees(&rt, &many), expected);
    Ok(())
}
