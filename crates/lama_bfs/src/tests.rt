ghost use Rattle.std.specs.Prelude.{◌≡◌, ◌<◌, ◌≤◌, IfOk, length};
ghost use Rattle.lama_model.specs.Row.{edges_in};

use crate::levels;
use lama_base::Edge;
use lama_model::PlainRows;
use lama_outside::{Meeting, NoGate};
use std::alloc::{AllocError, Global};
use std::test::Fail;

// The rows of that many vertices and those of these edges that are within them.
fn rows_of(alloc: Global, count: u32, pairs: &[(u32, u32)]) -> Result<PlainRows, AllocError>
    ensures count { IfOk result (λ rows. length rows ≡ count) }
    ensures few { IfOk result (λ rows. edges_in rows ≤ 33554432) }
{
    let mut edges = Vec::new(alloc);
    for &(source, target) in pairs {
        if source < count && target < count {
            edges.push(Edge {
                source,
                target,
                weight: 1,
            })?;
        }
    }
    if edges.len() > 1_000_000 {
        return Err(AllocError);
    }
    PlainRows::from_edges(alloc, count, &edges)
}

// The edges from each of 4,096 vertices to the next one, and to the one of seven times its number.
fn mixed(alloc: Global) -> Result<Vec<(u32, u32)>, AllocError> {
    let mut pairs = Vec::new(alloc);
    for u in 0..4096 {
        pairs.push((u, (u + 1) % 4096))?;
        pairs.push((u, 7 * u % 4096))?;
    }
    Ok(pairs)
}

#[test]
fn a_level_counts_the_edges_of_a_shortest_walk(rt: HostRuntime) -> Result<(), Fail> {
    let alloc = rt.alloc();
    let path = rows_of(alloc, 5, &[(0, 1), (1, 2), (2, 3)])?;
    let expected = vec![in alloc; Some(0), Some(1), Some(2), Some(3), None]?;
    for workers in [1, 2, 16] {
        let found = levels(&rt, alloc, &path, 0, workers, &NoGate)?;
        assert_eq!(rt; found, expected);
    }
    let edges = [(0, 1), (0, 1), (1, 2), (2, 3), (0, 3), (3, 3), (4, 0)];
    let shorter = rows_of(alloc, 5, &edges)?;
    let found = levels(&rt, alloc, &shorter, 0, 2, &NoGate)?;
    let expected = vec![in alloc; Some(0), Some(1), Some(2), Some(1), None]?;
    assert_eq!(rt; found, expected);
    Ok(())
}

#[test]
fn only_the_source_is_reached_without_edges(rt: HostRuntime) -> Result<(), Fail> {
    let rows = rows_of(rt.alloc(), 3, &[(0, 1)])?;
    let found = levels(&rt, rt.alloc(), &rows, 2, 2, &NoGate)?;
    let expected = vec![in rt.alloc(); None, None, Some(0)]?;
    assert_eq!(rt; found, expected);
    Ok(())
}

#[test]
fn the_end_of_a_path_has_the_greatest_level(rt: HostRuntime) -> Result<(), Fail> {
    let alloc = rt.alloc();
    let mut pairs = Vec::new(alloc);
    for u in 0..4095u32 {
        pairs.push((u, u + 1))?;
    }
    let rows = rows_of(alloc, 4096, &pairs)?;
    let found = levels(&rt, alloc, &rows, 0, 2, &NoGate)?;
    assert_eq!(rt; found.len(), 4096);
    for v in 0..4096u32 {
        assert_eq!(rt; found.get(v as usize).copied(), Some(Some(v)));
    }
    Ok(())
}

// Pieces that are done one after another don't meet. The greatest frontier has 1,101 vertices.
#[test]
fn two_pieces_of_a_frontier_meet(rt: HostRuntime) -> Result<(), Fail> {
    let alloc = rt.alloc();
    let pairs = mixed(alloc)?;
    let rows = rows_of(alloc, 4096, &pairs)?;
    let meeting = Meeting::new();
    let beside = levels(&rt, alloc, &rows, 0, 2, &meeting)?;
    let alone = levels(&rt, alloc, &rows, 0, 1, &NoGate)?;
    assert_eq!(rt; beside, alone);
    assert!(rt; meeting.met());
    assert_eq!(rt;
        alone.iter().filter(|level| **level == Some(12)).count(),
        1101
    );
    assert_eq!(rt;
        alone.iter().filter(|level| **level == Some(15)).count(),
        10
    );
    Ok(())
}

// The frontier of level 1 has 450 vertices among 16,384: enough for pieces, and too few to lay the rows flat for. Each of
// its vertices leads to one of its own, and to 901.
#[test]
fn two_pieces_of_rows_as_they_stand_meet(rt: HostRuntime) -> Result<(), Fail> {
    let alloc = rt.alloc();
    let mut pairs = Vec::new(alloc);
    for v in 1..451u32 {
        pairs.push((0, v))?;
        pairs.push((v, v + 450))?;
        pairs.push((v, 901))?;
    }
    let rows = rows_of(alloc, 16384, &pairs)?;
    let meeting = Meeting::new();
    let found = levels(&rt, alloc, &rows, 0, 2, &meeting)?;
    assert!(rt; meeting.met());
    assert_eq!(rt; found.len(), 16384);
    for v in 0..16384u32 {
        let expected = match v {
            0 => Some(0),
            1..=450 => Some(1),
            451..=901 => Some(2),
            _ => None,
        };
        assert_eq!(rt; found.get(v as usize).copied(), Some(expected));
    }
    Ok(())
}
