ghost use Rattle.std.specs.Prelude.{◌≡◌, ◌<◌, IfOk, length};

use crate::labels;
use lama_base::Edge;
use lama_model::PlainRows;
use lama_outside::{Meeting, NoGate};
use std::alloc::{AllocError, Global};
use std::test::Fail;

// The rows of that many vertices and those of these edges that are within them.
fn rows_of(alloc: Global, count: u32, pairs: &[(u32, u32)]) -> Result<PlainRows, AllocError>
    ensures { IfOk result (λ rows. length rows ≡ count) }
{
    let mut edges = Vec::new(alloc);
    for &(source, target) in pairs {
        if source < count && target < count {
            edges.push(Edge {
                source,
                target,
                weight: 1,
            })?;
        }
    }
    if edges.len() > 1_000_000 {
        return Err(AllocError);
    }
    PlainRows::from_edges(alloc, count, &edges)
}

// A path over all of 4,096 vertices, of which each is far from the one before by its number.
fn scattered(alloc: Global) -> Result<Vec<(u32, u32)>, AllocError> {
    let mut pairs = Vec::new(alloc);
    for i in 0..4095 {
        pairs.push((1021 * i % 4096, 1021 * (i + 1) % 4096))?;
    }
    Ok(pairs)
}

#[test]
fn a_label_is_the_least_vertex_of_a_component(rt: HostRuntime) -> Result<(), Fail> {
    let alloc = rt.alloc();
    let path = rows_of(alloc, 5, &[(0, 1), (1, 2), (2, 3)])?;
    let expected = vec![in alloc; 0, 0, 0, 0, 4]?;
    for workers in [1, 2, 16] {
        let found = labels(&rt, alloc, &path, workers, &NoGate)?;
        assert_eq!(rt; found, expected);
    }
    Ok(())
}

// The least vertices of both components come last in the order of the edges.
#[test]
fn edges_count_in_either_direction(rt: HostRuntime) -> Result<(), Fail> {
    let alloc = rt.alloc();
    let edges = [(5, 4), (6, 2), (2, 2), (4, 3), (4, 3), (6, 1), (0, 7)];
    let rows = rows_of(alloc, 7, &edges)?;
    let found = labels(&rt, alloc, &rows, 2, &NoGate)?;
    let expected = vec![in alloc; 0, 1, 1, 3, 3, 3, 1]?;
    assert_eq!(rt; found, expected);
    Ok(())
}

#[test]
fn no_vertices_have_no_labels(rt: HostRuntime) -> Result<(), Fail> {
    let rows = rows_of(rt.alloc(), 0, &[])?;
    let found = labels(&rt, rt.alloc(), &rows, 1, &NoGate)?;
    assert_eq!(rt; found.len(), 0);
    Ok(())
}

// Pieces that are done one after another don't meet.
#[test]
fn two_pieces_of_a_scattered_path_meet(rt: HostRuntime) -> Result<(), Fail> {
    let alloc = rt.alloc();
    let pairs = scattered(alloc)?;
    let rows = rows_of(alloc, 4096, &pairs)?;
    let meeting = Meeting::new();
    let beside = labels(&rt, alloc, &rows, 2, &meeting)?;
    let alone = labels(&rt, alloc, &rows, 1, &NoGate)?;
    assert_eq!(rt; beside, alone);
    assert!(rt; meeting.met());
    assert_eq!(rt; alone.len(), 4096);
    assert_eq!(rt; alone.iter().filter(|label| **label != 0).count(), 0);
    Ok(())
}

// Even vertices lead to even ones, and odd ones to odd. A list of two has ten times as many edges as there are vertices.
#[test]
fn long_lists_are_lowered_as_short_ones_are(rt: HostRuntime) -> Result<(), Fail> {
    let alloc = rt.alloc();
    let mut pairs = Vec::new(alloc);
    for u in 0..500 {
        for step in 1..21 {
            pairs.push((u, (u + 2 * step) % 500))?;
        }
    }
    let rows = rows_of(alloc, 500, &pairs)?;
    for workers in [1, 2, 16] {
        let found = labels(&rt, alloc, &rows, workers, &NoGate)?;
        assert_eq!(rt; found.len(), 500);
        for v in 0..500usize {
            assert_eq!(rt; found.get(v), Some(&(v as u32 % 2)));
        }
    }
    Ok(())
}
