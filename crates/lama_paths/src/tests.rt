ghost use Rattle.std.specs.Prelude.{◌≡◌, ◌<◌, ◌≤◌, IfOk, length};
ghost use Rattle.lama_model.specs.Row.{edges_in};

use crate::{Reach, check, distances};
use lama_base::Edge;
use lama_model::PlainRows;
use std::alloc::{AllocError, Global};
use std::test::Fail;

// The greatest weight.
const MOST: u64 = u64::MAX;

// The rows of that many vertices and those of these edges that are within them.
fn rows_of(alloc: Global, count: u32, edges: &[(u32, u32, u64)]) -> Result<PlainRows, AllocError>
    ensures count { IfOk result (λ rows. length rows ≡ count) }
    ensures few { IfOk result (λ rows. edges_in rows ≤ 33554432) }
{
    let mut within = Vec::new(alloc);
    for &(source, target, weight) in edges {
        if source < count && target < count {
            within.push(Edge {
                source,
                target,
                weight,
            })?;
        }
    }
    if within.len() > 2_000_000 {
        return Err(AllocError);
    }
    PlainRows::from_edges(alloc, count, &within)
}

// A vertex that is reached.
fn by(sum: u128, hops: u32, parent: u32) -> Option<Reach> {
    Some(Reach { sum, hops, parent })
}

// Four towns. Two ways of 5 hours lead to town 1, of which the one by a single road counts.
fn towns(alloc: Global) -> Result<PlainRows, AllocError>
    ensures count { IfOk result (λ rows. length rows ≡ 4) }
    ensures few { IfOk result (λ rows. edges_in rows ≤ 33554432) }
{
    rows_of(alloc, 4, &[(0, 1, 5), (0, 2, 1), (2, 1, 4), (1, 3, 0)])
}

// What each vertex is reached by, and whether that passes its own check.
fn found(
    alloc: Global,
    count: u32,
    edges: &[(u32, u32, u64)],
) -> Result<(Vec<Option<Reach>>, bool), AllocError> {
    let rows = rows_of(alloc, count, edges)?;
    if count == 0 || count > 4_194_304 {
        return Err(AllocError);
    }
    let reach = distances(alloc, &rows, 0)?;
    let passes = check(&rows, 0, &reach);
    Ok((reach, passes))
}

#[test]
fn the_least_sum_counts_and_then_the_fewest_edges(rt: HostRuntime) -> Result<(), Fail> {
    let alloc = rt.alloc();
    let rows = towns(alloc)?;
    let reach = distances(alloc, &rows, 0)?;
    let expected = vec![in alloc; by(0, 0, 0), by(5, 1, 0), by(1, 1, 0), by(5, 2, 1)]?;
    assert_eq!(rt; reach, expected);
    assert!(rt; check(&rows, 0, &expected));
    let (reach, passes) = found(
        alloc,
        3,
        &[(0, 1, 0), (1, 2, 0), (2, 0, 0), (1, 1, 0), (0, 2, 0)],
    )?;
    let expected = vec![in alloc; by(0, 0, 0), by(0, 1, 0), by(0, 1, 0)]?;
    assert_eq!(rt; reach, expected);
    assert!(rt; passes);
    Ok(())
}

#[test]
fn the_lightest_parallel_edge_and_the_least_parent_count(rt: HostRuntime) -> Result<(), Fail> {
    let alloc = rt.alloc();
    let (reach, passes) = found(
        alloc,
        3,
        &[(0, 1, 7), (0, 1, 3), (0, 1, 9), (1, 1, 1), (1, 0, 0)],
    )?;
    let expected = vec![in alloc; by(0, 0, 0), by(3, 1, 0), None]?;
    assert_eq!(rt; reach, expected);
    assert!(rt; passes);
    let (reach, passes) = found(alloc, 4, &[(0, 2, 1), (0, 1, 1), (2, 3, 3), (1, 3, 3)])?;
    let expected = vec![in alloc; by(0, 0, 0), by(1, 1, 0), by(1, 1, 0), by(4, 2, 1)]?;
    assert_eq!(rt; reach, expected);
    assert!(rt; passes);
    // The lesser parent is the dearer one, and so settled later.
    let (reach, passes) = found(alloc, 4, &[(0, 2, 1), (0, 1, 2), (2, 3, 3), (1, 3, 2)])?;
    let expected = vec![in alloc; by(0, 0, 0), by(2, 1, 0), by(1, 1, 0), by(4, 2, 1)]?;
    assert_eq!(rt; reach, expected);
    assert!(rt; passes);
    Ok(())
}

#[test]
fn sums_of_the_greatest_weights_fit(rt: HostRuntime) -> Result<(), Fail> {
    let alloc = rt.alloc();
    let (reach, passes) = found(alloc, 5, &[(0, 1, MOST), (1, 2, MOST), (2, 3, MOST)])?;
    let expected = vec![in alloc;
        by(0, 0, 0),
        by(18_446_744_073_709_551_615, 1, 0),
        by(36_893_488_147_419_103_230, 2, 1),
        by(55_340_232_221_128_654_845, 3, 2),
        None,
    ]?;
    assert_eq!(rt; reach, expected);
    assert!(rt; passes);
    Ok(())
}

#[test]
fn only_the_source_is_reached_without_edges(rt: HostRuntime) -> Result<(), Fail> {
    let alloc = rt.alloc();
    let (reach, passes) = found(alloc, 3, &[(1, 0, 1), (1, 2, 1)])?;
    let expected = vec![in alloc; by(0, 0, 0), None, None]?;
    assert_eq!(rt; reach, expected);
    assert!(rt; passes);
    Ok(())
}

#[test]
fn wrong_answers_do_not_pass(rt: HostRuntime) -> Result<(), Fail> {
    let rows = towns(rt.alloc())?;
    let (start, one, two, three) = (by(0, 0, 0), by(5, 1, 0), by(1, 1, 0), by(5, 2, 1));
    assert!(rt; check(&rows, 0, &[start, one, two, three]));
    // A sum that is one too small, and one too great.
    assert!(rt; !check(&rows, 0, &[start, one, two, by(4, 2, 1)]));
    assert!(rt; !check(&rows, 0, &[start, one, two, by(6, 2, 1)]));
    // Another way of the same sum has more edges.
    assert!(rt; !check(&rows, 0, &[start, by(5, 2, 2), two, by(5, 3, 1)]));
    // A parent that is no neighbour, and one that is not there.
    assert!(rt; !check(&rows, 0, &[start, one, two, by(5, 2, 0)]));
    assert!(rt; !check(&rows, 0, &[start, one, two, by(5, 2, 9)]));
    // A walk leads to vertex 3.
    assert!(rt; !check(&rows, 0, &[start, one, two, None]));
    // The source costs nothing, and there is an entry for each vertex.
    assert!(rt; !check(&rows, 0, &[by(1, 0, 0), one, two, three]));
    assert!(rt; !check(&rows, 0, &[None, one, two, three]));
    assert!(rt; !check(&rows, 0, &[start, one, two]));
    assert!(rt; !check(&rows, 0, &[start, one, two, three, None]));
    Ok(())
}

#[test]
fn parents_that_lead_in_a_circle_do_not_pass(rt: HostRuntime) -> Result<(), Fail> {
    let rows = rows_of(rt.alloc(), 3, &[(1, 2, 0), (2, 1, 0)])?;
    assert!(rt; check(&rows, 0, &[by(0, 0, 0), None, None]));
    assert!(rt; !check(&rows, 0, &[by(0, 0, 0), by(0, 1, 2), by(0, 2, 1)]));
    assert!(rt; !check(&rows, 0, &[by(0, 0, 0), by(0, 1, 0), by(0, 2, 1)]));
    Ok(())
}

// Each vertex leads to the next one and to the one of seven times its number.
#[test]
fn a_large_answer_passes(rt: HostRuntime) -> Result<(), Fail> {
    let alloc = rt.alloc();
    let mut edges = Vec::new(alloc);
    for u in 0..4096 {
        edges.push((u, (u + 1) % 4096, 3))?;
        edges.push((u, 7 * u % 4096, 1))?;
    }
    let (reach, passes) = found(alloc, 4096, &edges)?;
    assert!(rt; passes);
    // From 0 to 1, then to 7, 49 and 343.
    assert_eq!(rt; reach.get(343).copied(), Some(by(6, 4, 49)));
    assert_eq!(rt; reach.get(344).copied(), Some(by(9, 5, 343)));
    Ok(())
}

// So many vertices with four edges each, to targets that follow no order, of weights from 1 to 10.
const MANY: u32 = 250_000;

fn large(alloc: Global) -> Result<PlainRows, AllocError>
    ensures count { IfOk result (λ rows. length rows ≡ 250000) }
    ensures few { IfOk result (λ rows. edges_in rows ≤ 33554432) }
{
    let mut edges = Vec::new(alloc);
    let mut x = 1u64;
    for i in 0..1_000_000u64 {
        x = x % 2_147_483_647 * 48_271 % 2_147_483_647;
        edges.push((
            (i * 7_919 % 250_000) as u32,
            (x % 250_000) as u32,
            1 + x % 10,
        ))?;
    }
    rows_of(alloc, MANY, &edges)
}

// The three tests below do the same once, and then search once more or check twice more. So what they take tells what a search
// and a check take. Each check is of rows of its own, since what is checked twice untouched may be compiled to one check.
#[test]
fn a_large_search_passes(rt: HostRuntime) -> Result<(), Fail> {
    let alloc = rt.alloc();
    let rows = large(alloc)?;
    let _second = large(alloc)?;
    let _third = large(alloc)?;
    let reach = distances(alloc, &rows, 0)?;
    assert!(rt; check(&rows, 0, &reach));
    Ok(())
}

#[test]
fn a_large_search_is_the_same_again(rt: HostRuntime) -> Result<(), Fail> {
    let alloc = rt.alloc();
    let rows = large(alloc)?;
    let second = large(alloc)?;
    let _third = large(alloc)?;
    let reach = distances(alloc, &rows, 0)?;
    assert!(rt; check(&rows, 0, &reach));
    let again = distances(alloc, &second, 0)?;
    assert_eq!(rt; again, reach);
    Ok(())
}

#[test]
fn a_large_search_passes_each_time(rt: HostRuntime) -> Result<(), Fail> {
    let alloc = rt.alloc();
    let rows = large(alloc)?;
    let second = large(alloc)?;
    let third = large(alloc)?;
    let reach = distances(alloc, &rows, 0)?;
    assert!(rt; check(&rows, 0, &reach));
    assert!(rt; check(&second, 0, &reach));
    assert!(rt; check(&third, 0, &reach));
    Ok(())
}
