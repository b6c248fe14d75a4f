use crate::{cut, map_pieces};
use lama_outside::{Meeting, NoGate};
use std::alloc::AllocError;
use std::test::Fail;

#[test]
fn ten_numbers_are_cut_for_four_workers(rt: HostRuntime) -> Result<(), Fail> {
    assert_eq!(rt; cut(10, 4, 0), (0, 2));
    assert_eq!(rt; cut(10, 4, 1), (2, 5));
    assert_eq!(rt; cut(10, 4, 2), (5, 7));
    assert_eq!(rt; cut(10, 4, 3), (7, 10));
    Ok(())
}

#[test]
fn the_greatest_bound_is_cut_without_overflow(rt: HostRuntime) -> Result<(), Fail> {
    assert_eq!(rt; cut(u32::MAX, 16, 0), (0, 268_435_455));
    assert_eq!(rt; cut(u32::MAX, 16, 15), (4_026_531_839, u32::MAX));
    assert_eq!(rt; cut(u32::MAX, 1, 0), (0, u32::MAX));
    Ok(())
}

#[test]
fn pieces_are_empty_where_there_are_more_workers_than_numbers(rt: HostRuntime) -> Result<(), Fail> {
    let pieces = map_pieces(
        &rt,
        rt.alloc(),
        2,
        4,
        &NoGate,
        &|i, start, end| { Ok((i, start, end)) },
    )?;
    let expected = vec![in rt.alloc(); (0, 0, 0), (1, 0, 1), (2, 1, 1), (3, 1, 2)]?;
    assert_eq!(rt; pieces, expected);
    let none = map_pieces(
        &rt,
        rt.alloc(),
        0,
        2,
        &NoGate,
        &|i, start, end| { Ok((i, start, end)) },
    )?;
    let expected = vec![in rt.alloc(); (0, 0, 0), (1, 0, 0)]?;
    assert_eq!(rt; none, expected);
    Ok(())
}

#[test]
fn answers_come_in_the_order_of_the_pieces(rt: HostRuntime) -> Result<(), Fail> {
    let one = map_pieces(
        &rt,
        rt.alloc(),
        100,
        1,
        &NoGate,
        &|_, start, end| { Ok((start, end)) },
    )?;
    let whole = vec![in rt.alloc(); (0, 100)]?;
    assert_eq!(rt; one, whole);
    let many = map_pieces(
        &rt,
        rt.alloc(),
        160,
        16,
        &NoGate,
        &|i, start, end| { Ok((i, end - start)) },
    )?;
    assert_eq!(rt; many.len(), 16);
    for i in 0..16 {
        assert_eq!(rt; many[i], (i as u32, 10));
    }
    Ok(())
}

#[test]
fn want_of_memory_in_a_piece_is_handed_on(rt: HostRuntime) -> Result<(), Fail> {
    let answer = map_pieces(
        &rt,
        rt.alloc(),
        10,
        4,
        &NoGate,
        &|i, _, _| { if i == 2 { Err(AllocError) } else { Ok(i) } },
    );
    assert!(rt; answer.is_err());
    Ok(())
}

// Pieces that are done one after another don't meet.
#[test]
fn two_pieces_are_done_beside_each_other(rt: HostRuntime) -> Result<(), Fail> {
    let meeting = Meeting::new();
    let pieces = map_pieces(
        &rt,
        rt.alloc(),
        10,
        2,
        &meeting,
        &|_, start, end| { Ok((start, end)) },
    )?;
    let halves = vec![in rt.alloc(); (0, 5), (5, 10)]?;
    assert_eq!(rt; pieces, halves);
    assert!(rt; meeting.met());
    Ok(())
}
