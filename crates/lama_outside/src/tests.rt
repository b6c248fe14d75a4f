//! What no clause says: that calls succeed, in the order in which a caller meets them.

ghost use Rattle.std.specs.Prelude.{◌≡◌, ◌≤◌, drop, Some, IfOk, IfSome, OnErr};

use crate::{MemSink, MemSource, NoGate, StdSink, StdSource, SureSink, SureSource};
use lama_base::{Failed, Gate, Sink, SinkFault, Source};
use std::test::Fail;

/// Reads twice, as a program does that sees the bound alone, and says how many bytes came.
fn read_twice<S: Source>(source: &mut S) -> Result<usize, Failed>
    ensures passed { IfOk result (λ n. IfSome (S.left source.old) (λ left. S.left source.new ≡ Some (drop n left))) }
    ensures steady { S.faults source.old ≤ S.faults source.new }
{
    let mut buf = [0u8; 4];
    let first = source.read(&mut buf)?;
    let second = source.read(&mut buf)?;
    Ok(first + second)
}

#[test]
fn a_failing_read_leaves_the_bytes(rt: HostRuntime) -> Result<(), Fail> {
    let bytes = vec![in rt.alloc(); 7, 8, 9]?;
    let failing = vec![in rt.alloc(); 1]?;
    let mut source = MemSource::new(bytes, 2, failing);
    let mut buf = [0u8; 4];
    assert_eq!(rt; source.read(&mut buf), Ok(2));
    assert_eq!(rt; buf, [7, 8, 0, 0]);
    assert_eq!(rt; source.read(&mut buf), Err(Failed));
    assert_eq!(rt; source.bytes(), [9].as_slice());
    assert_eq!(rt; source.faults(), 1);
    assert_eq!(rt; source.read(&mut buf), Ok(1));
    assert_eq!(rt; buf, [9, 8, 0, 0]);
    assert_eq!(rt; source.read(&mut buf), Ok(0));
    assert_eq!(rt; source.calls(), 4);
    assert_eq!(rt; source.faults(), 1);
    Ok(())
}

#[test]
fn a_failing_write_takes_nothing(rt: HostRuntime) -> Result<(), Fail> {
    let failing = vec![in rt.alloc(); 0, 2]?;
    let mut sink = MemSink::new(vec![in rt.alloc(); 1]?, 2, failing);
    for (want, written) in [
        (Err(SinkFault::Failed), [1].as_slice()),
        (Ok(2), [1, 7, 8].as_slice()),
        (Err(SinkFault::Failed), [1, 7, 8].as_slice()),
        (Ok(2), [1, 7, 8, 7, 8].as_slice()),
    ] {
        assert_eq!(rt; sink.write(&[7, 8, 9]), want);
        assert_eq!(rt; sink.bytes(), written);
    }
    assert_eq!(rt; sink.calls(), 4);
    assert_eq!(rt; sink.faults(), 2);
    Ok(())
}

#[test]
fn a_most_of_zero_counts_as_one(rt: HostRuntime) -> Result<(), Fail> {
    let mut source = SureSource::new(vec![in rt.alloc(); 7, 8]?, 0);
    let mut sink = SureSink::new(vec![in rt.alloc()]?, 0);
    let mut buf = [0u8; 4];
    assert_eq!(rt; source.read(&mut buf), Ok(1));
    assert_eq!(rt; source.bytes(), [8].as_slice());
    assert_eq!(rt; sink.write(&buf), Ok(1));
    assert_eq!(rt; sink.bytes(), [7].as_slice());
    assert_eq!(rt; source.read(&mut []), Ok(0));
    assert_eq!(rt; sink.write(&[]), Ok(0));
    Ok(())
}

#[test]
fn a_caller_that_sees_the_bound_alone_reads_on(rt: HostRuntime) -> Result<(), Fail> {
    let mut source = MemSource::new(vec![in rt.alloc(); 7, 8, 9]?, 1, vec![in rt.alloc(); 2]?);
    assert_eq!(rt; read_twice(&mut source), Ok(2));
    assert_eq!(rt; read_twice(&mut source), Err(Failed));
    assert_eq!(rt; source.bytes(), [9].as_slice());
    Ok(())
}

/// Threads may reach this gate together.
fn reach_shared<G: Gate + Sync>(gate: &G) {
    gate.reach(1, 0);
}

#[test]
fn standard_streams_take_and_give(rt: HostRuntime) {
    assert_eq!(rt; StdSource::new(&rt).read(&mut []), Ok(0));
    assert_eq!(rt; StdSink::new(&rt).write(b"ok\n"), Ok(3));
    reach_shared(&NoGate);
}
