//! Each call that allocates, once with ample memory; and the listed faults.

use smlc_edge::{
    Failed, MemSink, MemSource, MemStore, QuietSink, QuietSource, Sink, Source, Store,
};
use std::test::Fail;

#[test]
fn listed_calls_fail(rt: HostRuntime) -> Result<(), Fail> {
    let mut source = MemSource::new(b"abcd".to_vec(rt.alloc())?, [2].to_vec(rt.alloc())?);
    let mut sink = MemSink::new(rt.alloc(), [2].to_vec(rt.alloc())?);
    sink.reserve(4)?;
    let mut piece = [0u8; 3];
    assert_eq!(rt; source.take(&mut piece), Ok(3));
    assert_eq!(rt; source.take(&mut piece), Err(Failed));
    assert_eq!(rt; source.take(&mut piece), Ok(1));
    assert_eq!(rt; piece, *b"dbc");
    assert_eq!(rt; source.take(&mut piece), Ok(0));
    assert_eq!(rt; sink.put(b"xy"), Ok(2));
    assert_eq!(rt; sink.put(b"z"), Err(Failed));
    assert_eq!(rt; sink.put(b"too long"), Err(Failed));
    assert_eq!(rt; sink.put(b"z"), Ok(1));
    assert_eq!(rt; sink.bytes(), b"xyz".as_slice());
    assert_eq!(rt; source.faults(), 1);
    assert_eq!(rt; sink.faults(), 2);
    Ok(())
}

#[test]
fn a_save_wants_room(rt: HostRuntime) -> Result<(), Fail> {
    let mut store = MemStore::new(rt.alloc(), [7].to_vec(rt.alloc())?);
    store.add("a", b"1")?;
    store.add("a", b"2")?;
    assert_eq!(rt; store.load(rt.alloc(), "a")?.as_slice(), b"2".as_slice());
    assert_eq!(rt; store.save("b", b"3"), Err(Failed));
    store.reserve("b", 1)?;
    store.reserve("b", 3)?;
    store.reserve("b", 2)?;
    assert_eq!(rt; store.save("b", b"four"), Err(Failed));
    assert_eq!(rt; store.save("b", b"345"), Ok(()));
    assert_eq!(rt; store.save("b", b"6"), Err(Failed));
    assert_eq!(rt; store.load(rt.alloc(), "b")?.as_slice(), b"345".as_slice());
    assert!(rt; store.load(rt.alloc(), "a").is_err());
    assert_eq!(rt; store.faults(), 4);
    Ok(())
}

#[test]
fn a_quiet_sink_keeps_the_first_bytes(rt: HostRuntime) -> Result<(), Fail> {
    let mut source = QuietSource::new(b"ab".to_vec(rt.alloc())?);
    let mut sink = QuietSink::new();
    let mut piece = [0u8; 1];
    assert_eq!(rt; source.take(&mut piece), Ok(1));
    assert_eq!(rt; piece, *b"a");
    for _ in 0..5 {
        assert_eq!(rt; sink.put(&[7u8; 1000]), Ok(1000));
    }
    assert_eq!(rt; source.faults() + sink.faults(), 0);
    Ok(())
}
