//! The adapters, over real files and over streams that move one byte a call and then fail.

use smlc_edge::{Failed, FileStore, Sink, Source, StdSink, StdSource, Store, StoreError};
use std::alloc::Global;
use std::io::{Read, Write};
use std::test::Fail;
use std::{fs, io};

/// Moves one byte a call, fails at the third call, and goes on behind it.
#[derive(Drop)]
struct Halting<T> {
    inner: T,
    calls: u8,
}

impl<T> Halting<T> {
    fn turn(&mut self) -> io::Result<()> {
        self.calls = self.calls.saturating_add(1);
        if self.calls == 3 {
            return Err(io::Error::from(io::ErrorKind::BrokenPipe));
        }
        Ok(())
    }
}

impl<T: Read> Read for Halting<T> {
    fn read(&mut self, buf: &mut [u8]) -> io::Result<usize> {
        self.turn()?;
        let most = buf.len().min(1);
        self.inner.read(&mut buf[..most])
    }
}

impl<T: Write> Write for Halting<T> {
    fn write(&mut self, buf: &[u8]) -> io::Result<usize> {
        self.turn()?;
        self.inner.write(&buf[..buf.len().min(1)])
    }

    fn flush(&mut self) -> io::Result<()> {
        Ok(())
    }
}

/// Takes nothing.
#[derive(Drop)]
struct Shut;

impl Write for Shut {
    fn write(&mut self, _buf: &[u8]) -> io::Result<usize> {
        Ok(0)
    }

    fn flush(&mut self) -> io::Result<()> {
        Ok(())
    }
}

#[test]
fn a_source_moves_what_its_reader_moves(rt: HostRuntime) -> Result<(), Fail> {
    let mut source = StdSource::new(Halting {
        inner: b"abc".as_slice(),
        calls: 0,
    });
    let mut piece = [0u8; 8];
    assert_eq!(rt; source.take(&mut piece), Ok(1));
    assert_eq!(rt; source.take(&mut piece), Ok(1));
    assert_eq!(rt; source.faults(), 0);
    assert_eq!(rt; source.take(&mut piece), Err(Failed));
    assert_eq!(rt; source.faults(), 1);
    assert_eq!(rt; source.take(&mut piece), Ok(1));
    assert_eq!(rt; piece, *b"c\0\0\0\0\0\0\0");
    assert_eq!(rt; source.take(&mut piece), Ok(0));
    assert_eq!(rt; source.faults(), 1);
    Ok(())
}

#[test]
fn a_sink_takes_what_its_writer_takes(rt: HostRuntime) -> Result<(), Fail> {
    let mut sink = StdSink::new(Halting {
        inner: Vec::new(rt.alloc()),
        calls: 0,
    });
    assert_eq!(rt; sink.put(b"abc"), Ok(1));
    assert_eq!(rt; sink.put(b"bc"), Ok(1));
    assert_eq!(rt; sink.faults(), 0);
    assert_eq!(rt; sink.put(b"c"), Err(Failed));
    assert_eq!(rt; sink.faults(), 1);
    assert_eq!(rt; sink.put(b"c"), Ok(1));
    assert_eq!(rt; sink.put(b""), Ok(0));
    assert_eq!(rt; sink.faults(), 1);
    Ok(())
}

#[test]
fn a_sink_that_takes_nothing_failed(rt: HostRuntime) -> Result<(), Fail> {
    let mut sink = StdSink::new(Shut);
    assert_eq!(rt; sink.put(b"abc"), Err(Failed));
    assert_eq!(rt; sink.faults(), 1);
    assert_eq!(rt; sink.put(b""), Ok(0));
    assert_eq!(rt; sink.faults(), 1);
    Ok(())
}

#[test]
fn streams_meet_a_real_file(rt: HostRuntime) -> Result<(), Fail> {
    let name = "smlc_edge_streams";
    let mut sink = StdSink::new(fs::create(&rt, name)?);
    assert_eq!(rt; sink.put(b"hello"), Ok(5));
    let mut source = StdSource::new(fs::open(&rt, name)?);
    let mut piece = [0u8; 8];
    assert_eq!(rt; source.take(&mut piece), Ok(5));
    assert_eq!(rt; piece, *b"hello\0\0\0");
    assert_eq!(rt; source.take(&mut piece), Ok(0));
    assert_eq!(rt; source.faults() + sink.faults(), 0);
    fs::remove_file(&rt, name)?;
    Ok(())
}

// So many bytes, each another than its neighbours.
fn counted(alloc: Global, many: usize) -> Result<Vec<u8>, Fail> {
    let mut bytes = Vec::new(alloc);
    for i in 0..many {
        bytes.push((i % 251) as u8)?;
    }
    Ok(bytes)
}

// More bytes than one read moves come back whole, and each call that fails counts one fault.
#[test]
fn a_store_keeps_long_files_whole(rt: HostRuntime) -> Result<(), Fail> {
    let alloc = rt.alloc();
    let bytes = counted(alloc, 10_000)?;
    let fewer = counted(alloc, 4096)?;
    let mut store = FileStore::new(&rt);
    let absent = "smlc_edge_no_folder/file";
    let missing = store.load(alloc, absent) == Err(StoreError::Failed) && store.faults() == 1;
    let unsaved = store.save(absent, &bytes) == Err(Failed) && store.faults() == 2;
    let file = "smlc_edge_long_file";
    let saved = store.save(file, &bytes) == Ok(());
    let same = store.load(alloc, file)?.as_slice() == bytes.as_slice();
    let shorter = store.save(file, &fewer) == Ok(());
    let again = store.load(alloc, file)?.as_slice() == fewer.as_slice();
    let faults = store.faults();
    fs::remove_file(&rt, file)?;
    assert!(rt; missing && unsaved);
    assert!(rt; saved && same);
    assert!(rt; shorter && again);
    assert_eq!(rt; faults, 2);
    Ok(())
}
