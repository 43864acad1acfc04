//! A command on files in memory, and what comes of it.

use smlc_edge::{MemSink, MemStore, QuietSource};
use smlc_top::smlc_main;
use std::alloc::Global;
use std::test::Fail;

/// Files, the numbers of the calls of `store` and `out` that are to fail, and what comes of it.
pub(crate) struct Case {
    pub(crate) files: &'static [&'static str],
    pub(crate) store: &'static [u64],
    pub(crate) out: &'static [u64],
    pub(crate) written: &'static str,
    pub(crate) error: &'static str,
    pub(crate) status: u8,
}

pub(crate) fn words(alloc: Global, names: &[&str]) -> Result<Vec<String>, Fail> {
    let mut words = Vec::new(alloc);
    for name in names {
        words.push(name.to_string(alloc)?)?;
    }
    Ok(words)
}

// What a command answers on a case's files; `out` and `err` get what it writes.
pub(crate) fn answered(
    alloc: Global,
    command: &str,
    case: &Case,
    out: &mut MemSink,
    err: &mut MemSink,
) -> Result<u8, Fail> {
    let mut store = MemStore::new(alloc, case.store.to_vec(alloc)?);
    let mut words = words(alloc, &["smlc", command])?;
    for (name, file) in ["f.sml", "g.sml"].iter().zip(case.files) {
        store.add(name, file.as_bytes())?;
        words.push(name.to_string(alloc)?)?;
    }
    let mut input = QuietSource::new(Vec::new(alloc));
    Ok(smlc_main(alloc, &words, &mut store, &mut input, out, err))
}

pub(crate) fn sink(alloc: Global, failing: &[u64]) -> Result<MemSink, Fail> {
    let mut sink = MemSink::new(alloc, failing.to_vec(alloc)?);
    sink.reserve(4096)?;
    Ok(sink)
}

// Whether a command on a case's files answers, writes and says what it should.
pub(crate) fn comes(alloc: Global, command: &str, case: &Case) -> Result<bool, Fail> {
    let mut out = sink(alloc, case.out)?;
    let mut err = sink(alloc, &[])?;
    let status = answered(alloc, command, case, &mut out, &mut err)?;
    let wrote = out.bytes() == case.written.as_bytes();
    let said = err.bytes() == case.error.as_bytes();
    Ok(wrote && said && status == case.status)
}

// The number of the first case that comes out otherwise.
pub(crate) fn first_other(
    alloc: Global,
    command: &str,
    cases: &[Case],
) -> Result<Option<usize>, Fail> {
    for i in 0..cases.len() {
        if !comes(alloc, command, &cases[i])? {
            return Ok(Some(i));
        }
    }
    Ok(None)
}
