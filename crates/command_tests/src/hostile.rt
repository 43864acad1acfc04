//! ELF files of all kinds, run by `exec`, and how many steps a run does.

use crate::calls::words;
use smlc_edge::{MemSink, MemStore, QuietSink, QuietSource, Store};
use smlc_top::smlc_main;
use std::alloc::Global;
use std::test::Fail;

const HELLO: &[u8] = b"val _ = print \"hello\\n\"\n";

// What `exec` of these bytes answers and says, with 1,000 instructions at most.
fn executed(alloc: Global, bytes: &[u8], err: &mut MemSink) -> Result<u8, Fail> {
    let mut store = MemStore::new(alloc, Vec::new(alloc));
    store.add("a", bytes)?;
    let mut input = QuietSource::new(Vec::new(alloc));
    let mut out = QuietSink::new();
    let words = words(alloc, &["smlc", "exec", "a", "--steps", "1000"])?;
    Ok(smlc_main(alloc, &words, &mut store, &mut input, &mut out, err))
}

/// A number of `width` bytes that is written over a file at `at`, and what `exec` then answers and says.
#[derive(Clone, Copy)]
struct Hostile {
    at: u32,
    width: u32,
    value: u64,
    status: u8,
    line: &'static str,
}

const fn over(at: u32, width: u32, value: u64, status: u8, line: &'static str) -> Hostile {
    Hostile {
        at,
        width,
        value,
        status,
        line,
    }
}

// The file with the number written over it.
fn changed(alloc: Global, file: &[u8], case: &Hostile) -> Result<Vec<u8>, Fail> {
    let mut bytes = file.to_vec(alloc)?;
    let number = case.value.to_le_bytes();
    for i in 0..8 {
        let place = case.at as usize + i;
        if i < case.width as usize && place < bytes.len() {
            bytes[place] = number[i];
        }
    }
    Ok(bytes)
}

// The file that `compile` makes of the program that says hello.
fn compiled(alloc: Global) -> Result<Vec<u8>, Fail> {
    let mut store = MemStore::new(alloc, Vec::new(alloc));
    store.add("f.sml", HELLO)?;
    store.reserve("a", 20_000)?;
    let mut input = QuietSource::new(Vec::new(alloc));
    let mut out = QuietSink::new();
    let mut err = QuietSink::new();
    let words = words(alloc, &["smlc", "compile", "f.sml", "-o", "a"])?;
    smlc_main(alloc, &words, &mut store, &mut input, &mut out, &mut err);
    Ok(store.load(alloc, "a")?)
}

#[test]
fn what_is_compiled_is_run_or_refused(rt: HostRuntime) -> Result<(), Fail> {
    let alloc = rt.alloc();
    let file = compiled(alloc)?;
    let cases = [
        over(0, 0, 0, 0, "exit 0\n"),
        // the number of program headers, and the second one's address
        over(56, 2, 0, 8, "not elf Programs at 56\n"),
        over(136, 8, 0x10000, 8, "not elf Overlap at 136\n"),
        // the entry
        over(24, 8, 0x10002, 8, "not elf Entry at 24\n"),
        // the first instruction: no instruction, EBREAK, a jump to itself
        over(4096, 4, 0, 9, "trap 0000000000010000 00000000\n"),
        over(4096, 4, 0x0010_0073, 9, "trap 0000000000010000 00100073\n"),
        over(4096, 4, 0x0000_006f, 4, "steps 1000\n"),
        // the count of rows in the table of entries
        over(12_296, 4, 1, 8, "not elf Table at 12288\n"),
    ];
    for case in &cases {
        let hostile = changed(alloc, &file, case)?;
        let mut said = MemSink::new(alloc, Vec::new(alloc));
        said.reserve(100)?;
        assert_eq!(rt; executed(alloc, &hostile, &mut said)?, case.status);
        assert_eq!(rt; said.bytes(), case.line.as_bytes());
    }
    Ok(())
}

#[test]
fn what_is_too_short_is_no_elf_file(rt: HostRuntime) -> Result<(), Fail> {
    let alloc = rt.alloc();
    let mut cut = compiled(alloc)?;
    cut.truncate(100);
    let zeros = [0; 64];
    let cases: [(&[u8], &str); 3] = [
        (&[], "not elf Short at 0\n"),
        (&zeros, "not elf Ident at 0\n"),
        (&cut, "not elf Short at 100\n"),
    ];
    for (file, line) in cases {
        let mut said = MemSink::new(alloc, Vec::new(alloc));
        said.reserve(100)?;
        assert_eq!(rt; executed(alloc, file, &mut said)?, 8);
        assert_eq!(rt; said.bytes(), line.as_bytes());
    }
    Ok(())
}

#[test]
fn the_steps_are_exact(rt: HostRuntime) -> Result<(), Fail> {
    let alloc = rt.alloc();
    for (steps, status, line) in [
        ("0", 4, "steps 0\n"),
        ("11", 4, "steps 11\n"),
        ("12", 0, ""),
    ] {
        let mut store = MemStore::new(alloc, Vec::new(alloc));
        store.add("f.sml", HELLO)?;
        let mut input = QuietSource::new(Vec::new(alloc));
        let mut out = QuietSink::new();
        let mut err = MemSink::new(alloc, Vec::new(alloc));
        err.reserve(100)?;
        let words = words(alloc, &["smlc", "run", "f.sml", "--steps", steps])?;
        assert_eq!(rt;
            smlc_main(alloc, &words, &mut store, &mut input, &mut out, &mut err),
            status
        );
        assert_eq!(rt; err.bytes(), line.as_bytes());
    }
    Ok(())
}
