//! Counts of four words of arena, from roots.

use elf_static::{Entries, read_elf};
use heap_reach::Reach;
use rv_machine::Machine;
use smlc_base::{Label, NoMemory, Row};
use std::alloc::Global;
use std::test::Fail;

/// The words of the arena, the roots, and how many words in how many blocks are reached.
#[derive(Clone, Copy)]
struct Case {
    words: [u64; 4],
    roots: &'static [u64],
    reached: (u64, u64),
}

const ARENA: u64 = 0x20000;

/// A tuple of two words behind its header, the second of which points to itself, and a word of 0.
const PAIR: [u64; 4] = [0x2_0000_0000, ARENA, 5, 0];

const CASES: &[Case] = &[
    // one block from two roots
    Case {
        words: PAIR,
        roots: &[ARENA, ARENA],
        reached: (3, 1),
    },
    // a word whose header would be the arena's address has a length of 0
    Case {
        words: PAIR,
        roots: &[ARENA + 8],
        reached: (1, 1),
    },
    // blocks that overlap are counted both
    Case {
        words: PAIR,
        roots: &[ARENA, ARENA + 8],
        reached: (4, 2),
    },
    // no addresses of words of the arena
    Case {
        words: PAIR,
        roots: &[ARENA + 4, ARENA + 32],
        reached: (0, 0),
    },
    // a block that would pass the arena's end
    Case {
        words: [0xffff_ffff_0000_0000, ARENA, 5, 0],
        roots: &[ARENA],
        reached: (0, 0),
    },
    // a block of two words, whose field leads on
    Case {
        words: [0x1_0000_0000, ARENA + 16, 0x1_0000_0000, 7],
        roots: &[ARENA],
        reached: (4, 2),
    },
    // the same words as a string of eight bytes, which lead nowhere
    Case {
        words: [0x8_0000_0002, ARENA + 16, 0x1_0000_0000, 7],
        roots: &[ARENA],
        reached: (2, 1),
    },
];

/// Adds a number of `width` bytes.
fn add(file: &mut Vec<u8>, width: usize, number: u64) -> Result<(), NoMemory> {
    let bytes = number.to_le_bytes();
    for i in 0..8 {
        if i < width {
            file.push(bytes[i])?;
        }
    }
    Ok(())
}

/// Adds the program header of a segment of the 32 bytes that stand behind both headers.
fn add_program_header(file: &mut Vec<u8>, address: u64, flags: u64) -> Result<(), NoMemory> {
    for (width, number) in [
        (4, 1),
        (4, flags),
        (8, 176),
        (8, address),
        (8, address),
        (8, 32),
        (8, 32),
        (8, 4096),
    ] {
        add(file, width, number)?;
    }
    Ok(())
}

/// An ELF file whose memory at address 20000, hexadecimal, is these words.
fn file(alloc: Global, words: &[u64]) -> Result<Vec<u8>, NoMemory> {
    let mut file = Vec::new(alloc);
    for (width, number) in [
        (8, 0x0001_0102_464c_457f),
        (8, 0),
        (2, 2),
        (2, 243),
        (4, 1),
        (8, 0x10000),
        (8, 64),
        (8, 0),
        (4, 0),
        (2, 64),
        (2, 56),
        (2, 2),
        (2, 64),
        (2, 0),
        (2, 0),
    ] {
        add(&mut file, width, number)?;
    }
    add_program_header(&mut file, 0x10000, 5)?;
    add_program_header(&mut file, ARENA, 6)?;
    for word in words {
        add(&mut file, 8, *word)?;
    }
    Ok(file)
}

/// Whether a count, made twice, is as it should be.
fn is_as_expected(alloc: Global, case: &Case) -> Result<bool, Fail> {
    let image = read_elf(alloc, &file(alloc, &case.words)?)?;
    let machine = Machine::load(alloc, &image)?;
    let mut reach = Reach::new(alloc, 4, 2)?;
    let entries = Entries {
        rows: Row::new(alloc),
        factor: 1,
        spill: 0,
        arena: ARENA,
        arena_words: 4,
    };
    let _ = reach.count(&machine, &entries, case.roots);
    let count = reach.count(&machine, &entries, case.roots);
    Ok((count.words, count.blocks) == case.reached)
}

/// The first case that isn't as it should be.
fn first_wrong(alloc: Global, cases: &[Case]) -> Result<Option<usize>, Fail> {
    for i in 0..cases.len() {
        if !is_as_expected(alloc, &cases[i])? {
            return Ok(Some(i));
        }
    }
    Ok(None)
}

#[test]
fn counts_are_as_by_hand(rt: HostRuntime) -> Result<(), Fail> {
    assert_eq!(rt; first_wrong(rt.alloc(), CASES)?, None);
    Ok(())
}

#[test]
fn labels_are_counted_apart(rt: HostRuntime) -> Result<(), Fail> {
    let mut reach = Reach::new(rt.alloc(), 0, 2)?;
    assert_eq!(rt; reach.enter(Label(1)), 1);
    assert_eq!(rt; reach.enter(Label(1)), 2);
    assert_eq!(rt; reach.enter(Label(0)), 1);
    reach.restart();
    assert_eq!(rt; reach.enter(Label(1)), 1);
    Ok(())
}
