//! Small programs, and the states in which they end. The words are those of GNU as.

use elf_static::read_elf;
use rv_machine::{End, Machine};
use smlc_base::NoMemory;
use smlc_edge::{MemSink, MemSource, QuietSink, QuietSource};
use std::alloc::Global;
use std::test::Fail;

/// A program of at most 16 instructions, how many are done at most, how the run ends, and registers with what they then hold.
#[derive(Clone, Copy)]
struct Case {
    code: &'static [u32],
    steps: u64,
    end: End,
    regs: &'static [(u32, u64)],
}

const EBREAK: u32 = 0x0010_0073;

const CASES: &[Case] = &[
    // the least number divided by -1
    Case {
        code: &[
            0x0010_0293,
            0x03f2_9293,
            0xfff0_0313,
            0x0262_c3b3,
            0x0262_ee33,
            EBREAK,
        ],
        steps: 9,
        end: End::Trap {
            pc: 0x10014,
            word: EBREAK,
        },
        regs: &[(5, 1 << 63), (7, 1 << 63), (28, 0)],
    },
    // division by zero
    Case {
        code: &[0x0070_0293, 0x0202_c333, 0x0202_f3b3, EBREAK],
        steps: 9,
        end: End::Trap {
            pc: 0x1000c,
            word: EBREAK,
        },
        regs: &[(6, u64::MAX), (7, 7)],
    },
    // the upper halves of products of -1
    Case {
        code: &[0xfff0_0293, 0x0252_9333, 0x0252_b3b3, 0x0252_ae33, EBREAK],
        steps: 9,
        end: End::Trap {
            pc: 0x10010,
            word: EBREAK,
        },
        regs: &[(6, 0), (7, u64::MAX - 1), (28, u64::MAX)],
    },
    // shifts of words
    Case {
        code: &[0x0010_0293, 0x01f2_929b, 0x41f2_d31b, 0x01f2_d39b, EBREAK],
        steps: 9,
        end: End::Trap {
            pc: 0x10010,
            word: EBREAK,
        },
        regs: &[(5, 0xffff_ffff_8000_0000), (6, u64::MAX), (7, 1)],
    },
    // loads of a part of the text, with and without its sign, and one that isn't aligned
    Case {
        code: &[
            0x0000_0297,
            0x0062_8303,
            0x0062_c383,
            0x0002_ae03,
            0x0042_be83,
            0x0000_0000,
        ],
        steps: 9,
        end: End::Trap {
            pc: 0x10010,
            word: 0x0042_be83,
        },
        regs: &[(6, 0x62), (7, 0x62), (28, 0x297)],
    },
    // the text may not be written
    Case {
        code: &[0x0000_0297, 0x0052_a023],
        steps: 9,
        end: End::Trap {
            pc: 0x10004,
            word: 0x0052_a023,
        },
        regs: &[],
    },
    // a byte is stored, and read with the one before it
    Case {
        code: &[
            0x0002_02b7,
            0xffe0_0313,
            0x0062_80a3,
            0x0002_9383,
            0x0002_be03,
            EBREAK,
        ],
        steps: 9,
        end: End::Trap {
            pc: 0x10014,
            word: EBREAK,
        },
        regs: &[(7, 0xffff_ffff_ffff_fe00), (28, 0xfe00)],
    },
    // a load that isn't aligned
    Case {
        code: &[0x0002_02b7, 0x0022_a303],
        steps: 9,
        end: End::Trap {
            pc: 0x10004,
            word: 0x0022_a303,
        },
        regs: &[(6, 0)],
    },
    // a jump clears the lowest bit of its target, and leaves the address behind it
    Case {
        code: &[0x0000_0297, 0x00d2_80e7, EBREAK, 0x0050_0313, EBREAK],
        steps: 9,
        end: End::Trap {
            pc: 0x10010,
            word: EBREAK,
        },
        regs: &[(1, 0x10008), (6, 5)],
    },
    // a jump to an address that is no multiple of 4 is no step
    Case {
        code: &[0x0000_0297, 0x0062_80e7],
        steps: 9,
        end: End::Trap {
            pc: 0x10004,
            word: 0x0062_80e7,
        },
        regs: &[(1, 0)],
    },
    // a loop of three turns
    Case {
        code: &[0x0030_0293, 0x0023_0313, 0xfff2_8293, 0xfe02_9ce3, EBREAK],
        steps: 99,
        end: End::Trap {
            pc: 0x10010,
            word: EBREAK,
        },
        regs: &[(5, 0), (6, 6)],
    },
    // as many instructions as were given: the last isn't done
    Case {
        code: &[0x0030_0293, 0x0023_0313, 0xfff2_8293, 0xfe02_9ce3, EBREAK],
        steps: 9,
        end: End::Steps,
        regs: &[(5, 0), (6, 6)],
    },
    // a trap isn't an instruction, and with all instructions done it isn't seen
    Case {
        code: &[EBREAK],
        steps: 0,
        end: End::Steps,
        regs: &[],
    },
    // an exit is one; its status is the lowest byte
    Case {
        code: &[0x1020_0513, 0x05d0_0893, 0x0000_0073],
        steps: 3,
        end: End::Exit(2),
        regs: &[(10, 258)],
    },
    Case {
        code: &[0x1020_0513, 0x05d0_0893, 0x0000_0073],
        steps: 2,
        end: End::Steps,
        regs: &[],
    },
    // another system call
    Case {
        code: &[0x0010_0893, 0x0000_0073],
        steps: 9,
        end: End::Trap {
            pc: 0x10004,
            word: 0x0000_0073,
        },
        regs: &[],
    },
    // register 0 reads 0
    Case {
        code: &[0x0050_0013, EBREAK],
        steps: 9,
        end: End::Trap {
            pc: 0x10004,
            word: EBREAK,
        },
        regs: &[(0, 0)],
    },
];

/// Adds a number of `width` bytes.
fn add(file: &mut Vec<u8>, width: usize, number: u64) -> Result<(), NoMemory> {
    let bytes = number.to_le_bytes();
    for i in 0..8 {
        if i < width {
            file.push(bytes[i])?;
        }
    }
    Ok(())
}

/// Adds the program header of a segment of 64 bytes, of which so many stand in the file behind both headers.
fn add_program_header(
    file: &mut Vec<u8>,
    address: u64,
    flags: u64,
    bytes: u64,
) -> Result<(), NoMemory> {
    for (width, number) in [
        (4, 1),
        (4, flags),
        (8, 176),
        (8, address),
        (8, address),
        (8, bytes),
        (8, 64),
        (8, 4096),
    ] {
        add(file, width, number)?;
    }
    Ok(())
}

/// An ELF file of a program at address 10000 and 64 bytes of memory at address 20000, both hexadecimal.
fn file(alloc: Global, code: &[u32]) -> Result<Vec<u8>, NoMemory> {
    let mut file = Vec::new(alloc);
    for (width, number) in [
        (8, 0x0001_0102_464c_457f),
        (8, 0),
        (2, 2),
        (2, 243),
        (4, 1),
        (8, 0x10000),
        (8, 64),
        (8, 0),
        (4, 0),
        (2, 64),
        (2, 56),
        (2, 2),
        (2, 64),
        (2, 0),
        (2, 0),
    ] {
        add(&mut file, width, number)?;
    }
    add_program_header(&mut file, 0x10000, 5, 64)?;
    add_program_header(&mut file, 0x20000, 6, 0)?;
    for word in code {
        add(&mut file, 4, *word as u64)?;
    }
    file.resize(240, 0)?;
    Ok(file)
}

/// The machine of a program.
fn machine(alloc: Global, code: &[u32]) -> Result<Machine, Fail> {
    let image = read_elf(alloc, &file(alloc, code)?)?;
    Ok(Machine::load(alloc, &image)?)
}

fn holds(machine: &Machine, number: u32, value: u64) -> bool {
    number < 32 && machine.reg(number) == value
}

fn all_hold(machine: &Machine, regs: &[(u32, u64)]) -> bool {
    regs.iter()
        .all(|&(number, value)| holds(machine, number, value))
}

fn is_as_expected(alloc: Global, case: &Case) -> Result<bool, Fail> {
    let mut machine = machine(alloc, case.code)?;
    let mut input = QuietSource::new(Vec::new(alloc));
    let mut out = QuietSink::new();
    let mut err = QuietSink::new();
    let end = machine.run(case.steps, &mut input, &mut out, &mut err);
    Ok(end == case.end && all_hold(&machine, case.regs))
}

/// The first case that isn't as it should be.
fn first_wrong(alloc: Global, cases: &[Case]) -> Result<Option<usize>, Fail> {
    for i in 0..cases.len() {
        if !is_as_expected(alloc, &cases[i])? {
            return Ok(Some(i));
        }
    }
    Ok(None)
}

#[test]
fn programs_end_as_the_manual_says(rt: HostRuntime) -> Result<(), Fail> {
    assert_eq!(rt; first_wrong(rt.alloc(), CASES)?, None);
    Ok(())
}

/// Reads up to eight bytes to address 20000, writes what it has read, and exits with 0.
const ECHO: &[u32] = &[
    0x0002_05b7,
    0x0080_0613,
    0x03f0_0893,
    0x0000_0073,
    0x0005_0613,
    0x0010_0513,
    0x0400_0893,
    0x0000_0073,
    0x0000_0513,
    0x05d0_0893,
    0x0000_0073,
];

#[test]
fn faults_are_tried_again(rt: HostRuntime) -> Result<(), Fail> {
    let alloc = rt.alloc();
    let mut machine = machine(alloc, ECHO)?;
    let mut input = MemSource::new(b"abc".to_vec(alloc)?, [1].to_vec(alloc)?);
    let mut out = MemSink::new(alloc, [1].to_vec(alloc)?);
    out.reserve(8)?;
    let mut err = QuietSink::new();
    let ends = [
        (End::ReadFault, 0x1000c),
        (End::WriteFault, 0x1001c),
        (End::Exit(0), 0x10028),
        (End::Exit(0), 0x10028),
    ];
    for (end, pc) in ends {
        assert_eq!(rt; machine.run(99, &mut input, &mut out, &mut err), end);
        assert_eq!(rt; machine.pc(), pc);
    }
    assert_eq!(rt; out.bytes(), b"abc".as_slice());
    assert_eq!(rt; machine.word(0x20000), Some(0x63_6261));
    assert_eq!(rt; machine.word(0x20004), None);
    assert_eq!(rt; machine.word(0x20040), None);
    Ok(())
}
