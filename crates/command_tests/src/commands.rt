//! The command on files, faults and sinks of all kinds.

use crate::calls::{Case, first_other, sink, words};
use smlc_edge::{Failed, MemSink, MemStore, QuietSink, QuietSource, Sink};
use smlc_top::smlc_main;
use std::alloc::Global;
use std::test::Fail;

/// What comes before there is a bare tree.
const EARLY: &[Case] = &[
    Case {
        files: &["val _ = print (1"],
        store: &[],
        out: &[],
        written: "",
        error: "f.sml:1:17: refused 4 Syntax\n",
        status: 2,
    },
    Case {
        files: &["val _ = print \"a\"\n", "val _ = ("],
        store: &[],
        out: &[],
        written: "",
        error: "g.sml:1:10: refused 4 Syntax\n",
        status: 2,
    },
    Case {
        files: &["infix 5 ++ val _ = 1 :: 2 ++ 3"],
        store: &[],
        out: &[],
        written: "",
        error: "f.sml:1:27: refused 5 MixedFixity\n",
        status: 2,
    },
    Case {
        files: &["val _ = 1.5"],
        store: &[],
        out: &[],
        written: "",
        error: "f.sml:1:9: refused 6 NotInSubset real\n",
        status: 2,
    },
    Case {
        files: &["", "val _ = \"a"],
        store: &[],
        out: &[],
        written: "",
        error: "g.sml:1:9: refused 2 Unclosed\n",
        status: 2,
    },
    Case {
        files: &["infix 5 **\ninfixr 5 ++\nval x = 1 ** 2 ++ 3"],
        store: &[],
        out: &[],
        written: "",
        error: "f.sml:3:16: refused 5 MixedFixity\n",
        status: 2,
    },
    Case {
        files: &["structure S = struct end"],
        store: &[],
        out: &[],
        written: "",
        error: "f.sml:1:1: refused 6 NotInSubset structure\n",
        status: 2,
    },
    Case {
        files: &["(* a (* b *)"],
        store: &[],
        out: &[],
        written: "",
        error: "f.sml:1:1: refused 2 Unclosed\n",
        status: 2,
    },
    Case {
        files: &["val = 1"],
        store: &[],
        out: &[],
        written: "",
        error: "f.sml:1:5: refused 4 Syntax\n",
        status: 2,
    },
    Case {
        files: &["val _ = print \"ab\"\n"],
        store: &[1],
        out: &[],
        written: "",
        error: "fault store f.sml\n",
        status: 5,
    },
    Case {
        files: &["val _ = print \"ab\"\n", "val _ = ("],
        store: &[2],
        out: &[],
        written: "",
        error: "fault store g.sml\n",
        status: 5,
    },
];

/// What comes of bare trees.
const PROGRAMS: &[Case] = &[
    Case {
        files: &["val _ = print \"hello\\n\"\n"],
        store: &[],
        out: &[],
        written: "hello\n",
        error: "",
        status: 0,
    },
    Case {
        files: &[""],
        store: &[],
        out: &[],
        written: "",
        error: "",
        status: 0,
    },
    Case {
        files: &["val _ = print \"ab\"\n", "val _ = print \"cd\"\n"],
        store: &[],
        out: &[],
        written: "abcd",
        error: "",
        status: 0,
    },
    Case {
        files: &[
            "(* (* *) *) val _ = print \"a\"; local val _ = print \"b\" in val _ = (print \"c\") end",
        ],
        store: &[],
        out: &[],
        written: "abc",
        error: "",
        status: 0,
    },
    Case {
        files: &["val _ = print \"\"\nval _ = print \"\\097\\u0062\\\"\\\\\\   \\c\""],
        store: &[],
        out: &[],
        written: "ab\"\\c",
        error: "",
        status: 0,
    },
    Case {
        files: &["infix 4 ++ val _ = print \"a\""],
        store: &[],
        out: &[],
        written: "a",
        error: "",
        status: 0,
    },
    Case {
        files: &["val _ = fn x => x"],
        store: &[],
        out: &[],
        written: "",
        error: "",
        status: 0,
    },
    Case {
        files: &["val _ = (1 :: 2 :: nil)"],
        store: &[],
        out: &[],
        written: "",
        error: "",
        status: 0,
    },
    Case {
        files: &["val _ = print \"a\"\n", "\n  val x = print \"b\""],
        store: &[],
        out: &[],
        written: "ab",
        error: "",
        status: 0,
    },
    Case {
        files: &["val _ = print \"a\" and _ = print \"b\""],
        store: &[],
        out: &[],
        written: "ab",
        error: "",
        status: 0,
    },
    Case {
        files: &[
            "fun fib n = if n < 2 then n else fib (n - 1) + fib (n - 2)\n",
            "val _ = print (Int.toString (fib 10) ^ \"\\n\")",
        ],
        store: &[],
        out: &[],
        written: "55\n",
        error: "",
        status: 0,
    },
    Case {
        files: &[
            "exception E of int\nval _ = print \"a\"\nval _ = if 1 < 2 then raise E 3 else ()",
        ],
        store: &[],
        out: &[],
        written: "a",
        error: "uncaught exception E\n",
        status: 1,
    },
    Case {
        files: &["fun f x = print (Int.toString x)\nval _ = f 1"],
        store: &[],
        out: &[1],
        written: "",
        error: "fault out\n",
        status: 5,
    },
    Case {
        files: &["val _ = print x"],
        store: &[],
        out: &[],
        written: "",
        error: "f.sml:1:15: refused 10 Unbound\n",
        status: 2,
    },
    Case {
        files: &["val x = 1", "val (x, x) = (1, 2)"],
        store: &[],
        out: &[],
        written: "",
        error: "g.sml:1:9: refused 11 BadBinding\n",
        status: 2,
    },
    Case {
        files: &["datatype t = A | A"],
        store: &[],
        out: &[],
        written: "",
        error: "f.sml:1:18: refused 11 BadBinding\n",
        status: 2,
    },
    Case {
        files: &["val x = y"],
        store: &[],
        out: &[],
        written: "",
        error: "f.sml:1:9: refused 10 Unbound\n",
        status: 2,
    },
    Case {
        files: &["val (x, x) = (1, 2)"],
        store: &[],
        out: &[],
        written: "",
        error: "f.sml:1:9: refused 11 BadBinding\n",
        status: 2,
    },
    Case {
        files: &["val r = ref nil\nval _ = r := [1]\nval _ = r := [\"a\"]\n"],
        store: &[],
        out: &[],
        written: "",
        error: "f.sml:3:1: refused 12 BadType\n",
        status: 2,
    },
    Case {
        files: &["val _ = print \"a\"\n", "val x = 1 + true"],
        store: &[],
        out: &[],
        written: "",
        error: "g.sml:1:1: refused 12 BadType\n",
        status: 2,
    },
    Case {
        files: &["val x = fn x => x\nval y = x x 1 2"],
        store: &[],
        out: &[],
        written: "",
        error: "f.sml:2:1: refused 12 BadType\n",
        status: 2,
    },
    Case {
        files: &["val _ = print \"ab\"\nval _ = print \"cd\"\n"],
        store: &[],
        out: &[2],
        written: "ab",
        error: "fault out\n",
        status: 5,
    },
];

#[test]
fn what_comes_before_the_bare_tree(rt: HostRuntime) -> Result<(), Fail> {
    assert_eq!(rt; first_other(rt.alloc(), "run", EARLY)?, None);
    Ok(())
}

#[test]
fn programs_and_faults(rt: HostRuntime) -> Result<(), Fail> {
    assert_eq!(rt; first_other(rt.alloc(), "run", PROGRAMS)?, None);
    Ok(())
}
// What `gen` writes for a number and a size.
const GENERATED: [([&str; 2], &str); 2] = [
    (
        ["1", "1"],
        "fun f0 x = (x + 387) mod 1000000\nval _ = print (Int.toString (f0 7) ^ \"\\n\")\n",
    ),
    (
        ["7", "3"],
        "fun f0 x = (x + 639) mod 1000000\n\
         fun f1 x = (case f0 x of 0 => raise Fail \"0\" | y => y + 615) handle Fail _ => 615\n\
         fun f2 x = foldl (fn (a, b) => (a + b) mod 1000000) (f1 x) [x, 376, x + 376]\n\
         val _ = print (Int.toString (f2 7) ^ \"\\n\")\n",
    ),
];

#[test]
fn large_programs(rt: HostRuntime) -> Result<(), Fail> {
    let alloc = rt.alloc();
    for ([number, size], text) in GENERATED {
        let mut store = MemStore::new(alloc, Vec::new(alloc));
        let mut input = QuietSource::new(Vec::new(alloc));
        let mut out = sink(alloc, &[])?;
        let mut err = QuietSink::new();
        let words = words(alloc, &["smlc", "gen", number, size])?;
        let status = smlc_main(alloc, &words, &mut store, &mut input, &mut out, &mut err);
        assert_eq!(rt; status, 0);
        assert_eq!(rt; out.bytes(), text.as_bytes());
    }
    Ok(())
}

/// A sink that takes one byte at a time, and keeps the first of them.
#[derive(Drop)]
struct OneByte {
    kept: [u8; 8],
    len: usize,
}

impl Sink for OneByte {
    ghost use Rattle.std.specs.Prelude.{None};

    ghost taken = { λ s. None };

    ghost faults = { λ s. 0 };

    ghost sure = { λ s. ⊥ };

    fn faults(&self) -> u64 {
        0
    }

    fn put(&mut self, piece: &[u8]) -> Result<usize, Failed> {
        let [first, ..] = piece else {
            return Ok(0);
        };
        if self.len < 8 {
            self.kept[self.len] = *first;
            self.len += 1;
        }
        Ok(1)
    }
}

#[test]
fn a_sink_of_one_byte(rt: HostRuntime) -> Result<(), Fail> {
    let alloc = rt.alloc();
    let mut store = MemStore::new(alloc, Vec::new(alloc));
    store.add("f.sml", b"val _ = print \"ab\"\nval _ = print \"cd\"\n")?;
    let mut input = QuietSource::new(Vec::new(alloc));
    let mut out = OneByte {
        kept: [0; 8],
        len: 0,
    };
    let mut err = QuietSink::new();
    let words = words(alloc, &["smlc", "run", "f.sml"])?;
    let status = smlc_main(alloc, &words, &mut store, &mut input, &mut out, &mut err);
    assert_eq!(rt; status, 0);
    assert_eq!(rt; out.kept, *b"abcd\0\0\0\0");
    Ok(())
}

// What `run` of two files of so many newlines answers.
fn sized(alloc: Global, sizes: [usize; 2], err: &mut MemSink) -> Result<u8, Fail> {
    let mut store = MemStore::new(alloc, Vec::new(alloc));
    for (name, size) in ["f.sml", "g.sml"].iter().zip(sizes) {
        store.add(name, &vec![in alloc; 10u8; size]?)?;
    }
    let mut input = QuietSource::new(Vec::new(alloc));
    let mut out = QuietSink::new();
    let words = words(alloc, &["smlc", "run", "f.sml", "g.sml"])?;
    Ok(smlc_main(alloc, &words, &mut store, &mut input, &mut out, err))
}

#[test]
fn files_that_are_too_long(rt: HostRuntime) -> Result<(), Fail> {
    let alloc = rt.alloc();
    let mut err = sink(alloc, &[])?;
    assert_eq!(rt; sized(alloc, [1_000_000, 48_577], &mut err)?, 2);
    assert_eq!(rt; err.bytes(), b"g.sml:1:1: refused 7 TooLong\n".as_slice());
    Ok(())
}

#[test]
fn files_of_the_greatest_length(rt: HostRuntime) -> Result<(), Fail> {
    let alloc = rt.alloc();
    let mut err = sink(alloc, &[])?;
    assert_eq!(rt; sized(alloc, [1_000_000, 48_576], &mut err)?, 0);
    assert_eq!(rt; err.bytes(), b"".as_slice());
    Ok(())
}

#[test]
fn words_that_are_no_command(rt: HostRuntime) -> Result<(), Fail> {
    let alloc = rt.alloc();
    let cases: [&[&str]; 8] = [
        &[],
        &["smlc", "run"],
        &["smlc", "run", "f.sml", "--arena=2048"],
        &["smlc", "compile", "f.sml"],
        &["smlc", "run", "f.sml", "-o", "a"],
        &["smlc", "run", "f.sml", "--arena", "1023"],
        &["smlc", "plan", "f.sml", "--arena", "1024"],
        &["smlc", "meter", "f.sml"],
    ];
    for case in cases {
        let mut store = MemStore::new(alloc, Vec::new(alloc));
        let mut input = QuietSource::new(Vec::new(alloc));
        let mut out = QuietSink::new();
        let mut err = MemSink::new(alloc, Vec::new(alloc));
        err.reserve(100)?;
        let words = words(alloc, case)?;
        let status = smlc_main(alloc, &words, &mut store, &mut input, &mut out, &mut err);
        assert_eq!(rt; status, 7);
        assert_eq!(rt;
            err.bytes(),
            b"usage: smlc compile|run|meter|exec|types|plan|gen|bench\n".as_slice()
        );
    }
    Ok(())
}

#[test]
fn a_full_arena(rt: HostRuntime) -> Result<(), Fail> {
    let alloc = rt.alloc();
    let mut store = MemStore::new(alloc, Vec::new(alloc));
    store.add("f.sml", b"fun f l = f (1 :: l)\nval _ = f nil\n")?;
    let mut input = QuietSource::new(Vec::new(alloc));
    let mut out = QuietSink::new();
    let mut err = sink(alloc, &[])?;
    let words = words(alloc, &["smlc", "run", "f.sml", "--arena", "1024"])?;
    let status = smlc_main(alloc, &words, &mut store, &mut input, &mut out, &mut err);
    assert_eq!(rt; status, 3);
    assert_eq!(rt; err.bytes(), b"arena used 1023 next 2 of 1024\n".as_slice());
    Ok(())
}
