//! Words and what they ask.

use smlc_words::command;
use std::alloc::Global;
use std::test::Fail;

/// A line of words behind the program's name, with one space between two of them, and what they ask.
const COMMANDS: &[(&str, &str)] = &[
    (
        "compile f.sml -o f",
        "Some(Compile { files: [\"f.sml\"], out: \"f\", arena: None })",
    ),
    (
        "compile -o f --arena 1024 a b",
        "Some(Compile { files: [\"a\", \"b\"], out: \"f\", arena: Some(1024) })",
    ),
    (
        "compile a --arena 134217728 b -o f",
        "Some(Compile { files: [\"a\", \"b\"], out: \"f\", arena: Some(134217728) })",
    ),
    (
        "run f.sml",
        "Some(Run { files: [\"f.sml\"], arena: None, steps: None })",
    ),
    (
        "run --steps 4611686018427387904 b a",
        "Some(Run { files: [\"b\", \"a\"], arena: None, steps: Some(4611686018427387904) })",
    ),
    (
        "run a a --steps 00000000000000000000",
        "Some(Run { files: [\"a\", \"a\"], arena: None, steps: Some(0) })",
    ),
    (
        "run run",
        "Some(Run { files: [\"run\"], arena: None, steps: None })",
    ),
    (
        "meter a --stride 4294967296 --arena 02000 b --steps 7",
        "Some(Meter { files: [\"a\", \"b\"], arena: Some(2000), steps: Some(7), stride: Some(4294967296) })",
    ),
    (
        "exec f --steps 1",
        "Some(Exec { elf: \"f\", steps: Some(1) })",
    ),
    ("exec 7", "Some(Exec { elf: \"7\", steps: None })"),
    ("types f.sml", "Some(Types { files: [\"f.sml\"] })"),
    (
        "plan f.sml g.sml",
        "Some(Plan { files: [\"f.sml\", \"g.sml\"] })",
    ),
    (
        "gen 18446744073709551615 1",
        "Some(Gen { number: 18446744073709551615, size: 1 })",
    ),
    ("bench 0 10000", "Some(Bench { number: 0, size: 10000 })"),
];

/// Lines that ask nothing.
const NO_COMMANDS: &[&str] = &[
    // No command, and no file.
    "",
    "walk f.sml",
    "Run f.sml",
    "run",
    "types",
    "compile f.sml",
    "compile -o f",
    "exec",
    "exec f g",
    "gen 1",
    "gen 1 2 3",
    // No operand, and an option that isn't the command's.
    "run f.sml  g.sml",
    "run f.sml -g.sml",
    "run - f.sml",
    "run f.sml --arena=2048",
    "run f.sml -o f",
    "run f.sml --stride 1",
    "exec f --arena 2048",
    "plan f.sml --steps 1",
    "bench 1 2 --stride 1",
    // An option twice, without a value, or with a wrong one.
    "run --arena 2048 f.sml --arena 2048",
    "compile f.sml -o f -o f",
    "run f.sml --arena",
    "compile f.sml -o",
    "compile f.sml -o ",
    "compile f.sml -o -f",
    "compile f.sml -o --arena 2048",
    // No number, and a number out of its range.
    "run f.sml --steps +1",
    "run f.sml --steps -1",
    "run f.sml --steps 1_0",
    "run f.sml --steps 0x1",
    "run f.sml --steps ",
    "run f.sml --steps 000000000000000000001",
    "run f.sml --steps 4611686018427387905",
    "run f.sml --arena 1023",
    "run f.sml --arena 134217729",
    "meter f.sml --stride 0",
    "meter f.sml --stride 4294967297",
    "gen 18446744073709551616 1",
    "gen 99999999999999999999 1",
    "gen 1 0",
    "bench 1 10001",
];

/// The words of a line behind the program's name.
fn words(alloc: Global, line: &str) -> Result<Vec<String>, Fail> {
    let mut words = Vec::new(alloc);
    words.push("smlc".to_string(alloc)?)?;
    for word in line.split(' ') {
        words.push(word.to_string(alloc)?)?;
    }
    Ok(words)
}

#[test]
fn lines_of_words(rt: HostRuntime) -> Result<(), Fail> {
    let alloc = rt.alloc();
    for (line, asked) in COMMANDS {
        let words = words(alloc, line)?;
        let answer = command(alloc, &words)?;
        let text = format!(in alloc; "{answer:?}")?;
        assert_eq!(rt; text.as_str(), *asked, "of {line}");
    }
    for line in NO_COMMANDS {
        let words = words(alloc, line)?;
        assert!(rt; command(alloc, &words)?.is_none(), "of {line}");
    }
    Ok(())
}

#[test]
fn as_many_files_as_may_be(rt: HostRuntime) -> Result<(), Fail> {
    let alloc = rt.alloc();
    let name = ["smlc".to_string(alloc)?];
    assert!(rt; command(alloc, &name)?.is_none());
    let mut words = words(alloc, "run")?;
    for count in 1..258 {
        words.push("f.sml".to_string(alloc)?)?;
        assert_eq!(rt; command(alloc, &words)?.is_some(), count <= 256);
    }
    Ok(())
}
