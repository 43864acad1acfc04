//! Programs and refusals, with places. What is expected is worked out apart from the program.

use sml_fixity::parse;
use sml_lexer::tokens;
use smlc_base::{CompileError, Names, Refusal};
use std::alloc::{AllocError, Global};
use std::test::Fail;

/// A file, and what comes of it: how many declarations and nodes there are, or the refusal and its line and column.
const ROWS: [(&[u8], &str); 30] = [
    (b"", "decs 0 nodes 0"),
    (b"val x = 1", "decs 1 nodes 5"),
    (b";;val x = 1;val y = x + 2;", "decs 2 nodes 13"),
    (
        b"infix 5 **\ninfixr 5 ++\nval x = 1 ** 2 ++ 3",
        "refused 5 MixedFixity 3:16",
    ),
    (
        b"structure S = struct end",
        "refused 6 NotInSubset structure 1:1",
    ),
    (b"val = 1", "refused 4 Syntax 1:5"),
    (b"val x = ", "refused 4 Syntax 1:9"),
    (
        b"datatype t = datatype u",
        "refused 6 NotInSubset datatype 1:14",
    ),
    (b"datatype 'a t = datatype u", "refused 4 Syntax 1:17"),
    (b"val x = 1.5", "refused 6 NotInSubset real 1:9"),
    (b"val x = 0w1", "refused 6 NotInSubset word 1:9"),
    (b"val {a, ...} = x", "refused 6 NotInSubset ... 1:9"),
    (b"val f = #a", "refused 6 NotInSubset # 1:9"),
    (
        b"val x = let infix f in 1 f 2 end val y = 1 f 2",
        "decs 2 nodes 22",
    ),
    (b"local infix f in end val y = 1 f 2 f", "decs 2 nodes 17"),
    (
        b"local in infix f end val y = 1 f 2 f",
        "refused 4 Syntax 1:37",
    ),
    (b"val _ = 1 :: 2 @ 3 + 4 * 5 - 6", "decs 1 nodes 20"),
    (b"val _ = 1 < 2 = 3", "decs 1 nodes 11"),
    (b"val _ = 1 :: 2 before 3", "decs 1 nodes 11"),
    (
        b"infix 5 **; val _ = 1 ** 2 :: 3",
        "refused 5 MixedFixity 1:28",
    ),
    (
        b"fun f 0 = case 1 of 1 => 2 | f 1 = 3",
        "refused 4 Syntax 1:34",
    ),
    (b"nonfix +; val _ = 1 + 2", "decs 2 nodes 11"),
    (
        b"nonfix * / div mod + - ^ :: @ <> > >= < <= := o before fun 5",
        "refused 4 Syntax 1:60",
    ),
    (b"fun 5", "refused 4 Syntax 1:6"),
    (b"infix =", "refused 4 Syntax 1:7"),
    (b"type t = a * b", "decs 1 nodes 7"),
    (b"type t = A.*", "refused 4 Syntax 1:10"),
    (b"val {01 = x} = y", "refused 4 Syntax 1:6"),
    (b"val {1 = x, y, z : t as 1} = y", "decs 1 nodes 16"),
    (b"val x :: y as z = 1", "refused 4 Syntax 1:12"),
];

fn outcome(alloc: Global, file: &[u8]) -> Result<String, AllocError> {
    let bytes = file.to_vec(alloc)?;
    let lexed = match tokens(alloc, &Names::new(alloc), &[], 1, &[bytes]) {
        Ok(lexed) => lexed,
        Err(_) => return String::from_str(alloc, "no tokens"),
    };
    match parse(alloc, lexed) {
        Ok(tree) => {
            let (decs, nodes) = (tree.decs.len(), tree.nodes.len());
            format!(in alloc; "decs {decs} nodes {nodes}")
        }
        Err(CompileError::Refused(Refusal::NotInSubset(place, form))) => {
            let (line, col, word) = (place.line, place.col, form.word());
            format!(in alloc; "refused 6 NotInSubset {word} {line}:{col}")
        }
        Err(CompileError::Refused(refusal)) => {
            let place = refusal.place();
            let (number, kind) = (refusal.number(), refusal.kind());
            let (line, col) = (place.line, place.col);
            format!(in alloc; "refused {number} {kind} {line}:{col}")
        }
        Err(CompileError::NoMemory) => String::from_str(alloc, "want of memory"),
    }
}

#[test]
fn rows(rt: HostRuntime) -> Result<(), Fail> {
    for (file, expected) in ROWS.iter() {
        let found = outcome(rt.alloc(), *file)?;
        assert_eq!(rt; found.as_str(), *expected);
    }
    Ok(())
}

// A declaration with so many parentheses round a constant.
fn nested(alloc: Global, count: usize) -> Result<Vec<u8>, AllocError> {
    let mut file = b"val _ = ".to_vec(alloc)?;
    for _ in 0..count {
        file.push(b'(')?;
    }
    file.push(b'0')?;
    for _ in 0..count {
        file.push(b')')?;
    }
    Ok(file)
}

#[test]
fn depths(rt: HostRuntime) -> Result<(), Fail> {
    let file = nested(rt.alloc(), 1022)?;
    let found = outcome(rt.alloc(), &file)?;
    assert_eq!(rt; found.as_str(), "decs 1 nodes 1027");
    let file = nested(rt.alloc(), 1023)?;
    let found = outcome(rt.alloc(), &file)?;
    assert_eq!(rt; found.as_str(), "refused 8 TooDeep 1:1");
    Ok(())
}
