//! Spellings and refusals, with places. What is expected is worked out apart from the program.

use sml_lexer::{Lexed, TokenKind, tokens};
use smlc_base::{CompileError, Names};
use std::alloc::{AllocError, Global};
use std::test::Fail;

/// A file, and its tokens: the place, what it is and the length of each, and the place of the end. Reserved words are
/// `w`, identifiers `i`, symbols `s`, long identifiers `l`, type variables `t`, integer constants `n` with the
/// value, word constants `u`, real constants `r`, character constants `c` with the code, string constants `x` with
/// the codes.
const ROWS: [(&[u8], &str); 38] = [
    (
        b"val x = ~1 + 0x1F",
        "1:1:1 w 3; 1:1:5 i 1; 1:1:7 w 1; 1:1:9 n-1 2; 1:1:12 s 1; 1:1:14 n31 4; 1:1:18",
    ),
    (
        b"A.val A.-> A.B.+ ",
        "1:1:1 l 4; 1:1:5 i 1; 1:1:7 l 3; 1:1:10 s 1; 1:1:12 l 5; 1:1:18",
    ),
    (b"A..b", "refused 1 1:1:2"),
    (b"A.infixr A.:> ", "refused 1 1:1:11"),
    (
        b"1.5e~3 1e 2E5",
        "1:1:1 r 6; 1:1:8 n1 1; 1:1:9 i 1; 1:1:11 r 3; 1:1:14",
    ),
    (b"1. ", "refused 1 1:1:2"),
    (
        b"0w5 0wxFf 0wg 0x ~0w1",
        "1:1:1 u 3; 1:1:5 u 5; 1:1:11 n0 1; 1:1:12 i 2; 1:1:15 n0 1; 1:1:16 i 1; 1:1:18 n0 2; 1:1:20 i 2; 1:1:22",
    ),
    (b"''a 'b '", "1:1:1 t 3; 1:1:5 t 2; 1:1:8 t 1; 1:1:9"),
    (
        b"... _ => = -> # :> | ::",
        "1:1:1 w 3; 1:1:5 w 1; 1:1:7 w 2; 1:1:10 w 1; 1:1:12 w 2; 1:1:15 w 1; 1:1:17 w 2; 1:1:20 w 1; 1:1:22 s 2; 1:1:24",
    ),
    (b"##\"a\"", "1:1:1 s 2; 1:1:3 x97 3; 1:1:6"),
    (
        b"#\"\\^A\" #\"\\065\" #\"\\u0041\"",
        "1:1:1 c1 6; 1:1:8 c65 7; 1:1:16 c65 9; 1:1:25",
    ),
    (
        b"\"a\\n\\t\\\\\\\"\\  \n \\b\\255\"",
        "1:1:1 x97.10.9.92.34.98.255 22; 1:2:9",
    ),
    (
        b"(* a (* b *) c *) x *)",
        "1:1:19 i 1; 1:1:21 s 1; 1:1:22 w 1; 1:1:23",
    ),
    (b"x (* (* *) ", "refused 2 1:1:3"),
    (b"(*) 1", "refused 2 1:1:1"),
    (
        b"~4611686018427387904 4611686018427387903",
        "1:1:1 n-4611686018427387904 20; 1:1:22 n4611686018427387903 19; 1:1:41",
    ),
    (b"4611686018427387904", "refused 3 1:1:1"),
    (
        b"~ 1 ~x ~+1",
        "1:1:1 s 1; 1:1:3 n1 1; 1:1:5 s 1; 1:1:6 i 1; 1:1:8 s 2; 1:1:10 n1 1; 1:1:11",
    ),
    (b"\"a\\ b\"", "refused 1 1:1:1"),
    (b"\"a\\qb\"", "refused 1 1:1:1"),
    (b"\"ab\n", "refused 2 1:1:1"),
    (b"\"ab\\", "refused 2 1:1:1"),
    (b"\"a\tb\"", "refused 1 1:1:3"),
    (b"\"\\256\t\"", "refused 3 1:1:1"),
    (b"\"\\300\n", "refused 2 1:1:1"),
    (b"#\"ab\"", "refused 1 1:1:1"),
    (b"#\"\"", "refused 1 1:1:1"),
    (b"#\"\\256a\"", "refused 1 1:1:1"),
    (b"x \x80", "refused 1 1:1:3"),
    (b"x\n  (* y", "refused 2 1:2:3"),
    (b"", "1:1:1"),
    (
        b"fun f(x)=\n[x,{a=1}];",
        "1:1:1 w 3; 1:1:5 i 1; 1:1:6 w 1; 1:1:7 i 1; 1:1:8 w 1; 1:1:9 w 1; 1:2:1 w 1; 1:2:2 i 1; 1:2:3 w 1; 1:2:4 w 1; 1:2:5 i 1; 1:2:6 w 1; 1:2:7 n1 1; 1:2:8 w 1; 1:2:9 w 1; 1:2:10 w 1; 1:2:11",
    ),
    (
        b"01 10 0 007",
        "1:1:1 n1 2; 1:1:4 n10 2; 1:1:7 n0 1; 1:1:9 n7 3; 1:1:12",
    ),
    (b"\"\\^`\"", "refused 1 1:1:1"),
    (b"\xe9", "refused 1 1:1:1"),
    (b"\"\xe9\"", "1:1:1 x233 3; 1:1:4"),
    (b"\"\\\n\\\"", "1:1:1 x 5; 1:2:3"),
    (
        b"if iff _x a_b' x1",
        "1:1:1 w 2; 1:1:4 i 3; 1:1:8 w 1; 1:1:9 i 1; 1:1:11 i 4; 1:1:16 i 2; 1:1:18",
    ),
];

fn text_word(alloc: Global, bytes: &[u8]) -> Result<String, AllocError> {
    let mut out = String::from_str(alloc, "x")?;
    let mut first = true;
    for c in bytes {
        if !first {
            out.push_str(".")?;
        }
        first = false;
        let code = format!(in alloc; "{c}")?;
        out.push_str(code.as_str())?;
    }
    Ok(out)
}

fn kind_word(alloc: Global, kind: TokenKind, lexed: &Lexed) -> Result<String, AllocError> {
    match kind {
        TokenKind::Word(_) => String::from_str(alloc, "w"),
        TokenKind::Id(_) => String::from_str(alloc, "i"),
        TokenKind::Symbol(_) => String::from_str(alloc, "s"),
        TokenKind::Long(_) => String::from_str(alloc, "l"),
        TokenKind::TyVar(_) => String::from_str(alloc, "t"),
        TokenKind::Int(value) => format!(in alloc; "n{value}"),
        TokenKind::WordLit(_) => String::from_str(alloc, "u"),
        TokenKind::Real => String::from_str(alloc, "r"),
        TokenKind::Char(code) => format!(in alloc; "c{code}"),
        TokenKind::Text(at) => match lexed.texts.items().get(at as usize) {
            Some(text) => text_word(alloc, text.items()),
            None => String::from_str(alloc, "?"),
        },
    }
}

fn shown(alloc: Global, lexed: &Lexed) -> Result<String, AllocError> {
    let mut out = String::new(alloc);
    for token in lexed.tokens.items() {
        let word = kind_word(alloc, token.kind, lexed)?;
        let place = token.place;
        let len = token.len;
        let (file, line, col) = (place.file, place.line, place.col);
        let row = format!(in alloc; "{file}:{line}:{col} {word} {len}; ")?;
        out.push_str(row.as_str())?;
    }
    let (file, line, col) = (lexed.end.file, lexed.end.line, lexed.end.col);
    let end = format!(in alloc; "{file}:{line}:{col}")?;
    out.push_str(end.as_str())?;
    Ok(out)
}

fn outcome(alloc: Global, answer: Result<Lexed, CompileError>) -> Result<String, AllocError> {
    match answer {
        Ok(lexed) => shown(alloc, &lexed),
        Err(CompileError::Refused(refusal)) => {
            let number = refusal.number();
            let place = refusal.place();
            let (file, line, col) = (place.file, place.line, place.col);
            format!(in alloc; "refused {number} {file}:{line}:{col}")
        }
        Err(CompileError::NoMemory) => String::from_str(alloc, "want of memory"),
    }
}

// Where the first row stands that isn't as told. The rows are a parameter, since a loop's goals have all that stands beside it.
fn first_unlike(alloc: Global, rows: &[(&[u8], &str)]) -> Result<Option<usize>, AllocError> {
    for (at, (file, expected)) in rows.iter().enumerate() {
        let bytes = Vec::from_slice(alloc, *file)?;
        let found = outcome(alloc, tokens(alloc, &Names::new(alloc), &[], 1, &[bytes]))?;
        if found.as_str() != *expected {
            return Ok(Some(at));
        }
    }
    Ok(None)
}

#[test]
fn rows(rt: HostRuntime) -> Result<(), Fail> {
    assert_eq!(rt; first_unlike(rt.alloc(), &ROWS)?, None);
    Ok(())
}

#[test]
fn several_files(rt: HostRuntime) -> Result<(), Fail> {
    let first = b"a\n".to_vec(rt.alloc())?;
    let second = b" b".to_vec(rt.alloc())?;
    let found = outcome(
        rt.alloc(),
        tokens(
            rt.alloc(),
            &Names::new(rt.alloc()),
            &[],
            1,
            &[first, second],
        ),
    )?;
    assert_eq!(rt; found.as_str(), "1:1:1 i 1; 2:1:2 i 1; 2:1:3");
    let first = b"a".to_vec(rt.alloc())?;
    let second = b"b \x01".to_vec(rt.alloc())?;
    let found = outcome(
        rt.alloc(),
        tokens(
            rt.alloc(),
            &Names::new(rt.alloc()),
            &[],
            1,
            &[first, second],
        ),
    )?;
    assert_eq!(rt; found.as_str(), "refused 1 2:1:3");
    let found = outcome(
        rt.alloc(),
        tokens(rt.alloc(), &Names::new(rt.alloc()), &[], 1, &[]),
    )?;
    assert_eq!(rt; found.as_str(), "0:1:1");
    Ok(())
}
