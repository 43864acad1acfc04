//! The tokens of a list of files.

ghost use Rattle.std.specs.Prelude.{◌≡◌, ◌≤◌, ◌<◌, ◌+◌, ◌^◌, [], length, take, map, MatchOption, IfOk, IfErr};
ghost use Rattle.sml_lexer.specs.Files.{total, limit};
ghost use Rattle.sml_lexer.specs.Programs.{IsLexed, IsRefused};

use crate::draft::{Draft, file_tokens};
use crate::lexed::Lexed;
use smlc_base::{Bytes, CompileError, Name, Names, NoMemory, Place, Refusal, Row};
use std::alloc::Global;

/// The most bytes that the files may have in all.
const LIMIT: u64 = 1048576;

/// The file with which the files pass the limit, if they do.
fn too_long(files: &[Vec<u8>]) -> Option<usize>
    ensures { MatchOption result
        (total (map (λ f. f.items) files.now) ≤ limit)
        (λ i. (i < length files.now) × (total (map (λ f. f.items) (take i files.now)) ≤ limit) × (limit < total (map (λ f. f.items) (take (i + 1) files.now)))) }
{
    let mut total = 0u64;
    for (i, file) in files.iter().enumerate() {
        total += file.len() as u64;
        if total > LIMIT {
            return Some(i);
        }
    }
    None
}

/// There is no memory for more names and texts than so many before those of the files.
const MOST: usize = 1_073_741_824;

/// A copy of names.
fn copied_names(alloc: Global, names: &Names) -> Result<Names, NoMemory>
    requires { length names.now ≤ 1073741824 }
    ensures { IfOk result (λ copy. copy ≡ names.now) }
{
    let mut copy = Names::new(alloc);
    for i in 0..names.len() {
        copy.add(names.text(Name(i as u32)))?;
    }
    Ok(copy)
}

/// A copy of texts.
fn copied_texts(alloc: Global, texts: &[Bytes]) -> Result<Vec<Bytes>, NoMemory>
    ensures { IfOk result (λ copy. copy.items ≡ texts.now) }
{
    let mut copy = Vec::new(alloc);
    for text in texts {
        copy.push(Row::from_vec(Vec::from_slice(alloc, text.items())?))?;
    }
    Ok(copy)
}

/// What stands before the first file.
fn begun(alloc: Global, names: &Names, texts: &[Bytes]) -> Result<Draft, NoMemory>
    ensures tokens { IfOk result (λ draft. draft.tokens.items ≡ []) }
    ensures names { IfOk result (λ draft. (draft.names ≡ names.now) × (length draft.names ≤ 1073741824)) }
    ensures texts { IfOk result (λ draft. (draft.texts.items ≡ texts.now) × (length draft.texts.items ≤ 1073741824)) }
{
    if names.len() > MOST || texts.len() > MOST {
        return Err(NoMemory);
    }
    let names = copied_names(alloc, names)?;
    let texts = copied_texts(alloc, texts)?;
    Ok(Draft {
        tokens: Vec::new(alloc),
        names,
        texts,
    })
}

/// The tokens of the files in order, each file lexed by itself. Files are numbered from `first`, and their names and texts stand behind those that are given.
///
/// Refused are files of more than 1,048,576 bytes in all, and then the first place at which no token stands, a
/// comment or constant is open, or an integer constant or an escape is out of its range.
pub fn tokens(
    alloc: Global,
    names: &Names,
    texts: &[Bytes],
    first: u32,
    files: &[Vec<u8>],
) -> Result<Lexed, CompileError>
    requires { length files.now + first < 2 ^ 32 }
    ensures ok { IfOk result (λ lexed. IsLexed names.now texts.now first (map (λ f. f.items) files.now) lexed) }
    ensures err { IfErr result (λ e. IsRefused first (map (λ f. f.items) files.now) e) }
{
    match too_long(files) {
        Some(i) => {
            let place = Place {
                file: i as u32 + first,
                line: 1,
                col: 1,
            };
            return Err(CompileError::Refused(Refusal::TooLong(place)));
        }
        None => {}
    }
    let mut draft = begun(alloc, names, texts)?;
    let mut end = Place {
        file: 0,
        line: 1,
        col: 1,
    };
    for (i, file) in files.iter().enumerate() {
        match file_tokens(alloc, i as u32 + first, file.as_slice(), &mut draft) {
            Ok(place) => end = place,
            Err(e) => return Err(e),
        }
    }
    let Draft {
        tokens,
        names,
        texts,
    } = draft;
    let _distinct = names.len();
    Ok(Lexed {
        tokens: Row::from_vec(tokens),
        names,
        texts: Row::from_vec(texts),
        end,
    })
}
