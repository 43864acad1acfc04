//! The tokens of the files so far.

ghost use Rattle.std.specs.Prelude.{◌≡◌, ◌≤◌, ◌<◌, ◌+◌, ◌^◌, length, vec_len, OnOk, IfErr, IfOk};
ghost use Rattle.sml_lexer.specs.Shown.{Extends};
ghost use Rattle.sml_lexer.specs.Drafts.{AddsToken, IsFileOk, IsFileErr, refusal_of};

use crate::bytes::{front, rest};
use crate::integer::is_numeral;
use crate::place::advance;
use crate::step::{Kind, Spot, Step, Trouble, step_at};
use crate::store::stored;
use crate::token::Token;
use smlc_base::{Bytes, CompileError, Names, NoMemory, Place, Refusal};
use std::alloc::Global;

/// Tokens, with the names and texts that they cite.
#[derive(Drop)]
pub struct Draft {
    pub tokens: Vec<Token>,
    pub names: Names,
    pub texts: Vec<Bytes>,
}

/// Adds a token with this spelling.
fn push_token(
    draft: &mut Draft,
    kind: Kind,
    place: Place,
    at: u32,
    text: &[u8],
) -> Result<(), NoMemory>
    requires names { length draft.old.names < 2 ^ 32 }
    requires texts { vec_len draft.old.texts < 2 ^ 32 }
    requires text { length text.now < 2 ^ 32 }
    ensures ok { OnOk result (AddsToken draft.old draft.new kind place at text.now) }
    ensures names { Extends draft.old.names draft.new.names }
    ensures texts { Extends draft.old.texts.items draft.new.texts.items }
    ensures token_count { vec_len draft.new.tokens ≤ vec_len draft.old.tokens + 1 }
    ensures name_count { length draft.new.names ≤ length draft.old.names + 1 }
    ensures text_count { vec_len draft.new.texts ≤ vec_len draft.old.texts + 1 }
{
    let numeral = is_numeral(text);
    let len = text.len() as u32;
    let kind = stored(kind, text, &mut draft.names, &mut draft.texts)?;
    draft.tokens.push(Token {
        kind,
        place,
        at,
        len,
        numeral,
    })?;
    Ok(())
}

fn refusal(trouble: Trouble, place: Place) -> Refusal
    ensures { result ≡ refusal_of trouble place }
{
    match trouble {
        Trouble::BadToken => Refusal::BadToken(place),
        Trouble::Unclosed => Refusal::Unclosed(place),
        Trouble::LiteralRange => Refusal::LiteralRange(place),
    }
}

/// Adds the tokens of a file, and answers the place behind its last byte.
pub fn file_tokens(
    alloc: Global,
    file: u32,
    bytes: &[u8],
    draft: &mut Draft,
) -> Result<Place, CompileError>
    requires tokens { vec_len draft.old.tokens + length bytes.now ≤ 1048576 }
    requires names { length draft.old.names + length bytes.now ≤ 1074790400 }
    requires texts { vec_len draft.old.texts + length bytes.now ≤ 1074790400 }
    ensures ok { IfOk result (λ end. IsFileOk file bytes.now draft.old draft.new end) }
    ensures err { IfErr result (λ e. IsFileErr file bytes.now e) }
    ensures names { Extends draft.old.names draft.new.names }
    ensures texts { Extends draft.old.texts.items draft.new.texts.items }
    ensures token_count { vec_len draft.new.tokens ≤ vec_len draft.old.tokens + length bytes.now }
    ensures name_count { length draft.new.names ≤ length draft.old.names + length bytes.now }
    ensures text_count { vec_len draft.new.texts ≤ vec_len draft.old.texts + length bytes.now }
{
    let mut at = 0usize;
    let mut place = Place {
        file,
        line: 1,
        col: 1,
    };
    'steps: while at < bytes.len() {
        let left = rest(bytes, at);
        match step_at(alloc, left)? {
            Step::Gap { len } => {
                place = advance(place, front(left, len));
                at += len;
            }
            Step::Token { len, kind } => {
                let text = front(left, len);
                push_token(draft, kind, place, at as u32, text)?;
                place = advance(place, text);
                at += len;
            }
            Step::Fault(Spot { back, trouble }) => {
                let place = advance(place, front(left, back));
                return Err(CompileError::Refused(refusal(trouble, place)));
            }
        }
    }
    Ok(place)
}
