//! The tree of a list of tokens.

ghost use Rattle.std.specs.Prelude.{◌≡◌, get_or, IfErr, IfOk};
ghost use Rattle.sml_fixity.specs.Parse.{Fails, IsParse, IsProgram, place_at as place_spec};
ghost use Rattle.sml_fixity.specs.Starting.{starting as starting_spec};
ghost use Rattle.sml_fixity.specs.Stops.{Stops};
ghost use Rattle.sml_fixity.specs.Terminals.{terminals};

use crate::banned::banned_at;
use crate::depth::{depths, too_deep};
use crate::nodes::{bare, roots, starts};
use crate::read::{Stop, read};
use crate::starting::starting;
use sml_lexer::Lexed;
use sml_syntax::forms::Made;
use sml_tree::Tree;
use smlc_base::{CompileError, Place, Refusal, Row};
use std::alloc::Global;

fn place_at(lexed: &Lexed, at: usize) -> Place
    ensures { result ≡ place_spec lexed.now at }
{
    let tokens = lexed.tokens.items();
    if at < tokens.len() {
        tokens[at].place
    } else {
        lexed.end
    }
}

fn refusal_of(lexed: &Lexed, stop: Stop) -> CompileError
    requires { Stops (starting_spec lexed.now.names) (terminals lexed.now.names lexed.now.tokens) stop }
    ensures { Fails lexed.now result }
{
    match stop {
        Stop::Syntax(at) => match banned_at(lexed.tokens.items(), at) {
            Some(form) => CompileError::Refused(Refusal::NotInSubset(place_at(lexed, at), form)),
            None => CompileError::Refused(Refusal::Syntax(place_at(lexed, at))),
        },
        Stop::Mixed(at) => CompileError::Refused(Refusal::MixedFixity(place_at(lexed, at))),
        Stop::NoMemory => CompileError::NoMemory,
    }
}

// The place of a declaration's first token.
fn dec_place(starts: &[Place], decs: &[u32], dec: usize, end: Place) -> Place
    ensures { result ≡ get_or starts.now (get_or decs.now dec 0) end }
{
    let root = if dec < decs.len() {
        decs[dec] as usize
    } else {
        0
    };
    if root < starts.len() {
        starts[root]
    } else {
        end
    }
}

// The tree of the nodes of a program.
fn finish(alloc: Global, lexed: Lexed, made: &[Made]) -> Result<Tree, CompileError>
    requires { IsProgram lexed made.now }
    ensures ok { IfOk result (λ tree. IsParse lexed tree) }
    ensures err { IfErr result (λ e. Fails lexed e) }
{
    let nodes = bare(alloc, made)?;
    let places = starts(alloc, lexed.tokens.items(), lexed.end, made)?;
    let decs = roots(alloc, &nodes)?;
    let depths = depths(alloc, &nodes)?;
    if let Some(dec) = too_deep(&depths) {
        let place = dec_place(&places, &decs, dec, lexed.end);
        return Err(CompileError::Refused(Refusal::TooDeep(place)));
    }
    Ok(Tree {
        nodes: Row::from_vec(nodes),
        places: Row::from_vec(places),
        decs: Row::from_vec(decs),
        names: lexed.names,
        texts: lexed.texts,
    })
}

/// The tree of the tokens, with their names and string constants, which are gone after a refusal.
///
/// Refused is the first token with which the tokens begin no program, or the end of the last file: with 5 where it
/// is an operator that groups otherwise than one before it, with 6 where it stands for a form outside the language,
/// else with 4. A program is refused with 8 at the first declaration of depth above 1,024.
pub fn parse(alloc: Global, lexed: Lexed) -> Result<Tree, CompileError>
    ensures ok { IfOk result (λ tree. IsParse lexed tree) }
    ensures err { IfErr result (λ e. Fails lexed e) }
{
    let scope = starting(alloc, &lexed.names)?;
    let made = match read(alloc, &lexed.names, lexed.tokens.items(), scope) {
        Ok(made) => made,
        Err(stop) => return Err(refusal_of(&lexed, stop)),
    };
    finish(alloc, lexed, &made)
}
