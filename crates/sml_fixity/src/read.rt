//! The nodes of a list of tokens.

ghost use Rattle.std.specs.Prelude.{◌≡◌, false, [], IfErr, IfOk};
ghost use Rattle.sml_syntax.specs.Grammar.{Parses};
ghost use Rattle.sml_syntax.specs.Machine.{start};
ghost use Rattle.sml_fixity.specs.declared.read.Stop.TheVariants.{NoMemory as WantOfMemory};
ghost use Rattle.sml_fixity.specs.Stops.{Stops};
ghost use Rattle.sml_fixity.specs.Terminals.{terminals};
ghost use Rattle.sml_fixity.specs.Turns.{stack_of};

use crate::scope::Scope;
use crate::terminals::terminal_of;
use crate::turns::{Machine, Turn, shift};
use sml_lexer::Token;
use sml_syntax::forms::{Made, Terminal};
use sml_syntax::symbol::Symbol;
use smlc_base::{Names, NoMemory};
use std::alloc::Global;

/// Why tokens are no program, and how many stand before the one that can't.
#[derive(Clone, Copy, Debug, PartialEq, Eq)]
pub enum Stop {
    /// The tokens before it begin a program, and with it they begin none.
    Syntax(usize),
    /// The same, between two operators that group in different ways.
    Mixed(usize),
    NoMemory,
}

impl From<NoMemory> for Stop {
    ghost from_gives = { λ _ e. e ≡ WantOfMemory };

    fn from(_e: NoMemory) -> Stop {
        Stop::NoMemory
    }
}

// The machine before the first token.
fn begin(alloc: Global, scope: Scope) -> Result<Machine, NoMemory>
    ensures { IfOk result (λ m. (stack_of m ≡ start) × (m.scope ≡ scope) × (m.nodes.items ≡ [])) }
{
    let mut stack = Vec::new(alloc);
    stack.push(Symbol::Eof)?;
    stack.push(Symbol::Program)?;
    Ok(Machine {
        stack,
        scope,
        nodes: Vec::new(alloc),
    })
}

/// The nodes of the program that the tokens are, each behind its parts.
pub fn read(alloc: Global, names: &Names, tokens: &[Token], scope: Scope) -> Result<Vec<Made>, Stop>
    ensures tree { IfOk result (λ nodes. Parses false scope (terminals names.now tokens.now) nodes.items) }
    ensures refused { IfErr result (λ e. Stops scope (terminals names.now tokens.now) e) }
{
    let mut machine = begin(alloc, scope)?;
    let count = tokens.len();
    for (i, token) in tokens.iter().enumerate() {
        match shift(&mut machine, terminal_of(names, *token), count + 1 - i)? {
            Turn::Shifted => {}
            Turn::Refused => return Err(Stop::Syntax(i)),
            Turn::Mixed => return Err(Stop::Mixed(i)),
        }
    }
    match shift(&mut machine, Terminal::Finish, 1)? {
        Turn::Shifted => Ok(machine.nodes),
        Turn::Refused => Err(Stop::Syntax(count)),
        Turn::Mixed => Err(Stop::Mixed(count)),
    }
}
