//! The machine at work: it takes one terminal at a time.

ghost use Rattle.std.specs.Prelude.{◌≡◌, ◌∷◌, List, IfOk, OnOk, reverse, length};
ghost use Rattle.sml_syntax.specs.declared.forms.Terminal.{Terminal as TheTerminal};
ghost use Rattle.sml_syntax.specs.Fixity.{Fix};
ghost use Rattle.sml_syntax.specs.Machine.{after, pushed};
ghost use Rattle.sml_fixity.specs.Turns.{Acts, HasCome, Shifts, stack_of, Stands};

use crate::scope::Scope;
use sml_syntax::forms::{Made, Terminal};
use sml_syntax::moves::move_at;
use sml_syntax::symbol::{Move, Push, Symbol};
use smlc_base::NoMemory;

/// The symbols that are still wanted, the last on top, the directives in force, and the nodes so far.
#[derive(Drop)]
pub struct Machine {
    pub stack: Vec<Symbol>,
    pub scope: Scope,
    pub nodes: Vec<Made>,
}

/// What a terminal makes of the machine.
#[derive(Clone, Copy, Debug, PartialEq, Eq)]
pub enum Turn {
    /// It is read.
    Shifted,
    /// Nothing goes on with it.
    Refused,
    /// Nothing does, since operators of one precedence associate in different ways.
    Mixed,
}

fn put(stack: &mut Vec<Symbol>, symbol: Symbol) -> Result<(), NoMemory>
    ensures { OnOk result (reverse stack.new.items ≡ symbol ∷ reverse stack.old.items) }
{
    stack.push(symbol)?;
    Ok(())
}

fn put_all(stack: &mut Vec<Symbol>, push: Push) -> Result<(), NoMemory>
    ensures { OnOk result (reverse stack.new.items ≡ pushed push (reverse stack.old.items)) }
{
    match push {
        Push::P0 => Ok(()),
        Push::P1(a) => put(stack, a),
        Push::P2(a, b) => {
            put(stack, b)?;
            put(stack, a)
        }
        Push::P3(a, b, c) => {
            put(stack, c)?;
            put(stack, b)?;
            put(stack, a)
        }
        Push::P4(a, b, c, d) => {
            put(stack, d)?;
            put(stack, c)?;
            put(stack, b)?;
            put(stack, a)
        }
        Push::P5(a, b, c, d, e) => {
            put(stack, e)?;
            put(stack, d)?;
            put(stack, c)?;
            put(stack, b)?;
            put(stack, a)
        }
        Push::P6(a, b, c, d, e, g) => {
            put(stack, g)?;
            put(stack, e)?;
            put(stack, d)?;
            put(stack, c)?;
            put(stack, b)?;
            put(stack, a)
        }
        Push::P7(a, b, c, d, e, g, h) => {
            put(stack, h)?;
            put(stack, g)?;
            put(stack, e)?;
            put(stack, d)?;
            put(stack, c)?;
            put(stack, b)?;
            put(stack, a)
        }
    }
}

fn redirect(scope: &mut Scope, symbol: Symbol, terminal: Terminal) -> Result<(), NoMemory>
    ensures { OnOk result (scope.new ≡ after symbol terminal scope.old) }
{
    match symbol {
        Symbol::Vids(status) => match terminal {
            Terminal::Id(name, _) => scope.direct(name, status),
            _ => Ok(()),
        },
        Symbol::LocalEnd(from, to) => scope.drop_between(from, to),
        Symbol::LetEnd(count) => {
            scope.cut(count);
            Ok(())
        }
        _ => Ok(()),
    }
}

// What the symbol does that stood on top, at a terminal that is the last but so many. None where the terminal is still to be taken.
fn act(
    machine: &mut Machine,
    symbol: Symbol,
    terminal: Terminal,
    left: usize,
) -> Result<Option<Turn>, NoMemory>
    ensures { IfOk result (λ w. (f : Fix) (r a : List TheTerminal) → left ≡ length (terminal ∷ a) → Stands f r (terminal ∷ a) (symbol ∷ stack_of machine.old) machine.old → Acts f r terminal a (symbol ∷ stack_of machine.old) w machine.new) }
{
    if let Symbol::Emit(node) = symbol {
        machine.nodes.push(node)?;
        return Ok(None);
    }
    let look = machine.scope.look(terminal);
    match move_at(
        symbol,
        machine.scope.has_infix(),
        machine.scope.len(),
        left,
        look,
    ) {
        Move::Refuse => Ok(Some(Turn::Refused)),
        Move::Mixed => Ok(Some(Turn::Mixed)),
        Move::Skip(push) => {
            put_all(&mut machine.stack, push)?;
            Ok(None)
        }
        Move::Eat(push) => {
            redirect(&mut machine.scope, symbol, terminal)?;
            put_all(&mut machine.stack, push)?;
            Ok(Some(Turn::Shifted))
        }
    }
}

/// Takes a terminal, the last but so many, where the program can go on with it.
pub fn shift(machine: &mut Machine, terminal: Terminal, left: usize) -> Result<Turn, NoMemory>
    requires { HasCome terminal left machine.old }
    ensures { IfOk result (λ w. (f : Fix) (r a : List TheTerminal) → left ≡ length (terminal ∷ a) → Stands f r (terminal ∷ a) (stack_of machine.old) machine.old → Shifts f r terminal a w machine.new) }
{
    while let Some(symbol) = machine.stack.pop() {
        match act(machine, symbol, terminal, left)? {
            None => {}
            Some(turn) => return Ok(turn),
        }
    }
    Ok(Turn::Refused)
}
