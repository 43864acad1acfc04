//! What is written, and the names of variables.

ghost use Rattle.std.specs.Prelude.{◌≡◌, ◌++◌, [], OnOk, IfOk, map};
ghost use Rattle.type_text.specs.Text.{letters, in_order, label_text};
ghost use Rattle.type_text.specs.States.{state, begun, with_variable, with_bytes};

use indexmap::IndexSet;
use itoa::Buffer;
use sml_tree::bare::Lab;
use sml_types::TyVar;
use smlc_base::NoMemory;
use std::alloc::Global;
use std::marker::Model;

/// What was written, and which variables had a name.
#[derive(Drop)]
pub(crate) struct Written {
    /// The variables of the scheme that is shown.
    general: IndexSet<u32>,
    /// Those of them that were met in the line.
    own: IndexSet<u32>,
    /// The open variables that were met in all lines.
    open_ones: IndexSet<u32>,
    out: Vec<u8>,
}

impl Model for Written {
    ghost use Rattle.type_text.specs.States.{State, state};

    ghost Value = { State };

    ghost view = { λ w. state w.general.keys w.own.keys w.open_ones.keys w.out.items };
}

/// Writes the letters of the variable of a number, from 0.
#[tactic(auto, unfolding(crate::specs::Text::letters))]
fn write_letters(out: &mut Vec<u8>, number: usize) -> Result<(), NoMemory>
    ensures { OnOk result (out.new.items ≡ out.old.items ++ letters number) }
{
    out.push(b'a' + (number % 26) as u8)?;
    if number >= 26 {
        let mut buffer = Buffer::new();
        out.extend_from_slice(buffer.format(number / 26).as_bytes())?;
    }
    Ok(())
}

/// The numbers of the variables, without doubles.
fn numbers(alloc: Global, vars: &[TyVar]) -> Result<IndexSet<u32>, NoMemory>
    ensures { IfOk result (λ set. set.keys ≡ in_order (map (λ v. v.num) vars.now)) }
{
    let mut set = IndexSet::new(alloc);
    'vars: for var in vars {
        set.insert(var.num)?;
    }
    Ok(set)
}

impl Written {
    /// Nothing was written, and no variable has a name.
    pub(crate) fn new(alloc: Global) -> Written
        ensures { result ≡ state [] [] [] [] }
    {
        Written {
            general: IndexSet::new(alloc),
            own: IndexSet::new(alloc),
            open_ones: IndexSet::new(alloc),
            out: Vec::new(alloc),
        }
    }

    /// Begins the line of a scheme with these variables.
    pub(crate) fn begin(&mut self, alloc: Global, vars: &[TyVar]) -> Result<(), NoMemory>
        ensures { OnOk result (self.new ≡ begun self.old vars.now) }
    {
        self.general = numbers(alloc, vars)?;
        self.own = IndexSet::new(alloc);
        Ok(())
    }

    /// Writes bytes.
    pub(crate) fn bytes(&mut self, bytes: &[u8]) -> Result<(), NoMemory>
        ensures { OnOk result (self.new ≡ with_bytes self.old bytes.now) }
    {
        self.out.extend_from_slice(bytes)?;
        Ok(())
    }

    /// Writes a label.
    pub(crate) fn label(&mut self, lab: &Lab) -> Result<(), NoMemory>
        ensures { OnOk result (self.new ≡ with_bytes self.old (label_text lab.now)) }
    {
        match lab {
            Lab::Num(number) => {
                let mut buffer = Buffer::new();
                self.bytes(buffer.format(*number).as_bytes())
            }
            Lab::Text(text) => self.bytes(text.items()),
        }
    }

    /// Writes the name of a variable.
    pub(crate) fn variable(&mut self, var: TyVar) -> Result<(), NoMemory>
        ensures { OnOk result (self.new ≡ with_variable self.old var) }
    {
        if self.general.contains(&var.num) {
            let primes: &[u8] = if var.eq { b"''" } else { b"'" };
            self.out.extend_from_slice(primes)?;
            let (place, _) = self.own.insert_full(var.num)?;
            write_letters(&mut self.out, place)
        } else {
            self.out.extend_from_slice(b"'_")?;
            let (place, _) = self.open_ones.insert_full(var.num)?;
            write_letters(&mut self.out, place)
        }
    }

    /// What was written.
    pub(crate) fn into_bytes(self) -> Vec<u8>
        ensures { result.items ≡ self.out }
    {
        self.out
    }
}
