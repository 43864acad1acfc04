//! What an expansion makes beside nodes.

ghost use Rattle.std.specs.Prelude.{◌≡◌, ◌∷◌, [], IfOk, ◌==◌, ◌&&◌, slice_index, if◌then◌else◌};
ghost use Rattle.sml_expansion.specs.Makings.{nothing_made, Runs, breaks, new_name, new_names, new_type, new_tyvar, new_type_name, new_abbreviation};

use crate::number::{next, number};
use crate::refusals::keep;
use sml_tree::bare::TypeExp;
use smlc_base::{Bytes, NoMemory, Refusal, Row};
use std::alloc::Global;

/// The spellings of the bindings, the types as they are written, and for each type variable whether it admits equality alone, all by number; the numbers of the next type name and of the next `type` binding; and the least of the rules that are broken.
#[derive(Drop)]
pub struct Made {
    pub names: Row<Bytes>,
    pub types: Row<TypeExp>,
    pub tyvars: Row<bool>,
    pub type_names: u32,
    pub abbreviations: u32,
    pub refusal: Option<Refusal>,
}

/// After want of memory nothing is claimed of what was made.
impl Made {
    /// Nothing is made.
    pub fn new(alloc: Global) -> Made
        ensures { result ≡ nothing_made }
    {
        Made {
            names: Row::new(alloc),
            types: Row::new(alloc),
            tyvars: Row::new(alloc),
            type_names: 10,
            abbreviations: 0,
            refusal: None,
        }
    }

    /// Where it takes its memory.
    pub fn allocator(&self) -> Global {
        self.names.allocator()
    }

    /// A new binding with this spelling.
    pub fn new_name(&mut self, text: &[u8]) -> Result<u32, NoMemory>
        ensures { IfOk result (λ name. Runs (new_name text.now) self.old name self.new) }
    {
        let name = number(self.names.len())?;
        let copy = Vec::from_slice(self.names.allocator(), text)?;
        self.names.push(Row::from_vec(copy))?;
        Ok(name)
    }

    /// So many new bindings with one spelling.
    pub fn new_names(&mut self, text: &[u8], count: u32) -> Result<Vec<u32>, NoMemory>
        ensures { IfOk result (λ names. Runs (new_names text.now count) self.old names.items self.new) }
    {
        let mut names = Vec::new(self.allocator());
        for _ in 0..count {
            names.push(self.new_name(text)?)?;
        }
        Ok(names)
    }

    /// A type as it is written.
    pub fn new_type(&mut self, ty: TypeExp) -> Result<u32, NoMemory>
        ensures { IfOk result (λ number. Runs (new_type ty) self.old number self.new) }
    {
        let at = number(self.types.len())?;
        self.types.push(ty)?;
        Ok(at)
    }

    /// A new type variable with this spelling.
    pub fn new_tyvar(&mut self, text: &[u8]) -> Result<u32, NoMemory>
        ensures { IfOk result (λ number. Runs (new_tyvar text.now) self.old number self.new) }
    {
        let at = number(self.tyvars.len())?;
        self.tyvars.push(admits_equality_alone(text))?;
        Ok(at)
    }

    /// A new type name.
    pub fn new_type_name(&mut self) -> Result<u32, NoMemory>
        ensures { IfOk result (λ number. Runs new_type_name self.old number self.new) }
    {
        let at = self.type_names;
        self.type_names = next(at)?;
        Ok(at)
    }

    /// A new `type` binding.
    pub fn new_abbreviation(&mut self) -> Result<u32, NoMemory>
        ensures { IfOk result (λ number. Runs new_abbreviation self.old number self.new) }
    {
        let at = self.abbreviations;
        self.abbreviations = next(at)?;
        Ok(at)
    }

    /// A rule is broken.
    pub fn refuse(&mut self, refusal: Refusal)
        ensures { Runs (breaks (refusal ∷ [])) self.old tt self.new }
    {
        self.refusal = keep(self.refusal, refusal);
    }

    /// A rule is broken, if it is.
    pub fn refuse_if(&mut self, broken: bool, refusal: Refusal)
        ensures { Runs (breaks (if broken then refusal ∷ [] else [])) self.old tt self.new }
    {
        if broken {
            self.refuse(refusal);
        }
    }
}

/// Whether a type variable begins with two primes.
fn admits_equality_alone(text: &[u8]) -> bool
    ensures { result ≡ (slice_index text.now 0 == 39 && slice_index text.now 1 == 39) }
{
    match text {
        [first, second, ..] => *first == b'\'' && *second == b'\'',
        _ => false,
    }
}
