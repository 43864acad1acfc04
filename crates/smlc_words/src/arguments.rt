//! The words behind the command: operands and options.

ghost use Rattle.std.specs.Prelude.{◌≡◌, ◌↔◌, ◌<◌, ℕ, length, map, string_bytes, IsTrue, IsFalse, IsSome, IfOk, IfSome, IfNone};
ghost use Rattle.smlc_words.specs.Given.{Given, nothing, Takes, IsGiven};
ghost use Rattle.smlc_words.specs.Arguments.{given};

use crate::flag::{Flag, option_of};
use crate::value::{is_operand, number};
use smlc_base::NoMemory;
use std::alloc::Global;

/// The operands in order, and the value of each option that was given.
#[derive(Drop)]
pub struct Arguments<'a> {
    pub operands: Vec<&'a str>,
    pub out: Option<&'a str>,
    pub arena: Option<u64>,
    pub steps: Option<u64>,
    pub stride: Option<u64>,
}

/// Sets what isn't set, if there is a value, and answers whether it did.
fn set_once<T: Copy>(option: &mut Option<T>, value: Option<T>) -> bool
    ensures set { IsTrue result → (option.old ≡ None) × IsSome value × (option.new ≡ value) }
    ensures refused { IsFalse result → (option.old ≡ None) × IsSome value → ⊥ }
    ensures kept { IsFalse result → option.new ≡ option.old }
{
    if option.is_some() || value.is_none() {
        return false;
    }
    *option = value;
    true
}

impl<'a> Arguments<'a> {
    /// Nothing was given.
    fn new(alloc: Global) -> Arguments<'a>
        ensures { given result ≡ nothing }
    {
        Arguments {
            operands: Vec::new(alloc),
            out: None,
            arena: None,
            steps: None,
            stride: None,
        }
    }

    /// Sets the option, and answers whether it did: it wasn't given before, and has this value.
    fn set(&mut self, flag: Flag, word: &'a str) -> bool
        ensures set { IsTrue result → Takes flag word.now (given self.old) (given self.new) }
        ensures refused { IsFalse result → (then : Given) → Takes flag word.now (given self.old) then → ⊥ }
        ensures kept { IsFalse result → given self.new ≡ given self.old }
    {
        match flag {
            Flag::Out => set_once(&mut self.out, Some(word).filter(|word| is_operand(word))),
            Flag::Arena => set_once(&mut self.arena, number(word, 1024, 134_217_728)),
            Flag::Steps => set_once(&mut self.steps, number(word, 0, 1 << 62)),
            Flag::Stride => set_once(&mut self.stride, number(word, 1, 1 << 32)),
        }
    }

    /// Takes the next operand, or the next option with its value, and answers the words behind it. None says that what was given
    /// so far goes on by none of them.
    fn take(&mut self, words: &'a [String]) -> Result<Option<&'a [String]>, NoMemory>
        ensures some { IfOk result (λ o. IfSome o (λ rest. (whole : Given) → IsGiven whole (given self.old) (map string_bytes words.now) ↔ IsGiven whole (given self.new) (map string_bytes rest.now))) }
        ensures less { IfOk result (λ o. IfSome o (λ rest. length rest.now < length words.now)) }
        ensures none { 0 < length words.now → IfOk result (λ o. IfNone o ((whole : Given) → IsGiven whole (given self.old) (map string_bytes words.now) → ⊥)) }
    {
        let [word, rest @ ..] = words else {
            return Ok(None);
        };
        let word = word.as_str();
        match option_of(word) {
            Some(flag) => {
                let [value, rest @ ..] = rest else {
                    return Ok(None);
                };
                if self.set(flag, value) {
                    Ok(Some(rest))
                } else {
                    Ok(None)
                }
            }
            None if is_operand(word) => {
                self.operands.push(word)?;
                Ok(Some(rest))
            }
            None => Ok(None),
        }
    }

    /// What the words give, or None where they give nothing.
    pub fn read(alloc: Global, words: &'a [String]) -> Result<Option<Arguments<'a>>, NoMemory>
        ensures some { IfOk result (λ o. IfSome o (λ a. IsGiven (given a) nothing (map string_bytes words.now))) }
        ensures none { IfOk result (λ o. IfNone o ((whole : Given) → IsGiven whole nothing (map string_bytes words.now) → ⊥)) }
    {
        let mut arguments = Arguments::new(alloc);
        let mut rest = words;
        while !rest.is_empty() {
            match arguments.take(rest) {
                Ok(Some(after)) => rest = after,
                Ok(None) => return Ok(None),
                Err(failed) => return Err(failed),
            }
        }
        Ok(Some(arguments))
    }
}
