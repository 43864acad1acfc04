//! Rules one after the other.

ghost use Rattle.std.specs.Prelude.{◌≡◌, IfOk};
ghost use Rattle.contract_known.specs.Known.{place_of, made_at};
ghost use Rattle.contract_rules.specs.Rules.{rules_known, AreRulesLeft};

use contract_known::{Block, Left, tests_left};
use cps_ir::{Atom, Rule};
use smlc_base::{Bytes, NoMemory, Row};
use std::alloc::Global;

/// The rules that are left, with the numbers of their bodies in the argument, and that of the last body.
#[derive(Drop)]
pub struct RulesLeft {
    pub rules: Row<Rule>,
    pub otherwise: u32,
}

fn left_of_rules(
    alloc: Global,
    texts: &[Bytes],
    places: &[Atom],
    blocks: &[Option<Block>],
    root: u32,
    atom: Atom,
    rules: &[Rule],
    otherwise: u32,
) -> Result<RulesLeft, NoMemory>
    ensures { IfOk result (λ l. l ≡ rules_known texts.now (place_of places.now) (made_at blocks.now root) atom rules.now otherwise) }
{
    let mut left = Vec::new(alloc);
    for rule in rules {
        match tests_left(alloc, texts, places, blocks, root, atom, rule.tests.items())? {
            Left::Fails => {}
            Left::Remain(tests) => {
                if tests.is_empty() {
                    return Ok(RulesLeft {
                        rules: Row::from_vec(left),
                        otherwise: rule.body,
                    });
                }
                left.push(Rule {
                    tests,
                    body: rule.body,
                })?;
            }
        }
    }
    Ok(RulesLeft {
        rules: Row::from_vec(left),
        otherwise,
    })
}

/// What is left of the rules of a match of this atom of the answer, in the function whose body has the number `root`.
///
/// # Errors
///
/// Want of memory.
pub fn rules_left(
    alloc: Global,
    texts: &[Bytes],
    places: &[Atom],
    blocks: &[Option<Block>],
    root: u32,
    atom: Atom,
    rules: &[Rule],
    otherwise: u32,
) -> Result<RulesLeft, NoMemory>
    ensures is { IfOk result (λ l. l ≡ rules_known texts.now (place_of places.now) (made_at blocks.now root) atom rules.now otherwise) }
    ensures walk { IfOk result (λ l. AreRulesLeft texts.now (place_of places.now) (made_at blocks.now root) atom rules.now otherwise l) }
{
    left_of_rules(alloc, texts, places, blocks, root, atom, rules, otherwise)
}
