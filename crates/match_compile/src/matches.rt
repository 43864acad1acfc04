//! The tests of a match, rule by rule.

ghost use Rattle.std.specs.Prelude.{◌≡◌, IfOk, map};
ghost use Rattle.sml_tree.specs.BareParts.{IsNumbered};
ghost use Rattle.sml_tree.specs.IsBare.{IsBare};
ghost use Rattle.match_laws.specs.Compile.{rule_of};
ghost use Rattle.match_compile.specs.Contract.{AreTestsOf};

use crate::compile::compile_pattern;
use sml_tree::Bare;
use sml_tree::bare::Node;
use sml_types::Tables;
use smlc_base::{NoMemory, Row, Tests};
use std::alloc::Global;

// The tests of the patterns at these nodes.
fn rule_tests(
    alloc: Global,
    nodes: &[Node],
    tables: &Tables,
    rules: &[u32],
) -> Result<Tests, NoMemory>
    requires { IsNumbered nodes.now }
    ensures { IfOk result (λ r. r ≡ map (rule_of tables.now.names nodes.now) rules.now) }
{
    let mut found = Row::new(alloc);
    for rule in rules {
        found.push(compile_pattern(alloc, nodes, tables, *rule)?)?;
    }
    Ok(found)
}

/// The tests of a match whose rules have the patterns at these nodes. For each value of the match's type the rule that they choose is the first whose pattern matches, with that pattern's bindings, and none where none matches (The Definition of Standard ML (Revised), rules 13, 14 and 31 to 45). The flags of the tags are those of the tables.
///
/// # Errors
///
/// Want of memory.
pub fn compile_match(
    alloc: Global,
    bare: &Bare,
    rules: &[u32],
    tables: &Tables,
) -> Result<Tests, NoMemory>
    requires { IsBare bare.now }
    ensures { IfOk result (AreTestsOf bare.now tables.now.names rules.now) }
{
    let tests = rule_tests(alloc, bare.nodes.items(), tables, rules)?;
    Ok(tests)
}
