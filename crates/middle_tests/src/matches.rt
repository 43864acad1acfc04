//! The tests of some patterns, with ample memory.

ghost use Rattle.std.specs.Prelude.{◌≡◌, [], ◌∷◌, IfOk};
ghost use Rattle.sml_tree.specs.declared.bare.Con.TheVariants as con;
ghost use Rattle.middle_tests.specs.Patterns.{made_field, patterns};

use match_compile::compile_pattern;
use sml_tree::Node;
use sml_tree::bare::{Con, Field, Lab};
use sml_types::{ConRow, Equality, Tables, Ty, TypeName};
use smlc_base::{LibraryExn, Name, NoMemory, Row, RuleTests, Tag, Want};
use std::alloc::Global;
use std::test::Fail;

const A: Tag = Tag {
    number: 0,
    takes: false,
    other_takes: true,
    other_bare: true,
};

const B: Tag = Tag {
    number: 1,
    takes: true,
    other_takes: false,
    other_bare: true,
};

fn field(slot: u32, node: u32) -> Field
    ensures { result ≡ made_field slot node }
{
    Field {
        lab: Lab::Num(1),
        slot,
        node,
    }
}

fn pair(alloc: Global, first: Field, second: Field) -> Result<Row<Field>, NoMemory>
    ensures { IfOk result (λ r. r ≡ first ∷ second ∷ []) }
{
    Ok(Row::from_vec(Vec::from_array(alloc, [first, second])?))
}

// datatype t = A | B of t * int | C
fn constructor(number: u32, takes: bool) -> Con
    ensures { result ≡ con.Data 0 number takes }
{
    Con::Data {
        type_name: 0,
        number,
        takes,
    }
}

fn tables(alloc: Global) -> Result<Tables, NoMemory> {
    let row = |arg| ConRow {
        text: Row::new(alloc),
        arg,
    };
    let cons = [row(None), row(Some(Ty(0))), row(None)];
    let name = TypeName {
        text: Row::new(alloc),
        params: Row::new(alloc),
        eq: Equality::Parts,
        cons: Row::from_vec(Vec::from_array(alloc, cons)?),
    };
    Ok(Tables {
        names: Row::from_vec(Vec::from_array(alloc, [name])?),
    })
}

// B (x as B (y, _), ~3), F {2 = "..", 1 = n}, A, Match, #"c", ref (0 : int)
fn nodes(alloc: Global) -> Result<Row<Node>, NoMemory>
    ensures { IfOk result (λ r. r ≡ patterns) }
{
    let outer = pair(alloc, field(0, 2), field(1, 7))?;
    let inner = pair(alloc, field(0, 5), field(1, 6))?;
    let swapped = pair(alloc, field(1, 10), field(0, 11))?;
    let exception = Con::Exn {
        name: Name(7),
        takes: true,
    };
    let nodes = [
        Node::PatApp(constructor(1, true), 1),
        Node::PatRecord(outer),
        Node::PatAs(Name(0), 3),
        Node::PatApp(constructor(1, true), 4),
        Node::PatRecord(inner),
        Node::PatVar(Name(1)),
        Node::Wild,
        Node::PatInt(-3),
        Node::PatApp(exception, 9),
        Node::PatRecord(swapped),
        Node::PatText(4),
        Node::PatVar(Name(2)),
        Node::PatCon(constructor(0, false)),
        Node::PatCon(Con::Library(LibraryExn::MatchExn)),
        Node::PatChar(99),
        Node::PatApp(Con::Ref, 16),
        Node::PatTyped(17, 0),
        Node::PatInt(0),
    ];
    Ok(Row::from_vec(Vec::from_array(alloc, nodes)?))
}

// The tests of the pattern at this node.
fn compiled(alloc: Global, pat: u32) -> Result<RuleTests, NoMemory> {
    let row = nodes(alloc)?;
    let tables = tables(alloc)?;
    compile_pattern(alloc, row.items(), &tables, pat)
}

// The test of this number looks at the end of this way.
fn is_test(rule: &RuleTests, number: usize, way: &[u32], want: Want) -> bool {
    match rule.tests.items().get(number) {
        Some(test) => test.path.steps() == way && test.want == want,
        None => false,
    }
}

fn is_named(rule: &RuleTests, number: usize, way: &[u32], name: Name) -> bool {
    match rule.names.items().get(number) {
        Some(named) => named.path.steps() == way && named.name == name,
        None => false,
    }
}

fn counts(rule: &RuleTests, tests: usize, names: usize) -> bool {
    rule.tests.len() == tests && rule.names.len() == names
}

#[test]
fn patterns_become_tests(rt: HostRuntime) -> Result<(), Fail> {
    let alloc = rt.alloc();
    let deep = compiled(alloc, 0)?;
    assert!(rt; counts(&deep, 3, 2));
    assert!(rt; is_test(&deep, 0, &[], Want::Tag(B)));
    assert!(rt; is_test(&deep, 1, &[0, 0], Want::Tag(B)));
    assert!(rt; is_test(&deep, 2, &[0, 1], Want::Num(-3)));
    assert!(rt; is_named(&deep, 0, &[0, 0], Name(0)));
    assert!(rt; is_named(&deep, 1, &[0, 0, 0, 0], Name(1)));
    Ok(())
}

// Whether the pattern at this node has this test alone, and no name.
fn has_one(alloc: Global, pat: u32, way: &[u32], want: Want) -> Result<bool, NoMemory> {
    let rule = compiled(alloc, pat)?;
    Ok(counts(&rule, 1, 0) && is_test(&rule, 0, way, want))
}

#[test]
fn exceptions_are_wanted_by_name(rt: HostRuntime) -> Result<(), Fail> {
    let alloc = rt.alloc();
    let rule = compiled(alloc, 8)?;
    let applied = Want::Exn {
        name: Name(7),
        applied: true,
    };
    assert!(rt; counts(&rule, 2, 1));
    assert!(rt; is_test(&rule, 0, &[], applied));
    assert!(rt; is_test(&rule, 1, &[1, 1], Want::Text(4)));
    assert!(rt; is_named(&rule, 0, &[1, 0], Name(2)));
    Ok(())
}

#[test]
fn constants_are_wanted(rt: HostRuntime) -> Result<(), Fail> {
    let alloc = rt.alloc();
    let library = Want::Library {
        exn: LibraryExn::MatchExn,
        applied: false,
    };
    assert!(rt; has_one(alloc, 12, &[], Want::Tag(A))?);
    assert!(rt; has_one(alloc, 13, &[], library)?);
    assert!(rt; has_one(alloc, 14, &[], Want::Num(99))?);
    assert!(rt; has_one(alloc, 15, &[0], Want::Num(0))?);
    Ok(())
}
