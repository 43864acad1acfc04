//! A function of which 24 values live at once, with ample memory.

ghost use Rattle.std.specs.Prelude.{◌≡◌, [], IfOk};
ghost use Rattle.closure_ir.specs.declared.operand.Operand.TheVariants as operand;
ghost use Rattle.place_tests.specs.Wide as wide;

use closure_ir::{
    Bind, Body, Closed, End, Function, Maker, Operand, Rule, Shape, Target, Test, Wanted,
};
use placed_ir::{Home, Placed, Step};
use reg_spill::place;
use smlc_base::{NoMemory, Path, Point, PointKind, Row};
use std::alloc::Global;
use std::test::Fail;

const VALUES: u32 = 22;

fn read(alloc: Global, var: u32) -> Operand
    ensures { result ≡ operand.Path var [] }
{
    Operand::Path {
        var,
        steps: Path::new(alloc),
    }
}

// Variables from 3 on are bound, and a tuple has them all.
fn steps(alloc: Global) -> Result<Row<Bind>, NoMemory>
    ensures { IfOk result (λ r. r ≡ wide.steps) }
{
    let mut binds = Row::new(alloc);
    let mut fields = Row::new(alloc);
    for i in 0..VALUES {
        binds.push(Bind::Let {
            var: i + 3,
            value: Operand::Literal(0),
        })?;
        fields.push(read(alloc, i + 3))?;
    }
    let tuple = Maker {
        var: 25,
        shape: Shape::Tuple,
        fields,
    };
    binds.push(Bind::Make(Row::from_vec(Vec::from_array(alloc, [tuple])?)))?;
    Ok(binds)
}

// Where the argument is 0 the tuple is handed on, and else the argument.
fn choice(alloc: Global) -> Result<End, NoMemory>
    ensures { IfOk result (λ e. e ≡ wide.choice) }
{
    let test = Test {
        path: Path::new(alloc),
        want: Wanted::Num(0),
    };
    let tests = Row::from_vec(Vec::from_array(alloc, [test])?);
    let rules = Row::from_vec(Vec::from_array(alloc, [Rule { tests, body: 2 }])?);
    Ok(End::Match {
        subject: read(alloc, 1),
        rules,
        otherwise: 3,
    })
}

fn hands_on(alloc: Global, var: u32) -> Result<Body, NoMemory>
    ensures { IfOk result (λ b. b ≡ wide.handed var) }
{
    let operands = Row::from_vec(Vec::from_array(alloc, [read(alloc, var)])?);
    Ok(Body {
        binds: Row::new(alloc),
        end: End::Call {
            target: Target::Through,
            function: read(alloc, 2),
            operands,
        },
    })
}

fn bodies(alloc: Global) -> Result<Row<Body>, NoMemory>
    ensures { IfOk result (λ r. r ≡ wide.bodies) }
{
    let mut all = Row::new(alloc);
    all.push(Body {
        binds: Row::new(alloc),
        end: End::Halt,
    })?;
    all.push(Body {
        binds: steps(alloc)?,
        end: choice(alloc)?,
    })?;
    all.push(hands_on(alloc, 25)?)?;
    all.push(hands_on(alloc, 1)?)?;
    Ok(all)
}

fn program(alloc: Global) -> Result<Closed, NoMemory> {
    let params = Row::from_vec(Vec::from_array(alloc, [0, 1, 2])?);
    let function = Function { params, body: 1 };
    let point = Point {
        node: 0,
        kind: PointKind::Fn,
    };
    let bodies = bodies(alloc)?;
    let functions = Row::from_vec(Vec::from_array(alloc, [function])?);
    let points = Row::from_vec(Vec::from_array(alloc, [point])?);
    let closed = Closed {
        bodies,
        functions,
        points,
        variables: 26,
        sites: Row::new(alloc),
        texts: Row::new(alloc),
        exns: Row::new(alloc),
    };
    Ok(closed)
}

// The home that this step writes.
fn written(placed: &Placed, body: usize, step: usize) -> Option<Home> {
    let steps = placed.bodies.items().get(body)?.steps.items();
    match steps.get(step)? {
        Step::Let { home, .. } => Some(*home),
        Step::Name { home, .. } => Some(*home),
        _ => None,
    }
}

fn is_register(home: Option<Home>, number: u32) -> bool {
    match home {
        Some(Home::Register(register)) => register == number,
        _ => false,
    }
}

fn is_word(home: Option<Home>, number: u32) -> bool {
    match home {
        Some(Home::Spill(word)) => word == number,
        _ => false,
    }
}

fn frame(placed: &Placed, label: usize) -> Option<u32> {
    Some(placed.functions.items().get(label)?.frame)
}

// The closure is never read, so its register is free; those of the argument and of the continuation aren't.
#[test]
fn wide_body_has_a_record(rt: HostRuntime) -> Result<(), Fail> {
    let alloc = rt.alloc();
    let placed = place(alloc, &program(alloc)?)?;
    assert!(rt; is_register(written(&placed, 1, 0), 0));
    assert!(rt; is_register(written(&placed, 1, 1), 3));
    assert!(rt; is_register(written(&placed, 1, 17), 19));
    assert!(rt; is_word(written(&placed, 1, 18), 0));
    assert!(rt; is_word(written(&placed, 1, 21), 3));
    assert!(rt; is_register(written(&placed, 1, 23), 0));
    assert!(rt; frame(&placed, 0) == Some(4));
    assert!(rt; placed.frame() == 0);
    assert!(rt; placed.spill() == 5);
    Ok(())
}
