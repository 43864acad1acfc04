//! The points of a small program, with ample memory.

ghost use Rattle.std.specs.Prelude.{◌≡◌, [], ◌∷◌, None, false, length, replicate, IfOk};
ghost use Rattle.sml_tree.specs.declared.bare.Node.TheVariants as node;
ghost use Rattle.sml_tree.specs.declared.bare.Con.TheVariants as con;
ghost use Rattle.sml_tree.specs.IsBare.{IsBare};

use sml_def::points;
use sml_tree::bare::{Binding, Con, Rule};
use sml_tree::{Bare, Node};
use smlc_base::{Bytes, Name, NoMemory, Place, Point, PointKind, Row, Site};
use std::alloc::Global;
use std::test::Fail;

fn one<T: Drop>(alloc: Global, item: T) -> Result<Row<T>, NoMemory>
    ensures { IfOk result (λ r. r ≡ item ∷ []) }
{
    let mut items = Row::new(alloc);
    items.push(item)?;
    Ok(items)
}

// Each node has the first place.
fn places(alloc: Global) -> Result<Row<Place>, NoMemory>
    ensures { IfOk result (λ r. r ≡ replicate 13 (record { file = 1; line = 1; col = 1 })) }
{
    let place = Place {
        file: 1,
        line: 1,
        col: 1,
    };
    Ok(Row::from_vec(Vec::from_array(alloc, [place; 13])?))
}

fn names(alloc: Global) -> Result<Row<Bytes>, NoMemory>
    ensures { IfOk result (λ r. length r ≡ 3) }
{
    let texts = [one(alloc, b'E')?, one(alloc, b'f')?, one(alloc, b'x')?];
    Ok(Row::from_vec(Vec::from_array(alloc, texts)?))
}

// exception E
// val f = fn x => (raise E) handle E => x
fn nodes(alloc: Global) -> Result<Row<Node>, NoMemory>
    ensures { IfOk result (λ r. r ≡ node.Let 1 2 ∷ node.Exception (record { 0 = 0 }) None ∷ node.Let 3 12 ∷ node.Val [] (record { pat = 4; right = 5 } ∷ []) ∷ node.PatVar (record { 0 = 1 }) ∷ node.Fn (record { pat = 6; body = 7 } ∷ []) ∷ node.PatVar (record { 0 = 2 }) ∷ node.Handle 8 (record { pat = 10; body = 11 } ∷ []) ∷ node.Raise 9 ∷ node.Constructor (con.Exn (record { 0 = 0 }) false) ∷ node.PatCon (con.Exn (record { 0 = 0 }) false) ∷ node.Var (record { 0 = 2 }) ∷ node.Finish ∷ []) }
{
    let exception = Con::Exn {
        name: Name(0),
        takes: false,
    };
    let binding = one(alloc, Binding { pat: 4, right: 5 })?;
    let function = one(alloc, Rule { pat: 6, body: 7 })?;
    let handler = one(alloc, Rule { pat: 10, body: 11 })?;
    let nodes = [
        Node::Let(1, 2),
        Node::Exception(Name(0), None),
        Node::Let(3, 12),
        Node::Val(Row::new(alloc), binding),
        Node::PatVar(Name(1)),
        Node::Fn(function),
        Node::PatVar(Name(2)),
        Node::Handle(8, handler),
        Node::Raise(9),
        Node::Constructor(exception),
        Node::PatCon(exception),
        Node::Var(Name(2)),
        Node::Finish,
    ];
    Ok(Row::from_vec(Vec::from_array(alloc, nodes)?))
}

fn program(alloc: Global) -> Result<Bare, NoMemory>
    ensures bare { IfOk result (λ b. IsBare b) }
    ensures count { IfOk result (λ b. length b.nodes ≡ 13) }
{
    let nodes = nodes(alloc)?;
    let places = places(alloc)?;
    let decs = Row::from_vec(Vec::from_array(alloc, [0, 2])?);
    let shown = one(alloc, 3)?;
    let names = names(alloc)?;
    Ok(Bare {
        nodes,
        places,
        decs,
        shown,
        types: Row::new(alloc),
        tyvars: Row::new(alloc),
        names,
        texts: Row::new(alloc),
        width: 18,
    })
}

fn site(node: u32, kind: PointKind, words: u32, outer: Option<Point>) -> Site {
    Site {
        point: Point { node, kind },
        place: Place {
            file: 1,
            line: 1,
            col: 1,
        },
        words,
        outer,
    }
}

// The words of the closure, of the frame of the right side, of the `handle`, and of the frame of `raise` in it.
#[test]
fn each_point_has_its_words(rt: HostRuntime) -> Result<(), Fail> {
    let program = program(rt.alloc())?;
    let caught = Point {
        node: 7,
        kind: PointKind::Caught,
    };
    let comparison = Site {
        place: Place {
            file: 0,
            line: 1,
            col: 1,
        },
        ..site(u32::MAX, PointKind::Eq, 4, None)
    };
    let want = [
        site(5, PointKind::Fn, 2, None),
        site(5, PointKind::Ret, 2, None),
        site(7, PointKind::Caught, 4, None),
        site(7, PointKind::Popped, 4, None),
        site(9, PointKind::Ret, 2, Some(caught)),
        comparison,
    ];
    assert!(rt; points(rt.alloc(), &program)?.items() == want.as_slice());
    Ok(())
}

#[test]
fn free_variables_ascend(rt: HostRuntime) -> Result<(), Fail> {
    let program = program(rt.alloc())?;
    assert!(rt; program.free(0)?.is_empty());
    assert!(rt; program.free(5)?.items() == [Name(0)].as_slice());
    assert!(rt; program.free(7)?.items() == [Name(0), Name(2)].as_slice());
    Ok(())
}
