//! Programs.

ghost use Rattle.std.specs.Prelude.{◌≡◌, ◌++◌, ◌≤◌, ◌<◌, ◌^◌, suc, None, IfOk, OnOk, IfErr, List, [], length};
ghost use Rattle.smlc_base.specs.declared.place.Place.{Place};
ghost use Rattle.sml_tree.specs.Width as measure;
ghost use Rattle.sml_expansion.specs.Terms.{Term};
ghost use Rattle.sml_expansion.specs.Forests.{grown, none};
ghost use Rattle.sml_expansion.specs.Marks.{marks};
ghost use Rattle.sml_tree.specs.declared.bare.Node.TheVariants as bare;
ghost use Rattle.sml_expansion.specs.Programs.{no_place, end_of};
ghost use Rattle.sml_expansion.specs.Whole.{Continues, IsExpansion, Fails, expansion_of_tree, bare_of, broken, width_limit, first_user_place};
ghost use Rattle.expansion_laws.specs.Laws.{AreReady};
ghost use Rattle.sml_derive.specs.Steps.{marked};
ghost use Rattle.sml_derive.specs.Tops.{ends, AreAt, IsExpanded, named_long};

use crate::outline::{Outline, outline_of};
use crate::top_trees::{TopTree, library_tops, tops};
use expansion_laws::bytes::chars_fit;
use sml_expansion::long_identifiers::bind_long_identifiers;
use sml_expansion::{Made, Parsed, Walk, link};
use sml_tree::bare::Node;
use sml_tree::width::width_within;
use sml_tree::{Bare, Tree};
use smlc_base::{Bytes, CompileError, Names, NoMemory, Place, Refusal, Row};
use std::alloc::Global;

/// The greatest width of a program.
const WIDTH_LIMIT: u64 = 1_048_576;

/// What a program expands to, whether it breaks a rule or not.
#[derive(Drop)]
pub(crate) struct Expanded {
    pub nodes: Row<Node>,
    pub places: Row<Place>,
    pub decs: Row<u32>,
    pub shown: Row<u32>,
    pub made: Made,
}

/// The bare tree of the library's parse tree and a program's, or why there is none: the least of the rules that are broken, or else that the program is too wide, with the place of the user's first declaration.
pub fn bare(alloc: Global, library: &Tree, tree: &Tree) -> Result<Bare, CompileError>
    requires { Continues library.now tree.now }
    ensures ok { IfOk result (λ bare. IsExpansion library.now tree.now bare) }
    ensures err { IfErr result (λ e. Fails library.now tree.now e) }
{
    let expanded = expand(alloc, library, tree)?;
    if let Some(refusal) = expanded.made.refusal {
        return Err(CompileError::Refused(refusal));
    }
    chars_fit(library.nodes.items());
    chars_fit(tree.nodes.items());
    let width = width_within(
        alloc,
        expanded.nodes.items(),
        expanded.places.items(),
        WIDTH_LIMIT,
    )?;
    match width {
        Some(width) => Ok(completed(alloc, library, tree, expanded, width)?),
        None => {
            let parsed = Parsed::new(alloc, tree, &tree.names)?;
            let place = first_user_place(&parsed, tree.decs.items());
            Err(CompileError::Refused(Refusal::TooWide(place)))
        }
    }
}

/// The bare tree of an expansion that breaks no rule and isn't too wide.
fn completed(
    alloc: Global,
    library: &Tree,
    tree: &Tree,
    expanded: Expanded,
    width: u64,
) -> Result<Bare, NoMemory>
    requires ready { AreReady library.now tree.now }
    requires kept { broken library.now tree.now ≡ None }
    requires same { IsExpanded expanded (expansion_of_tree library.now tree.now) }
    requires width { width ≡ measure.width expanded.nodes expanded.places }
    requires narrow { width ≤ width_limit }
    ensures { IfOk result (λ bare. IsExpansion library.now tree.now bare) }
{
    let _ = &library;
    numbers_fit(expanded.nodes.len())?;
    let texts = copied(alloc, tree.texts.items())?;
    let Expanded {
        nodes,
        places,
        decs,
        shown,
        made,
    } = expanded;
    let Made {
        names,
        types,
        tyvars,
        ..
    } = made;
    Ok(Bare {
        nodes,
        places,
        decs,
        shown,
        types,
        tyvars,
        names,
        texts,
        width,
    })
}

/// There is no memory for as many nodes as there are numbers.
fn numbers_fit(nodes: usize) -> Result<(), NoMemory>
    ensures { OnOk result (suc nodes < 2 ^ 32) }
{
    if nodes < 4_294_967_295 {
        Ok(())
    } else {
        Err(NoMemory)
    }
}

/// A copy of texts.
fn copied(alloc: Global, texts: &[Bytes]) -> Result<Row<Bytes>, NoMemory>
    ensures { IfOk result (λ copy. copy ≡ texts.now) }
{
    let mut copy = Row::new(alloc);
    for text in texts {
        copy.push(Row::from_vec(Vec::from_slice(alloc, text.items())?))?;
    }
    Ok(copy)
}

/// The expansion of the library's declarations, and then of a program's.
fn expand(alloc: Global, library: &Tree, tree: &Tree) -> Result<Expanded, NoMemory>
    ensures { IfOk result (λ expanded. IsExpanded expanded (expansion_of_tree library.now tree.now)) }
{
    let stands = Parsed::new(alloc, library, &tree.names)?;
    let parsed = Parsed::new(alloc, tree, &tree.names)?;
    let mut walk = Walk::new(alloc);
    let mut trees = library_tops(alloc, &stands, &mut walk, library.decs.items())?;
    long_identifiers(&tree.names, &mut walk)?;
    tops(alloc, &parsed, &mut walk, &mut trees, tree.decs.items())?;
    let end = last_place(&parsed, tree.decs.items());
    finish(&mut walk, end, &trees)?;
    let Walk { made, marks, .. } = walk;
    let (nodes, places) = link(alloc, marks)?;
    let Outline { decs, shown } = outline_of(alloc, nodes.items(), &trees)?;
    Ok(Expanded {
        nodes,
        places,
        decs,
        shown,
        made,
    })
}

/// The long identifiers come into scope.
fn long_identifiers(names: &Names, walk: &mut Walk) -> Result<(), NoMemory>
    ensures { OnOk result (walk.new ≡ named_long names.now walk.old) }
{
    bind_long_identifiers(names, &mut walk.bindings.values)
}

/// The end of the program, and the ends of the `Let` nodes around it, from the innermost out.
fn finish(walk: &mut Walk, end: Place, trees: &[TopTree]) -> Result<(), NoMemory>
    ensures { OnOk result (walk.new ≡ marked (marks (grown bare.Finish end none) ++ ends trees.now) walk.old) }
{
    walk.leaf(Node::Finish, end)?;
    close_all(walk, trees)
}

/// The ends of the `Let` nodes of these trees.
fn close_all(walk: &mut Walk, trees: &[TopTree]) -> Result<(), NoMemory>
    ensures { OnOk result (walk.new ≡ marked (ends trees.now) walk.old) }
{
    let mut left = trees.len();
    while left > 0 {
        left -= 1;
        walk.close(Node::Let(0, 0), trees[left].place)?;
    }
    Ok(())
}

/// The place of the user's last declaration.
fn last_place(parsed: &Parsed, decs: &[u32]) -> Place
    ensures { (terms : List Term) → AreAt parsed.now decs.now terms → result ≡ end_of no_place terms }
{
    match decs.last() {
        Some(at) => parsed.place(*at),
        None => Place {
            file: 0,
            line: 1,
            col: 1,
        },
    }
}

/// The place of the user's first declaration.
fn first_user_place(parsed: &Parsed, decs: &[u32]) -> Place
    ensures { (terms : List Term) → AreAt parsed.now decs.now terms → result ≡ first_user_place terms }
{
    for at in decs {
        let place = parsed.place(*at);
        if place.file != 0 {
            return place;
        }
    }
    Place {
        file: 0,
        line: 1,
        col: 1,
    }
}
