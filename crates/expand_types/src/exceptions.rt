//! Exception declarations.

ghost use Rattle.std.specs.Prelude.{◌≡◌, ◌≢◌, ◌∷◌, ◌++◌, [], true, reverse, IfOk, OnOk};
ghost use Rattle.sml_tree.specs.declared.tree_node.TreeNode.TheVariants as tree;
ghost use Rattle.sml_expansion.specs.Terms.{Term};
ghost use Rattle.sml_expansion.specs.Sources.{IsAt, node_at};
ghost use Rattle.sml_expansion.specs.Scopes.{scope_of, meaning_of};
ghost use Rattle.sml_expansion.specs.declared.meaning.Meaning.TheVariants.{Constructor};
ghost use Rattle.sml_expansion.specs.Makings.{Runs, breaks};
ghost use Rattle.sml_expansion.specs.Bindings.{ExDecs, exceptions, exception_dec, exception_of, renaming_of, is_exception, has, none_fixed, unbound};
ghost use Rattle.expand_types.specs.Effects.{led, exceptions_so_far, exceptions_behind};

use crate::types::type_of;
use sml_expansion::base::is_fixed;
use sml_expansion::once::idents_once;
use sml_expansion::{Bindings, Ident, Made, Meaning, Parsed, Walk};
use sml_prelude::takes_argument;
use sml_tree::TreeNode;
use sml_tree::bare::{Con, Node};
use smlc_base::{Name, NoMemory, Place, Refusal, Row};
use std::alloc::Global;

/// What exception bindings come to beside their trees, in order: whether each is shown, their identifiers, and what these stand for.
#[derive(Debug, Drop)]
struct Exceptions {
    shown: Row<bool>,
    idents: Row<Ident>,
    values: Row<(u32, Meaning)>,
}

impl Exceptions {
    fn new(alloc: Global) -> Exceptions
        ensures { result ≡ record { shown = []; idents = []; values = [] } }
    {
        Exceptions {
            shown: Row::new(alloc),
            idents: Row::new(alloc),
            values: Row::new(alloc),
        }
    }

    /// One more binding.
    fn push(&mut self, ident: Ident, con: Con) -> Result<(), NoMemory>
        ensures shown { OnOk result (self.new.shown ≡ self.old.shown ++ true ∷ []) }
        ensures idents { OnOk result (self.new.idents ≡ self.old.idents ++ ident ∷ []) }
        ensures values { OnOk result (self.new.values ≡ self.old.values ++ (ident.key, Constructor con) ∷ []) }
    {
        self.shown.push(true)?;
        self.values.push((ident.key, Meaning::Constructor(con)))?;
        self.idents.push(ident)?;
        Ok(())
    }
}

/// A new exception.
fn declare(
    walk: &mut Walk,
    done: &mut Exceptions,
    place: Place,
    ident: Ident,
    name: u32,
    arg: Option<u32>,
) -> Result<(), NoMemory>
    ensures made { OnOk result (walk.new.made ≡ walk.old.made) }
    ensures kept { OnOk result (walk.new.bindings ≡ walk.old.bindings) }
    ensures done { OnOk result (exceptions_so_far walk.new done.new ≡ exceptions_behind (exceptions_so_far walk.old done.old) (exception_of place ident name arg)) }
{
    let name = Name(name);
    let takes = has(arg);
    walk.open()?;
    walk.leaf(Node::Exception(name, arg), place)?;
    done.push(ident, Con::Exn { name, takes })
}

/// Whether there is an argument.
pub(crate) fn has(arg: Option<u32>) -> bool
    ensures { result ≡ has arg }
{
    match arg {
        Some(_) => true,
        None => false,
    }
}

/// Whether a constructor is that of an exception.
fn is_exception(con: Con) -> bool
    ensures { result ≡ is_exception con }
{
    match con {
        Con::Exn { .. } => true,
        Con::Library(_) => true,
        _ => false,
    }
}

/// A new name for an exception.
fn rename(
    walk: &mut Walk,
    done: &mut Exceptions,
    place: Place,
    ident: Ident,
    name: u32,
    meaning: Option<Meaning>,
) -> Result<(), NoMemory>
    ensures made { OnOk result (walk.new.made ≡ walk.old.made) }
    ensures kept { OnOk result (walk.new.bindings ≡ walk.old.bindings) }
    ensures done { OnOk result (exceptions_so_far walk.new done.new ≡ exceptions_behind (exceptions_so_far walk.old done.old) (renaming_of place ident name meaning)) }
{
    let name = Name(name);
    walk.open()?;
    match meaning {
        Some(Meaning::Constructor(con)) => {
            if is_exception(con) {
                walk.leaf(Node::SameException(name, con), place)?;
                done.push(
                    ident,
                    Con::Exn {
                        name,
                        takes: takes_argument(con),
                    },
                )
            } else {
                walk.leaf(Node::NoException(name), place)?;
                done.push(ident, Con::Exn { name, takes: false })
            }
        }
        _ => {
            walk.leaf(Node::NoException(name), place)?;
            done.push(ident, Con::Exn { name, takes: false })
        }
    }
}

/// A binding; there is none at what isn't one.
fn push_exception(
    parsed: &Parsed,
    walk: &mut Walk,
    place: Place,
    at: u32,
    done: &mut Exceptions,
) -> Result<(), NoMemory>
    requires { node_at parsed.now at ≢ tree.MoreExBinds }
    ensures kept { OnOk result (walk.new.bindings ≡ walk.old.bindings) }
    ensures done { OnOk result ((t : Term) → IsAt parsed.now at t → (x : ExDecs) × Runs (exceptions (scope_of parsed.now.names walk.old.bindings) place t) walk.old.made x walk.new.made × (exceptions_so_far walk.new done.new ≡ exceptions_behind (exceptions_so_far walk.old done.old) x)) }
{
    match parsed.node(at) {
        TreeNode::ExBind => {
            let ident = parsed.ident(parsed.one(at));
            let name = walk.made.new_name(parsed.text(ident.key))?;
            declare(walk, done, place, ident, name, None)
        }
        TreeNode::ExBindOf => {
            let (constructor, argument) = parsed.two(at);
            let ident = parsed.ident(constructor);
            let name = walk.made.new_name(parsed.text(ident.key))?;
            let ty = type_of(parsed, &walk.bindings, &mut walk.made, argument)?;
            declare(walk, done, place, ident, name, Some(ty))
        }
        TreeNode::ExBindIs => {
            let (constructor, old) = parsed.two(at);
            let ident = parsed.ident(constructor);
            let name = walk.made.new_name(parsed.text(ident.key))?;
            let meaning = renamed(parsed, &walk.bindings, &mut walk.made, parsed.ident(old));
            rename(walk, done, place, ident, name, meaning)
        }
        _ => Ok(()),
    }
}

/// What an identifier that is renamed stands for.
fn renamed(parsed: &Parsed, bindings: &Bindings, made: &mut Made, ident: Ident) -> Option<Meaning>
    ensures meaning { result ≡ meaning_of (scope_of parsed.now.names bindings.now) ident.key }
    ensures made { Runs (breaks (unbound (meaning_of (scope_of parsed.now.names bindings.now) ident.key) ident)) made.old tt made.new }
{
    let meaning = parsed.value(bindings, ident.key);
    if let None = meaning {
        made.refuse(Refusal::Unbound(ident.place));
    }
    meaning
}

/// The bindings of a declaration, behind those that are there.
fn push_exceptions(
    parsed: &Parsed,
    walk: &mut Walk,
    place: Place,
    at: u32,
    done: &mut Exceptions,
) -> Result<(), NoMemory>
    ensures kept { OnOk result (walk.new.bindings ≡ walk.old.bindings) }
    ensures done { OnOk result ((t : Term) → IsAt parsed.now at t → (x : ExDecs) × Runs (exceptions (scope_of parsed.now.names walk.old.bindings) place t) walk.old.made x walk.new.made × (exceptions_so_far walk.new done.new ≡ exceptions_behind (exceptions_so_far walk.old done.old) x)) }
{
    let mut rest = at;
    while let TreeNode::MoreExBinds = parsed.node(rest) {
        let (first, behind) = parsed.two(rest);
        push_exceptions(parsed, walk, place, first, done)?;
        rest = behind;
    }
    push_exception(parsed, walk, place, rest, done)
}

/// None of these is one of the identifiers that aren't bound again.
pub(crate) fn refuse_fixed(parsed: &Parsed, made: &mut Made, idents: &[Ident])
    ensures { Runs (none_fixed parsed.now.names idents.now) made.old tt made.new }
{
    for ident in idents {
        made.refuse_if(
            is_fixed(parsed.text(ident.key)),
            Refusal::BadBinding(ident.place),
        );
    }
}

/// Binds value identifiers before those that are bound.
pub(crate) fn bind_values(
    bindings: &mut Bindings,
    values: &[(u32, Meaning)],
) -> Result<(), NoMemory>
    ensures { OnOk result (bindings.new ≡ record bindings.old { values = reverse values.now ++ bindings.old.values }) }
{
    for (key, meaning) in values {
        bindings.values.bind(*key, *meaning)?;
    }
    Ok(())
}

/// An `exception` declaration at this place with these bindings: for each of its trees, before which a mark more stands, whether its variables are shown. What it binds is in force.
pub fn exception_dec(
    parsed: &Parsed,
    walk: &mut Walk,
    place: Place,
    at: u32,
) -> Result<Vec<bool>, NoMemory>
    ensures state { IfOk result (λ shown. (t : Term) → IsAt parsed.now at t → walk.new ≡ led walk.old (exception_dec (scope_of parsed.now.names walk.old.bindings) place t)) }
    ensures shown { IfOk result (λ shown. (t : Term) → IsAt parsed.now at t → let r = exception_dec (scope_of parsed.now.names walk.old.bindings) place t walk.old.made in shown.items ≡ r.0.shown) }
{
    let mut done = Exceptions::new(walk.allocator());
    push_exceptions(parsed, walk, place, at, &mut done)?;
    refuse_fixed(parsed, &mut walk.made, done.idents.items());
    idents_once(&mut walk.made, done.idents.items())?;
    bind_values(&mut walk.bindings, done.values.items())?;
    Ok(done.shown.into_vec())
}
