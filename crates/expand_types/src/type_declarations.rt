//! `type` declarations.

ghost use Rattle.std.specs.Prelude.{◌≡◌, ◌≢◌, ◌++◌, [], reverse, IfOk, OnOk};
ghost use Rattle.sml_tree.specs.declared.tree_node.TreeNode.TheVariants as tree;
ghost use Rattle.sml_expansion.specs.Terms.{Term};
ghost use Rattle.sml_expansion.specs.Sources.{IsAt, node_at};
ghost use Rattle.sml_expansion.specs.Scopes.{scope_of};
ghost use Rattle.sml_expansion.specs.Makings.{Runs};
ghost use Rattle.sml_expansion.specs.Types.{type_of};
ghost use Rattle.sml_expansion.specs.TypeVariables.{only_params};
ghost use Rattle.sml_expansion.specs.Bindings.{TypeDecs, type_bindings, type_dec};
ghost use Rattle.expand_types.specs.Effects.{declared, types_shown, types_behind, one_type_binding};

use crate::type_variables::{in_scope, numbers_of, params, tyvars};
use crate::types::type_of;
use sml_expansion::once::idents_once;
use sml_expansion::{Bindings, Ident, Made, Parsed, Scoped, TypeMeaning, Walk};
use sml_tree::TreeNode;
use sml_tree::bare::{Node, TypeBinding};
use smlc_base::{NoMemory, Place, Row};
use std::alloc::Global;

/// What `type` bindings come to, in order: the bindings, their identifiers, and what these stand for.
#[derive(Drop)]
struct TypeBindings {
    bindings: Row<TypeBinding>,
    idents: Row<Ident>,
    types: Row<(u32, TypeMeaning)>,
}

impl TypeBindings {
    fn new(alloc: Global) -> TypeBindings
        ensures { result ≡ record { bindings = []; idents = []; types = [] } }
    {
        TypeBindings {
            bindings: Row::new(alloc),
            idents: Row::new(alloc),
            types: Row::new(alloc),
        }
    }

    /// One more binding.
    fn push(&mut self, ident: Ident, binding: TypeBinding) -> Result<(), NoMemory>
        ensures { OnOk result (types_shown self.new ≡ types_behind (types_shown self.old) (one_type_binding ident binding)) }
    {
        self.types
            .push((ident.key, TypeMeaning::Abbreviation(binding.number)))?;
        self.idents.push(ident)?;
        self.bindings.push(binding)?;
        Ok(())
    }
}

/// The number of a type that sees these type variables alone.
fn type_under(
    parsed: &Parsed,
    bindings: &mut Bindings,
    made: &mut Made,
    vars: &[(u32, u32)],
    at: u32,
) -> Result<u32, NoMemory>
    ensures ty { IfOk result (λ ty. (t : Term) → IsAt parsed.now at t → Runs (type_of (only_params (scope_of parsed.now.names bindings.old) vars.now) t) made.old ty made.new) }
    ensures kept { OnOk result (bindings.new ≡ bindings.old) }
{
    let outer = std::mem::replace(&mut bindings.tyvars, Scoped::new(made.allocator()));
    in_scope(bindings, vars)?;
    let ty = type_of(parsed, bindings, made, at)?;
    bindings.tyvars = outer;
    Ok(ty)
}

/// A binding; there is none at what isn't one.
fn push_type_binding(
    parsed: &Parsed,
    bindings: &mut Bindings,
    made: &mut Made,
    at: u32,
    done: &mut TypeBindings,
) -> Result<(), NoMemory>
    requires { node_at parsed.now at ≢ tree.MoreTypBinds }
    ensures kept { OnOk result (bindings.new ≡ bindings.old) }
    ensures done { OnOk result ((t : Term) → IsAt parsed.now at t → (x : TypeDecs) × Runs (type_bindings (scope_of parsed.now.names bindings.old) t) made.old x made.new × (types_shown done.new ≡ types_behind (types_shown done.old) x)) }
{
    if let TreeNode::TypBind = parsed.node(at) {
        let (vars, constructor, ty) = parsed.three(at);
        let ident = parsed.ident(constructor);
        let named = tyvars(made.allocator(), parsed, vars)?;
        let vars = params(parsed, made, &named)?;
        let ty = type_under(parsed, bindings, made, &vars, ty)?;
        let number = made.new_abbreviation()?;
        let params = numbers_of(made.allocator(), &vars)?;
        done.push(ident, TypeBinding { number, params, ty })?;
    }
    Ok(())
}

/// The bindings of a declaration, behind those that are there.
fn push_type_bindings(
    parsed: &Parsed,
    bindings: &mut Bindings,
    made: &mut Made,
    at: u32,
    done: &mut TypeBindings,
) -> Result<(), NoMemory>
    ensures kept { OnOk result (bindings.new ≡ bindings.old) }
    ensures done { OnOk result ((t : Term) → IsAt parsed.now at t → (x : TypeDecs) × Runs (type_bindings (scope_of parsed.now.names bindings.old) t) made.old x made.new × (types_shown done.new ≡ types_behind (types_shown done.old) x)) }
{
    let mut rest = at;
    while let TreeNode::MoreTypBinds = parsed.node(rest) {
        let (first, behind) = parsed.two(rest);
        push_type_bindings(parsed, bindings, made, first, done)?;
        rest = behind;
    }
    push_type_binding(parsed, bindings, made, rest, done)
}

/// Binds type constructors before those that are bound.
pub(crate) fn bind_types(
    bindings: &mut Bindings,
    types: &[(u32, TypeMeaning)],
) -> Result<(), NoMemory>
    ensures { OnOk result (bindings.new ≡ record bindings.old { types = reverse types.now ++ bindings.old.types }) }
{
    for (key, meaning) in types {
        bindings.types.bind(*key, *meaning)?;
    }
    Ok(())
}

/// A `type` declaration at this place with these bindings. One tree is made, and what it binds is in force.
pub fn type_dec(parsed: &Parsed, walk: &mut Walk, place: Place, at: u32) -> Result<(), NoMemory>
    ensures { OnOk result ((t : Term) → IsAt parsed.now at t → walk.new ≡ declared walk.old (type_dec (scope_of parsed.now.names walk.old.bindings) place t)) }
{
    let mut done = TypeBindings::new(walk.allocator());
    push_type_bindings(parsed, &mut walk.bindings, &mut walk.made, at, &mut done)?;
    idents_once(&mut walk.made, done.idents.items())?;
    walk.leaf(Node::Type(done.bindings), place)?;
    bind_types(&mut walk.bindings, done.types.items())
}
