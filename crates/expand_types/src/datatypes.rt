//! `datatype` declarations.

ghost use Rattle.std.specs.Prelude.{◌≡◌, ◌≢◌, ◌∷◌, ◌++◌, [], List, ℕ, map, reverse, IfOk, OnOk};
ghost use Rattle.sml_tree.specs.declared.tree_node.TreeNode.TheVariants as tree;
ghost use Rattle.sml_expansion.specs.Terms.{Term};
ghost use Rattle.sml_expansion.specs.Sources.{IsAt, node_at};
ghost use Rattle.sml_expansion.specs.Scopes.{scope_of, text_of};
ghost use Rattle.sml_expansion.specs.Makings.{Runs};
ghost use Rattle.sml_expansion.specs.TypeVariables.{only_params};
ghost use Rattle.sml_expansion.specs.declared.scope.Ident.{Ident};
ghost use Rattle.sml_expansion.specs.declared.meaning.TypeMeaning.TheVariants.{TypeName};
ghost use Rattle.sml_expansion.specs.Bindings.{NewCon, DatDecs, new_datatypes, first_number, constructors, con_meanings, datatype_of, datatypes, datatype_dec};
ghost use Rattle.sml_tree.specs.declared.bare.ConBinding.{ConBinding};
ghost use Rattle.expand_types.specs.Effects.{declared, new_cons, datatypes_shown, datatypes_behind};

use crate::exceptions::{bind_values, has, refuse_fixed};
use crate::type_declarations::bind_types;
use crate::type_variables::{in_scope, numbers_of, params, tyvars};
use crate::types::type_of;
use sml_expansion::number::next;
use sml_expansion::once::idents_once;
use sml_expansion::{Bindings, Ident, Made, Meaning, Parsed, Scoped, TypeMeaning, Walk};
use sml_tree::TreeNode;
use sml_tree::bare::{Con, ConBinding, DatBinding, Node};
use smlc_base::{NoMemory, Place, Row};
use std::alloc::Global;

/// A constructor of a datatype, and the type of its argument.
#[derive(Clone, Copy, PartialEq, Eq, Debug)]
struct NewConstructor {
    ident: Ident,
    arg: Option<u32>,
}

/// What `datatype` bindings come to, in order: the bindings, the identifiers of the constructors, and what these stand for.
#[derive(Drop)]
struct Datatypes {
    bindings: Row<DatBinding>,
    idents: Row<Ident>,
    values: Row<(u32, Meaning)>,
}

impl Datatypes {
    fn new(alloc: Global) -> Datatypes
        ensures { result ≡ record { bindings = []; idents = []; values = [] } }
    {
        Datatypes {
            bindings: Row::new(alloc),
            idents: Row::new(alloc),
            values: Row::new(alloc),
        }
    }

    /// One more datatype: the number of its type name, its identifier, its type variables and its constructors.
    fn push(
        &mut self,
        parsed: &Parsed,
        type_name: u32,
        ident: Ident,
        vars: &[(u32, u32)],
        cons: &[NewConstructor],
    ) -> Result<(), NoMemory>
        ensures { OnOk result (datatypes_shown self.new ≡ datatypes_behind (datatypes_shown self.old) (datatype_of parsed.now.names type_name ident vars.now (new_cons cons.now))) }
    {
        let alloc = self.idents.allocator();
        let params = numbers_of(alloc, vars)?;
        let text = Row::from_vec(Vec::from_slice(alloc, parsed.text(ident.key))?);
        let bound = con_bindings(alloc, parsed, cons)?;
        push_idents(&mut self.idents, cons)?;
        push_values(&mut self.values, type_name, cons)?;
        self.bindings.push(DatBinding {
            type_name,
            text,
            params,
            cons: bound,
        })
    }
}

/// The constructors as the bare tree has them.
fn con_bindings(
    alloc: Global,
    parsed: &Parsed,
    cons: &[NewConstructor],
) -> Result<Row<ConBinding>, NoMemory>
    ensures { IfOk result (λ bindings. bindings ≡ map (λ c. let b : ConBinding = record { text = text_of parsed.now.names c.ident.key; arg = c.arg } in b) cons.now) }
{
    let mut bindings = Row::new(alloc);
    for con in cons {
        let text = Vec::from_slice(alloc, parsed.text(con.ident.key))?;
        bindings.push(ConBinding {
            text: Row::from_vec(text),
            arg: con.arg,
        })?;
    }
    Ok(bindings)
}

/// The identifiers of constructors, behind those that are there.
fn push_idents(idents: &mut Row<Ident>, cons: &[NewConstructor]) -> Result<(), NoMemory>
    ensures { OnOk result (idents.new ≡ idents.old ++ map (λ c. c.ident) cons.now) }
{
    for con in cons {
        idents.push(con.ident)?;
    }
    Ok(())
}

/// What the constructors of a type name stand for, behind those that are there.
fn push_values(
    values: &mut Row<(u32, Meaning)>,
    type_name: u32,
    cons: &[NewConstructor],
) -> Result<(), NoMemory>
    ensures { OnOk result (values.new ≡ values.old ++ con_meanings type_name 0 (new_cons cons.now)) }
{
    let mut number = 0;
    for con in cons {
        let takes = has(con.arg);
        let meaning = Con::Data {
            type_name,
            number,
            takes,
        };
        values.push((con.ident.key, Meaning::Constructor(meaning)))?;
        number = next(number)?;
    }
    Ok(())
}

/// The type name of a binding; there is none at what isn't one.
fn push_type_name(
    parsed: &Parsed,
    made: &mut Made,
    at: u32,
    news: &mut Vec<(Ident, u32)>,
) -> Result<(), NoMemory>
    requires { node_at parsed.now at ≢ tree.MoreDatBinds }
    ensures { OnOk result ((t : Term) → IsAt parsed.now at t → (x : List (Ident × ℕ)) × Runs (new_datatypes parsed.now.names t) made.old x made.new × (news.new.items ≡ news.old.items ++ x)) }
{
    if let TreeNode::DatBind = parsed.node(at) {
        let (_, constructor, _) = parsed.three(at);
        let ident = parsed.ident(constructor);
        let number = made.new_type_name()?;
        news.push((ident, number))?;
    }
    Ok(())
}

/// The type names of a declaration, behind those that are there.
fn push_type_names(
    parsed: &Parsed,
    made: &mut Made,
    at: u32,
    news: &mut Vec<(Ident, u32)>,
) -> Result<(), NoMemory>
    ensures { OnOk result ((t : Term) → IsAt parsed.now at t → (x : List (Ident × ℕ)) × Runs (new_datatypes parsed.now.names t) made.old x made.new × (news.new.items ≡ news.old.items ++ x)) }
{
    let mut rest = at;
    while let TreeNode::MoreDatBinds = parsed.node(rest) {
        let (first, behind) = parsed.two(rest);
        push_type_names(parsed, made, first, news)?;
        rest = behind;
    }
    push_type_name(parsed, made, rest, news)
}

/// The identifiers of type names.
fn idents_of(alloc: Global, news: &[(Ident, u32)]) -> Result<Vec<Ident>, NoMemory>
    ensures { IfOk result (λ idents. idents.items ≡ map (λ n. n.0) news.now) }
{
    let mut idents = Vec::new(alloc);
    for (ident, _) in news {
        idents.push(*ident)?;
    }
    Ok(idents)
}

/// What the identifiers of type names stand for.
fn types_of(alloc: Global, news: &[(Ident, u32)]) -> Result<Vec<(u32, TypeMeaning)>, NoMemory>
    ensures { IfOk result (λ types. types.items ≡ map (λ n. (n.0.key, TypeName n.1)) news.now) }
{
    let mut types = Vec::new(alloc);
    for (ident, number) in news {
        types.push((ident.key, TypeMeaning::TypeName(*number)))?;
    }
    Ok(types)
}

/// The number of the first type name.
fn first_number(news: &[(Ident, u32)]) -> u32
    ensures { result ≡ first_number news.now }
{
    match news {
        [(_, number), ..] => *number,
        _ => 0,
    }
}

/// One more constructor.
fn push_new(cons: &mut Vec<NewConstructor>, ident: Ident, arg: Option<u32>) -> Result<(), NoMemory>
    ensures { OnOk result (new_cons cons.new.items ≡ new_cons cons.old.items ++ record { ident = ident; arg = arg } ∷ []) }
{
    cons.push(NewConstructor { ident, arg })?;
    Ok(())
}

/// A constructor; there is none at what isn't one.
fn push_constructor(
    parsed: &Parsed,
    bindings: &Bindings,
    made: &mut Made,
    at: u32,
    cons: &mut Vec<NewConstructor>,
) -> Result<(), NoMemory>
    requires { node_at parsed.now at ≢ tree.MoreConBinds }
    ensures { OnOk result ((t : Term) → IsAt parsed.now at t → (x : List NewCon) × Runs (constructors (scope_of parsed.now.names bindings.now) t) made.old x made.new × (new_cons cons.new.items ≡ new_cons cons.old.items ++ x)) }
{
    match parsed.node(at) {
        TreeNode::ConBind => {
            let ident = parsed.ident(parsed.one(at));
            push_new(cons, ident, None)
        }
        TreeNode::ConBindOf => {
            let (constructor, argument) = parsed.two(at);
            let ident = parsed.ident(constructor);
            let ty = type_of(parsed, bindings, made, argument)?;
            push_new(cons, ident, Some(ty))
        }
        _ => Ok(()),
    }
}

/// The constructors of a binding, behind those that are there.
fn push_constructors(
    parsed: &Parsed,
    bindings: &Bindings,
    made: &mut Made,
    at: u32,
    cons: &mut Vec<NewConstructor>,
) -> Result<(), NoMemory>
    ensures { OnOk result ((t : Term) → IsAt parsed.now at t → (x : List NewCon) × Runs (constructors (scope_of parsed.now.names bindings.now) t) made.old x made.new × (new_cons cons.new.items ≡ new_cons cons.old.items ++ x)) }
{
    let mut rest = at;
    while let TreeNode::MoreConBinds = parsed.node(rest) {
        let (first, behind) = parsed.two(rest);
        push_constructors(parsed, bindings, made, first, cons)?;
        rest = behind;
    }
    push_constructor(parsed, bindings, made, rest, cons)
}

/// The constructors of a binding, whose types see these type variables alone.
fn constructors_under(
    parsed: &Parsed,
    bindings: &mut Bindings,
    made: &mut Made,
    vars: &[(u32, u32)],
    at: u32,
) -> Result<Vec<NewConstructor>, NoMemory>
    ensures cons { IfOk result (λ cons. (t : Term) → IsAt parsed.now at t → Runs (constructors (only_params (scope_of parsed.now.names bindings.old) vars.now) t) made.old (new_cons cons.items) made.new) }
    ensures kept { OnOk result (bindings.new ≡ bindings.old) }
{
    let outer = std::mem::replace(&mut bindings.tyvars, Scoped::new(made.allocator()));
    in_scope(bindings, vars)?;
    let mut cons = Vec::new(made.allocator());
    push_constructors(parsed, bindings, made, at, &mut cons)?;
    bindings.tyvars = outer;
    Ok(cons)
}

/// A binding of this type name; there is none at what isn't one.
fn push_datatype(
    parsed: &Parsed,
    bindings: &mut Bindings,
    made: &mut Made,
    type_name: u32,
    at: u32,
    done: &mut Datatypes,
) -> Result<(), NoMemory>
    requires { node_at parsed.now at ≢ tree.MoreDatBinds }
    ensures kept { OnOk result (bindings.new ≡ bindings.old) }
    ensures done { OnOk result ((t : Term) → IsAt parsed.now at t → (x : DatDecs) × Runs (datatypes (scope_of parsed.now.names bindings.old) type_name t) made.old x made.new × (datatypes_shown done.new ≡ datatypes_behind (datatypes_shown done.old) x)) }
{
    if let TreeNode::DatBind = parsed.node(at) {
        let (vars, constructor, behind) = parsed.three(at);
        let ident = parsed.ident(constructor);
        let named = tyvars(made.allocator(), parsed, vars)?;
        let vars = params(parsed, made, &named)?;
        let cons = constructors_under(parsed, bindings, made, &vars, behind)?;
        done.push(parsed, type_name, ident, &vars, &cons)?;
    }
    Ok(())
}

/// The bindings of a declaration, behind those that are there. The first has this type name.
fn push_datatypes(
    parsed: &Parsed,
    bindings: &mut Bindings,
    made: &mut Made,
    first_name: u32,
    at: u32,
    done: &mut Datatypes,
) -> Result<(), NoMemory>
    ensures kept { OnOk result (bindings.new ≡ bindings.old) }
    ensures done { OnOk result ((t : Term) → IsAt parsed.now at t → (x : DatDecs) × Runs (datatypes (scope_of parsed.now.names bindings.old) first_name t) made.old x made.new × (datatypes_shown done.new ≡ datatypes_behind (datatypes_shown done.old) x)) }
{
    let mut rest = at;
    let mut type_name = first_name;
    while let TreeNode::MoreDatBinds = parsed.node(rest) {
        let (first, behind) = parsed.two(rest);
        push_datatypes(parsed, bindings, made, type_name, first, done)?;
        type_name = next(type_name)?;
        rest = behind;
    }
    push_datatype(parsed, bindings, made, type_name, rest, done)
}

/// A `datatype` declaration at this place with these bindings. One tree is made, and what it binds is in force.
pub fn datatype_dec(parsed: &Parsed, walk: &mut Walk, place: Place, at: u32) -> Result<(), NoMemory>
    ensures { OnOk result ((t : Term) → IsAt parsed.now at t → walk.new ≡ declared walk.old (datatype_dec (scope_of parsed.now.names walk.old.bindings) place t)) }
{
    let mut news = Vec::new(walk.allocator());
    push_type_names(parsed, &mut walk.made, at, &mut news)?;
    let names = idents_of(walk.allocator(), &news)?;
    let types = types_of(walk.allocator(), &news)?;
    let first = first_number(&news);
    let mut done = Datatypes::new(walk.allocator());
    idents_once(&mut walk.made, &names)?;
    bind_types(&mut walk.bindings, &types)?;
    push_datatypes(
        parsed,
        &mut walk.bindings,
        &mut walk.made,
        first,
        at,
        &mut done,
    )?;
    refuse_fixed(parsed, &mut walk.made, done.idents.items());
    idents_once(&mut walk.made, done.idents.items())?;
    walk.leaf(Node::Datatype(done.bindings), place)?;
    bind_values(&mut walk.bindings, done.values.items())
}
