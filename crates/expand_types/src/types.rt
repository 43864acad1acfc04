//! Types as they are written.

ghost use Rattle.std.specs.Prelude.{◌≡◌, ◌∷◌, ◌++◌, [], false, true, IfOk, get_or, length};
ghost use Rattle.sml_expansion.specs.Terms.{Term, leaf, node_of, place_at};
ghost use Rattle.sml_expansion.specs.Sources.{IsAt, node_at};
ghost use Rattle.sml_expansion.specs.Scopes.{scope_of, ident};
ghost use Rattle.sml_expansion.specs.Labels.{numbers};
ghost use Rattle.sml_tree.specs.declared.bare.TypeExp.TheVariants as exp;
ghost use Rattle.sml_expansion.specs.Makings.{Runs, new_type};
ghost use Rattle.sml_expansion.specs.declared.scope.Ident.{Ident};
ghost use Rattle.sml_expansion.specs.declared.meaning.TypeMeaning.TheVariants.{EmptyRecord};
ghost use Rattle.sml_expansion.specs.Types.{types, type_of, alone, variable_at, constructed, constructor_at, record_type, type_fields};
ghost use Rattle.expand_types.specs.Forms.{is_type_list};

use crate::labels::labels;
use sml_expansion::labels::{product_fields, type_fields};
use sml_expansion::number::number_at;
use sml_expansion::once::labels_once;
use sml_expansion::{Bindings, Ident, Made, Parsed, TypeMeaning};
use sml_tree::TreeNode;
use sml_tree::bare::TypeExp;
use smlc_base::{Name, NoMemory, Place, Refusal, Row};
use std::alloc::Global;

/// Whether a node is a type and those behind it.
fn is_type_list(node: TreeNode) -> bool
    ensures { result ≡ is_type_list node }
{
    match node {
        TreeNode::MoreTyRows => true,
        TreeNode::MoreFactors => true,
        TreeNode::MoreTys => true,
        _ => false,
    }
}

/// The number of the type alone.
pub(crate) fn alone(alloc: Global, number: u32) -> Result<Vec<u32>, NoMemory>
    ensures { IfOk result (λ numbers. numbers.items ≡ number ∷ []) }
{
    let mut numbers = Vec::new(alloc);
    numbers.push(number)?;
    Ok(numbers)
}

/// The numbers of two lists.
pub(crate) fn joined(first: Vec<u32>, second: &[u32]) -> Result<Vec<u32>, NoMemory>
    ensures { IfOk result (λ numbers. numbers.items ≡ first.items ++ second.now) }
{
    let mut numbers = first;
    numbers.extend_from_slice(second)?;
    Ok(numbers)
}

/// A type variable of this number.
fn variable_at(made: &mut Made, number: Option<u32>, place: Place) -> Result<u32, NoMemory>
    ensures { IfOk result (λ ty. Runs (variable_at number place) made.old ty made.new) }
{
    match number {
        Some(number) => made.new_type(TypeExp::Var(number)),
        None => {
            made.refuse(Refusal::BadBinding(place));
            made.new_type(TypeExp::Record(Row::new(made.allocator())))
        }
    }
}

/// A type constructor at its arguments.
fn constructed(
    made: &mut Made,
    meaning: Option<TypeMeaning>,
    ident: Ident,
    args: Vec<u32>,
) -> Result<u32, NoMemory>
    ensures { IfOk result (λ ty. Runs (constructed meaning ident args.items) made.old ty made.new) }
{
    match meaning {
        Some(TypeMeaning::TypeName(number)) => made.new_type(TypeExp::Named(
            number,
            Row::from_vec(args),
        )),
        Some(TypeMeaning::Abbreviation(number)) => made.new_type(TypeExp::Abbreviation(
            number,
            Row::from_vec(args),
        )),
        Some(TypeMeaning::EmptyRecord) => unit(made, ident, args),
        None => {
            made.refuse(Refusal::Unbound(ident.place));
            made.new_type(TypeExp::Record(Row::new(made.allocator())))
        }
    }
}

/// `unit` at arguments, of which it takes none.
fn unit(made: &mut Made, ident: Ident, args: Vec<u32>) -> Result<u32, NoMemory>
    ensures { IfOk result (λ ty. Runs (constructed (Some EmptyRecord) ident args.items) made.old ty made.new) }
{
    let ty = if args.is_empty() {
        TypeExp::Record(Row::new(made.allocator()))
    } else {
        TypeExp::UnitOf(Row::from_vec(args))
    };
    made.new_type(ty)
}

/// The type that an identifier stands for at its arguments.
fn constructor_at(
    parsed: &Parsed,
    bindings: &Bindings,
    made: &mut Made,
    ident: Ident,
    args: Vec<u32>,
) -> Result<Vec<u32>, NoMemory>
    ensures { IfOk result (λ numbers. Runs (alone (constructor_at (scope_of parsed.now.names bindings.now) ident args.items)) made.old numbers.items made.new) }
{
    let meaning = parsed.type_meaning(bindings, ident.key);
    let ty = constructed(made, meaning, ident, args)?;
    alone(made.allocator(), ty)
}

/// The type of a record with these rows, whose types have these numbers.
fn record_type(
    parsed: &Parsed,
    made: &mut Made,
    rows: u32,
    types: &[u32],
) -> Result<Vec<u32>, NoMemory>
    ensures { IfOk result (λ numbers. (t : Term) → IsAt parsed.now rows t → Runs (alone (record_type parsed.now.names t types.now)) made.old numbers.items made.new) }
{
    let labs = labels(made.allocator(), parsed, rows)?;
    labels_once(made, &labs)?;
    let fields = type_fields(made.allocator(), labs, types)?;
    let ty = made.new_type(TypeExp::Record(fields))?;
    alone(made.allocator(), ty)
}

/// The product of types.
fn product_type(made: &mut Made, types: &[u32]) -> Result<Vec<u32>, NoMemory>
    ensures { IfOk result (λ made_type. Runs (alone (new_type (exp.Record (type_fields (numbers 0 (length types.now)) types.now)))) made.old made_type.items made.new) }
{
    let fields = product_fields(made.allocator(), types)?;
    let ty = made.new_type(TypeExp::Record(fields))?;
    alone(made.allocator(), ty)
}

/// A function's type, from the first type to the second.
fn arrow_type(made: &mut Made, types: &[u32]) -> Result<Vec<u32>, NoMemory>
    ensures { IfOk result (λ numbers. Runs (alone (new_type (exp.Arrow (get_or types.now 0 0) (get_or types.now 1 0)))) made.old numbers.items made.new) }
{
    let ty = made.new_type(TypeExp::Arrow(number_at(types, 0), number_at(types, 1)))?;
    alone(made.allocator(), ty)
}

/// The number of a type without parts; there is none at what is no type.
fn leaf_type(
    parsed: &Parsed,
    bindings: &Bindings,
    made: &mut Made,
    node: TreeNode,
    place: Place,
) -> Result<Vec<u32>, NoMemory>
    ensures { IfOk result (λ numbers. Runs (types (scope_of parsed.now.names bindings.now) (leaf node place)) made.old numbers.items made.new) }
{
    let none = Vec::new(made.allocator());
    match node {
        TreeNode::TyVar(name) => {
            let ty = variable_at(made, bindings.tyvars.get(name.0), place)?;
            alone(made.allocator(), ty)
        }
        TreeNode::TyCon(name) => constructor_at(parsed, bindings, made, plain(name, place), none),
        TreeNode::LongTyCon(name) => constructor_at(
            parsed,
            bindings,
            made,
            long(name, place),
            none,
        ),
        TreeNode::EmptyRecordTy => {
            let ty = made.new_type(TypeExp::Record(Row::new(made.allocator())))?;
            alone(made.allocator(), ty)
        }
        _ => Ok(none),
    }
}

/// The identifier of a type constructor.
fn plain(name: Name, place: Place) -> Ident
    ensures { result ≡ record { key = name.0; long = false; place = place } }
{
    Ident {
        key: name.0,
        long: false,
        place,
    }
}

/// The identifier of a long type constructor.
fn long(name: Name, place: Place) -> Ident
    ensures { result ≡ record { key = name.0; long = true; place = place } }
{
    Ident {
        key: name.0,
        long: true,
        place,
    }
}

/// The numbers of the types of a list, one for a type alone.
#[cycle(types)]
pub fn types(
    parsed: &Parsed,
    bindings: &Bindings,
    made: &mut Made,
    at: u32,
) -> Result<Vec<u32>, NoMemory>
    ensures { IfOk result (λ numbers. (t : Term) → IsAt parsed.now at t → Runs (types (scope_of parsed.now.names bindings.now) t) made.old numbers.items made.new) }
{
    let mut numbers = Vec::new(made.allocator());
    let mut rest = at;
    while is_type_list(parsed.node(rest)) {
        let (first, behind) = parsed.two(rest);
        let more = types(parsed, bindings, made, first)?;
        numbers = joined(numbers, &more)?;
        rest = behind;
    }
    let last = one_type(parsed, bindings, made, rest)?;
    joined(numbers, &last)
}

/// The number of a type that is no list.
#[cycle(types)]
fn one_type(
    parsed: &Parsed,
    bindings: &Bindings,
    made: &mut Made,
    at: u32,
) -> Result<Vec<u32>, NoMemory>
    requires { is_type_list (node_at parsed.now at) ≡ false }
    ensures { IfOk result (λ numbers. (t : Term) → IsAt parsed.now at t → Runs (types (scope_of parsed.now.names bindings.now) t) made.old numbers.items made.new) }
{
    match parsed.node(at) {
        TreeNode::ParenTy => types(parsed, bindings, made, parsed.one(at)),
        TreeNode::TyRow => types(parsed, bindings, made, parsed.two(at).1),
        TreeNode::RecordTy => {
            let rows = parsed.one(at);
            let parts = types(parsed, bindings, made, rows)?;
            record_type(parsed, made, rows, &parts)
        }
        TreeNode::ArrowTy => {
            let (from, to) = parsed.two(at);
            let types_from = types(parsed, bindings, made, from)?;
            let types_to = types(parsed, bindings, made, to)?;
            let parts = joined(types_from, &types_to)?;
            arrow_type(made, &parts)
        }
        TreeNode::ProductTy => {
            let (first, behind) = parsed.two(at);
            let types_first = types(parsed, bindings, made, first)?;
            let types_behind = types(parsed, bindings, made, behind)?;
            let parts = joined(types_first, &types_behind)?;
            product_type(made, &parts)
        }
        TreeNode::ConTy => {
            let (arg, constructor) = parsed.two(at);
            let args = types(parsed, bindings, made, arg)?;
            let ident = parsed.ident(constructor);
            constructor_at(parsed, bindings, made, ident, args)
        }
        TreeNode::SeqConTy => {
            let (first, behind, constructor) = parsed.three(at);
            let types_first = types(parsed, bindings, made, first)?;
            let types_behind = types(parsed, bindings, made, behind)?;
            let args = joined(types_first, &types_behind)?;
            let ident = parsed.ident(constructor);
            constructor_at(parsed, bindings, made, ident, args)
        }
        node => leaf_type(parsed, bindings, made, node, parsed.place(at)),
    }
}

/// The number of a type.
pub fn type_of(
    parsed: &Parsed,
    bindings: &Bindings,
    made: &mut Made,
    at: u32,
) -> Result<u32, NoMemory>
    ensures { IfOk result (λ number. (t : Term) → IsAt parsed.now at t → Runs (type_of (scope_of parsed.now.names bindings.now) t) made.old number made.new) }
{
    let numbers = types(parsed, bindings, made, at)?;
    Ok(number_at(&numbers, 0))
}
