//! Identifiers in patterns.

ghost use Rattle.std.specs.Prelude.{◌≡◌, ◌++◌, ◌∷◌, [], OnOk, IfOk};
ghost use Rattle.sml_expansion.specs.Makings.{Runs};
ghost use Rattle.sml_expansion.specs.Patterns.{not_fixed, binds, variable, identifier, no_long, no_constructor};
ghost use Rattle.sml_expansion.specs.Scopes.{meaning_of};
ghost use Rattle.expand_patterns.specs.Expands.{Expands, Binds};
ghost use Rattle.expand_patterns.specs.Names.{binds_short};

use sml_expansion::base::is_fixed;
use sml_expansion::{Bound, Ident, Meaning, Parsed, Walk};
use sml_tree::bare::Node;
use smlc_base::{Name, NoMemory, Place, Refusal};

/// An identifier is none of those that aren't bound again.
pub fn not_fixed(parsed: &Parsed, walk: &mut Walk, ident: Ident)
    ensures { walk.new ≡ record walk.old { made = (not_fixed parsed.now.names ident walk.old.made).1 } }
{
    if is_fixed(parsed.text(ident.key)) {
        walk.made.refuse(Refusal::BadBinding(ident.place));
    }
}

/// A new variable.
pub fn binds(
    parsed: &Parsed,
    walk: &mut Walk,
    bound: &mut Vec<Bound>,
    ident: Ident,
) -> Result<Name, NoMemory>
    ensures walk { OnOk result (walk.new ≡ record walk.old { made = (binds parsed.now.names ident walk.old.made).1 }) }
    ensures bound { OnOk result (bound.new.items ≡ bound.old.items ++ (binds parsed.now.names ident walk.old.made).0 ∷ []) }
    ensures name { IfOk result (λ name. name.0 ≡ (binds parsed.now.names ident walk.old.made).0.name) }
{
    not_fixed(parsed, walk, ident);
    let name = walk.made.new_name(parsed.text(ident.key))?;
    bound.push(Bound { ident, name })?;
    Ok(Name(name))
}

/// The binding of an identifier that isn't long.
pub(crate) fn binds_short(
    parsed: &Parsed,
    walk: &mut Walk,
    bound: &mut Vec<Bound>,
    ident: Ident,
) -> Result<(), NoMemory>
    ensures { OnOk result (Binds parsed.now.names (λ s. binds_short s.names ident) walk.old walk.new bound.old.items bound.new.items) }
{
    if ident.long {
        Ok(())
    } else {
        binds(parsed, walk, bound, ident)?;
        Ok(())
    }
}

/// What a long identifier breaks that isn't a constructor.
pub(crate) fn no_long(meaning: Option<Meaning>, ident: Ident) -> Refusal
    ensures { result ≡ no_long meaning ident }
{
    match meaning {
        None => Refusal::Unbound(ident.place),
        Some(_) => Refusal::BadBinding(ident.place),
    }
}

/// What an identifier breaks that has to be a constructor and is none.
pub fn no_constructor(meaning: Option<Meaning>, ident: Ident) -> Refusal
    ensures { result ≡ no_constructor meaning ident }
{
    if ident.long && meaning.is_some() {
        Refusal::BadBinding(ident.place)
    } else {
        Refusal::Unbound(ident.place)
    }
}

/// An identifier alone that isn't a constructor.
fn variable(
    parsed: &Parsed,
    walk: &mut Walk,
    bound: &mut Vec<Bound>,
    place: Place,
    ident: Ident,
    meaning: Option<Meaning>,
) -> Result<(), NoMemory>
    ensures { OnOk result (Expands parsed.now.names (λ s. variable s.names place ident meaning) 1 walk.old walk.new bound.old.items bound.new.items) }
{
    if ident.long {
        walk.made.refuse(no_long(meaning, ident));
        walk.leaf(Node::Wild, place)
    } else {
        let name = binds(parsed, walk, bound, ident)?;
        walk.leaf(Node::PatVar(name), place)
    }
}

/// An identifier alone: a constructor, or a variable.
pub fn identifier(
    parsed: &Parsed,
    walk: &mut Walk,
    bound: &mut Vec<Bound>,
    place: Place,
    ident: Ident,
) -> Result<u32, NoMemory>
    ensures { IfOk result (λ trees. Expands parsed.now.names (λ s. identifier s.names place ident (meaning_of s ident.key)) trees walk.old walk.new bound.old.items bound.new.items) }
{
    let meaning = parsed.value(&walk.bindings, ident.key);
    match meaning {
        Some(Meaning::Constructor(con)) => walk.leaf(Node::PatCon(con), place)?,
        other => variable(parsed, walk, bound, place, ident, other)?,
    }
    Ok(1)
}
