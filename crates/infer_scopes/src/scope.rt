//! The lists of a context.

ghost use Rattle.std.specs.Prelude.{◌≡◌, ℕ, ◌++◌, true, IfOk};
ghost use Rattle.sml_types.specs.Poly.{is_in};
ghost use Rattle.infer_scopes.specs.Chains.{IsMore};
ghost use Rattle.infer_scopes.specs.Scopes.{standing, grown, IsScope};

use crate::chains::Chains;
use smlc_base::NoMemory;

/// The lists of a context, and of its names whose schemes may have free variables.
#[derive(Clone, Copy, Drop)]
pub struct Scope {
    pub type_names: Option<u32>,
    pub tyvars: Option<u32>,
    pub names: Option<u32>,
    pub own: Option<u32>,
    pub unclosed: Option<u32>,
}

/// The scope of a context that has nothing.
pub(crate) const NOTHING: Scope = Scope {
    type_names: None,
    tyvars: None,
    names: None,
    own: None,
    unclosed: None,
};

/// What a context gets at the fronts of its lists.
#[derive(Clone, Copy, Drop)]
pub struct Added<'a> {
    pub type_names: &'a [u32],
    pub tyvars: &'a [u32],
    pub names: &'a [u32],
    pub own: &'a [u32],
    pub unclosed: &'a [u32],
}

/// A scope with more at the fronts of its lists. The names are added last.
pub(crate) fn grown(chains: &mut Chains, added: Added<'_>, scope: Scope) -> Result<Scope, NoMemory>
    requires scope { IsScope chains.old scope }
    requires among { (x : ℕ) → is_in added.unclosed.now x ≡ true → is_in added.names.now x ≡ true }
    ensures more { IsMore chains.old chains.new }
    ensures scope { IfOk result (λ s. IsScope chains.new s) }
    ensures stands { IfOk result (λ s. standing chains.new s ≡ grown added.entry.type_names.now added.entry.tyvars.now added.entry.names.now added.entry.own.now added.entry.unclosed.now (standing chains.old scope)) }
{
    let type_names = chains.extend(added.type_names, scope.type_names)?;
    let tyvars = chains.extend(added.tyvars, scope.tyvars)?;
    let own = chains.extend(added.own, scope.own)?;
    let unclosed = chains.extend(added.unclosed, scope.unclosed)?;
    let names = chains.extend(added.names, scope.names)?;
    Ok(Scope {
        type_names,
        tyvars,
        names,
        own,
        unclosed,
    })
}
