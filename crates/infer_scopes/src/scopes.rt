//! The contexts of the nodes.

ghost use Rattle.std.specs.Prelude.{◌≡◌, ℕ, Bool, true, ◌||◌, Option, Some, None, [], ◌∷◌, length, map, slice_get, IsTrue, IfOk};
ghost use Rattle.std.specs.List.{list_all, AllByRecursion};
ghost use Rattle.sml_tree.specs.declared.bare.Node.TheVariants.{Let};
ghost use Rattle.sml_tree.specs.BareParts.{IsNumbered};
ghost use Rattle.sml_types.specs.Poly.{Context, is_in, with_tyvars, with_own};
ghost use Rattle.sml_types.specs.Typing.{group_names};
ghost use Rattle.infer_state.specs.Names.{names_bound, inside, in_rules, in_bindings, parts_in};
ghost use Rattle.infer_scopes.specs.declared.scope.Scope.{Scope};
ghost use Rattle.infer_scopes.specs.Scopes.{Stored, Standing, standing, grown, contexts_of, IsScope, AllOpen, AreOpen, IsFirst, HasEntered, HasEnteredBody, Enters, EntersBody};

use crate::bound::{are_among, group_names, made_by, pattern_names};
use crate::chains::{Cell, Chains};
use crate::scope::{Added, NOTHING, Scope, grown};
use sml_tree::bare::{Binding, Field, RecBinding, Rule};
use sml_tree::{Bare, Node};
use smlc_base::{Name, NoMemory, Row};
use std::alloc::Global;
use std::marker::Model;

/// The contexts of the nodes that have one, in lists that share their ends.
#[derive(Drop)]
pub struct Scopes {
    chains: Chains,
    scopes: Row<Option<Scope>>,
    // For each name the cell in which it was added to the names of a context.
    homes: Vec<Option<usize>>,
}

impl Model for Scopes {
    ghost use Rattle.infer_scopes.specs.Scopes.{Stored, AreScopes};

    ghost Value = { Stored };

    ghost view = { λ s. record { cells = s.chains; scopes = s.scopes } };

    ghost invariant = { λ s. AreScopes (record { cells = s.chains; scopes = s.scopes }) };
}

// Keeps for the names in the last cells where they stand.
fn remember(cells: &[Cell], count: usize, homes: &mut Vec<Option<usize>>) -> Result<(), NoMemory> {
    'cells: for at in cells.len().saturating_sub(count)..cells.len() {
        let name = cells[at].item as usize;
        if name >= homes.len() {
            homes.resize(name + 1, None)?;
        }
        homes[name] = Some(at);
    }
    Ok(())
}

impl Scopes {
    // As many nodes without a context.
    fn empty(alloc: Global, nodes: usize) -> Result<Scopes, NoMemory>
        ensures cells { IfOk result (λ s. s.cells ≡ []) }
        ensures none { IfOk result (λ s. (i : ℕ) (scope : Scope) → slice_get s.scopes i ≡ Some (Some scope) → ⊥) }
    {
        let mut scopes = Row::new(alloc);
        'nodes: for _ in 0..nodes {
            scopes.push(None)?;
        }
        Ok(Scopes {
            chains: Chains::new(alloc),
            scopes,
            homes: Vec::new(alloc),
        })
    }

    /// Node 0 in the context before the first declaration, and no other context.
    pub fn new(alloc: Global, nodes: usize) -> Result<Scopes, NoMemory>
        ensures first { IfOk result (λ s. IsFirst (contexts_of s)) }
        ensures closed { IfOk result (λ s. (p : ℕ → Bool) → AllOpen p s) }
    {
        let mut scopes = Scopes::empty(alloc, nodes)?;
        let added = Added {
            type_names: &[0, 1, 2, 3, 4, 5, 6, 7, 8, 9],
            tyvars: &[],
            names: &[],
            own: &[],
            unclosed: &[],
        };
        let first = scopes.grow(added, NOTHING)?;
        scopes.put(0, first)?;
        Ok(scopes)
    }

    // Whether a node is there and has no context.
    fn is_free(&self, node: u32) -> bool
        ensures { IsTrue result → slice_get self.now.scopes node ≡ Some None }
    {
        matches!(self.scopes.items().get(node as usize), Some(None))
    }

    // A node gets a scope.
    fn put(&mut self, node: u32, scope: Scope) -> Result<(), NoMemory>
        requires { IsScope self.old.cells scope }
        ensures { IfOk result (λ _. Enters (inside (standing self.old.cells scope).context node ∷ []) (standing self.old.cells scope) self.old self.new) }
    {
        if !self.is_free(node) {
            return Err(NoMemory);
        }
        self.scopes.set(node as usize, Some(scope));
        Ok(())
    }

    // Two nodes get a scope.
    fn put_both(&mut self, first: u32, second: u32, scope: Scope) -> Result<(), NoMemory>
        requires { IsScope self.old.cells scope }
        ensures { IfOk result (λ _. Enters (inside (standing self.old.cells scope).context first ∷ inside (standing self.old.cells scope).context second ∷ []) (standing self.old.cells scope) self.old self.new) }
    {
        self.put(first, scope)?;
        self.put(second, scope)
    }

    // A scope with more at the fronts of its lists.
    fn grow(&mut self, added: Added<'_>, scope: Scope) -> Result<Scope, NoMemory>
        requires scope { IsScope self.old.cells scope }
        requires among { (x : ℕ) → is_in added.unclosed.now x ≡ true → is_in added.names.now x ≡ true }
        ensures entered { Enters [] (standing self.old.cells scope) self.old self.new }
        ensures scope { IfOk result (λ s. IsScope self.new.cells s) }
        ensures stands { IfOk result (λ s. standing self.new.cells s ≡ grown added.entry.type_names.now added.entry.tyvars.now added.entry.names.now added.entry.own.now added.entry.unclosed.now (standing self.old.cells scope)) }
    {
        let count = added.names.len();
        let inner = grown(&mut self.chains, added, scope)?;
        remember(self.chains.cells(), count, &mut self.homes)?;
        Ok(inner)
    }

    // A scope with more names.
    fn with_names(&mut self, names: &[u32], scope: Scope) -> Result<Scope, NoMemory>
        requires scope { IsScope self.old.cells scope }
        ensures entered { Enters [] (standing self.old.cells scope) self.old self.new }
        ensures scope { IfOk result (λ s. IsScope self.new.cells s) }
        ensures stands { IfOk result (λ s. standing self.new.cells s ≡ grown [] [] names.now [] names.now (standing self.old.cells scope)) }
    {
        let added = Added {
            type_names: &[],
            tyvars: &[],
            names,
            own: &[],
            unclosed: names,
        };
        self.grow(added, scope)
    }

    // The parts of a rule.
    fn enter_rule(
        &mut self,
        alloc: Global,
        bare: &Bare,
        rule: Rule,
        scope: Scope,
    ) -> Result<(), NoMemory>
        requires numbered { IsNumbered bare.now.nodes }
        requires scope { IsScope self.old.cells scope }
        ensures { IfOk result (λ _. Enters (in_rules bare.now.nodes (standing self.old.cells scope).context (rule ∷ [])) (standing self.old.cells scope) self.old self.new) }
    {
        self.put(rule.pat, scope)?;
        let names = pattern_names(alloc, bare, rule.pat)?;
        let inner = self.with_names(&names, scope)?;
        self.put(rule.body, inner)
    }

    // The parts of rules.
    fn enter_rules(
        &mut self,
        alloc: Global,
        bare: &Bare,
        rules: &[Rule],
        scope: Scope,
    ) -> Result<(), NoMemory>
        requires numbered { IsNumbered bare.now.nodes }
        requires scope { IsScope self.old.cells scope }
        ensures { IfOk result (λ _. Enters (in_rules bare.now.nodes (standing self.old.cells scope).context rules.now) (standing self.old.cells scope) self.old self.new) }
    {
        'rules: for rule in rules {
            self.enter_rule(alloc, bare, *rule, scope)?;
        }
        Ok(())
    }

    // The parts of an expression with a match.
    fn enter_match(
        &mut self,
        alloc: Global,
        bare: &Bare,
        argument: u32,
        rules: &[Rule],
        scope: Scope,
    ) -> Result<(), NoMemory>
        requires numbered { IsNumbered bare.now.nodes }
        requires scope { IsScope self.old.cells scope }
        ensures { IfOk result (λ _. Enters (inside (standing self.old.cells scope).context argument ∷ in_rules bare.now.nodes (standing self.old.cells scope).context rules.now) (standing self.old.cells scope) self.old self.new) }
    {
        self.put(argument, scope)?;
        self.enter_rules(alloc, bare, rules, scope)
    }

    // The parts of a record.
    fn enter_fields(&mut self, fields: &[Field], scope: Scope) -> Result<(), NoMemory>
        requires { IsScope self.old.cells scope }
        ensures { IfOk result (λ _. Enters (map (λ l. inside (standing self.old.cells scope).context l.node) fields.now) (standing self.old.cells scope) self.old self.new) }
    {
        'fields: for field in fields {
            self.put(field.node, scope)?;
        }
        Ok(())
    }

    // The patterns and right sides of bindings.
    fn enter_bindings(&mut self, bindings: &[Binding], scope: Scope) -> Result<(), NoMemory>
        requires { IsScope self.old.cells scope }
        ensures { IfOk result (λ _. Enters (in_bindings (standing self.old.cells scope).context bindings.now) (standing self.old.cells scope) self.old self.new) }
    {
        'bindings: for binding in bindings {
            self.put_both(binding.pat, binding.right, scope)?;
        }
        Ok(())
    }

    // The parts of a value declaration.
    fn enter_values(
        &mut self,
        tyvars: &[u32],
        bindings: &[Binding],
        scope: Scope,
    ) -> Result<(), NoMemory>
        requires { IsScope self.old.cells scope }
        ensures { IfOk result (λ _. Enters (in_bindings (with_tyvars tyvars.now (standing self.old.cells scope).context) bindings.now) (standing self.old.cells scope) self.old self.new) }
    {
        let added = Added {
            type_names: &[],
            tyvars,
            names: &[],
            own: &[],
            unclosed: &[],
        };
        let inner = self.grow(added, scope)?;
        self.enter_bindings(bindings, inner)
    }

    // The right sides of recursive bindings.
    fn enter_rights(&mut self, bindings: &[RecBinding], scope: Scope) -> Result<(), NoMemory>
        requires { IsScope self.old.cells scope }
        ensures { IfOk result (λ _. Enters (map (λ b. inside (standing self.old.cells scope).context b.right) bindings.now) (standing self.old.cells scope) self.old self.new) }
    {
        'bindings: for binding in bindings {
            self.put(binding.right, scope)?;
        }
        Ok(())
    }

    // The parts of a recursive value declaration.
    fn enter_group(
        &mut self,
        alloc: Global,
        tyvars: &[u32],
        bindings: &[RecBinding],
        scope: Scope,
    ) -> Result<(), NoMemory>
        requires { IsScope self.old.cells scope }
        ensures { IfOk result (λ _. Enters (map (λ b. inside (with_tyvars tyvars.now (with_own (group_names bindings.now) (standing self.old.cells scope).context)) b.right) bindings.now) (standing self.old.cells scope) self.old self.new) }
    {
        let names = group_names(alloc, bindings)?;
        let added = Added {
            type_names: &[],
            tyvars,
            names: &names,
            own: &names,
            unclosed: &names,
        };
        let inner = self.grow(added, scope)?;
        self.enter_rights(bindings, inner)
    }

    // The parts of a node that stands in a scope.
    fn enter_node(
        &mut self,
        alloc: Global,
        bare: &Bare,
        node: &Node,
        scope: Scope,
    ) -> Result<(), NoMemory>
        requires numbered { IsNumbered bare.now.nodes }
        requires scope { IsScope self.old.cells scope }
        ensures { IfOk result (λ _. Enters (parts_in bare.now.nodes (standing self.old.cells scope).context node.now) (standing self.old.cells scope) self.old self.new) }
    {
        match node {
            Node::Record(fields) => self.enter_fields(fields.items(), scope),
            Node::App(function, argument) => self.put_both(*function, *argument, scope),
            Node::Case(e, rules) => self.enter_match(alloc, bare, *e, rules.items(), scope),
            Node::Fn(rules) => self.enter_rules(alloc, bare, rules.items(), scope),
            Node::Raise(e) => self.put(*e, scope),
            Node::Handle(e, rules) => self.enter_match(alloc, bare, *e, rules.items(), scope),
            Node::Typed(e, _) => self.put(*e, scope),
            Node::Let(dec, _) => self.put(*dec, scope),
            Node::PatApp(_, pat) => self.put(*pat, scope),
            Node::PatRecord(fields) => self.enter_fields(fields.items(), scope),
            Node::PatTyped(pat, _) => self.put(*pat, scope),
            Node::PatAs(_, pat) => self.put(*pat, scope),
            Node::Val(tyvars, bindings) => {
                self.enter_values(tyvars.items(), bindings.items(), scope)
            }
            Node::ValRec(tyvars, bindings) => {
                self.enter_group(alloc, tyvars.items(), bindings.items(), scope)
            }
            _ => Ok(()),
        }
    }

    /// Gives each part of a node the context that it stands in; but for what stands behind a declaration.
    pub fn enter(&mut self, alloc: Global, bare: &Bare, node: u32) -> Result<(), NoMemory>
        requires numbered { IsNumbered bare.now.nodes }
        ensures entered { IfOk result (λ _. HasEntered bare.now.nodes node (contexts_of self.old) (contexts_of self.new)) }
        ensures closed { IfOk result (λ _. (p : ℕ → Bool) → AllOpen p self.old → AllOpen p self.new) }
    {
        let Some(scope) = self.scope(node) else {
            return Err(NoMemory);
        };
        let at = node as usize;
        if at >= bare.nodes.len() {
            return Err(NoMemory);
        }
        self.enter_node(alloc, bare, &bare.nodes.items()[at], scope)
    }

    // What stands behind a declaration.
    fn enter_behind(
        &mut self,
        alloc: Global,
        bare: &Bare,
        dec: u32,
        body: u32,
        unclosed: &[u32],
        scope: Scope,
    ) -> Result<(), NoMemory>
        requires numbered { IsNumbered bare.now.nodes }
        requires scope { IsScope self.old.cells scope }
        ensures { IfOk result (λ _. EntersBody bare.now.nodes dec body unclosed.now (standing self.old.cells scope) self.old self.new) }
    {
        let names = pattern_names(alloc, bare, dec)?;
        if !are_among(&names, unclosed) {
            return Err(NoMemory);
        }
        let made = made_by(alloc, bare.nodes.items(), dec)?;
        let added = Added {
            type_names: &made,
            tyvars: &[],
            names: &names,
            own: &[],
            unclosed,
        };
        let inner = self.grow(added, scope)?;
        self.put(body, inner)
    }

    /// Gives what stands behind a declaration its context. Of the names that the declaration binds, those of `unclosed` are not closed.
    pub fn enter_body(
        &mut self,
        alloc: Global,
        bare: &Bare,
        node: u32,
        unclosed: &[u32],
    ) -> Result<(), NoMemory>
        requires numbered { IsNumbered bare.now.nodes }
        ensures entered { IfOk result (λ _. HasEnteredBody bare.now.nodes node (contexts_of self.old) (contexts_of self.new)) }
        ensures closed { IfOk result (λ _. (p : ℕ → Bool) → AllOpen p self.old → ((d e : ℕ) → slice_get bare.now.nodes node ≡ Some (Let d e) → AreOpen p (names_bound bare.now.nodes d) unclosed.now) → AllOpen p self.new) }
    {
        let Some(scope) = self.scope(node) else {
            return Err(NoMemory);
        };
        let at = node as usize;
        if at >= bare.nodes.len() {
            return Err(NoMemory);
        }
        match &bare.nodes.items()[at] {
            Node::Let(dec, body) => { self.enter_behind(alloc, bare, *dec, *body, unclosed, scope) }
            _ => Err(NoMemory),
        }
    }

    // The scope of a node.
    fn scope(&self, node: u32) -> Option<Scope>
        ensures is { (s : Scope) → result ≡ Some s → slice_get self.now.scopes node ≡ Some (Some s) }
        ensures stands { (s : Scope) → result ≡ Some s → IsScope self.now.cells s }
        ensures not { result ≡ None → contexts_of self.now node ≡ None }
    {
        *self.scopes.items().get(node as usize)?
    }

    /// Whether a node has a context.
    pub fn has(&self, node: u32) -> bool
        ensures { IsTrue result → (c : Context) × (contexts_of self.now node ≡ Some c) }
    {
        match self.scope(node) {
            Some(_) => true,
            None => false,
        }
    }

    /// Whether a node is a part of the recursive declaration of a name.
    pub fn is_own(&self, node: u32, name: Name) -> bool
        ensures { (c : Context) → contexts_of self.now node ≡ Some c → result ≡ is_in c.own name.0 }
    {
        match self.scope(node) {
            Some(scope) => self.chains.contains(scope.own, name.0),
            None => false,
        }
    }

    // The cell in which a name was put last.
    fn home(&self, name: Name) -> Option<usize> {
        *self.homes.get(name.0 as usize)?
    }

    /// Whether a name is bound around a node.
    pub fn is_bound(&self, node: u32, name: Name) -> bool
        ensures { (c : Context) → contexts_of self.now node ≡ Some c → result ≡ is_in c.names name.0 }
    {
        match self.scope(node) {
            Some(scope) => self.chains.holds(scope.names, name.0, self.home(name)),
            None => false,
        }
    }

    /// Whether all these type names are there around a node.
    pub fn all_known(&self, node: u32, type_names: &[u32]) -> bool
        ensures { (c : Context) → contexts_of self.now node ≡ Some c → result ≡ list_all (is_in c.type_names) type_names.now }
    {
        match self.scope(node) {
            Some(scope) => self.chains.contains_all(scope.type_names, type_names),
            None => false,
        }
    }

    /// The explicit type variables that are bound around a node.
    pub fn tyvars(&self, alloc: Global, node: u32) -> Result<Vec<u32>, NoMemory>
        ensures { IfOk result (λ v. (c : Context) → contexts_of self.now node ≡ Some c → v.items ≡ c.tyvars) }
    {
        match self.scope(node) {
            Some(scope) => self.chains.items(alloc, scope.tyvars),
            None => Ok(Vec::new(alloc)),
        }
    }

    /// The names in whose recursive declarations a node stands.
    pub fn own_names(&self, alloc: Global, node: u32) -> Result<Vec<u32>, NoMemory>
        ensures { IfOk result (λ v. (c : Context) → contexts_of self.now node ≡ Some c → v.items ≡ c.own) }
    {
        match self.scope(node) {
            Some(scope) => self.chains.items(alloc, scope.own),
            None => Ok(Vec::new(alloc)),
        }
    }

    /// Names that are bound around a node, among them all that are not closed.
    pub fn open_names(&self, alloc: Global, node: u32) -> Result<Vec<u32>, NoMemory>
        ensures bound { IfOk result (λ v. (c : Context) → contexts_of self.now node ≡ Some c → AllByRecursion (λ x. is_in c.names x ≡ true) v.items) }
        ensures all { IfOk result (λ v. (p : ℕ → Bool) → AllOpen p self.now → (c : Context) → contexts_of self.now node ≡ Some c → AreOpen p c.names v.items) }
    {
        match self.scope(node) {
            Some(scope) => self.chains.items(alloc, scope.unclosed),
            None => Ok(Vec::new(alloc)),
        }
    }
}
