//! Types, as numbered forms.

ghost use Rattle.std.specs.Prelude.{◌≡◌, ◌<◌, ℕ, [], ◌∷◌, ◌++◌, length, slice_get, IfOk, OnErr, Some};
ghost use Rattle.std.specs.List.{AllByRecursion};
ghost use Rattle.sml_types.specs.declared.types.TyForm.TheVariants.{Var, Fields, Arrow, Named};
ghost use Rattle.sml_types.specs.declared.types.TyVar.{TyVar};
ghost use Rattle.sml_types.specs.Forms.{parts_of, form_tree, tree, AreForms, IsNamedAs};

use sml_tree::bare::Lab;
use smlc_base::{NoMemory, Row};
use std::alloc::Global;
use std::marker::Model;

/// The number of a type in `Types`.
#[derive(Clone, Copy, PartialEq, Eq, Debug, Drop)]
pub struct Ty(pub u32);

/// A type variable. With `eq` it is an equality type variable, and stands for types that admit equality alone.
#[derive(Clone, Copy, PartialEq, Eq, Debug, Drop)]
pub struct TyVar {
    pub num: u32,
    pub eq: bool,
}

/// A field of a record type.
#[derive(Drop)]
pub struct Field {
    pub lab: Lab,
    pub ty: Ty,
}

/// A form of a type: a variable, a record type with its fields in the order of labels, a function type, or the type name of a number in `Tables` at its arguments.
#[derive(Drop)]
pub enum TyForm {
    Var(TyVar),
    Fields(Row<Field>),
    Arrow(Ty, Ty),
    Named(u32, Row<Ty>),
}

/// Types by number. The parts of a form have smaller numbers than the form, and all variables of one number are the same.
#[derive(Drop)]
pub struct Types {
    pub forms: Row<TyForm>,
}

impl Model for Types {
    ghost use Rattle.std.specs.Prelude.{List};
    ghost use Rattle.sml_types.specs.declared.types.TyForm.{TyForm};
    ghost use Rattle.sml_types.specs.Forms.{AreForms};

    ghost Value = { List TyForm };

    ghost view = { λ t. t.forms };

    ghost invariant = { λ t. AreForms t.forms };
}

impl Types {
    /// No types.
    pub fn new(alloc: Global) -> Types
        ensures { result ≡ [] }
    {
        Types {
            forms: Row::new(alloc),
        }
    }

    /// The forms, by number.
    pub fn forms(&self) -> &[TyForm]
        ensures forms { result.now ≡ self.now }
        ensures kept { AreForms self.now }
    {
        self.forms.items()
    }

    /// The form of a type.
    pub fn form(&self, ty: Ty) -> &TyForm
        requires { ty.0 < length self.now }
        ensures here { slice_get self.now ty.0 ≡ Some result.now }
        ensures means { tree self.now ty.0 ≡ form_tree (tree self.now) result.now }
    {
        &self.forms.items()[ty.0 as usize]
    }

    /// Adds a form, whose number is the count of those before it.
    pub fn push(&mut self, form: TyForm) -> Result<Ty, NoMemory>
        requires parts { AllByRecursion (λ c. c < length self.old) (parts_of form) }
        requires named { IsNamedAs self.old form }
        ensures ok { IfOk result (λ t. (t.0 ≡ length self.old) × (self.new ≡ self.old ++ form ∷ [])) }
        ensures err { OnErr result (self.new ≡ self.old) }
        ensures means { IfOk result (λ t. tree self.new t.0 ≡ form_tree (tree self.old) form) }
        ensures keeps { (i : ℕ) → i < length self.old → tree self.new i ≡ tree self.old i }
    {
        let at = self.forms.len();
        if at > u32::MAX as usize {
            return Err(NoMemory);
        }
        self.forms.push(form)?;
        Ok(Ty(at as u32))
    }

    /// Adds a type variable.
    pub fn var(&mut self, var: TyVar) -> Result<Ty, NoMemory>
        requires named { (i : ℕ) (v : TyVar) → slice_get self.old i ≡ Some (Var v) → v.num ≡ var.num → v ≡ var }
        ensures ok { IfOk result (λ t. (t.0 ≡ length self.old) × (self.new ≡ self.old ++ Var var ∷ [])) }
        ensures err { OnErr result (self.new ≡ self.old) }
    {
        self.push(TyForm::Var(var))
    }

    /// Adds a function type.
    pub fn arrow(&mut self, from: Ty, to: Ty) -> Result<Ty, NoMemory>
        requires from { from.0 < length self.old }
        requires to { to.0 < length self.old }
        ensures ok { IfOk result (λ t. (t.0 ≡ length self.old) × (self.new ≡ self.old ++ Arrow from to ∷ [])) }
        ensures err { OnErr result (self.new ≡ self.old) }
    {
        self.push(TyForm::Arrow(from, to))
    }

    /// Adds the type name of a number at its arguments.
    pub fn named(&mut self, name: u32, args: Row<Ty>) -> Result<Ty, NoMemory>
        requires args { AllByRecursion (λ t. t.0 < length self.old) args }
        ensures ok { IfOk result (λ t. (t.0 ≡ length self.old) × (self.new ≡ self.old ++ Named name args ∷ [])) }
        ensures err { OnErr result (self.new ≡ self.old) }
    {
        self.push(TyForm::Named(name, args))
    }

    /// Adds a record type, from its fields in the order of labels.
    pub fn fields(&mut self, fields: Row<Field>) -> Result<Ty, NoMemory>
        requires fields { AllByRecursion (λ f. f.ty.0 < length self.old) fields }
        ensures ok { IfOk result (λ t. (t.0 ≡ length self.old) × (self.new ≡ self.old ++ Fields fields ∷ [])) }
        ensures err { OnErr result (self.new ≡ self.old) }
    {
        self.push(TyForm::Fields(fields))
    }
}
