//! Laws of the text in which types are shown, about definitions alone.
//!
//! It stands on `type_text`, `infer_laws`, `infer_scopes`, `infer_state`, `infer_parts`, `sml_unify`, `sml_types`, `sml_tree` and `smlc_base`. Its main contract: a program's types are told by one text alone (`one_text`), since principal typings differ only in the numbers of their variables, and the text names these by their order.
#![tactic(auto)]

ghost use Rattle.sml_tree.specs.declared.bare.Bare.{Bare};
ghost use Rattle.text_laws.specs.Tells.{OneText};

/// Two texts that tell the types of one program are the same.
pub fn one_text()
    ensures { (p : Bare) → OneText p }
{}
