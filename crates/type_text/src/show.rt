//! A type in its text, piece by piece.

ghost use Rattle.std.specs.Prelude.{◌≡◌, None, Some, OnOk, IfNone, IfSome, slice_get};
ghost use Rattle.sml_types.specs.Forms.{tree, AreForms};
ghost use Rattle.type_text.specs.declared.level.Level.TheVariants.{Function};
ghost use Rattle.type_text.specs.Text.{type_text, spelling};
ghost use Rattle.type_text.specs.Tasks.{ShowType};
ghost use Rattle.type_text.specs.Stacks.{task_of};
ghost use Rattle.type_text.specs.States.{with_items, IsStep};

use crate::level::Level;
use crate::parts::{push_arguments, push_arrow, push_further, push_named, push_parts, push_record};
use crate::work::{Piece, Work};
use crate::written::Written;
use sml_types::{Ty, TyForm, TypeName};
use smlc_base::NoMemory;
use std::alloc::Global;

fn name_bytes<'a>(type_names: &'a [TypeName], number: u32) -> &'a [u8]
    ensures { result.now ≡ spelling (slice_get type_names.now number) }
{
    match type_names.get(number as usize) {
        Some(name) => name.text.items(),
        None => &[],
    }
}

fn form_at(forms: &[TyForm], ty: Ty) -> Option<&TyForm>
    ensures none { IfNone result (slice_get forms.now ty.0 ≡ None) }
    ensures some { IfSome result (λ form. slice_get forms.now ty.0 ≡ Some form.now) }
{
    forms.get(ty.0 as usize)
}

/// Shows a type as far as its form says, and leaves its parts as pieces.
fn show_form<'a>(
    forms: &'a [TyForm],
    type_names: &'a [TypeName],
    ty: Ty,
    level: Level,
    work: &mut Work<'a>,
    written: &mut Written,
) -> Result<(), NoMemory>
    requires { AreForms forms.now }
    ensures { OnOk result (IsStep forms.now type_names.now (ShowType ty.0 level) written.old work.old written.new work.new) }
{
    match form_at(forms, ty) {
        None => Ok(()),
        Some(form) => match form {
            TyForm::Var(var) => written.variable(*var),
            TyForm::Fields(fields) => push_record(work, fields.items(), level),
            TyForm::Arrow(from, to) => push_arrow(work, *from, *to, level),
            TyForm::Named(number, args) => {
                push_named(work, name_bytes(type_names, *number), args.items())
            }
        },
    }
}

fn show_piece<'a>(
    forms: &'a [TyForm],
    type_names: &'a [TypeName],
    piece: Piece<'a>,
    work: &mut Work<'a>,
    written: &mut Written,
) -> Result<(), NoMemory>
    requires { AreForms forms.now }
    ensures { OnOk result (IsStep forms.now type_names.now (task_of piece.entry) written.old work.old written.new work.new) }
{
    match piece {
        Piece::Type(ty, level) => show_form(forms, type_names, ty, level, work, written),
        Piece::Tuple(fields) => push_parts(work, fields),
        Piece::Record(fields) => push_further(work, fields),
        Piece::Arguments(args) => push_arguments(work, args),
        Piece::Label(lab) => written.label(lab),
        Piece::Bytes(bytes) => written.bytes(bytes),
    }
}

/// Writes the text of a type.
pub(crate) fn show(
    alloc: Global,
    forms: &[TyForm],
    type_names: &[TypeName],
    ty: Ty,
    written: &mut Written,
) -> Result<(), NoMemory>
    requires { AreForms forms.now }
    ensures { OnOk result (written.new ≡ with_items written.old (type_text type_names.now (tree forms.now ty.0) Function)) }
{
    let mut work = Work::new(alloc);
    work.push(Piece::Type(ty, Level::Function))?;
    'pieces: while let Some(piece) = work.pop() {
        show_piece(forms, type_names, piece, &mut work, written)?;
    }
    Ok(())
}
