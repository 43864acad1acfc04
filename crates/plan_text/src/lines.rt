//! The lines of labels and classes.

ghost use Rattle.std.specs.Prelude.{◌≡◌, ◌++◌, IfOk, OnOk, flat_map};
ghost use Rattle.close_laws.specs.Text.{kind_text, label_line, user_text, class_line, lines_from};

use crate::put::{put, put_number};
use close_laws::LabelPlan;
use lifetime_users::Class;
use smlc_base::{Label, NoMemory, PointKind};
use std::alloc::Global;

fn kind_word(kind: PointKind) -> &'static [u8]
    ensures { result.now ≡ kind_text kind }
{
    match kind {
        PointKind::Fn => b"fn",
        PointKind::Ret => b"ret",
        PointKind::Caught => b"caught",
        PointKind::Popped => b"popped",
        PointKind::Eq => b"eq",
    }
}

// The line of a label of this number.
fn line_of_label(alloc: Global, number: usize, label: &LabelPlan) -> Result<Vec<u8>, NoMemory>
    ensures { IfOk result (λ v. v.items ≡ label_line number label.now) }
{
    let mut line = Vec::new(alloc);
    put_number(&mut line, b"label ", number as u64)?;
    put(&mut line, b" ")?;
    put(&mut line, kind_word(label.point.kind))?;
    put_number(&mut line, b" ", label.place.file as u64)?;
    put_number(&mut line, b":", label.place.line as u64)?;
    put_number(&mut line, b":", label.place.col as u64)?;
    put_number(&mut line, b" words ", label.words as u64)?;
    put_number(&mut line, b" records ", label.records as u64)?;
    put_number(&mut line, b" source ", label.source as u64)?;
    put(&mut line, b"\n")?;
    Ok(line)
}

pub(crate) fn label_lines(alloc: Global, labels: &[LabelPlan]) -> Result<Vec<u8>, NoMemory>
    ensures { IfOk result (λ v. v.items ≡ lines_from label_line 0 labels.now) }
{
    let mut text = Vec::new(alloc);
    let mut i = 0;
    while i < labels.len() {
        let line = line_of_label(alloc, i, &labels[i])?;
        put(&mut text, &line)?;
        i += 1;
    }
    Ok(text)
}

fn put_user(line: &mut Vec<u8>, user: Label) -> Result<(), NoMemory>
    ensures { OnOk result (line.new.items ≡ line.old.items ++ user_text user) }
{
    put_number(line, b" ", user.0 as u64)
}

fn put_users(line: &mut Vec<u8>, users: &[Label]) -> Result<(), NoMemory>
    ensures { OnOk result (line.new.items ≡ line.old.items ++ flat_map user_text users.now) }
{
    for user in users {
        put_user(line, *user)?;
    }
    Ok(())
}

// The line of a class of this number.
fn line_of_class(alloc: Global, number: usize, class: &Class) -> Result<Vec<u8>, NoMemory>
    ensures { IfOk result (λ v. v.items ≡ class_line number class.now) }
{
    let mut line = Vec::new(alloc);
    put_number(&mut line, b"class ", number as u64)?;
    put_number(&mut line, b" size ", class.vars.len() as u64)?;
    put(&mut line, b" users")?;
    put_users(&mut line, class.users.items())?;
    put(&mut line, b"\n")?;
    Ok(line)
}

pub(crate) fn class_lines(alloc: Global, classes: &[Class]) -> Result<Vec<u8>, NoMemory>
    ensures { IfOk result (λ v. v.items ≡ lines_from class_line 0 classes.now) }
{
    let mut text = Vec::new(alloc);
    let mut i = 0;
    while i < classes.len() {
        let line = line_of_class(alloc, i, &classes[i])?;
        put(&mut text, &line)?;
        i += 1;
    }
    Ok(text)
}
