//! What a pass hands on.

ghost use Rattle.std.specs.Prelude.{◌≡◌, IfOk};

use lifetime_users::{Class, ClassRows};
use smlc_base::{Bytes, NoMemory, Row};
use std::alloc::Global;

/// The same items in a row of their own.
pub(crate) fn copied<T: Copy>(alloc: Global, items: &[T]) -> Result<Row<T>, NoMemory>
    ensures { IfOk result (λ r. r ≡ items.now) }
{
    let copy = Vec::from_slice(alloc, items)?;
    Ok(Row::from_vec(copy))
}

/// The same texts in a row of their own.
pub(crate) fn copied_texts(alloc: Global, texts: &[Bytes]) -> Result<Row<Bytes>, NoMemory>
    ensures { IfOk result (λ r. r ≡ texts.now) }
{
    let mut copies = Row::new(alloc);
    for text in texts {
        copies.push(copied(alloc, text.items())?)?;
    }
    Ok(copies)
}

fn copied_class(alloc: Global, class: &Class) -> Result<Class, NoMemory>
    ensures { IfOk result (λ k. k ≡ class.now) }
{
    let vars = copied(alloc, class.vars.items())?;
    let users = copied(alloc, class.users.items())?;
    Ok(Class { vars, users })
}

/// The same classes in rows of their own.
pub(crate) fn copied_classes(alloc: Global, classes: &ClassRows) -> Result<ClassRows, NoMemory>
    ensures { IfOk result (λ k. k.of ≡ classes.now.of) }
{
    let mut copies = Row::new(alloc);
    for class in classes.of.items() {
        copies.push(copied_class(alloc, class)?)?;
    }
    Ok(ClassRows { of: copies })
}
