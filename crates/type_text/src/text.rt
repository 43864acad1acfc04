//! The lines of names and their types.

ghost use Rattle.std.specs.Prelude.{◌≡◌, ◌<◌, length, map, IfOk, OnOk, All};
ghost use Rattle.type_text.specs.Text.{lines};
ghost use Rattle.type_text.specs.States.{with_line};
ghost use Rattle.type_text.specs.Entries.{entry_of};

use crate::show::show;
use crate::written::Written;
use sml_types::Typed;
use smlc_base::{Name, NoMemory};
use std::alloc::Global;

fn write_line(
    alloc: Global,
    typed: &Typed,
    name: Name,
    written: &mut Written,
) -> Result<(), NoMemory>
    requires { name.0 < length typed.now.schemes }
    ensures { OnOk result (written.new ≡ with_line typed.now.tables.names written.old (entry_of typed.now name)) }
{
    let at = name.0 as usize;
    let scheme = &typed.schemes.items()[at].scheme;
    written.begin(alloc, scheme.vars.items())?;
    written.bytes(b"val ")?;
    written.bytes(typed.bare.names.items()[at].items())?;
    written.bytes(b" : ")?;
    let forms = typed.types.forms();
    show(
        alloc,
        forms,
        typed.tables.names.items(),
        scheme.body,
        written,
    )?;
    written.bytes(b"\n")
}

/// The lines `val NAME : TYPE` of these names, in their order.
pub fn lines(alloc: Global, typed: &Typed, shown: &[Name]) -> Result<Vec<u8>, NoMemory>
    requires { All (λ name. name.0 < length typed.now.schemes) shown.now }
    ensures { IfOk result (λ text. text.items ≡ lines typed.now.tables.names (map (entry_of typed.now) shown.now)) }
{
    let mut written = Written::new(alloc);
    'shown: for name in shown {
        write_line(alloc, typed, *name, &mut written)?;
    }
    Ok(written.into_bytes())
}
