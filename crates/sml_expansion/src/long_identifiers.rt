//! Long identifiers of the library.

ghost use Rattle.std.specs.Prelude.{◌≡◌, map, IfOk, OnOk};
ghost use Rattle.sml_prelude.specs.Long as table;
ghost use Rattle.sml_prelude.specs.Long.{long_row};
ghost use Rattle.sml_expansion.specs.Scopes.{number_of, latest_at, also, renamed};

use crate::meaning::Meaning;
use crate::number::number;
use crate::scoped::Scoped;
use sml_prelude::entry::Entry;
use sml_prelude::long_identifiers;
use smlc_base::{Name, Names, NoMemory};

/// The number of a text among the names.
fn number_of(names: &Names, text: &[u8]) -> Result<Option<u32>, NoMemory>
    ensures { IfOk result (λ found. found ≡ number_of names.now text.now) }
{
    let count = number(names.len())?;
    for key in 0..count {
        if names.text(Name(key)) == text {
            return Ok(Some(key));
        }
    }
    Ok(None)
}

/// What is bound to a number.
fn bound_to(values: &Scoped<Meaning>, key: Option<u32>) -> Option<Meaning>
    ensures { result ≡ latest_at values.now key }
{
    match key {
        Some(key) => values.get(key),
        None => None,
    }
}

/// Binds a number to what it stands for, if there are both.
fn bind_also(
    values: &mut Scoped<Meaning>,
    key: Option<u32>,
    meaning: Option<Meaning>,
) -> Result<(), NoMemory>
    ensures { OnOk result (values.new ≡ also key meaning values.old) }
{
    match (key, meaning) {
        (Some(key), Some(meaning)) => values.bind(key, meaning),
        _ => Ok(()),
    }
}

/// For each row in order, its first text stands for what its second one is bound to.
fn bind_rows(
    names: &Names,
    rows: &[Entry<&'static [u8]>],
    values: &mut Scoped<Meaning>,
) -> Result<(), NoMemory>
    ensures { OnOk result (values.new ≡ renamed names.now (map long_row rows.now) values.old) }
{
    for row in rows {
        let long = number_of(names, row.text)?;
        let short = number_of(names, row.meaning)?;
        let meaning = bound_to(values, short);
        bind_also(values, long, meaning)?;
    }
    Ok(())
}

/// Each long identifier stands for what its short one is bound to.
pub fn bind_long_identifiers(names: &Names, values: &mut Scoped<Meaning>) -> Result<(), NoMemory>
    ensures { OnOk result (values.new ≡ renamed names.now table.long_identifiers values.old) }
{
    bind_rows(names, long_identifiers(), values)
}
