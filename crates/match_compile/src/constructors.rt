//! What tells a constructor from the others of its type.

ghost use Rattle.std.specs.Prelude.{◌≡◌, slice_get, take, drop};
ghost use Rattle.std.specs.List.{list_any};
ghost use Rattle.match_laws.specs.Compile.{takes_one, takes_none, cons_in, tag_in};

use sml_types::{ConRow, Tables};
use smlc_base::Tag;

// The constructors of a type name.
fn constructors(tables: &Tables, type_name: u32) -> &[ConRow]
    ensures { result.now ≡ cons_in (slice_get tables.now.names type_name) }
{
    match tables.names.items().get(type_name as usize) {
        Some(row) => row.cons.items(),
        None => &[],
    }
}

// Whether one of these takes an argument.
fn any_takes(constructors: &[ConRow]) -> bool
    ensures { result ≡ list_any takes_one constructors.now }
{
    constructors.iter().any(|c| c.arg.is_some())
}

// Whether one of these takes none.
fn any_is_bare(constructors: &[ConRow]) -> bool
    ensures { result ≡ list_any takes_none constructors.now }
{
    constructors.iter().any(|c| !c.arg.is_some())
}

// The constructors before a number.
fn before(constructors: &[ConRow], number: usize) -> &[ConRow]
    ensures { result.now ≡ take number constructors.now }
{
    constructors.get(..number).unwrap_or(constructors)
}

// The constructors behind a number.
fn behind(constructors: &[ConRow], number: usize) -> &[ConRow]
    ensures { result.now ≡ drop 1 (drop number constructors.now) }
{
    let rest = constructors.get(number..).unwrap_or(&[]);
    rest.get(1..).unwrap_or(&[])
}

/// The tag of a constructor of a datatype.
pub fn tag(tables: &Tables, type_name: u32, number: u32, takes: bool) -> Tag
    ensures { result ≡ tag_in number takes (cons_in (slice_get tables.now.names type_name)) }
{
    let constructors = constructors(tables, type_name);
    let earlier = before(constructors, number as usize);
    let later = behind(constructors, number as usize);
    Tag {
        number,
        takes,
        other_takes: any_takes(earlier) || any_takes(later),
        other_bare: any_is_bare(earlier) || any_is_bare(later),
    }
}
