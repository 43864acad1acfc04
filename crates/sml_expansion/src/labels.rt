//! The order of a record's labels, and fields.

ghost use Rattle.std.specs.Prelude.{◌≡◌, IfOk, map, length, count_by};
ghost use Rattle.sml_expansion.specs.Labels.{slot, numbers, before};
ghost use Rattle.sml_tree.specs.IsBare.{bytes_less, lab_less};
ghost use Rattle.sml_tree.specs.declared.bare.Lab.{Lab};
ghost use Rattle.std.specs.List.Sorted.{IsSortedBy};
ghost use Rattle.std.specs.Ordering.{is_lt};
ghost use Rattle.sml_expansion.specs.Types.{labs_of, type_fields};
ghost use Rattle.sml_expansion.specs.Bare.{fields};
ghost use Rattle.sml_expansion.specs.Fields.{slot_placed, slotted, typed};

use crate::number::number;
use sml_tree::bare::{Field, Lab, TypeField};
use smlc_base::{NoMemory, Place, Row};
use std::alloc::Global;
use std::cmp::Ordering;

/// Whether a list of bytes comes before another.
fn bytes_less(left: &[u8], right: &[u8]) -> bool
    ensures { result ≡ bytes_less left.now right.now }
{
    let mut left = left;
    let mut right = right;
    while let [first, left_rest @ ..] = left {
        let [second, right_rest @ ..] = right else {
            return false;
        };
        if *first != *second {
            return *first < *second;
        }
        left = left_rest;
        right = right_rest;
    }
    !right.is_empty()
}

/// Whether a label comes before another.
fn lab_less(left: &Lab, right: &Lab) -> bool
    ensures { result ≡ lab_less left.now right.now }
{
    match left {
        Lab::Num(x) => match right {
            Lab::Num(y) => *x < *y,
            Lab::Text(_) => true,
        },
        Lab::Text(xs) => match right {
            Lab::Num(_) => false,
            Lab::Text(ys) => bytes_less(xs.items(), ys.items()),
        },
    }
}

/// How a label stands to another.
fn compare(left: &Lab, right: &Lab) -> Ordering
    ensures { is_lt result ≡ lab_less left.now right.now }
{
    if lab_less(left, right) {
        Ordering::Less
    } else if lab_less(right, left) {
        Ordering::Greater
    } else {
        Ordering::Equal
    }
}

/// Labels in their order.
fn in_order<'a>(alloc: Global, labs: &'a [(Lab, Place)]) -> Result<Vec<&'a Lab>, NoMemory>
    ensures sorted { IfOk result (λ order. IsSortedBy before order.items) }
    ensures same { IfOk result (λ order. (lab : Lab) → count_by (λ other. lab_less other.now lab) order.items ≡ slot (labs_of labs.now) lab) }
{
    let mut order = Vec::new(alloc);
    for (lab, _) in labs {
        order.push(lab)?;
    }
    order.sort_by(|left, right| compare(left, right))?;
    Ok(order)
}

/// How many labels come before one.
fn place_among(order: &[&Lab], lab: &Lab) -> usize
    requires { IsSortedBy before order.now }
    ensures { result ≡ count_by (λ other. lab_less other.now lab.now) order.now }
{
    order.partition_point(|other| lab_less(other, lab))
}

/// The place of each label among the labels of a record.
pub fn slots(alloc: Global, labs: &[(Lab, Place)]) -> Result<Vec<u32>, NoMemory>
    ensures { IfOk result (λ slots. slots.items ≡ map (slot (labs_of labs.now)) (labs_of labs.now)) }
{
    let order = in_order(alloc, labs)?;
    let mut slots = Vec::new(alloc);
    for (lab, _) in labs {
        slots.push(number(place_among(&order, lab))?)?;
    }
    Ok(slots)
}

/// The place of each label among the labels of a record, with where it stands.
pub(crate) fn slots_placed(
    alloc: Global,
    labs: &[(Lab, Place)],
) -> Result<Vec<(u32, Place)>, NoMemory>
    ensures { IfOk result (λ slots. slots.items ≡ map (slot_placed (labs_of labs.now)) labs.now) }
{
    let order = in_order(alloc, labs)?;
    let mut slots = Vec::new(alloc);
    for (lab, place) in labs {
        slots.push((number(place_among(&order, lab))?, *place))?;
    }
    Ok(slots)
}

/// Fields with these slots, as far as there are some.
fn slotted(alloc: Global, labs: Vec<(Lab, Place)>, slots: &[u32]) -> Result<Row<Field>, NoMemory>
    ensures { IfOk result (λ row. row ≡ slotted slots.now labs.items) }
{
    let mut row = Row::new(alloc);
    let mut rest = slots;
    for (lab, _) in labs {
        if let [slot, more @ ..] = rest {
            row.push(Field {
                lab,
                slot: *slot,
                node: 0,
            })?;
            rest = more;
        }
    }
    Ok(row)
}

/// Fields with these types, as far as there are some.
fn typed(alloc: Global, fields: Row<Field>, types: &[u32]) -> Result<Row<TypeField>, NoMemory>
    ensures { IfOk result (λ row. row ≡ typed fields types.now) }
{
    let mut row = Row::new(alloc);
    let mut rest = types;
    for field in fields.into_vec() {
        if let [ty, more @ ..] = rest {
            row.push(TypeField {
                lab: field.lab,
                slot: field.slot,
                ty: *ty,
            })?;
            rest = more;
        }
    }
    Ok(row)
}

/// The fields of a record with these labels, in written order, in which no part is named yet.
pub fn fields(alloc: Global, labs: Vec<(Lab, Place)>) -> Result<Row<Field>, NoMemory>
    ensures { IfOk result (λ row. row ≡ fields (labs_of labs.items)) }
{
    let slots = slots(alloc, &labs)?;
    slotted(alloc, labs, &slots)
}

/// The fields of a tuple, in which no part is named yet.
pub fn tuple_fields(alloc: Global, count: u32) -> Result<Row<Field>, NoMemory>
    ensures { IfOk result (λ row. row ≡ fields (numbers 0 count)) }
{
    let mut row = Row::new(alloc);
    for slot in 0..count {
        row.push(Field {
            lab: Lab::Num(i64::from(slot) + 1),
            slot,
            node: 0,
        })?;
    }
    Ok(row)
}

/// The fields of a record type with these labels, in written order.
pub fn type_fields(
    alloc: Global,
    labs: Vec<(Lab, Place)>,
    types: &[u32],
) -> Result<Row<TypeField>, NoMemory>
    ensures { IfOk result (λ row. row ≡ type_fields (labs_of labs.items) types.now) }
{
    let fields = fields(alloc, labs)?;
    typed(alloc, fields, types)
}

/// The fields of a product.
pub fn product_fields(alloc: Global, types: &[u32]) -> Result<Row<TypeField>, NoMemory>
    ensures { IfOk result (λ row. row ≡ type_fields (numbers 0 (length types.now)) types.now) }
{
    let fields = tuple_fields(alloc, number(types.len())?)?;
    typed(alloc, fields, types)
}
