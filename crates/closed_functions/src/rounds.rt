//! Rounds over all functions.

ghost use Rattle.std.specs.Prelude.{◌≡◌, ◌+◌, ◌||◌, ◌&&◌, not, nat_eq, length, if◌then◌else◌, IfOk, OnOk, [], ◌∷◌};
ghost use Rattle.std.specs.Bool.{OnFalse};
ghost use Rattle.sml_tree.specs.Sets.{has, union, without};
ghost use Rattle.cps_free.specs.Same.{AreSame};
ghost use Rattle.close_laws.specs.Layouts.{needs_only, names_of_layouts};
ghost use Rattle.closed_functions.specs.Round.{NamedOnce, IsRound};

use cps_survey::Layout;
use smlc_base::NoMemory;
use std::alloc::Global;
use std::collections::BTreeSet;

/// Whether a set has a member.
pub(crate) fn contains(set: &BTreeSet<u32>, x: u32) -> bool
    ensures { result ≡ has set.now.keys x }
{
    set.contains(&x)
}

fn is_met(set: &BTreeSet<u32>, name: u32, x: u32) -> bool
    ensures { result ≡ (nat_eq x name || has set.now.keys x) }
{
    x == name || contains(set, x)
}

fn is_content(set: &BTreeSet<u32>, layout: &Layout) -> bool
    ensures { result ≡ needs_only set.now.keys layout.now }
{
    let name = layout.name();
    layout.free().iter().all(|x| is_met(set, name, *x))
}

fn remove(set: &mut BTreeSet<u32>, x: u32) -> bool
    ensures test { result ≡ has set.old.keys x }
    ensures members { AreSame set.new.keys (without set.old.keys (x ∷ [])) }
    ensures unchanged { OnFalse result (set.new.keys ≡ set.old.keys) }
    ensures len { length set.new.keys + (if result then 1 else 0) ≡ length set.old.keys }
{
    set.remove(&x)
}

// A function goes out if it needs something else; answers whether it did.
fn look_at(set: &mut BTreeSet<u32>, layout: &Layout) -> bool
    ensures test { result ≡ (not (needs_only set.old.keys layout.now) && has set.old.keys layout.now.name) }
    ensures members { AreSame set.new.keys (if needs_only set.old.keys layout.now then set.old.keys else without set.old.keys (layout.now.name ∷ [])) }
    ensures unchanged { OnFalse result (set.new.keys ≡ set.old.keys) }
    ensures len { length set.new.keys + (if result then 1 else 0) ≡ length set.old.keys }
{
    if is_content(set, layout) {
        false
    } else {
        remove(set, layout.name())
    }
}

/// Looks at all functions, and answers whether one went out.
pub(crate) fn one_round(set: &mut BTreeSet<u32>, layouts: &[Layout]) -> bool
    requires { NamedOnce layouts.now }
    ensures { IsRound layouts.now layouts.now set.old.keys set.new.keys result }
{
    let mut fell = false;
    for layout in layouts {
        fell |= look_at(set, layout);
    }
    fell
}

fn insert(set: &mut BTreeSet<u32>, x: u32) -> Result<(), NoMemory>
    ensures { OnOk result (AreSame set.new.keys (union (x ∷ []) set.old.keys)) }
{
    set.insert(x)?;
    Ok(())
}

/// The names of all functions.
pub(crate) fn all_names(alloc: Global, layouts: &[Layout]) -> Result<BTreeSet<u32>, NoMemory>
    ensures { IfOk result (λ s. AreSame s.keys (names_of_layouts layouts.now)) }
{
    let mut set = BTreeSet::new(alloc);
    let mut i = layouts.len();
    while i > 0 {
        i -= 1;
        insert(&mut set, layouts[i].name())?;
    }
    Ok(set)
}
