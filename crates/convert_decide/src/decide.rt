//! The rule of 16 words.

ghost use Rattle.std.specs.Prelude.{◌≡◌, ℕ, ◌+◌, ◌<◌, Bool, false, ◌&&◌, ◌||◌, not, List, ◌∷◌, Some, None, IfOk, OnOk, length, map, nat_eq, slice_set};
ghost use Rattle.smlc_base.specs.declared.point.Site.{Site};
ghost use Rattle.prim_meaning.specs.Meaning.{takes_one};
ghost use Rattle.lambda_ir.specs.declared.term.Term.{Term};
ghost use Rattle.convert_laws.specs.Needs.{takes_several, is_atom, needs};
ghost use Rattle.convert_laws.specs.Decide.{Decided, Pending, greater, is_ret, is_caught, too_long, handed, waiting, hand_on, decide_frame, decide_site, decide_all, through, reach};
ghost use Rattle.convert_decide.specs.Table.{AreFacts, fact_in};
ghost use Rattle.convert_decide.specs.Decide.{item_in, AreTaken, AreRets, nothing_decided, IsDecided, IsOwn};
ghost use Rattle.convert_decide.specs.Taken.{taken_by, marked};

use crate::sizes::sum;
use crate::table::{Fact, fact_in};
use convert_laws::{Head, Reach};
use lambda_ir::Term;
use smlc_base::{NoMemory, Point, PointKind, Primitive, Row, Site};
use std::alloc::Global;

// ---- Rows by number

fn flag_in(flags: &[bool], at: u32) -> bool
    ensures { result ≡ item_in false flags.now at }
{
    match flags.get(at as usize) {
        Some(flag) => *flag,
        None => false,
    }
}

// In the place of another, where there is one.
fn put<T: Drop>(row: &mut Row<T>, at: u32, item: T) -> Result<(), NoMemory>
    ensures { OnOk result ((at < length row.old) × (row.new ≡ slice_set row.old at item)) }
{
    let index = at as usize;
    if index >= row.len() {
        return Err(NoMemory);
    }
    row.set(index, item);
    Ok(())
}

// The same item for each number.
fn filled<T: Copy + Drop>(alloc: Global, count: usize, item: T) -> Result<Row<T>, NoMemory>
    ensures many { IfOk result (λ r. length r ≡ count) }
    ensures all { IfOk result (λ r. (j : ℕ) → item_in item r j ≡ item) }
{
    let mut row = Row::new(alloc);
    for _ in 0..count {
        row.push(item)?;
    }
    Ok(row)
}

// ---- Tuples that primitives take apart

/// Whether a primitive has one argument.
pub fn takes_one(primitive: Primitive) -> bool
    ensures { result ≡ takes_one primitive }
{
    match primitive {
        Primitive::Negate => true,
        Primitive::Abs => true,
        Primitive::Deref => true,
        Primitive::Ord => true,
        Primitive::Chr => true,
        Primitive::Size => true,
        Primitive::Str => true,
        Primitive::Implode => true,
        Primitive::Print => true,
        Primitive::InputLine => true,
        _ => false,
    }
}

fn takes_several(head: Head) -> bool
    ensures { result ≡ takes_several head }
{
    match head {
        Head::Builtin(primitive) => !takes_one(primitive),
        _ => false,
    }
}

// The written tuple that a term takes apart.
fn taken_by(facts: &[Fact], term: &Term) -> Option<u32>
    ensures { result ≡ taken_by facts.now term.now }
{
    match term {
        Term::App(f, a) => {
            if takes_several(fact_in(facts, *f).head) {
                if fact_in(facts, *a).is_tuple {
                    return Some(*a);
                }
            }
            None
        }
        _ => None,
    }
}

fn mark(taken: &mut Row<bool>, at: Option<u32>) -> Result<(), NoMemory>
    ensures many { OnOk result (length taken.new ≡ length taken.old) }
    ensures at { OnOk result ((j : ℕ) → item_in false taken.new j ≡ (marked at j || item_in false taken.old j)) }
{
    match at {
        Some(at) => put(taken, at, true),
        None => Ok(()),
    }
}

fn taken(alloc: Global, terms: &[Term], facts: &[Fact]) -> Result<Row<bool>, NoMemory>
    requires facts { AreFacts terms.now facts.now }
    ensures { IfOk result (AreTaken terms.now 0) }
{
    let mut taken = filled(alloc, terms.len(), false)?;
    let mut at = terms.len();
    while at > 0 {
        at -= 1;
        mark(&mut taken, taken_by(facts, &terms[at]))?;
    }
    Ok(taken)
}

// ---- Sites by node

fn is_ret(kind: PointKind) -> bool
    ensures { result ≡ is_ret kind }
{
    match kind {
        PointKind::Ret => true,
        _ => false,
    }
}

fn is_caught(kind: PointKind) -> bool
    ensures { result ≡ is_caught kind }
{
    match kind {
        PointKind::Caught => true,
        _ => false,
    }
}

fn site_in(rets: &[Option<Site>], at: u32) -> Option<Site>
    ensures { result ≡ item_in None rets.now at }
{
    match rets.get(at as usize) {
        Some(site) => *site,
        None => None,
    }
}

fn note(rets: &mut Row<Option<Site>>, site: Site) -> Result<(), NoMemory>
    ensures { OnOk result ((sites : List Site) → AreRets sites rets.old → AreRets (site ∷ sites) rets.new) }
{
    if is_ret(site.point.kind) {
        put(rets, site.point.node, Some(site))
    } else {
        Ok(())
    }
}

fn rets(alloc: Global, count: usize, sites: &[Site]) -> Result<Row<Option<Site>>, NoMemory>
    ensures { IfOk result (AreRets sites.now) }
{
    let mut rets = filled(alloc, count, None)?;
    let mut at = sites.len();
    while at > 0 {
        at -= 1;
        note(&mut rets, sites[at])?;
    }
    Ok(rets)
}

// ---- Words

fn passes_on(taken: &[bool], point: Point) -> bool
    ensures { result ≡ (is_ret point.kind && item_in false taken.now point.node) }
{
    is_ret(point.kind) && flag_in(taken, point.node)
}

fn through(words: u32, site: Option<Site>) -> Result<Reach, NoMemory>
    ensures { IfOk result (λ r. r ≡ through words site) }
{
    match site {
        None => Ok(Reach { words, outer: None }),
        Some(site) => {
            let words = sum(words, site.words)?;
            let outer = site.outer;
            Ok(Reach { words, outer })
        }
    }
}

// The words of a frame, and the frame around.
fn reach_of(taken: &[bool], rets: &[Option<Site>], site: Site) -> Result<Reach, NoMemory>
    ensures { IfOk result (λ r. (terms : List Term) (sites : List Site) → AreTaken terms 0 taken.now → AreRets sites rets.now → r ≡ reach terms sites site) }
{
    let words = site.words;
    match site.outer {
        None => Ok(Reach { words, outer: None }),
        Some(outer) => {
            if passes_on(taken, outer) {
                through(words, site_in(rets, outer.node))
            } else {
                let outer = Some(outer);
                Ok(Reach { words, outer })
            }
        }
    }
}

fn too_long(waiting: Option<u32>, words: u32) -> bool
    ensures { result ≡ too_long waiting words }
{
    match waiting {
        None => false,
        Some(m) => m as u64 + words as u64 > 16,
    }
}

fn handed(own: bool, waiting: Option<u32>, words: u32) -> Result<Option<u32>, NoMemory>
    ensures { IfOk result (λ o. o ≡ handed own waiting words) }
{
    if own {
        return Ok(Some(words));
    }
    match waiting {
        None => Ok(None),
        Some(m) => {
            let all = sum(m, words)?;
            Ok(Some(all))
        }
    }
}

fn words_in(pending: &[Option<u32>], at: u32) -> Option<u32>
    ensures { result ≡ item_in None pending.now at }
{
    match pending.get(at as usize) {
        Some(words) => *words,
        None => None,
    }
}

fn greater(m: u32, n: u32) -> u32
    ensures { result ≡ greater m n }
{
    if m < n { n } else { m }
}

fn more_wait(pending: &mut Row<Option<u32>>, words: u32, node: u32) -> Result<(), NoMemory>
    ensures { OnOk result ((ws : List Pending) → ((j : ℕ) → item_in None pending.old j ≡ waiting ws j) → (j : ℕ) → item_in None pending.new j ≡ waiting (record { node = node; words = words } ∷ ws) j) }
{
    let most = match words_in(pending.items(), node) {
        Some(before) => greater(before, words),
        None => words,
    };
    put(pending, node, Some(most))
}

fn hand_on(
    pending: &mut Row<Option<u32>>,
    words: Option<u32>,
    outer: Option<Point>,
) -> Result<(), NoMemory>
    ensures { OnOk result ((ws : List Pending) → ((j : ℕ) → item_in None pending.old j ≡ waiting ws j) → (j : ℕ) → item_in None pending.new j ≡ waiting (hand_on words outer ws) j) }
{
    let Some(words) = words else {
        return Ok(());
    };
    let Some(outer) = outer else {
        return Ok(());
    };
    more_wait(pending, words, outer.node)
}

// ---- Decisions

fn set_own(own: &mut Row<bool>, is_own: bool, node: u32) -> Result<(), NoMemory>
    ensures { OnOk result ((j : ℕ) → item_in false own.new j ≡ ((is_own && nat_eq j node) || item_in false own.old j)) }
{
    if is_own { put(own, node, true) } else { Ok(()) }
}

fn decide_frame(
    own: &mut Row<bool>,
    pending: &mut Row<Option<u32>>,
    is_own: bool,
    node: u32,
    reach: Reach,
    waiting: Option<u32>,
) -> Result<(), NoMemory>
    ensures { OnOk result ((terms : List Term) (d : Decided) → IsDecided terms d own.old pending.old → IsDecided terms (decide_frame is_own node reach waiting d) own.new pending.new) }
{
    set_own(own, is_own, node)?;
    let words = handed(is_own, waiting, reach.words)?;
    hand_on(pending, words, reach.outer)
}

fn has_own(fact: Fact, waiting: Option<u32>, words: u32) -> bool
    ensures { result ≡ (not fact.is_atom && (fact.needs || too_long waiting words)) }
{
    if fact.is_atom {
        false
    } else {
        fact.needs || too_long(waiting, words)
    }
}

fn decide_ret(
    facts: &[Fact],
    own: &mut Row<bool>,
    pending: &mut Row<Option<u32>>,
    node: u32,
    reach: Reach,
) -> Result<(), NoMemory>
    ensures { OnOk result ((terms : List Term) (d : Decided) → AreFacts terms facts.now → IsDecided terms d own.old pending.old → IsDecided terms (decide_frame (not (is_atom terms node) && (needs terms node || too_long (waiting d.pending node) reach.words)) node reach (waiting d.pending node) d) own.new pending.new) }
{
    let waiting = words_in(pending.items(), node);
    let is_own = has_own(fact_in(facts, node), waiting, reach.words);
    decide_frame(own, pending, is_own, node, reach, waiting)
}

fn decide_site(
    facts: &[Fact],
    taken: &[bool],
    rets: &[Option<Site>],
    own: &mut Row<bool>,
    pending: &mut Row<Option<u32>>,
    site: Site,
) -> Result<(), NoMemory>
    ensures { OnOk result ((terms : List Term) (sites : List Site) (d : Decided) → AreFacts terms facts.now → AreTaken terms 0 taken.now → AreRets sites rets.now → IsDecided terms d own.old pending.old → IsDecided terms (decide_site terms sites site d) own.new pending.new) }
{
    let reach = reach_of(taken, rets, site)?;
    let node = site.point.node;
    if is_caught(site.point.kind) {
        return decide_frame(own, pending, true, node, reach, None);
    }
    if !is_ret(site.point.kind) {
        return Ok(());
    }
    if passes_on(taken, site.point) {
        return Ok(());
    }
    decide_ret(facts, own, pending, node, reach)
}

fn needed(alloc: Global, facts: &[Fact]) -> Result<Row<bool>, NoMemory>
    ensures { IfOk result (λ r. r ≡ map (λ f. f.needs) facts.now) }
{
    let mut own = Row::new(alloc);
    for fact in facts {
        own.push(fact.needs)?;
    }
    Ok(own)
}

fn decide_all(
    facts: &[Fact],
    taken: &[bool],
    rets: &[Option<Site>],
    own: &mut Row<bool>,
    pending: &mut Row<Option<u32>>,
    sites: &[Site],
) -> Result<(), NoMemory>
    ensures { OnOk result ((terms : List Term) → AreFacts terms facts.now → AreTaken terms 0 taken.now → AreRets sites.now rets.now → IsDecided terms nothing_decided own.old pending.old → IsDecided terms (decide_all terms sites.now sites.now) own.new pending.new) }
{
    let mut at = sites.len();
    while at > 0 {
        at -= 1;
        decide_site(facts, taken, rets, own, pending, sites[at])?;
    }
    Ok(())
}

/// Whether the value of each term comes to a function of its own, by the rule of 16 words.
///
/// # Errors
///
/// Want of memory, also where a site is that of no term, and where words are more than there are numbers for.
pub fn own_by_16(
    alloc: Global,
    terms: &[Term],
    sites: &[Site],
    facts: &[Fact],
) -> Result<Row<bool>, NoMemory>
    requires facts { AreFacts terms.now facts.now }
    ensures { IfOk result (IsOwn terms.now sites.now) }
{
    let taken = taken(alloc, terms, facts)?;
    let rets = rets(alloc, terms.len(), sites)?;
    let mut own = needed(alloc, facts)?;
    let mut pending = filled(alloc, terms.len(), None)?;
    decide_all(
        facts,
        taken.items(),
        rets.items(),
        &mut own,
        &mut pending,
        sites,
    )?;
    Ok(own)
}
