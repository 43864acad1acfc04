//! Reads programs of prints from their bare tree.

ghost use Rattle.std.specs.Prelude.{◌≡◌, ◌++◌, ℕ, List, slice_get, MatchOption, IfOk, OnOk};
ghost use Rattle.sml_tree.specs.IsBare.{IsBare};
ghost use Rattle.sml_tree.specs.Width.{is_user_at as user};
ghost use Rattle.print_code.specs.Code.{IsStraight};
ghost use Rattle.print_code.specs.Plain.{IsPrint};
ghost use Rattle.print_code.specs.Reading.{only_binding, is_wild, is_print, applied, declared_in, text_number, IsNest, IsStep, Answer};

use crate::code::Printed;
use sml_tree::bare::{Bare, Binding, Node};
use smlc_base::{NoMemory, Place, Primitive};
use std::alloc::Global;

/// The most bytes that are printed in all. The string constants of programs that aren't too long have no more.
const MOST: usize = 1_048_576;

/// Two parts of a node.
#[derive(Clone, Copy)]
pub struct Parts {
    pub first: u32,
    pub second: u32,
}

/// What stands at a node of the nest of declarations.
#[derive(Drop)]
pub enum Step<'a> {
    /// The end of the program.
    Finish,
    /// A declaration of the library, and the node behind it.
    Library(u32),
    /// A declaration of the user's that prints this text, and the node behind it.
    Print(&'a [u8], u32),
    /// Another one of the user's, which stands at this place.
    Other(Place),
}

/// What the declarations of a bare tree are.
#[derive(Drop)]
pub enum Reading {
    /// All of the user's are prints.
    Text(Printed),
    /// The first of the user's that is no print stands at this place.
    Stops(Place),
}

// The one binding of a `val` without type variables.
fn binding_at(nodes: &[Node], at: u32) -> Option<Binding>
    ensures { result ≡ only_binding (slice_get nodes.now at) }
{
    let Some(Node::Val(tyvars, bindings)) = nodes.get(at as usize) else {
        return None;
    };
    match (tyvars.items(), bindings.items()) {
        ([], [binding]) => Some(*binding),
        _ => None,
    }
}

fn wild_at(nodes: &[Node], at: u32) -> bool
    ensures { result ≡ is_wild (slice_get nodes.now at) }
{
    match nodes.get(at as usize) {
        Some(Node::Wild) => true,
        _ => false,
    }
}

fn print_at(nodes: &[Node], at: u32) -> bool
    ensures { result ≡ is_print (slice_get nodes.now at) }
{
    match nodes.get(at as usize) {
        Some(Node::Builtin(Primitive::Print)) => true,
        _ => false,
    }
}

// The function and the argument of an application.
fn application_at(nodes: &[Node], at: u32) -> Option<Parts>
    ensures { result ≡ applied (slice_get nodes.now at) }
{
    match nodes.get(at as usize) {
        Some(Node::App(function, argument)) => Some(Parts {
            first: *function,
            second: *argument,
        }),
        _ => None,
    }
}

// The declaration and the body of a `let`.
fn let_at(nodes: &[Node], at: u32) -> Option<Parts>
    ensures { result ≡ declared_in (slice_get nodes.now at) }
{
    match nodes.get(at as usize) {
        Some(Node::Let(declaration, body)) => Some(Parts {
            first: *declaration,
            second: *body,
        }),
        _ => None,
    }
}

fn text_at(nodes: &[Node], at: u32) -> Option<u32>
    ensures { result ≡ text_number (slice_get nodes.now at) }
{
    match nodes.get(at as usize) {
        Some(Node::Text(number)) => Some(*number),
        _ => None,
    }
}

/// The constant that a declaration prints, if it is `val _ = print c`.
fn constant<'a>(bare: &'a Bare, at: u32) -> Option<&'a [u8]>
    ensures { MatchOption result ((text : List ℕ) → IsPrint bare.now at text → ⊥) (λ text. IsPrint bare.now at text.now) }
{
    let nodes = bare.nodes.items();
    let binding = binding_at(nodes, at)?;
    let parts = application_at(nodes, binding.right)?;
    let number = text_at(nodes, parts.second)?;
    if !wild_at(nodes, binding.pat) || !print_at(nodes, parts.first) {
        return None;
    }
    let text = bare.texts.items().get(number as usize)?;
    Some(text.items())
}

/// Whether a node is one of the user's files.
fn is_user_at(places: &[Place], at: u32) -> bool
    ensures { result ≡ user (slice_get places.now at) }
{
    match places.get(at as usize) {
        Some(place) => place.file != 0,
        None => false,
    }
}

/// What stands at a node of the nest.
fn step_at<'a>(bare: &'a Bare, at: u32) -> Step<'a>
    requires bare { IsBare bare.now }
    requires nest { IsNest bare.now at }
    ensures { IsStep bare.now at result }
{
    let Some(parts) = let_at(bare.nodes.items(), at) else {
        return Step::Finish;
    };
    if !is_user_at(bare.places.items(), parts.first) {
        return Step::Library(parts.second);
    }
    match constant(bare, parts.first) {
        Some(text) => Step::Print(text, parts.second),
        None => Step::Other(bare.places.items()[parts.first as usize]),
    }
}

// Puts a text behind what is printed, unless it grows too long.
fn add(printed: &mut Printed, text: &[u8]) -> Result<(), NoMemory>
    requires { IsStraight printed.old.lengths.items printed.old.text.items }
    ensures text { OnOk result (printed.new.text.items ≡ printed.old.text.items ++ text.now) }
    ensures straight { OnOk result (IsStraight printed.new.lengths.items printed.new.text.items) }
{
    if text.len() == 0 {
        return Ok(());
    }
    if text.len() > MOST - printed.text.len() {
        return Err(NoMemory);
    }
    printed.text.extend_from_slice(text)?;
    printed.lengths.push(text.len() as u32)?;
    Ok(())
}

/// What the declarations of a bare tree are. More than 1,048,576 bytes aren't held, and count as want of memory.
pub fn read(alloc: Global, bare: &Bare) -> Result<Reading, NoMemory>
    requires { IsBare bare.now }
    ensures { IfOk result (Answer bare.now) }
{
    let mut printed = Printed {
        text: Vec::new(alloc),
        lengths: Vec::new(alloc),
    };
    let mut at = 0u32;
    loop {
        match step_at(bare, at) {
            Step::Finish => return Ok(Reading::Text(printed)),
            Step::Other(place) => return Ok(Reading::Stops(place)),
            Step::Library(rest) => at = rest,
            Step::Print(text, rest) => {
                add(&mut printed, text)?;
                at = rest;
            }
        }
    }
}
