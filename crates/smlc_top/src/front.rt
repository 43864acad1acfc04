//! From files to their bare tree, and to their types.

ghost use Rattle.std.specs.Prelude.{◌≡◌, ◌+◌, ◌<◌, ◌^◌, ◌∷◌, [], length, map, IfOk, IfErr};
ghost use Rattle.sml_prelude.specs.Text.{library_text};
ghost use Rattle.smlc_top.specs.Front.{IsLibrary, LibraryFails, HasTree, Fails, HasTypes, TypesFail};

use sml_derive::bare;
use sml_fixity::parse;
use sml_infer::infer;
use sml_lexer::tokens;
use sml_prelude::library;
use sml_tree::{Bare, Tree};
use sml_types::Typed;
use smlc_base::{CompileError, Names, NoMemory};
use std::alloc::Global;

/// The library's text as the one file that it is.
fn library_files(alloc: Global) -> Result<Vec<Vec<u8>>, NoMemory>
    ensures { IfOk result (λ files. map (λ f. f.items) files.items ≡ library_text ∷ []) }
{
    let text = library(alloc)?;
    let mut files = Vec::new(alloc);
    files.push(text)?;
    Ok(files)
}

/// The tree of the library's text.
fn library_tree(alloc: Global) -> Result<Tree, CompileError>
    ensures ok { IfOk result IsLibrary }
    ensures err { IfErr result LibraryFails }
{
    let files = library_files(alloc)?;
    let names = Names::new(alloc);
    let lexed = match tokens(alloc, &names, &[], 0, files.as_slice()) {
        Ok(lexed) => lexed,
        Err(e) => return Err(e),
    };
    match parse(alloc, lexed) {
        Ok(tree) => Ok(tree),
        Err(e) => Err(e),
    }
}

/// The bare tree of files.
pub fn tree_of(alloc: Global, files: &[Vec<u8>]) -> Result<Bare, CompileError>
    requires { length files.now + 1 < 2 ^ 32 }
    ensures ok { IfOk result (HasTree (map (λ f. f.items) files.now)) }
    ensures err { IfErr result (Fails (map (λ f. f.items) files.now)) }
{
    let library = match library_tree(alloc) {
        Ok(library) => library,
        Err(e) => return Err(e),
    };
    let lexed = match tokens(alloc, &library.names, library.texts.items(), 1, files) {
        Ok(lexed) => lexed,
        Err(e) => return Err(e),
    };
    let tree = match parse(alloc, lexed) {
        Ok(tree) => tree,
        Err(e) => return Err(e),
    };
    match bare(alloc, &library, &tree) {
        Ok(bare) => Ok(bare),
        Err(e) => Err(e),
    }
}

/// The typed program of files.
pub fn typed_of(alloc: Global, files: &[Vec<u8>]) -> Result<Typed, CompileError>
    requires { length files.now + 1 < 2 ^ 32 }
    ensures ok { IfOk result (HasTypes (map (λ f. f.items) files.now)) }
    ensures err { IfErr result (TypesFail (map (λ f. f.items) files.now)) }
{
    let bare = match tree_of(alloc, files) {
        Ok(bare) => bare,
        Err(e) => return Err(e),
    };
    match infer(alloc, bare) {
        Ok(typed) => Ok(typed),
        Err(e) => Err(e),
    }
}
