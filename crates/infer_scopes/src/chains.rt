//! Lists that share their ends.
//!
//! Contexts grow at the front of their lists alone, so the context of a part goes on with the cells of the context around it.

ghost use Rattle.std.specs.Prelude.{◌≡◌, ℕ, ◌<◌, ◌≤◌, ◌++◌, ◌∷◌, [], ◌⊎◌, true, length, slice_get, IsTrue, IfOk, OnErr};
ghost use Rattle.std.specs.List.{list_all};
ghost use Rattle.sml_types.specs.Poly.{is_in};
ghost use Rattle.infer_scopes.specs.Chains.{chain, IsBelow, AreAmong, AreCells, IsMore};

use smlc_base::{NoMemory, Row};
use std::alloc::Global;
use std::marker::Model;

/// An item, with the cell that its list goes on with, a cell further down, and the length of the list.
///
/// The jumps are those of a skew binary counter, so that a walk comes to a cell far down in few steps (Myers, An applicative random-access stack, 1983).
#[derive(Clone, Copy, Drop)]
pub struct Cell {
    pub item: u32,
    pub next: Option<u32>,
    pub jump: Option<u32>,
    pub depth: u32,
}

/// Lists, each named by its first cell.
#[derive(Drop)]
pub struct Chains {
    cells: Row<Cell>,
}

impl Model for Chains {
    ghost use Rattle.std.specs.Prelude.{List};
    ghost use Rattle.infer_scopes.specs.declared.chains.Cell.{Cell};
    ghost use Rattle.infer_scopes.specs.Chains.{AreCells};

    ghost Value = { List Cell };

    ghost view = { λ c. c.cells };

    ghost invariant = { λ c. AreCells c.cells };
}

// Where a walk to a cell goes on: it jumps, unless that leads past the cell.
fn towards(cell: &Cell, home: usize) -> Option<u32>
    ensures { (result ≡ cell.now.next) ⊎ (result ≡ cell.now.jump) }
{
    match cell.jump {
        Some(far) if far as usize >= home => Some(far),
        _ => cell.next,
    }
}

impl Chains {
    /// No cells.
    pub(crate) fn new(alloc: Global) -> Chains
        ensures { result ≡ [] }
    {
        Chains {
            cells: Row::new(alloc),
        }
    }

    /// The cells.
    pub(crate) fn cells(&self) -> &[Cell]
        ensures { result.now ≡ self.now }
    {
        self.cells.items()
    }

    // The cell of a number.
    fn cell(&self, at: u32) -> Option<Cell>
        ensures is { result ≡ slice_get self.now at }
        ensures kept { AreCells self.now }
    {
        self.cells.items().get(at as usize).copied()
    }

    // Where the first cell of a list jumps to.
    fn jump(&self, head: Option<u32>) -> Option<u32>
        ensures below { IsBelow (length self.now) head → IsBelow (length self.now) result }
        ensures among { AreAmong self.now result head }
    {
        match head {
            Some(at) => match self.cell(at) {
                Some(cell) => cell.jump,
                None => None,
            },
            None => None,
        }
    }

    // How long a list is.
    fn depth(&self, head: Option<u32>) -> u32 {
        match head {
            Some(at) => match self.cell(at) {
                Some(cell) => cell.depth,
                None => 0,
            },
            None => 0,
        }
    }

    // Where a cell jumps to that goes on with a list: as far as two jumps from there lead, if they are of one length.
    fn jump_onto(&self, head: Option<u32>) -> Option<u32>
        ensures below { IsBelow (length self.now) head → IsBelow (length self.now) result }
        ensures among { AreAmong self.now result head }
    {
        let once = self.jump(head);
        let twice = self.jump(once);
        let (here, near, far) = (self.depth(head), self.depth(once), self.depth(twice));
        if here as u64 + far as u64 == 2 * near as u64 {
            twice
        } else {
            head
        }
    }

    /// A list with one more item at its front.
    pub(crate) fn add(&mut self, item: u32, next: Option<u32>) -> Result<Option<u32>, NoMemory>
        requires next { IsBelow (length self.old) next }
        ensures more { IsMore self.old self.new }
        ensures below { IfOk result (λ h. IsBelow (length self.new) h) }
        ensures added { IfOk result (λ h. chain self.new h ≡ item ∷ chain self.old next) }
    {
        let at = self.cells.len();
        if at > u32::MAX as usize {
            return Err(NoMemory);
        }
        let jump = self.jump_onto(next);
        let depth = self.depth(next).saturating_add(1);
        self.cells.push(Cell {
            item,
            next,
            jump,
            depth,
        })?;
        Ok(Some(at as u32))
    }

    /// A list with more items at its front.
    pub(crate) fn extend(
        &mut self,
        items: &[u32],
        next: Option<u32>,
    ) -> Result<Option<u32>, NoMemory>
        requires next { IsBelow (length self.old) next }
        ensures more { IsMore self.old self.new }
        ensures below { IfOk result (λ h. IsBelow (length self.new) h) }
        ensures added { IfOk result (λ h. chain self.new h ≡ items.now ++ chain self.old next) }
    {
        let mut head = next;
        let mut i = items.len();
        'items: while i > 0 {
            i -= 1;
            head = self.add(items[i], head)?;
        }
        Ok(head)
    }

    /// Whether an item is in a list.
    pub(crate) fn contains(&self, head: Option<u32>, item: u32) -> bool
        ensures { result ≡ is_in (chain self.now head) item }
    {
        let mut at = head;
        'cells: while let Some(i) = at {
            let Some(cell) = self.cell(i) else {
                return false;
            };
            if cell.item == item {
                return true;
            }
            at = cell.next;
        }
        false
    }

    /// Whether all items are in a list.
    pub(crate) fn contains_all(&self, head: Option<u32>, items: &[u32]) -> bool
        ensures { result ≡ list_all (is_in (chain self.now head)) items.now }
    {
        items.iter().all(|item| self.contains(head, *item))
    }

    /// Whether an item that was added in the cell `home` is in a list. What it finds is there.
    pub(crate) fn reaches(&self, head: Option<u32>, item: u32, home: usize) -> bool
        ensures { IsTrue result → is_in (chain self.now head) item ≡ true }
    {
        let mut at = head;
        'cells: while let Some(i) = at {
            let Some(cell) = self.cell(i) else {
                return false;
            };
            if cell.item == item {
                return true;
            }
            if i as usize <= home {
                return false;
            }
            at = towards(&cell, home);
        }
        false
    }

    /// Whether an item is in a list. Where it was put last, in the cell `home`, it is found soon; a list that doesn't go as far as that cell, since it was put there again later, is looked through cell by cell.
    pub(crate) fn holds(&self, head: Option<u32>, item: u32, home: Option<usize>) -> bool
        ensures { result ≡ is_in (chain self.now head) item }
    {
        match home {
            Some(home) if self.reaches(head, item, home) => true,
            _ => self.contains(head, item),
        }
    }

    /// The items of a list.
    pub(crate) fn items(&self, alloc: Global, head: Option<u32>) -> Result<Vec<u32>, NoMemory>
        ensures { IfOk result (λ v. v.items ≡ chain self.now head) }
    {
        let mut found = Vec::new(alloc);
        let mut at = head;
        'cells: while let Some(i) = at {
            let Some(cell) = self.cell(i) else {
                return Ok(found);
            };
            found.push(cell.item)?;
            at = cell.next;
        }
        Ok(found)
    }
}
