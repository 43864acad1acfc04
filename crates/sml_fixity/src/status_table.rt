//! The statuses of identifiers by number.

ghost use Rattle.std.specs.Prelude.{◌≡◌, ◌<◌, ◌≤◌, ℕ, [], length, nat_eq, nat_lt, cond, slice_set, OnOk};
ghost use Rattle.sml_fixity.specs.Statuses.{infix_weight, status_at, tally};

use sml_tree::Status;
use smlc_base::NoMemory;
use std::alloc::Global;
use std::marker::Model;

/// For each number what the latest directive gives it, if there is one. Numbers behind the list have none.
#[derive(Drop)]
pub struct StatusTable {
    statuses: Vec<Option<Status>>,
    operators: usize,
}

impl Model for StatusTable {
    ghost use Rattle.std.specs.Prelude.{List, Option, ◌≡◌};
    ghost use Rattle.sml_tree.specs.declared.status.Status.{Status as TheStatus};
    ghost use Rattle.sml_fixity.specs.Statuses.{tally};

    ghost Value = { List (Option TheStatus) };

    ghost view = { λ t. t.statuses.items };

    ghost invariant = { λ t. t.operators ≡ tally t.statuses.items };
}

fn is_infix(status: Option<Status>) -> bool
    ensures { result ≡ nat_eq (infix_weight status) 1 }
{
    matches!(status, Some(Status::Infix(_, _)))
}

impl StatusTable {
    pub fn new(alloc: Global) -> StatusTable
        ensures { result ≡ [] }
    {
        StatusTable {
            statuses: Vec::new(alloc),
            operators: 0,
        }
    }

    /// The status of a number.
    pub fn at(&self, number: u32) -> Option<Status>
        ensures { result ≡ status_at self.now number }
    {
        let at = number as usize;
        if at < self.statuses.len() {
            self.statuses[at]
        } else {
            None
        }
    }

    /// Whether some number has infix status.
    pub fn has_infix(&self) -> bool
        ensures { result ≡ nat_lt 0 (tally self.now) }
    {
        self.operators > 0
    }

    /// Makes room for a number.
    pub fn reach(&mut self, number: u32) -> Result<(), NoMemory>
        ensures room { OnOk result (number < length self.new) }
        ensures same { (i : ℕ) → status_at self.new i ≡ status_at self.old i }
    {
        while self.statuses.len() <= number as usize {
            self.statuses.push(None)?;
        }
        Ok(())
    }

    /// Gives a number its status.
    pub fn set(&mut self, number: u32, status: Option<Status>)
        requires { number < length self.old }
        ensures { self.new ≡ slice_set self.old number status }
    {
        let at = number as usize;
        let before = is_infix(self.statuses[at]);
        let now = is_infix(status);
        self.statuses[at] = status;
        if now && !before {
            self.operators += 1;
        } else if before && !now {
            self.operators -= 1;
        }
    }
}
