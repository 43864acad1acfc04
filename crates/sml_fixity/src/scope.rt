//! The directives in force.

ghost use Rattle.std.specs.Prelude.{◌≡◌, ◌++◌, ◌-◌, [], length, take, drop, IfOk, OnOk};
ghost use Rattle.sml_syntax.specs.Fixity.{directed, looks};
ghost use Rattle.sml_syntax.specs.Machine.{has_infix};

use crate::status_table::StatusTable;
use sml_syntax::forms::{Directive, Look, Terminal};
use sml_tree::Status;
use smlc_base::{Name, NoMemory};
use std::alloc::Global;
use std::marker::Model;

/// The directives in force, the latest last, with each identifier's status and what each directive hides.
#[derive(Drop)]
pub struct Scope {
    directives: Vec<Directive>,
    table: StatusTable,
    log: Vec<Option<Status>>,
}

impl Model for Scope {
    ghost use Rattle.sml_syntax.specs.Fixity.{Fix};
    ghost use Rattle.sml_fixity.specs.Scopes.{Keeps};

    ghost Value = { Fix };

    ghost view = { λ s. s.directives.items };

    ghost invariant = { λ s. Keeps s.directives.items s.table s.log.items };
}

impl Scope {
    pub fn new(alloc: Global) -> Scope
        ensures { result ≡ [] }
    {
        Scope {
            directives: Vec::new(alloc),
            table: StatusTable::new(alloc),
            log: Vec::new(alloc),
        }
    }

    /// How many directives are in force.
    pub fn len(&self) -> usize
        ensures { result ≡ length self.now }
    {
        self.directives.len()
    }

    /// Whether some identifier has infix status.
    pub fn has_infix(&self) -> bool
        ensures { result ≡ has_infix self.now }
    {
        self.table.has_infix()
    }

    /// A terminal under the fixity in force.
    pub fn look(&self, terminal: Terminal) -> Look
        ensures { result ≡ looks self.now terminal }
    {
        match terminal {
            Terminal::Id(name, star) => match self.table.at(name.0) {
                Some(Status::Infix(level, right)) => Look::Operator(name, star, level, right),
                _ => Look::Plain(name, star),
            },
            _ => Look::Other(terminal),
        }
    }

    /// Gives an identifier a status.
    pub fn direct(&mut self, name: Name, status: Status) -> Result<(), NoMemory>
        ensures { OnOk result (self.new ≡ directed self.old name status) }
    {
        self.table.reach(name.0)?;
        self.log.push(self.table.at(name.0))?;
        match self.directives.push(Directive { name, status }) {
            Ok(()) => {}
            Err(_) => {
                let _ = self.log.pop();
                return Err(NoMemory);
            }
        }
        self.table.set(name.0, Some(status));
        Ok(())
    }

    /// Keeps the first directives alone.
    pub fn cut(&mut self, count: usize)
        ensures { self.new ≡ take count self.old }
    {
        while self.directives.len() > count {
            self.withdraw();
        }
    }

    // Takes the latest directive back.
    fn withdraw(&mut self)
        ensures { self.new ≡ take (length self.old - 1) self.old }
    {
        if let Some(directive) = self.directives.pop() {
            if let Some(before) = self.log.pop() {
                self.table.set(directive.name.0, before);
            }
        }
    }

    /// Drops the directives from number `from` on that stand before number `to`.
    pub fn drop_between(&mut self, from: usize, to: usize) -> Result<(), NoMemory>
        ensures { OnOk result (self.new ≡ take from self.old ++ drop to self.old) }
    {
        if from == to {
            return Ok(());
        }
        let kept = self.behind(to)?;
        self.cut(from);
        for directive in &kept {
            self.direct(directive.name, directive.status)?;
        }
        Ok(())
    }

    // The directives from a number on.
    fn behind(&self, from: usize) -> Result<Vec<Directive>, NoMemory>
        ensures { IfOk result (λ r. r.items ≡ drop from self.now) }
    {
        let mut kept = Vec::new(*self.directives.allocator());
        for i in from..self.directives.len() {
            kept.push(self.directives[i])?;
        }
        Ok(kept)
    }
}
