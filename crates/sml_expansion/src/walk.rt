//! The state of the expansion.

ghost use Rattle.std.specs.Prelude.{◌≡◌, ◌∷◌, ◌++◌, [], OnOk};
ghost use Rattle.sml_expansion.specs.declared.mark.Mark.TheVariants.{Open, Close};
ghost use Rattle.sml_expansion.specs.Makings.{nothing_made};
ghost use Rattle.sml_expansion.specs.Forests.{none, grown};
ghost use Rattle.sml_expansion.specs.Marks.{marks};

use crate::made::Made;
use crate::mark::Mark;
use crate::scope::Bindings;
use sml_tree::bare::Node;
use smlc_base::{NoMemory, Place, Row};
use std::alloc::Global;

/// What is made, what is bound, and the trees so far.
#[derive(Drop)]
pub struct Walk {
    pub made: Made,
    pub bindings: Bindings,
    pub marks: Row<Mark>,
}

/// After want of memory nothing is claimed of the trees.
impl Walk {
    /// Before the program.
    pub fn new(alloc: Global) -> Walk
        ensures made { result.made ≡ nothing_made }
        ensures bindings { result.bindings ≡ record { values = []; types = []; tyvars = [] } }
        ensures marks { result.marks ≡ [] }
    {
        Walk {
            made: Made::new(alloc),
            bindings: Bindings::new(alloc),
            marks: Row::new(alloc),
        }
    }

    /// Where it takes its memory.
    pub fn allocator(&self) -> Global {
        self.marks.allocator()
    }

    /// The parts of a node begin.
    pub fn open(&mut self) -> Result<(), NoMemory>
        ensures { OnOk result (self.new ≡ record self.old { marks = self.old.marks ++ Open ∷ [] }) }
    {
        self.marks.push(Mark::Open)
    }

    /// The node behind its parts.
    pub fn close(&mut self, node: Node, place: Place) -> Result<(), NoMemory>
        ensures { OnOk result (self.new ≡ record self.old { marks = self.old.marks ++ Close node place ∷ [] }) }
    {
        self.marks.push(Mark::Close(node, place))
    }

    /// A node without parts.
    pub fn leaf(&mut self, node: Node, place: Place) -> Result<(), NoMemory>
        ensures { OnOk result (self.new ≡ record self.old { marks = self.old.marks ++ marks (grown node place none) }) }
    {
        self.open()?;
        self.close(node, place)
    }
}
