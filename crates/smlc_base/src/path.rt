//! Ways into a value.

ghost use Rattle.std.specs.Prelude.{◌≡◌, [], ◌∷◌, ◌++◌, IfOk, OnOk, OnErr};

use crate::memory::NoMemory;
use smallvec::SmallVec;
use std::alloc::Global;
use std::marker::Model;

/// A way into a value: the numbers of the fields that lead there, from the outside in. A step reads word `number + 1` of a block, behind
/// the header: of a tuple the field of that place, of an applied constructor and of a reference its argument as 0. In a packet the exception name
/// is 0 and the argument 1.
#[derive(Debug, Drop)]
pub struct Path {
    pub steps: SmallVec<u32, 8, Global>,
}

impl Model for Path {
    ghost use Rattle.std.specs.Prelude.{List, ℕ};

    ghost Value = { List ℕ };

    ghost view = { λ p. p.steps.items };
}

impl Path {
    /// The way to the value itself.
    pub fn new(alloc: Global) -> Path
        ensures { result ≡ [] }
    {
        Path {
            steps: SmallVec::new(alloc),
        }
    }

    /// The way of these steps.
    pub fn from_steps(alloc: Global, steps: &[u32]) -> Result<Path, NoMemory>
        ensures { IfOk result (λ path. path ≡ steps.now) }
    {
        let steps = SmallVec::from_slice(alloc, steps)?;
        Ok(Path { steps })
    }

    /// The steps from the outside in.
    pub fn steps(&self) -> &[u32]
        ensures { result.now ≡ self.now }
    {
        self.steps.as_slice()
    }

    /// Goes one step further.
    pub fn push(&mut self, step: u32) -> Result<(), NoMemory>
        ensures ok { OnOk result (self.new ≡ self.old ++ step ∷ []) }
        ensures err { OnErr result (self.new ≡ self.old) }
    {
        self.steps.push(step)?;
        Ok(())
    }
}
