//! What is left of bodies while their code is made from its end on.

/// What comes next in front of the code that stands.
#[derive(Clone, Copy)]
pub enum Task {
    /// All of a body. The group that was made last before it has so many words.
    Whole {
        body: u32,
        group: u32,
    },
    /// The first rules of a body's match, and its steps in front of them.
    Rules {
        body: u32,
        left: u32,
        group: u32,
    },
    /// The tests of a rule, whose code stands in front of so many instructions, and then the rules before it.
    Tests {
        body: u32,
        rule: u32,
        behind: u32,
        group: u32,
    },
}
