//! Infix status.

/// What a fixity directive gives to an identifier.
#[derive(Clone, Copy)]
pub enum Status {
    Nonfix,
    /// The precedence, and whether it associates to the right.
    Infix(u8, bool),
}
