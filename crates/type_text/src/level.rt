//! Where parentheses are needed.

/// The loosest form of a type that stands somewhere without parentheses. A function type is the loosest; then come tuples; then all that needs no parentheses anywhere.
#[derive(Clone, Copy)]
pub enum Level {
    Function,
    Product,
    Atom,
}
