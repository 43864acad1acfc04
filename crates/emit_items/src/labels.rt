//! The labels of a program's text and data.

/// Where the labels of each kind begin. Those of functions are the first, by their own numbers.
#[derive(Clone, Copy)]
pub struct Labels {
    /// String constants, by number.
    pub texts: u32,
    /// The spellings of the exception names that a program makes, by number.
    pub spellings: u32,
    /// The exception names of the library.
    pub names: u32,
    /// Closed functions, by label.
    pub closures: u32,
    /// The routines and their data.
    pub routines: u32,
    /// How many points there are: the tags of class records begin behind those of closures.
    pub points: u32,
}
