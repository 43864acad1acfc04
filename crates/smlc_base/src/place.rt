//! Places in the files.

/// A place in a file. File 0 is the library, and the user's files are 1, 2 and so on.
/// Lines and columns count from 1, columns in bytes.
#[derive(Clone, Copy, PartialEq, Eq, PartialOrd, Ord, Debug)]
pub struct Place {
    pub file: u32,
    pub line: u32,
    pub col: u32,
}
