//! What can be asked.

/// A command with what it is done with. An option that isn't given is `None`.
#[derive(Debug, Drop)]
pub enum Command<'a> {
    /// Compiles 1 to 256 files and saves the program as `out`.
    Compile {
        files: Vec<&'a str>,
        out: &'a str,
        arena: Option<u64>,
    },
    /// Compiles the files and runs the program.
    Run {
        files: Vec<&'a str>,
        arena: Option<u64>,
        steps: Option<u64>,
    },
    /// As `Run`, with the heap measured at one of `stride` entries.
    Meter {
        files: Vec<&'a str>,
        arena: Option<u64>,
        steps: Option<u64>,
        stride: Option<u64>,
    },
    /// Runs an ELF file.
    Exec {
        elf: &'a str,
        steps: Option<u64>,
    },
    /// Writes the files' types.
    Types {
        files: Vec<&'a str>,
    },
    /// Writes the layouts of the files' closures.
    Plan {
        files: Vec<&'a str>,
    },
    /// Writes a made program, by its number, of this size.
    Gen {
        number: u64,
        size: u64,
    },
    /// Meters a made program.
    Bench {
        number: u64,
        size: u64,
    },
}
