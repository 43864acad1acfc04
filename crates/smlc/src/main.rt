//! The program `smlc`: it hands its words, the file system and the standard streams to `smlc_main`, and ends with the status that this answers.
//!
//! It stands on `smlc_top`, which has the contract; what real files and streams do is not proved.
#![tactic(auto)]

use smlc_base::NoMemory;
use smlc_edge::{FileStore, StdSink, StdSource};
use smlc_top::smlc_main;
use std::process::ExitCode;
use std::{env, io};

fn main(rt: HostRuntime) -> ExitCode {
    let Ok(words) = words(&rt) else {
        let _ = eprintln!(rt; "want of memory");
        return ExitCode::from(6);
    };
    let alloc = rt.alloc();
    let mut input = StdSource::new(rt.stdin());
    let mut out = StdSink::new(rt.stdout());
    let mut err = StdSink::new(rt.stderr());
    let mut store = FileStore::new(rt);
    ExitCode::from(smlc_main(alloc, &words, &mut store, &mut input, &mut out, &mut err))
}

/// The words of the command line, the program's name first. Where one isn't text there are none, and so no command.
fn words(rt: &HostRuntime) -> Result<Vec<String>, NoMemory> {
    let mut words = Vec::new(rt.alloc());
    match env::args(rt) {
        Ok(args) => {
            for word in args {
                words.push(word)?;
            }
            Ok(words)
        }
        Err(e) if e.kind() == io::ErrorKind::OutOfMemory => Err(NoMemory),
        Err(_) => Ok(words),
    }
}
