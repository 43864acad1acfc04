//! Bytes and lines, written whole.

ghost use Rattle.std.specs.Prelude.{◌≡◌, ◌++◌, List, ℕ, IsOk};
ghost use Rattle.smlc_edge.specs.Edge.{Counts};
ghost use Rattle.smlc_jobs.specs.Write.{Whole, Said};
ghost use Rattle.smlc_jobs.specs.Texts.{newline};

use smlc_edge::{Failed, Sink};

/// Writes all the bytes, unless the sink fails.
pub fn write_whole<S: Sink>(sink: &mut S, bytes: &[u8]) -> Result<(), Failed>
    ensures whole { Whole bytes.now result (S.taken sink.old) (S.taken sink.new) }
    ensures cause { Counts (S.faults sink.old) (S.faults sink.new) result }
    ensures surely { S.sure sink.old → IsOk result × S.sure sink.new }
{
    let mut rest = bytes;
    while !rest.is_empty() {
        let count = sink.put(rest)?;
        rest = &rest[count..];
    }
    Ok(())
}

/// Writes bytes behind bytes, unless the sink fails.
pub fn write_both<S: Sink>(sink: &mut S, first: &[u8], second: &[u8]) -> Result<(), Failed>
    ensures whole { Whole (first.now ++ second.now) result (S.taken sink.old) (S.taken sink.new) }
    ensures cause { Counts (S.faults sink.old) (S.faults sink.new) result }
    ensures surely { S.sure sink.old → IsOk result × S.sure sink.new }
{
    match write_whole(sink, first) {
        Ok(()) => write_whole(sink, second),
        Err(failed) => Err(failed),
    }
}

/// Writes bytes and a newline behind bytes, unless the sink fails.
pub fn write_line<S: Sink>(sink: &mut S, first: &[u8], second: &[u8]) -> Result<(), Failed>
    ensures whole { Whole (first.now ++ second.now ++ newline) result (S.taken sink.old) (S.taken sink.new) }
    ensures cause { Counts (S.faults sink.old) (S.faults sink.new) result }
    ensures surely { S.sure sink.old → IsOk result × S.sure sink.new }
{
    match write_both(sink, first, second) {
        Ok(()) => write_whole(sink, b"\n"),
        Err(failed) => Err(failed),
    }
}

/// Writes the line of a status, and answers the status, or 5 where the sink failed.
pub fn say<E: Sink>(err: &mut E, line: &[u8], status: u8) -> u8
    ensures said { Said line.now status result (E.faults err.old) (E.faults err.new) (E.taken err.old) (E.taken err.new) }
    ensures surely { E.sure err.old → (result ≡ status) × E.sure err.new }
{
    match write_whole(err, line) {
        Ok(()) => status,
        Err(_) => 5,
    }
}

/// Writes bytes, bytes behind them and a newline, and answers the status, or 5 where the sink failed.
pub fn say_line<E: Sink>(err: &mut E, first: &[u8], second: &[u8], status: u8) -> u8
    ensures said { Said (first.now ++ second.now ++ newline) status result (E.faults err.old) (E.faults err.new) (E.taken err.old) (E.taken err.new) }
    ensures surely { E.sure err.old → (result ≡ status) × E.sure err.new }
{
    match write_line(err, first, second) {
        Ok(()) => status,
        Err(_) => 5,
    }
}
