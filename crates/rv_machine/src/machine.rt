//! The machine: a hart that was made from an image, and runs.

ghost use Rattle.std.specs.Prelude.{◌≡◌, ◌<◌, ◌≤◌, ◌+◌, ◌++◌, length, OnOk, [], ◌^◌, IfOk, IfSome, None, Some};
ghost use Rattle.rv_machine.specs.State.{total};
ghost use Rattle.elf_static.specs.Load.{HasRoom};
ghost use Rattle.rv_machine.specs.Memory.{memory_of, areas_of, segment_bytes};

use crate::hart::{Area, End, Hart};
use elf_static::{Image, Segment};
use smlc_base::NoMemory;
use smlc_edge::{Sink, Source};
use std::alloc::Global;
use std::marker::Model;

/// A machine: registers, pc and memory. Once it has exited or trapped, it stays so.
#[derive(Debug, Drop)]
pub struct Machine {
    hart: Hart,
    ended: Option<End>,
}

impl Model for Machine {
    ghost use Rattle.rv_machine.specs.Progress.{Progress};

    ghost Value = { Progress };

    ghost use Rattle.rv_machine.specs.View.{state};

    ghost view = { λ m. record { state = state m.hart; ended = m.ended } };
}

impl Machine {
    ghost use Rattle.std.specs.Prelude.{List, ℕ, Option, None, Some, IfOk, ◌≡◌, ◌≢◌, ◌<◌};
    ghost use Rattle.smlc_edge.specs.Edge.{Gains};
    ghost use Rattle.elf_static.specs.Load.{IsLoadable};
    ghost use Rattle.rv_machine.specs.Load.{loaded};
    ghost use Rattle.rv_machine.specs.State.{reg};
    ghost use Rattle.rv_machine.specs.Step.{double_of};
    ghost use Rattle.rv_machine.specs.Run.{RunsTo, CountsAt, ended_by};

    /// The machine of an image: all registers are 0, pc is the entry, and memory beyond a segment's bytes is 0.
    pub fn load(alloc: Global, image: &Image) -> Result<Machine, NoMemory>
        requires { IsLoadable image.now }
        ensures { IfOk result (λ machine. machine ≡ record { state = loaded image.now; ended = None }) }
    {
        let mut bytes = Vec::new(alloc);
        let mut areas = Vec::new(alloc);
        add_segments(image.segments.items(), &mut bytes, &mut areas)?;
        Ok(Machine {
            hart: Hart::new(image.entry, bytes, areas),
            ended: None,
        })
    }

    /// Does so many instructions, unless the machine ends or a read or a write fails. It takes no memory.
    ///
    /// The exit call counts as an instruction, and a trap doesn't. After a fault the call was not done, and a later run does it again.
    /// After an exit or a trap a later run answers the same and changes nothing.
    pub fn run<I: Source, O: Sink, E: Sink>(
        &mut self,
        steps: u64,
        input: &mut I,
        out: &mut O,
        err: &mut E,
    ) -> End
        // The definition's behaviour, under the cuts that the objects answered.
        ensures runs { self.old.ended ≡ None → RunsTo steps self.old.state self.new.state
            (I.left input.old) (I.left input.new) (O.taken out.old) (O.taken out.new) (E.taken err.old) (E.taken err.new) result }
        ensures ends { self.old.ended ≡ None → self.new.ended ≡ ended_by result }

        // Once it has ended, it answers the same and changes nothing.
        ensures ended { (end : End) → self.old.ended ≡ Some end → (result ≡ end) × (self.new ≡ self.old)
            × (input.new ≡ input.old) × (out.new ≡ out.old) × (err.new ≡ err.old) }

        // A fault comes only where a count of its kind rose, no count moves without one, and where the outside is sure there is none.
        ensures counts { self.old.ended ≡ None → CountsAt (Some result) (I.faults input.old) (I.faults input.new)
            (O.faults out.old) (O.faults out.new) (E.faults err.old) (E.faults err.new) }
        ensures input_sure { self.old.ended ≡ None → I.sure input.old → (result ≢ End.ReadFault) × I.sure input.new }
        ensures out_sure { self.old.ended ≡ None → O.sure out.old → O.sure out.new }
        ensures err_sure { self.old.ended ≡ None → E.sure err.old → E.sure err.new }
        ensures sure { self.old.ended ≡ None → O.sure out.old → E.sure err.old → result ≢ End.WriteFault }
    {
        if let Some(end) = self.ended {
            return end;
        }
        let end = self.hart.run(steps, input, out, err);
        self.ended = match end {
            End::Exit(_) => Some(end),
            End::Trap { .. } => Some(end),
            _ => None,
        };
        end
    }

    /// The address of the next instruction.
    pub fn pc(&self) -> u64
        ensures { result ≡ self.now.state.pc }
    {
        self.hart.pc()
    }

    /// A register. Register 0 reads 0.
    pub fn reg(&self, number: u32) -> u64
        requires { number < 32 }
        ensures { result ≡ reg self.now.state number }
    {
        self.hart.reg(number as u8)
    }

    /// The eight bytes at an address: None exactly where it is no multiple of 8 or they aren't in one segment.
    pub fn word(&self, address: u64) -> Option<u64>
        ensures { result ≡ double_of self.now.state address }
    {
        self.hart.double(address)
    }
}

// The segments' memory, one behind the other.
fn add_segments(
    segments: &[Segment],
    bytes: &mut Vec<u8>,
    areas: &mut Vec<Area>,
) -> Result<(), NoMemory>
    requires room { HasRoom segments.now }
    requires bytes { bytes.old.items ≡ [] }
    requires areas { areas.old.items ≡ [] }
    ensures bytes { OnOk result (bytes.new.items ≡ memory_of segments.now) }
    ensures areas { OnOk result (areas.new.items ≡ areas_of segments.now) }
{
    for segment in segments {
        add_bytes(segment, bytes)?;
        areas.push(Area {
            address: segment.address,
            size: segment.size,
            flags: segment.flags,
        })?;
    }
    Ok(())
}

// A segment's bytes, and 0 up to its size.
fn add_bytes(segment: &Segment, bytes: &mut Vec<u8>) -> Result<(), NoMemory>
    requires size { length segment.now.bytes ≤ segment.now.size }
    requires room { length bytes.old.items + segment.now.size < 2 ^ 63 }
    ensures { OnOk result (bytes.new.items ≡ bytes.old.items ++ segment_bytes segment.now) }
{
    bytes.extend_from_slice(segment.bytes.items())?;
    let count = bytes.len() + (segment.size as usize - segment.bytes.len());
    bytes.resize(count, 0)?;
    Ok(())
}
