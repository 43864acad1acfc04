//! The lines of probes.

use heap_probes::{Entry, GrowthProbe, LabelProbe, LimitProbe, PeakProbe, Probe, tell_all};
use smlc_base::{Label, NoMemory};
use std::alloc::Global;
use std::test::Fail;

/// Labels and words of entries.
const ENTRIES: &[(u32, u64)] = &[(0, 4), (2, 30), (1, 5), (2, 101), (1, 90)];

/// The lines of the probes that are left, each with its newline.
fn lines(alloc: Global, probes: &[Box<dyn Probe>]) -> Result<Vec<u8>, NoMemory> {
    let mut text = Vec::new(alloc);
    for probe in probes {
        probe.line(&mut text)?;
        text.push(10)?;
    }
    Ok(text)
}

#[test]
fn probes_tell_what_they_noted(rt: HostRuntime) -> Result<(), Fail> {
    let alloc = rt.alloc();
    let mut probes: Vec<Box<dyn Probe>> = Vec::new(alloc);
    probes.push(Box::new(alloc, PeakProbe::new())?)?;
    probes.push(Box::new(alloc, LimitProbe::new(100))?)?;
    probes.push(Box::new(alloc, LabelProbe::new(alloc, 3)?)?)?;
    probes.push(Box::new(alloc, LimitProbe::new(1000000))?)?;
    probes.push(Box::new(alloc, GrowthProbe::new())?)?;
    for &(label, words) in ENTRIES {
        let entry = Entry {
            label: Label(label),
            nth: 1,
            words,
            used: words,
        };
        tell_all(&mut probes, &entry);
    }
    let text = lines(alloc, &probes)?;
    let wanted =
        b"probe peak 101\nprobe busiest 1 times 2\nprobe limit 1000000 kept\nprobe growth 96\n";
    assert_eq!(rt; text.as_slice(), wanted.as_slice());
    Ok(())
}
