//! An entry is told to several probes.

ghost use Rattle.std.specs.Prelude.{◌≡◌, ◌<◌, ◌≤◌, ◌+◌, [], ◌∷◌, map, vec_len};
ghost use Rattle.heap_probes.specs.Probe.{told, answer_of, all_folded, told_each};

use crate::probe::{Entry, Next, Probe};

// Tells one probe.
fn tell(probe: &mut Box<dyn Probe>, entry: &Entry) -> Next
    ensures noted { shown probe.new ≡ told entry.now (shown probe.old) }
    ensures answer { result ≡ answer_of entry.now (shown probe.old) }
{
    probe.note(entry)
}

// Tells the probe at a place, drops it if it wants no more, and answers the place of the next.
fn tell_at(probes: &mut Vec<Box<dyn Probe>>, at: usize, entry: &Entry) -> usize
    requires { at < vec_len probes.old }
    ensures told { told_each entry.now (map (λ p. shown p) probes.old.items) at ≡ told_each entry.now (map (λ p. shown p) probes.new.items) result }
    ensures within { result ≤ vec_len probes.new }
    ensures fewer { vec_len probes.new + at < vec_len probes.old + result }
{
    match tell(&mut probes[at], entry) {
        Next::More => at + 1,
        Next::Done => {
            drop(probes.remove(at));
            at
        }
    }
}

/// Tells an entry to each probe in order. One that wants no more is dropped before the next is told, and the others keep their order.
pub fn tell_all(probes: &mut Vec<Box<dyn Probe>>, entry: &Entry)
    ensures { map (λ p. shown p) probes.new.items ≡ all_folded (entry.now ∷ []) (map (λ p. shown p) probes.old.items) }
{
    let mut at = 0;
    while at < probes.len() {
        at = tell_at(probes, at, entry);
    }
}
