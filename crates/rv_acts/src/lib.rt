//! What is known of a running program, and what each instruction does to it.
//!
//! It stands on `rv_run`, `rv_machine` and what these stand on. It has no code. What is known (`specs/Fine.antt`) are registers, bytes by
//! address and the outside, each of which may be unknown; an act (`specs/Act.antt`) is one instruction on it.
//! Its main contract: `acts_are_done`, by which the machine does what an act does to what is known of it.
#![tactic(auto)]

ghost use Rattle.std.specs.Prelude.{◌≡◌, ◌<◌, ℕ, suc, pos, List, Some, slice_get};
ghost use Rattle.elf_static.specs.declared.image.Entries.{Entries};
ghost use Rattle.smlc_base.specs.declared.point.Point.{Point};
ghost use Rattle.rv_isa.specs.declared.table.Op.TheVariants.{Ecall};
ghost use Rattle.rv_isa.specs.declared.word.Ins.{Ins};
ghost use Rattle.rv_isa.specs.Word.{ins};
ghost use Rattle.rv_run.specs.Seen.{blocks};
ghost use Rattle.rv_run.specs.Run.{Spot};
ghost use Rattle.rv_acts.specs.Emitted.{Emitted, IsLaid, IsQuiet};
ghost use Rattle.rv_acts.specs.Fine.{Fine, Shown};
ghost use Rattle.rv_acts.specs.Act.{Act};
ghost use Rattle.rv_acts.specs.Trip.{Trip, Holds, Anywhere};
ghost use Rattle.rv_acts.specs.Laws.{Done, Exits, TripDone, BothShown, Meets, AlikeAt, Watches, TripWalked};

/// The machine does what an act does, and an exit is its end.
pub fn acts_are_done()
    ensures acts { (I : Emitted) (laid : IsLaid I) (i : Ins) (a b : Fine) → Act I i a b → (s : Spot) → Shown I a s → slice_get I.code a.at ≡ Some i → Done I b s }
    ensures exits { (I : Emitted) (laid : IsLaid I) (a : Fine) (s : Spot) (n : ℕ) → Shown I a s → slice_get I.code a.at ≡ Some (ins Ecall 0 0 0 (pos 0)) → a.regs 17 ≡ 93 → a.regs 10 ≡ n → n < 256 → Exits I n s }
{}

/// The machine makes a trip in as many steps, past no entry; two machines of which the same is known make it in lockstep; and where
/// the words of the arena are known, no block and no output is taken back along it.
pub fn trips_are_made()
    ensures done { (I : Emitted) (laid : IsLaid I) (n : ℕ) (a c : Fine) → Trip I (IsQuiet I) n a c → (s : Spot) → Shown I a s → TripDone I n c s }
    ensures alike { (I : Emitted) (laid : IsLaid I) (n : ℕ) (a c : Fine) → Trip I Anywhere n a c → (s t : Spot) → Shown I a s → Shown I a t → BothShown I c s t }
    ensures walked { (I : Emitted) (laid : IsLaid I) (labels : List Point) (ws : List ℕ) (n : ℕ) (a c : Fine) → Trip I (IsQuiet I) n a c → Holds I ws a → (s : Spot) → Shown I a s → TripWalked I labels n c s }
{}

/// Two machines that always come in lockstep to the next two of a sequence, or end alike, are alike after each number of steps.
pub fn lockstep_is_alike()
    ensures { (table : Entries) (s t : ℕ → Spot) → ((i : ℕ) → Meets table (s i) (t i) (s (suc i)) (t (suc i))) → (n : ℕ) → AlikeAt table n (s 0) (t 0) }
{}

/// Where the words of the arena below x8 are known, they are the blocks that are seen, and a trip keeps them.
pub fn arena_is_seen()
    ensures { (I : Emitted) (laid : IsLaid I) (ws : List ℕ) → Watches I (blocks I.entries 0 ws) (Holds I ws) }
{}
