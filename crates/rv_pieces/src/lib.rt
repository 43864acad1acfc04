//! Pieces of code over what is known of a running program: jumps and addresses of two instructions, loops, and blocks that are made.
//!
//! It stands on `rv_acts`, `rv_asm` and what these stand on. It has no code.
//! Its main contract: `routes_are_made`, by which the machine goes a route in as many steps, past no entry, in lockstep with any other of
//! which the same is known, and has what it makes below x8.
#![tactic(auto)]

ghost use Rattle.std.specs.Prelude.{◌≡◌, ◌≢◌, ◌≤◌, ◌+◌, ◌*◌, ℕ, suc, List, Option};
ghost use Rattle.smlc_base.specs.declared.point.Point.{Point};
ghost use Rattle.rv_isa.specs.declared.word.Ins.{Ins};
ghost use Rattle.elf_static.specs.declared.image.Image.{Image};
ghost use Rattle.elf_static.specs.Layout.{IsLaidOut};
ghost use Rattle.rv_machine.specs.Run.{Cut};
ghost use Rattle.rv_asm.specs.declared.item.Item.TheVariants.{Jump, Address};
ghost use Rattle.rv_asm.specs.Item.{IsNear};
ghost use Rattle.rv_asm.specs.Layout.{code_at, place_of};
ghost use Rattle.rv_run.specs.Run.{Spot};
ghost use Rattle.rv_acts.specs.Emitted.{Emitted, base, IsLaid, IsQuiet};
ghost use Rattle.rv_acts.specs.Fine.{Fine, Shown};
ghost use Rattle.rv_acts.specs.Trip.{Trip, Anywhere, Holds};
ghost use Rattle.rv_acts.specs.Laws.{TripDone, BothShown};
ghost use Rattle.rv_pieces.specs.Stand.{Stands};
ghost use Rattle.rv_pieces.specs.Route.{Route};
ghost use Rattle.rv_pieces.specs.Start.{HoldsCode, emitted_of, begun, spot_loaded, Starts};
ghost use Rattle.rv_pieces.specs.Laws.{Jumped, Addressed, RouteWalked};

/// A jump to a label and an address of one, as the assembler lays them out, arrive there.
pub fn items_arrive()
    ensures jump { (I : Emitted) (places : List (Option ℕ)) (label : ℕ) (a : Fine) → IsNear a.at → IsNear (place_of places label) → a.regs 0 ≡ 0 → IsQuiet I a.at → IsQuiet I (suc a.at) → Stands I.code a.at (code_at places a.at (Jump label)) → Jumped I (place_of places label) a }
    ensures address { (I : Emitted) (places : List (Option ℕ)) (rd label : ℕ) (a : Fine) → rd ≢ 0 → rd ≢ 8 → IsNear a.at → IsNear (place_of places label) → a.regs 0 ≡ 0 → IsQuiet I a.at → IsQuiet I (suc a.at) → Stands I.code a.at (code_at places a.at (Address rd label)) → Addressed I rd (base + 4 * place_of places label) a }
{}

/// A loop of k rounds, each of at most c acts, is a trip of at most k * c.
pub fn loops_end()
    ensures { (I : Emitted) (c : ℕ) (a : ℕ → Fine) → ((k : ℕ) → (n : ℕ) × (n ≤ c) × Trip I (IsQuiet I) n (a (suc k)) (a k)) → (k : ℕ) → (n : ℕ) × (n ≤ k * c) × Trip I (IsQuiet I) n (a k) (a 0) }
{}

/// The machine goes a route in as many steps, past no entry; two machines of which the same is known go it in lockstep; and no output and
/// no block is taken back on it, and what it makes stands below x8.
pub fn routes_are_made()
    ensures done { (I : Emitted) (laid : IsLaid I) (n : ℕ) (a c : Fine) → Route I (IsQuiet I) n a c → (s : Spot) → Shown I a s → TripDone I n c s }
    ensures alike { (I : Emitted) (laid : IsLaid I) (n : ℕ) (a c : Fine) → Route I Anywhere n a c → (s t : Spot) → Shown I a s → Shown I a t → BothShown I c s t }
    ensures walked { (I : Emitted) (laid : IsLaid I) (labels : List Point) (ws : List ℕ) (n : ℕ) (a c : Fine) → Route I (IsQuiet I) n a c → Holds I ws a → (s : Spot) → Shown I a s → RouteWalked I labels ws n c s }
{}

/// An image that is laid out, and whose text are the bytes of these instructions, begins with every register 0 and with zeros but for its data.
pub fn images_start()
    ensures { (image : Image) (laid : IsLaidOut image) (code : List Ins) → HoldsCode image laid code → (input : Option (List ℕ)) (cuts : List Cut) →
        Starts (emitted_of image laid code) (begun (emitted_of image laid code) input cuts) (spot_loaded image input cuts) }
{}
