//! What run-time routines do: exactly what each leaves, and in how many instructions.
//!
//! It stands on `rv_pieces`, `rv_acts` and what these stand on. It has no code: files of `specs/` have the
//! instructions of each routine, what it is called with and what it leaves.
//! Its main contract: `concat_joins`, by which the routine that joins two strings leaves their joint as a new block, or tells of a full arena.
#![tactic(auto)]

ghost use Rattle.std.specs.Prelude.{◌≡◌, ◌≤◌, ◌<◌, ◌+◌, ◌*◌, ◌/◌, ◌^◌, ◌⊎◌, ℕ, suc, List, length};
ghost use Rattle.rv_acts.specs.Emitted.{Emitted, IsLaid, IsQuiet};
ghost use Rattle.simulation.specs.Runs.{Arena, Normal};
ghost use Rattle.rv_run.specs.Run.{Spot};
ghost use Rattle.rv_acts.specs.Fine.{Fine, Shown};
ghost use Rattle.rv_pieces.specs.Stand.{Stands};
ghost use Rattle.rv_pieces.specs.Pair.{Reaches};
ghost use Rattle.rv_pieces.specs.Route.{Trips, Routes};
ghost use Rattle.routine_laws.specs.Places.{end_at, IsNear, IsClear};
ghost use Rattle.routine_laws.specs.Concat.{concat_code, Strung, joined_top, Joined, JoinedFull, concat_most};
ghost use Rattle.routine_laws.specs.Compare.{compare_code, Compared, compare_most};
ghost use Rattle.routine_laws.specs.Equal.{TurnCode, Empty, Delivered, Two, Turned, TurnFull};
ghost use Rattle.routine_laws.specs.Ends.{full_code, halt_code, Filled, EndsIn};
ghost use Rattle.routine_laws.specs.Index.{size_code, sub_code, Sized, Indexed, OutOfRange};
ghost use Rattle.routine_laws.specs.Raise.{raise_code, Handled, Raised, str_code, Lettered, Stringed, StrFull};
ghost use Rattle.routine_laws.specs.Errors.{errors_code, Ranged, ErrorTold};
ghost use Rattle.routine_laws.specs.Uncaught.{uncaught_code, Thrown, uncaught_most, EndsUncaught};
ghost use Rattle.routine_laws.specs.Print.{print_code, Telling, Printed, print_most};

/// Two strings are joined in a new block where there is room for it; else the routine goes to tell of a full arena.
pub fn concat_joins()
    ensures fits { (I : Emitted) (laid : IsLaid I) (near : IsNear I) (p full : ℕ) → Stands I.code p (concat_code I p full) → IsClear I p 58 → (us bs : List ℕ) (xa xb top ret : ℕ) (a : Fine) → Strung I us bs xa xb top ret p a →
        joined_top us bs top ≤ end_at I → ret < length I.code → Routes I (IsQuiet I) (Joined I us bs top ret a) (concat_most us bs) a }
    ensures full { (I : Emitted) (laid : IsLaid I) (near : IsNear I) (p full : ℕ) → Stands I.code p (concat_code I p full) → IsClear I p 58 → (us bs : List ℕ) (xa xb top ret : ℕ) (a : Fine) → Strung I us bs xa xb top ret p a →
        end_at I < joined_top us bs top → full < length I.code → Trips I (IsQuiet I) (JoinedFull I us bs full a) 20 a }
{}

/// A string is written to the output whole, under any cuts.
pub fn print_writes()
    ensures { (I : Emitted) (laid : IsLaid I) (near : IsNear I) (p : ℕ) → Stands I.code p (print_code I p) → IsClear I p 24 → (bs : List ℕ) (x top ret : ℕ) (a : Fine) → Telling I bs x top ret p a → ret < length I.code →
        Trips I (IsQuiet I) (Printed I bs ret a) (print_most bs) a }
{}

/// A turn of equality on an empty list of pairs delivers the truth value to the continuation.
pub fn empty_turn_delivers()
    ensures { (I : Emitted) (laid : IsLaid I) (near : IsNear I) (q full : ℕ) → TurnCode I q full → IsClear I q 56 → q + 56 ≤ length I.code → full < length I.code → (ret : ℕ) (a : Fine) → Empty I q ret a → ret < length I.code →
        Trips I (IsQuiet I) (Delivered ret a) 5 a }
{}

/// A turn on a pair of two tuples puts the pairs of their fields in front of the list, the first field's first, or goes to tell of a full arena.
pub fn tuples_push_their_fields()
    ensures { (I : Emitted) (laid : IsLaid I) (near : IsNear I) (q full : ℕ) → TurnCode I q full → IsClear I q 56 → q + 56 ≤ length I.code → full < length I.code → (y u v n many top : ℕ) (f g : ℕ → ℕ) (a : Fine) → Two I q y u v n (suc many) top f g a →
        Routes I (IsQuiet I) (λ c. Turned I q n (suc many) top f g a c ⊎ TurnFull I full top a c) (14 + 20 * suc many) a }
{}

/// The routine for a full arena ends so, with what is used in x11; and the one that halts ends normally.
pub fn ends_are_told()
    ensures full { (I : Emitted) (laid : IsLaid I) (near : IsNear I) (p : ℕ) → Stands I.code p (full_code I p) → IsClear I p 7 → (used next : ℕ) (a : Fine) → Filled I used next p a → (s : Spot) → Shown I a s → EndsIn I 6 Arena s }
    ensures halt { (I : Emitted) (laid : IsLaid I) (p : ℕ) → Stands I.code p halt_code → IsClear I p 3 → (a : Fine) → a.at ≡ p → a.regs 0 ≡ 0 → (s : Spot) → Shown I a s → EndsIn I 2 Normal s }
{}

/// The length of a string is answered, and the character at an index; an index out of range, by its unsigned half, goes on to raise.
pub fn strings_are_read()
    ensures size { (I : Emitted) (laid : IsLaid I) (near : IsNear I) (bs : List ℕ) (x top ret p : ℕ) (a : Fine) → Telling I bs x top ret p a → Stands I.code p size_code → IsClear I p 4 → ret < length I.code →
        Trips I (IsQuiet I) (Sized bs ret a) 4 a }
    ensures index { (I : Emitted) (laid : IsLaid I) (near : IsNear I) (bs : List ℕ) (x top ret p : ℕ) (a : Fine) → Telling I bs x top ret p a → (subscript : ℕ) → Stands I.code p (sub_code p subscript) → IsClear I p 10 → (i : ℕ) → a.regs 6 ≡ 2 * i + 1 → i < length bs → ret < length I.code →
        Trips I (IsQuiet I) (Indexed bs i ret a) 8 a }
    ensures outside { (I : Emitted) (laid : IsLaid I) (near : IsNear I) (bs : List ℕ) (x top ret p : ℕ) (a : Fine) → Telling I bs x top ret p a → (subscript : ℕ) → Stands I.code p (sub_code p subscript) → IsClear I p 10 → (v : ℕ) → a.regs 6 ≡ v → v < 2 ^ 64 → length bs ≤ v / 2 → subscript < length I.code →
        Trips I (IsQuiet I) (OutOfRange subscript a) 5 a }
{}

/// Two strings are compared: the first byte that differs decides, and else the length.
pub fn compare_orders()
    ensures { (I : Emitted) (laid : IsLaid I) (near : IsNear I) (p : ℕ) → Stands I.code p (compare_code I p) → IsClear I p 37 → (us bs : List ℕ) (xa xb top ret : ℕ) (a : Fine) → Strung I us bs xa xb top ret p a → ret < length I.code →
        Trips I (IsQuiet I) (Compared I us bs ret a) (compare_most us) a }
{}

/// An exception of the library is raised: the handler is called with the static block of its name.
pub fn library_raises()
    ensures { (I : Emitted) (laid : IsLaid I) (p name ret : ℕ) → Stands I.code p (raise_code p name) → IsClear I p 5 → Reaches p name → (a : Fine) → Handled I ret p a → ret < length I.code →
        Trips I (IsQuiet I) (Raised name ret a) 5 a }
{}

/// A character becomes a string of its own, or the routine goes to tell of a full arena.
pub fn str_makes()
    ensures fits { (I : Emitted) (laid : IsLaid I) (near : IsNear I) (p full : ℕ) → Stands I.code p (str_code p full) → IsClear I p 14 → (letter top ret : ℕ) (a : Fine) → Lettered I letter top ret p a → top + 16 ≤ end_at I → ret < length I.code →
        Routes I (IsQuiet I) (Stringed I letter top ret a) 11 a }
    ensures full { (I : Emitted) (laid : IsLaid I) (near : IsNear I) (p full : ℕ) → Stands I.code p (str_code p full) → IsClear I p 14 → (letter top ret : ℕ) (a : Fine) → Lettered I letter top ret p a → end_at I < top + 16 → full < length I.code →
        Trips I (IsQuiet I) (StrFull I full a) 5 a }
{}

/// The loop that writes to the error stream writes the whole range, under any cuts.
pub fn errors_are_told()
    ensures { (I : Emitted) (laid : IsLaid I) (near : IsNear I) (x n p : ℕ) → Stands I.code p errors_code → IsClear I p 6 → (a : Fine) → Ranged I x n p a → Trips I (IsQuiet I) (ErrorTold x n p a) (n * 6 + 1) a }
{}

/// An uncaught exception ends the run with the line of its name on the error stream.
pub fn uncaught_is_told()
    ensures { (I : Emitted) (laid : IsLaid I) (near : IsNear I) (p front back : ℕ) → Stands I.code p (uncaught_code p front back) → IsClear I p 38 → (top : ℕ) (name : List ℕ) (x y t : ℕ) (a : Fine) → Thrown I front back top p name x y t a → (s : Spot) → Shown I a s → EndsUncaught I (uncaught_most name) name s }
{}

/// Routines take few instructions for each byte that they go over.
pub fn routines_are_soon_done()
    ensures concat { (us bs : List ℕ) → concat_most us bs ≤ 128 * (1 + (length us + length bs)) }
    ensures print { (bs : List ℕ) → print_most bs ≤ 128 * (1 + length bs) }
    ensures compare { (us : List ℕ) → compare_most us ≤ 128 * (1 + length us) }
    ensures uncaught { (name : List ℕ) → uncaught_most name ≤ 128 * (2 + length name) }
{}
