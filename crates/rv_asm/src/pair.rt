//! A distance as the immediates of two instructions.

ghost use Rattle.std.specs.Prelude.{ℕ, ◌≡◌, ◌≤◌, ◌+◌, ◌*◌, ◌%◌, ◌^◌};
ghost use Rattle.rv_isa.specs.Word.{IsWithin, unsigned};
ghost use Rattle.rv_asm.specs.Item.{IsNear};
ghost use Rattle.rv_asm.specs.Pair.{upper, lower, arrives};

/// The immediate of an AUIPC, and that of the ADDI or JALR behind it.
#[derive(Clone, Copy, Debug, PartialEq, Eq)]
pub struct Pair {
    pub upper: i32,
    pub lower: i32,
}

impl Pair {
    /// The bytes from one place to another, which are counted in instructions: the nearest multiple
    /// of 4,096, and what is left.
    pub fn between(here: u64, there: u64) -> Pair
        requires here { IsNear here }
        requires there { IsNear there }
        ensures upper { result.upper ≡ upper here there }
        ensures lower { result.lower ≡ lower here there }
        ensures upper_fits { IsWithin 2147483648 result.upper × (unsigned 2147483648 result.upper % 4096 ≡ 0) }
        ensures lower_fits { IsWithin 2048 result.lower }
        ensures arrives { (base : ℕ) → base ≤ 2 ^ 63 → arrives (base + 4 * here) result.upper result.lower ≡ base + 4 * there }
    {
        // 2^31 and half of 4,096 more than the distance: never below 0, and divided to the nearest.
        let raised = 4 * there + 0x8000_0800 - 4 * here;
        Pair {
            upper: ((raised / 4096 * 4096) as i64 - 0x8000_0000) as i32,
            lower: ((raised % 4096) as i64 - 2048) as i32,
        }
    }
}
