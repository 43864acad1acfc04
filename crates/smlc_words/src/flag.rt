//! The options.

ghost use Rattle.std.specs.Prelude.{◌≡◌, ◌≢◌, IfSome, IfNone};
ghost use Rattle.smlc_words.specs.Given.{spelling};

/// An option. The word behind it is its value.
#[derive(Clone, Copy)]
pub enum Flag {
    /// `-o`: the file that is written.
    Out,
    /// `--arena`: the heap's size in words.
    Arena,
    /// `--steps`: the most instructions that are done.
    Steps,
    /// `--stride`: one entry of so many is measured.
    Stride,
}

/// The option that is written so.
pub fn option_of(word: &str) -> Option<Flag>
    ensures some { IfSome result (λ flag. word.now ≡ spelling flag) }
    ensures none { IfNone result ((flag : Flag) → word.now ≢ spelling flag) }
{
    match word {
        "-o" => Some(Flag::Out),
        "--arena" => Some(Flag::Arena),
        "--steps" => Some(Flag::Steps),
        "--stride" => Some(Flag::Stride),
        _ => None,
    }
}
