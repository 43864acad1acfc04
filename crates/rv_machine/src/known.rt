//! What was last found of the words that a machine meets, so that a word that comes again isn't decoded again.

ghost use Rattle.std.specs.Prelude.{◌≡◌, ◌<◌, IfSome};
ghost use Rattle.std.specs.Option.{ForSome};
ghost use Rattle.rv_isa.specs.Word.{decoded};

use rv_isa::{Ins, decode};

/// How many words are kept.
const COUNT: usize = 4096;

/// A word and its instruction.
#[derive(Clone, Copy, Debug, PartialEq, Eq)]
struct Known {
    word: u32,
    ins: Option<Ins>,
    ghost exact: { ins ≡ decoded word },
    ghost registers: { ForSome ins (λ i. (i.rd < 32) × (i.rs1 < 32) × (i.rs2 < 32)) },
}

impl Known {
    fn of(word: u32) -> Known
        ensures { result.word ≡ word }
    {
        Known {
            word,
            ins: decode(word),
        }
    }
}

/// Words with their instructions, each kept where the place that it was read from leads to. They follow from the words alone, and so
/// a place whose word has changed is only decoded again.
#[derive(Debug, Drop)]
pub struct KnownWords {
    entries: [Known; COUNT],
}

impl KnownWords {
    ghost use Rattle.std.specs.Prelude.{slice_index_or};
    ghost use Rattle.rv_machine.specs.declared.known.Known.{Known};

    pub fn new() -> KnownWords {
        KnownWords {
            entries: [Known::of(0); COUNT],
        }
    }

    /// The instruction of the word that stands at a place.
    #[inline(always)]
    pub fn instruction(&mut self, at: usize, word: u32) -> Option<Ins>
        ensures value { result ≡ decoded word }
        ensures registers { IfSome result (λ i. (i.rd < 32) × (i.rs1 < 32) × (i.rs2 < 32)) }
    {
        let place = at / 4 % COUNT;
        if self.entries[place].word != word {
            self.learn(place, word);
        }
        self.entries[place].ins
    }

    #[cold]
    #[inline(never)]
    fn learn(&mut self, place: usize, word: u32)
        requires { place < 4096 }
        ensures { (d : Known) → (slice_index_or self.new.entries place d).word ≡ word }
    {
        self.entries[place] = Known::of(word);
    }
}
