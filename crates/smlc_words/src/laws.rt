//! Laws of the definition.

ghost use Rattle.smlc_words.specs.Laws.{AskOnce, AskInRange};

/// Words ask at most one thing, and in its ranges.
pub fn words_ask_once()
    ensures once { AskOnce }
    ensures range { AskInRange }
{}
